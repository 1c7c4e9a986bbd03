// The archive of `benchkeys`, for the benchmark to link.
#![tactic(auto)]

#[unsafe(no_mangle)]
pub extern "C" fn bench_keys_in_place<'a>(bytes: &'a [u8], keys: &'a [u16], budget: u16) -> u64 {
    benchkeys::bench_keys_in_place(bytes, keys, budget)
}
