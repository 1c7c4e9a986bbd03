// The archive of `bench`, for the benchmark to link.
#![tactic(auto)]

use keyparts::graph::Graph;
use keyparts::index::Index;
use keyvalues::tables::TableWords;

#[unsafe(no_mangle)]
pub extern "C" fn bench_index(graph: &Graph, index: &mut Index) {
    bench::bench_index(graph, index);
}

#[unsafe(no_mangle)]
pub extern "C" fn bench_follow<'a>(
    graph: &'a Graph,
    index: &'a Index,
    tables: &'a TableWords,
    node: u16,
    key: u16,
) -> u16 {
    bench::bench_follow(graph, index, tables, node, key)
}

#[unsafe(no_mangle)]
pub extern "C" fn bench_add_in_place(n: u16) -> u16 {
    bench::bench_add_in_place(n)
}

#[unsafe(no_mangle)]
pub extern "C" fn bench_add_by_value(n: u16) -> u16 {
    bench::bench_add_by_value(n)
}

#[unsafe(no_mangle)]
pub extern "C" fn bench_keys_by_value<'a>(bytes: &'a [u8], keys: &'a [u16], budget: u16) -> u64 {
    bench::calls::bench_keys_by_value(bytes, keys, budget)
}

#[unsafe(no_mangle)]
pub extern "C" fn bench_other_calls(bytes: &[u8]) -> u64 {
    bench::calls::bench_other_calls(bytes)
}

#[unsafe(no_mangle)]
pub extern "C" fn bench_mappings(bytes: &[u8], times: u16) -> u64 {
    bench::calls::bench_mappings(bytes, times)
}

#[unsafe(no_mangle)]
pub extern "C" fn bench_prefixes(bytes: &[u8], times: u16) -> u64 {
    bench::calls::bench_prefixes(bytes, times)
}

#[unsafe(no_mangle)]
pub extern "C" fn bench_inputs(bytes: &[u8], times: u16) -> u64 {
    bench::calls::bench_inputs(bytes, times)
}

#[unsafe(no_mangle)]
pub extern "C" fn bench_repeats(bytes: &[u8], times: u16) -> u64 {
    bench::calls::bench_repeats(bytes, times)
}

#[unsafe(no_mangle)]
pub extern "C" fn bench_resets(bytes: &[u8], times: u16) -> u64 {
    bench::calls::bench_resets(bytes, times)
}

#[unsafe(no_mangle)]
pub extern "C" fn bench_changes(bytes: &[u8], times: u16) -> u64 {
    bench::calls::bench_changes(bytes, times)
}

#[unsafe(no_mangle)]
pub extern "C" fn bench_finds(bytes: &[u8], times: u16) -> u64 {
    bench::calls::bench_finds(bytes, times)
}

#[unsafe(no_mangle)]
pub extern "C" fn bench_opens(times: u16) -> u64 {
    bench::calls::bench_opens(times)
}
