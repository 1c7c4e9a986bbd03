// What C calls: the archive of the functions of `keymap::firmware`, with their clauses. `include/keymap.h` says what it lends.
#![tactic(auto)]

ghost use Rattle.std.specs.Prelude.{◌*◌, ◌≡◌, length};
ghost use Rattle.std.proofs.Math.Option.{none};
ghost use Rattle.rules.specs.Calls.{graph_kind, call, mode_call, Press, Pop, Repeats, Reset, find, hint};
ghost use Rattle.rules.specs.Run.{pair_bytes, run, answered};
ghost use Rattle.rules.specs.Writing.{write_call};
ghost use Rattle.keymachine.specs.View.{scanner_of};
ghost use Rattle.keymap.specs.Codes.{coded, open_map, change_map, bind_map, repeat_over, find_code, scanner_bytes};

use keymachine::scanner::Scanner;
use keymap::firmware;

#[unsafe(no_mangle)]
pub extern "C" fn keymap_size() -> usize
    ensures { result ≡ scanner_bytes }
{
    firmware::keymap_size()
}

#[unsafe(no_mangle)]
pub extern "C" fn keymap_open(m: &mut Scanner, map: &[u8]) -> u64
    ensures { (scanner_of m.new, result) ≡ coded (open_map (scanner_of m.old) map.now) }
{
    firmware::keymap_open(m, map)
}

#[unsafe(no_mangle)]
pub extern "C" fn keymap_change(m: &mut Scanner, map: &[u8]) -> u64
    ensures { (scanner_of m.new, result) ≡ coded (change_map (scanner_of m.old) map.now) }
{
    firmware::keymap_change(m, map)
}

#[unsafe(no_mangle)]
pub extern "C" fn keymap_bind(m: &mut Scanner, binding: &[u8]) -> u64
    ensures { (scanner_of m.new, result) ≡ coded (bind_map (scanner_of m.old) binding.now) }
{
    firmware::keymap_bind(m, binding)
}

#[unsafe(no_mangle)]
pub extern "C" fn keymap_key(m: &mut Scanner, key: u16, budget: u16) -> u64
    ensures { (scanner_of m.new, result) ≡ coded (call graph_kind (scanner_of m.old) (Press (record { key = key; budget = budget }))) }
{
    firmware::keymap_key(m, key, budget)
}

#[unsafe(no_mangle)]
pub extern "C" fn keymap_pop(m: &mut Scanner) -> u64
    ensures { (scanner_of m.new, result) ≡ coded (call graph_kind (scanner_of m.old) Pop) }
{
    firmware::keymap_pop(m)
}

#[unsafe(no_mangle)]
pub extern "C" fn keymap_repeat(m: &mut Scanner, sequence: u16) -> u64
    ensures { (scanner_of m.new, result) ≡ coded (call graph_kind (scanner_of m.old) (Repeats sequence none)) }
{
    firmware::keymap_repeat(m, sequence)
}

#[unsafe(no_mangle)]
pub extern "C" fn keymap_repeat_over(m: &mut Scanner, sequence: u16, count: u32, mark: u16) -> u64
    ensures { (scanner_of m.new, result) ≡ coded (repeat_over (scanner_of m.old) sequence count mark) }
{
    firmware::keymap_repeat_over(m, sequence, count, mark)
}

#[unsafe(no_mangle)]
pub extern "C" fn keymap_reset(m: &mut Scanner) -> u64
    ensures { (scanner_of m.new, result) ≡ coded (call graph_kind (scanner_of m.old) Reset) }
{
    firmware::keymap_reset(m)
}

#[unsafe(no_mangle)]
pub extern "C" fn keymap_mode(m: &Scanner) -> u64
    ensures { result ≡ mode_call graph_kind (scanner_of m.now) }
{
    firmware::keymap_mode(m)
}

#[unsafe(no_mangle)]
pub extern "C" fn keymap_find(m: &Scanner, mode: u16, action: u16) -> u64
    ensures { result ≡ find_code (find (scanner_of m.now).bindings mode action) }
{
    firmware::keymap_find(m, mode, action)
}

#[unsafe(no_mangle)]
pub extern "C" fn keymap_free(m: &Scanner) -> u64
    ensures { result ≡ hint (scanner_of m.now).bindings * 32 }
{
    firmware::keymap_free(m)
}

#[unsafe(no_mangle)]
pub extern "C" fn keymap_write(m: &Scanner, output: &mut [u8]) -> u64
    ensures { (result, output.new) ≡ write_call graph_kind (scanner_of m.now) output.old }
{
    firmware::keymap_write(m, output)
}

#[unsafe(no_mangle)]
pub extern "C" fn keymap_run(map: &[u8], keys: &[u8], output: &mut [u8], budget: u16) -> u64
    ensures { (result, output.new) ≡ answered pair_bytes output.old (run map.now keys.now budget (length output.old)) }
{
    firmware::keymap_run(map, keys, output, budget)
}
