// What C calls. `keymap.h` says what it lends. Each call on the one scanner that C keeps is that of lent.rt, with its answer as a
// number; beside them stand the bytes of a scanner, and the run, which needs none.
ghost use Rattle.std.specs.Prelude.{◌*◌, ◌≡◌, length};
ghost use Rattle.std.proofs.Math.Option.{none};
ghost use Rattle.rules.specs.Calls.{graph_kind, call, mode_call, Press, Pop, Repeats, Reset, find, hint};
ghost use Rattle.rules.specs.Run.{pair_bytes, run, answered};
ghost use Rattle.rules.specs.Writing.{write_call};
ghost use Rattle.keymachine.specs.View.{scanner_of};
ghost use Rattle.keymap.specs.Codes.{coded, open_map, change_map, bind_map, repeat_over, find_code, scanner_bytes};

use crate::{codes, lent};
use keymachine::scanner::Scanner;
use mapfile::run;

// The bytes that C lends for a scanner.
pub fn keymap_size() -> usize
    ensures { result ≡ scanner_bytes }
{
    187896
}

// The machine of a map file, fresh and with its bindings. Refused, the machine is as it was.
pub fn keymap_open(m: &mut Scanner, map: &[u8]) -> u64
    ensures { (scanner_of m.new, result) ≡ coded (open_map (scanner_of m.old) map.now) }
{
    codes::answer_code(lent::open_file(m, map))
}

// The map of a map file takes the place of the machine's own; the live state passes over, and its trail is walked in the new map.
// Refused, the machine is as it was.
pub fn keymap_change(m: &mut Scanner, map: &[u8]) -> u64
    ensures { (scanner_of m.new, result) ≡ coded (change_map (scanner_of m.old) map.now) }
{
    codes::answer_code(lent::change_file(m, map))
}

// One binding more, in the map file's layout. Refused, the machine is as it was.
pub fn keymap_bind(m: &mut Scanner, binding: &[u8]) -> u64
    ensures tables { m.new.machine.map.tables ≡ m.old.machine.map.tables }
    ensures bound { (scanner_of m.new, result) ≡ coded (bind_map (scanner_of m.old) binding.now) }
{
    codes::answer_code(lent::bind_file(m, binding))
}

pub fn keymap_key(m: &mut Scanner, key: u16, budget: u16) -> u64
    ensures { (scanner_of m.new, result) ≡ coded (call graph_kind (scanner_of m.old) (Press (record { key = key; budget = budget }))) }
{
    codes::pressed_code(lent::input_key(m, key, budget))
}

pub fn keymap_pop(m: &mut Scanner) -> u64
    ensures { (scanner_of m.new, result) ≡ coded (call graph_kind (scanner_of m.old) Pop) }
{
    codes::waiting_code(lent::pop(m))
}

pub fn keymap_repeat(m: &mut Scanner, sequence: u16) -> u64
    ensures { (scanner_of m.new, result) ≡ coded (call graph_kind (scanner_of m.old) (Repeats sequence none)) }
{
    codes::answer_code(lent::repeat(m, sequence, None))
}

pub fn keymap_repeat_over(m: &mut Scanner, sequence: u16, count: u32, mark: u16) -> u64
    ensures { (scanner_of m.new, result) ≡ coded (repeat_over (scanner_of m.old) sequence count mark) }
{
    codes::answer_code(lent::repeat_over(m, sequence, count, mark))
}

pub fn keymap_reset(m: &mut Scanner) -> u64
    ensures { (scanner_of m.new, result) ≡ coded (call graph_kind (scanner_of m.old) Reset) }
{
    codes::answer_code(lent::reset_mode(m))
}

// The four that only look.
pub fn keymap_mode(m: &Scanner) -> u64
    ensures { result ≡ mode_call graph_kind (scanner_of m.now) }
{
    lent::mode(m) as u64
}

pub fn keymap_find(m: &Scanner, mode: u16, action: u16) -> u64
    ensures { result ≡ find_code (find (scanner_of m.now).bindings mode action) }
{
    codes::found_code(lent::find(m, mode, action))
}

pub fn keymap_free(m: &Scanner) -> u64
    ensures { result ≡ hint (scanner_of m.now).bindings * 32 }
{
    (lent::free_nodes(m) as u64) * 32
}

// The length × 32, or the refusal. Accepted, the bytes stand in front of the output and the rest of it stays; refused, all of it
// is zeros. So too of a run.
pub fn keymap_write(m: &Scanner, output: &mut [u8]) -> u64
    ensures { (result, output.new) ≡ write_call graph_kind (scanner_of m.now) output.old }
{
    codes::length_code(lent::write(m, output))
}

// A map and keys at once, without a scanner.
pub fn keymap_run(map: &[u8], keys: &[u8], output: &mut [u8], budget: u16) -> u64
    ensures { (result, output.new) ≡ answered pair_bytes output.old (run map.now keys.now budget (length output.old)) }
{
    codes::length_code(run::run(map, keys, output, budget))
}
