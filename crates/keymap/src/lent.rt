// One scanner, lent to each call. Each function changes or looks at the part of it that its call is about, and a refused call
// leaves the machine as it was.
ghost use Rattle.std.specs.Prelude.{◌≡◌, ◌≤◌, min, length, IfOk};
ghost use Rattle.rules.specs.Calls.{graph_kind, call, mode_call, bind, carry_over, settled, Open, Press, Pop, Repeats, Reset, find, hint};
ghost use Rattle.rules.specs.Writing.{write_call};
ghost use Rattle.keyvalues.specs.View.{maybe_of, told, said_of};
ghost use Rattle.keytables.specs.View.{whole_tables};
ghost use Rattle.keptcalls.specs.View.{binding_in};
ghost use Rattle.keypairs.specs.View.{over_of, pop_of};
ghost use Rattle.keymachine.specs.View.{scanner_of, press_of};
ghost use Rattle.mapparts.specs.View.{length_code};
ghost use Rattle.mapfile.specs.View.{map_of};
ghost use Rattle.keymap.specs.Codes.{open_map, change_map, bind_map, repeat_over};

use keptcalls::binding::Binding;
use keptcalls::words;
use keptcalls::words::CallWords;
use keybind::map::Map;
use keymachine::live;
use keymachine::machine::ModalMachine;
use keymachine::scanner::Scanner;
use keypairs::context::Context;
use keypairs::pair::Pair;
use keytables::tables::Tables;
use keyvalues::refusal::Refusal;
use keyvalues::tables::TableWords;
use mapfile::map as file;
use mapparts::binding;
use mapwrite::map;

pub fn open(m: &mut Scanner, tables: Tables) -> Result<(), Refusal>
    ensures { (scanner_of m.new, said_of result) ≡ call graph_kind (scanner_of m.old) (Open (whole_tables tables)) }
{
    let (machine, answer) = m.machine.open(tables);
    m.machine = machine;
    answer
}

// The machine of a map file, fresh and with its bindings. Their calls are read into words of their own, since a map that is
// refused must leave those that were kept.
#[tactic(auto, using(crate::proofs::Numbers::refused, crate::proofs::Numbers::accepted))]
pub fn open_file(m: &mut Scanner, map: &[u8]) -> Result<(), Refusal>
    ensures { (scanner_of m.new, said_of result) ≡ open_map (scanner_of m.old) map.now }
{
    let mut kept = [CallWords::EMPTY; CallWords::KEPT as usize];
    let mut read = Map::fresh(TableWords::EMPTY);
    file::read_map_or_scratch(map, &mut kept, &mut read)?;
    words::copy_calls(&mut m.kept, &kept, read.kept);
    m.machine = ModalMachine::over(read);
    Ok(())
}

// Another map takes the place of the machine's own, with the binding calls that it kept. The queue, the sequences, the entered
// mode and the context pass over, and the new map is walked along the trail.
#[tactic(auto, unfolding(rules::specs::Calls::carry_over, rules::specs::Calls::fresh, rules::specs::KeyLoop::fresh_shared))]
pub fn change(m: &mut Scanner, map: &Map, kept: &[CallWords; CallWords::KEPT as usize])
    ensures { scanner_of m.new ≡ carry_over graph_kind (scanner_of m.old) (map_of kept.now map.now) }
{
    live::resume(&map.graph, &map.tables, &mut m.machine.live);
    words::copy_calls(&mut m.kept, kept, map.kept);
    m.machine.map = *map;
}

// The map of a map file, which is read whole before anything is changed.
#[tactic(auto, using(crate::proofs::Numbers::not_changed, crate::proofs::Numbers::changed))]
pub fn change_file(m: &mut Scanner, map: &[u8]) -> Result<(), Refusal>
    ensures { (scanner_of m.new, said_of result) ≡ change_map (scanner_of m.old) map.now }
{
    let mut kept = [CallWords::EMPTY; CallWords::KEPT as usize];
    let mut next = Map::fresh(TableWords::EMPTY);
    file::read_map_or_scratch(map, &mut kept, &mut next)?;
    change(m, &next, &kept);
    Ok(())
}

// One binding more.
pub fn bind(m: &mut Scanner, call: &Binding) -> Result<(), Refusal>
    ensures tables { m.new.machine.map.tables ≡ m.old.machine.map.tables }
    ensures bound { (scanner_of m.new, said_of result) ≡ settled graph_kind (scanner_of m.old) (bind graph_kind (binding_in call.now) (scanner_of m.old)) }
{
    let (map, answer) = m.machine.map.bind(&mut m.kept, call);
    m.machine.map = map;
    answer
}

// One binding of a map file more. It is read to its end before it is called.
#[tactic(auto, using(crate::proofs::Numbers::not_read))]
pub fn bind_file(m: &mut Scanner, binding: &[u8]) -> Result<(), Refusal>
    ensures tables { m.new.machine.map.tables ≡ m.old.machine.map.tables }
    ensures bound { (scanner_of m.new, said_of result) ≡ bind_map (scanner_of m.old) binding.now }
{
    bind(m, &binding::read_alone(binding)?)
}

// The answer with the rounds that were made.
pub fn input_key(m: &mut Scanner, key: u16, budget: u16) -> (u16, Result<(), Refusal>)
    ensures { (scanner_of m.new, press_of result) ≡ call graph_kind (scanner_of m.old) (Press (record { key = key; budget = budget })) }
{
    live::input_key(
        &m.machine.map.graph,
        &m.machine.map.tables,
        &mut m.machine.live,
        key,
        budget,
    )
}

pub fn pop(m: &mut Scanner) -> Option<Pair>
    ensures { (scanner_of m.new, pop_of result) ≡ call graph_kind (scanner_of m.old) Pop }
{
    m.machine.live.pop()
}

pub fn repeat(m: &mut Scanner, sequence: u16, over: Option<Context>) -> Result<(), Refusal>
    ensures { (scanner_of m.new, said_of result) ≡ call graph_kind (scanner_of m.old) (Repeats sequence (over_of over)) }
{
    m.machine.live.repeat(sequence, over)
}

// A number that no count has is refused.
#[tactic(auto, using(crate::proofs::Numbers::too_many, crate::proofs::Numbers::few_enough))]
pub fn repeat_over(m: &mut Scanner, sequence: u16, count: u32, mark: u16) -> Result<(), Refusal>
    ensures { (scanner_of m.new, said_of result) ≡ repeat_over (scanner_of m.old) sequence count mark }
{
    let over = Context::numbered(count, mark).ok_or(Refusal::OutOfRange)?;
    repeat(m, sequence, Some(over))
}

pub fn reset_mode(m: &mut Scanner) -> Result<(), Refusal>
    ensures { (scanner_of m.new, said_of result) ≡ call graph_kind (scanner_of m.old) Reset }
{
    live::reset_mode(&m.machine.map.tables, &mut m.machine.live)
}

// The four that only look.
pub fn mode(m: &Scanner) -> u16
    ensures { result ≡ mode_call graph_kind (scanner_of m.now) }
{
    m.machine.live.mode()
}

pub fn find(m: &Scanner, mode: u16, action: u16) -> Result<Option<u16>, Refusal>
    ensures { told maybe_of result ≡ find (scanner_of m.now).bindings mode action }
{
    m.machine.map.graph.find(mode, action)
}

pub fn free_nodes(m: &Scanner) -> u16
    ensures { result ≡ hint (scanner_of m.now).bindings }
{
    m.machine.map.graph.free_nodes()
}

// The map file of the machine: its tables and the binding calls that it kept. Accepted, the bytes stand in front of the output
// and the rest of it stays; refused, all of it is zeros.
pub fn write(m: &Scanner, output: &mut [u8]) -> Result<usize, Refusal>
    ensures few { IfOk result (λ n. n ≤ min (length output.old) 431724) }
    ensures sent { (length_code result, output.new) ≡ write_call graph_kind (scanner_of m.now) output.old }
{
    map::write_map(&m.kept, m.machine.map.kept, &m.machine.map.tables, output)
}
