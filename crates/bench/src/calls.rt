// Calls on a machine by value over the map of a map file.
use keptcalls::binding::Binding;
use keptcalls::words::CallWords;
use keymachine::machine::ModalMachine;
use keymachine::scanner::Scanner;
use keypairs::context::Context;
use keypairs::pair::Pair;
use keypairs::tracker::{SequenceTracker, Status};
use keytables::tables::Tables;
use keyvalues::refusal::Refusal;
use keyvalues::step::Step;
use mapfile::map;

// The machine of a map file, with its kept calls; the fresh one, where the file is refused.
fn scanner_of(bytes: &[u8]) -> Scanner {
    let mut kept = [CallWords::EMPTY; CallWords::KEPT as usize];
    let machine = map::read_map(bytes, &mut kept).map_or_else(
        |_| ModalMachine::fresh(),
        ModalMachine::over,
    );
    Scanner { machine, kept }
}

// The machine alone.
fn machine_of(bytes: &[u8]) -> ModalMachine {
    scanner_of(bytes).machine
}

// By value: a call for each key, and pops up to the one that gives nothing.
pub fn bench_keys_by_value<'a>(bytes: &'a [u8], keys: &'a [u16], budget: u16) -> u64 {
    let mut m = machine_of(bytes);
    let mut sum = 0u64;
    for key in keys {
        m = m.input_key(*key, budget).0;
        for _ in 0..=Pair::QUEUE {
            let (after, popped) = m.pop();
            m = after;
            let Some(pair) = popped else {
                break;
            };
            sum = benchkeys::mix(sum, pair);
        }
    }
    sum
}

// What find gives where there is no such node, and where it is refused.
const NO_NODE: u16 = 65534;

const REFUSED: u16 = 65535;

// The node that find gave.
fn node_of(found: Result<Option<u16>, Refusal>) -> u16 {
    match found {
        Ok(Some(node)) => node,
        Ok(None) => NO_NODE,
        Err(_) => REFUSED,
    }
}

// A mapping of two keys to an action, and a prefix of them.
fn mapping(action: u16) -> Binding {
    Binding::Mapping {
        mode: 1,
        path: crate::two_keys(1, 2),
        step: crate::one_action(action),
    }
}

fn prefix(mode: u16, step: Option<Step>) -> Binding {
    Binding::Prefix {
        mode,
        path: crate::two_keys(1, 2),
        step,
    }
}

// A context that overrides count and mark.
fn over(count: u16) -> Context {
    Context {
        count,
        typed: true,
        mark: 6,
    }
}

// How many pairs a sequence by value remembers, of one that was pushed to a fresh one.
fn remembered() -> u16 {
    let (tracker, _) = SequenceTracker::fresh().push(Status::Track, Pair::default());
    tracker.fetch(Some(over(5))).1
}

// Every other call by value but opening and changing, once, for the stack that they use. The answer is the node of a mapping
// that was added, the nodes that are left above it, and the pairs of a sequence above those.
pub fn bench_other_calls(bytes: &[u8]) -> u64 {
    let s = scanner_of(bytes);
    let (mapped, _) = s.bind(&mapping(3));
    let (prefixed, _) = mapped.bind(&prefix(2, Some(crate::one_action(3))));
    let (repeated, _) = prefixed.machine.repeat(0, Some(over(5)));
    let (reset, _) = repeated.reset_mode();
    let found = reset.find(1, 3);
    let left = reset.free_nodes();
    let pairs = remembered();
    ((pairs as u64) * 65536 + (left as u64)) * 65536 + (node_of(found) as u64)
}

// A word more.
fn stir(sum: u64, word: u16) -> u64 {
    sum % 4294967296 * 31 + (word as u64)
}

// A call by value so many times, for its time, each on the machine that the one before handed back. What would make a later
// call do less is put back before it. A word of what each leaves is stirred in.
fn repeated<F: FnMut(u16) -> u16>(times: u16, mut call: F) -> u64
    requires { F.IsAlwaysCallable call }
{
    let mut sum = 0u64;
    for i in 0..times {
        sum = stir(sum, call(i));
    }
    sum
}

// A mapping of two keys, bound again and again.
pub fn bench_mappings(bytes: &[u8], times: u16) -> u64 {
    let mut s = scanner_of(bytes);
    repeated(times, |i| {
        s.machine.map.kept = 0;
        s = s.bind(&mapping(i)).0;
        s.machine.map.graph.counts.nodes
    })
}

// A prefix of two keys without a step, bound again and again.
pub fn bench_prefixes(bytes: &[u8], times: u16) -> u64 {
    let mut s = scanner_of(bytes);
    repeated(times, |_| {
        s.machine.map.kept = 0;
        s = s.bind(&prefix(1, None)).0;
        s.machine.map.graph.counts.nodes
    })
}

// Keys, of which most have no binding, on an empty queue.
pub fn bench_inputs(bytes: &[u8], times: u16) -> u64 {
    let mut m = machine_of(bytes);
    repeated(times, |i| {
        m.live.clear_queue();
        m = m.input_key(i, 1000).0;
        m.live.state.queued
    })
}

// Repeats of 64 pairs, overridden, on an empty queue.
pub fn bench_repeats(bytes: &[u8], times: u16) -> u64 {
    let mut m = machine_of(bytes);
    m.live.sequences[0].head = 128;
    repeated(times, |i| {
        m.live.clear_queue();
        m = m.repeat(0, Some(over(i))).0;
        m.live.state.queued
    })
}

// Resets.
pub fn bench_resets(bytes: &[u8], times: u16) -> u64 {
    let mut m = machine_of(bytes);
    repeated(times, |_| {
        m = m.reset_mode().0;
        m.live.state.queued
    })
}

// Changes to the map that the machine has, each from a place of its own: with no key on the trail it comes to a root.
pub fn bench_changes(bytes: &[u8], times: u16) -> u64 {
    let next = machine_of(bytes);
    let mut m = next;
    repeated(times, |_| {
        m.live.state.place = 20;
        m = m.change(next);
        m.live.state.place
    })
}

// Finds, mostly of an action that no step has.
pub fn bench_finds(bytes: &[u8], times: u16) -> u64 {
    let m = machine_of(bytes);
    repeated(times, |i| node_of(m.find(0, i)))
}

// Openings with 16 modes, 64 rules and 0 to 16 classes.
pub fn bench_opens(times: u16) -> u64 {
    let mut tables = Tables::default();
    tables.sizes.modes = 16;
    tables.sizes.rules = 64;
    let mut m = ModalMachine::fresh();
    repeated(times, |i| {
        tables.sizes.classes = i % 17;
        m = m.open(tables).0;
        m.map.tables.class_count
    })
}
