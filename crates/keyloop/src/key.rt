// One key, in place. The keys still to try are a stack, whose top is the next one.
ghost use Rattle.std.specs.Prelude.{◌≡◌, ◌+◌, ◌-◌, ◌<◌, ◌≤◌, take};
ghost use Rattle.rules.specs.KeyLoop as rules;
ghost use Rattle.keyvalues.specs.View.{told};
ghost use Rattle.keytables.specs.View.{tables_of};
ghost use Rattle.keypairs.specs.View.{live_of};
ghost use Rattle.keyloop.specs.Stack.{keys_of, Room};
ghost use Rattle.keyloop.specs.View.{navigator_of, result_by, key_of};

use crate::stack::Stack;
use crate::turn;
use crate::turn::InputResult;
use keypairs::live::Live;
use keyparts::index::IndexedGraph;
use keyvalues::refusal::Refusal;
use keyvalues::tables::TableWords;

// What a key and a walk read of a map. Any index will do: following goes as its links lead, and with those of an index of the
// graph as the edges do.
#[derive(Clone, Copy)]
pub struct IndexedMap<'a> {
    pub indexed: IndexedGraph<'a>,
    pub tables: &'a TableWords,
}

// A key from here on decomposes, into a first key and what is left of it.
const COMPOSED: u16 = 32768;

const FIRST_KEY: u16 = 27;

// What is left of a key that decomposes.
fn rest_of(key: u16) -> u16
    requires { 32768 ≤ key }
    ensures { (result ≡ key - 32768) × (result < 32768) }
{
    key - COMPOSED
}

// One round: the keys to try after it are left on the stack.
fn round(map: &IndexedMap, live: &mut Live, stack: &mut Stack, key: u16) -> Result<(), Refusal>
    requires { Room key (keys_of stack.old) (take live.old.state.trailed live.old.trail) }
    ensures { told (λ _. (keys_of stack.new, live_of (tables_of map.now.tables.now) live.new)) result ≡ rules.round (navigator_of map.now) key (keys_of stack.old) (live_of (tables_of map.now.tables.now) live.old) }
{
    let input_result = turn::turn(map, live, key)?;
    after(map, live, stack, key, input_result)
}

// What a turn came to is done.
#[tactic(auto, unfolding(rules::specs::KeyLoop::after))]
fn after(
    map: &IndexedMap,
    live: &mut Live,
    stack: &mut Stack,
    key: u16,
    input_result: InputResult,
) -> Result<(), Refusal>
    requires { Room key (keys_of stack.old) (take live.old.state.trailed live.old.trail) }
    ensures { told (λ _. (keys_of stack.new, live_of (tables_of map.now.tables.now) live.new)) result ≡ rules.after (navigator_of map.now) (result_by input_result) key (keys_of stack.old) (live_of (tables_of map.now.tables.now) live.old) }
{
    match input_result {
        InputResult::Again => {
            stack.push(key);
            Ok(())
        }
        InputResult::ClearTrail => {
            live.clear_trail();
            stack.push(key);
            Ok(())
        }
        InputResult::Consumed => {
            live.clear_trail();
            Ok(())
        }
        InputResult::NeedMore => live.join_trail(key),
        InputResult::Unmapped => unmapped(map, live, stack, key),
        InputResult::RunStep(step) => {
            live.clear_trail();
            live.step_or_scratch(map.tables, &step)
        }
        InputResult::RetryAfter(step) => {
            live.clear_trail();
            stack.push(key);
            live.step_or_scratch(map.tables, &step)
        }
    }
}

// A key with no binding decomposes, or its trail is tried again without its first.
fn unmapped(map: &IndexedMap, live: &mut Live, stack: &mut Stack, key: u16) -> Result<(), Refusal>
    requires { Room key (keys_of stack.old) (take live.old.state.trailed live.old.trail) }
    ensures { told (λ _. (keys_of stack.new, live_of (tables_of map.now.tables.now) live.new)) result ≡ rules.after (navigator_of map.now) rules.Unmapped key (keys_of stack.old) (live_of (tables_of map.now.tables.now) live.old) }
{
    if key >= COMPOSED {
        stack.push(rest_of(key));
        stack.push(FIRST_KEY);
        return Ok(());
    }
    stack.put_back(live.on_trail(), key);
    live.clear_trail();
    live.unmapped_or_scratch(map.indexed.graph, map.tables)
}

// One key, with the rounds that were made. Refused, the lent live state is scratch: the refusal and the rounds alone count.
#[tactic(auto, using(crate::proofs::Loop::loop_stop, crate::proofs::Loop::loop_out, crate::proofs::Loop::loop_done))]
pub fn input_key_or_scratch(
    map: &IndexedMap,
    live: &mut Live,
    first: u16,
    budget: u16,
) -> (u16, Result<(), Refusal>)
    ensures { key_of result (live_of (tables_of map.now.tables.now) live.new) ≡ rules.input_key (navigator_of map.now) (record { key = first; budget = budget }) (live_of (tables_of map.now.tables.now) live.old) }
{
    // Read for its promise alone: at most 64 keys are on the trail, so that the stack has room for all.
    let _trail = live.on_trail();
    let mut stack = Stack::of(first);
    for rounds in 0..budget {
        match stack.pop() {
            None => return (rounds, Ok(())),
            Some(key) => {
                if let Err(refusal) = round(map, live, &mut stack, key) {
                    return (rounds + 1, Err(refusal));
                }
            }
        }
    }
    match stack.pop() {
        None => (budget, Ok(())),
        Some(_) => (budget, Err(Refusal::NoBudget)),
    }
}
