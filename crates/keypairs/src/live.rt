// The live state of a machine: the queue of waiting pairs, the remembered sequences, the trail, and what is small. It is lent and
// changed in place.
ghost use Rattle.std.specs.Prelude.{◌≡◌, List, [], ◌++◌, ◌+◌, ◌≤◌, length, map, take};
ghost use Rattle.std.proofs.Math.Option.{some};
ghost use Rattle.rules.specs.Tables.{Tables};
ghost use Rattle.rules.specs.KeyLoop as key;
ghost use Rattle.rules.specs.Values.{Binding};
ghost use Rattle.rules.specs.Graph.{Graph};
ghost use Rattle.rules.specs.Calls.{graph_kind, fresh, call, mode_call, Pop, Repeats};
ghost use Rattle.keyvalues.specs.View.{told, event_of, maybe_of, said_of, settled};
ghost use Rattle.keytables.specs.View.{tables_of};
ghost use Rattle.keypairs.specs.View.{context_in, pair_by, trackers_of, broke, over_of, fetched_at, live_of, shared_of, machine_by, hooked, joined, pop_of};

use crate::context::Context;
use crate::pair::Pair;
use crate::rule;
use crate::state::State;
use crate::tracker::SequenceTracker;
use keyvalues::event::EdgeEvent;
use keyvalues::list;
use keyvalues::refusal::Refusal;
use keyvalues::tables::TableWords;

// Of the queue and the trail the state says how many count; more than there are places is all of them.
#[repr(C)]
#[derive(Clone, Copy)]
pub struct Live {
    pub queue: [u64; Pair::QUEUE as usize],
    pub sequences: [SequenceTracker; SequenceTracker::SEQUENCES as usize],
    pub trail: [u16; State::TRAIL as usize],
    pub state: State,
}

// Words go before the first `waiting` words of the queue. By a copy, as below: what is moved within an array calls `memmove`,
// which the archive for C does without.
fn put_before(queue: &mut [u64; Pair::QUEUE as usize], waiting: usize, words: &[u64])
    requires { length words.now + waiting ≤ length queue.old }
    ensures { take (length words.now + waiting) queue.new ≡ words.now ++ take waiting queue.old }
{
    let count = words.len();
    let old = *queue;
    queue[count..count + waiting].copy_from_slice(&old[..waiting]);
    queue[..count].copy_from_slice(words);
}

impl Live {
    // Mode 0, no pair, no trail.
    #[tactic(auto, unfolding(rules::specs::Calls::fresh, rules::specs::KeyLoop::fresh_shared, rules::specs::Calls::graph_navigator, rules::specs::Values::no_context, rules::specs::KeyLoop::no_tracker))]
    pub fn fresh() -> Live
        ensures { (t : Tables) → live_of t result ≡ (fresh graph_kind t).state }
    {
        Live {
            queue: [0; Pair::QUEUE as usize],
            sequences: [SequenceTracker::fresh(); SequenceTracker::SEQUENCES as usize],
            trail: [0; State::TRAIL as usize],
            state: State::default(),
        }
    }

    // The mark of a step, if it has one.
    #[tactic(auto, unfolding(rules::specs::KeyLoop::set_mark))]
    pub(crate) fn set_mark(&mut self, mark: Option<u16>)
        ensures { (t : Tables) → live_of t self.new ≡ key.at self.old.state.place (key.set_mark (maybe_of mark) (shared_of t self.old)) }
    {
        if let Some(mark) = mark {
            let context = Context::unpack(self.state.context);
            self.state.context = Context { mark, ..context }.pack();
        }
    }

    // The place is this node.
    pub fn come_to(&mut self, place: u16)
        ensures { (t : Tables) → live_of t self.new ≡ key.at place (shared_of t self.old) }
    {
        self.state.place = place;
    }

    // The event hook, after a key went by the event. Most go by a Key edge, which leaves the context as it is.
    #[tactic(auto, unfolding(rules::specs::KeyLoop::run_hook, rules::specs::Values::hook, keyvalues::specs::View::settled))]
    pub fn hook(&mut self, event: EdgeEvent, key: u16) -> Result<(), Refusal>
        ensures { (t : Tables) → (live_of t self.new, said_of result) ≡ settled (live_of t self.old) (hooked (some (event_of event)) key (live_of t self.old)) }
    {
        if let EdgeEvent::Key(_) = event {
            return Ok(());
        }
        let context = Context::unpack(self.state.context);
        self.state.context = context.event(event, key)?.pack();
        Ok(())
    }

    // A pair goes to the sequences by the rules of the mode, and then behind the queue.
    #[tactic(auto, unfolding(rules::specs::KeyLoop::push))]
    fn push(&mut self, tables: &TableWords, pair: Pair) -> Result<(), Refusal>
        ensures { told (λ _. shared_of (tables_of tables.now) self.new) result ≡ key.push (pair_by pair) (shared_of (tables_of tables.now) self.old) }
    {
        let w = pair.pack();
        rule::apply_rules(tables, &mut self.sequences, self.state.mode, w)?;
        let queued = list::append(&mut self.queue, self.state.queued, w);
        self.state.queued = queued.ok_or(Refusal::QueueFull)?;
        Ok(())
    }

    // A pair for each of the actions, all with one context, which comes as a word.
    #[tactic(auto, using(crate::proofs::Pushes::actions_more, crate::proofs::Pushes::actions_refused, crate::proofs::Pushes::actions_none))]
    pub(crate) fn push_all(
        &mut self,
        tables: &TableWords,
        actions: &[u16],
        context: u64,
    ) -> Result<(), Refusal>
        ensures { told (λ _. shared_of (tables_of tables.now) self.new) result ≡ key.push_all actions.now (context_in context) (shared_of (tables_of tables.now) self.old) }
    {
        let context = Context::unpack(context);
        for action in actions {
            let pair = Pair {
                action: *action,
                context,
            };
            self.push(tables, pair)?;
        }
        Ok(())
    }

    // Every sequence is broken.
    #[tactic(auto, using(crate::proofs::Lists::changed_all))]
    pub fn break_all(&mut self)
        ensures rest { self.new ≡ record self.old { sequences = self.new.sequences } }
        ensures broken { trackers_of self.new.sequences ≡ map broke (trackers_of self.old.sequences) }
    {
        for sequence in &mut self.sequences {
            sequence.break_off();
        }
    }

    // The words of the waiting pairs.
    pub fn waiting(&self) -> &[u64]
        ensures { result.now ≡ take self.now.state.queued self.now.queue }
    {
        list::front(&self.queue, self.state.queued)
    }

    // No pair waits any longer.
    pub fn clear_queue(&mut self)
        ensures { (t : Tables) → live_of t self.new ≡ key.at self.old.state.place (key.with_queue [] (shared_of t self.old)) }
    {
        self.state.queued = 0;
    }

    // The keys on the trail.
    pub fn on_trail(&self) -> &[u16]
        ensures value { result.now ≡ take self.now.state.trailed self.now.trail }
        ensures few { length result.now ≤ 64 }
    {
        list::front(&self.trail, self.state.trailed)
    }

    pub fn clear_trail(&mut self)
        ensures { (t : Tables) → live_of t self.new ≡ key.clear_trail (live_of t self.old) }
    {
        self.state.trailed = 0;
    }

    // The key joins the trail.
    #[tactic(auto, unfolding(keyvalues::specs::View::settled))]
    pub fn join_trail(&mut self, key: u16) -> Result<(), Refusal>
        ensures { (t : Tables) → (live_of t self.new, said_of result) ≡ settled (live_of t self.old) (joined key (live_of t self.old)) }
    {
        let trailed = list::append(&mut self.trail, self.state.trailed, key);
        self.state.trailed = trailed.ok_or(Refusal::TrailFull)?;
        Ok(())
    }

    // The first waiting pair, if there is one.
    #[tactic(auto, using(crate::proofs::Calls::pop_none))]
    pub fn pop(&mut self) -> Option<Pair>
        ensures { (gr : Graph) (ks : List Binding) (t : Tables) → (machine_by gr ks t self.new, pop_of result) ≡ call graph_kind (machine_by gr ks t self.old) Pop }
    {
        let waiting = self.waiting().len();
        if waiting == 0 {
            return None;
        }
        let first = Pair::unpack(self.queue[0]);
        let old = self.queue;
        self.queue[..waiting - 1].copy_from_slice(&old[1..waiting]);
        self.state.queued = (waiting - 1) as u16;
        Some(first)
    }

    // The sequence of the number is fetched. A number that no sequence has changes nothing, and the answer is 0.
    #[tactic(auto, using(crate::proofs::Sequences::fetched_out))]
    pub fn fetch(&mut self, sequence: u16, over: Option<Context>) -> u16
        ensures rest { self.new ≡ record self.old { sequences = self.new.sequences } }
        ensures fetched { (trackers_of self.new.sequences, result) ≡ fetched_at sequence (over_of over) (trackers_of self.old.sequences) }
    {
        if SequenceTracker::SEQUENCES <= sequence {
            return 0;
        }
        self.sequences[sequence as usize].fetch_in_place(over)
    }

    // The remembered pairs of the sequence, overridden and stored again, go before the queue. Refused, nothing is changed.
    #[tactic(auto, using(crate::proofs::Calls::repeat_none))]
    pub fn repeat(&mut self, sequence: u16, over: Option<Context>) -> Result<(), Refusal>
        ensures { (gr : Graph) (ks : List Binding) (t : Tables) → (machine_by gr ks t self.new, said_of result) ≡ call graph_kind (machine_by gr ks t self.old) (Repeats sequence (over_of over)) }
    {
        if SequenceTracker::SEQUENCES <= sequence {
            return Err(Refusal::OutOfRange);
        }
        let waiting = self.waiting().len();
        let count = self.sequences[sequence as usize].count() as usize;
        if self.queue.len() < count + waiting {
            return Err(Refusal::QueueFull);
        }
        self.fetch(sequence, over);
        let fetched = self.sequences[sequence as usize];
        put_before(&mut self.queue, waiting, fetched.words());
        self.state.queued = (count + waiting) as u16;
        Ok(())
    }

    // The entered mode.
    #[tactic(auto, unfolding(rules::specs::Calls::mode_call))]
    pub fn mode(&self) -> u16
        ensures { (gr : Graph) (ks : List Binding) (t : Tables) → result ≡ mode_call graph_kind (machine_by gr ks t self.now) }
    {
        self.state.mode
    }
}
