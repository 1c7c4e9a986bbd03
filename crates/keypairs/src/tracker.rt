// A remembered sequence: a head, which is twice the number of its pairs and one more if it is broken, and then the pairs. The
// machine keeps eight of them. Every number is some head, so that every value of the words is some sequence.
ghost use Rattle.std.specs.Prelude.{◌≡◌, ◌≤◌, ◌<◌, ◌∷◌, [], ◌++◌, length, map};
ghost use Rattle.rules.specs.Tables as t;
ghost use Rattle.rules.specs.KeyLoop as key;
ghost use Rattle.keyvalues.specs.View.{told, said_of, settled};
ghost use Rattle.keypairs.specs.View.{pair_of, pairs_of, pair_by, tracker_by, status_by, broke, over_of, fetched_by};

use crate::context::Context;
use crate::pair::Pair;
use keytables::rule::Rule;
use keyvalues::refusal::Refusal;

#[derive(Clone, Copy, Debug, PartialEq, Eq)]
pub enum Status {
    Atom,
    Break,
    Ignore,
    Restart,
    Track,
}

impl From<u16> for Status {
    // The status of a number; every number from 4 on is Track.
    #[tactic(auto, unfolding(rules::specs::Tables::status_of))]
    fn from(n: u16) -> Status
        ensures { status_by result ≡ t.status_of n }
    {
        match n {
            0 => Status::Atom,
            1 => Status::Break,
            2 => Status::Ignore,
            3 => Status::Restart,
            _ => Status::Track,
        }
    }
}

#[repr(C)]
#[derive(Clone, Copy)]
pub struct SequenceTracker {
    pub head: u64,
    pub pairs: [u64; SequenceTracker::PAIRS as usize],
}

impl SequenceTracker {
    // So many sequences are kept, with so many pairs each at most.
    pub const SEQUENCES: u16 = Rule::SEQUENCES;

    pub const PAIRS: u16 = 64;

    #[tactic(auto, unfolding(rules::specs::KeyLoop::no_tracker, crate::specs::View::tracker_by))]
    pub fn fresh() -> SequenceTracker
        ensures { tracker_by result ≡ key.no_tracker }
    {
        SequenceTracker {
            head: 0,
            pairs: [0; SequenceTracker::PAIRS as usize],
        }
    }

    // How many pairs there are: all, where the head counts more.
    #[tactic(auto, using(crate::proofs::Sequences::length_pairs), unfolding(crate::specs::View::tracker_by))]
    pub(crate) fn count(&self) -> u16
        ensures value { result ≡ length (tracker_by self.now).pairs }
        ensures few { result ≤ 64 }
    {
        (self.head / 2).min(SequenceTracker::PAIRS as u64) as u16
    }

    // The words of the pairs.
    #[tactic(auto, using(crate::proofs::Sequences::front_words), unfolding(crate::specs::View::tracker_by))]
    pub(crate) fn words(&self) -> &[u64]
        ensures { map pair_of result.now ≡ (tracker_by self.now).pairs }
    {
        &self.pairs[..self.count() as usize]
    }

    // The pair of the word behind the first n others, with which they are all.
    #[tactic(auto, using(crate::proofs::Sequences::put_is))]
    fn put(&mut self, n: usize, w: u64, broken: bool)
        requires { n < 64 }
        ensures { tracker_by self.new ≡ key.tracker (pairs_of n self.old.pairs ++ (pair_of w ∷ [])) broken }
    {
        self.pairs[n] = w;
        self.head = 2 * (n as u64 + 1) + u64::from(broken);
    }

    // The sequence is broken: the next Track starts anew.
    #[tactic(auto, using(crate::proofs::Sequences::broken_is))]
    pub(crate) fn break_off(&mut self)
        ensures { tracker_by self.new ≡ broke (tracker_by self.old) }
    {
        self.head = self.head / 2 * 2 + 1;
    }

    // A Track: anew if the sequence is broken, and else behind its pairs.
    #[tactic(auto, using(crate::proofs::Sequences::front_words), unfolding(rules::specs::KeyLoop::track, crate::specs::View::tracker_by))]
    fn track_on(&mut self, w: u64) -> Result<(), Refusal>
        ensures { told (λ _. tracker_by self.new) result ≡ key.track t.Track (pair_of w) (tracker_by self.old) }
    {
        if self.head % 2 == 1 {
            self.put(0, w, false);
            return Ok(());
        }
        let count = self.count();
        if SequenceTracker::PAIRS <= count {
            return Err(Refusal::SequenceFull);
        }
        self.put(count as usize, w, false);
        Ok(())
    }

    // What a rule of the status does with the pair.
    #[tactic(auto, unfolding(rules::specs::KeyLoop::track))]
    pub(crate) fn track(&mut self, status: Status, w: u64) -> Result<(), Refusal>
        ensures { told (λ _. tracker_by self.new) result ≡ key.track (status_by status) (pair_of w) (tracker_by self.old) }
    {
        match status {
            Status::Atom => self.put(0, w, true),
            Status::Break => self.break_off(),
            Status::Ignore => {}
            Status::Restart => self.put(0, w, false),
            Status::Track => return self.track_on(w),
        }
        Ok(())
    }

    // Each pair is overridden and stored again. The answer is their number.
    #[tactic(auto, using(crate::proofs::Lists::changed_on, crate::proofs::Lists::changed_all), unfolding(rules::specs::KeyLoop::fetch, crate::specs::View::tracker_by))]
    pub(crate) fn fetch_in_place(&mut self, over: Option<Context>) -> u16
        ensures { (tracker_by self.new, result) ≡ fetched_by (over_of over) (tracker_by self.old) }
    {
        let count = self.count();
        for w in &mut self.pairs[..count as usize] {
            *w = Pair::unpack(*w).overridden(over).pack();
        }
        count
    }

    // By value. Refused, the tracker is the one before.
    #[tactic(auto, unfolding(keyvalues::specs::View::settled))]
    pub fn push(self, status: Status, pair: Pair) -> (SequenceTracker, Result<(), Refusal>)
        ensures { (tracker_by result.0, said_of result.1) ≡ settled (tracker_by self) (key.track (status_by status) (pair_by pair) (tracker_by self)) }
    {
        let mut next = self;
        match next.track(status, pair.pack()) {
            Ok(()) => (next, Ok(())),
            Err(refusal) => (self, Err(refusal)),
        }
    }

    pub fn fetch(mut self, over: Option<Context>) -> (SequenceTracker, u16)
        ensures { (tracker_by result.0, result.1) ≡ fetched_by (over_of over) (tracker_by self) }
    {
        let count = self.fetch_in_place(over);
        (self, count)
    }
}
