// Following: one round of a key at a node, by the links of an index. They lead to the edges that can matter to the key there: the
// node's edge for the key, on one chain, and then the node's edges whose event is no key, on another. The loop of `pass` goes
// through the one and then through the other, each edge one time, and remembers the best edge so far.
ghost use Rattle.std.specs.Prelude.{◌≡◌, ◌<◌, ◌+◌, ◌*◌, true, ◌∷◌, [], List, ℕ, length, map};
ghost use Rattle.rules.specs.Tables.{ClassEntry};
ghost use Rattle.rules.specs.OnePass as o;
ghost use Rattle.rules.specs.Values as v;
ghost use Rattle.keyvalues.specs.View.{class_at, event_code, event_of};
ghost use Rattle.keyparts.specs.declared.edge.EdgeWord.{EdgeWord};
ghost use Rattle.keyparts.specs.View.{edge_of, edge_words, follow_links, follow_of};
ghost use Rattle.keyparts.specs.Pass.{After, Among, NoneYet, Ranks, first_rank, found_of, in_group, through};

use crate::edge::EdgeWord;
use crate::graph::Graph;
use crate::index::IndexedGraph;
use crate::{edge, index};
use keyvalues::class::ClassWord;
use keyvalues::event::EdgeEvent;
use keyvalues::number;

#[derive(Clone, Copy)]
pub enum FollowResult {
    Successor(EdgeEvent, u16),
    Fallthrough(u16),
    NoSuccessor,
}

// An edge's word, and where its event stands for the key: the lower, the earlier it is taken. So the best edge so far is
// remembered; with no edge yet, the place is behind all that the key matches.
#[derive(Clone, Copy)]
struct Ranked {
    rank: usize,
    word: EdgeWord,
}

// What tells where an event stands for a key: the class table, and which classes may be the key's, as a set in which the bit of
// a class is its number modulo 64.
#[derive(Clone, Copy)]
struct Order<'a> {
    classes: &'a [ClassWord],
    key: u16,
    members: u64,
}

// The classes of the entries that hold the key. A node may have edges for many classes, and the table need not be gone through
// for those that are not in the set. It is called and not built in: most tables are short, and the pass needs the registers.
#[inline(never)]
#[tactic(auto, using(crate::proofs::Members::told_none, crate::proofs::Members::told_all, crate::proofs::Members::told_other, crate::proofs::Members::told_held))]
fn members(classes: &[ClassWord], key: u16) -> u64
    ensures { Among (map class_at classes.now) key result }
{
    let mut set = 0u64;
    for entry in classes {
        if entry.holds_key(key) {
            set |= 1 << (entry.class() % 64);
        }
    }
    set
}

// A class table of so few entries is gone through as fast as a set of classes is asked.
const FEW: usize = 4;

impl<'a> Order<'a> {
    // Where a class stands: behind Key, in table order, or behind all that the key matches.
    #[tactic(auto, using(crate::proofs::Remembered::rank_class, crate::proofs::Remembered::class_none, crate::proofs::Remembered::class_hit, crate::proofs::Remembered::class_other, crate::proofs::Remembered::class_miss))]
    fn class_rank(self, class: u16) -> usize
        requires { Among (map class_at self.classes.now) self.key self.members }
        ensures { result ≡ o.rank (map class_at self.entry.classes.now) self.entry.key (v.Class class) }
    {
        if (self.members >> (class % 64)) % 2 == 0 {
            return self.classes.len() + 3;
        }
        for (place, entry) in self.classes.iter().enumerate() {
            if entry.class() == class && entry.holds_key(self.key) {
                return place + 1;
            }
        }
        self.classes.len() + 3
    }

    // Where an event stands: Key, its Classes, Any, Fallthrough, and behind these what the key does not match.
    #[tactic(auto, using(crate::proofs::Remembered::rank_same, crate::proofs::Remembered::rank_of_other, crate::proofs::Remembered::rank_of_any, crate::proofs::Remembered::rank_of_fall))]
    fn rank(self, event: EdgeEvent) -> usize
        requires { Among (map class_at self.classes.now) self.key self.members }
        ensures { result ≡ o.rank (map class_at self.entry.classes.now) self.entry.key (event_of event) }
    {
        match event {
            EdgeEvent::Key(key) if key == self.key => 0,
            EdgeEvent::Class(class) => self.class_rank(class),
            EdgeEvent::Any => self.classes.len() + 1,
            EdgeEvent::Fallthrough => self.classes.len() + 2,
            EdgeEvent::Key(_) => self.classes.len() + 3,
        }
    }
}

impl Ranked {
    // No edge yet.
    fn none(classes: &[ClassWord]) -> Ranked
        ensures { NoneYet (map class_at classes.now) result }
    {
        Ranked {
            rank: classes.len() + 3,
            word: EdgeWord::NONE,
        }
    }

    // An edge of the event's group, where it stands. The group of a key has no other event, so the word is not read for it.
    #[tactic(auto, using(crate::proofs::Remembered::rank_of_none, crate::proofs::Remembered::rank_of_event))]
    fn of(order: Order, event: EdgeEvent, word: EdgeWord) -> Ranked
        requires { Among (map class_at order.classes.now) order.key order.members }
        ensures word { result.word ≡ word }
        ensures rank { (n : ℕ) → n < 65536 → in_group (n + event_code (event_of event) * 65536) word ≡ true → Ranks (map class_at order.entry.classes.now) order.entry.key result }
    {
        let known = match event {
            EdgeEvent::Key(own) => Some(EdgeEvent::Key(own)),
            EdgeEvent::Class(_) | EdgeEvent::Any | EdgeEvent::Fallthrough => word.event(),
        };
        // A code that stands for no event stands behind all that the key matches.
        let rank = match known {
            Some(event) => order.rank(event),
            None => order.classes.len() + 3,
        };
        Ranked { rank, word }
    }

    // After one more edge of the node: that edge is remembered if it stands before the best so far.
    #[tactic(auto, using(crate::proofs::Remembered::better_new, crate::proofs::Remembered::better_old))]
    fn better(self, edge: Ranked) -> Ranked
        ensures { (cs : List ClassEntry) (k : ℕ) → Ranks cs k edge → After cs (edge_of edge.word).from k self (edge.word ∷ []) result }
    {
        if edge.rank < self.rank { edge } else { self }
    }

    // What is remembered, where the class table has so many entries.
    #[tactic(auto, unfolding(crate::specs::Pass::found_of, crate::specs::View::edge_of))]
    fn found(self, entries: usize, key: u16) -> FollowResult
        ensures { follow_of result ≡ found_of entries key self.rank self.word }
    {
        let to = self.word.to();
        if self.rank == 0 {
            return FollowResult::Successor(EdgeEvent::Key(key), to);
        }
        if self.rank <= entries {
            let class = number::low(self.word.key() / 65536);
            return FollowResult::Successor(EdgeEvent::Class(class), to);
        }
        match self.rank - entries {
            1 => FollowResult::Successor(EdgeEvent::Any, to),
            2 => FollowResult::Fallthrough(to),
            _ => FollowResult::NoSuccessor,
        }
    }
}

// No edge of the event's group stands before this.
fn first_rank(event: EdgeEvent) -> usize
    ensures { result ≡ first_rank (event_of event) }
{
    match event {
        EdgeEvent::Key(_) => 0,
        EdgeEvent::Class(_) | EdgeEvent::Any | EdgeEvent::Fallthrough => 1,
    }
}

// Are the edge with this key and the edge of the word gone through together? The edges of one node and one key are, and so are
// those of one node whose event is no key.
#[tactic(auto, unfolding(crate::specs::Pass::in_group, crate::specs::Pass::group_of, crate::specs::View::edge_of))]
fn in_group(key: u64, word: EdgeWord) -> bool
    ensures { result ≡ in_group key word }
{
    if key < index::KEYS {
        word.key() == key
    } else {
        index::KEYS <= word.key() && word.from() == number::low(key)
    }
}

impl<'a> IndexedGraph<'a> {
    // Goes through those of the node's edges that are in the event's group. It ends where no edge of the group can be better, and
    // as many steps as there may be edges end it on links that lead in a circle.
    #[inline(always)]
    fn pass(self, order: Order, node: u16, event: EdgeEvent, start: Ranked) -> Ranked
        requires { Among (map class_at order.classes.now) order.key order.members }
        ensures { After (map class_at order.entry.classes.now) node order.entry.key start (through (edge_words self.entry.graph.now) self.entry.index.now.links node (event_of event)) result }
    {
        let words = self.graph.edge_words();
        let sought = edge::key_of(node, event);
        let first = first_rank(event);
        let mut best = start;
        let mut at = self.index.links[index::chain_of(sought)] as usize;
        for _ in 0..Graph::EDGES {
            if words.len() <= at {
                return best;
            }
            let word = words[at];
            if in_group(sought, word) {
                best = best.better(Ranked::of(order, event, word));
                if best.rank <= first {
                    return best;
                }
            }
            at = self.index.links[at] as usize;
        }
        best
    }

    // One round: Key, Class of the first membership that has such an edge, Any, then Fallthrough. The one pass goes through the
    // node's edge for the key, and then through its edges whose event is no key. They are two calls, each built in as a loop that
    // knows its group: where one loop makes both, the compiler does not always make two of it, and a key takes twice the time.
    // All of it is built in where a key goes a round: called, it costs a key 4 ns.
    #[inline(always)]
    #[tactic(auto, using(crate::proofs::Members::among_all, crate::proofs::Passes::found_own, crate::proofs::Passes::found_both))]
    pub fn follow(self, classes: &[ClassWord], node: u16, key: u16) -> FollowResult
        ensures { follow_of result ≡ follow_links (map class_at classes.now) (edge_words self.entry.graph.now) self.entry.index.now.links node key }
    {
        // No class is asked for the node's edge for the key.
        let any = Order {
            classes,
            key,
            members: u64::MAX,
        };
        let own = self.pass(any, node, EdgeEvent::Key(key), Ranked::none(classes));
        // No edge stands before it.
        if own.rank == 0 {
            return own.found(classes.len(), key);
        }
        let order = if classes.len() <= FEW {
            any
        } else {
            Order {
                members: members(classes, key),
                ..any
            }
        };
        let best = self.pass(order, node, EdgeEvent::Any, own);
        best.found(classes.len(), key)
    }
}
