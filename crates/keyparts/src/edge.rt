// Edges: a word for each, with its end in the low 16 bits and its key above them, which is its start and then its event's code.
ghost use Rattle.std.specs.Prelude.{◌≡◌, ◌<◌, ◌≤◌, ◌+◌, ◌*◌, List, ℕ, length};
ghost use Rattle.std.specs.List.{list_any};
ghost use Rattle.rules.specs.Graph as g;
ghost use Rattle.keyvalues.specs.View.{event_at, event_code, event_of, maybe_of};
ghost use Rattle.keyparts.specs.View.{edge_of, edge_words, end_of, event_in, first_place, graph_of, key_in, key_is, linked_end, linked_place, maybe_event};

use crate::graph::Graph;
use crate::search::{Scan, Search};
use keyvalues::event::EdgeEvent;
use keyvalues::{list, number};

// An edge. Any word is some edge's.
#[repr(C)]
#[derive(Clone, Copy)]
pub struct EdgeWord {
    pub word: u64,
}

// The key of an edge: where it starts and its event's code. One comparison tells both.
#[tactic(auto, using(keyvalues::proofs::Words::code_event))]
pub(crate) fn key_of(from: u16, event: EdgeEvent) -> u64
    ensures key { result ≡ from + event_code (event_of event) * 65536 }
    ensures small { result < 281474976710656 }
    ensures coded { event_at (event_code (event_of event)) ≡ event_of event }
{
    (from as u64) + (event.code() as u64) * 65536
}

impl EdgeWord {
    pub const NONE: EdgeWord = EdgeWord { word: 0 };

    // The edge with this key and this end.
    pub(crate) fn of(key: u64, to: u16) -> EdgeWord
        requires { key < 281474976710656 }
        ensures { result.word ≡ to + 65536 * key }
    {
        EdgeWord {
            word: (to as u64) + 65536 * key,
        }
    }

    pub(crate) fn key(self) -> u64
        ensures { result ≡ key_in self }
    {
        self.word / 65536
    }

    #[tactic(auto, unfolding(crate::specs::View::edge_of))]
    pub(crate) fn from(self) -> u16
        ensures { result ≡ (edge_of self).from }
    {
        number::low(self.key())
    }

    // The event that the code stands for, if any.
    #[tactic(auto, unfolding(crate::specs::View::edge_of, keyvalues::specs::View::event_at))]
    pub(crate) fn event(self) -> Option<EdgeEvent>
        ensures { maybe_event result ≡ event_in self }
    {
        let code = self.key() / 65536;
        match code / 65536 {
            0 => Some(EdgeEvent::Key(number::low(code))),
            1 => Some(EdgeEvent::Class(number::low(code))),
            2 => match code % 65536 {
                0 => Some(EdgeEvent::Any),
                1 => Some(EdgeEvent::Fallthrough),
                _ => None,
            },
            _ => None,
        }
    }

    #[tactic(auto, unfolding(crate::specs::View::edge_of))]
    pub(crate) fn to(self) -> u16
        ensures { result ≡ (edge_of self).to }
    {
        number::low(self.word)
    }
}

// So many words are compared at once: a block is searched with no branch in it.
const BLOCK: usize = 8;

// Has a word of the block this key in its upper 48 bits?
#[tactic(auto, using(crate::proofs::Finds::any_more, crate::proofs::Finds::any_all))]
fn block_has(block: &[EdgeWord; BLOCK], key: u64) -> bool
    ensures { result ≡ list_any (key_is key) block.now }
{
    let mut met = false;
    for word in block {
        met |= word.key() == key;
    }
    met
}

// How many words stand in the blocks before the first that has the key.
fn words_passed(words: &[EdgeWord], key: u64) -> usize
    ensures { result ≤ first_place (key_is key) words.now }
{
    let (blocks, _) = words.as_chunks::<BLOCK>();
    let passed = blocks.iter().position(|block| block_has(block, key));
    passed.unwrap_or(blocks.len()) * BLOCK
}

// The place of the first word with this key, or how many words there are. This search is most of what adding a binding costs.
#[tactic(auto, using(crate::proofs::Finds::first_most))]
fn scan(words: &[EdgeWord], key: u64) -> usize
    ensures { result ≡ first_place (key_is key) words.now }
{
    let passed = words_passed(words, key);
    let rest = &words[passed..];
    let place = rest.iter().position(|word| word.key() == key);
    passed + place.unwrap_or(rest.len())
}

impl Graph {
    // The words of the edges that are there.
    #[tactic(auto, using(crate::proofs::Links::edges_all, crate::proofs::Links::edges_short))]
    pub(crate) fn edge_words(&self) -> &[EdgeWord]
        ensures words { result.now ≡ edge_words self.now }
        ensures few { length result.now ≤ 2048 }
    {
        list::front(&self.edges, self.counts.edges)
    }

    // Where the edge with this key stands, or how many edges there are.
    pub fn place(&self, key: u64) -> usize
        ensures { result ≡ first_place (key_is key) (edge_words self.now) }
    {
        scan(self.edge_words(), key)
    }

    // The end of the edge at this place. Where a search for a node and any number as an event's code gave the place, it is the
    // end of the node's edge for the event that the number stands for.
    #[tactic(auto, unfolding(crate::specs::View::end_of))]
    pub fn end_at(&self, place: usize) -> Option<u16>
        ensures end { maybe_of result ≡ end_of (edge_words self.now) place }
        ensures scanned { (node code : ℕ) → node < 65536 → place ≡ first_place (key_is (node + code * 65536)) (edge_words self.now) → maybe_of result ≡ g.get_edge (graph_of self.now) node (event_at code) }
        ensures linked { (ls : List ℕ) (node code : ℕ) → node < 65536 → place ≡ linked_place (edge_words self.now) ls (node + code * 65536) → maybe_of result ≡ linked_end (edge_words self.now) ls node (event_at code) }
    {
        let word = self.edge_words().get(place)?;
        Some(word.to())
    }

    // The end of the node's edge for the event, by any search that knows the edges.
    #[tactic(auto, using(crate::proofs::Finds::edge_found), unfolding(rules::specs::Graph::get_edge, crate::specs::View::graph_of))]
    pub fn get_edge_by<S: Search>(&self, search: &S, node: u16, event: EdgeEvent) -> Option<u16>
        ensures { S.Knows self.now search.now → maybe_of result ≡ g.get_edge (graph_of self.now) node (event_of event) }
    {
        self.end_at(search.place(self, key_of(node, event)))
    }

    // The end of the node's edge for the event.
    pub fn get_edge(&self, node: u16, event: EdgeEvent) -> Option<u16>
        ensures { maybe_of result ≡ g.get_edge (graph_of self.now) node (event_of event) }
    {
        self.get_edge_by(&Scan {}, node, event)
    }

    pub fn has_edges(&self, node: u16) -> bool
        ensures { result ≡ g.has_edges (graph_of self.now) node }
    {
        let words = self.edge_words();
        words.iter().any(|word| word.from() == node)
    }
}
