// Stores: an edge, a node more, and the step of a node that is there.
ghost use Rattle.std.specs.Prelude.{◌≡◌, map, ltb, set};
ghost use Rattle.rules.specs.Basics as b;
ghost use Rattle.rules.specs.Graph as g;
ghost use Rattle.keyvalues.specs.View.{event_of, graph_by, node_in, told};
ghost use Rattle.keyparts.specs.View.{edge_of, edge_words, first_place, graph_of, key_in, key_is, word_put};

use crate::edge;
use crate::edge::EdgeWord;
use crate::graph::Graph;
use crate::search::{Scan, Search};
use keyvalues::event::EdgeEvent;
use keyvalues::list;
use keyvalues::node::NodeWords;
use keyvalues::refusal::Refusal;

impl Graph {
    // The word of an edge at a place, whether it counts or not. Past the last place nothing is stored.
    pub fn set_edge(&mut self, place: usize, word: EdgeWord)
        ensures { self.new ≡ record self.old { edges = set self.old.edges place word } }
    {
        if place < Graph::EDGES as usize {
            self.edges[place] = word;
        }
    }

    // The words of a node, whether it counts or not. Past the last node nothing is stored.
    pub fn set_node(&mut self, node: u16, words: NodeWords)
        ensures { self.new ≡ record self.old { nodes = set self.old.nodes node words } }
    {
        if node < Graph::NODES {
            self.nodes[node as usize] = words;
        }
    }

    // An edge's word goes to the place that a search for its key gave: in for the one that stands there, and else behind the
    // last, which is the place that a search without a hit gives.
    #[tactic(auto, using(crate::proofs::Stores::put_over, crate::proofs::Stores::put_behind, crate::proofs::Stores::put_nowhere, crate::proofs::Stores::stored_over, crate::proofs::Stores::stored_behind, crate::proofs::Stores::stored_nowhere))]
    fn put_edge(&mut self, place: usize, word: EdgeWord) -> Result<(), Refusal>
        ensures words { place ≡ first_place (key_is (key_in word)) (edge_words self.old) → edge_words self.new ≡ word_put (edge_words self.old) word }
        ensures stored { place ≡ first_place (key_is (key_in word)) (edge_words self.old) → told (λ _. graph_of self.new) result ≡ b.unless (ltb place 2048) 3 (b.accept (graph_by (graph_of self.old).nodes (map edge_of (edge_words self.new)))) }
    {
        if place < self.edge_words().len() {
            self.set_edge(place, word);
            return Ok(());
        }
        let count = list::append(&mut self.edges, self.counts.edges, word);
        self.counts.edges = count.ok_or(Refusal::EdgesFull)?;
        Ok(())
    }

    // An edge between any two nodes, for the event.
    pub fn add_edge(&mut self, from: u16, to: u16, event: EdgeEvent) -> Result<(), Refusal>
        ensures { told (λ _. graph_of self.new) result ≡ g.add_edge from to (event_of event) (graph_of self.old) }
    {
        self.add_edge_by(&mut Scan {}, from, to, event)
    }

    // The same by any search that knows the edges. It then knows those with the new one.
    #[tactic(auto, using(crate::proofs::Finds::edge_added, crate::proofs::Links::edges_short), unfolding(crate::specs::View::graph_of))]
    pub fn add_edge_by<S: Search>(
        &mut self,
        search: &mut S,
        from: u16,
        to: u16,
        event: EdgeEvent,
    ) -> Result<(), Refusal>
        ensures stored { S.Knows self.old search.old → told (λ _. graph_of self.new) result ≡ g.add_edge from to (event_of event) (graph_of self.old) }
        ensures knows { S.Knows self.old search.old → S.Knows self.new search.new }
    {
        let key = edge::key_of(from, event);
        let place = search.place(self, key);
        let count = self.edge_words().len();
        let stored = self.put_edge(place, EdgeWord::of(key, to));
        search.link(count, place, key);
        stored
    }

    // A node more, and its number.
    #[tactic(auto, using(crate::proofs::Stores::node_added, crate::proofs::Stores::node_none), unfolding(crate::specs::View::edge_words))]
    pub fn add_node(&mut self, words: NodeWords) -> Result<u16, Refusal>
        ensures stored { told (λ n. (graph_of self.new, n)) result ≡ g.add_node (node_in words).mode (node_in words).action (graph_of self.old) }
        ensures edges_kept { edge_words self.new ≡ edge_words self.old }
    {
        let node = self.counts.nodes;
        let count = list::append(&mut self.nodes, node, words);
        self.counts.nodes = count.ok_or(Refusal::NodesFull)?;
        Ok(node)
    }

    // The node at the end of an edge that is there: if the words hold a step, it gets them and is held to their mode.
    #[tactic(auto, using(crate::proofs::Stores::settle_small, crate::proofs::Stores::settle_differs, crate::proofs::Stores::settle_put, crate::proofs::Stores::settle_past), unfolding(crate::specs::View::edge_words))]
    pub fn settle(&mut self, node: u16, words: NodeWords) -> Result<(), Refusal>
        ensures stored { told (λ _. (graph_of self.new, node)) result ≡ g.settle (node_in words).mode node (node_in words).action (graph_of self.old) }
        ensures edges_kept { edge_words self.new ≡ edge_words self.old }
    {
        if !words.holds_step() {
            return Ok(());
        }
        if self.words(node).mode() != words.mode() {
            return Err(Refusal::OtherMode);
        }
        if node < self.counts.nodes.min(Graph::NODES) {
            self.nodes[node as usize] = words;
        }
        Ok(())
    }
}
