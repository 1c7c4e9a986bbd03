// How the edge of a node and an event is found: by a scan of all edges, or by an index of them, in which an edge that is added
// is linked as it goes in.
ghost use Rattle.std.specs.Prelude.{◌≡◌, length};
ghost use Rattle.std.specs.Coded.{Unit-prop};
ghost use Rattle.keyparts.specs.declared.edge.EdgeWord.{EdgeWord};
ghost use Rattle.keyparts.specs.declared.graph.Graph.{Graph};
ghost use Rattle.keyparts.specs.Props.{Indexed-prop};
ghost use Rattle.keyparts.specs.View.{edge_words, first_place, key_in, key_is, word_put, Indexed};

use crate::graph::Graph;
use crate::index::{Index, IndexedGraph};

pub trait Search {
    // The search knows the edges of the graph, so it finds what a scan of all finds.
    ghost Knows: { Graph → Self → Type 0 };

    // In at most one way, so that a struct can hold it.
    ghost one: { (x : Graph) (s : Self) → IsProp (Knows x s) };

    // Where the edge with this key stands, or how many edges there are.
    fn place(&self, graph: &Graph, key: u64) -> usize
        ensures { Knows graph.now self.now → result ≡ first_place (key_is key) (edge_words graph.now) };

    // An edge with this key went to its place in a graph of so many edges: the search knows that graph with it too.
    fn link(&mut self, count: usize, place: usize, key: u64)
        ensures { (x y : Graph) (w : EdgeWord) → key_in w ≡ key → place ≡ first_place (key_is key) (edge_words x) → count ≡ length (edge_words x) → edge_words y ≡ word_put (edge_words x) w → Knows x self.old → Knows y self.new };

    // Only the edges count.
    ghost same_edges: { (x y : Graph) (s : Self) → edge_words y ≡ edge_words x → Knows x s → Knows y s };
}

// A scan of all edges keeps nothing.
#[derive(Clone, Copy)]
pub struct Scan {}

impl Search for Scan {
    ghost Knows = { λ x s. Unit {0} };

    ghost one = { λ x s. Unit-prop };

    fn place(&self, graph: &Graph, key: u64) -> usize {
        graph.place(key)
    }

    fn link(&mut self, _count: usize, _place: usize, _key: u64) {}

    ghost same_edges = { λ x y s e k. tt };
}

impl Search for Index {
    ghost Knows = { λ x s. Indexed (edge_words x) s.links };

    ghost one = { λ x s. Indexed-prop (edge_words x) s.links };

    #[tactic(auto, using(crate::proofs::Links::index_place))]
    fn place(&self, graph: &Graph, key: u64) -> usize {
        IndexedGraph { graph, index: self }.place(key)
    }

    // An edge that went in for another stands on its chain, and place 2,048 is linked nowhere.
    #[tactic(auto, using(crate::proofs::Links::stays_index))]
    fn link(&mut self, count: usize, place: usize, key: u64) {
        if count <= place {
            self.link(place, key);
        }
    }

    ghost same_edges = { λ x y s e k. Prim.rw e k };
}
