// A graph by value: the words of its edges and of its nodes, and how many of each count.
ghost use Rattle.std.specs.Prelude.{◌≡◌, get_or, take};
ghost use Rattle.rules.specs.Graph as g;
ghost use Rattle.keyvalues.specs.View.{node_of, node_in};
ghost use Rattle.keyparts.specs.View.{empty_words, graph_of};

use crate::edge::EdgeWord;
use keyvalues::list;
use keyvalues::node::{Node, NodeWords};
use keyvalues::tables::TableWords;

// How many words of the nodes and of the edges count.
#[repr(C)]
#[derive(Clone, Copy)]
pub struct Counts {
    pub nodes: u16,
    pub edges: u16,
}

#[repr(C)]
#[derive(Clone, Copy)]
pub struct Graph {
    pub edges: [EdgeWord; Graph::EDGES as usize],
    pub nodes: [NodeWords; Graph::NODES as usize],
    pub counts: Counts,
}

impl Graph {
    // The roots of the modes, which always exist, and how many nodes may be made beside them.
    pub const ROOTS: u16 = TableWords::MODES;

    pub const MADE: u16 = 1024;

    pub const NODES: u16 = Graph::ROOTS + Graph::MADE;

    pub const EDGES: u16 = 2048;

    // No binding: the mode roots alone.
    pub fn fresh() -> Graph
        ensures { graph_of result ≡ g.fresh_graph }
    {
        let mut nodes = [NodeWords::EMPTY; Graph::NODES as usize];
        for (mode, words) in nodes[..Graph::ROOTS as usize].iter_mut().enumerate() {
            *words = NodeWords::root(mode as u16);
        }
        Graph {
            edges: [EdgeWord::NONE; Graph::EDGES as usize],
            nodes: nodes,
            counts: Counts {
                nodes: Graph::ROOTS,
                edges: 0,
            },
        }
    }

    // The words of a node; those of an empty node of mode 0, where there is no such node.
    #[tactic(auto, using(crate::proofs::Finds::node_words), unfolding(rules::specs::Graph::get_node, crate::specs::View::graph_of))]
    pub fn words(&self, node: u16) -> NodeWords
        ensures words { result ≡ get_or (take self.now.counts.nodes self.now.nodes) node empty_words }
        ensures node { node_in result ≡ g.get_node (graph_of self.now) node }
    {
        let words = list::front(&self.nodes, self.counts.nodes);
        words
            .get(node as usize)
            .copied()
            .unwrap_or(NodeWords::EMPTY)
    }

    // The node at a number.
    pub fn node(&self, node: u16) -> Node
        ensures { node_of result ≡ g.get_node (graph_of self.now) node }
    {
        Node::from(self.words(node))
    }
}
