// The key graph: edges and nodes as words, the search of an edge by a scan or by an index, following a key by an index,
// finding, the hint, and the stores of an edge and of a node. What they do is said in the rules' terms, and of searches and
// links in those of specs/View.antt, which is also the view of the words.
//
// All that reads a graph is lent it and copies no array. What nodes and the tables are made of stands in the crate below.
#![tactic(auto)]

pub mod edge;
pub mod find;
pub mod follow;
pub mod graph;
pub mod index;
pub mod search;
pub mod store;
