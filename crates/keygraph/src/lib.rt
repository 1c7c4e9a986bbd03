// The key graph: adding bindings to it, in place. A path is made by the steps of a cursor, each of which is proved to be the step
// of that name in crates/rules/specs/Graph.antt, or is said by those. A step that is refused hands the refusal on by `?`, as the
// rules' steps do, so the chain of them is the rules' `add_mapping` or `add_prefix`.
//
// What a graph is made of, and what is read from it or stored in it alone, stands in the crates below.
#![tactic(auto)]

mod cursor;
pub mod mapping;
pub mod prefix;
mod repeat;

pub use keyparts::{edge, find, follow, graph, index, search, store};
pub use keyvalues::{class, copy, event, node, number, path, refusal, step, tables};
