// What is read of bytes, and numbers written: the parts of a map file, which are numbers, lists of actions, paths, steps, bindings
// and the tables, and the keys of a run. What reads is proved against a reader of crates/rules/specs; what writes, against `placed`
// and `put_all` of specs/View.antt.
//
// A reader goes on where the one before it left off, and ends at the first refusal.
#![tactic(auto)]

pub mod binding;
pub mod keys;
mod list;
pub mod part;
pub mod reader;
pub mod step;
pub mod tables;
pub mod writer;
