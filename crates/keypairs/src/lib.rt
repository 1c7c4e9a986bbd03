// What a machine keeps beside its map: the entered mode and the place, the context, the queue of waiting pairs, the sequences
// that remember pairs, and the trail; and what changes it: pushing, popping and repeating pairs, entering a mode, steps and keys
// with no binding. Each is proved equal to the rules' definition of it, by the views of specs/View.antt.
//
// It is lent to the functions below and changed in place; a context, a pair and a sequence also go by value. Of a key graph
// nodes are read and nothing is added, so the crate stands on its parts alone.
#![tactic(auto)]

pub mod context;
pub mod live;
mod mode;
pub mod pair;
mod rule;
pub mod state;
pub mod tracker;
