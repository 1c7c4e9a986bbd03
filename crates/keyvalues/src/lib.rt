// What a key graph and the tables are made of: events, paths, lists of actions, steps, nodes and classes with their range tests,
// and the words that they are kept in; the words of the tables; lists with a count; the refusals. What they do is said in the
// rules' terms, by the view of specs/View.antt.
#![tactic(auto)]

pub mod actions;
pub mod class;
pub mod copy;
pub mod event;
pub mod list;
pub mod node;
pub mod number;
pub mod path;
pub mod refusal;
pub mod step;
pub mod tables;
