// The tables that a machine is opened with, as a caller fills them, and the words that a machine keeps of them. What is in range
// and what the words mean is said in the rules' terms, by the view of specs/View.antt.
#![tactic(auto)]

pub mod entry;
pub mod rule;
pub mod tables;
