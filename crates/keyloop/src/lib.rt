// The key loop: one round of a key, and the rounds that a key goes through until it is consumed, needs more, or is unmapped; and
// the walk along the trail in another map. They are proved equal to the rules' round, `input_key` and `resume`, by the views of
// specs/View.antt.
//
// What is read of a map is lent to the functions here, and what they change is changed in place, so that a key copies nothing.
#![tactic(auto)]

pub mod key;
pub mod resume;
mod stack;
mod turn;
