// The modal machine by value: a call that changes it hands back the machine after it, with the answer, and what only reads is lent
// it. Each is proved equal to the rules' `call` on what the machine means, by the views of specs/View.antt; a binding call is made
// on the scanner, which keeps it, and is told by the rules' `bind`, and a change, whose map is made before, by their `carry_over`.
// `find` is the rules' `find`, and how many nodes are left is their `hint`. A key, a reset and the walk along the trail in another
// map are there on a lent live state too.
#![tactic(auto)]

pub mod live;
pub mod machine;
pub mod scanner;

pub use keypairs::{context, pair, state, tracker};
pub use keytables::{rule, tables};
