// The one library for C: thin functions over a machine that is lent by reference, and those of them that C calls, with the
// run beside them.
#![tactic(auto)]

mod codes;
pub mod firmware;
pub mod lent;
