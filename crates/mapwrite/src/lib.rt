// Writing a map file: the numbers of the tables and of the kept binding calls, in one pass from their words to the output.
// All is built into the one function that writes a map (`inline(always)`), so that the place in the output stays in a register:
// called one by one, the functions of a binding took a third more instructions.
#![tactic(auto)]

mod call;
mod list;
pub mod map;
mod part;
mod step;
mod tables;
