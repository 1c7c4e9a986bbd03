// Binding calls on the map of a machine: what the graph makes of one, with the call kept. In place, where a refusal leaves
// scratch, and by value, where it leaves the map as it was.
#![tactic(auto)]

pub mod map;
