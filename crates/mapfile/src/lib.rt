// Map files and the run on them: bindings are added as they are read, keys are played on the map, and the
// pairs are written. What a file's parts are read and written with stands in the crate below.
#![tactic(auto)]

mod bind;
pub mod map;
mod pairs;
mod play;
pub mod run;

pub use mapparts::reader;
