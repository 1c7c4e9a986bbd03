// The binding calls that a machine keeps, in words: how a call is packed, kept behind those before it, and read again.
#![tactic(auto)]

pub mod binding;
mod pack;
pub mod unpack;
pub mod words;
