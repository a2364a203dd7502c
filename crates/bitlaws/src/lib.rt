//! Laws of the definitions that the contracts of `fixedbitset` are written in.
#![tactic(auto)]

pub mod laws;
pub mod pieces;
