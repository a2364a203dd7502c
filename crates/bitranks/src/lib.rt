//! Rank and select over a bit set: how many positions stand below a given one, and which position
//! is the k-th.
//!
//! Both use a directory next to the words of the set: one number for eight words.
#![tactic(auto)]

pub mod counted;
pub mod directory;
pub mod laws;
mod ranks;

pub use ranks::Ranks;
