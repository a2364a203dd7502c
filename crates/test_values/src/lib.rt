//! Reference values, which tests compare sets with: a flag for each position below the length.
#![tactic(auto)]

pub mod pairs;
pub mod slow;
