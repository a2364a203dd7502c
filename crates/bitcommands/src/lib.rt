//! Commands over numbered bit sets: what each does and returns.
#![tactic(auto)]

pub mod commands;
