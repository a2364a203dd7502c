//! Code as a user writes it, each function proved by public contracts alone: loops and chains over
//! the positions of a set, calls on sets and their steps, and ranges, iterators, readers and
//! writers of the caller's own. The crates in `tests/` run them.
#![tactic(auto)]

pub mod chains;
pub mod ends;
pub mod fills;
pub mod items;
pub mod loops;
pub mod sets;
pub mod spans;
pub mod steps;
pub mod streams;
pub mod zeroes;
