//! An allocator's slots: which of so many are taken, and which is the least free one.
#![tactic(auto)]

mod slots;

pub use slots::{Slots, never_twice};
