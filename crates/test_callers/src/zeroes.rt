//! The positions below the length that are not set: the free slots of an allocator.

ghost use Rattle.std.specs.Prelude.{◌≡◌, ℕ, ◌<◌, ◌≤◌, nat_le, length, reverse};
ghost use Rattle.std.specs.Prelude.{find, true, false, IfOk, IfSome, IfNone};
ghost use Rattle.test_callers.specs.Calls.{first_of};
ghost use Rattle.fixedbitset.specs.Bits as model;

use fixedbitset::FixedBitSet;
use std::alloc::{AllocError, Global};

/// The first free slot, or `None` where each is taken.
#[tactic(auto, using(fixedbitset::specs::WalkFacts::zero_items))]
pub fn first_clear(set: &FixedBitSet) -> Option<usize>
    ensures first { result ≡ first_of (model.asc (model.complement set.now)) }
    ensures below { IfSome result (λ p. p < set.now.length) }
    ensures clear { IfSome result (λ p. model.contains set.now p ≡ false) }
    ensures full { IfNone result ((p : ℕ) → p < set.now.length → model.contains set.now p ≡ true) }
{
    set.zeroes().next()
}

/// The first free slot, or the number of slots where each is taken.
#[tactic(auto, using(fixedbitset::specs::WalkFacts::zero_items))]
pub fn first_clear_or_end(set: &FixedBitSet) -> usize
    ensures clear { result < set.now.length → model.contains set.now result ≡ false }
    ensures full { result ≡ set.now.length
        → (p : ℕ) → p < set.now.length → model.contains set.now p ≡ true }
{
    match set.zeroes().next() {
        Some(slot) => slot,
        None => set.len(),
    }
}

/// Some free slot from `low` on.
#[tactic(auto, using(fixedbitset::specs::WalkFacts::zero_items))]
pub fn some_clear_from(set: &FixedBitSet, low: usize) -> Option<usize>
    ensures low { IfSome result (λ p. low ≤ p) }
    ensures below { IfSome result (λ p. p < set.now.length) }
    ensures clear { IfSome result (λ p. model.contains set.now p ≡ false) }
{
    for slot in set.zeroes() {
        if low <= slot {
            return Some(slot);
        }
    }
    None
}

/// The first free slot from `low` on.
pub fn first_clear_from(set: &FixedBitSet, low: usize) -> Option<usize>
    ensures { result ≡ find (nat_le low) (model.asc (model.complement set.now)) }
{
    for slot in set.zeroes() {
        if low <= slot {
            return Some(slot);
        }
    }
    None
}

/// How many slots are free.
pub fn count(set: &FixedBitSet) -> usize
    ensures { result ≡ length (model.asc (model.complement set.now)) }
{
    set.zeroes().count()
}

/// All free slots.
pub fn collected(alloc: Global, set: &FixedBitSet) -> Result<Vec<usize>, AllocError>
    ensures { IfOk result (λ list. list.items ≡ model.asc (model.complement set.now)) }
{
    set.zeroes().collect(alloc)
}

/// All free slots, the last one first.
pub fn descending(alloc: Global, set: &FixedBitSet) -> Result<Vec<usize>, AllocError>
    ensures { IfOk result (λ list. list.items ≡ reverse (model.asc (model.complement set.now))) }
{
    set.zeroes().rev().collect(alloc)
}
