//! Chains of an iterator's methods over the set positions.

ghost use Rattle.std.specs.Prelude.{◌≡◌, ℕ, ◌^◌, ◌<◌, ◌≤◌, ◌%◌, ◌+◌, ◌*◌, ◌==◌, ◌++◌, nat_lt};
ghost use Rattle.std.specs.Prelude.{nat_le, true, false, length, sum, sum_by, count_by, take, drop};
ghost use Rattle.std.specs.Prelude.{take_while, fold, find, position, slice_get, slice_index};
ghost use Rattle.std.specs.Prelude.{EachIndex, OnOk, IfOk, IfSome, IfNone, None, IsTrue};
ghost use Rattle.std.specs.Bool.{OnTrue, OnFalse};
ghost use Rattle.std.specs.List.{list_any, list_all, zip, enumerate_from, last_or};
ghost use Rattle.fixedbitset.specs.Bits as model;

use fixedbitset::FixedBitSet;
use std::alloc::{AllocError, Global};

// ---- numbers

/// How many positions there are.
pub fn count(set: &FixedBitSet) -> usize
    ensures { result ≡ length (model.asc set.now) }
{
    set.ones().count()
}

/// Their sum.
pub fn sum(set: &FixedBitSet) -> usize
    requires { sum (model.asc set.now) < 2 ^ 64 }
    ensures { result ≡ sum (model.asc set.now) }
{
    set.ones().sum()
}

/// The sum of their rests by 7.
pub fn sum_of_rests(set: &FixedBitSet) -> usize
    requires { sum_by (λ p. p % 7) (model.asc set.now) < 2 ^ 64 }
    ensures { result ≡ sum_by (λ p. p % 7) (model.asc set.now) }
{
    set.ones().map(|position| position % 7).sum()
}

/// How many are even.
pub fn count_of_even(set: &FixedBitSet) -> usize
    ensures { result ≡ count_by (λ p. p % 2 == 0) (model.asc set.now) }
{
    set.ones().filter(|position| *position % 2 == 0).count()
}

/// A number that each position changes in turn.
pub fn folded(set: &FixedBitSet) -> usize
    ensures { result ≡ fold (λ rest p. (rest % 1000 + p % 1000) % 1000) 0 (model.asc set.now) }
{
    set.ones()
        .fold(0, |rest, position| (rest % 1000 + position % 1000) % 1000)
}

// ---- one position

/// The greatest position.
#[tactic(auto, using(fixedbitset::specs::WalkFacts::items))]
pub fn greatest(set: &FixedBitSet) -> Option<usize>
    ensures member { IfSome result (λ m. model.contains set.now m ≡ true) }
    ensures greatest { IfSome result (λ m. (p : ℕ) → model.contains set.now p ≡ true → p ≤ m) }
    ensures none { IfNone result ((p : ℕ) → model.contains set.now p ≡ false) }
{
    set.ones().max()
}

/// The least position.
#[tactic(auto, using(fixedbitset::specs::WalkFacts::items))]
pub fn least(set: &FixedBitSet) -> Option<usize>
    ensures member { IfSome result (λ m. model.contains set.now m ≡ true) }
    ensures least { IfSome result (λ m. (p : ℕ) → model.contains set.now p ≡ true → m ≤ p) }
    ensures none { IfNone result ((p : ℕ) → model.contains set.now p ≡ false) }
{
    set.ones().min()
}

/// The position that has so many before it.
pub fn nth(set: &FixedBitSet, place: usize) -> Option<usize>
    ensures { result ≡ slice_get (model.asc set.now) place }
{
    set.ones().nth(place)
}

/// The last position.
pub fn last(set: &FixedBitSet) -> Option<usize>
    ensures { result ≡ last_or None (model.asc set.now) }
{
    set.ones().last()
}

/// The first position from `low` on.
pub fn find(set: &FixedBitSet, low: usize) -> Option<usize>
    ensures { result ≡ find (nat_le low) (model.asc set.now) }
{
    set.ones().find(|position| *position >= low)
}

/// How many positions come before the first from `low` on.
pub fn place_of(set: &FixedBitSet, low: usize) -> Option<usize>
    ensures { result ≡ position (nat_le low) (model.asc set.now) }
{
    set.ones().position(|position| position >= low)
}

/// The first position from `low` on, said of the set alone.
#[tactic(auto, using(fixedbitset::specs::WalkFacts::items))]
pub fn member_from(set: &FixedBitSet, low: usize) -> Option<usize>
    ensures some { IfSome result (λ p. IsTrue (model.contains set.now p) × (low ≤ p)) }
    ensures none { IfNone result ((p : ℕ) → IsTrue (model.contains set.now p) → p < low) }
{
    set.ones().find(|position| *position >= low)
}

// ---- questions

/// Whether some position is at least `low`.
pub fn any_from(set: &FixedBitSet, low: usize) -> bool
    ensures { result ≡ list_any (nat_le low) (model.asc set.now) }
{
    set.ones().any(|position| position >= low)
}

/// Whether all positions are below `end`.
pub fn all_below(set: &FixedBitSet, end: usize) -> bool
    ensures { result ≡ list_all (λ p. nat_lt p end) (model.asc set.now) }
{
    set.ones().all(|position| position < end)
}

/// Whether each position is in the other set.
#[tactic(auto, using(fixedbitset::specs::WalkFacts::items))]
pub fn all_in(set: &FixedBitSet, other: &FixedBitSet) -> bool
    ensures yes { OnTrue result ((p : ℕ) → IsTrue (model.contains set.now p)
        → IsTrue (model.contains other.now p)) }
    ensures no { OnFalse result
        ((p : ℕ) × IsTrue (model.contains set.now p) × (model.contains other.now p ≡ false)) }
{
    set.ones().all(|position| other.contains(position))
}

// ---- lists

/// All positions.
pub fn collected(alloc: Global, set: &FixedBitSet) -> Result<Vec<usize>, AllocError>
    ensures { IfOk result (λ list. list.items ≡ model.asc set.now) }
{
    set.ones().collect(alloc)
}

/// The first few.
pub fn first_few(alloc: Global, set: &FixedBitSet, few: usize) -> Result<Vec<usize>, AllocError>
    ensures { IfOk result (λ list. list.items ≡ take few (model.asc set.now)) }
{
    set.ones().take(few).collect(alloc)
}

/// All but the first few.
pub fn after_few(alloc: Global, set: &FixedBitSet, few: usize) -> Result<Vec<usize>, AllocError>
    ensures { IfOk result (λ list. list.items ≡ drop few (model.asc set.now)) }
{
    set.ones().skip(few).collect(alloc)
}

/// The first, and then each that comes so many places later.
pub fn stepped(alloc: Global, set: &FixedBitSet, step: usize) -> Result<Vec<usize>, AllocError>
    requires { 0 < step }
    ensures all { IfOk result (λ list. length (model.asc set.now) ≤ length list.items * step) }
    ensures items { IfOk result (λ list.
        EachIndex list.items
        (λ k. slice_index list.items k ≡ slice_index (model.asc set.now) (k * step))) }
{
    set.ones().step_by(step).collect(alloc)
}

/// Those below `end`, until one is not.
pub fn taken_below(alloc: Global, set: &FixedBitSet, end: usize) -> Result<Vec<usize>, AllocError>
    ensures { IfOk result
        (λ list. list.items ≡ take_while (λ p. nat_lt p end) (model.asc set.now)) }
{
    set.ones()
        .take_while(|position| *position < end)
        .collect(alloc)
}

/// Those of one set, and after them those of the other.
pub fn chained(
    alloc: Global,
    set: &FixedBitSet,
    other: &FixedBitSet,
) -> Result<Vec<usize>, AllocError>
    ensures { IfOk result (λ list. list.items ≡ model.asc set.now ++ model.asc other.now) }
{
    set.ones().chain(other.ones()).collect(alloc)
}

/// Each with its place in the list.
pub fn numbered(alloc: Global, set: &FixedBitSet) -> Result<Vec<(usize, usize)>, AllocError>
    ensures { IfOk result (λ list. list.items ≡ enumerate_from 0 (model.asc set.now)) }
{
    set.ones().enumerate().collect(alloc)
}

/// Pairs of those of two sets, as far as both go.
pub fn paired(
    alloc: Global,
    set: &FixedBitSet,
    other: &FixedBitSet,
) -> Result<Vec<(usize, usize)>, AllocError>
    ensures { IfOk result (λ list. list.items ≡ zip (model.asc set.now) (model.asc other.now)) }
{
    set.ones().zip(other.ones()).collect(alloc)
}

/// Appends all positions to a list.
pub fn extended(list: &mut Vec<usize>, set: &FixedBitSet) -> Result<(), AllocError>
    ensures { OnOk result (list.new.items ≡ list.old.items ++ model.asc set.now) }
{
    list.extend(set.ones())
}
