//! `for` and `while let` over the set positions.

ghost use Rattle.std.specs.Prelude.{◌≡◌, ℕ, ◌+◌, ◌^◌, ◌<◌, ◌≤◌, nat_le, nat_lt, length};
ghost use Rattle.std.specs.Prelude.{sum, fold, find, slice_index, slice_set, true, false};
ghost use Rattle.std.specs.Prelude.{[], IfOk, IfSome, IfNone, MatchOption, IsTrue};
ghost use Rattle.std.specs.Bool.{OnFalse};
ghost use Rattle.std.specs.List.{list_all};
ghost use Rattle.fixedbitset.specs.Bits as model;

use fixedbitset::FixedBitSet;
use std::alloc::{AllocError, Global};

// ---- `for`

/// The positions, pushed one by one.
pub fn pushed(alloc: Global, set: &FixedBitSet) -> Result<Vec<usize>, AllocError>
    ensures { IfOk result (λ list. list.items ≡ model.asc set.now) }
{
    let mut list = Vec::new(alloc);
    for position in set.ones() {
        list.push(position)?;
    }
    Ok(list)
}

/// Their sum.
pub fn total(set: &FixedBitSet) -> usize
    requires { sum (model.asc set.now) < 2 ^ 64 }
    ensures { result ≡ sum (model.asc set.now) }
{
    let mut total = 0;
    for position in set.ones() {
        total += position;
    }
    total
}

/// How many there are.
pub fn counted(set: &FixedBitSet) -> usize
    ensures { result ≡ length (model.asc set.now) }
{
    let mut count = 0;
    for _position in set.ones() {
        count += 1;
    }
    count
}

/// Some position from `low` on.
#[tactic(auto, using(fixedbitset::specs::WalkFacts::items))]
pub fn some_from(set: &FixedBitSet, low: usize) -> Option<usize>
    ensures { IfSome result (λ p. IsTrue (model.contains set.now p) × (low ≤ p)) }
{
    for position in set.ones() {
        if low <= position {
            return Some(position);
        }
    }
    None
}

/// Whether each position is in the other set.
#[tactic(auto, using(fixedbitset::specs::WalkFacts::items))]
pub fn each_is_in(set: &FixedBitSet, other: &FixedBitSet) -> bool
    ensures no { OnFalse result
        ((p : ℕ) × IsTrue (model.contains set.now p) × (model.contains other.now p ≡ false)) }
{
    for position in set.ones() {
        if !other.contains(position) {
            return false;
        }
    }
    true
}

/// Whether all positions are in the other set.
#[tactic(auto, using(fixedbitset::specs::WalkFacts::items, fixedbitset::specs::WalkFacts::done))]
pub fn all_are_in(set: &FixedBitSet, other: &FixedBitSet) -> bool
    ensures yes { IsTrue result
        → (p : ℕ) → IsTrue (model.contains set.now p) → IsTrue (model.contains other.now p) }
    ensures no { OnFalse result
        ((p : ℕ) × IsTrue (model.contains set.now p) × (model.contains other.now p ≡ false)) }
{
    for position in set.ones() {
        if !other.contains(position) {
            return false;
        }
    }
    true
}

/// The first position from `low` on.
pub fn first_from(set: &FixedBitSet, low: usize) -> Option<usize>
    ensures { result ≡ find (nat_le low) (model.asc set.now) }
{
    for position in set.ones() {
        if low <= position {
            return Some(position);
        }
    }
    None
}

/// Whether each position has a cost.
#[tactic(auto, using(fixedbitset::specs::WalkFacts::items))]
pub fn each_has_a_cost(set: &FixedBitSet, costs: &[u8]) -> bool
    requires { set.now.length ≤ length costs.now }
    ensures { result ≡ list_all (λ p. nat_lt 0 (slice_index costs.now p)) (model.asc set.now) }
{
    let mut each = true;
    for position in set.ones() {
        if costs[position] == 0 {
            each = false;
            break;
        }
    }
    each
}

/// Sets each position in the other set.
#[tactic(auto, using(fixedbitset::specs::WalkFacts::items, fixedbitset::specs::BitsFacts::facts))]
pub fn copied_into(set: &FixedBitSet, other: &mut FixedBitSet)
    requires { set.now.length ≤ other.old.length }
    ensures { other.new ≡ fold model.insert other.old (model.asc set.now) }
{
    for position in set.ones() {
        other.insert(position);
    }
}

/// The first position, and the sum of the others.
pub fn first_and_total(set: &FixedBitSet) -> Option<(usize, usize)>
    requires { sum (model.asc set.now) < 2 ^ 64 }
    ensures some { IfSome result (λ found. found.0 + found.1 ≡ sum (model.asc set.now)) }
    ensures none { IfNone result (model.asc set.now ≡ []) }
{
    let mut walk = set.ones();
    let first = walk.by_ref().next()?;
    let mut others = 0;
    for position in walk {
        others += position;
    }
    Some((first, others))
}

// ---- `while let`

/// The sum of the positions, by calls of `next`.
pub fn total_of_calls(set: &FixedBitSet) -> usize
    requires { sum (model.asc set.now) < 2 ^ 64 }
    ensures { result ≡ sum (model.asc set.now) }
{
    let mut total = 0;
    let mut walk = set.ones();
    while let Some(position) = walk.next() {
        total += position;
    }
    total
}

/// The first position from `low` on, by calls of `next`.
pub fn first_of_calls_from(set: &FixedBitSet, low: usize) -> Option<usize>
    ensures { result ≡ find (nat_le low) (model.asc set.now) }
{
    let mut walk = set.ones();
    while let Some(position) = walk.next() {
        if low <= position {
            return Some(position);
        }
    }
    None
}

/// Some position that is not in the other set, if there is one.
#[tactic(auto, using(fixedbitset::specs::WalkFacts::items))]
pub fn some_lacked(set: &FixedBitSet, other: &FixedBitSet) -> Option<usize>
    ensures { IfSome result
        (λ p. IsTrue (model.contains set.now p) × (model.contains other.now p ≡ false)) }
{
    let mut walk = set.ones();
    while let Some(position) = walk.next() {
        if !other.contains(position) {
            return Some(position);
        }
    }
    None
}

/// Sets the mark of each position.
#[tactic(auto, using(fixedbitset::specs::WalkFacts::items))]
pub fn marked(set: &FixedBitSet, marks: &mut [bool])
    requires { set.now.length ≤ length marks.old }
    ensures { marks.new ≡ fold (λ seen p. slice_set seen p true) marks.old (model.asc set.now) }
{
    let mut walk = set.ones();
    while let Some(position) = walk.next() {
        marks[position] = true;
    }
}

// ---- no loop: a copy, and the least position

/// A copy without the least position, or `None` where there is no position.
pub fn without_least(set: &FixedBitSet) -> Result<Option<FixedBitSet>, AllocError>
    ensures { IfOk result (λ rest. MatchOption rest (model.minimum set.now ≡ None)
        (λ copy. (p : ℕ) × (model.minimum set.now ≡ Some p) × (copy ≡ model.remove set.now p))) }
{
    let mut copy = set.clone()?;
    match set.minimum() {
        Some(least) => {
            copy.remove(least);
            Ok(Some(copy))
        }
        None => Ok(None),
    }
}
