//! Whole sets, with a counter of steps.
//!
//! A step is one lane of four words in one turn of a kernel. A set of `n` positions has `n / 256`
//! lanes, rounded up. A change or a count takes exactly one step for each lane that both sets have,
//! and one for each that only one of them has, where these are cleared or counted. A comparison
//! that returns `true` takes exactly as many, and one that returns `false` exactly those up to the
//! lane that decides. `first_lacking` and `pop_first` take exactly those up to the lane of the
//! position, and `pop_last` those from the last lane down to it, or all where there is none. What
//! `grow` writes is not counted.

ghost use Rattle.std.specs.Prelude.{◌≡◌, ◌≢◌, ◌<◌, ◌≤◌, ◌↔◌, ◌+◌, ◌-◌, ◌/◌, IsTrue};
ghost use Rattle.std.specs.Prelude.{IsOk, OnOk, OnErr, IfSome, IfNone, true, false};
ghost use Rattle.std.specs.declared.cmp.Ordering.TheVariants.{Equal};
ghost use Rattle.bitlanes.specs.Words.{lane_steps};
ghost use Rattle.bitwords.specs.Steps.{join_steps, both_steps};
ghost use Rattle.fixedbitset.specs.Bits as model;
ghost use Rattle.fixedbitset.specs.Order.{compare};
ghost use Rattle.fixedbitset.specs.Stored.{joined};
ghost use Rattle.fixedbitset.specs.TwoSets as sets;

use crate::set::FixedBitSet;
use crate::views::BitsMut;
use bitlanes::Steps;
use bitlanes::ops::{And, AndNot, Or, WordOp, Xor};
use std::alloc::AllocError;
use std::cmp::Ordering;

// made by front/calls, but for docs and #[inline]
/// [`FixedBitSet::clear`], with the steps that it takes.
///
/// ```
/// let mut set = FixedBitSet::from_iter(alloc, [3, 64])?;
/// counted::clear(&mut set, &mut Steps::new());
/// assert_eq!(rt; set.as_slice(), [0, 0].as_slice());
/// ```
#[inline]
#[tactic(auto, using(crate::proofs::Words::given_back, crate::proofs::Words::viewed_length))]
pub fn clear(set: &mut FixedBitSet, steps: &mut Steps)
    ensures value { set.new ≡ model.empty set.old.length }
    ensures cost { steps.new ≡ steps.old + lane_steps (model.storage_words set.old.length) }
{
    let (words, length) = (&mut *set.words.as_mut_slice(), set.length);
    BitsMut { words, length }.clear(steps);
}

/// [`FixedBitSet::pop_first`], with the steps that it takes.
///
/// ```
/// let mut set = FixedBitSet::from_iter(alloc, [3, 64])?;
/// assert_eq!(rt; counted::pop_first(&mut set, &mut Steps::new()), Some(3));
/// assert_eq!(rt; set.as_slice(), [0, 1].as_slice());
/// ```
#[inline]
#[tactic(auto, using(crate::proofs::Words::given_back, crate::proofs::Words::viewed_length))]
pub fn pop_first(set: &mut FixedBitSet, steps: &mut Steps) -> Option<usize>
    ensures first { result ≡ model.minimum set.old }
    ensures taken { IfSome result (λ p. set.new ≡ model.remove set.old p) }
    ensures unchanged { IfNone result (set.new ≡ set.old) }
    ensures cost { IfSome result (λ p. steps.new ≡ steps.old + lane_steps (p / 64 + 1)) }
    ensures exact_if_none { IfNone result
        (steps.new ≡ steps.old + lane_steps (model.storage_words set.old.length)) }
{
    let (words, length) = (&mut *set.words.as_mut_slice(), set.length);
    BitsMut { words, length }.pop_first(steps)
}

/// [`FixedBitSet::pop_last`], with the steps that it takes.
///
/// ```
/// let mut set = FixedBitSet::from_iter(alloc, [3, 64])?;
/// assert_eq!(rt; counted::pop_last(&mut set, &mut Steps::new()), Some(64));
/// assert_eq!(rt; set.as_slice(), [8, 0].as_slice());
/// ```
#[inline]
#[tactic(auto, using(crate::proofs::Words::given_back, crate::proofs::Words::viewed_length))]
pub fn pop_last(set: &mut FixedBitSet, steps: &mut Steps) -> Option<usize>
    ensures last { result ≡ model.maximum set.old }
    ensures taken { IfSome result (λ p. set.new ≡ model.remove set.old p) }
    ensures unchanged { IfNone result (set.new ≡ set.old) }
    ensures cost { IfSome result (λ p. steps.new
        ≡ steps.old + lane_steps (model.storage_words set.old.length - p / 64)) }
    ensures exact_if_none { IfNone result
        (steps.new ≡ steps.old + lane_steps (model.storage_words set.old.length)) }
{
    let (words, length) = (&mut *set.words.as_mut_slice(), set.length);
    BitsMut { words, length }.pop_last(steps)
}
// end of what front/calls makes

/// [`FixedBitSet::union_with`], with the steps that it takes.
///
/// Where an allocation failed the set is as it was.
///
/// ```
/// let mut set = FixedBitSet::from_iter(alloc, [1, 3])?;
/// let other = FixedBitSet::from_iter(alloc, [3, 64])?;
/// counted::union_with(&mut set, &other, &mut Steps::new())?;
/// assert_eq!(rt; set.as_slice(), [10, 1].as_slice());
/// ```
#[inline(always)]
#[tactic(auto, using(crate::proofs::JoinedValues::union_grown, crate::proofs::JoinedValues::union_longer, crate::proofs::Words::given_back, crate::proofs::Words::viewed_length))]
pub fn union_with(
    set: &mut FixedBitSet,
    other: &FixedBitSet,
    steps: &mut Steps,
) -> Result<(), AllocError>
    ensures ok { OnOk result (set.new ≡ sets.union set.old other.now) }
    ensures err { OnErr result (set.new ≡ set.old) }
    ensures succeeds { model.words_needed other.now.length ≤ model.words_needed set.old.length
        → IsOk result }
    ensures cost { OnOk result
        (steps.new ≡ steps.old + lane_steps (model.words_needed other.now.length)) }
    ensures refused { OnErr result (steps.new ≡ steps.old) }
{
    if set.len() < other.len() {
        return grow_and_join::<Or>(set, other, steps);
    }
    let (words, length) = (&mut *set.words.as_mut_slice(), set.length);
    BitsMut { words, length }.union_with(other.as_bits(), steps);
    Ok(())
}

/// [`FixedBitSet::symmetric_difference_with`], with the steps that it takes.
///
/// Where an allocation failed the set is as it was.
///
/// ```
/// let mut set = FixedBitSet::from_iter(alloc, [1, 3])?;
/// let other = FixedBitSet::from_iter(alloc, [3, 64])?;
/// counted::symmetric_difference_with(&mut set, &other, &mut Steps::new())?;
/// assert_eq!(rt; set.as_slice(), [2, 1].as_slice());
/// ```
#[inline(always)]
#[tactic(auto, using(crate::proofs::JoinedValues::symmetric_difference_grown, crate::proofs::JoinedValues::symmetric_difference_longer, crate::proofs::Words::given_back, crate::proofs::Words::viewed_length))]
pub fn symmetric_difference_with(
    set: &mut FixedBitSet,
    other: &FixedBitSet,
    steps: &mut Steps,
) -> Result<(), AllocError>
    ensures ok { OnOk result (set.new ≡ sets.symmetric_difference set.old other.now) }
    ensures err { OnErr result (set.new ≡ set.old) }
    ensures succeeds { model.words_needed other.now.length ≤ model.words_needed set.old.length
        → IsOk result }
    ensures cost { OnOk result
        (steps.new ≡ steps.old + lane_steps (model.words_needed other.now.length)) }
    ensures refused { OnErr result (steps.new ≡ steps.old) }
{
    if set.len() < other.len() {
        return grow_and_join::<Xor>(set, other, steps);
    }
    let (words, length) = (&mut *set.words.as_mut_slice(), set.length);
    BitsMut { words, length }.symmetric_difference_with(other.as_bits(), steps);
    Ok(())
}

// made by front/calls, but for docs and #[inline]
/// [`FixedBitSet::intersect_with`], with the steps that it takes.
///
/// ```
/// let mut set = FixedBitSet::from_iter(alloc, [1, 3, 64])?;
/// let other = FixedBitSet::from_iter(alloc, [3, 5])?;
/// counted::intersect_with(&mut set, &other, &mut Steps::new());
/// assert_eq!(rt; set.as_slice(), [8, 0].as_slice());
/// ```
#[inline]
#[tactic(auto, using(crate::proofs::Words::given_back, crate::proofs::Words::viewed_length))]
pub fn intersect_with(set: &mut FixedBitSet, other: &FixedBitSet, steps: &mut Steps)
    ensures value { set.new ≡ sets.intersection set.old other.now }
    ensures cost { steps.new ≡ steps.old
        + join_steps false (model.storage_words set.old.length)
        (model.storage_words other.now.length) }
{
    let (words, length) = (&mut *set.words.as_mut_slice(), set.length);
    BitsMut { words, length }.intersect_with(other.as_bits(), steps);
}

/// [`FixedBitSet::difference_with`], with the steps that it takes.
///
/// ```
/// let mut set = FixedBitSet::from_iter(alloc, [1, 3, 64])?;
/// let other = FixedBitSet::from_iter(alloc, [3, 5])?;
/// counted::difference_with(&mut set, &other, &mut Steps::new());
/// assert_eq!(rt; set.as_slice(), [2, 1].as_slice());
/// ```
#[inline]
#[tactic(auto, using(crate::proofs::Words::given_back, crate::proofs::Words::viewed_length))]
pub fn difference_with(set: &mut FixedBitSet, other: &FixedBitSet, steps: &mut Steps)
    ensures value { set.new ≡ sets.difference set.old other.now }
    ensures cost { steps.new ≡ steps.old
        + join_steps true (model.storage_words set.old.length)
        (model.storage_words other.now.length) }
{
    let (words, length) = (&mut *set.words.as_mut_slice(), set.length);
    BitsMut { words, length }.difference_with(other.as_bits(), steps);
}
// end of what front/calls makes

/// [`FixedBitSet::union_count`], with the steps that it takes.
///
/// ```
/// let set = FixedBitSet::from_iter(alloc, [1, 3, 64])?;
/// let other = FixedBitSet::from_iter(alloc, [3, 5])?;
/// let count = counted::union_count(&set, &other, &mut Steps::new());
/// assert_eq!(rt; count, 4);
/// ```
#[inline]
#[tactic(auto, using(crate::proofs::JoinedCounts::union_count_of))]
pub fn union_count(set: &FixedBitSet, other: &FixedBitSet, steps: &mut Steps) -> usize
    ensures count { result ≡ sets.union_count set.now other.now }
    ensures cost { steps.new ≡ steps.old
        + both_steps true true (model.storage_words set.now.length)
        (model.storage_words other.now.length) }
{
    set.as_bits().count_used::<Or>(other.as_bits(), steps)
}

/// [`FixedBitSet::intersection_count`], with the steps that it takes.
///
/// ```
/// let set = FixedBitSet::from_iter(alloc, [1, 3, 64])?;
/// let other = FixedBitSet::from_iter(alloc, [3, 5])?;
/// let count = counted::intersection_count(&set, &other, &mut Steps::new());
/// assert_eq!(rt; count, 1);
/// ```
#[inline]
#[tactic(auto, using(crate::proofs::JoinedCounts::intersection_count_of))]
pub fn intersection_count(set: &FixedBitSet, other: &FixedBitSet, steps: &mut Steps) -> usize
    ensures count { result ≡ sets.intersection_count set.now other.now }
    ensures cost { steps.new ≡ steps.old
        + both_steps false false (model.storage_words set.now.length)
        (model.storage_words other.now.length) }
{
    set.as_bits().count_used::<And>(other.as_bits(), steps)
}

/// [`FixedBitSet::difference_count`], with the steps that it takes.
///
/// ```
/// let set = FixedBitSet::from_iter(alloc, [1, 3, 64])?;
/// let other = FixedBitSet::from_iter(alloc, [3, 5])?;
/// let count = counted::difference_count(&set, &other, &mut Steps::new());
/// assert_eq!(rt; count, 2);
/// ```
#[inline]
#[tactic(auto, using(crate::proofs::JoinedCounts::difference_count_of))]
pub fn difference_count(set: &FixedBitSet, other: &FixedBitSet, steps: &mut Steps) -> usize
    ensures count { result ≡ sets.difference_count set.now other.now }
    ensures cost { steps.new ≡ steps.old
        + both_steps true false (model.storage_words set.now.length)
        (model.storage_words other.now.length) }
{
    set.as_bits().count_used::<AndNot>(other.as_bits(), steps)
}

/// [`FixedBitSet::symmetric_difference_count`], with the steps that it takes.
///
/// ```
/// let set = FixedBitSet::from_iter(alloc, [1, 3, 64])?;
/// let other = FixedBitSet::from_iter(alloc, [3, 5])?;
/// let count = counted::symmetric_difference_count(&set, &other, &mut Steps::new());
/// assert_eq!(rt; count, 3);
/// ```
#[inline]
#[tactic(auto, using(crate::proofs::JoinedCounts::symmetric_difference_count_of))]
pub fn symmetric_difference_count(
    set: &FixedBitSet,
    other: &FixedBitSet,
    steps: &mut Steps,
) -> usize
    ensures count { result ≡ sets.symmetric_difference_count set.now other.now }
    ensures cost { steps.new ≡ steps.old
        + both_steps true true (model.storage_words set.now.length)
        (model.storage_words other.now.length) }
{
    set.as_bits().count_used::<Xor>(other.as_bits(), steps)
}

// made by front/calls, but for docs and #[inline]
/// [`FixedBitSet::is_disjoint`], with the steps that it takes.
///
/// ```
/// let set = FixedBitSet::from_iter(alloc, [1, 64])?;
/// let other = FixedBitSet::from_iter(alloc, [3, 65, 200])?;
/// assert!(rt; counted::is_disjoint(&set, &other, &mut Steps::new()));
/// ```
#[inline]
pub fn is_disjoint(set: &FixedBitSet, other: &FixedBitSet, steps: &mut Steps) -> bool
    ensures answer { result ≡ sets.is_disjoint set.now other.now }
    ensures cost { steps.new ≤ steps.old
        + both_steps false false (model.storage_words set.now.length)
        (model.storage_words other.now.length) }
    ensures exact_if_true { IsTrue result → steps.new ≡ steps.old
        + both_steps false false (model.storage_words set.now.length)
        (model.storage_words other.now.length) }
    ensures exact_if_stopped { IfSome (model.minimum (sets.intersection set.now other.now))
        (λ p. steps.new ≡ steps.old + lane_steps (p / 64 + 1)) }
    ensures stops { result ≡ false → steps.old < steps.new }
{
    set.as_bits().is_disjoint(other.as_bits(), steps)
}

/// [`FixedBitSet::is_subset`], with the steps that it takes.
///
/// ```
/// let set = FixedBitSet::from_iter(alloc, [3, 64])?;
/// let other = FixedBitSet::from_iter(alloc, [3, 64, 200])?;
/// assert!(rt; counted::is_subset(&set, &other, &mut Steps::new()));
/// assert!(rt; !counted::is_subset(&other, &set, &mut Steps::new()));
/// ```
#[inline]
pub fn is_subset(set: &FixedBitSet, other: &FixedBitSet, steps: &mut Steps) -> bool
    ensures answer { result ≡ sets.is_subset set.now other.now }
    ensures cost { steps.new ≤ steps.old
        + both_steps true false (model.storage_words set.now.length)
        (model.storage_words other.now.length) }
    ensures exact_if_true { IsTrue result → steps.new ≡ steps.old
        + both_steps true false (model.storage_words set.now.length)
        (model.storage_words other.now.length) }
    ensures exact_if_stopped { IfSome (model.minimum (sets.difference set.now other.now))
        (λ p. steps.new ≡ steps.old
        + both_steps true false (p / 64 + 1) (model.storage_words other.now.length)) }
    ensures stops { result ≡ false → steps.old < steps.new }
{
    set.as_bits().is_subset(other.as_bits(), steps)
}
// end of what front/calls makes

// Joins the longer set `other` to `set`, which grows before. It is a call of its own, so that a set
// which is as long saves nothing for it.
#[cold]
#[inline(never)]
#[tactic(auto, using(crate::proofs::JoinedValues::grown_over, crate::proofs::JoinedValues::grown_length, crate::proofs::Words::given_back, crate::proofs::Words::viewed_length))]
fn grow_and_join<O: WordOp>(
    set: &mut FixedBitSet,
    other: &FixedBitSet,
    steps: &mut Steps,
) -> Result<(), AllocError>
    requires keeps { O.KEEP ≡ true }
    requires longer { set.old.length < other.now.length }
    ensures ok { OnOk result (set.new
        ≡ joined O.truth (model.grow set.old other.now.length) other.now) }
    ensures err { OnErr result (set.new ≡ set.old) }
    ensures succeeds { model.words_needed other.now.length ≤ model.words_needed set.old.length
        → IsOk result }
    ensures cost { OnOk result
        (steps.new ≡ steps.old + lane_steps (model.words_needed other.now.length)) }
    ensures refused { OnErr result (steps.new ≡ steps.old) }
{
    set.grow(other.len())?;
    let (words, length) = (&mut *set.words.as_mut_slice(), set.length);
    BitsMut { words, length }.join::<O>(other.as_bits(), steps);
    Ok(())
}
