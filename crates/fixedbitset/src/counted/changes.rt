//! The changes by other sets that return whether a position changed, with a counter of steps. Each
//! change by one set takes the steps of the call without the result.

ghost use Rattle.std.specs.Prelude.{◌≡◌, ◌<◌, ◌≤◌, ◌+◌, ◌==◌, IsOk, IfOk, OnOk, OnErr};
ghost use Rattle.std.specs.Prelude.{not, true, false};
ghost use Rattle.bitlanes.specs.Changes.{changes};
ghost use Rattle.bitlanes.specs.Words.{lane_steps};
ghost use Rattle.bitwords.specs.Steps.{join_steps};
ghost use Rattle.fixedbitset.specs.Bits as model;
ghost use Rattle.fixedbitset.specs.Stored.{joined, count_joined};
ghost use Rattle.fixedbitset.specs.TwoSets as sets;

use crate::set::FixedBitSet;
use crate::views::BitsMut;
use bitlanes::Steps;
use bitlanes::ops::{Or, WordOp, Xor};
use std::alloc::AllocError;

/// [`FixedBitSet::union_with_change`], with the steps that it takes.
///
/// Where an allocation failed the set is as it was.
///
/// ```
/// let mut set = FixedBitSet::from_iter(alloc, [1, 3])?;
/// let other = FixedBitSet::from_iter(alloc, [3, 64])?;
/// assert!(rt; counted::union_with_change(&mut set, &other, &mut Steps::new())?);
/// assert_eq!(rt; set.as_slice(), [10, 1].as_slice());
/// ```
#[inline(always)]
#[tactic(auto, using(crate::proofs::JoinedValues::union_longer, crate::proofs::JoinedChanges::union_changes, crate::proofs::JoinedValues::union_grown, crate::proofs::JoinedChanges::union_grown_changes, crate::proofs::Words::given_back, crate::proofs::Words::viewed_length))]
pub fn union_with_change(
    set: &mut FixedBitSet,
    other: &FixedBitSet,
    steps: &mut Steps,
) -> Result<bool, AllocError>
    ensures ok { OnOk result (set.new ≡ sets.union set.old other.now) }
    ensures changed { IfOk result (λ changed. changed ≡ not (sets.is_subset other.now set.old)) }
    ensures err { OnErr result (set.new ≡ set.old) }
    ensures succeeds { model.words_needed other.now.length ≤ model.words_needed set.old.length
        → IsOk result }
    ensures cost { OnOk result
        (steps.new ≡ steps.old + lane_steps (model.words_needed other.now.length)) }
    ensures refused { OnErr result (steps.new ≡ steps.old) }
{
    if set.len() < other.len() {
        return grow_and_change::<Or>(set, other, steps);
    }
    let (words, length) = (&mut *set.words.as_mut_slice(), set.length);
    Ok(BitsMut { words, length }.union_with_change(other.as_bits(), steps))
}

/// [`FixedBitSet::symmetric_difference_with_change`], with the steps that it takes.
///
/// Where an allocation failed the set is as it was.
///
/// ```
/// let mut set = FixedBitSet::from_iter(alloc, [1, 3])?;
/// let other = FixedBitSet::from_iter(alloc, [3, 64])?;
/// let mut steps = Steps::new();
/// assert!(rt; counted::symmetric_difference_with_change(&mut set, &other, &mut steps)?);
/// assert_eq!(rt; set.as_slice(), [2, 1].as_slice());
/// ```
#[inline(always)]
#[tactic(auto, using(crate::proofs::JoinedValues::symmetric_difference_longer, crate::proofs::JoinedValues::symmetric_difference_grown, crate::proofs::JoinedChanges::symmetric_difference_changes, crate::proofs::Words::given_back, crate::proofs::Words::viewed_length))]
pub fn symmetric_difference_with_change(
    set: &mut FixedBitSet,
    other: &FixedBitSet,
    steps: &mut Steps,
) -> Result<bool, AllocError>
    ensures ok { OnOk result (set.new ≡ sets.symmetric_difference set.old other.now) }
    ensures changed { IfOk result (λ changed. changed ≡ not (model.is_clear other.now)) }
    ensures err { OnErr result (set.new ≡ set.old) }
    ensures succeeds { model.words_needed other.now.length ≤ model.words_needed set.old.length
        → IsOk result }
    ensures cost { OnOk result
        (steps.new ≡ steps.old + lane_steps (model.words_needed other.now.length)) }
    ensures refused { OnErr result (steps.new ≡ steps.old) }
{
    if set.len() < other.len() {
        return grow_and_change::<Xor>(set, other, steps);
    }
    let (words, length) = (&mut *set.words.as_mut_slice(), set.length);
    Ok(BitsMut { words, length }.symmetric_difference_with_change(other.as_bits(), steps))
}

// made by front/calls, but for docs and #[inline]
/// [`FixedBitSet::intersect_with_change`], with the steps that it takes.
///
/// ```
/// let mut set = FixedBitSet::from_iter(alloc, [1, 3, 64])?;
/// let other = FixedBitSet::from_iter(alloc, [3, 5])?;
/// assert!(rt; counted::intersect_with_change(&mut set, &other, &mut Steps::new()));
/// assert_eq!(rt; set.as_slice(), [8, 0].as_slice());
/// ```
#[inline]
#[tactic(auto, using(crate::proofs::Words::given_back, crate::proofs::Words::viewed_length))]
pub fn intersect_with_change(set: &mut FixedBitSet, other: &FixedBitSet, steps: &mut Steps) -> bool
    ensures value { set.new ≡ sets.intersection set.old other.now }
    ensures changed { result ≡ not (sets.is_subset set.old other.now) }
    ensures cost { steps.new ≡ steps.old
        + join_steps false (model.storage_words set.old.length)
        (model.storage_words other.now.length) }
{
    let (words, length) = (&mut *set.words.as_mut_slice(), set.length);
    BitsMut { words, length }.intersect_with_change(other.as_bits(), steps)
}

/// [`FixedBitSet::difference_with_change`], with the steps that it takes.
///
/// ```
/// let mut set = FixedBitSet::from_iter(alloc, [1, 3, 64])?;
/// let other = FixedBitSet::from_iter(alloc, [3, 5])?;
/// assert!(rt; counted::difference_with_change(&mut set, &other, &mut Steps::new()));
/// assert_eq!(rt; set.as_slice(), [2, 1].as_slice());
/// ```
#[inline]
#[tactic(auto, using(crate::proofs::Words::given_back, crate::proofs::Words::viewed_length))]
pub fn difference_with_change(set: &mut FixedBitSet, other: &FixedBitSet, steps: &mut Steps) -> bool
    ensures value { set.new ≡ sets.difference set.old other.now }
    ensures changed { result ≡ not (sets.is_disjoint set.old other.now) }
    ensures cost { steps.new ≡ steps.old
        + join_steps true (model.storage_words set.old.length)
        (model.storage_words other.now.length) }
{
    let (words, length) = (&mut *set.words.as_mut_slice(), set.length);
    BitsMut { words, length }.difference_with_change(other.as_bits(), steps)
}
// end of what front/calls makes

/// [`FixedBitSet::union_with_difference`], with the steps that it takes.
///
/// Where an allocation failed the set is as it was.
///
/// ```
/// let mut set = FixedBitSet::from_iter(alloc, [1, 3])?;
/// let gens = FixedBitSet::from_iter(alloc, [4, 64])?;
/// let kills = FixedBitSet::from_iter(alloc, [4])?;
/// assert!(rt; counted::union_with_difference(&mut set, &gens, &kills, &mut Steps::new())?);
/// assert_eq!(rt; set.as_slice(), [10, 1].as_slice());
/// ```
#[inline(always)]
#[tactic(auto, using(crate::proofs::JoinedValues::union_longer, crate::proofs::JoinedChanges::union_changes, crate::proofs::Words::given_back, crate::proofs::Words::viewed_length, crate::proofs::JoinedValues::left_length))]
pub fn union_with_difference(
    set: &mut FixedBitSet,
    gens: &FixedBitSet,
    kills: &FixedBitSet,
    steps: &mut Steps,
) -> Result<bool, AllocError>
    ensures ok { OnOk result (set.new ≡ sets.union set.old (sets.difference gens.now kills.now)) }
    ensures changed { IfOk result (λ changed. changed
        ≡ not (sets.is_subset (sets.difference gens.now kills.now) set.old)) }
    ensures err { OnErr result (set.new ≡ set.old) }
    ensures succeeds { model.words_needed gens.now.length ≤ model.words_needed set.old.length
        → IsOk result }
    ensures cost { OnOk result
        (steps.new ≡ steps.old + lane_steps (model.words_needed gens.now.length)) }
    ensures refused { OnErr result (steps.new ≡ steps.old) }
{
    if set.len() < gens.len() {
        return grow_and_take(set, gens, kills, steps);
    }
    let (words, length) = (&mut *set.words.as_mut_slice(), set.length);
    Ok(BitsMut { words, length }.union_with_difference(gens.as_bits(), kills.as_bits(), steps))
}

// Joins the longer set `other` to `set`, which grows before, and returns whether a position
// changed.
#[cold]
#[inline(never)]
#[tactic(auto, using(crate::proofs::JoinedValues::grown_over, crate::proofs::JoinedValues::grown_length, crate::proofs::Words::given_back, crate::proofs::Words::viewed_length))]
fn grow_and_change<O: WordOp>(
    set: &mut FixedBitSet,
    other: &FixedBitSet,
    steps: &mut Steps,
) -> Result<bool, AllocError>
    requires keeps { O.KEEP ≡ true }
    requires longer { set.old.length < other.now.length }
    ensures ok { OnOk result (set.new
        ≡ joined O.truth (model.grow set.old other.now.length) other.now) }
    ensures changed { IfOk result (λ changed. changed ≡ not (count_joined (changes O.truth)
        (model.grow set.old other.now.length) other.now == 0)) }
    ensures err { OnErr result (set.new ≡ set.old) }
    ensures succeeds { model.words_needed other.now.length ≤ model.words_needed set.old.length
        → IsOk result }
    ensures cost { OnOk result
        (steps.new ≡ steps.old + lane_steps (model.words_needed other.now.length)) }
    ensures refused { OnErr result (steps.new ≡ steps.old) }
{
    set.grow(other.len())?;
    let (words, length) = (&mut *set.words.as_mut_slice(), set.length);
    Ok(BitsMut { words, length }.join_with_change::<O>(other.as_bits(), steps))
}

// Takes into `set`, which grows before, what `kills` lacks of the longer set `gens`.
#[cold]
#[inline(never)]
#[tactic(auto, using(crate::proofs::JoinedValues::grown_over, crate::proofs::JoinedValues::grown_length, crate::proofs::JoinedValues::difference_grown, crate::proofs::JoinedChanges::union_grown_changes, crate::proofs::Words::given_back, crate::proofs::Words::viewed_length))]
fn grow_and_take(
    set: &mut FixedBitSet,
    gens: &FixedBitSet,
    kills: &FixedBitSet,
    steps: &mut Steps,
) -> Result<bool, AllocError>
    requires longer { set.old.length < gens.now.length }
    ensures ok { OnOk result (set.new ≡ sets.union set.old (sets.difference gens.now kills.now)) }
    ensures changed { IfOk result (λ changed. changed
        ≡ not (sets.is_subset (sets.difference gens.now kills.now) set.old)) }
    ensures err { OnErr result (set.new ≡ set.old) }
    ensures succeeds { model.words_needed gens.now.length ≤ model.words_needed set.old.length
        → IsOk result }
    ensures cost { OnOk result
        (steps.new ≡ steps.old + lane_steps (model.words_needed gens.now.length)) }
    ensures refused { OnErr result (steps.new ≡ steps.old) }
{
    set.grow(gens.len())?;
    let (words, length) = (&mut *set.words.as_mut_slice(), set.length);
    Ok(BitsMut { words, length }.join_difference(gens.as_bits(), kills.as_bits(), steps))
}
