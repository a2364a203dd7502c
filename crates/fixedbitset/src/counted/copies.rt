//! New sets and copies, with a counter of steps.
//!
//! The count includes the lanes that are joined, or copied over a set that is there. What a new set
//! is filled with before, the rest of the longer set after it, and what is added to a set that
//! grows are not counted.

ghost use Rattle.std.specs.Prelude.{◌≡◌, ◌≤◌, ◌+◌, IsOk, IfOk, OnOk, OnErr, true, false};
ghost use Rattle.bitlanes.specs.Words.{lane_steps};
ghost use Rattle.bitwords.specs.Steps.{join_steps, both_steps};
ghost use Rattle.fixedbitset.specs.Bits as model;
ghost use Rattle.fixedbitset.specs.Stored.{joined};
ghost use Rattle.fixedbitset.specs.TwoSets as sets;

use crate::set::FixedBitSet;
use bitlanes::Steps;
use bitlanes::ops::{And, Or, WordOp, Xor};
use bitwords::new_rows;
use std::alloc::AllocError;

/// [`FixedBitSet::clone_from`], with the steps that it takes.
///
/// Where an allocation failed the set is as it was.
///
/// ```
/// let source = FixedBitSet::from_iter(alloc, [3, 64])?;
/// let mut set = FixedBitSet::with_capacity(alloc, 200)?;
/// counted::clone_from(&mut set, &source, &mut Steps::new())?;
/// assert_eq!(rt; set.as_slice(), [8, 1].as_slice());
/// ```
#[inline]
pub fn clone_from(
    set: &mut FixedBitSet,
    source: &FixedBitSet,
    steps: &mut Steps,
) -> Result<(), AllocError>
    ensures ok { OnOk result (set.new ≡ source.now) }
    ensures err { OnErr result (set.new ≡ set.old) }
    ensures succeeds { model.words_needed source.now.length ≤ model.words_needed set.old.length
        → IsOk result }
    ensures cost { OnOk result
        (steps.new ≡ steps.old + lane_steps (model.storage_words source.now.length)) }
    ensures refused { OnErr result (steps.new ≡ steps.old) }
{
    set.copy_from(source, steps)
}

/// [`FixedBitSet::bitand`], with the steps that it takes.
///
/// ```
/// let set = FixedBitSet::from_iter(alloc, [1, 3, 64])?;
/// let other = FixedBitSet::from_iter(alloc, [3, 5])?;
/// let both = counted::bitand(&set, &other, &mut Steps::new())?;
/// assert_eq!(rt; both.as_slice(), [8].as_slice());
/// ```
#[inline]
#[tactic(auto, using(crate::proofs::JoinedValues::bitand_shorter, crate::proofs::JoinedValues::bitand_longer, crate::proofs::Words::viewed_length))]
pub fn bitand(
    set: &FixedBitSet,
    other: &FixedBitSet,
    steps: &mut Steps,
) -> Result<FixedBitSet, AllocError>
    ensures value { IfOk result (λ new. new ≡ sets.bitand set.now other.now) }
    ensures cost { steps.new ≤ steps.old
        + both_steps false false (model.storage_words set.now.length)
        (model.storage_words other.now.length) }
    ensures exact_if_ok { OnOk result (steps.new ≡ steps.old
        + both_steps false false (model.storage_words set.now.length)
        (model.storage_words other.now.length)) }
    ensures grows { steps.old ≤ steps.new }
{
    if set.length < other.length {
        joined_copy::<And>(set, other, steps)
    } else {
        joined_copy::<And>(other, set, steps)
    }
}

/// [`FixedBitSet::bitor`], with the steps that it takes.
///
/// ```
/// let set = FixedBitSet::from_iter(alloc, [1, 3, 64])?;
/// let other = FixedBitSet::from_iter(alloc, [3, 5])?;
/// let either = counted::bitor(&set, &other, &mut Steps::new())?;
/// assert_eq!(rt; either.as_slice(), [42, 1].as_slice());
/// ```
#[inline]
#[tactic(auto, using(crate::proofs::JoinedValues::union_longer, crate::proofs::JoinedValues::union_shorter, crate::proofs::Words::viewed_length))]
pub fn bitor(
    set: &FixedBitSet,
    other: &FixedBitSet,
    steps: &mut Steps,
) -> Result<FixedBitSet, AllocError>
    ensures value { IfOk result (λ new. new ≡ sets.union set.now other.now) }
    ensures cost { steps.new ≤ steps.old
        + both_steps false false (model.storage_words set.now.length)
        (model.storage_words other.now.length) }
    ensures exact_if_ok { OnOk result (steps.new ≡ steps.old
        + both_steps false false (model.storage_words set.now.length)
        (model.storage_words other.now.length)) }
    ensures grows { steps.old ≤ steps.new }
{
    if set.length < other.length {
        joined_copy::<Or>(other, set, steps)
    } else {
        joined_copy::<Or>(set, other, steps)
    }
}

/// [`FixedBitSet::bitxor`], with the steps that it takes.
///
/// ```
/// let set = FixedBitSet::from_iter(alloc, [1, 3, 64])?;
/// let other = FixedBitSet::from_iter(alloc, [3, 5])?;
/// let one = counted::bitxor(&set, &other, &mut Steps::new())?;
/// assert_eq!(rt; one.as_slice(), [34, 1].as_slice());
/// ```
#[inline]
#[tactic(auto, using(crate::proofs::JoinedValues::symmetric_difference_longer, crate::proofs::JoinedValues::symmetric_difference_shorter, crate::proofs::Words::viewed_length))]
pub fn bitxor(
    set: &FixedBitSet,
    other: &FixedBitSet,
    steps: &mut Steps,
) -> Result<FixedBitSet, AllocError>
    ensures value { IfOk result (λ new. new ≡ sets.symmetric_difference set.now other.now) }
    ensures cost { steps.new ≤ steps.old
        + both_steps false false (model.storage_words set.now.length)
        (model.storage_words other.now.length) }
    ensures exact_if_ok { OnOk result (steps.new ≡ steps.old
        + both_steps false false (model.storage_words set.now.length)
        (model.storage_words other.now.length)) }
    ensures grows { steps.old ≤ steps.new }
{
    if set.length < other.length {
        joined_copy::<Xor>(other, set, steps)
    } else {
        joined_copy::<Xor>(set, other, steps)
    }
}

// A new set: the first one, joined with `other`.
#[inline(always)]
fn joined_copy<O: WordOp>(
    set: &FixedBitSet,
    other: &FixedBitSet,
    steps: &mut Steps,
) -> Result<FixedBitSet, AllocError>
    requires { O.TAKE ≡ true → other.now.length ≤ set.now.length }
    ensures value { IfOk result (λ new. new ≡ joined O.truth set.now other.now) }
    ensures cost { steps.new ≤ steps.old
        + join_steps O.KEEP (model.storage_words set.now.length)
        (model.storage_words other.now.length) }
    ensures exact_if_ok { OnOk result (steps.new ≡ steps.old
        + join_steps O.KEEP (model.storage_words set.now.length)
        (model.storage_words other.now.length)) }
    ensures grows { steps.old ≤ steps.new }
{
    let alloc = *set.words.allocator();
    let words = new_rows::joined::<O>(alloc, set.words.as_slice(), other.words.as_slice(), steps)?;
    Ok(FixedBitSet {
        words,
        length: set.length,
    })
}
