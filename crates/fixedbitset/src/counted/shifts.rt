//! Shifts and parts, with a counter of steps.
//!
//! A call takes at most one step for each lane of four words that it writes, and one or two more
//! for the words at the ends: `bound` says so, and `cost` how many it takes. What `grow` writes is
//! not counted, nor what is cleared after the length in the last lane.

ghost use Rattle.std.specs.Prelude.{◌≡◌, ◌<◌, ◌≤◌, ◌+◌, ◌-◌, ◌/◌, ◌^◌, min, true, false};
ghost use Rattle.std.specs.Prelude.{if◌then◌else◌, IsTrue, IsOk, IfOk, OnOk, OnErr};
ghost use Rattle.bitlanes.specs.Words.{lane_steps};
ghost use Rattle.bitwords.specs.Steps.{join_steps, join_up_steps, move_up_steps};
ghost use Rattle.bitwords.specs.Steps.{range_words, search_steps};
ghost use Rattle.fixedbitset.specs.Bits as model;
ghost use Rattle.fixedbitset.specs.Parts as parts;
ghost use Rattle.fixedbitset.specs.Ranges as ranges;
ghost use Rattle.fixedbitset.specs.Ranges.{over};

use crate::counted::ranges::insert_range;
use crate::set::FixedBitSet;
use crate::views::{BitsMut, storage_words};
use bitlanes::{IndexRange, Steps};
use std::alloc::{AllocError, Global};

/// [`FixedBitSet::shift_up`], with the steps that it takes.
///
/// ```
/// let mut set = FixedBitSet::from_iter(alloc, [0, 3, 69])?;
/// counted::shift_up(&mut set, 64, &mut Steps::new());
/// assert_eq!(rt; set.as_slice(), [0, 9].as_slice());
/// ```
#[inline]
#[tactic(auto, using(crate::proofs::Words::given_back, crate::proofs::Words::viewed_length))]
pub fn shift_up(set: &mut FixedBitSet, by: usize, steps: &mut Steps)
    ensures value { set.new ≡ parts.shift_up set.old by }
    ensures cost { steps.new ≡ steps.old
        + move_up_steps false (model.storage_words set.old.length) by }
    ensures bound { steps.new ≤ steps.old + lane_steps (model.storage_words set.old.length) + 2 }
{
    let (words, length) = (&mut *set.words.as_mut_slice(), set.length);
    BitsMut { words, length }.shift_up(by, steps);
}

// made by front/calls, but for docs and #[inline]
/// [`FixedBitSet::shift_down`], with the steps that it takes.
///
/// ```
/// let mut set = FixedBitSet::from_iter(alloc, [0, 3, 69])?;
/// counted::shift_down(&mut set, 3, &mut Steps::new());
/// assert_eq!(rt; set.as_slice(), [1, 4].as_slice());
/// ```
#[inline]
#[tactic(auto, using(crate::proofs::Words::given_back, crate::proofs::Words::viewed_length))]
pub fn shift_down(set: &mut FixedBitSet, by: usize, steps: &mut Steps)
    ensures value { set.new ≡ parts.shift_down set.old by }
    ensures cost { steps.new ≡ steps.old + join_steps false
        (model.storage_words set.old.length) (model.storage_words set.old.length - by / 64) }
    ensures bound { steps.new ≤ steps.old + lane_steps (model.storage_words set.old.length) + 1 }
{
    let (words, length) = (&mut *set.words.as_mut_slice(), set.length);
    BitsMut { words, length }.shift_down(by, steps);
}

/// [`FixedBitSet::union_with_shifted`], with the steps that it takes.
///
/// ```
/// let mut set = FixedBitSet::from_iter(alloc, [0, 69])?;
/// let other = FixedBitSet::from_iter(alloc, [0, 1, 5])?;
/// counted::union_with_shifted(&mut set, &other, 65, &mut Steps::new());
/// assert_eq!(rt; set.as_slice(), [1, 38].as_slice());
/// ```
#[inline]
#[tactic(auto, using(crate::proofs::Words::given_back, crate::proofs::Words::viewed_length))]
pub fn union_with_shifted(set: &mut FixedBitSet, other: &FixedBitSet, by: usize, steps: &mut Steps)
    ensures value { set.new ≡ parts.union_with_shifted set.old other.now by }
    ensures cost { steps.new ≡ steps.old + join_up_steps (model.storage_words set.old.length)
        (model.storage_words other.now.length) by }
    ensures bound { steps.new ≤ steps.old + 1 + lane_steps (min
        (model.storage_words set.old.length - by / 64) (model.storage_words other.now.length)) }
{
    let (words, length) = (&mut *set.words.as_mut_slice(), set.length);
    BitsMut { words, length }.union_with_shifted(other.as_bits(), by, steps);
}

/// [`FixedBitSet::union_with_own_shift`], with the steps that it takes.
///
/// ```
/// let mut set = FixedBitSet::from_iter(alloc, [0, 69])?;
/// counted::union_with_own_shift(&mut set, 3, &mut Steps::new());
/// assert_eq!(rt; set.as_slice(), [9, 32].as_slice());
/// ```
#[inline]
#[tactic(auto, using(crate::proofs::Words::given_back, crate::proofs::Words::viewed_length))]
pub fn union_with_own_shift(set: &mut FixedBitSet, by: usize, steps: &mut Steps)
    ensures value { set.new ≡ parts.union_with_shifted set.old set.old by }
    ensures cost { steps.new ≡ steps.old
        + move_up_steps true (model.storage_words set.old.length) by }
    ensures bound { steps.new ≤ steps.old + lane_steps (model.storage_words set.old.length) + 1 }
{
    let (words, length) = (&mut *set.words.as_mut_slice(), set.length);
    BitsMut { words, length }.union_with_own_shift(by, steps);
}
// end of what front/calls makes

/// [`FixedBitSet::slice`], with the steps that it takes. That the new words are written as
/// zeros first is not counted.
///
/// ```
/// let set = FixedBitSet::from_iter(alloc, [1, 63, 65, 69])?;
/// assert_eq!(rt; set.len(), 70);
/// let part = counted::slice(&set, alloc, 63..68, &mut Steps::new())?;
/// assert_eq!(rt; part.as_slice(), [5].as_slice());
/// ```
#[inline]
#[tactic(auto, using(crate::proofs::Words::viewed_length))]
pub fn slice<R: IndexRange<usize> + Drop>(
    set: &FixedBitSet,
    alloc: Global,
    range: R,
    steps: &mut Steps,
) -> Result<FixedBitSet, AllocError>
    requires { IsTrue (over ranges.is_valid set.now (R.start_of range) (R.end_of range)) }
    ensures value { IfOk result (λ part. part
        ≡ over parts.slice set.now (R.start_of range) (R.end_of range)) }
    ensures cost { OnOk result (steps.new ≡ steps.old + over (λ v start end. join_steps false
        (model.storage_words (end - start)) (model.storage_words v.length - start / 64))
        set.now (R.start_of range) (R.end_of range)) }
    ensures refused { OnErr result (steps.new ≡ steps.old) }
    ensures bound { steps.new ≤ steps.old + 1 + lane_steps (model.storage_words
        (over (λ _ start end. end - start) set.now (R.start_of range) (R.end_of range))) }
{
    let start = range.start().unwrap_or(0);
    let end = range.end().unwrap_or(set.len());
    let mut words = vec![in alloc; 0; storage_words(end - start)]?;
    let view = set.as_bits();
    view.slice_over_zeros(start, end, &mut words, steps);
    Ok(FixedBitSet {
        words,
        length: end - start,
    })
}

/// [`FixedBitSet::copy_range`], with the steps that it takes.
///
/// It takes exactly one step for each lane of four of the words that it writes whole, the last of
/// which may have fewer, and one for each other word that it writes.
///
/// ```
/// let mut set = FixedBitSet::from_iter(alloc, [0, 2, 65, 69])?;
/// let other = FixedBitSet::from_iter(alloc, [1, 63, 65])?;
/// assert!(rt; set.len() == 70 && other.len() == 66);
/// counted::copy_range(&mut set, &other, 62.., 1, &mut Steps::new());
/// assert_eq!(rt; set.as_slice(), [21, 34].as_slice());
/// ```
#[inline]
#[tactic(auto, using(crate::proofs::Words::given_back, crate::proofs::Words::viewed_length))]
pub fn copy_range<R: IndexRange<usize> + Drop>(
    set: &mut FixedBitSet,
    other: &FixedBitSet,
    range: R,
    at: usize,
    steps: &mut Steps,
)
    requires valid { IsTrue (over ranges.is_valid other.now (R.start_of range) (R.end_of range)) }
    requires room { at + over (λ _ start end. end - start) other.now (R.start_of range)
        (R.end_of range) ≤ set.old.length }
    ensures value { set.new ≡ over (λ w start end. parts.copy_range set.old w start end at)
        other.now (R.start_of range) (R.end_of range) }
    ensures cost { steps.new ≡ steps.old + over (λ _ start end. search_steps at
        (at + (end - start))) other.now (R.start_of range) (R.end_of range) }
{
    let start = range.start().unwrap_or(0);
    let end = range.end().unwrap_or(other.len());
    let (words, length) = (&mut *set.words.as_mut_slice(), set.length);
    BitsMut { words, length }.copy_range(other.as_bits(), start, end, at, steps);
}

/// [`FixedBitSet::append`], with the steps that it takes.
///
/// ```
/// let mut set = FixedBitSet::with_capacity(alloc, 4)?;
/// let mut other = FixedBitSet::with_capacity(alloc, 65)?;
/// other.insert(64);
/// counted::append(&mut set, &other, &mut Steps::new())?;
/// assert_eq!(rt; set.as_slice(), [0, 16].as_slice());
/// ```
#[tactic(auto, using(crate::proofs::Moves::append_grown))]
pub fn append(
    set: &mut FixedBitSet,
    other: &FixedBitSet,
    steps: &mut Steps,
) -> Result<(), AllocError>
    requires { set.old.length + other.now.length < 2 ^ 64 }
    ensures ok { OnOk result (set.new ≡ parts.append set.old other.now) }
    ensures err { OnErr result (set.new ≡ set.old) }
    ensures succeeds { model.words_needed (set.old.length + other.now.length)
        ≤ model.words_needed set.old.length → IsOk result }
    ensures cost { OnOk result (steps.new ≡ steps.old + join_up_steps
        (model.storage_words (set.old.length + other.now.length))
        (model.storage_words other.now.length) set.old.length) }
    ensures refused { OnErr result (steps.new ≡ steps.old) }
{
    let length = set.len();
    set.grow(length + other.len())?;
    union_with_shifted(set, other, length, steps);
    Ok(())
}

/// [`FixedBitSet::resize`], with the steps that it takes: one for each word that holds a
/// position that is new and set.
///
/// ```
/// let mut set = FixedBitSet::from_iter(alloc, [1, 3])?;
/// counted::resize(&mut set, 66, true, &mut Steps::new())?;
/// assert_eq!(rt; set.as_slice(), [!5, 3].as_slice());
/// ```
#[tactic(auto, using(crate::proofs::Moves::resize_shorter, crate::proofs::Moves::resize_with, crate::proofs::Moves::resize_without, crate::specs::BitsFacts::facts))]
pub fn resize(
    set: &mut FixedBitSet,
    bits: usize,
    enabled: bool,
    steps: &mut Steps,
) -> Result<(), AllocError>
    ensures ok { OnOk result (set.new ≡ parts.resize set.old bits enabled) }
    ensures err { OnErr result (set.new ≡ set.old) }
    ensures succeeds { model.words_needed bits ≤ model.words_needed set.old.length → IsOk result }
    ensures cost { OnOk result (steps.new ≡ steps.old
        + (if enabled then range_words set.old.length bits else 0)) }
    ensures refused { OnErr result (steps.new ≡ steps.old) }
{
    let length = set.len();
    if bits <= length {
        set.truncate(bits);
        return Ok(());
    }
    set.grow(bits)?;
    if enabled {
        insert_range(set, length..bits, steps);
    }
    Ok(())
}
