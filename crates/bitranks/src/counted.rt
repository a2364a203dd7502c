//! The calls of [`Ranks`] with a counter of steps.
//!
//! A step is one word of the set, or one entry of the directory that a search looks at.

ghost use Rattle.std.specs.Prelude.{◌≡◌, ℕ, ◌+◌, ◌-◌, ◌*◌, ◌/◌, ◌^◌, ◌≤◌};
ghost use Rattle.std.specs.Prelude.{IfOk, OnOk, OnErr, IfSome, IfNone};
ghost use Rattle.fixedbitset.specs.Bits.{words_needed};
ghost use Rattle.bitranks.specs.Ranks as model;
ghost use Rattle.bitranks.specs.Ranks.{Halves, last_words, nth_of_entry};

use crate::directory;
use crate::ranks::Ranks;
use bitlanes::Steps;
use bitlanes::word::BITS;
use fixedbitset::FixedBitSet;
use std::alloc::{AllocError, Global};

/// [`Ranks::of`], with the steps that it takes: exactly one for each word of the set but those of
/// the last entry of the directory, and none where an allocation failed.
///
/// ```
/// let set = FixedBitSet::from_iter(alloc, [3, 64, 70])?;
/// let mut steps = Steps::new();
/// let ranks = bitranks::counted::of(alloc, &set, &mut steps)?;
/// assert_eq!(rt; bitranks::counted::rank(&ranks, 70, &mut steps), 2);
/// ```
pub fn of<'a>(
    alloc: Global,
    set: &'a FixedBitSet,
    steps: &mut Steps,
) -> Result<Ranks<'a>, AllocError>
    ensures value { IfOk result (λ ranks. ranks ≡ set.now) }
    ensures cost { OnOk result
        (steps.new ≡ steps.old + (words_needed set.now.length
        - last_words (words_needed set.now.length))) }
    ensures refused { OnErr result (steps.new ≡ steps.old) }
    ensures bound { steps.new ≤ steps.old + words_needed set.now.length }
{
    let words = set.as_slice();
    let mut entries = vec![in alloc; 0; directory::entries(set.len().div_ceil(BITS))]?;
    directory::fill(words, &mut entries, steps);
    Ok(Ranks {
        set,
        words,
        directory: entries,
    })
}

/// [`Ranks::rank`], with the steps that it takes: exactly one for each word that it
/// looks at, eight at most.
///
/// ```
/// let set = FixedBitSet::from_iter(alloc, [3, 64, 70])?;
/// let ranks = Ranks::of(alloc, &set)?;
/// assert_eq!(rt; bitranks::counted::rank(&ranks, 65, &mut Steps::new()), 2);
/// ```
#[inline]
pub fn rank(ranks: &Ranks, position: usize, steps: &mut Steps) -> usize
    ensures value { result ≡ model.rank ranks.now position }
    ensures cost { steps.new ≡ steps.old
        + model.rank_steps (words_needed ranks.now.length) position }
    ensures bound { steps.new ≤ steps.old + 8 }
{
    directory::rank(ranks.words, &ranks.directory, position, steps)
}

/// [`Ranks::select`], with the steps that it takes: one for each time that the directory is halved,
/// and one for each word of an entry that it looks at then. So these are eight at most, and `n`
/// more for a directory of at most `2 ^ n` entries.
///
/// ```
/// let set = FixedBitSet::from_iter(alloc, [3, 64, 70])?;
/// let ranks = Ranks::of(alloc, &set)?;
/// assert_eq!(rt; bitranks::counted::select(&ranks, 1, &mut Steps::new()), Some(64));
/// ```
#[inline]
pub fn select(ranks: &Ranks, index: usize, steps: &mut Steps) -> Option<usize>
    ensures value { result ≡ model.select ranks.now index }
    ensures cost { IfSome result (λ p. Halves (model.entries (words_needed ranks.now.length))
        (steps.old + nth_of_entry (p / 64)) steps.new) }
    ensures exact_if_none { IfNone result (Halves (model.entries (words_needed ranks.now.length))
        (steps.old + last_words (words_needed ranks.now.length)) steps.new) }
    ensures bound { (n : ℕ) → model.entries (words_needed ranks.now.length) ≤ 2 ^ n
        → steps.new ≤ steps.old + n + 8 }
{
    directory::select(ranks.words, &ranks.directory, index, steps)
}
