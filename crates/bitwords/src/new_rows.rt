//! Two rows of words joined into a new one, which allocates.
ghost use Rattle.std.specs.Prelude.{[], ◌≡◌, ◌≤◌, ◌+◌, ◌++◌, IfOk, OnOk, true, false, length, min};
ghost use Rattle.std.specs.Simd.Lanes.{zip2};
ghost use Rattle.bitlanes.specs.Words.{zip_longest, lane_steps};
ghost use Rattle.bitwords.specs.Rows.{has_bit, IsJoined};
ghost use Rattle.bitwords.specs.Steps.{join_steps};

use crate::joins::join;
use bitlanes::ops::WordOp;
use bitlanes::{Block, Steps, lanes};
use std::alloc::{AllocError, Global};

// From how many words on a new row is written as it is joined. A shorter one is copied and then
// joined, which is faster while all three rows lie in the first cache.
const LONG: usize = 2048;

/// A new row, as long as `words`: each position of `words`, joined with that of `other` by `O`.
///
/// `Err` is returned only where the allocation of the row failed. It takes the steps of
/// [`join`](crate::joins::join), and where an allocation failed at most as many; what is copied
/// before or after the join is not counted.
///
/// ```
/// let new = new_rows::joined::<And>(alloc, &[11, 3, 1], &[9, 6], &mut Steps::new())?;
/// assert_eq!(rt; new.as_slice(), [9, 2, 0].as_slice());
/// ```
#[inline(always)]
pub fn joined<O: WordOp>(
    alloc: Global,
    words: &[Block],
    other: &[Block],
    steps: &mut Steps,
) -> Result<Vec<Block>, AllocError>
    ensures bits { IfOk result (λ new. IsJoined O.truth words.now (has_bit other.now) new.items) }
    ensures cost { steps.new ≤ steps.old + join_steps O.KEEP (length words.now) (length other.now) }
    ensures exact_if_ok { OnOk result
        (steps.new ≡ steps.old + join_steps O.KEEP (length words.now) (length other.now)) }
    ensures grows { steps.old ≤ steps.new }
{
    if other.len() >= LONG && words.len() >= LONG && (O::KEEP || words.len() <= other.len()) {
        return joined_long::<O>(alloc, words, other, steps);
    }
    let mut new = Vec::with_capacity(alloc, words.len())?;
    new.extend_from_slice(words)?;
    join::<O>(&mut new, other, steps);
    Ok(new)
}

// `joined`, for long rows: each word is written as it is joined. It is a call of its own, so that
// short rows save no registers for it.
#[cold]
#[inline(never)]
fn joined_long<O: WordOp>(
    alloc: Global,
    words: &[Block],
    other: &[Block],
    steps: &mut Steps,
) -> Result<Vec<Block>, AllocError>
    requires in_words { 8 ≤ length words.now }
    requires in_other { 8 ≤ length other.now }
    requires rest { O.KEEP ≡ false → length words.now ≤ length other.now }
    ensures bits { IfOk result (λ new. IsJoined O.truth words.now (has_bit other.now) new.items) }
    ensures cost { steps.new ≤ steps.old + lane_steps (min (length words.now) (length other.now)) }
    ensures exact_if_ok { OnOk result
        (steps.new ≡ steps.old + lane_steps (min (length words.now) (length other.now))) }
    ensures grows { steps.old ≤ steps.new }
{
    let mut new = Vec::with_capacity(alloc, words.len())?;
    write_joined::<O>(&mut new, words, other, steps)?;
    Ok(new)
}

// Writes the words joined as far as both rows go, and then the rest of `words`. The first eight are
// copied and then joined: into an empty row `extend` writes one word by itself, and all that it
// writes after it would be unaligned.
#[inline(always)]
fn write_joined<O: WordOp>(
    to: &mut Vec<Block>,
    words: &[Block],
    other: &[Block],
    steps: &mut Steps,
) -> Result<(), AllocError>
    requires empty { to.old.items ≡ [] }
    requires in_words { 8 ≤ length words.now }
    requires in_other { 8 ≤ length other.now }
    ensures words { OnOk result
        (to.new.items ≡ zip_longest O.joined true false words.now other.now) }
    ensures cost { steps.new ≤ steps.old + lane_steps (min (length words.now) (length other.now)) }
    ensures exact_if_ok { OnOk result
        (steps.new ≡ steps.old + lane_steps (min (length words.now) (length other.now))) }
    ensures grows { steps.old ≤ steps.new }
{
    to.extend_from_slice(&words[..8])?;
    lanes::apply::<O>(to, &other[..8], steps);
    append_joined::<O>(to, &words[8..], &other[8..], steps)?;
    to.extend_from_slice(&words[other.len().min(words.len())..])
}

// Writes the joined words after those of `to`, as far as both rows go. `extend` has the loop, so
// the steps are counted apart from it.
#[inline(always)]
fn append_joined<O: WordOp>(
    to: &mut Vec<Block>,
    words: &[Block],
    other: &[Block],
    steps: &mut Steps,
) -> Result<(), AllocError>
    ensures words { OnOk result
        (to.new.items ≡ to.old.items ++ zip2 O.joined words.now other.now) }
    ensures cost { steps.new ≡ steps.old + lane_steps (min (length words.now) (length other.now)) }
{
    steps.tick_lanes(words.len().min(other.len()));
    let pairs = words.iter().zip(other);
    to.extend(pairs.map(|(word, other)| O::word(*word, *other)))
}
