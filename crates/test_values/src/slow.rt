//! One set compared with one reference value.

ghost use Rattle.std.specs.Prelude.{◌≡◌, ◌<◌, length, IfOk, true};
ghost use Rattle.test_values.specs.Slow.{HasPositions};

use bitlanes::word::{BITS, Block};
use fixedbitset::FixedBitSet;
use std::alloc::{AllocError, Global};

/// The reference value of this length that has the multiples of a step.
pub fn multiples(alloc: Global, length: usize, step: usize) -> Result<Vec<bool>, AllocError>
    requires { 0 < step }
{
    let mut flags = Vec::new(alloc);
    for position in 0..length {
        flags.push(position % step == 0)?;
    }
    Ok(flags)
}

/// The set of this reference value.
#[tactic(auto, using(fixedbitset::specs::BitsFacts::facts))]
pub fn filled(alloc: Global, flags: &[bool]) -> Result<FixedBitSet, AllocError>
    ensures length { IfOk result (λ set. set.length ≡ length flags.now) }
    ensures positions { IfOk result (λ set. HasPositions set flags.now) }
{
    let mut set = FixedBitSet::with_capacity(alloc, flags.len())?;
    for position in 0..flags.len() {
        if flags[position] {
            set.insert(position);
        }
    }
    Ok(set)
}

/// Whether the set has this length, these positions, and no other bit in its words.
pub fn is_same(set: &FixedBitSet, flags: &[bool]) -> bool
    ensures length { result ≡ true → set.now.length ≡ length flags.now }
    ensures positions { result ≡ true → HasPositions set.now flags.now }
{
    set.len() == flags.len()
        && has_positions(set, flags)
        && has_none_past(set, flags.len())
        && are_words(set.as_slice(), flags)
}

// Whether the positions below the flags' count are set where the flags are.
fn has_positions(set: &FixedBitSet, flags: &[bool]) -> bool
    ensures { result ≡ true → HasPositions set.now flags.now }
{
    for position in 0..flags.len() {
        if set.contains(position) != flags[position] {
            return false;
        }
    }
    true
}

// Whether no position from this one on is set, as far as the word after the next goes, and
// the greatest not either.
fn has_none_past(set: &FixedBitSet, length: usize) -> bool {
    for position in length..length.saturating_add(65) {
        if set.contains(position) {
            return false;
        }
    }
    !set.contains(usize::MAX)
}

/// Whether these are the flags' words: one for each 64 flags, rounded up.
pub fn are_words(words: &[Block], flags: &[bool]) -> bool {
    if words.len() != flags.len().div_ceil(BITS) {
        return false;
    }
    for (word, part) in words.iter().zip(flags.chunks(BITS)) {
        if *word != word_of(part) {
            return false;
        }
    }
    true
}

// The word whose bit `i` is flag `i`.
fn word_of(flags: &[bool]) -> Block {
    let mut word = 0;
    for flag in flags.iter().rev() {
        word = (word << 1) | Block::from(*flag);
    }
    word
}

/// How many flags from `start` up to and without `end` are as wanted.
pub fn count_in(flags: &[bool], start: usize, end: usize, wanted: bool) -> usize {
    let mut count = 0usize;
    for position in start..end.min(flags.len()) {
        if flags[position] == wanted {
            count = count.wrapping_add(1);
        }
    }
    count
}
