//! The kernels that move the bits of a row up or down, by any number of bits.
//!
//! A moved word is made of two words that follow each other, so each lane is made of two loads that
//! lie one word apart. A step is one lane of four words that are written, as in module `lanes`, and
//! the last lane may have fewer.
ghost use Rattle.std.specs.Prelude.{◌≡◌, ℕ, ◌+◌, ◌-◌, ◌*◌, ◌/◌, ◌%◌, ◌^◌};
ghost use Rattle.std.specs.Prelude.{◌<◌, ◌≤◌, length, min, slice_index};
ghost use Rattle.std.specs.Int.{div_ceil};
ghost use Rattle.std.specs.Simd.Lanes.{zip2, chunk, put_chunk};
ghost use Rattle.bitlanes.specs.Shifts.{straddle, window, up_steps};
ghost use Rattle.bitlanes.specs.Words.{lane_steps};

use crate::lanes::LANE;
use crate::ops::{Second, WordOp};
use crate::word::BITS;
use crate::{Block, Steps};
use std::simd::prelude::*;

/// Joins each word of `dst` by `O` with the 64 bits of `src` at its place, where `src` is taken
/// from bit `from` on. Words of `dst` for which `src` has no bit left stay.
///
/// It takes exactly `m / 4` steps, rounded up, `m` being the number of words that are joined.
///
/// ```
/// let mut words = [1, 0, 4];
/// shifts::join_down::<Or>(&mut words, &[5 << 60, 9, 1 << 63], 62, &mut Steps::new());
/// assert_eq!(rt; words, [37, 0, 6]);
/// ```
#[inline(always)]
pub fn join_down<O: WordOp>(dst: &mut [Block], src: &[Block], from: usize, steps: &mut Steps)
    ensures words { (k : ℕ) → k < length dst.old → k + from / 64 < length src.now
        → slice_index dst.new k
        ≡ O.joined (slice_index dst.old k) (window src.now (from + 64 * k)) }
    ensures rest { (k : ℕ) → length src.now ≤ k + from / 64
        → slice_index dst.new k ≡ slice_index dst.old k }
    ensures cost { steps.new ≡ steps.old
        + lane_steps (min (length dst.old) (length src.now - from / 64)) }
{
    let first = from / BITS;
    let shift = from % BITS;
    let words = dst.len().min(src.len().saturating_sub(first));
    if words == 0 {
        return;
    }
    let (dst, src) = (&mut dst[..words], &src[first..]);
    let mut done = 0;
    while words - done > LANE {
        steps.tick();
        join_lane::<O>(dst, done, window_lane(src, done, shift));
        done += LANE;
    }
    for at in done..words {
        if at % LANE == 0 {
            steps.tick();
        }
        dst[at] = O::word(dst[at], window_word(src, at, shift));
    }
}

/// Writes over each word of the row with the 64 bits that stand `by` places above it. Words that
/// have no bit of the row above them stay.
///
/// It takes exactly `m / 4` steps, rounded up, `m` being the number of words that are written.
///
/// ```
/// let mut words = [5 << 60, 9, 1 << 63];
/// shifts::down(&mut words, 62, &mut Steps::new());
/// assert_eq!(rt; words, [37, 0, 2]);
/// ```
#[inline(always)]
pub fn down(words: &mut [Block], by: usize, steps: &mut Steps)
    ensures words { (k : ℕ) → k + by / 64 < length words.old
        → slice_index words.new k ≡ window words.old (by + 64 * k) }
    ensures rest { (k : ℕ) → length words.old ≤ k + by / 64
        → slice_index words.new k ≡ slice_index words.old k }
    ensures cost { steps.new ≡ steps.old + lane_steps (length words.old - by / 64) }
{
    let first = by / BITS;
    let shift = by % BITS;
    let kept = words.len().saturating_sub(first);
    let lanes = kept.saturating_sub(1) / LANE;
    for lane in 0..lanes {
        steps.tick();
        let moved = window_lane(words, first + LANE * lane, shift);
        join_lane::<Second>(words, LANE * lane, moved);
    }
    let start = first + LANE * lanes;
    if start < words.len() {
        steps.tick();
        let mut low = words[start];
        for at in start + 1..words.len() {
            let high = words[at];
            words[at - 1 - first] = straddle_word(shift, low, high);
            low = high;
        }
        // The last word that is written has no word above it.
        words[kept - 1] = low >> shift;
    }
}

/// Joins each word of the row by `O` with the 64 bits of the row that stand `by` places below it.
/// Words that have no bit of the row below them stay. `by` may not be 0.
///
/// It goes from the last word to the first, so each is read before it is written. It takes exactly
/// `m / 4` steps, rounded up, `m` being the number of words that have 64 bits below them, and one
/// more for the word that has fewer.
///
/// ```
/// let mut words = [37, 0, 2];
/// shifts::up::<Or>(&mut words, 62, &mut Steps::new());
/// assert_eq!(rt; words, [37 | 1 << 62, 9, 2 | 1 << 63]);
/// ```
#[inline(always)]
pub fn up<O: WordOp>(words: &mut [Block], by: usize, steps: &mut Steps)
    requires { 0 < by }
    ensures words { (k : ℕ) → k < length words.old → by ≤ 64 * k
        → slice_index words.new k
        ≡ O.joined (slice_index words.old k) (window words.old (64 * k - by)) }
    ensures first { by / 64 < length words.old → 0 < by % 64
        → slice_index words.new (by / 64) ≡ O.joined (slice_index words.old (by / 64))
        (slice_index words.old 0 * 2 ^ (by % 64) % 2 ^ 64) }
    ensures rest { (k : ℕ) → 64 * (k + 1) ≤ by → slice_index words.new k ≡ slice_index words.old k }
    ensures cost { steps.new ≡ steps.old + up_steps (length words.old) by }
{
    let first = by.div_ceil(BITS);
    let shift = (BITS - by % BITS) % BITS;
    if words.len() < first {
        return;
    }
    let behind = words.len() - first;
    for lane in 0..behind / LANE {
        steps.tick();
        let at = words.len() - LANE * (lane + 1);
        let moved = window_lane(words, at - first, shift);
        join_lane::<O>(words, at, moved);
    }
    let rest = behind % LANE;
    if rest > 0 {
        steps.tick();
        let mut high = words[rest];
        for at in (0..rest).rev() {
            let low = words[at];
            words[first + at] = O::word(words[first + at], straddle_word(shift, low, high));
            high = low;
        }
    }
    if shift > 0 {
        steps.tick();
        words[first - 1] = O::word(words[first - 1], words[0] << (BITS - shift));
    }
}

/// The 64 bits of `words` from bit `from` on. Bits that the row does not have are 0.
///
/// ```
/// assert_eq!(rt; shifts::word_from(&[5 << 60, 9], 62), 37);
/// assert_eq!(rt; shifts::word_from(&[5 << 60, 9], 128), 0);
/// ```
#[inline(always)]
#[tactic(auto, using(crate::proofs::Moved::window_past), unfolding(crate::specs::Shifts::window))]
pub fn word_from(words: &[Block], from: usize) -> Block
    ensures { result ≡ window words.now from }
{
    let at = from / BITS;
    if at < words.len() {
        window_word(words, at, from % BITS)
    } else {
        0
    }
}

// The four moved words from `at` on.
#[inline(always)]
fn window_lane(words: &[Block], at: usize, shift: usize) -> u64x4
    requires shift { shift < 64 }
    requires within { at + 5 ≤ length words.now }
    ensures long { length result ≡ 4 }
    ensures words { (k : ℕ) → k < 4 → slice_index result k
        ≡ straddle shift (slice_index words.now (at + k)) (slice_index words.now (at + k + 1)) }
{
    let five = &words[at..at + 5];
    straddle_lane(
        shift,
        u64x4::from_slice(five),
        u64x4::from_slice(&five[1..]),
    )
}

// The bits from bit `shift` on of each word and the one after it.
#[inline(always)]
fn straddle_lane(shift: usize, low: u64x4, high: u64x4) -> u64x4
    requires shift { shift < 64 }
    requires low { length low ≡ 4 }
    requires high { length high ≡ 4 }
    ensures long { length result ≡ 4 }
    ensures words { (k : ℕ) → k < 4 → slice_index result k
        ≡ straddle shift (slice_index low k) (slice_index high k) }
{
    let right = u64x4::splat(shift as Block);
    let left = u64x4::splat((BITS - 1 - shift) as Block);
    (low >> right) | ((high << u64x4::splat(1)) << left)
}

// The moved word at `at`.
#[inline(always)]
fn window_word(words: &[Block], at: usize, shift: usize) -> Block
    requires shift { shift < 64 }
    requires within { at < length words.now }
    ensures { result ≡ straddle shift (slice_index words.now at) (slice_index words.now (at + 1)) }
{
    let low = words[at] >> shift;
    if at < words.len() - 1 {
        low | ((words[at + 1] << 1) << (BITS - 1 - shift))
    } else {
        low
    }
}

// The bits from bit `shift` on of a word and the one after it.
#[inline(always)]
#[tactic(auto, unfolding(crate::specs::Shifts::straddle))]
fn straddle_word(shift: usize, low: Block, high: Block) -> Block
    requires { shift < 64 }
    ensures { result ≡ straddle shift low high }
{
    (low >> shift) | ((high << 1) << (BITS - 1 - shift))
}

// Joins the four words of `dst` from `at` on with a lane.
#[inline(always)]
fn join_lane<O: WordOp>(dst: &mut [Block], at: usize, lane: u64x4)
    requires long { length lane ≡ 4 }
    requires within { at + 4 ≤ length dst.old }
    ensures { dst.new ≡ put_chunk at dst.old (zip2 O.joined (chunk at 4 dst.old) lane) }
{
    O::lane(u64x4::from_slice(&dst[at..]), lane).copy_to_slice(&mut dst[at..]);
}
