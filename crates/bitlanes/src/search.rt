//! Searches for a word that is not 0, by sixteen words, then by lanes of four,
//! and then by single words.
//!
//! Each word is joined with one mask first, so the same loops find a word that has a bit and a word
//! that lacks one. A step is one lane of four words from the place on where the search begins: each
//! lane counts once, up to the one that has the word, though the last sixteen words may be looked
//! at again. The search of two rows goes by lanes alone.
ghost use Rattle.std.specs.Prelude.{◌≡◌, ℕ, ◌+◌, ◌-◌, ◌*◌, ◌<◌, ◌≤◌, ◌==◌, false};
ghost use Rattle.std.specs.Prelude.{length, map, min, slice_index, IfSome, IfNone};
ghost use Rattle.std.specs.List.{list_all};
ghost use Rattle.std.specs.Simd.Lanes.{zip2, chunk};
ghost use Rattle.bitlanes.specs.Ones.{has_no_ones};
ghost use Rattle.bitlanes.specs.Search.{IsNextOne, IsPreviousOne, AreZerosFrom};
ghost use Rattle.bitlanes.specs.Search.{AreZerosBelow, IsFirstOne, IsLastOne, AreZeros};
ghost use Rattle.bitlanes.specs.Words.{lane_steps};

use crate::lanes::{LANE, is_zero, lane_at, masked_lane_at, word_at};
use crate::ops::{And, WordOp};
use crate::{Block, Steps};
use std::simd::prelude::*;

// How many words four lanes have.
const FOUR: usize = 4 * LANE;

/// The place of the first word that is not 0, or `None` where each word is 0.
///
/// It looks at sixteen words at a time while as many are left after them. Then it looks at four at
/// a time up to those that have the word, and then at single words, which are four at most.
///
/// ```
/// let mut steps = Steps::new();
/// assert_eq!(rt; search::first_one(&[0, 0, 8, 1, 0], &mut steps), Some(2));
/// assert_eq!(rt; search::first_one(&[0; 9], &mut steps), None);
/// ```
#[inline(always)]
pub fn first_one(words: &[Block], steps: &mut Steps) -> Option<usize>
    ensures found { IfSome result (IsFirstOne words.now) }
    ensures none { IfNone result (AreZeros words.now) }
    ensures cost { IfSome result (λ at. steps.new ≡ steps.old + lane_steps (at + 1)) }
    ensures exact_if_none { IfNone result (steps.new ≡ steps.old + lane_steps (length words.now)) }
{
    // Four words or fewer are looked at one by one at once.
    let start = if words.len() > LANE {
        skip_zeros::<And>(Block::MAX, words, 0, steps)
    } else {
        0
    };
    if words.len() - start >= LANE {
        steps.tick();
        return first_in_lane::<And>(Block::MAX, words, start);
    }
    next_one::<And>(Block::MAX, words, start, steps)
}

/// The place of the last word that is not 0, or `None` where each word is 0.
///
/// It looks at sixteen words at a time from the end on while as many are left before them.
/// Then it looks at four at a time down to those that have the word, and then at single words,
/// which are four at most.
///
/// ```
/// let mut steps = Steps::new();
/// assert_eq!(rt; search::last_one(&[0, 0, 8, 1, 0], &mut steps), Some(3));
/// assert_eq!(rt; search::last_one(&[0; 9], &mut steps), None);
/// ```
#[inline(always)]
pub fn last_one(words: &[Block], steps: &mut Steps) -> Option<usize>
    ensures found { IfSome result (IsLastOne words.now) }
    ensures none { IfNone result (AreZeros words.now) }
    ensures cost { IfSome result
        (λ at. steps.new ≡ steps.old + lane_steps (length words.now - at)) }
    ensures exact_if_none { IfNone result (steps.new ≡ steps.old + lane_steps (length words.now)) }
{
    // Four words or fewer are looked at one by one at once.
    let end = if words.len() > LANE {
        skip_zeros_back::<And>(Block::MAX, words, words.len(), steps)
    } else {
        words.len()
    };
    if end >= LANE {
        steps.tick();
        return last_in_lane::<And>(Block::MAX, words, end - LANE);
    }
    previous_one::<And>(Block::MAX, words, end, steps)
}

/// The place of the first word, from place `from` on, that is not 0 when `mask` is joined with it
/// by `O`; `None` where there is none. The place may be the end of the words, and not past it.
///
/// ```
/// let words = [7, 0, 0, 1];
/// let mut steps = Steps::new();
/// assert_eq!(rt; search::next_one::<And>(Block::MAX, &words, 1, &mut steps), Some(3));
/// assert_eq!(rt; search::next_one::<AndNot>(7, &words, 0, &mut steps), Some(1));
/// assert_eq!(rt; search::next_one::<And>(8, &words, 0, &mut steps), None);
/// ```
#[inline(always)]
pub fn next_one<O: WordOp>(
    mask: Block,
    words: &[Block],
    from: usize,
    steps: &mut Steps,
) -> Option<usize>
    requires { from ≤ length words.now }
    ensures found { IfSome result (IsNextOne (map (O.joined mask) words.now) from) }
    ensures none { IfNone result (AreZerosFrom (map (O.joined mask) words.now) from) }
    ensures cost { IfSome result (λ at. steps.new ≡ steps.old + lane_steps (at + 1 - from)) }
    ensures exact_if_none { IfNone result
        (steps.new ≡ steps.old + lane_steps (length words.now - from)) }
{
    // Four words or fewer are looked at one by one at once.
    let start = if words.len() - from > LANE {
        // The first word is looked at by itself: in a loop of such calls it mostly is the one.
        if O::word(mask, words[from]) != 0 {
            steps.tick();
            return Some(from);
        }
        skip_zeros::<O>(mask, words, from, steps)
    } else {
        from
    };
    for at in start..words.len() {
        if (at - start) % LANE == 0 {
            steps.tick();
        }
        if O::word(mask, words[at]) != 0 {
            return Some(at);
        }
    }
    None
}

/// The place, a multiple of four words after `from`, up to which each word is 0 when `mask` is
/// joined with it by `O`, and from which on one of the next four is not, or fewer than four are
/// left. The place `from` may be the end of the words, and not past it.
///
/// It looks at sixteen words at a time while as many are left after them, and then at four at a
/// time. The four at the place that it returns are looked at and take no step yet.
///
/// ```
/// let mut steps = Steps::new();
/// assert_eq!(rt; search::skip_zeros::<And>(Block::MAX, &[7, 0, 0, 0, 0, 0, 1], 1, &mut steps), 5);
/// assert_eq!(rt; search::skip_zeros::<AndNot>(7, &[7, 7, 7, 7, 6, 7, 7, 7], 0, &mut steps), 4);
/// assert_eq!(rt; search::skip_zeros::<And>(8, &[7, 7, 7], 0, &mut steps), 0);
/// ```
#[inline(always)]
#[tactic(auto, using(crate::proofs::Folding::zero_in_lane))]
pub fn skip_zeros<O: WordOp>(mask: Block, words: &[Block], from: usize, steps: &mut Steps) -> usize
    requires { from ≤ length words.now }
    ensures after { from ≤ result }
    ensures within { result ≤ length words.now }
    ensures zeros { (i : ℕ) → from ≤ i → i < result
        → slice_index (map (O.joined mask) words.now) i ≡ 0 }
    ensures stop { result + 4 ≤ length words.now
        → has_no_ones (chunk result 4 (map (O.joined mask) words.now)) ≡ false }
    ensures cost { 4 * steps.new ≡ 4 * steps.old + (result - from) }
{
    let mut start = from;
    while words.len() - start >= 2 * FOUR && are_zero_at::<O>(mask, words, start) {
        tick_four(steps);
        start += FOUR;
    }
    let mut rest = &words[start..];
    while rest.len() >= LANE && is_zero(masked_lane_at::<O>(mask, rest, 0)) {
        steps.tick();
        rest = &rest[LANE..];
    }
    words.len() - rest.len()
}

/// The place of the last word, below place `below`, that is not 0 when `mask` is joined with it by
/// `O`; `None` where there is none. The place may be the end of the words, and not past it.
///
/// ```
/// let words = [1, 0, 0, 7];
/// let mut steps = Steps::new();
/// assert_eq!(rt; search::previous_one::<And>(Block::MAX, &words, 3, &mut steps), Some(0));
/// assert_eq!(rt; search::previous_one::<AndNot>(7, &words, 4, &mut steps), Some(2));
/// assert_eq!(rt; search::previous_one::<And>(8, &words, 4, &mut steps), None);
/// ```
#[inline(always)]
pub fn previous_one<O: WordOp>(
    mask: Block,
    words: &[Block],
    below: usize,
    steps: &mut Steps,
) -> Option<usize>
    requires { below ≤ length words.now }
    ensures found { IfSome result (IsPreviousOne (map (O.joined mask) words.now) below) }
    ensures none { IfNone result (AreZerosBelow (map (O.joined mask) words.now) below) }
    ensures cost { IfSome result (λ at. steps.new ≡ steps.old + lane_steps (below - at)) }
    ensures exact_if_none { IfNone result (steps.new ≡ steps.old + lane_steps below) }
{
    // Four words or fewer are looked at one by one at once.
    let end = if below > LANE {
        skip_zeros_back::<O>(mask, words, below, steps)
    } else {
        below
    };
    let row = &words[..end];
    for at in (0..end).rev() {
        if (end - 1 - at) % LANE == 0 {
            steps.tick();
        }
        if O::word(mask, row[at]) != 0 {
            return Some(at);
        }
    }
    None
}

// The place, a multiple of four words before `below`, from which on each word below that is 0 when
// `mask` is joined with it by `O`. It stops where one of the four words before it is not, or where
// four words or fewer are left.
#[inline(always)]
#[tactic(auto, using(crate::proofs::Folding::zero_in_lane))]
fn skip_zeros_back<O: WordOp>(
    mask: Block,
    words: &[Block],
    below: usize,
    steps: &mut Steps,
) -> usize
    requires { below ≤ length words.now }
    ensures within { result ≤ below }
    ensures zeros { (i : ℕ) → result ≤ i → i < below
        → slice_index (map (O.joined mask) words.now) i ≡ 0 }
    ensures stop { 4 < result
        → has_no_ones (chunk (result - 4) 4 (map (O.joined mask) words.now)) ≡ false }
    ensures cost { 4 * steps.new ≡ 4 * steps.old + (below - result) }
{
    let mut end = below;
    while end >= 2 * FOUR && are_zero_at::<O>(mask, words, end - FOUR) {
        tick_four(steps);
        end -= FOUR;
    }
    while end > LANE && is_zero(masked_lane_at::<O>(mask, &words[..end], end - LANE)) {
        steps.tick();
        end -= LANE;
    }
    end
}

/// The place of the first word of `a` that is not 0 when the word of `b` at its place is joined
/// with it by `O`, as far as both go; `None` where there is none.
///
/// ```
/// let mut steps = Steps::new();
/// assert_eq!(rt; search::first_joined::<AndNot>(&[1, 3, 7], &[1, 2], &mut steps), Some(1));
/// assert_eq!(rt; search::first_joined::<AndNot>(&[1, 3, 7], &[1, 3], &mut steps), None);
/// ```
#[inline(always)]
#[tactic(auto, using(crate::proofs::Folding::zero_in_lane, crate::proofs::Zipping::length_joined))]
pub fn first_joined<O: WordOp>(a: &[Block], b: &[Block], steps: &mut Steps) -> Option<usize>
    ensures found { IfSome result (IsFirstOne (zip2 O.joined a.now b.now)) }
    ensures none { IfNone result (AreZeros (zip2 O.joined a.now b.now)) }
    ensures cost { IfSome result (λ at. steps.new ≡ steps.old + lane_steps (at + 1)) }
    ensures exact_if_none { IfNone result
        (steps.new ≡ steps.old + lane_steps (min (length a.now) (length b.now))) }
{
    let common = a.len().min(b.len());
    let mut lane = 0;
    while common - lane >= LANE && is_zero(lane_at::<O>(a, b, lane)) {
        steps.tick();
        lane += LANE;
    }
    for at in lane..common {
        if at % LANE == 0 {
            steps.tick();
        }
        if word_at::<O>(a, b, at) != 0 {
            return Some(at);
        }
    }
    None
}

// The place of the first of the four words from `start` on that is not 0 when `mask` is joined with
// it by `O`.
#[inline(always)]
fn first_in_lane<O: WordOp>(mask: Block, words: &[Block], start: usize) -> Option<usize>
    requires { start + 4 ≤ length words.now }
    ensures found { IfSome result (IsNextOne (map (O.joined mask) words.now) start) }
    ensures near { IfSome result (λ at. at < start + 4) }
    ensures none { IfNone result ((i : ℕ) → start ≤ i → i < start + 4
        → slice_index (map (O.joined mask) words.now) i ≡ 0) }
{
    let rest = &words[start..];
    for at in 0..LANE {
        if O::word(mask, rest[at]) != 0 {
            return Some(start + at);
        }
    }
    None
}

// The place of the last of the four words from `start` on that is not 0 when `mask` is joined with
// it by `O`.
#[inline(always)]
fn last_in_lane<O: WordOp>(mask: Block, words: &[Block], start: usize) -> Option<usize>
    requires { start + 4 ≤ length words.now }
    ensures found { IfSome result (IsPreviousOne (map (O.joined mask) words.now) (start + 4)) }
    ensures near { IfSome result (λ at. start ≤ at) }
    ensures none { IfNone result ((i : ℕ) → start ≤ i → i < start + 4
        → slice_index (map (O.joined mask) words.now) i ≡ 0) }
{
    let four = &words[start..start + LANE];
    for at in (0..LANE).rev() {
        if O::word(mask, four[at]) != 0 {
            return Some(start + at);
        }
    }
    None
}

// Counts the four lanes of sixteen words.
#[inline(always)]
fn tick_four(steps: &mut Steps)
    ensures { steps.new ≡ steps.old + 4 }
{
    steps.tick();
    steps.tick();
    steps.tick();
    steps.tick();
}

// Whether the mask joined with each of the sixteen words from `at` on is 0.
#[inline(always)]
fn are_zero_at<O: WordOp>(mask: Block, words: &[Block], at: usize) -> bool
    requires { at + 16 ≤ length words.now }
    ensures { result ≡ has_no_ones (chunk at 16 (map (O.joined mask) words.now)) }
{
    is_zero(two_lanes_at::<O>(mask, words, at) | two_lanes_at::<O>(mask, words, at + 2 * LANE))
}

// The two lanes from `at` on, each joined with the mask, joined by `or`.
#[inline(always)]
fn two_lanes_at<O: WordOp>(mask: Block, words: &[Block], at: usize) -> u64x4
    requires { at + 8 ≤ length words.now }
    ensures long { length result ≡ 4 }
    ensures zero { has_no_ones result
        ≡ has_no_ones (chunk at 8 (map (O.joined mask) words.now)) }
{
    masked_lane_at::<O>(mask, words, at) | masked_lane_at::<O>(mask, words, at + LANE)
}
