//! A range of positions of one row: changes, counts and tests, a copy from another row, and at most
//! 64 positions as a number.
//!
//! A range is cut at the edges of words into three parts: positions of its first word, whole
//! words, and positions of its last word. Each part may be empty. So no word but the first
//! and the last is masked.
ghost use Rattle.std.specs.Prelude.{◌≡◌, ℕ, ◌<◌, ◌≤◌, ◌+◌, ◌-◌, ◌*◌, ◌/◌, ◌^◌};
ghost use Rattle.std.specs.Prelude.{length, min, ◌==◌, IsTrue, true, false, ◌&&◌, nat_lt, [], ◌∷◌};
ghost use Rattle.bitlanes.specs.Bits.{bit};
ghost use Rattle.bitlanes.specs.Words.{lane_steps};
ghost use Rattle.bitwords.specs.Cuts.{IsCut};
ghost use Rattle.bitwords.specs.Neighbours.{IsNext};
ghost use Rattle.bitwords.specs.Rows.{has_bit, in_range, IsJoined, IsCopied, count_below, bit_test};
ghost use Rattle.bitwords.specs.Steps.{range_words, search_steps, word_end};

use crate::shifts::join_down;
use bitlanes::lanes::LANE;
use bitlanes::ops::{Second, WordOp};
use bitlanes::shifts::word_from;
use bitlanes::word::{BITS, Block, ones_below, stretch};
use bitlanes::{Steps, lanes};

// From how many positions on a count goes by carries: from 512 words on, as in the kernel.
const LONG: usize = 512 * BITS;

/// Joins each position of the range, as one that is set, to the words by `O`; the others stay.
///
/// It takes exactly one step for each word that holds a position of the range.
///
/// ```
/// let mut words = [0, 3];
/// ranges::change::<Xor>(&mut words, 63, 66, &mut Steps::new());
/// assert_eq!(rt; words, [1 << 63, 0]);
/// ```
#[inline(always)]
pub fn change<O: WordOp>(words: &mut [Block], start: usize, end: usize, steps: &mut Steps)
    requires keeps { O.KEEP ≡ true }
    requires order { start ≤ end }
    requires within { end ≤ 64 * length words.old }
    ensures bits { IsJoined O.truth words.old (in_range start end) words.new }
    ensures cost { steps.new ≡ steps.old + range_words start end }
{
    if end - BITS * (start / BITS) <= BITS {
        return change_part::<O>(words, start, end, steps);
    }
    change_head::<O>(words, start, steps);
    change_tail::<O>(words, end, steps);
    // Last, so that nothing has to be kept while the whole words are set or cleared in one call.
    change_whole::<O>(words, start / BITS + 1, (end - 1) / BITS, steps);
}

/// How many positions of the range, each as one that is set joined by `O` with its bit in
/// the words, are set then.
///
/// It takes exactly one step for each word that holds a position of the range.
///
/// ```
/// let count = ranges::count::<And>(&[Block::MAX, 9], 62, 128, &mut Steps::new());
/// assert_eq!(rt; count, 4);
/// ```
#[inline(always)]
pub fn count<O: WordOp>(words: &[Block], start: usize, end: usize, steps: &mut Steps) -> usize
    requires drops { O.TAKE ≡ false }
    requires order { start ≤ end }
    requires within { end ≤ 64 * length words.now }
    ensures count { result + count_below (bit_test (O.truth true) words.now) start
        ≡ count_below (bit_test (O.truth true) words.now) end }
    ensures cost { steps.new ≡ steps.old + range_words start end }
{
    let span = end - BITS * (start / BITS);
    if span <= BITS {
        return count_part::<O>(words, start, end, steps);
    }
    if span > LONG {
        return count_long::<O>(words, start, end, steps);
    }
    let first = count_head::<O>(words, start, steps);
    let last = count_tail::<O>(words, end, steps);
    let middle = count_whole::<O>(words, start / BITS + 1, (end - 1) / BITS, steps);
    first + middle + last
}

/// Whether `count` is 0.
///
/// It stops at the first lane or word that decides. Where it returns `true` it takes exactly
/// `search_steps`: one step for each lane of four of the words that are wholly in the range, the
/// last of which may have fewer, and one for each other word that holds a position of it. Where it
/// returns `false` it takes exactly those of the range up to the end of the word that decides.
///
/// ```
/// assert!(rt; ranges::none::<And>(&[0, 8], 0, 67, &mut Steps::new()));
/// assert!(rt; !ranges::none::<And>(&[0, 8], 0, 68, &mut Steps::new()));
/// ```
#[inline(always)]
pub fn none<O: WordOp>(words: &[Block], start: usize, end: usize, steps: &mut Steps) -> bool
    requires drops { O.TAKE ≡ false }
    requires order { start ≤ end }
    requires within { end ≤ 64 * length words.now }
    ensures none { result ≡ (count_below (bit_test (O.truth true) words.now) end
        == count_below (bit_test (O.truth true) words.now) start) }
    ensures cost { steps.new ≤ steps.old + search_steps start end }
    ensures exact_if_true { IsTrue result → steps.new ≡ steps.old + search_steps start end }
    ensures exact_if_stopped { (p : ℕ) → IsNext (bit_test (O.truth true) words.now) start end p
        → steps.new ≡ steps.old + search_steps start (min end (word_end p)) }
    ensures stops { result ≡ false → steps.old < steps.new }
{
    let (low, high) = cut(start, end);
    none_part::<O>(words, start, low, steps)
        && none_whole::<O>(words, low / BITS, high / BITS, steps)
        && none_part::<O>(words, high, end, steps)
}

/// Writes the positions of `other` from `from` on over those of the range; the others stay.
///
/// It takes exactly `search_steps`: one step for each lane of four of the words that are
/// wholly in the range, the last of which may have fewer, and one for each other word that
/// holds a position of it.
///
/// ```
/// let mut words = [9, 9];
/// ranges::copy(&mut words, 1, 67, &[5 << 60, 9], 62, &mut Steps::new());
/// assert_eq!(rt; words, [75, 8]);
/// ```
#[inline(always)]
pub fn copy(
    words: &mut [Block],
    start: usize,
    end: usize,
    other: &[Block],
    from: usize,
    steps: &mut Steps,
)
    requires order { start ≤ end }
    requires within { end ≤ 64 * length words.old }
    requires source { from + (end - start) ≤ 64 * length other.now }
    requires fits { from + (end - start) < 2 ^ 64 }
    ensures bits { IsCopied other.now from start end words.old words.new }
    ensures cost { steps.new ≡ steps.old + search_steps start end }
{
    let (low, high) = cut(start, end);
    copy_part(words, start, low, other, from, steps);
    copy_whole(
        words,
        low / BITS,
        high / BITS,
        other,
        from + (low - start),
        steps,
    );
    copy_part(words, high, end, other, from + (high - start), steps);
}

/// The `width` positions from `start` on as a number: bit `i` of it is position `start + i`.
///
/// Positions past the words count as clear. The width may be 64 at most. It looks at one
/// word, or at two.
///
/// ```
/// assert_eq!(rt; ranges::load(&[5 << 60, 9], 62, 5), 5);
/// assert_eq!(rt; ranges::load(&[5 << 60, 9], 62, 64), 37);
/// assert_eq!(rt; ranges::load(&[5 << 60, 9], 500, 9), 0);
/// ```
#[inline(always)]
pub fn load(words: &[Block], start: usize, width: usize) -> Block
    requires { width ≤ 64 }
    ensures { (i : ℕ) → bit result i ≡ (nat_lt i width && has_bit words.now (start + i)) }
{
    word_from(words, start) & ones_below(width)
}

/// Makes the `width` positions from `start` on the lowest bits of the number; the others stay.
///
/// The width may be 64 at most. It takes exactly one step for each word that holds one of these
/// positions, which are two at most.
///
/// ```
/// let mut words = [7 << 61, 9];
/// ranges::store(&mut words, 62, 5, 22, &mut Steps::new());
/// assert_eq!(rt; words, [5 << 61, 13]);
/// ```
#[inline(always)]
pub fn store(words: &mut [Block], start: usize, width: usize, number: Block, steps: &mut Steps)
    requires width { width ≤ 64 }
    requires within { start + width ≤ 64 * length words.old }
    requires fits { start + width < 2 ^ 64 }
    ensures bits { IsCopied (number ∷ []) 0 start (start + width) words.old words.new }
    ensures cost { steps.new ≡ steps.old + range_words start (start + width) }
{
    if width == 0 {
        return;
    }
    let at = start / BITS;
    let shift = start % BITS;
    let mask = stretch(0, width);
    let number = number & mask;
    steps.tick();
    words[at] = words[at] & !(mask << shift) | number << shift;
    if shift + width > BITS {
        steps.tick();
        let low = BITS - shift;
        words[at + 1] = words[at + 1] & !(mask >> low) | number >> low;
    }
}

// Where the whole words of the range begin and where they end. If it has none,
// both are the same place.
#[inline(always)]
fn cut(start: usize, end: usize) -> (usize, usize)
    requires { start ≤ end }
    ensures { IsCut start end result.0 result.1 }
{
    let low = start + (end - start).min((BITS - start % BITS) % BITS);
    let high = end - (end - low).min(end % BITS);
    (low, high)
}

// The bits of a word that stand for the positions of a range within it.
#[inline(always)]
#[tactic(auto, using(crate::proofs::Parts::masked))]
fn mask(start: usize, end: usize) -> Block
    requires some { start < end }
    requires one_word { end ≤ 64 * (start / 64) + 64 }
    ensures { (i : ℕ) → bit result i ≡ (nat_lt i 64 && in_range start end (64 * (start / 64) + i)) }
{
    let low = start % BITS;
    stretch(low, low + (end - start))
}

// The bits of the word of `start` from its place on.
#[inline(always)]
fn head_mask(start: usize) -> Block
    ensures { (i : ℕ) → bit result i ≡ (nat_lt i 64
        && in_range start (64 * (start / 64) + 64) (64 * (start / 64) + i)) }
{
    stretch(start % BITS, BITS)
}

// The bits of the word of the last position below `end`, up to and with that.
#[inline(always)]
fn tail_mask(end: usize) -> Block
    requires { 0 < end }
    ensures { (i : ℕ) → bit result i ≡ (nat_lt i 64
        && in_range (64 * ((end - 1) / 64)) end (64 * ((end - 1) / 64) + i)) }
{
    stretch(0, (end - 1) % BITS + 1)
}

// `change`, for the positions from `start` up to the end of its word.
#[inline(always)]
fn change_head<O: WordOp>(words: &mut [Block], start: usize, steps: &mut Steps)
    requires keeps { O.KEEP ≡ true }
    requires within { start < 64 * length words.old }
    ensures bits { IsJoined O.truth words.old (in_range start (64 * (start / 64) + 64)) words.new }
    ensures cost { steps.new ≡ steps.old + 1 }
{
    steps.tick();
    let at = start / BITS;
    words[at] = O::word(words[at], head_mask(start));
}

// `change`, for the positions below `end` in the word of the last of them.
#[inline(always)]
fn change_tail<O: WordOp>(words: &mut [Block], end: usize, steps: &mut Steps)
    requires keeps { O.KEEP ≡ true }
    requires some { 0 < end }
    requires within { end ≤ 64 * length words.old }
    ensures bits { IsJoined O.truth words.old (in_range (64 * ((end - 1) / 64)) end) words.new }
    ensures cost { steps.new ≡ steps.old + 1 }
{
    steps.tick();
    let at = (end - 1) / BITS;
    words[at] = O::word(words[at], tail_mask(end));
}

// `change`, for a range within one word.
#[inline(always)]
fn change_part<O: WordOp>(words: &mut [Block], start: usize, end: usize, steps: &mut Steps)
    requires keeps { O.KEEP ≡ true }
    requires order { start ≤ end }
    requires one_word { end ≤ 64 * (start / 64) + 64 }
    requires within { end ≤ 64 * length words.old }
    ensures bits { IsJoined O.truth words.old (in_range start end) words.new }
    ensures cost { steps.new ≡ steps.old + range_words start end }
{
    if start < end {
        steps.tick();
        let at = start / BITS;
        words[at] = O::word(words[at], mask(start, end));
    }
}

// `change`, for the words from `first` up to and without `last`.
#[inline(always)]
fn change_whole<O: WordOp>(words: &mut [Block], first: usize, last: usize, steps: &mut Steps)
    requires keeps { O.KEEP ≡ true }
    requires order { first ≤ last }
    requires within { last ≤ length words.old }
    ensures bits { IsJoined O.truth words.old (in_range (64 * first) (64 * last)) words.new }
    ensures cost { steps.new ≡ steps.old + (last - first) }
{
    // Without this, a single word would be set or cleared by a call of `memset`.
    if last - first == 1 {
        steps.tick();
        words[first] = O::word(words[first], Block::MAX);
        return;
    }
    for k in first..last {
        steps.tick();
        words[k] = O::word(words[k], Block::MAX);
    }
}

// `count`, for a range within one word.
#[inline(always)]
fn count_part<O: WordOp>(words: &[Block], start: usize, end: usize, steps: &mut Steps) -> usize
    requires drops { O.TAKE ≡ false }
    requires order { start ≤ end }
    requires one_word { end ≤ 64 * (start / 64) + 64 }
    requires within { end ≤ 64 * length words.now }
    ensures count { result + count_below (bit_test (O.truth true) words.now) start
        ≡ count_below (bit_test (O.truth true) words.now) end }
    ensures cost { steps.new ≡ steps.old + range_words start end }
{
    if start < end {
        steps.tick();
        O::word(mask(start, end), words[start / BITS]).count_ones() as usize
    } else {
        0
    }
}

// `count`, for the positions from `start` up to the end of its word.
#[inline(always)]
fn count_head<O: WordOp>(words: &[Block], start: usize, steps: &mut Steps) -> usize
    requires drops { O.TAKE ≡ false }
    requires within { start < 64 * length words.now }
    ensures count { result + count_below (bit_test (O.truth true) words.now) start
        ≡ count_below (bit_test (O.truth true) words.now) (64 * (start / 64 + 1)) }
    ensures cost { steps.new ≡ steps.old + 1 }
{
    steps.tick();
    O::word(head_mask(start), words[start / BITS]).count_ones() as usize
}

// `count`, for the positions below `end` in the word of the last of them.
#[inline(always)]
fn count_tail<O: WordOp>(words: &[Block], end: usize, steps: &mut Steps) -> usize
    requires drops { O.TAKE ≡ false }
    requires some { 0 < end }
    requires within { end ≤ 64 * length words.now }
    ensures count { result
        + count_below (bit_test (O.truth true) words.now) (64 * ((end - 1) / 64))
        ≡ count_below (bit_test (O.truth true) words.now) end }
    ensures cost { steps.new ≡ steps.old + 1 }
{
    steps.tick();
    O::word(tail_mask(end), words[(end - 1) / BITS]).count_ones() as usize
}

// `count`, for the words from `first` up to and without `last`.
#[inline(always)]
fn count_whole<O: WordOp>(words: &[Block], first: usize, last: usize, steps: &mut Steps) -> usize
    requires drops { O.TAKE ≡ false }
    requires order { first ≤ last }
    requires within { last ≤ length words.now }
    requires fits { 64 * last < 2 ^ 64 }
    ensures count { result + count_below (bit_test (O.truth true) words.now) (64 * first)
        ≡ count_below (bit_test (O.truth true) words.now) (64 * last) }
    ensures cost { steps.new ≡ steps.old + (last - first) }
{
    let mut total = 0;
    for k in first..last {
        steps.tick();
        total += O::word(Block::MAX, words[k]).count_ones() as usize;
    }
    total
}

// `count`, for a long range. It is a call of its own, so that short ones save no registers for it.
// A first word that is whole is one of the lanes', which so are aligned as the row is.
#[cold]
#[inline(never)]
fn count_long<O: WordOp>(words: &[Block], start: usize, end: usize, steps: &mut Steps) -> usize
    requires drops { O.TAKE ≡ false }
    requires order { start ≤ end }
    requires within { end ≤ 64 * length words.now }
    ensures count { result + count_below (bit_test (O.truth true) words.now) start
        ≡ count_below (bit_test (O.truth true) words.now) end }
    ensures cost { steps.new ≡ steps.old + range_words start end }
{
    let (low, high) = cut(start, end);
    let first = count_part::<O>(words, start, low, steps);
    let last = count_part::<O>(words, high, end, steps);
    let middle = count_lanes::<O>(words, low / BITS, high / BITS, steps);
    first + middle + last
}

// As `count_whole`, but by the kernel, which takes a step for each lane. The other words of the
// lanes are steps too: a loop without a body, which compiles to nothing.
#[inline(always)]
fn count_lanes<O: WordOp>(words: &[Block], first: usize, last: usize, steps: &mut Steps) -> usize
    requires drops { O.TAKE ≡ false }
    requires order { first ≤ last }
    requires within { last ≤ length words.now }
    requires fits { 64 * last < 2 ^ 64 }
    ensures count { result + count_below (bit_test (O.truth true) words.now) (64 * first)
        ≡ count_below (bit_test (O.truth true) words.now) (64 * last) }
    ensures cost { steps.new ≡ steps.old + (last - first) }
{
    let count = last - first;
    let ones = lanes::count_one(&words[first..last], steps);
    for _ in count.div_ceil(LANE)..count {
        steps.tick();
    }
    // By `O` a word of ones alone keeps the set bits of a word, or the clear ones, both or neither.
    let set = if O::word(1, 1) % 2 == 1 { ones } else { 0 };
    let clear = if O::KEEP { BITS * count - ones } else { 0 };
    set + clear
}

// `none`, for a range within one word.
#[inline(always)]
fn none_part<O: WordOp>(words: &[Block], start: usize, end: usize, steps: &mut Steps) -> bool
    requires drops { O.TAKE ≡ false }
    requires order { start ≤ end }
    requires one_word { end ≤ 64 * (start / 64) + 64 }
    requires within { end ≤ 64 * length words.now }
    ensures none { result ≡ (count_below (bit_test (O.truth true) words.now) end
        == count_below (bit_test (O.truth true) words.now) start) }
    ensures cost { steps.new ≡ steps.old + range_words start end }
{
    if start < end {
        steps.tick();
        O::word(mask(start, end), words[start / BITS]) == 0
    } else {
        true
    }
}

// `none`, for the words from `first` up to and without `last`.
#[inline(always)]
fn none_whole<O: WordOp>(words: &[Block], first: usize, last: usize, steps: &mut Steps) -> bool
    requires drops { O.TAKE ≡ false }
    requires order { first ≤ last }
    requires within { last ≤ length words.now }
    ensures none { result ≡ (count_below (bit_test (O.truth true) words.now) (64 * last)
        == count_below (bit_test (O.truth true) words.now) (64 * first)) }
    ensures cost { steps.new ≤ steps.old + lane_steps (last - first) }
    ensures exact_if_true { IsTrue result → steps.new ≡ steps.old + lane_steps (last - first) }
    ensures exact_if_stopped { (p : ℕ)
        → IsNext (bit_test (O.truth true) words.now) (64 * first) (64 * last) p
        → steps.new ≡ steps.old + lane_steps (p / 64 + 1 - first) }
    ensures stops { result ≡ false → steps.old < steps.new }
{
    // A single word is tested by itself: as a lane with zeros it would go
    // through a vector register.
    if last - first == 1 {
        steps.tick();
        return O::word(Block::MAX, words[first]) == 0;
    }
    lanes::none_masked::<O>(Block::MAX, &words[first..last], steps)
}

// `copy`, for a range within one word.
#[inline(always)]
fn copy_part(
    words: &mut [Block],
    start: usize,
    end: usize,
    other: &[Block],
    from: usize,
    steps: &mut Steps,
)
    requires order { start ≤ end }
    requires one_word { end ≤ 64 * (start / 64) + 64 }
    requires within { end ≤ 64 * length words.old }
    ensures bits { IsCopied other.now from start end words.old words.new }
    ensures cost { steps.new ≡ steps.old + range_words start end }
{
    if start < end {
        steps.tick();
        let at = start / BITS;
        let mask = mask(start, end);
        words[at] = words[at] & !mask | word_from(other, from) << (start % BITS) & mask;
    }
}

// `copy`, for the words from `first` up to and without `last`.
#[inline(always)]
fn copy_whole(
    words: &mut [Block],
    first: usize,
    last: usize,
    other: &[Block],
    from: usize,
    steps: &mut Steps,
)
    requires order { first ≤ last }
    requires within { last ≤ length words.old }
    requires source { from + 64 * (last - first) ≤ 64 * length other.now }
    ensures bits { IsCopied other.now from (64 * first) (64 * last) words.old words.new }
    ensures cost { steps.new ≡ steps.old + lane_steps (last - first) }
{
    join_down::<Second>(&mut words[first..last], other, from, steps);
}
