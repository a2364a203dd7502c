//! Single positions of a row of words, the first, the last and the k-th of them, and
//! those from one position on.
ghost use Rattle.std.specs.Prelude.{◌≡◌, ◌↔◌, ℕ, ◌+◌, ◌-◌, ◌*◌, ◌/◌, ◌^◌, ◌<◌, ◌≤◌, ◌&&◌, nat_lt};
ghost use Rattle.std.specs.Prelude.{length, slice_get, None, IfSome, IfNone, IsTrue, true, false};
ghost use Rattle.std.specs.Int.RustNames.{count_ones};
ghost use Rattle.std.specs.List.{last_or};
ghost use Rattle.bitlanes.specs.Bits.{bit};
ghost use Rattle.bitlanes.specs.Words.{lane_steps};
ghost use Rattle.bitwords.specs.Ascending.{ascending};
ghost use Rattle.bitwords.specs.Neighbours.{IsNext, IsPrevious, NonePasses, IsNth};
ghost use Rattle.bitwords.specs.Rows.{has_bit, bit_test, IsJoined, count_below};

use bitlanes::ops::{And, WordOp};
use bitlanes::search::{first_one, last_one, next_one, previous_one};
use bitlanes::word::{BITS, Block, highest_bit, lowest_bit, ones_below, stretch, take_lowest_bit};
use bitlanes::{Steps, lanes};

/// Whether the position is set in the words: `false` past their end. It looks at one word.
///
/// ```
/// assert!(rt; positions::contains(&[8, 1], 64));
/// assert!(rt; !positions::contains(&[8, 1], 65));
/// assert!(rt; !positions::contains(&[8, 1], 128));
/// ```
#[inline]
pub fn contains(words: &[Block], position: usize) -> bool
    ensures { result ≡ has_bit words.now position }
{
    match words.get(position / BITS) {
        Some(word) => *word & (1 << (position % BITS)) != 0,
        None => false,
    }
}

/// The first position that is set, or `None` where none is.
///
/// It takes one step for each lane of four words from the first on, up to the one that has this
/// position. The number of positions of the row, 64 for each word, may be at most 2 ^ 64.
///
/// ```
/// let mut steps = Steps::new();
/// assert_eq!(rt; positions::first(&[0, 12], &mut steps), Some(66));
/// assert_eq!(rt; positions::first(&[0; 5], &mut steps), None);
/// ```
#[inline]
#[tactic(auto, using(crate::proofs::FirstAndLast::first_position, crate::proofs::FirstAndLast::no_first_position))]
pub fn first(words: &[Block], steps: &mut Steps) -> Option<usize>
    requires { 64 * length words.now ≤ 2 ^ 64 }
    ensures value { result
        ≡ slice_get (ascending (has_bit words.now) 0 (64 * length words.now)) 0 }
    ensures cost { IfSome result (λ p. steps.new ≡ steps.old + lane_steps (p / 64 + 1)) }
    ensures exact_if_none { IfNone result (steps.new ≡ steps.old + lane_steps (length words.now)) }
{
    let at = first_one(words, steps)?;
    Some(BITS * at + lowest_bit(words[at]))
}

/// The last position that is set, or `None` where none is.
///
/// It takes one step for each lane of four words from the last on, down to the one that has this
/// position. The number of positions of the row, 64 for each word, may be at most 2 ^ 64.
///
/// ```
/// let mut steps = Steps::new();
/// assert_eq!(rt; positions::last(&[12, 12, 0], &mut steps), Some(67));
/// assert_eq!(rt; positions::last(&[0; 5], &mut steps), None);
/// ```
#[inline]
#[tactic(auto, using(crate::proofs::FirstAndLast::last_position, crate::proofs::FirstAndLast::no_last_position))]
pub fn last(words: &[Block], steps: &mut Steps) -> Option<usize>
    requires { 64 * length words.now ≤ 2 ^ 64 }
    ensures value { result
        ≡ last_or None (ascending (has_bit words.now) 0 (64 * length words.now)) }
    ensures cost { IfSome result
        (λ p. steps.new ≡ steps.old + lane_steps (length words.now - p / 64)) }
    ensures exact_if_none { IfNone result (steps.new ≡ steps.old + lane_steps (length words.now)) }
{
    let at = last_one(words, steps)?;
    Some(BITS * at + highest_bit(words[at]))
}

/// The least position, at or past `from` and below `end`, whose bit is set when a bit that is set
/// is joined with it by `O`: with `And` a position of the row, with `AndNot` one that the row
/// lacks. `None` where there is none.
///
/// It takes one step for the word of `from`, and one for each lane of four words after it up to the
/// one that has the position. Where there is none it takes these up to the word of `end` at least,
/// and up to the end of the words at most. No step is taken where `from` is not below `end`. The
/// end may not be past the words.
///
/// ```
/// let mut steps = Steps::new();
/// assert_eq!(rt; positions::next::<And>(&[9, 0, 2], 1, 192, &mut steps), Some(3));
/// assert_eq!(rt; positions::next::<And>(&[9, 0, 2], 4, 192, &mut steps), Some(129));
/// assert_eq!(rt; positions::next::<AndNot>(&[Block::MAX, 1], 7, 66, &mut steps), Some(65));
/// assert_eq!(rt; positions::next::<And>(&[9, 0, 2], 4, 129, &mut steps), None);
/// ```
#[inline(always)]
pub fn next<O: WordOp>(words: &[Block], from: usize, end: usize, steps: &mut Steps) -> Option<usize>
    requires drops { O.TAKE ≡ false }
    requires fits { 64 * length words.now ≤ 2 ^ 64 }
    requires within { end ≤ 64 * length words.now }
    ensures found { IfSome result (IsNext (bit_test (O.truth true) words.now) from end) }
    ensures none { IfNone result (NonePasses (bit_test (O.truth true) words.now) from end) }
    ensures cost { IfSome result
        (λ p. steps.new ≡ steps.old + 1 + lane_steps (p / 64 - from / 64)) }
    ensures bound { steps.new ≤ steps.old + 1 + lane_steps (length words.now - 1 - from / 64) }
    ensures missed { IfNone result (from < end
        → steps.old + 1 + lane_steps ((end - 1) / 64 - from / 64) ≤ steps.new) }
    ensures row { from < end
        → NonePasses (bit_test (O.truth true) words.now) from (64 * length words.now)
        → steps.new ≡ steps.old + 1 + lane_steps (length words.now - 1 - from / 64) }
    ensures empty { end ≤ from → steps.new ≡ steps.old }
{
    if from >= end {
        return None;
    }
    let position = next_in_row::<O>(words, from, steps)?;
    if position < end { Some(position) } else { None }
}

/// The greatest position below `below` whose bit is set when a bit that is set is joined
/// with it by `O`: with `And` a position of the row, with `AndNot` one that the row lacks.
/// `None` where there is none.
///
/// It takes one step for the word of the position before `below`, and one for each lane of four
/// words before it down to the one that has the position, or down to the first word where there is
/// none. No step is taken where `below` is 0. It may not be past the end of the words.
///
/// ```
/// let mut steps = Steps::new();
/// assert_eq!(rt; positions::previous::<And>(&[9, 0, 2], 192, &mut steps), Some(129));
/// assert_eq!(rt; positions::previous::<And>(&[9, 0, 2], 129, &mut steps), Some(3));
/// assert_eq!(rt; positions::previous::<AndNot>(&[5, Block::MAX], 128, &mut steps), Some(63));
/// assert_eq!(rt; positions::previous::<And>(&[9, 0, 2], 0, &mut steps), None);
/// ```
#[inline(always)]
pub fn previous<O: WordOp>(words: &[Block], below: usize, steps: &mut Steps) -> Option<usize>
    requires drops { O.TAKE ≡ false }
    requires fits { 64 * length words.now ≤ 2 ^ 64 }
    requires within { below ≤ 64 * length words.now }
    ensures found { IfSome result (IsPrevious (bit_test (O.truth true) words.now) below) }
    ensures none { IfNone result (NonePasses (bit_test (O.truth true) words.now) 0 below) }
    ensures cost { IfSome result
        (λ p. steps.new ≡ steps.old + 1 + lane_steps ((below - 1) / 64 - p / 64)) }
    ensures bound { steps.new ≤ steps.old + 1 + lane_steps ((below - 1) / 64) }
    ensures missed { IfNone result (0 < below
        → steps.new ≡ steps.old + 1 + lane_steps ((below - 1) / 64)) }
    ensures empty { below ≡ 0 → steps.new ≡ steps.old }
{
    let last = below.checked_sub(1)?;
    steps.tick();
    let at = last / BITS;
    let word = O::word(stretch(0, last % BITS + 1), words[at]);
    if word != 0 {
        return Some(BITS * at + highest_bit(word));
    }
    let at = previous_one::<O>(Block::MAX, words, at, steps)?;
    Some(BITS * at + highest_bit(O::word(Block::MAX, words[at])))
}

/// The position of the words from place `first` on and before place `end` that has exactly `index`
/// of their positions before it: the first has index 0. `None` where these words have no more
/// positions than `index`.
///
/// It takes one step for each of these words up to the one that has the position. It clears those
/// before it in a copy of that word, 63 at most, which is not counted. The number of positions of
/// the row, 64 for each word, may be at most 2 ^ 64.
///
/// ```
/// assert_eq!(rt; positions::nth(&[9, 0, 2], 0, 3, 2, &mut Steps::new()), Some(129));
/// assert_eq!(rt; positions::nth(&[9, 0, 2], 1, 3, 0, &mut Steps::new()), Some(129));
/// assert_eq!(rt; positions::nth(&[9, 0, 2], 0, 2, 2, &mut Steps::new()), None);
/// ```
#[inline(always)]
pub fn nth(
    words: &[Block],
    first: usize,
    end: usize,
    index: usize,
    steps: &mut Steps,
) -> Option<usize>
    requires order { first ≤ end }
    requires within { end ≤ length words.now }
    requires fits { 64 * length words.now ≤ 2 ^ 64 }
    ensures found { IfSome result
        (IsNth (has_bit words.now) (count_below (has_bit words.now) (64 * first) + index)) }
    ensures from { IfSome result (λ p. 64 * first ≤ p) }
    ensures below { IfSome result (λ p. p < 64 * end) }
    ensures none { IfNone result (count_below (has_bit words.now) (64 * end)
        ≤ count_below (has_bit words.now) (64 * first) + index) }
    ensures cost { IfSome result (λ p. steps.new + first ≡ steps.old + (p / 64 + 1)) }
    ensures exact_if_none { IfNone result (steps.new ≡ steps.old + (end - first)) }
    ensures bound { steps.new ≤ steps.old + (end - first) }
{
    let mut left = index;
    for k in first..end {
        steps.tick();
        let ones = words[k].count_ones() as usize;
        if left < ones {
            return Some(BITS * k + nth_bit(words[k], left));
        }
        left -= ones;
    }
    None
}

/// Whether no position of the row from `start` on is set.
///
/// It looks at the word of `start`, and at four words at a time after it up to the first that has a
/// position. The number of positions of the row, 64 for each word, may be at most 2 ^ 64.
///
/// ```
/// assert!(rt; positions::none_from(&[9, 2, 0], 66));
/// assert!(rt; !positions::none_from(&[9, 2, 0], 65));
/// assert!(rt; positions::none_from(&[Block::MAX], 64));
/// ```
#[inline]
pub fn none_from(words: &[Block], start: usize) -> bool
    requires fits { 64 * length words.now ≤ 2 ^ 64 }
    ensures { IsTrue result ↔ ((p : ℕ) → start ≤ p → has_bit words.now p ≡ false) }
{
    start / BITS >= words.len() || next_in_row::<And>(words, start, &mut Steps::new()).is_none()
}

/// Clears each position of the row from `start` on. It writes the word of `start` and those after
/// it.
///
/// ```
/// let mut words = [Block::MAX; 3];
/// positions::clear_from(&mut words, 67);
/// assert_eq!(rt; words, [Block::MAX, 7, 0]);
/// ```
#[inline]
pub fn clear_from(words: &mut [Block], start: usize)
    ensures { IsJoined (λ x y. x && y) words.old (λ p. nat_lt p start) words.new }
{
    let at = start / BITS;
    if at < words.len() {
        words[at] &= ones_below(start % BITS);
        lanes::zero(&mut words[at + 1..], &mut Steps::new());
    }
}

/// `next` up to the end of the words. The position has to be one of theirs.
///
/// It takes one step for its word, and one for each lane of four words after that up to the one
/// that has the position, or up to the last where there is none.
///
/// ```
/// let mut steps = Steps::new();
/// assert_eq!(rt; positions::next_in_row::<And>(&[9, 0, 2], 4, &mut steps), Some(129));
/// assert_eq!(rt; positions::next_in_row::<And>(&[9, 0, 2], 130, &mut steps), None);
/// ```
#[inline(always)]
pub fn next_in_row<O: WordOp>(words: &[Block], from: usize, steps: &mut Steps) -> Option<usize>
    requires drops { O.TAKE ≡ false }
    requires fits { 64 * length words.now ≤ 2 ^ 64 }
    requires within { from < 64 * length words.now }
    ensures found { IfSome result
        (IsNext (bit_test (O.truth true) words.now) from (64 * length words.now)) }
    ensures none { IfNone result
        (NonePasses (bit_test (O.truth true) words.now) from (64 * length words.now)) }
    ensures cost { IfSome result
        (λ p. steps.new ≡ steps.old + 1 + lane_steps (p / 64 - from / 64)) }
    ensures bound { steps.new ≤ steps.old + 1 + lane_steps (length words.now - 1 - from / 64) }
    ensures missed { IfNone result
        (steps.new ≡ steps.old + 1 + lane_steps (length words.now - 1 - from / 64)) }
{
    steps.tick();
    let at = from / BITS;
    let rest = O::word(Block::MAX, words[at]) >> (from % BITS);
    if rest != 0 {
        return Some(from + lowest_bit(rest));
    }
    let at = next_one::<O>(Block::MAX, words, at + 1, steps)?;
    Some(BITS * at + lowest_bit(O::word(Block::MAX, words[at])))
}

// The bit of a word with `index` bits set below it. The word has to have more bits set than that.
#[inline(always)]
fn nth_bit(word: Block, index: usize) -> usize
    requires { index < count_ones word }
    ensures within { result < 64 }
    ensures nth { IsNth (bit word) index result }
{
    let mut rest = word;
    for _ in 0..index {
        take_lowest_bit(&mut rest);
    }
    lowest_bit(rest)
}
