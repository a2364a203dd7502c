//! Two rows of words, of any two lengths: joins, counts and tests. Past its words
//! a row has no position.
//!
//! The words that both rows have are joined by a kernel of `bitlanes`, by lanes of four; the rest
//! of the longer row is cleared, counted or left, as the operation says.
ghost use Rattle.std.specs.Prelude.{◌≡◌, ◌<◌, ◌≤◌, ◌+◌, ◌-◌, ◌*◌, ◌/◌, ◌^◌, ◌==◌, ◌&&◌, ◌||◌};
ghost use Rattle.std.specs.Prelude.{ℕ, not, IsTrue, IfSome, IfNone, true, false, [], length, min};
ghost use Rattle.std.specs.Prelude.{max, drop, slice_get, slice_index, sum_by, if◌then◌else◌};
ghost use Rattle.std.specs.Int.RustNames.{count_ones};
ghost use Rattle.std.specs.List.{list_all};
ghost use Rattle.bitlanes.specs.Bits.{bit_without};
ghost use Rattle.bitlanes.specs.Changes.{changes};
ghost use Rattle.bitlanes.specs.Search.{IsFirstOne, AreZeros};
ghost use Rattle.bitlanes.specs.Words.{zip_longest, lane_steps};
ghost use Rattle.bitwords.specs.Ascending.{ascending};
ghost use Rattle.bitwords.specs.Neighbours.{IsNext, NonePasses};
ghost use Rattle.bitwords.specs.Rows.{has_bit, IsJoined, count_below, bits_test};
ghost use Rattle.bitwords.specs.Steps.{join_steps, both_steps};

use bitlanes::ops::{And, AndNot, Or, Second, WordOp};
use bitlanes::search::{first_joined, next_one};
use bitlanes::word::{BITS, lowest_bit};
use bitlanes::{Block, Steps, changes, lanes};

/// Joins each position of `words` with that of `other` by `O`.
///
/// With `m` words that both have and `t` that only `words` has it takes exactly `m / 4` steps,
/// rounded up, and `t / 4`, rounded up, more where the rest is cleared.
///
/// ```
/// let mut words = [11, 3, 1];
/// joins::join::<And>(&mut words, &[9, 6], &mut Steps::new());
/// assert_eq!(rt; words, [9, 2, 0]);
/// ```
#[inline(always)]
pub fn join<O: WordOp>(words: &mut [Block], other: &[Block], steps: &mut Steps)
    ensures bits { IsJoined O.truth words.old (has_bit other.now) words.new }
    ensures cost { steps.new ≡ steps.old + join_steps O.KEEP (length words.old) (length other.now) }
{
    lanes::apply::<O>(words, other, steps);
    let common = other.len();
    if !O::KEEP && common < words.len() {
        lanes::zero(&mut words[common..], steps);
    }
}

/// Joins each position of `words` with that of `other` by `O`, and returns whether one changed.
/// Where the operation takes positions that only `other` has, `other` may not be longer.
///
/// It takes exactly the steps of [`join`]: each word is read once.
///
/// ```
/// let mut words = [11, 3, 1];
/// assert!(rt; joins::join_with_change::<And>(&mut words, &[9, 6], &mut Steps::new()));
/// assert_eq!(rt; words, [9, 2, 0]);
/// ```
#[inline(always)]
pub fn join_with_change<O: WordOp>(words: &mut [Block], other: &[Block], steps: &mut Steps) -> bool
    requires shorter { O.TAKE ≡ true → length other.now ≤ length words.old }
    ensures bits { IsJoined O.truth words.old (has_bit other.now) words.new }
    ensures changed { result ≡ not (count_below (bits_test (changes O.truth) words.old other.now)
        (64 * max (length words.old) (length other.now)) == 0) }
    ensures cost { steps.new ≡ steps.old + join_steps O.KEEP (length words.old) (length other.now) }
{
    let joined = changes::apply::<O>(words, other, steps);
    let common = other.len();
    if !O::KEEP && common < words.len() {
        let cleared = changes::zero(&mut words[common..], steps);
        return joined || cleared;
    }
    joined
}

/// Writes each position of `words`, joined with that of `other` by `O`, over the words `to`, which
/// are as many as `words`.
///
/// With `m` words that both have and `t` that only `words` has it takes exactly `m / 4` steps,
/// rounded up, and `t / 4`, rounded up, more: each word is read once and written once.
///
/// ```
/// let mut to = [7; 3];
/// joins::join_to::<Xor>(&mut to, &[11, 3, 1], &[9, 6], &mut Steps::new());
/// assert_eq!(rt; to, [2, 5, 1]);
/// ```
#[inline(always)]
pub fn join_to<O: WordOp>(to: &mut [Block], words: &[Block], other: &[Block], steps: &mut Steps)
    requires long { length to.old ≡ length words.now }
    ensures bits { IsJoined O.truth words.now (has_bit other.now) to.new }
    ensures cost { steps.new ≡ steps.old
        + both_steps true false (length words.now) (length other.now) }
{
    changes::apply_joined::<Second, O>(to, words, other, steps);
    let common = other.len();
    if common < words.len() {
        if O::KEEP {
            lanes::apply::<Second>(&mut to[common..], &words[common..], steps);
        } else {
            lanes::zero(&mut to[common..], steps);
        }
    }
}

/// Takes in the positions of `gens` that `kills` lacks, and returns whether one came in. `gens` may
/// not be longer than `words`.
///
/// With `m` words that `gens` and `kills` have and `t` that only `gens` has it takes exactly `m /
/// 4` steps, rounded up, and `t / 4`, rounded up, more: each word is read once.
///
/// ```
/// let mut words = [1, 0, 8];
/// let mut steps = Steps::new();
/// assert!(rt; joins::union_with_difference(&mut words, &[7, 3], &[5], &mut steps));
/// assert!(rt; !joins::union_with_difference(&mut words, &[7, 3], &[4, 0, 9], &mut steps));
/// assert_eq!(rt; words, [3, 3, 8]);
/// ```
#[inline(always)]
pub fn union_with_difference(
    words: &mut [Block],
    gens: &[Block],
    kills: &[Block],
    steps: &mut Steps,
) -> bool
    requires shorter { length gens.now ≤ length words.old }
    ensures bits { IsJoined (λ x y. x || y)
        words.old (bits_test (λ x y. x && not y) gens.now kills.now) words.new }
    ensures changed { result ≡ not (count_below (λ p. changes (λ x y. x || y)
        (has_bit words.old p) (bits_test (λ x y. x && not y) gens.now kills.now p))
        (64 * length words.old) == 0) }
    ensures cost { steps.new ≡ steps.old
        + both_steps true false (length gens.now) (length kills.now) }
{
    let common = gens.len().min(kills.len());
    let joined = changes::apply_joined::<Or, AndNot>(words, gens, kills, steps);
    let behind = changes::apply::<Or>(&mut words[common..], &gens[common..], steps);
    joined | behind
}

/// How many positions are set in `a` joined with `b` by `O`. Precondition: this number fits
/// `usize`.
///
/// With `m` words that both have and `t` that only the longer has it takes exactly `m / 4` steps,
/// rounded up, and `t / 4`, rounded up, more where these count.
///
/// ```
/// let count = joins::count::<Xor>(&[11, 3], &[9], &mut Steps::new());
/// assert_eq!(rt; count, 3);
/// ```
#[inline(always)]
pub fn count<O: WordOp>(a: &[Block], b: &[Block], steps: &mut Steps) -> usize
    requires fits { count_below (bits_test O.truth a.now b.now)
        (64 * max (length a.now) (length b.now)) < 2 ^ 64 }
    ensures count { result ≡ count_below (bits_test O.truth a.now b.now)
        (64 * max (length a.now) (length b.now)) }
    ensures cost { steps.new ≡ steps.old + both_steps O.KEEP O.TAKE (length a.now) (length b.now) }
{
    count_words::<O>(a, b, steps)
}

/// Whether `count` is 0, whether or not it fits `usize`.
///
/// It stops at the first lane that decides: where it returns `true` it takes exactly the steps of
/// `count`, and where it returns `false` exactly those of `count` over the words up to the one that
/// has the first position that counts.
///
/// ```
/// assert!(rt; joins::none::<AndNot>(&[2], &[3, 1], &mut Steps::new()));
/// assert!(rt; !joins::none::<AndNot>(&[3, 1], &[3], &mut Steps::new()));
/// ```
#[inline(always)]
pub fn none<O: WordOp>(a: &[Block], b: &[Block], steps: &mut Steps) -> bool
    ensures none { result ≡ (count_below (bits_test O.truth a.now b.now)
        (64 * max (length a.now) (length b.now)) == 0) }
    ensures cost { steps.new ≤ steps.old + both_steps O.KEEP O.TAKE (length a.now) (length b.now) }
    ensures exact_if_true { IsTrue result
        → steps.new ≡ steps.old + both_steps O.KEEP O.TAKE (length a.now) (length b.now) }
    ensures exact_if_stopped { (p : ℕ) → IsNext (bits_test O.truth a.now b.now)
        0 (64 * max (length a.now) (length b.now)) p → steps.new ≡ steps.old + both_steps
        O.KEEP O.TAKE (min (p / 64 + 1) (length a.now)) (min (p / 64 + 1) (length b.now)) }
    ensures stops { result ≡ false → steps.old < steps.new }
{
    none_words::<O>(a, b, steps)
}

/// The first position of `a` that `b` lacks, or `None` where it has each of them.
///
/// It looks at four words of each row at a time up to those that have the position. It takes
/// exactly the steps of [`count`] by `AndNot` over the words of `a` up to the one that has it, or
/// over all of `a` where it returns `None`. The number of positions of `a`, 64 for each word, may
/// be at most 2 ^ 64.
///
/// ```
/// assert_eq!(rt; joins::first_of_difference(&[7, 6], &[7, 2, 1], &mut Steps::new()), Some(66));
/// assert_eq!(rt; joins::first_of_difference(&[7, 6], &[7], &mut Steps::new()), Some(65));
/// assert_eq!(rt; joins::first_of_difference(&[7], &[7, 2, 1], &mut Steps::new()), None);
/// ```
#[inline(always)]
#[tactic(auto, using(crate::proofs::Lacking::row_words))]
pub fn first_of_difference(a: &[Block], b: &[Block], steps: &mut Steps) -> Option<usize>
    requires { 64 * length a.now ≤ 2 ^ 64 }
    ensures first { result ≡ slice_get
        (ascending (bits_test (λ x y. x && not y) a.now b.now) 0 (64 * length a.now)) 0 }
    ensures bound { steps.new ≤ steps.old + both_steps true false (length a.now) (length b.now) }
    ensures cost { IfSome result
        (λ p. steps.new ≡ steps.old + both_steps true false (p / 64 + 1) (length b.now)) }
    ensures exact_if_none { IfNone result
        (steps.new ≡ steps.old + both_steps true false (length a.now) (length b.now)) }
{
    let at = first_word(a, b, steps)?;
    Some(BITS * at + lowest_bit(word_without(a, b, at)))
}

/// The least position, at or past `from`, that both rows have, or `None` where there is none. Both
/// rows have to have the word of `from`.
///
/// It takes one step for that word of the two, and one for each lane of four words after it up to
/// the one that has the position, or up to the end of the shorter row. The number of positions of
/// `a`, 64 for each word, may be at most 2 ^ 64.
///
/// ```
/// let (a, b) = ([9, 0, 6], [8, 7, 4]);
/// assert_eq!(rt; joins::next_common(&a, &b, 1, &mut Steps::new()), Some(3));
/// assert_eq!(rt; joins::next_common(&a, &b, 4, &mut Steps::new()), Some(130));
/// assert_eq!(rt; joins::next_common(&a, &b[..2], 4, &mut Steps::new()), None);
/// ```
#[inline(always)]
#[tactic(auto, using(crate::proofs::Shared::length_behind))]
pub fn next_common(a: &[Block], b: &[Block], from: usize, steps: &mut Steps) -> Option<usize>
    requires fits { 64 * length a.now ≤ 2 ^ 64 }
    requires within { from < 64 * min (length a.now) (length b.now) }
    ensures found { IfSome result (IsNext (bits_test (λ x y. x && y) a.now b.now)
        from (64 * min (length a.now) (length b.now))) }
    ensures none { IfNone result (NonePasses (bits_test (λ x y. x && y) a.now b.now)
        from (64 * min (length a.now) (length b.now))) }
    ensures cost { IfSome result
        (λ p. steps.new ≡ steps.old + 1 + lane_steps (p / 64 - from / 64)) }
    ensures exact_if_none { IfNone result (steps.new ≡ steps.old + 1
        + lane_steps (min (length a.now) (length b.now) - 1 - from / 64)) }
    ensures bound { steps.new ≤ steps.old + 1
        + lane_steps (min (length a.now) (length b.now) - 1 - from / 64) }
{
    steps.tick();
    let at = from / BITS;
    let rest = And::word(a[at], b[at]) >> (from % BITS);
    if rest != 0 {
        return Some(from + lowest_bit(rest));
    }
    let behind = at + 1;
    let place = first_joined::<And>(&a[behind..], &b[behind..], steps)?;
    let at = behind + place;
    Some(BITS * at + lowest_bit(And::word(a[at], b[at])))
}

// How many bits are set from word `from` on, where these words count.
#[inline(always)]
fn count_rest(words: &[Block], from: usize, counts: bool, steps: &mut Steps) -> usize
    requires { (if counts then sum_by count_ones (drop from words.now) else 0) < 2 ^ 64 }
    ensures ones { result ≡ (if counts then sum_by count_ones (drop from words.now) else 0) }
    ensures cost { steps.new ≡ steps.old
        + (if counts then lane_steps (length words.now - from) else 0) }
{
    if counts && from < words.len() {
        lanes::count_one(&words[from..], steps)
    } else {
        0
    }
}

// How many bits are set in the joined words, to the end of the longer row.
#[inline(always)]
#[tactic(auto, using(crate::proofs::TwoRows::sum_like))]
fn count_words<O: WordOp>(a: &[Block], b: &[Block], steps: &mut Steps) -> usize
    requires { sum_by count_ones (zip_longest O.joined O.KEEP O.TAKE a.now b.now) < 2 ^ 64 }
    ensures ones { result ≡ sum_by count_ones (zip_longest O.joined O.KEEP O.TAKE a.now b.now) }
    ensures cost { steps.new ≡ steps.old + both_steps O.KEEP O.TAKE (length a.now) (length b.now) }
{
    if a.len() == b.len() {
        lanes::count::<O>(a, b, steps)
    } else {
        count_unlike::<O>(a, b, steps)
    }
}

// `count_words`, for rows of unlike lengths. It is a call of its own, so that rows of one
// length have no tests of it.
#[cold]
#[inline(never)]
#[tactic(auto, using(crate::proofs::TwoRows::sum_longest))]
fn count_unlike<O: WordOp>(a: &[Block], b: &[Block], steps: &mut Steps) -> usize
    requires { sum_by count_ones (zip_longest O.joined O.KEEP O.TAKE a.now b.now) < 2 ^ 64 }
    ensures ones { result ≡ sum_by count_ones (zip_longest O.joined O.KEEP O.TAKE a.now b.now) }
    ensures cost { steps.new ≡ steps.old + both_steps O.KEEP O.TAKE (length a.now) (length b.now) }
{
    let common = lanes::count::<O>(a, b, steps);
    let kept = count_rest(a, b.len(), O::KEEP, steps);
    let taken = count_rest(b, a.len(), O::TAKE, steps);
    common + kept + taken
}

// Whether no bit is set from word `from` on, where these words count.
#[inline(always)]
fn none_rest(words: &[Block], from: usize, counts: bool, steps: &mut Steps) -> bool
    ensures zero { result ≡ (if counts then list_all (λ word. word == 0)
        (drop from words.now) else true) }
    ensures cost { steps.new ≤ steps.old
        + (if counts then lane_steps (length words.now - from) else 0) }
    ensures exact_if_true { IsTrue result
        → steps.new ≡ steps.old + (if counts then lane_steps (length words.now - from) else 0) }
    ensures exact_if_stopped { (at : ℕ) → IsFirstOne (if counts then drop from words.now else []) at
        → steps.new ≡ steps.old + lane_steps (at + 1) }
    ensures stops { result ≡ false → steps.old < steps.new }
{
    if counts && from < words.len() {
        lanes::none_one(&words[from..], steps)
    } else {
        true
    }
}

// Whether no bit is set in the joined words, to the end of the longer row.
#[inline(always)]
#[tactic(auto, using(crate::proofs::TwoRows::all_like))]
fn none_words<O: WordOp>(a: &[Block], b: &[Block], steps: &mut Steps) -> bool
    ensures zero { result ≡ list_all (λ word. word == 0)
        (zip_longest O.joined O.KEEP O.TAKE a.now b.now) }
    ensures cost { steps.new ≤ steps.old + both_steps O.KEEP O.TAKE (length a.now) (length b.now) }
    ensures exact_if_true { IsTrue result
        → steps.new ≡ steps.old + both_steps O.KEEP O.TAKE (length a.now) (length b.now) }
    ensures exact_if_stopped { (at : ℕ)
        → IsFirstOne (zip_longest O.joined O.KEEP O.TAKE a.now b.now) at
        → steps.new ≡ steps.old + both_steps
        O.KEEP O.TAKE (min (at + 1) (length a.now)) (min (at + 1) (length b.now)) }
    ensures stops { result ≡ false → steps.old < steps.new }
{
    if a.len() == b.len() {
        lanes::none::<O>(a, b, steps)
    } else {
        none_unlike::<O>(a, b, steps)
    }
}

// `none_words`, for rows of unlike lengths.
#[cold]
#[inline(never)]
#[tactic(auto, using(crate::proofs::TwoRows::all_longest))]
fn none_unlike<O: WordOp>(a: &[Block], b: &[Block], steps: &mut Steps) -> bool
    ensures zero { result ≡ list_all (λ word. word == 0)
        (zip_longest O.joined O.KEEP O.TAKE a.now b.now) }
    ensures cost { steps.new ≤ steps.old + both_steps O.KEEP O.TAKE (length a.now) (length b.now) }
    ensures exact_if_true { IsTrue result
        → steps.new ≡ steps.old + both_steps O.KEEP O.TAKE (length a.now) (length b.now) }
    ensures exact_if_stopped { (at : ℕ)
        → IsFirstOne (zip_longest O.joined O.KEEP O.TAKE a.now b.now) at
        → steps.new ≡ steps.old + both_steps
        O.KEEP O.TAKE (min (at + 1) (length a.now)) (min (at + 1) (length b.now)) }
    ensures stops { result ≡ false → steps.old < steps.new }
{
    lanes::none::<O>(a, b, steps)
        && none_rest(a, b.len(), O::KEEP, steps)
        && none_rest(b, a.len(), O::TAKE, steps)
}

// The place of the first word of `a` with a bit that `b` lacks.
#[inline(always)]
fn first_word(a: &[Block], b: &[Block], steps: &mut Steps) -> Option<usize>
    ensures found { IfSome result (IsFirstOne (zip_longest bit_without true false a.now b.now)) }
    ensures none { IfNone result (AreZeros (zip_longest bit_without true false a.now b.now)) }
    ensures bound { steps.new ≤ steps.old + both_steps true false (length a.now) (length b.now) }
    ensures cost { IfSome result
        (λ at. steps.new ≡ steps.old + both_steps true false (at + 1) (length b.now)) }
    ensures exact_if_none { IfNone result
        (steps.new ≡ steps.old + both_steps true false (length a.now) (length b.now)) }
{
    let common = a.len().min(b.len());
    match first_joined::<AndNot>(a, b, steps) {
        Some(at) => Some(at),
        None => next_one::<Or>(0, a, common, steps),
    }
}

// A word of `a` without the bits of that of `b`, where there is one.
#[inline(always)]
#[tactic(auto, using(crate::proofs::Lacking::row_words))]
fn word_without(a: &[Block], b: &[Block], at: usize) -> Block
    requires { at < length a.now }
    ensures { result ≡ slice_index (zip_longest bit_without true false a.now b.now) at }
{
    if at < b.len() {
        AndNot::word(a[at], b[at])
    } else {
        a[at]
    }
}
