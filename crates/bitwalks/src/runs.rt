//! The runs of positions that follow each other without a gap, as start and end: those that are
//! set, and those that are not.
//!
//! A call looks for the next position that is like the others or unlike them, sixteen words at a
//! time. So a run costs by its words and not by its positions. Proofs see the runs left, the ends
//! of where they are, and a count of steps that takes no bytes when the program runs.

ghost use Rattle.std.specs.Prelude.{◌≡◌, ◌*◌, ◌^◌, ◌<◌, ◌≤◌, ◌-◌, ◌/◌};
ghost use Rattle.std.specs.Prelude.{◌+◌, not, length, IfSome, IfNone};
ghost use Rattle.std.specs.Iterator.{item_count};
ghost use Rattle.bitlanes.specs.Words.{lane_steps};
ghost use Rattle.bitwords.specs.Neighbours.{IsNext, IsPrevious, NonePasses};
ghost use Rattle.bitwords.specs.Runs.{GivesFirstRun, GivesLastRun, IsBetween, is_like, stretches};
ghost use Rattle.bitwalks.specs.Runs.{held_stretches};

use bitlanes::Steps;
use bitlanes::ops::{And, AndNot};
use bitlanes::word::{BITS, Block};
use bitwords::positions::{next, previous};
use std::iter::FusedIterator;
use std::marker::Model;

/// The runs of positions that are set, or of those that are not, in ascending order. A set makes it
/// by `runs` and by `zero_runs`.
///
/// It borrows the words and does not allocate.
///
/// ```
/// let set = FixedBitSet::from_iter(alloc, [3, 4, 9, 200])?;
/// let mut walk = set.runs();
/// assert_eq!(rt; walk.next(), Some((3, 5)));
/// assert_eq!(rt; walk.next_back(), Some((200, 201)));
/// assert!(rt; walk.eq([(9, 10)]));
/// ```
pub struct Runs<'a> {
    words: &'a [Block],
    // Whether the positions are set.
    are_set: bool,
    // How many positions there are, and where the runs left are.
    end: usize,
    low: usize,
    high: usize,
    steps: Steps,
}

/// What an iterator over runs holds, for a caller that keeps its fields and no iterator: the words,
/// whether its positions are set, how many positions there are, and where the runs left are.
#[derive(Drop)]
pub struct HeldRuns<'a> {
    pub words: &'a [Block],
    pub are_set: bool,
    pub end: usize,
    pub low: usize,
    pub high: usize,
}

impl<'a> Model for Runs<'a> {
    ghost use Rattle.std.specs.Prelude.{◌*◌, ◌^◌, ◌≤◌, length};
    ghost use Rattle.bitwords.specs.Runs.{RunWalk, IsBetween, is_like, stretches};

    ghost Value = { RunWalk };

    ghost view = { λ s. record {
      items = stretches (is_like s.are_set s.words.now) s.end s.low s.high;
      low = s.low;
      high = s.high;
      steps = s.steps;
    } };

    ghost invariant = { λ s. IsBetween (is_like s.are_set s.words.now) s.end s.low s.high
        × (s.end ≤ 64 * length s.words.now) × (64 * length s.words.now ≤ 2 ^ 64) };
}

impl<'a> Drop for Runs<'a> {
    #[inline]
    fn drop(self) {
        let Runs {
            words: _,
            are_set: _,
            end: _,
            low: _,
            high: _,
            steps: _,
        } = self;
    }
}

impl<'a> Runs<'a> {
    /// The runs of the positions below `end` that are set in the words, or of those that are not.
    /// `end` may not be past the words.
    ///
    /// ```
    /// let words = [12, 1];
    /// assert!(rt; Runs::below(&words, true, 128).eq([(2, 4), (64, 65)]));
    /// assert!(rt; Runs::below(&words, false, 70).eq([(0, 2), (4, 64), (65, 70)]));
    /// ```
    #[inline]
    pub fn below(words: &'a [Block], are_set: bool, end: usize) -> Runs<'a>
        requires fits { 64 * length words.now ≤ 2 ^ 64 }
        requires within { end ≤ 64 * length words.now }
        ensures items { result.items ≡ stretches (is_like are_set words.now) end 0 end }
        ensures low { result.low ≡ 0 }
        ensures high { result.high ≡ end }
        ensures steps { result.steps ≡ 0 }
    {
        Runs {
            words,
            are_set,
            end,
            low: 0,
            high: end,
            steps: Steps::new(),
        }
    }
}

impl<'a> Runs<'a> {
    /// What the iterator holds. `of_held` makes an iterator of it again, which has the same runs
    /// left.
    ///
    /// ```
    /// let walk = Runs::below(&[12, 1], true, 128);
    /// let held = walk.into_held();
    /// assert_eq!(rt; held.low, 0);
    /// assert_eq!(rt; held.high, 128);
    /// ```
    #[inline(always)]
    pub fn into_held(self) -> HeldRuns<'a>
        ensures items { held_stretches result ≡ self.entry.items }
        ensures low { result.low ≡ self.entry.low }
        ensures high { result.high ≡ self.entry.high }
        ensures between { IsBetween (is_like result.are_set result.words.now) result.end
            result.low result.high }
        ensures long { result.end ≤ 64 * length result.words.now }
        ensures fits { 64 * length result.words.now ≤ 2 ^ 64 }
    {
        HeldRuns {
            words: self.words,
            are_set: self.are_set,
            end: self.end,
            low: self.low,
            high: self.high,
        }
    }

    /// The iterator that holds this. Its count begins at 0.
    ///
    /// ```
    /// let held = Runs::below(&[12, 1], true, 128).into_held();
    /// assert!(rt; Runs::of_held(held).eq([(2, 4), (64, 65)]));
    /// ```
    #[inline(always)]
    pub fn of_held(held: HeldRuns<'a>) -> Runs<'a>
        requires between { IsBetween (is_like held.are_set held.words.now) held.end
            held.low held.high }
        requires long { held.end ≤ 64 * length held.words.now }
        requires fits { 64 * length held.words.now ≤ 2 ^ 64 }
        ensures items { result.items ≡ held_stretches held.entry }
        ensures low { result.low ≡ held.entry.low }
        ensures high { result.high ≡ held.entry.high }
        ensures steps { result.steps ≡ 0 }
    {
        Runs {
            words: held.words,
            are_set: held.are_set,
            end: held.end,
            low: held.low,
            high: held.high,
            steps: Steps::new(),
        }
    }
}

// The least position at or past `from` and below `end` that is set, or that is not.
#[inline]
fn next_like(
    words: &[Block],
    are_set: bool,
    from: usize,
    end: usize,
    steps: &mut Steps,
) -> Option<usize>
    requires fits { 64 * length words.now ≤ 2 ^ 64 }
    requires within { end ≤ 64 * length words.now }
    ensures found { IfSome result (IsNext (is_like are_set words.now) from end) }
    ensures none { IfNone result (NonePasses (is_like are_set words.now) from end) }
    ensures cost { IfSome result
        (λ p. steps.new ≡ steps.old + 1 + lane_steps (p / 64 - from / 64)) }
    ensures missed { IfNone result (from < end
        → steps.new ≡ steps.old + 1 + lane_steps ((end - 1) / 64 - from / 64)) }
    ensures empty { end ≤ from → steps.new ≡ steps.old }
{
    let words = &words[..end.div_ceil(BITS)];
    if are_set {
        next::<And>(words, from, end, steps)
    } else {
        next::<AndNot>(words, from, end, steps)
    }
}

// The greatest position below `below` that is set, or that is not.
#[tactic(auto, unfolding(bitwords::specs::Rows::bit_test))]
#[inline]
fn previous_like(words: &[Block], are_set: bool, below: usize, steps: &mut Steps) -> Option<usize>
    requires fits { 64 * length words.now ≤ 2 ^ 64 }
    requires within { below ≤ 64 * length words.now }
    ensures found { IfSome result (IsPrevious (is_like are_set words.now) below) }
    ensures none { IfNone result (NonePasses (is_like are_set words.now) 0 below) }
    ensures cost { IfSome result
        (λ p. steps.new ≡ steps.old + 1 + lane_steps ((below - 1) / 64 - p / 64)) }
    ensures missed { IfNone result (0 < below
        → steps.new ≡ steps.old + 1 + lane_steps ((below - 1) / 64)) }
    ensures empty { below ≡ 0 → steps.new ≡ steps.old }
{
    if are_set {
        previous::<And>(words, below, steps)
    } else {
        previous::<AndNot>(words, below, steps)
    }
}

impl<'a> Iterator for Runs<'a> {
    type Item = (usize, usize);

    ghost next_gives = { GivesFirstRun };

    ghost remaining = { item_count (λ walk. walk.items) };

    /// The first run left, or `None` where none is, and then for good. It takes one step for each
    /// four words that it goes over, one to four more where it gives a run, and none to four more
    /// where it gives none.
    #[inline]
    fn next(&mut self) -> Option<(usize, usize)> {
        if self.low == self.high {
            return None;
        }
        let (low, high) = (self.low, self.high);
        let Some(start) = next_like(self.words, self.are_set, low, high, &mut self.steps) else {
            self.low = high;
            return None;
        };
        let found = next_like(self.words, !self.are_set, start, high, &mut self.steps);
        self.low = found.unwrap_or(high);
        Some((start, self.low))
    }
}

impl<'a> DoubleEndedIterator for Runs<'a> {
    ghost next_back_gives = { GivesLastRun };

    /// The last run left, or `None` where none is, and then for good. It takes one step for each
    /// four words that it goes over, one to four more where it gives a run, and none to four more
    /// where it gives none.
    #[inline]
    fn next_back(&mut self) -> Option<(usize, usize)> {
        if self.low == self.high {
            return None;
        }
        let found = previous_like(self.words, self.are_set, self.high, &mut self.steps);
        match found {
            Some(last) if last >= self.low => {
                let gap = previous_like(self.words, !self.are_set, last, &mut self.steps);
                self.high = match gap {
                    Some(before) => before + 1,
                    None => 0,
                };
                Some((self.high, last + 1))
            }
            _ => {
                self.high = self.low;
                None
            }
        }
    }
}

impl<'a> FusedIterator for Runs<'a> {}
