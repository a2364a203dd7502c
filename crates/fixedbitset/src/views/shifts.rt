//! Positions moved up or down, sets joined with moved ones, parts, and parts as numbers.
//!
//! A call takes at most one step for each lane that it writes, and one or two more for the words at
//! the ends: `bound` says so, and `cost` how many it takes. The lanes past the words that the
//! length needs are counted, though they are not moved.

ghost use Rattle.std.specs.Prelude.{◌≡◌, ℕ, ◌≤◌, ◌<◌, ◌+◌, ◌-◌, ◌*◌, ◌/◌, ◌&&◌};
ghost use Rattle.std.specs.Prelude.{nat_le, min, true, false, if◌then◌else◌};
ghost use Rattle.std.specs.Prelude as prelude;
ghost use Rattle.bitlanes.specs.Shifts.{up_steps};
ghost use Rattle.bitlanes.specs.Words.{lane_steps};
ghost use Rattle.bitwords.specs.Rows.{has_bit};
ghost use Rattle.bitwords.specs.Steps.{join_steps, join_up_steps, move_up_steps, search_steps};
ghost use Rattle.fixedbitset.specs.Bits.{having, number_at, of_words, storage_words, words_needed};
ghost use Rattle.fixedbitset.specs.Parts as parts;
ghost use Rattle.fixedbitset.specs.Stored.{IsClean};
ghost use Rattle.fixedbitset.specs.Views.{value, held, Becomes};

use crate::views::{Bits, BitsMut};
use bitlanes::lanes::LANE;
use bitlanes::ops::{Or, Second, WordOp};
use bitlanes::word::BITS;
use bitlanes::{Block, Steps, lanes};
use bitwords::{positions, ranges, shifts};

impl BitsMut<'_> {
    /// Moves each position up by `by`. Those that are not below the length then fall away.
    ///
    /// ```
    /// let mut words = [9, 0, 0, 0];
    /// let mut set = BitsMut::settle(&mut words, 70, 70);
    /// set.shift_up(64, &mut Steps::new());
    /// set.shift_up(3, &mut Steps::new());
    /// assert_eq!(rt; words, [0, 8, 0, 0]);
    /// ```
    #[inline]
    #[tactic(auto, using(crate::proofs::Moves::having_up, crate::proofs::Moves::stays_up))]
    pub fn shift_up(&mut self, by: usize, steps: &mut Steps)
        ensures value { Becomes self.old self.new (parts.shift_up (held self.old) by) }
        ensures cost { steps.new ≡ steps.old
            + move_up_steps false (storage_words self.old.length) by }
        ensures bound { steps.new ≤ steps.old + lane_steps (storage_words self.old.length) + 2 }
    {
        if by > 0 {
            self.join_own::<Second>(by, steps);
        }
    }

    /// Moves each position down by `by`. Those below `by` fall away.
    ///
    /// ```
    /// let mut words = [9, 8, 0, 0];
    /// let mut set = BitsMut::settle(&mut words, 70, 70);
    /// set.shift_down(3, &mut Steps::new());
    /// assert_eq!(rt; words, [1, 1, 0, 0]);
    /// ```
    #[inline]
    pub fn shift_down(&mut self, by: usize, steps: &mut Steps)
        ensures value { Becomes self.old self.new (parts.shift_down (held self.old) by) }
        ensures cost { steps.new ≡ steps.old + join_steps false
            (storage_words self.old.length) (storage_words self.old.length - by / 64) }
        ensures bound { steps.new ≤ steps.old + lane_steps (storage_words self.old.length) + 1 }
    {
        let used = self.length.div_ceil(BITS);
        tick_unmoved(self.words.len(), used, by / BITS, steps);
        shifts::down(&mut self.words[..used], by, steps);
    }

    /// Takes in each position of the second set moved up by `by`, as far as it is
    /// below the length then.
    ///
    /// ```
    /// let (mut words, mut other) = ([9, 0, 0, 0], [7, 0, 0, 0]);
    /// let mut set = BitsMut::settle(&mut words, 70, 70);
    /// let other = BitsMut::settle(&mut other, 9, 9);
    /// set.union_with_shifted(other.as_bits(), 68, &mut Steps::new());
    /// assert_eq!(rt; words, [9, 48, 0, 0]);
    /// ```
    #[inline]
    pub fn union_with_shifted(&mut self, other: Bits<'_>, by: usize, steps: &mut Steps)
        ensures value { Becomes self.old self.new
            (parts.union_with_shifted (held self.old) (value other.entry) by) }
        ensures cost { steps.new ≡ steps.old + join_up_steps
            (storage_words self.old.length) (storage_words other.entry.length) by }
        ensures bound { steps.new ≤ steps.old + 1 + lane_steps (min
            (storage_words self.old.length - by / 64) (storage_words other.entry.length)) }
    {
        let length = self.length;
        let used = length.div_ceil(BITS);
        tick_unjoined(self.words.len(), used, other.words.len(), by, steps);
        let row = &mut self.words[..used];
        shifts::join_up::<Or>(row, other.words, by, steps);
        positions::clear_from(row, length);
    }

    /// Takes in each position of the set itself moved up by `by`, as far as it is
    /// below the length then.
    ///
    /// So where the set has the sums of some numbers, it then has those of these numbers and `by`.
    ///
    /// ```
    /// let mut words = [1, 0, 0, 0];
    /// let mut set = BitsMut::settle(&mut words, 70, 70);
    /// set.union_with_own_shift(3, &mut Steps::new());
    /// set.union_with_own_shift(65, &mut Steps::new());
    /// assert_eq!(rt; words, [9, 18, 0, 0]);
    /// ```
    #[inline]
    #[tactic(auto, using(crate::proofs::Moves::having_with_own, crate::proofs::Moves::stays_with_own))]
    pub fn union_with_own_shift(&mut self, by: usize, steps: &mut Steps)
        ensures value { Becomes self.old self.new
            (parts.union_with_shifted (held self.old) (held self.old) by) }
        ensures cost { steps.new ≡ steps.old
            + move_up_steps true (storage_words self.old.length) by }
        ensures bound { steps.new ≤ steps.old + lane_steps (storage_words self.old.length) + 1 }
    {
        if by > 0 {
            self.join_own::<Or>(by, steps);
        }
    }

    /// Writes the positions of the other set from `start` up to and without `end` over those of the
    /// set from `at` on. All others stay.
    ///
    /// The range may not begin after its end, nor end past the other length. From `at` on it has to
    /// end within the length. It takes exactly one step for each lane of the words that it writes
    /// whole, the last of which may have fewer, and one for each other word that it writes.
    ///
    /// ```
    /// let (mut words, mut other) = ([5, 34, 0, 0], [2 | 1 << 63, 2, 0, 0]);
    /// let mut set = BitsMut::settle(&mut words, 70, 70);
    /// let other = BitsMut::settle(&mut other, 66, 66);
    /// set.copy_range(other.as_bits(), 62, 66, 1, &mut Steps::new());
    /// assert_eq!(rt; words, [21, 34, 0, 0]);
    /// ```
    #[inline]
    pub fn copy_range(
        &mut self,
        other: Bits<'_>,
        start: usize,
        end: usize,
        at: usize,
        steps: &mut Steps,
    )
        requires order { start ≤ end }
        requires within { end ≤ other.length }
        requires room { at + (end - start) ≤ self.old.length }
        ensures value { Becomes self.old self.new
            (parts.copy_range (held self.old) (value other.entry) start end at) }
        ensures cost { steps.new ≡ steps.old + search_steps at (at + (end - start)) }
    {
        let behind = at + (end - start);
        ranges::copy(self.words, at, behind, other.words, start, steps);
    }

    /// Makes the `width` positions from `start` on the lowest bits of the number: position
    /// `start + i` becomes its bit `i`. All others stay.
    ///
    /// The width may be 64 at most, and the positions have to be below the length. It writes one
    /// word, or two.
    ///
    /// ```
    /// let mut words = [9 | 1 << 63, 2, 0, 0];
    /// let mut set = BitsMut::settle(&mut words, 70, 70);
    /// set.store(62, 4, 5);
    /// assert_eq!(rt; words, [9 | 1 << 62, 1, 0, 0]);
    /// ```
    #[inline]
    pub fn store(&mut self, start: usize, width: usize, number: Block)
        requires width { width ≤ 64 }
        requires within { start + width ≤ self.old.length }
        ensures { Becomes self.old self.new (parts.store (held self.old) start width number) }
    {
        ranges::store(self.words, start, width, number, &mut Steps::new());
    }

    // Joins each position by `O` with the one that stood `by` below it, and cuts
    // the words at the length.
    #[inline(always)]
    fn join_own<O: WordOp>(&mut self, by: usize, steps: &mut Steps)
        requires some { 0 < by }
        ensures value { Becomes self.old self.new (having self.old.length
            (λ p. O.truth (has_bit self.old.words.now p)
            (nat_le by p && has_bit self.old.words.now (p - by)))) }
        ensures cost { steps.new ≡ steps.old + up_steps (storage_words self.old.length) by
            + (if O.KEEP then 0 else lane_steps (min (storage_words self.old.length) (by / 64))) }
    {
        let length = self.length;
        let used = length.div_ceil(BITS);
        tick_unmoved_up(self.words.len(), used, by, steps);
        let words = &mut self.words[..used];
        shifts::up::<O>(words, by, steps);
        positions::clear_from(words, length);
    }
}

impl Bits<'_> {
    /// Writes the positions of the range, less its start, over the words, which are then those
    /// of a set of its length.
    ///
    /// The range may not begin after its end, nor end past the length. There have to be as many
    /// words as a set of the range's length keeps.
    ///
    /// ```
    /// let (mut words, mut to) = ([9, 8, 0, 0], [0; 4]);
    /// let set = BitsMut::settle(&mut words, 70, 70);
    /// set.as_bits().slice_to(3, 68, &mut to, &mut Steps::new());
    /// assert_eq!(rt; to, [1, 1, 0, 0]);
    /// ```
    #[inline]
    pub fn slice_to(self, start: usize, end: usize, to: &mut [Block], steps: &mut Steps)
        requires order { start ≤ end }
        requires within { end ≤ self.length }
        requires count { prelude.length to.old ≡ storage_words (end - start) }
        ensures value { of_words (end - start) to.new ≡ parts.slice (value self.entry) start end }
        ensures clean { IsClean (end - start) to.new }
        ensures cost { steps.new ≡ steps.old + join_steps false
            (storage_words (end - start)) (storage_words self.entry.length - start / 64) }
        ensures bound { steps.new ≤ steps.old + lane_steps (storage_words (end - start)) + 1 }
    {
        let unused = &mut to[(end - start).div_ceil(BITS)..];
        lanes::zero(unused, &mut Steps::new());
        self.slice_over_zeros(start, end, to, steps);
    }

    // `slice_to` over words of which those that the range does not need are 0.
    #[inline(always)]
    pub(crate) fn slice_over_zeros(
        self,
        start: usize,
        end: usize,
        to: &mut [Block],
        steps: &mut Steps,
    )
        requires order { start ≤ end }
        requires within { end ≤ self.length }
        requires count { prelude.length to.old ≡ storage_words (end - start) }
        requires zeros { (p : ℕ) → 64 * words_needed (end - start) ≤ p
            → has_bit to.old p ≡ false }
        ensures value { of_words (end - start) to.new ≡ parts.slice (value self.entry) start end }
        ensures clean { IsClean (end - start) to.new }
        ensures cost { steps.new ≡ steps.old + join_steps false
            (storage_words (end - start)) (storage_words self.entry.length - start / 64) }
    {
        // A step is counted for the last words where this set has none in their place.
        if self.words.len().saturating_sub(start / BITS) < to.len() {
            steps.tick();
        }
        let used = (end - start).div_ceil(BITS);
        let words = &mut to[..used];
        shifts::join_down::<Second>(words, self.words, start, steps);
        positions::clear_from(words, end - start);
    }

    /// The `width` positions from `start` on as a number: its bit `i` is position `start + i`.
    ///
    /// The width may be 64 at most, and the positions have to be below the length. It looks at one
    /// word, or at two.
    ///
    /// ```
    /// let mut words = [9 | 1 << 63, 2, 0, 0];
    /// let set = BitsMut::settle(&mut words, 70, 70);
    /// assert_eq!(rt; set.as_bits().load(62, 4), 10);
    /// assert_eq!(rt; set.as_bits().load(0, 64), 9 | 1 << 63);
    /// ```
    #[inline]
    pub fn load(self, start: usize, width: usize) -> Block
        requires width { width ≤ 64 }
        requires within { start + width ≤ self.length }
        ensures { result ≡ number_at (value self.entry) start width }
    {
        ranges::load(self.words, start, width)
    }
}

// Counts the lanes that are not moved as they hold words past the length alone, which stay 0. It
// does nothing when the program runs.
#[inline(always)]
fn tick_unmoved(words: usize, used: usize, first: usize, steps: &mut Steps)
    ensures { steps.new ≡ steps.old + (lane_steps (words - first) - lane_steps (used - first)) }
{
    let lanes = words.saturating_sub(first).div_ceil(LANE);
    let moved = used.saturating_sub(first).div_ceil(LANE);
    for _ in 0..lanes.saturating_sub(moved) {
        steps.tick();
    }
}

// The same where the words are moved up, and the first of them has fewer than 64 bits below it.
#[inline(always)]
fn tick_unmoved_up(words: usize, used: usize, by: usize, steps: &mut Steps)
    requires { used ≤ words }
    ensures { steps.new ≡ steps.old + (up_steps words by - up_steps used by) }
{
    let first = by.div_ceil(BITS);
    tick_unmoved(words, used, first, steps);
    if used < first && first <= words && by % BITS > 0 {
        steps.tick();
    }
}

// The same where they are joined with words of another row that are moved up.
#[inline(always)]
fn tick_unjoined(words: usize, used: usize, other: usize, by: usize, steps: &mut Steps)
    requires { used ≤ words }
    ensures { steps.new
        ≡ steps.old + (join_up_steps words other by - join_up_steps used other by) }
{
    let joined = joined_lanes(used, other, by);
    for _ in 0..joined_lanes(words, other, by).saturating_sub(joined) {
        steps.tick();
    }
}

// How many steps it takes to join so many words with others that are moved up.
#[inline(always)]
fn joined_lanes(words: usize, other: usize, by: usize) -> usize
    ensures { result ≡ join_up_steps words other by }
{
    let room = words.saturating_sub(by / BITS);
    let split = (by % BITS).min(1);
    split.min(room.min(other)) + room.saturating_sub(split).min(other).div_ceil(LANE)
}
