//! Ranges of positions, from `start` up to and without `end`. But for `range_is_valid` the
//! range has to be valid.
//!
//! A change or a count takes exactly one step for each word that holds a position of the range: so
//! none for an empty range, and never more than `(end - start) / 64 + 2`. A test takes no more: one
//! step for each lane of four of the words that are wholly in the range, and one for each other
//! word that holds a position of it. It stops at the first that decides, and takes exactly those up
//! to that one, or exactly all where none does.

ghost use Rattle.std.specs.Prelude.{◌≡◌, ℕ, ◌<◌, ◌≤◌, ◌+◌, ◌==◌, IsTrue, IfSome, not, true, false};
ghost use Rattle.std.specs.Prelude.{min};
ghost use Rattle.bitwords.specs.Neighbours.{IsNext};
ghost use Rattle.bitwords.specs.Rows.{bit_test};
ghost use Rattle.bitwords.specs.Steps.{range_words, search_steps, word_end};
ghost use Rattle.fixedbitset.specs.Bits as model;
ghost use Rattle.fixedbitset.specs.Neighbours as neighbours;
ghost use Rattle.fixedbitset.specs.Ranges as ranges;
ghost use Rattle.fixedbitset.specs.Ranges.{is_valid};
ghost use Rattle.fixedbitset.specs.Stored.{joined, count_joined, range_set};
ghost use Rattle.fixedbitset.specs.Views.{value, held, Becomes};

use crate::views::{Bits, BitsMut};
use bitlanes::Steps;
use bitlanes::ops::{And, AndNot, Or, WordOp, Xor};

impl BitsMut<'_> {
    /// Sets the positions of the range.
    ///
    /// ```
    /// let mut words = [9, 0, 0, 0];
    /// let mut set = BitsMut::settle(&mut words, 70, 70);
    /// set.insert_range(62, 66, &mut Steps::new());
    /// assert_eq!(rt; words, [9 | 3 << 62, 3, 0, 0]);
    /// ```
    #[inline(always)]
    #[tactic(auto, using(crate::proofs::JoinedValues::insert_joined))]
    pub fn insert_range(&mut self, start: usize, end: usize, steps: &mut Steps)
        requires { IsTrue (is_valid (held self.old) start end) }
        ensures value { Becomes self.old self.new (ranges.insert_range (held self.old) start end) }
        ensures cost { steps.new ≡ steps.old + range_words start end }
    {
        self.change_in::<Or>(start, end, steps);
    }

    /// Clears the positions of the range.
    ///
    /// ```
    /// let mut words = [9, 1, 0, 0];
    /// let mut set = BitsMut::settle(&mut words, 70, 70);
    /// set.remove_range(1, 70, &mut Steps::new());
    /// assert_eq!(rt; words, [1, 0, 0, 0]);
    /// ```
    #[inline(always)]
    #[tactic(auto, using(crate::proofs::JoinedValues::remove_joined))]
    pub fn remove_range(&mut self, start: usize, end: usize, steps: &mut Steps)
        requires { IsTrue (is_valid (held self.old) start end) }
        ensures value { Becomes self.old self.new (ranges.remove_range (held self.old) start end) }
        ensures cost { steps.new ≡ steps.old + range_words start end }
    {
        self.change_in::<AndNot>(start, end, steps);
    }

    /// Sets each position of the range that is clear and clears each that is set.
    ///
    /// ```
    /// let mut words = [9, 0, 0, 0];
    /// let mut set = BitsMut::settle(&mut words, 70, 70);
    /// set.toggle_range(0, 3, &mut Steps::new());
    /// assert_eq!(rt; words, [14, 0, 0, 0]);
    /// ```
    #[inline(always)]
    #[tactic(auto, using(crate::proofs::JoinedValues::toggle_joined))]
    pub fn toggle_range(&mut self, start: usize, end: usize, steps: &mut Steps)
        requires { IsTrue (is_valid (held self.old) start end) }
        ensures value { Becomes self.old self.new (ranges.toggle_range (held self.old) start end) }
        ensures cost { steps.new ≡ steps.old + range_words start end }
    {
        self.change_in::<Xor>(start, end, steps);
    }

    /// Sets the positions of the range, or clears them where `enabled` is false.
    ///
    /// ```
    /// let mut words = [9, 1, 0, 0];
    /// let mut set = BitsMut::settle(&mut words, 70, 70);
    /// set.set_range(1, 4, true, &mut Steps::new());
    /// assert_eq!(rt; words, [15, 1, 0, 0]);
    /// ```
    #[inline(always)]
    #[tactic(auto, unfolding(crate::specs::Ranges::set_range))]
    pub fn set_range(&mut self, start: usize, end: usize, enabled: bool, steps: &mut Steps)
        requires { IsTrue (is_valid (held self.old) start end) }
        ensures value { Becomes self.old self.new
            (ranges.set_range (held self.old) start end enabled) }
        ensures cost { steps.new ≡ steps.old + range_words start end }
    {
        if enabled {
            self.insert_range(start, end, steps);
        } else {
            self.remove_range(start, end, steps);
        }
    }

    // Joins the range, as the positions of a second set, to the set.
    #[inline(always)]
    fn change_in<O: WordOp>(&mut self, start: usize, end: usize, steps: &mut Steps)
        requires keeps { O.KEEP ≡ true }
        requires valid { IsTrue (is_valid (held self.old) start end) }
        ensures value { Becomes self.old self.new
            (joined O.truth (held self.old) (range_set start end)) }
        ensures cost { steps.new ≡ steps.old + range_words start end }
    {
        bitwords::ranges::change::<O>(self.words, start, end, steps);
    }
}

impl Bits<'_> {
    /// Whether the range is valid: its start is not past its end, and its end not past the length.
    /// Any range is allowed.
    ///
    /// ```
    /// let mut words = [9, 0, 0, 0];
    /// let set = BitsMut::settle(&mut words, 70, 70);
    /// assert!(rt; set.as_bits().range_is_valid(60, 70));
    /// assert!(rt; !set.as_bits().range_is_valid(60, 71));
    /// ```
    #[inline(always)]
    #[tactic(auto, using(crate::proofs::Words::of_length))]
    pub fn range_is_valid(self, start: usize, end: usize) -> bool
        ensures { result ≡ is_valid (value self.entry) start end }
    {
        start <= end && end <= self.length
    }

    /// How many positions of the range are set.
    ///
    /// ```
    /// let mut words = [9, 3, 0, 0];
    /// let set = BitsMut::settle(&mut words, 70, 70);
    /// assert_eq!(rt; set.as_bits().count_ones(1, 65, &mut Steps::new()), 2);
    /// ```
    #[inline(always)]
    #[tactic(auto, using(crate::proofs::JoinedCounts::count_ones_of))]
    pub fn count_ones(self, start: usize, end: usize, steps: &mut Steps) -> usize
        requires { IsTrue (is_valid (value self) start end) }
        ensures count { result ≡ ranges.count_ones (value self.entry) start end }
        ensures cost { steps.new ≡ steps.old + range_words start end }
    {
        self.count_in::<And>(start, end, steps)
    }

    /// How many positions of the range are not set.
    ///
    /// ```
    /// let mut words = [9, 3, 0, 0];
    /// let set = BitsMut::settle(&mut words, 70, 70);
    /// assert_eq!(rt; set.as_bits().count_zeroes(1, 65, &mut Steps::new()), 62);
    /// ```
    #[inline(always)]
    #[tactic(auto, using(crate::proofs::JoinedCounts::count_zeroes_of))]
    pub fn count_zeroes(self, start: usize, end: usize, steps: &mut Steps) -> usize
        requires { IsTrue (is_valid (value self) start end) }
        ensures count { result ≡ ranges.count_zeroes (value self.entry) start end }
        ensures cost { steps.new ≡ steps.old + range_words start end }
    {
        self.count_in::<AndNot>(start, end, steps)
    }

    /// Whether each position of the range is set.
    ///
    /// ```
    /// let mut words = [9, 3, 0, 0];
    /// let set = BitsMut::settle(&mut words, 70, 70);
    /// assert!(rt; set.as_bits().contains_all_in_range(64, 66, &mut Steps::new()));
    /// ```
    #[inline(always)]
    #[tactic(auto, using(crate::proofs::JoinedCounts::contains_all_of))]
    pub fn contains_all_in_range(self, start: usize, end: usize, steps: &mut Steps) -> bool
        requires { IsTrue (is_valid (value self) start end) }
        ensures answer { result ≡ ranges.contains_all (value self.entry) start end }
        ensures cost { steps.new ≤ steps.old + search_steps start end }
        ensures exact_if_true { IsTrue result → steps.new ≡ steps.old + search_steps start end }
        ensures exact_if_stopped { IfSome (neighbours.next_zero (value self.entry) start) (λ p.
            p < end → steps.new ≡ steps.old + search_steps start (min end (word_end p))) }
        ensures stops { result ≡ false → steps.old < steps.new }
    {
        self.none_in::<AndNot>(start, end, steps)
    }

    /// Whether each position below the length is set.
    ///
    /// ```
    /// let mut words = [Block::MAX, 63, 0, 0];
    /// let set = BitsMut::settle(&mut words, 70, 70);
    /// assert!(rt; set.as_bits().is_full(&mut Steps::new()));
    /// ```
    #[inline(always)]
    #[tactic(auto, using(crate::proofs::Words::of_length, crate::specs::RangesFacts::is_full_all))]
    pub fn is_full(self, steps: &mut Steps) -> bool
        ensures answer { result ≡ model.is_full (value self.entry) }
        ensures cost { steps.new ≤ steps.old + search_steps 0 self.entry.length }
        ensures exact_if_true { IsTrue result
            → steps.new ≡ steps.old + search_steps 0 self.entry.length }
        ensures exact_if_stopped { IfSome (model.minimum (model.complement (value self.entry)))
            (λ p. steps.new ≡ steps.old + search_steps 0 (min self.entry.length (word_end p))) }
        ensures stops { result ≡ false → steps.old < steps.new }
    {
        self.contains_all_in_range(0, self.length, steps)
    }

    /// Whether some position of the range is set.
    ///
    /// ```
    /// let mut words = [9, 3, 0, 0];
    /// let set = BitsMut::settle(&mut words, 70, 70);
    /// assert!(rt; !set.as_bits().contains_any_in_range(4, 64, &mut Steps::new()));
    /// ```
    #[inline(always)]
    #[tactic(auto, using(crate::proofs::JoinedCounts::contains_any_of))]
    pub fn contains_any_in_range(self, start: usize, end: usize, steps: &mut Steps) -> bool
        requires { IsTrue (is_valid (value self) start end) }
        ensures answer { result ≡ ranges.contains_any (value self.entry) start end }
        ensures cost { steps.new ≤ steps.old + search_steps start end }
        ensures exact_if_false { IsTrue (not result)
            → steps.new ≡ steps.old + search_steps start end }
        ensures exact_if_stopped { IfSome (neighbours.next_one (value self.entry) start) (λ p.
            p < end → steps.new ≡ steps.old + search_steps start (min end (word_end p))) }
        ensures stops { IsTrue result → steps.old < steps.new }
    {
        !self.none_in::<And>(start, end, steps)
    }

    // How many positions of the range are in it joined with the set.
    #[inline(always)]
    fn count_in<O: WordOp>(self, start: usize, end: usize, steps: &mut Steps) -> usize
        requires drops { O.TAKE ≡ false }
        requires valid { IsTrue (is_valid (value self) start end) }
        ensures count { result ≡ count_joined O.truth (range_set start end) (value self.entry) }
        ensures cost { steps.new ≡ steps.old + range_words start end }
    {
        bitwords::ranges::count::<O>(self.words, start, end, steps)
    }

    // Whether no position of the range is in it joined with the set.
    #[inline(always)]
    fn none_in<O: WordOp>(self, start: usize, end: usize, steps: &mut Steps) -> bool
        requires drops { O.TAKE ≡ false }
        requires valid { IsTrue (is_valid (value self) start end) }
        ensures none { result
            ≡ (count_joined O.truth (range_set start end) (value self.entry) == 0) }
        ensures cost { steps.new ≤ steps.old + search_steps start end }
        ensures exact_if_true { IsTrue result → steps.new ≡ steps.old + search_steps start end }
        ensures exact_if_stopped { (p : ℕ)
            → IsNext (bit_test (O.truth true) self.entry.words.now) start end p
            → steps.new ≡ steps.old + search_steps start (min end (word_end p)) }
        ensures stops { result ≡ false → steps.old < steps.new }
    {
        bitwords::ranges::none::<O>(self.words, start, end, steps)
    }
}
