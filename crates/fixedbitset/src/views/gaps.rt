//! Runs of clear positions, long enough for a caller.

ghost use Rattle.std.specs.Prelude.{◌≡◌, ◌≤◌, ◌+◌, ◌-◌, min, IsTrue, IfSome, IfNone};
ghost use Rattle.bitlanes.specs.Words.{lane_steps};
ghost use Rattle.bitwords.specs.Gaps.{aligned_steps, last_steps};
ghost use Rattle.bitwords.specs.Steps.{range_words};
ghost use Rattle.fixedbitset.specs.Bits.{contains};
ghost use Rattle.fixedbitset.specs.Ranges.{is_valid};
ghost use Rattle.fixedbitset.specs.Runs as stretches;
ghost use Rattle.fixedbitset.specs.Views.{value};

use crate::views::Bits;
use bitlanes::Steps;
use bitwords::gaps;

impl Bits<'_> {
    /// The least number at or past `from` with `count` clear positions from there on, or
    /// `None` where there is none.
    ///
    /// It takes one step for each lane from that of `from` up to the end of the gap. Where
    /// there is none they are at least those up to the last place with room for one, and at
    /// most those up to the length.
    ///
    /// ```
    /// let mut words = [9, 2, 0, 0];
    /// let set = BitsMut::settle(&mut words, 70, 70);
    /// assert_eq!(rt; set.as_bits().first_gap(3, 0, &mut Steps::new()), Some(4));
    /// assert_eq!(rt; set.as_bits().first_gap(5, 62, &mut Steps::new()), None);
    /// ```
    #[inline]
    pub fn first_gap(self, count: usize, from: usize, steps: &mut Steps) -> Option<usize>
        ensures gap { result ≡ stretches.first_gap (value self.entry) count from }
        ensures cost { steps.new ≤ steps.old + lane_steps (range_words from self.entry.length) }
        ensures found { IfSome result
            (λ p. steps.new ≡ steps.old + lane_steps (range_words from (p + count))) }
        ensures least { IfSome result
            (λ p. steps.old + lane_steps (range_words from (p + count)) ≤ steps.new) }
        ensures missed { IfNone result (steps.old
            + lane_steps (range_words from (self.entry.length + 1 - count)) ≤ steps.new) }
    {
        gaps::first(self.words, from, self.length, count, steps)
    }

    /// The least multiple of `align` from `start` on with `count` clear positions from there
    /// on, all below `end`, or `None` where there is none. The only multiple of 0 is 0. The
    /// range has to be valid.
    ///
    /// It takes at most two steps for each lane of the range, and one for each multiple that may
    /// stand in it; where `align` is 0 or 1, at most one for each lane. Where there is such a gap
    /// they are at least those of its own lanes.
    ///
    /// ```
    /// let mut words = [9, 2, 0, 0];
    /// let set = BitsMut::settle(&mut words, 70, 70);
    /// assert_eq!(rt; set.as_bits().first_aligned_gap(2, 4, 1, 70, &mut Steps::new()), Some(4));
    /// assert_eq!(rt; set.as_bits().first_aligned_gap(5, 32, 1, 70, &mut Steps::new()), Some(32));
    /// assert_eq!(rt; set.as_bits().first_aligned_gap(5, 32, 1, 36, &mut Steps::new()), None);
    /// ```
    #[inline]
    pub fn first_aligned_gap(
        self,
        count: usize,
        align: usize,
        start: usize,
        end: usize,
        steps: &mut Steps,
    ) -> Option<usize>
        requires { IsTrue (is_valid (value self) start end) }
        ensures gap { result
            ≡ stretches.first_aligned_gap count align (value self.entry) start end }
        ensures cost { steps.new ≤ steps.old + aligned_steps align start end }
        ensures least { IfSome result
            (λ p. steps.old + lane_steps (range_words p (p + count)) ≤ steps.new) }
        ensures grows { steps.old ≤ steps.new }
    {
        gaps::first_aligned(self.words, start, end, count, align, steps)
    }

    /// The greatest number with `count` clear positions from there on, all of them below `below`,
    /// or `None` where there is none.
    ///
    /// It goes over the runs of clear positions below `below`, the last one first. So it takes at
    /// most two steps for each run of positions that are set and begins there, two more, and one
    /// for each word that has such a position. They are at least one for each lane from that of
    /// the gap up to `below`, or to the length; where there is none, from that of `count` on.
    ///
    /// ```
    /// let mut words = [9, 2, 0, 0];
    /// let set = BitsMut::settle(&mut words, 70, 70);
    /// assert_eq!(rt; set.as_bits().last_gap(3, 70, &mut Steps::new()), Some(67));
    /// assert_eq!(rt; set.as_bits().last_gap(5, 70, &mut Steps::new()), Some(60));
    /// assert_eq!(rt; set.as_bits().last_gap(62, 70, &mut Steps::new()), None);
    /// ```
    #[inline]
    pub fn last_gap(self, count: usize, below: usize, steps: &mut Steps) -> Option<usize>
        ensures gap { result ≡ stretches.last_gap (value self.entry) count below }
        ensures cost { steps.new ≤ steps.old
            + last_steps (contains (value self.entry)) (min below self.entry.length) }
        ensures found { IfSome result (λ p. steps.old
            + lane_steps (range_words p (min below self.entry.length)) ≤ steps.new) }
        ensures missed { IfNone result (steps.old
            + lane_steps (range_words count (min below self.entry.length)) ≤ steps.new) }
    {
        gaps::last(self.words, below.min(self.length), count, steps)
    }
}
