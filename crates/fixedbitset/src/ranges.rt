//! Ranges of positions.
//!
//! A range is any `IndexRange<usize>`: `..`, `start..`, `..end`, `start..end`, `start..=last`,
//! `..=last`, or a type of the caller's own. It means the positions from its start up to and
//! without its end; an absent start stands for 0, and an absent end for `len()`. The end of an
//! inclusive range is the position after its last one.
//!
//! For each call but `range_is_valid` the range must be valid: its start not past its end, and its
//! end not past `len()`; `range_is_valid` is the test. Upstream panics on others. No call
//! allocates, and each looks once at each word that holds a position of the range, at most
//! `(end - start) / 64 + 2` words; the two tests stop at the first word that decides. Module
//! `counted` has the same calls with a counter.

ghost use Rattle.std.specs.Prelude.{◌≡◌, IsTrue};
ghost use Rattle.fixedbitset.specs.Ranges as ranges;
ghost use Rattle.fixedbitset.specs.Ranges.{over};

use crate::counted;
use crate::set::FixedBitSet;
use bitlanes::{IndexRange, Steps};

impl FixedBitSet {
    /// Whether the range is valid for this set: its start is not past its end, and
    /// its end not past `len()`.
    ///
    /// Any range is allowed, and no word is looked at.
    ///
    /// ```
    /// let set = FixedBitSet::with_capacity(alloc, 70)?;
    /// assert!(rt; set.range_is_valid(&(70..)));
    /// assert!(rt; set.range_is_valid(&(60..=69)));
    /// assert!(rt; !set.range_is_valid(&(60..=70)));
    /// assert!(rt; !set.range_is_valid(&(9..8)));
    /// ```
    #[inline]
    pub fn range_is_valid<R: IndexRange<usize>>(&self, range: &R) -> bool
        ensures { result ≡ over ranges.is_valid self.now (R.start_of range.now)
            (R.end_of range.now) }
    {
        let start = range.start().unwrap_or(0);
        let end = range.end().unwrap_or(self.len());
        start <= end && end <= self.len()
    }

    // made by front/calls, but for docs and #[inline]
    /// How many positions of the range are set (the population count); of an empty range 0. The
    /// range must be valid.
    ///
    /// ```
    /// let mut set = FixedBitSet::with_capacity(alloc, 200)?;
    /// set.insert_range(60..130);
    /// assert_eq!(rt; set.count_ones(..), 70);
    /// assert_eq!(rt; set.count_ones(63..=64), 2);
    /// assert_eq!(rt; set.count_ones(9..9), 0);
    /// ```
    #[inline]
    pub fn count_ones<R: IndexRange<usize> + Drop>(&self, range: R) -> usize
        requires { IsTrue (over ranges.is_valid self.now (R.start_of range) (R.end_of range)) }
        ensures { result ≡ over ranges.count_ones self.now (R.start_of range) (R.end_of range) }
    {
        counted::count_ones(self, range, &mut Steps::new())
    }

    /// How many positions of the range are not set; of an empty range 0. The range must be valid.
    ///
    /// ```
    /// let mut set = FixedBitSet::with_capacity(alloc, 70)?;
    /// set.insert(64);
    /// assert_eq!(rt; set.count_zeroes(..), 69);
    /// assert_eq!(rt; set.count_zeroes(63..66), 2);
    /// ```
    #[inline]
    pub fn count_zeroes<R: IndexRange<usize> + Drop>(&self, range: R) -> usize
        requires { IsTrue (over ranges.is_valid self.now (R.start_of range) (R.end_of range)) }
        ensures { result ≡ over ranges.count_zeroes self.now (R.start_of range) (R.end_of range) }
    {
        counted::count_zeroes(self, range, &mut Steps::new())
    }
    // end of what front/calls makes

    /// Sets the positions of the range, or clears them where `enabled` is false; the others stay.
    /// The range must be valid.
    ///
    /// ```
    /// let mut set = FixedBitSet::with_capacity(alloc, 70)?;
    /// set.set_range(60.., true);
    /// set.set_range(62..=66, false);
    /// assert_eq!(rt; set.as_slice(), [3 << 60, 56].as_slice());
    /// ```
    #[inline]
    #[tactic(auto, unfolding(crate::specs::Ranges::set_range))]
    pub fn set_range<R: IndexRange<usize> + Drop>(&mut self, range: R, enabled: bool)
        requires { IsTrue (over ranges.is_valid self.old (R.start_of range) (R.end_of range)) }
        ensures { self.new ≡ over ranges.set_range self.old (R.start_of range)
            (R.end_of range) enabled }
    {
        if enabled {
            self.insert_range(range);
        } else {
            self.remove_range(range);
        }
    }

    // made by front/calls, but for docs and #[inline]
    /// Sets the positions of the range; the others stay. The range must be valid.
    ///
    /// ```
    /// let mut set = FixedBitSet::with_capacity(alloc, 70)?;
    /// set.insert_range(63..66);
    /// assert_eq!(rt; set.as_slice(), [1 << 63, 3].as_slice());
    /// ```
    #[inline]
    pub fn insert_range<R: IndexRange<usize> + Drop>(&mut self, range: R)
        requires { IsTrue (over ranges.is_valid self.old (R.start_of range) (R.end_of range)) }
        ensures { self.new ≡ over ranges.insert_range self.old (R.start_of range) (R.end_of range) }
    {
        counted::insert_range(self, range, &mut Steps::new());
    }

    /// Clears the positions of the range; the others stay. The range must be valid.
    ///
    /// `remove_range(..)` clears the whole set. The documentation of upstream says that it makes
    /// all ones; its code clears, as this call does.
    ///
    /// ```
    /// let mut set = FixedBitSet::with_capacity(alloc, 70)?;
    /// set.insert_range(..);
    /// set.remove_range(1..=64);
    /// assert_eq!(rt; set.as_slice(), [1, 62].as_slice());
    /// ```
    #[inline]
    pub fn remove_range<R: IndexRange<usize> + Drop>(&mut self, range: R)
        requires { IsTrue (over ranges.is_valid self.old (R.start_of range) (R.end_of range)) }
        ensures { self.new ≡ over ranges.remove_range self.old (R.start_of range) (R.end_of range) }
    {
        counted::remove_range(self, range, &mut Steps::new());
    }

    /// Sets each position of the range that is clear, and clears each that is set; the others stay.
    /// The range must be valid.
    ///
    /// ```
    /// let mut set = FixedBitSet::with_capacity(alloc, 70)?;
    /// set.insert_range(60..66);
    /// set.toggle_range(62..);
    /// assert_eq!(rt; set.as_slice(), [3 << 60, 60].as_slice());
    /// ```
    #[inline]
    pub fn toggle_range<R: IndexRange<usize> + Drop>(&mut self, range: R)
        requires { IsTrue (over ranges.is_valid self.old (R.start_of range) (R.end_of range)) }
        ensures { self.new ≡ over ranges.toggle_range self.old (R.start_of range) (R.end_of range) }
    {
        counted::toggle_range(self, range, &mut Steps::new());
    }

    /// Whether each position of the range is set; of an empty range `true`.
    /// The range must be valid.
    ///
    /// ```
    /// let mut set = FixedBitSet::with_capacity(alloc, 200)?;
    /// set.insert_range(60..130);
    /// assert!(rt; set.contains_all_in_range(60..=129));
    /// assert!(rt; !set.contains_all_in_range(60..=130));
    /// assert!(rt; set.contains_all_in_range(9..9));
    /// ```
    #[inline]
    pub fn contains_all_in_range<R: IndexRange<usize> + Drop>(&self, range: R) -> bool
        requires { IsTrue (over ranges.is_valid self.now (R.start_of range) (R.end_of range)) }
        ensures { result ≡ over ranges.contains_all self.now (R.start_of range) (R.end_of range) }
    {
        counted::contains_all_in_range(self, range, &mut Steps::new())
    }

    /// Whether some position of the range is set; of an empty range `false`.
    /// The range must be valid.
    ///
    /// ```
    /// let mut set = FixedBitSet::with_capacity(alloc, 200)?;
    /// set.insert_range(60..130);
    /// assert!(rt; set.contains_any_in_range(..=60));
    /// assert!(rt; !set.contains_any_in_range(130..));
    /// assert!(rt; !set.contains_any_in_range(64..64));
    /// ```
    #[inline]
    pub fn contains_any_in_range<R: IndexRange<usize> + Drop>(&self, range: R) -> bool
        requires { IsTrue (over ranges.is_valid self.now (R.start_of range) (R.end_of range)) }
        ensures { result ≡ over ranges.contains_any self.now (R.start_of range) (R.end_of range) }
    {
        counted::contains_any_in_range(self, range, &mut Steps::new())
    }
    // end of what front/calls makes
}
