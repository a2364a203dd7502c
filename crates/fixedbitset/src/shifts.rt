//! Shifts: each position moved up or down by a number. The length stays, and what has no
//! place below it falls away.

ghost use Rattle.std.specs.Prelude.{◌≡◌};
ghost use Rattle.fixedbitset.specs.Parts as parts;

use crate::counted;
use crate::set::FixedBitSet;
use bitlanes::Steps;

impl FixedBitSet {
    // made by front/calls, but for docs and #[inline]
    /// Moves each position up by `by`, any number. Those that are not below the
    /// length then fall away.
    ///
    /// It reads and writes each word at most once, and does not allocate. Upstream has no such
    /// call.
    ///
    /// ```
    /// let mut set = FixedBitSet::from_iter(alloc, [0, 3, 69])?;
    /// set.shift_up(64);
    /// assert_eq!(rt; set.as_slice(), [0, 9].as_slice());
    /// set.shift_up(usize::MAX);
    /// assert!(rt; set.is_clear() && set.len() == 70);
    /// ```
    pub fn shift_up(&mut self, by: usize)
        ensures { self.new ≡ parts.shift_up self.old by }
    {
        counted::shift_up(self, by, &mut Steps::new());
    }

    /// Moves each position down by `by`, any number. Those below `by` fall away.
    ///
    /// It reads and writes each word at most once, and does not allocate. Upstream has no such
    /// call.
    ///
    /// ```
    /// let mut set = FixedBitSet::from_iter(alloc, [0, 3, 69])?;
    /// set.shift_down(3);
    /// assert_eq!(rt; set.as_slice(), [1, 4].as_slice());
    /// assert_eq!(rt; set.len(), 70);
    /// ```
    pub fn shift_down(&mut self, by: usize)
        ensures { self.new ≡ parts.shift_down self.old by }
    {
        counted::shift_down(self, by, &mut Steps::new());
    }

    /// Takes in each position of `other` moved up by `by`, any number, as far as it is
    /// below the length then.
    ///
    /// The length stays. It reads each word of `other` at most once, and does not allocate and
    /// makes no copy. Upstream has no such call.
    ///
    /// ```
    /// let mut set = FixedBitSet::from_iter(alloc, [0, 69])?;
    /// let other = FixedBitSet::from_iter(alloc, [0, 1, 5])?;
    /// set.union_with_shifted(&other, 65);
    /// assert!(rt; set.ones().eq([0, 65, 66, 69]));
    /// ```
    pub fn union_with_shifted(&mut self, other: &Self, by: usize)
        ensures { self.new ≡ parts.union_with_shifted self.old other.now by }
    {
        counted::union_with_shifted(self, other, by, &mut Steps::new());
    }

    /// Takes in each position of this set moved up by `by`, any number, as far as it is
    /// below the length then.
    ///
    /// So where the set has the sums that some numbers make, it then has those that these numbers
    /// and `by` make. It reads and writes each word at most once, and does not allocate and makes
    /// no copy. Upstream has no such call.
    ///
    /// ```
    /// let mut set = FixedBitSet::with_capacity(alloc, 100)?;
    /// set.insert(0);
    /// set.union_with_own_shift(3);
    /// set.union_with_own_shift(70);
    /// assert!(rt; set.ones().eq([0, 3, 70, 73]));
    /// ```
    pub fn union_with_own_shift(&mut self, by: usize)
        ensures { self.new ≡ parts.union_with_shifted self.old self.old by }
    {
        counted::union_with_own_shift(self, by, &mut Steps::new());
    }
    // end of what front/calls makes
}
