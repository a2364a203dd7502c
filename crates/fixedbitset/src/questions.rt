//! Questions about one whole set: whether it has no position or all, and the first
//! and the last that it has; and both of these taken out of the set.
//!
//! No call allocates. Each stops at the first lane that decides, from the end at which it begins; a
//! search looks at up to sixteen words with that lane at once.

ghost use Rattle.std.specs.Prelude.{◌≡◌, ◌==◌, IfSome, IfNone};
ghost use Rattle.fixedbitset.specs.Bits as model;

use crate::counted;
use crate::set::FixedBitSet;
use bitlanes::Steps;

impl FixedBitSet {
    /// Whether the length is 0. A set of another length is not empty, even where no position
    /// is set: see `is_clear`.
    ///
    /// ```
    /// assert!(rt; FixedBitSet::new(alloc).is_empty());
    /// let set = FixedBitSet::with_capacity(alloc, 3)?;
    /// assert!(rt; set.is_clear() && !set.is_empty());
    /// ```
    #[inline]
    pub fn is_empty(&self) -> bool
        ensures { result ≡ (self.now.length == 0) }
    {
        self.len() == 0
    }

    /// Whether no position is set; so `true` at length 0. It looks at sixteen words at a time and
    /// then at four, up to those that have one.
    ///
    /// ```
    /// let mut set = FixedBitSet::with_capacity(alloc, 70)?;
    /// assert!(rt; set.is_clear());
    /// set.insert(69);
    /// assert!(rt; !set.is_clear());
    /// ```
    #[inline]
    pub fn is_clear(&self) -> bool
        ensures { result ≡ model.is_clear self.now }
    {
        self.as_bits().is_clear(&mut Steps::new())
    }

    // made by front/calls, but for docs and #[inline]
    /// The first position that is set, or `None` where none is. It looks at four words at a time
    /// from the first on, up to the one that has this position.
    ///
    /// ```
    /// let mut set = FixedBitSet::with_capacity(alloc, 200)?;
    /// assert_eq!(rt; set.minimum(), None);
    /// set.insert_range(64..130);
    /// assert_eq!(rt; set.minimum(), Some(64));
    /// ```
    #[inline]
    pub fn minimum(&self) -> Option<usize>
        ensures { result ≡ model.minimum self.now }
    {
        self.as_bits().minimum(&mut Steps::new())
    }

    /// The last position that is set, or `None` where none is. It looks at four words at a time
    /// from the last on, down to the one that has this position.
    ///
    /// ```
    /// let mut set = FixedBitSet::with_capacity(alloc, 200)?;
    /// assert_eq!(rt; set.maximum(), None);
    /// set.insert_range(64..130);
    /// assert_eq!(rt; set.maximum(), Some(129));
    /// ```
    #[inline]
    pub fn maximum(&self) -> Option<usize>
        ensures { result ≡ model.maximum self.now }
    {
        self.as_bits().maximum(&mut Steps::new())
    }

    /// Clears the first position that is set, and returns it. Where none is set, the set stays as
    /// it was and the result is `None`. It looks at four words at a time from the first on, up to
    /// the one that has this position, so a loop over it goes over the cleared words again.
    ///
    /// Upstream has no such call.
    ///
    /// ```
    /// let mut set = FixedBitSet::from_iter(alloc, [3, 64])?;
    /// assert_eq!(rt; set.pop_first(), Some(3));
    /// assert_eq!(rt; set.pop_first(), Some(64));
    /// assert!(rt; set.pop_first().is_none() && set.len() == 65);
    /// ```
    #[inline]
    pub fn pop_first(&mut self) -> Option<usize>
        ensures first { result ≡ model.minimum self.old }
        ensures taken { IfSome result (λ p. self.new ≡ model.remove self.old p) }
        ensures unchanged { IfNone result (self.new ≡ self.old) }
    {
        counted::pop_first(self, &mut Steps::new())
    }

    /// Clears the last position that is set, and returns it. Where none is set, the set stays as
    /// it was and the result is `None`. It looks at four words at a time from the last on, down to
    /// the one that has this position, so a loop over it goes over the cleared words again.
    ///
    /// Upstream has no such call.
    ///
    /// ```
    /// let mut set = FixedBitSet::from_iter(alloc, [3, 64])?;
    /// assert_eq!(rt; set.pop_last(), Some(64));
    /// assert_eq!(rt; set.pop_last(), Some(3));
    /// assert!(rt; set.pop_last().is_none() && set.len() == 65);
    /// ```
    #[inline]
    pub fn pop_last(&mut self) -> Option<usize>
        ensures last { result ≡ model.maximum self.old }
        ensures taken { IfSome result (λ p. self.new ≡ model.remove self.old p) }
        ensures unchanged { IfNone result (self.new ≡ self.old) }
    {
        counted::pop_last(self, &mut Steps::new())
    }

    /// Whether each position below the length is set; so `true` at length 0.
    ///
    /// ```
    /// let mut set = FixedBitSet::with_capacity(alloc, 70)?;
    /// set.insert_range(..69);
    /// assert!(rt; !set.is_full());
    /// set.insert(69);
    /// assert!(rt; set.is_full());
    /// ```
    #[inline]
    pub fn is_full(&self) -> bool
        ensures { result ≡ model.is_full self.now }
    {
        self.as_bits().is_full(&mut Steps::new())
    }
    // end of what front/calls makes
}
