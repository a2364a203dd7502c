//! Two whole sets, of any two lengths.
//!
//! A lane is four words, and a set of `n` positions has `n / 256` lanes, rounded up. The lanes that
//! both sets have are joined; the rest of the longer set is copied, cleared or left, as the
//! operation says. Module `counted` has the same calls with a counter.

ghost use Rattle.std.specs.Prelude.{◌≡◌, ◌≤◌, IsOk, IfOk, OnOk, OnErr, not};
ghost use Rattle.fixedbitset.specs.Bits as model;
ghost use Rattle.fixedbitset.specs.TwoSets as sets;

use crate::counted;
use crate::set::FixedBitSet;
use bitlanes::Steps;
use std::alloc::AllocError;

impl FixedBitSet {
    // made by front/calls, but for docs and #[inline]
    /// Leaves the greater of the two lengths, and the positions of either set.
    ///
    /// `Err` is returned only where `other` has more words than this set and their allocation
    /// failed; this set is then as it was. Where `other` needs no more words, the call does not
    /// allocate and cannot fail. It takes one step for each lane of `other`; new words are written
    /// once before.
    ///
    /// ```
    /// let mut set = FixedBitSet::from_iter(alloc, [1, 3])?;
    /// let other = FixedBitSet::from_iter(alloc, [3, 64])?;
    /// set.union_with(&other)?;
    /// assert_eq!(rt; set.len(), 65);
    /// assert_eq!(rt; set.as_slice(), [10, 1].as_slice());
    /// ```
    #[inline]
    pub fn union_with(&mut self, other: &Self) -> Result<(), AllocError>
        ensures ok { OnOk result (self.new ≡ sets.union self.old other.now) }
        ensures err { OnErr result (self.new ≡ self.old) }
        ensures succeeds { model.words_needed other.now.length ≤ model.words_needed self.old.length
            → IsOk result }
    {
        counted::union_with(self, other, &mut Steps::new())
    }

    /// Leaves the greater of the two lengths, and the positions of exactly one of the sets.
    ///
    /// Memory, errors and steps are those of [`union_with`](Self::union_with).
    ///
    /// ```
    /// let mut set = FixedBitSet::from_iter(alloc, [1, 3])?;
    /// let other = FixedBitSet::from_iter(alloc, [3, 64])?;
    /// set.symmetric_difference_with(&other)?;
    /// assert_eq!(rt; set.len(), 65);
    /// assert_eq!(rt; set.as_slice(), [2, 1].as_slice());
    /// ```
    #[inline]
    pub fn symmetric_difference_with(&mut self, other: &Self) -> Result<(), AllocError>
        ensures ok { OnOk result (self.new ≡ sets.symmetric_difference self.old other.now) }
        ensures err { OnErr result (self.new ≡ self.old) }
        ensures succeeds { model.words_needed other.now.length ≤ model.words_needed self.old.length
            → IsOk result }
    {
        counted::symmetric_difference_with(self, other, &mut Steps::new())
    }

    /// Leaves this set's length, and the positions of both sets. It does not allocate.
    ///
    /// It takes one step for each lane that both have, and one for each that only
    /// this set has, to clear it.
    ///
    /// ```
    /// let mut set = FixedBitSet::from_iter(alloc, [1, 3, 64])?;
    /// let other = FixedBitSet::from_iter(alloc, [3, 5])?;
    /// set.intersect_with(&other);
    /// assert_eq!(rt; set.len(), 65);
    /// assert_eq!(rt; set.as_slice(), [8, 0].as_slice());
    /// ```
    pub fn intersect_with(&mut self, other: &Self)
        ensures { self.new ≡ sets.intersection self.old other.now }
    {
        counted::intersect_with(self, other, &mut Steps::new());
    }

    /// Leaves this set's length, and its positions that `other` lacks. It does not allocate.
    ///
    /// It takes one step for each lane that both have.
    ///
    /// ```
    /// let mut set = FixedBitSet::from_iter(alloc, [1, 3, 64])?;
    /// let other = FixedBitSet::from_iter(alloc, [3, 5])?;
    /// set.difference_with(&other);
    /// assert_eq!(rt; set.as_slice(), [2, 1].as_slice());
    /// ```
    pub fn difference_with(&mut self, other: &Self)
        ensures { self.new ≡ sets.difference self.old other.now }
    {
        counted::difference_with(self, other, &mut Steps::new());
    }

    /// [`union_with`](Self::union_with), which also returns whether a position came in: whether
    /// `other` has one that this set lacked. The length may become greater even where none came in;
    /// two calls of [`len`](Self::len) tell that.
    ///
    /// ```
    /// let mut set = FixedBitSet::from_iter(alloc, [1, 3])?;
    /// let other = FixedBitSet::from_iter(alloc, [3, 64])?;
    /// assert!(rt; set.union_with_change(&other)?);
    /// assert!(rt; !set.union_with_change(&other)?);
    /// ```
    #[inline]
    pub fn union_with_change(&mut self, other: &Self) -> Result<bool, AllocError>
        ensures ok { OnOk result (self.new ≡ sets.union self.old other.now) }
        ensures changed { IfOk result
            (λ changed. changed ≡ not (sets.is_subset other.now self.old)) }
        ensures err { OnErr result (self.new ≡ self.old) }
        ensures succeeds { model.words_needed other.now.length ≤ model.words_needed self.old.length
            → IsOk result }
    {
        counted::union_with_change(self, other, &mut Steps::new())
    }

    /// [`symmetric_difference_with`](Self::symmetric_difference_with), which also returns whether a
    /// position came in or went: whether `other` has one. The length may become greater even where
    /// none did.
    ///
    /// ```
    /// let mut set = FixedBitSet::from_iter(alloc, [1, 3])?;
    /// let other = FixedBitSet::from_iter(alloc, [3, 64])?;
    /// assert!(rt; set.symmetric_difference_with_change(&other)?);
    /// assert!(rt; !set.symmetric_difference_with_change(&FixedBitSet::new(alloc))?);
    /// ```
    #[inline]
    pub fn symmetric_difference_with_change(&mut self, other: &Self) -> Result<bool, AllocError>
        ensures ok { OnOk result (self.new ≡ sets.symmetric_difference self.old other.now) }
        ensures changed { IfOk result (λ changed. changed ≡ not (model.is_clear other.now)) }
        ensures err { OnErr result (self.new ≡ self.old) }
        ensures succeeds { model.words_needed other.now.length ≤ model.words_needed self.old.length
            → IsOk result }
    {
        counted::symmetric_difference_with_change(self, other, &mut Steps::new())
    }

    /// [`intersect_with`](Self::intersect_with), which also returns whether a position went:
    /// whether `other` lacked one of this set. It does not allocate.
    ///
    /// ```
    /// let mut set = FixedBitSet::from_iter(alloc, [1, 3, 64])?;
    /// let other = FixedBitSet::from_iter(alloc, [3, 5])?;
    /// assert!(rt; set.intersect_with_change(&other));
    /// assert!(rt; !set.intersect_with_change(&other));
    /// ```
    pub fn intersect_with_change(&mut self, other: &Self) -> bool
        ensures value { self.new ≡ sets.intersection self.old other.now }
        ensures changed { result ≡ not (sets.is_subset self.old other.now) }
    {
        counted::intersect_with_change(self, other, &mut Steps::new())
    }

    /// [`difference_with`](Self::difference_with), which also returns whether a position went:
    /// whether both sets had one. It does not allocate.
    ///
    /// ```
    /// let mut set = FixedBitSet::from_iter(alloc, [1, 3, 64])?;
    /// let other = FixedBitSet::from_iter(alloc, [3, 5])?;
    /// assert!(rt; set.difference_with_change(&other));
    /// assert!(rt; !set.difference_with_change(&other));
    /// ```
    pub fn difference_with_change(&mut self, other: &Self) -> bool
        ensures value { self.new ≡ sets.difference self.old other.now }
        ensures changed { result ≡ not (sets.is_disjoint self.old other.now) }
    {
        counted::difference_with_change(self, other, &mut Steps::new())
    }

    /// Takes in the positions of `gens` that `kills` lacks, and returns whether one came in:
    /// whether this set lacked one of them. The length is then the greater one of this set and of
    /// `gens`.
    ///
    /// Memory and errors are those of [`union_with`](Self::union_with) with `gens`; the length of
    /// `kills` does not matter. It takes one step for each lane of `gens`: it reads each word once,
    /// and makes no set between. Upstream has no such call.
    ///
    /// ```
    /// let mut set = FixedBitSet::from_iter(alloc, [1, 3])?;
    /// let gens = FixedBitSet::from_iter(alloc, [4, 64])?;
    /// let kills = FixedBitSet::from_iter(alloc, [4, 200])?;
    /// assert!(rt; set.union_with_difference(&gens, &kills)?);
    /// assert_eq!(rt; set.as_slice(), [10, 1].as_slice());
    /// ```
    #[inline]
    pub fn union_with_difference(&mut self, gens: &Self, kills: &Self) -> Result<bool, AllocError>
        ensures ok { OnOk result
            (self.new ≡ sets.union self.old (sets.difference gens.now kills.now)) }
        ensures changed { IfOk result (λ changed. changed
            ≡ not (sets.is_subset (sets.difference gens.now kills.now) self.old)) }
        ensures err { OnErr result (self.new ≡ self.old) }
        ensures succeeds { model.words_needed gens.now.length ≤ model.words_needed self.old.length
            → IsOk result }
    {
        counted::union_with_difference(self, gens, kills, &mut Steps::new())
    }
    // end of what front/calls makes

    /// The same as [`union_with`](Self::union_with). Upstream's operator `|=` is this call, as it
    /// may fail to allocate.
    ///
    /// ```
    /// let mut set = FixedBitSet::from_iter(alloc, [1, 3])?;
    /// set.bitor_assign(&FixedBitSet::from_iter(alloc, [3, 64])?)?;
    /// assert_eq!(rt; set.as_slice(), [10, 1].as_slice());
    /// ```
    pub fn bitor_assign(&mut self, other: &Self) -> Result<(), AllocError>
        ensures ok { OnOk result (self.new ≡ sets.union self.old other.now) }
        ensures err { OnErr result (self.new ≡ self.old) }
        ensures succeeds { model.words_needed other.now.length ≤ model.words_needed self.old.length
            → IsOk result }
    {
        self.union_with(other)
    }

    /// The same as [`symmetric_difference_with`](Self::symmetric_difference_with). Upstream's
    /// operator `^=` is this call, as it may fail to allocate.
    ///
    /// ```
    /// let mut set = FixedBitSet::from_iter(alloc, [1, 3])?;
    /// set.bitxor_assign(&FixedBitSet::from_iter(alloc, [3, 64])?)?;
    /// assert_eq!(rt; set.as_slice(), [2, 1].as_slice());
    /// ```
    pub fn bitxor_assign(&mut self, other: &Self) -> Result<(), AllocError>
        ensures ok { OnOk result (self.new ≡ sets.symmetric_difference self.old other.now) }
        ensures err { OnErr result (self.new ≡ self.old) }
        ensures succeeds { model.words_needed other.now.length ≤ model.words_needed self.old.length
            → IsOk result }
    {
        self.symmetric_difference_with(other)
    }

    // made by front/calls, but for docs and #[inline]
    /// A new set of the smaller of the two lengths, with the positions of both sets.
    ///
    /// `Err` is returned only where the allocation of its words failed. It writes the shorter set's
    /// words, joined with the other's: a long set in one pass, a short one in two. Upstream's
    /// operator `&` is this call.
    ///
    /// ```
    /// let set = FixedBitSet::from_iter(alloc, [1, 3, 64])?;
    /// let other = FixedBitSet::from_iter(alloc, [3, 5])?;
    /// let both = set.bitand(&other)?;
    /// assert_eq!(rt; both.len(), 6);
    /// assert_eq!(rt; both.as_slice(), [8].as_slice());
    /// ```
    #[inline]
    pub fn bitand(&self, other: &Self) -> Result<Self, AllocError>
        ensures { IfOk result (λ set. set ≡ sets.bitand self.now other.now) }
    {
        counted::bitand(self, other, &mut Steps::new())
    }

    /// A new set of the greater of the two lengths, with the positions of either set.
    ///
    /// `Err` is returned only where the allocation of its words failed. It writes the longer set's
    /// words, joined with the other's: a long set in one pass, a short one in two. Upstream's
    /// operator `|` is this call.
    ///
    /// ```
    /// let set = FixedBitSet::from_iter(alloc, [1, 3, 64])?;
    /// let other = FixedBitSet::from_iter(alloc, [3, 5])?;
    /// let either = other.bitor(&set)?;
    /// assert_eq!(rt; either.len(), 65);
    /// assert_eq!(rt; either.as_slice(), [42, 1].as_slice());
    /// ```
    #[inline]
    pub fn bitor(&self, other: &Self) -> Result<Self, AllocError>
        ensures { IfOk result (λ set. set ≡ sets.union self.now other.now) }
    {
        counted::bitor(self, other, &mut Steps::new())
    }

    /// A new set of the greater of the two lengths, with the positions of exactly one of the sets.
    ///
    /// `Err` is returned only where the allocation of its words failed. It writes the longer set's
    /// words, joined with the other's: a long set in one pass, a short one in two. Upstream's
    /// operator `^` is this call.
    ///
    /// ```
    /// let set = FixedBitSet::from_iter(alloc, [1, 3, 64])?;
    /// let other = FixedBitSet::from_iter(alloc, [3, 5])?;
    /// let one = other.bitxor(&set)?;
    /// assert_eq!(rt; one.len(), 65);
    /// assert_eq!(rt; one.as_slice(), [34, 1].as_slice());
    /// ```
    #[inline]
    pub fn bitxor(&self, other: &Self) -> Result<Self, AllocError>
        ensures { IfOk result (λ set. set ≡ sets.symmetric_difference self.now other.now) }
    {
        counted::bitxor(self, other, &mut Steps::new())
    }

    /// How many positions are in either set.
    ///
    /// It takes one step for each lane of the longer set.
    ///
    /// ```
    /// let set = FixedBitSet::from_iter(alloc, [1, 3, 64])?;
    /// let other = FixedBitSet::from_iter(alloc, [3, 5])?;
    /// assert_eq!(rt; set.union_count(&other), 4);
    /// ```
    #[inline]
    pub fn union_count(&self, other: &Self) -> usize
        ensures { result ≡ sets.union_count self.now other.now }
    {
        counted::union_count(self, other, &mut Steps::new())
    }

    /// How many positions are in both sets.
    ///
    /// It takes one step for each lane that both have.
    ///
    /// ```
    /// let set = FixedBitSet::from_iter(alloc, [1, 3, 64])?;
    /// let other = FixedBitSet::from_iter(alloc, [3, 5])?;
    /// assert_eq!(rt; set.intersection_count(&other), 1);
    /// ```
    #[inline]
    pub fn intersection_count(&self, other: &Self) -> usize
        ensures { result ≡ sets.intersection_count self.now other.now }
    {
        counted::intersection_count(self, other, &mut Steps::new())
    }

    /// How many positions of this set `other` lacks. Upstream leaves out those in the words of this
    /// set past the last word of `other`, against its documentation.
    ///
    /// It takes one step for each lane of this set.
    ///
    /// ```
    /// let set = FixedBitSet::from_iter(alloc, [1, 3, 64])?;
    /// let other = FixedBitSet::from_iter(alloc, [3, 5])?;
    /// assert_eq!(rt; set.difference_count(&other), 2);
    /// assert_eq!(rt; other.difference_count(&set), 1);
    /// ```
    #[inline]
    pub fn difference_count(&self, other: &Self) -> usize
        ensures { result ≡ sets.difference_count self.now other.now }
    {
        counted::difference_count(self, other, &mut Steps::new())
    }

    /// How many positions are in exactly one of the sets.
    ///
    /// It takes one step for each lane of the longer set.
    ///
    /// ```
    /// let set = FixedBitSet::from_iter(alloc, [1, 3, 64])?;
    /// let other = FixedBitSet::from_iter(alloc, [3, 5])?;
    /// assert_eq!(rt; set.symmetric_difference_count(&other), 3);
    /// ```
    #[inline]
    pub fn symmetric_difference_count(&self, other: &Self) -> usize
        ensures { result ≡ sets.symmetric_difference_count self.now other.now }
    {
        counted::symmetric_difference_count(self, other, &mut Steps::new())
    }

    /// Whether no position is in both sets. The lengths are not compared.
    ///
    /// It stops at the first lane with a position of both, and takes exactly one step for each
    /// lane up to that one, or for all lanes that both have.
    ///
    /// ```
    /// let set = FixedBitSet::from_iter(alloc, [1, 64])?;
    /// let other = FixedBitSet::from_iter(alloc, [3, 64, 65])?;
    /// assert!(rt; !set.is_disjoint(&other));
    /// assert!(rt; set.is_disjoint(&FixedBitSet::from_iter(alloc, [0, 65])?));
    /// ```
    pub fn is_disjoint(&self, other: &Self) -> bool
        ensures { result ≡ sets.is_disjoint self.now other.now }
    {
        counted::is_disjoint(self, other, &mut Steps::new())
    }

    /// Whether `other` has each position of this set. The lengths are not compared.
    ///
    /// It stops at the first lane with a position that `other` lacks, and takes exactly one step
    /// for each lane up to that one, or for all of this set.
    ///
    /// ```
    /// let mut set = FixedBitSet::with_capacity(alloc, 200)?;
    /// set.insert(3);
    /// let other = FixedBitSet::from_iter(alloc, [1, 3])?;
    /// assert!(rt; set.is_subset(&other));
    /// assert!(rt; !other.is_subset(&set));
    /// ```
    pub fn is_subset(&self, other: &Self) -> bool
        ensures { result ≡ sets.is_subset self.now other.now }
    {
        counted::is_subset(self, other, &mut Steps::new())
    }
    // end of what front/calls makes

    /// Whether this set has each position of `other`: `other.is_subset(self)`.
    ///
    /// ```
    /// let set = FixedBitSet::from_iter(alloc, [1, 3])?;
    /// let longer = FixedBitSet::with_capacity(alloc, 200)?;
    /// assert!(rt; set.is_superset(&longer));
    /// assert!(rt; !longer.is_superset(&set));
    /// ```
    pub fn is_superset(&self, other: &Self) -> bool
        ensures { result ≡ sets.is_subset other.now self.now }
    {
        other.is_subset(self)
    }

    /// The least position of `other` that this set lacks, or `None` where it lacks none: where
    /// `other` is a subset of it. The lengths are not compared, and it does not allocate. Upstream
    /// has no such call.
    ///
    /// It stops at the first lane with such a position, and takes exactly one step for each lane
    /// up to that one, or for all of `other`.
    ///
    /// ```
    /// let set = FixedBitSet::from_iter(alloc, [1, 3])?;
    /// let other = FixedBitSet::from_iter(alloc, [3, 64, 70])?;
    /// assert_eq!(rt; set.first_lacking(&other), Some(64));
    /// assert_eq!(rt; other.first_lacking(&set), Some(1));
    /// ```
    pub fn first_lacking(&self, other: &Self) -> Option<usize>
        ensures { result ≡ model.minimum (sets.difference other.now self.now) }
    {
        self.as_bits()
            .first_lacking(other.as_bits(), &mut Steps::new())
    }
}
