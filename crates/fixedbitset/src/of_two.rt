//! A set made of two others, in the words that it has.
//!
//! Each word of the result is written once, a new one once before, and no set stands between. `Err`
//! is returned only where more words are needed than the old length has and their allocation
//! failed. The set is then as it was.

ghost use Rattle.std.specs.Prelude.{◌≡◌, ◌≤◌, max, min, IsOk, OnOk, OnErr};
ghost use Rattle.fixedbitset.specs.Bits as model;
ghost use Rattle.fixedbitset.specs.TwoSets as sets;

use crate::set::FixedBitSet;
use crate::views::BitsMut;
use std::alloc::AllocError;

impl FixedBitSet {
    /// Makes this set the union of two others: the greater of their lengths, and the positions of
    /// either.
    ///
    /// A call that needs no more words cannot fail. Upstream has no such call.
    ///
    /// ```
    /// let one = FixedBitSet::from_iter(alloc, [1, 3])?;
    /// let other = FixedBitSet::from_iter(alloc, [3, 64])?;
    /// let mut set = FixedBitSet::with_capacity(alloc, 200)?;
    /// set.union_of(&one, &other)?;
    /// assert_eq!(rt; set.as_slice(), [10, 1].as_slice());
    /// ```
    #[inline]
    #[tactic(auto, using(crate::proofs::Words::given_back, crate::proofs::Words::viewed_length))]
    pub fn union_of(&mut self, one: &Self, other: &Self) -> Result<(), AllocError>
        ensures ok { OnOk result (self.new ≡ sets.union one.now other.now) }
        ensures err { OnErr result (self.new ≡ self.old) }
        ensures succeeds { model.words_needed (max one.now.length other.now.length)
            ≤ model.words_needed self.old.length → IsOk result }
    {
        self.fit(one.length.max(other.length))?;
        let (words, length) = (&mut *self.words.as_mut_slice(), self.length);
        BitsMut { words, length }.union_of(one.as_bits(), other.as_bits());
        Ok(())
    }

    /// Makes this set the greater of the lengths of two others, and the positions of exactly one of
    /// them.
    ///
    /// Memory and errors are those of [`union_of`](Self::union_of).
    ///
    /// ```
    /// let one = FixedBitSet::from_iter(alloc, [1, 3])?;
    /// let other = FixedBitSet::from_iter(alloc, [3, 64])?;
    /// let mut set = FixedBitSet::with_capacity(alloc, 200)?;
    /// set.symmetric_difference_of(&one, &other)?;
    /// assert_eq!(rt; set.as_slice(), [2, 1].as_slice());
    /// ```
    #[inline]
    #[tactic(auto, using(crate::proofs::Words::given_back, crate::proofs::Words::viewed_length))]
    pub fn symmetric_difference_of(&mut self, one: &Self, other: &Self) -> Result<(), AllocError>
        ensures ok { OnOk result (self.new ≡ sets.symmetric_difference one.now other.now) }
        ensures err { OnErr result (self.new ≡ self.old) }
        ensures succeeds { model.words_needed (max one.now.length other.now.length)
            ≤ model.words_needed self.old.length → IsOk result }
    {
        self.fit(one.length.max(other.length))?;
        let (words, length) = (&mut *self.words.as_mut_slice(), self.length);
        BitsMut { words, length }.symmetric_difference_of(one.as_bits(), other.as_bits());
        Ok(())
    }

    /// Makes this set the lesser of the lengths of two others, and the positions of both.
    ///
    /// Memory and errors are those of [`union_of`](Self::union_of).
    ///
    /// ```
    /// let one = FixedBitSet::from_iter(alloc, [1, 3])?;
    /// let other = FixedBitSet::from_iter(alloc, [3, 64])?;
    /// let mut set = FixedBitSet::with_capacity(alloc, 200)?;
    /// set.intersection_of(&one, &other)?;
    /// assert_eq!(rt; set.as_slice(), [8].as_slice());
    /// ```
    #[inline]
    #[tactic(auto, using(crate::proofs::Words::given_back, crate::proofs::Words::viewed_length))]
    pub fn intersection_of(&mut self, one: &Self, other: &Self) -> Result<(), AllocError>
        ensures ok { OnOk result (self.new ≡ sets.bitand one.now other.now) }
        ensures err { OnErr result (self.new ≡ self.old) }
        ensures succeeds { model.words_needed (min one.now.length other.now.length)
            ≤ model.words_needed self.old.length → IsOk result }
    {
        self.fit(one.length.min(other.length))?;
        let (words, length) = (&mut *self.words.as_mut_slice(), self.length);
        BitsMut { words, length }.intersection_of(one.as_bits(), other.as_bits());
        Ok(())
    }

    /// Makes this set the first of two others without the positions of the second. The length is
    /// that of the first.
    ///
    /// Memory and errors are those of [`union_of`](Self::union_of).
    ///
    /// ```
    /// let one = FixedBitSet::from_iter(alloc, [1, 3])?;
    /// let other = FixedBitSet::from_iter(alloc, [3, 64])?;
    /// let mut set = FixedBitSet::with_capacity(alloc, 200)?;
    /// set.difference_of(&one, &other)?;
    /// assert_eq!(rt; set.as_slice(), [2].as_slice());
    /// ```
    #[inline]
    #[tactic(auto, using(crate::proofs::Words::given_back, crate::proofs::Words::viewed_length))]
    pub fn difference_of(&mut self, one: &Self, other: &Self) -> Result<(), AllocError>
        ensures ok { OnOk result (self.new ≡ sets.difference one.now other.now) }
        ensures err { OnErr result (self.new ≡ self.old) }
        ensures succeeds { model.words_needed one.now.length
            ≤ model.words_needed self.old.length → IsOk result }
    {
        self.fit(one.length)?;
        let (words, length) = (&mut *self.words.as_mut_slice(), self.length);
        BitsMut { words, length }.difference_of(one.as_bits(), other.as_bits());
        Ok(())
    }

    // Makes the length `bits`, for a call that writes over all positions.
    #[inline]
    #[tactic(auto, using(crate::proofs::JoinedValues::resized_length))]
    fn fit(&mut self, bits: usize) -> Result<(), AllocError>
        ensures ok { OnOk result (self.new.length ≡ bits) }
        ensures err { OnErr result (self.new ≡ self.old) }
        ensures succeeds { model.words_needed bits ≤ model.words_needed self.old.length
            → IsOk result }
    {
        if bits == self.len() {
            return Ok(());
        }
        self.resize(bits, false)
    }
}
