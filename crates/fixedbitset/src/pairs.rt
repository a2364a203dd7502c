//! Iterators over two sets of any two lengths.
//!
//! `intersection` and `difference` iterator over the first set and look each of its items up in the
//! other. `union` iterators over the first set, and then over the second without the first;
//! `symmetric_difference` over both differences in turn. So the items of the two last need not
//! ascend as a whole. No iterator allocates.
//!
//! The iterators themselves are types of `bitwalks`. Proofs see the items left, how many items of a
//! source were looked up (`asked`), and each source as an iterator of its own, with its turns and
//! its words not yet taken.

ghost use Rattle.std.specs.Prelude.{◌≡◌, ◌^◌, ◌<◌, ◌++◌, length};
ghost use Rattle.std.specs.Iterator.Runs.{EachRunFrom, ItemsAre, ItemsAreReversed};
ghost use Rattle.bitwalks.specs.Pairs.{SievesFirst, SievesLast, joined_items, JoinsFirst};
ghost use Rattle.bitwalks.specs.Pairs.{JoinsLast, split_items, SplitsFirst, SplitsLast};
ghost use Rattle.fixedbitset.specs.Bits as model;
ghost use Rattle.fixedbitset.specs.TwoSets as sets;
ghost use Rattle.fixedbitset.specs.Walks.{begun};

use crate::set::FixedBitSet;
use bitwalks::pairs::{Difference, Intersection, SymmetricDifference, Union};

impl FixedBitSet {
    /// The positions that both sets have, in ascending order. It iterates over this set, and looks
    /// each of its positions up in the other.
    ///
    /// ```
    /// let set = FixedBitSet::from_iter(alloc, [1, 3, 64])?;
    /// let other = FixedBitSet::from_iter(alloc, [3, 5, 64, 200])?;
    /// let items: Vec<usize> = set.intersection(&other).collect(alloc)?;
    /// assert_eq!(rt; items.as_slice(), [3, 64].as_slice());
    /// ```
    #[inline]
    pub fn intersection<'a>(&'a self, other: &'a FixedBitSet) -> Intersection<'a>
        ensures items { result.items ≡ model.asc (sets.intersection self.now other.now) }
        ensures fits { length result.items < 2 ^ 64 }
        ensures runs { EachRunFrom SievesFirst result
            (λ run. ItemsAre run (model.asc (sets.intersection self.now other.now))) }
        ensures runs_back { EachRunFrom SievesLast result
            (λ run. ItemsAreReversed run (model.asc (sets.intersection self.now other.now))) }
        ensures asked { result.asked ≡ 0 }
        ensures source { result.source ≡ begun self.now }
    {
        let words = self.used_words();
        let others = other.used_words();
        Intersection::over(words, others)
    }

    /// The positions of this set that the other lacks, in ascending order. It iterates over this
    /// set, and looks each of its positions up in the other.
    ///
    /// ```
    /// let set = FixedBitSet::from_iter(alloc, [1, 3, 200])?;
    /// let other = FixedBitSet::from_iter(alloc, [3, 64])?;
    /// let items: Vec<usize> = set.difference(&other).collect(alloc)?;
    /// assert_eq!(rt; items.as_slice(), [1, 200].as_slice());
    /// ```
    #[inline]
    pub fn difference<'a>(&'a self, other: &'a FixedBitSet) -> Difference<'a>
        ensures items { result.items ≡ model.asc (sets.difference self.now other.now) }
        ensures fits { length result.items < 2 ^ 64 }
        ensures runs { EachRunFrom SievesFirst result
            (λ run. ItemsAre run (model.asc (sets.difference self.now other.now))) }
        ensures runs_back { EachRunFrom SievesLast result
            (λ run. ItemsAreReversed run (model.asc (sets.difference self.now other.now))) }
        ensures asked { result.asked ≡ 0 }
        ensures source { result.source ≡ begun self.now }
    {
        let words = self.used_words();
        let others = other.used_words();
        Difference::over(words, others)
    }

    /// The positions of this set, and then those of the other that this one lacks, each part in
    /// ascending order. Only positions of the other set are looked up.
    ///
    /// ```
    /// let set = FixedBitSet::from_iter(alloc, [9, 200])?;
    /// let other = FixedBitSet::from_iter(alloc, [3, 9])?;
    /// let items: Vec<usize> = set.union(&other).collect(alloc)?;
    /// assert_eq!(rt; items.as_slice(), [9, 200, 3].as_slice());
    /// ```
    #[inline]
    pub fn union<'a>(&'a self, other: &'a FixedBitSet) -> Union<'a>
        ensures items { joined_items result
            ≡ model.asc self.now ++ model.asc (sets.difference other.now self.now) }
        ensures fits { length (joined_items result) < 2 ^ 64 }
        ensures runs { EachRunFrom JoinsFirst result
            (λ run. ItemsAre run
            (model.asc self.now ++ model.asc (sets.difference other.now self.now))) }
        ensures runs_back { EachRunFrom JoinsLast result
            (λ run. ItemsAreReversed run
            (model.asc self.now ++ model.asc (sets.difference other.now self.now))) }
        ensures first { result.first ≡ begun self.now }
        ensures asked { result.second.asked ≡ 0 }
        ensures source { result.second.source ≡ begun other.now }
    {
        let words = self.used_words();
        let others = other.used_words();
        Union::over(words, others)
    }

    /// The positions of this set that the other lacks, and then those of the other that this one
    /// lacks, each part in ascending order.
    ///
    /// ```
    /// let set = FixedBitSet::from_iter(alloc, [9, 200])?;
    /// let other = FixedBitSet::from_iter(alloc, [3, 9])?;
    /// let items: Vec<usize> = set.symmetric_difference(&other).collect(alloc)?;
    /// assert_eq!(rt; items.as_slice(), [200, 3].as_slice());
    /// ```
    #[inline]
    pub fn symmetric_difference<'a>(&'a self, other: &'a FixedBitSet) -> SymmetricDifference<'a>
        ensures items { split_items result
            ≡ model.asc (sets.difference self.now other.now)
            ++ model.asc (sets.difference other.now self.now) }
        ensures fits { length (split_items result) < 2 ^ 64 }
        ensures runs { EachRunFrom SplitsFirst result
            (λ run. ItemsAre run
            (model.asc (sets.difference self.now other.now)
            ++ model.asc (sets.difference other.now self.now))) }
        ensures runs_back { EachRunFrom SplitsLast result
            (λ run. ItemsAreReversed run
            (model.asc (sets.difference self.now other.now)
            ++ model.asc (sets.difference other.now self.now))) }
        ensures asked_first { result.first.asked ≡ 0 }
        ensures asked_second { result.second.asked ≡ 0 }
        ensures source_first { result.first.source ≡ begun self.now }
        ensures source_second { result.second.source ≡ begun other.now }
    {
        let words = self.used_words();
        let others = other.used_words();
        SymmetricDifference::over(words, others)
    }
}
