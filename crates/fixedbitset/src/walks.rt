//! Iterators over one set: the positions that are set, and those that are not.
//!
//! The iterators themselves are types of `bitwalks`. A call of an iterator makes one turn, and one
//! more for each word that it takes; after `None` from one end each end returns `None` for good.
//! Proofs see the items left, the words that no call has taken yet, and the counts of turns and of
//! words taken, which take no bytes when the program runs.

ghost use Rattle.std.specs.Prelude.{◌≡◌, ◌^◌, ◌<◌, map, length, IsTrue};
ghost use Rattle.std.specs.Int.{bit_not, w64};
ghost use Rattle.std.specs.Iterator.Runs.{EachRunFrom, ItemsAre, ItemsAreReversed};
ghost use Rattle.bitwords.specs.Walk.{GivesFirst, GivesLast, between_ends};
ghost use Rattle.fixedbitset.specs.Bits as model;
ghost use Rattle.fixedbitset.specs.Ranges as ranges;
ghost use Rattle.fixedbitset.specs.Ranges.{over};
ghost use Rattle.fixedbitset.specs.Runs as stretches;
ghost use Rattle.fixedbitset.specs.Walks.{ones_of, zeroes_of, words_of, zero_words_of};

use crate::set::FixedBitSet;
use bitlanes::IndexRange;
use bitlanes::word::BITS;
use bitwalks::runs::Runs;
use bitwalks::walks::{IntoOnes, Ones, Zeroes};

impl FixedBitSet {
    /// The set positions, in ascending order. It does not allocate, and reads the first and the
    /// last word; those between are not yet taken.
    ///
    /// ```
    /// let set = FixedBitSet::from_iter(alloc, [64, 3])?;
    /// let items: Vec<usize> = set.ones().collect(alloc)?;
    /// assert_eq!(rt; items.as_slice(), [3, 64].as_slice());
    /// ```
    #[inline]
    pub fn ones(&self) -> Ones<'_>
        ensures items { result.items ≡ model.asc self.now }
        ensures fits { length result.items < 2 ^ 64 }
        ensures runs { EachRunFrom GivesFirst result (λ run. ItemsAre run (model.asc self.now)) }
        ensures runs_back { EachRunFrom GivesLast result
            (λ run. ItemsAreReversed run (model.asc self.now)) }
        ensures words { result.words ≡ between_ends (model.words self.now) }
        ensures turns { result.turns ≡ 0 }
        ensures taken { result.taken ≡ 0 }
    {
        Ones::over(self.used_words())
    }

    /// The set positions, in ascending order, from an iterator that owns the words of the set. It
    /// does not allocate, and reads the first and the last word; those between are not yet taken.
    ///
    /// ```
    /// let set = FixedBitSet::from_iter(alloc, [64, 3, 9])?;
    /// let items: Vec<usize> = set.into_ones().rev().collect(alloc)?;
    /// assert_eq!(rt; items.as_slice(), [64, 9, 3].as_slice());
    /// ```
    #[inline]
    pub fn into_ones(self) -> IntoOnes
        ensures items { result.items ≡ model.asc self }
        ensures fits { length result.items < 2 ^ 64 }
        ensures runs { EachRunFrom GivesFirst result (λ run. ItemsAre run (model.asc self)) }
        ensures runs_back { EachRunFrom GivesLast result
            (λ run. ItemsAreReversed run (model.asc self)) }
        ensures words { result.words ≡ between_ends (model.words self) }
        ensures turns { result.turns ≡ 0 }
        ensures taken { result.taken ≡ 0 }
    {
        let FixedBitSet { mut words, length } = self;
        words.truncate(length.div_ceil(BITS));
        IntoOnes::over(words)
    }

    /// The positions below the length that are not set, in ascending order. It does not allocate,
    /// and reads the first and the last word; those between are not yet taken.
    ///
    /// ```
    /// let mut set = FixedBitSet::with_capacity(alloc, 66)?;
    /// set.insert_range(1..65);
    /// let items: Vec<usize> = set.zeroes().collect(alloc)?;
    /// assert_eq!(rt; items.as_slice(), [0, 65].as_slice());
    /// ```
    #[inline]
    #[tactic(auto, using(crate::proofs::Words::viewed_length))]
    pub fn zeroes(&self) -> Zeroes<'_>
        ensures items { result.items ≡ model.asc (model.complement self.now) }
        ensures fits { length result.items < 2 ^ 64 }
        ensures runs { EachRunFrom GivesFirst result
            (λ run. ItemsAre run (model.asc (model.complement self.now))) }
        ensures runs_back { EachRunFrom GivesLast result
            (λ run. ItemsAreReversed run (model.asc (model.complement self.now))) }
        ensures words { result.words ≡ between_ends (map (bit_not w64) (model.words self.now)) }
        ensures turns { result.turns ≡ 0 }
        ensures taken { result.taken ≡ 0 }
    {
        Zeroes::within(self.used_words(), 0, self.length)
    }

    /// The set positions of the range, in ascending order. The range must be valid, as that of
    /// [`count_ones`](Self::count_ones).
    ///
    /// It does not allocate, and takes no other words than those that hold a position of the range.
    /// Upstream has no such call.
    ///
    /// ```
    /// let mut set = FixedBitSet::with_capacity(alloc, 200)?;
    /// set.insert_range(60..130);
    /// assert!(rt; set.ones_in(128..).eq([128, 129]));
    /// assert_eq!(rt; set.ones_in(..=60).next(), Some(60));
    /// ```
    #[inline]
    pub fn ones_in<R: IndexRange<usize> + Drop>(&self, range: R) -> Ones<'_>
        requires { IsTrue (over ranges.is_valid self.now (R.start_of range) (R.end_of range)) }
        ensures items { result.items ≡ over ones_of self.now (R.start_of range) (R.end_of range) }
        ensures fits { length result.items < 2 ^ 64 }
        ensures runs { EachRunFrom GivesFirst result
            (λ run. ItemsAre run (over ones_of self.now (R.start_of range) (R.end_of range))) }
        ensures runs_back { EachRunFrom GivesLast result
            (λ run. ItemsAreReversed run
            (over ones_of self.now (R.start_of range) (R.end_of range))) }
        ensures words { result.words ≡ over words_of self.now (R.start_of range) (R.end_of range) }
        ensures turns { result.turns ≡ 0 }
        ensures taken { result.taken ≡ 0 }
    {
        let start = range.start().unwrap_or(0);
        let end = range.end().unwrap_or(self.length);
        Ones::within(self.used_words(), start, end)
    }

    /// The positions of the range that are not set, in ascending order. The range must be valid.
    ///
    /// It does not allocate, and takes no other words than those that hold a position of the range.
    /// Upstream has no such call.
    ///
    /// ```
    /// let mut set = FixedBitSet::with_capacity(alloc, 200)?;
    /// set.insert_range(60..130);
    /// assert!(rt; set.zeroes_in(58..132).eq([58, 59, 130, 131]));
    /// ```
    #[inline]
    pub fn zeroes_in<R: IndexRange<usize> + Drop>(&self, range: R) -> Zeroes<'_>
        requires { IsTrue (over ranges.is_valid self.now (R.start_of range) (R.end_of range)) }
        ensures items { result.items ≡ over zeroes_of self.now (R.start_of range) (R.end_of range) }
        ensures fits { length result.items < 2 ^ 64 }
        ensures runs { EachRunFrom GivesFirst result
            (λ run. ItemsAre run (over zeroes_of self.now (R.start_of range) (R.end_of range))) }
        ensures runs_back { EachRunFrom GivesLast result
            (λ run. ItemsAreReversed run
            (over zeroes_of self.now (R.start_of range) (R.end_of range))) }
        ensures words { result.words
            ≡ over zero_words_of self.now (R.start_of range) (R.end_of range) }
        ensures turns { result.turns ≡ 0 }
        ensures taken { result.taken ≡ 0 }
    {
        let start = range.start().unwrap_or(0);
        let end = range.end().unwrap_or(self.length);
        Zeroes::within(self.used_words(), start, end)
    }

    /// The runs of set positions, as start and end, in ascending order: a run has the positions
    /// from its start up to and without its end, and those before and after it are clear or past
    /// the ends of the set.
    ///
    /// It does not allocate. A run costs by its words, and not by its positions. Upstream has no
    /// such call.
    ///
    /// ```
    /// let mut set = FixedBitSet::with_capacity(alloc, 200)?;
    /// set.insert_range(60..130);
    /// set.insert(3);
    /// assert!(rt; set.runs().eq([(3, 4), (60, 130)]));
    /// ```
    #[inline]
    #[tactic(auto, using(crate::proofs::Stretches::runs_of, crate::proofs::Words::viewed_length))]
    pub fn runs(&self) -> Runs<'_>
        ensures items { result.items ≡ stretches.runs self.now }
        ensures low { result.low ≡ 0 }
        ensures high { result.high ≡ self.now.length }
        ensures steps { result.steps ≡ 0 }
    {
        Runs::below(self.used_words(), true, self.length)
    }

    /// The runs of positions below the length that are not set, as start and end, in ascending
    /// order.
    ///
    /// It does not allocate. A run costs by its words, and not by its positions. Upstream has no
    /// such call.
    ///
    /// ```
    /// let mut set = FixedBitSet::with_capacity(alloc, 200)?;
    /// set.insert_range(60..130);
    /// assert!(rt; set.zero_runs().eq([(0, 60), (130, 200)]));
    /// ```
    #[inline]
    #[tactic(auto, using(crate::proofs::Stretches::zero_runs_of, crate::proofs::Words::viewed_length))]
    pub fn zero_runs(&self) -> Runs<'_>
        ensures items { result.items ≡ stretches.zero_runs self.now }
        ensures low { result.low ≡ 0 }
        ensures high { result.high ≡ self.now.length }
        ensures steps { result.steps ≡ 0 }
    {
        Runs::below(self.used_words(), false, self.length)
    }
}
