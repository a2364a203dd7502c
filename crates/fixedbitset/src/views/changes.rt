//! Two whole sets joined, which also returns whether a position of the first one changed. Each
//! takes the steps of the call without the result.

ghost use Rattle.std.specs.Prelude.{◌≡◌, ◌≤◌, ◌+◌, ◌==◌, ◌||◌, not, true, false};
ghost use Rattle.bitlanes.specs.Changes.{changes};
ghost use Rattle.bitlanes.specs.Words.{lane_steps};
ghost use Rattle.bitwords.specs.Steps.{join_steps};
ghost use Rattle.fixedbitset.specs.Bits.{is_clear, storage_words, words_needed};
ghost use Rattle.fixedbitset.specs.Stored.{joined, count_joined};
ghost use Rattle.fixedbitset.specs.TwoSets as sets;
ghost use Rattle.fixedbitset.specs.Views.{value, held, Becomes};

use crate::views::{Bits, BitsMut};
use bitlanes::Steps;
use bitlanes::ops::{And, AndNot, Or, WordOp, Xor};
use bitwords::joins;

impl BitsMut<'_> {
    /// [`union_with`](BitsMut::union_with), which also returns whether a position came in.
    ///
    /// ```
    /// let (mut words, mut other) = ([9, 0, 0, 0], [3, 0, 0, 0]);
    /// let mut set = BitsMut::settle(&mut words, 70, 70);
    /// let other = BitsMut::settle(&mut other, 9, 9);
    /// assert!(rt; set.union_with_change(other.as_bits(), &mut Steps::new()));
    /// assert!(rt; !set.union_with_change(other.as_bits(), &mut Steps::new()));
    /// ```
    #[inline(always)]
    #[tactic(auto, using(crate::proofs::Words::of_length, crate::proofs::JoinedValues::union_longer, crate::proofs::JoinedChanges::union_changes))]
    pub fn union_with_change(&mut self, other: Bits<'_>, steps: &mut Steps) -> bool
        requires shorter { other.length ≤ self.old.length }
        ensures value { Becomes self.old self.new
            (sets.union (held self.old) (value other.entry)) }
        ensures changed { result ≡ not (sets.is_subset (value other.entry) (held self.old)) }
        ensures cost { steps.new ≡ steps.old + lane_steps (storage_words other.entry.length) }
    {
        self.join_with_change::<Or>(other, steps)
    }

    /// [`symmetric_difference_with`](BitsMut::symmetric_difference_with), which also returns
    /// whether a position came in or went: whether the second set has one.
    ///
    /// ```
    /// let (mut words, mut other) = ([9, 0, 0, 0], [3, 0, 0, 0]);
    /// let mut set = BitsMut::settle(&mut words, 70, 70);
    /// let mut other = BitsMut::settle(&mut other, 9, 9);
    /// assert!(rt; set.symmetric_difference_with_change(other.as_bits(), &mut Steps::new()));
    /// other.clear(&mut Steps::new());
    /// assert!(rt; !set.symmetric_difference_with_change(other.as_bits(), &mut Steps::new()));
    /// ```
    #[inline(always)]
    #[tactic(auto, using(crate::proofs::Words::of_length, crate::proofs::JoinedValues::symmetric_difference_longer, crate::proofs::JoinedChanges::symmetric_difference_changes))]
    pub fn symmetric_difference_with_change(&mut self, other: Bits<'_>, steps: &mut Steps) -> bool
        requires shorter { other.length ≤ self.old.length }
        ensures value { Becomes self.old self.new
            (sets.symmetric_difference (held self.old) (value other.entry)) }
        ensures changed { result ≡ not (is_clear (value other.entry)) }
        ensures cost { steps.new ≡ steps.old + lane_steps (storage_words other.entry.length) }
    {
        self.join_with_change::<Xor>(other, steps)
    }

    /// [`intersect_with`](BitsMut::intersect_with), which also returns whether a position went.
    ///
    /// ```
    /// let (mut words, mut other) = ([9, 1, 0, 0], [3, 0, 0, 0]);
    /// let mut set = BitsMut::settle(&mut words, 70, 70);
    /// let other = BitsMut::settle(&mut other, 9, 9);
    /// assert!(rt; set.intersect_with_change(other.as_bits(), &mut Steps::new()));
    /// assert!(rt; !set.intersect_with_change(other.as_bits(), &mut Steps::new()));
    /// ```
    #[inline(always)]
    #[tactic(auto, using(crate::proofs::JoinedValues::intersection_joined, crate::proofs::JoinedChanges::intersection_changes))]
    pub fn intersect_with_change(&mut self, other: Bits<'_>, steps: &mut Steps) -> bool
        ensures value { Becomes self.old self.new
            (sets.intersection (held self.old) (value other.entry)) }
        ensures changed { result ≡ not (sets.is_subset (held self.old) (value other.entry)) }
        ensures cost { steps.new ≡ steps.old + join_steps false
            (storage_words self.old.length) (storage_words other.entry.length) }
    {
        self.join_with_change::<And>(other, steps)
    }

    /// [`difference_with`](BitsMut::difference_with), which also returns whether a position went.
    ///
    /// ```
    /// let (mut words, mut other) = ([9, 1, 0, 0], [3, 0, 0, 0]);
    /// let mut set = BitsMut::settle(&mut words, 70, 70);
    /// let other = BitsMut::settle(&mut other, 9, 9);
    /// assert!(rt; set.difference_with_change(other.as_bits(), &mut Steps::new()));
    /// assert!(rt; !set.difference_with_change(other.as_bits(), &mut Steps::new()));
    /// ```
    #[inline(always)]
    #[tactic(auto, using(crate::proofs::JoinedValues::difference_joined, crate::proofs::JoinedChanges::difference_changes))]
    pub fn difference_with_change(&mut self, other: Bits<'_>, steps: &mut Steps) -> bool
        ensures value { Becomes self.old self.new
            (sets.difference (held self.old) (value other.entry)) }
        ensures changed { result ≡ not (sets.is_disjoint (held self.old) (value other.entry)) }
        ensures cost { steps.new ≡ steps.old + join_steps true
            (storage_words self.old.length) (storage_words other.entry.length) }
    {
        self.join_with_change::<AndNot>(other, steps)
    }

    /// Takes in the positions of the second set that the third lacks, and returns whether one came
    /// in. The second may not be longer than the first.
    ///
    /// ```
    /// let (mut words, mut gens, mut kills) = ([1, 0, 0, 0], [7, 0, 0, 0], [4, 1, 0, 0]);
    /// let mut set = BitsMut::settle(&mut words, 9, 9);
    /// let (gens, kills) = (BitsMut::settle(&mut gens, 9, 9), BitsMut::settle(&mut kills, 70, 70));
    /// let (gens, kills) = (gens.as_bits(), kills.as_bits());
    /// assert!(rt; set.union_with_difference(gens, kills, &mut Steps::new()));
    /// assert!(rt; !set.union_with_difference(gens, kills, &mut Steps::new()));
    /// ```
    #[inline(always)]
    #[tactic(auto, using(crate::proofs::Words::of_length, crate::proofs::JoinedValues::union_longer, crate::proofs::JoinedChanges::union_changes, crate::proofs::JoinedValues::left_length))]
    pub fn union_with_difference(
        &mut self,
        gens: Bits<'_>,
        kills: Bits<'_>,
        steps: &mut Steps,
    ) -> bool
        requires shorter { gens.length ≤ self.old.length }
        ensures value { Becomes self.old self.new (sets.union (held self.old)
            (sets.difference (value gens.entry) (value kills.entry))) }
        ensures changed { result ≡ not (sets.is_subset
            (sets.difference (value gens.entry) (value kills.entry)) (held self.old)) }
        ensures cost { steps.new ≡ steps.old + lane_steps (words_needed gens.entry.length) }
    {
        self.join_difference(gens, kills, steps)
    }

    // Joins the second set, but for the positions of the third, to the first, and returns whether a
    // position changed.
    #[inline(always)]
    pub(crate) fn join_difference(
        &mut self,
        gens: Bits<'_>,
        kills: Bits<'_>,
        steps: &mut Steps,
    ) -> bool
        requires shorter { gens.length ≤ self.old.length }
        ensures value { Becomes self.old self.new (joined (λ x y. x || y) (held self.old)
            (sets.difference (value gens.entry) (value kills.entry))) }
        ensures changed { result ≡ not (count_joined (changes (λ x y. x || y)) (held self.old)
            (sets.difference (value gens.entry) (value kills.entry)) == 0) }
        ensures cost { steps.new ≡ steps.old + lane_steps (words_needed gens.entry.length) }
    {
        joins::union_with_difference(self.words, gens.words, kills.words, steps)
    }

    // Joins the second set to the first, and returns whether a position changed.
    #[inline(always)]
    pub(crate) fn join_with_change<O: WordOp>(&mut self, other: Bits<'_>, steps: &mut Steps) -> bool
        requires shorter { O.TAKE ≡ true → other.length ≤ self.old.length }
        ensures value { Becomes self.old self.new
            (joined O.truth (held self.old) (value other.entry)) }
        ensures changed { result ≡ not (count_joined (changes O.truth)
            (held self.old) (value other.entry) == 0) }
        ensures cost { steps.new ≡ steps.old + join_steps O.KEEP
            (storage_words self.old.length) (storage_words other.entry.length) }
    {
        joins::join_with_change::<O>(self.words, other.words, steps)
    }
}
