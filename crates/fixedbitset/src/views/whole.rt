//! Two whole sets, of any two lengths.
//!
//! A change or a count takes exactly one step for each lane that both sets have, and one for each
//! that only one of them has, where these are cleared or counted. A comparison that returns `true`
//! takes exactly as many, and one that returns `false` exactly those up to the lane that decides.

ghost use Rattle.std.specs.Prelude.{◌≡◌, ◌≢◌, ℕ, ◌<◌, ◌≤◌, ◌+◌, ◌*◌, ◌/◌, ◌==◌};
ghost use Rattle.std.specs.Prelude.{IsTrue, IfSome, IfNone, length, max, min, true, false};
ghost use Rattle.std.specs.declared.cmp.Ordering.TheVariants.{Equal};
ghost use Rattle.bitlanes.specs.Words.{lane_steps};
ghost use Rattle.bitwords.specs.Neighbours.{IsNext};
ghost use Rattle.bitwords.specs.Rows.{bits_test};
ghost use Rattle.bitwords.specs.Steps.{join_steps, both_steps};
ghost use Rattle.fixedbitset.specs.Bits as model;
ghost use Rattle.fixedbitset.specs.Bits.{storage_words};
ghost use Rattle.fixedbitset.specs.Order as order;
ghost use Rattle.fixedbitset.specs.Stored.{joined, count_joined};
ghost use Rattle.fixedbitset.specs.TwoSets as sets;
ghost use Rattle.fixedbitset.specs.Views.{value, held, Becomes};

use crate::views::{Bits, BitsMut};
use bitlanes::Steps;
use bitlanes::lanes::LANE;
use bitlanes::ops::{And, AndNot, Or, WordOp, Xor};
use bitlanes::word::BITS;
use bitwords::joins;
use std::cmp::Ordering;

impl BitsMut<'_> {
    /// Leaves the positions of either set. The second may not be longer.
    ///
    /// ```
    /// let (mut words, mut other) = ([9, 0, 0, 0], [3, 0, 0, 0]);
    /// let mut set = BitsMut::settle(&mut words, 70, 70);
    /// let other = BitsMut::settle(&mut other, 9, 9);
    /// set.union_with(other.as_bits(), &mut Steps::new());
    /// assert_eq!(rt; words, [11, 0, 0, 0]);
    /// ```
    #[inline(always)]
    #[tactic(auto, using(crate::proofs::Words::of_length, crate::proofs::JoinedValues::union_longer))]
    pub fn union_with(&mut self, other: Bits<'_>, steps: &mut Steps)
        requires shorter { other.length ≤ self.old.length }
        ensures value { Becomes self.old self.new
            (sets.union (held self.old) (value other.entry)) }
        ensures cost { steps.new ≡ steps.old + lane_steps (storage_words other.entry.length) }
    {
        self.join::<Or>(other, steps);
    }

    /// Leaves the positions of exactly one of the sets. The second may not be longer.
    ///
    /// ```
    /// let (mut words, mut other) = ([9, 0, 0, 0], [3, 0, 0, 0]);
    /// let mut set = BitsMut::settle(&mut words, 70, 70);
    /// let other = BitsMut::settle(&mut other, 9, 9);
    /// set.symmetric_difference_with(other.as_bits(), &mut Steps::new());
    /// assert_eq!(rt; words, [10, 0, 0, 0]);
    /// ```
    #[inline(always)]
    #[tactic(auto, using(crate::proofs::Words::of_length, crate::proofs::JoinedValues::symmetric_difference_longer))]
    pub fn symmetric_difference_with(&mut self, other: Bits<'_>, steps: &mut Steps)
        requires shorter { other.length ≤ self.old.length }
        ensures value { Becomes self.old self.new
            (sets.symmetric_difference (held self.old) (value other.entry)) }
        ensures cost { steps.new ≡ steps.old + lane_steps (storage_words other.entry.length) }
    {
        self.join::<Xor>(other, steps);
    }

    /// Leaves the positions of both sets, and the length.
    ///
    /// ```
    /// let (mut words, mut other) = ([9, 1, 0, 0], [3, 0, 0, 0]);
    /// let mut set = BitsMut::settle(&mut words, 70, 70);
    /// let other = BitsMut::settle(&mut other, 9, 9);
    /// set.intersect_with(other.as_bits(), &mut Steps::new());
    /// assert_eq!(rt; words, [1, 0, 0, 0]);
    /// ```
    #[inline(always)]
    #[tactic(auto, using(crate::proofs::JoinedValues::intersection_joined))]
    pub fn intersect_with(&mut self, other: Bits<'_>, steps: &mut Steps)
        ensures value { Becomes self.old self.new
            (sets.intersection (held self.old) (value other.entry)) }
        ensures cost { steps.new ≡ steps.old + join_steps false
            (storage_words self.old.length) (storage_words other.entry.length) }
    {
        self.join::<And>(other, steps);
    }

    /// Leaves the positions of the first set that the second lacks, and the length.
    ///
    /// ```
    /// let (mut words, mut other) = ([9, 1, 0, 0], [3, 0, 0, 0]);
    /// let mut set = BitsMut::settle(&mut words, 70, 70);
    /// let other = BitsMut::settle(&mut other, 9, 9);
    /// set.difference_with(other.as_bits(), &mut Steps::new());
    /// assert_eq!(rt; words, [8, 1, 0, 0]);
    /// ```
    #[inline(always)]
    #[tactic(auto, using(crate::proofs::JoinedValues::difference_joined))]
    pub fn difference_with(&mut self, other: Bits<'_>, steps: &mut Steps)
        ensures value { Becomes self.old self.new
            (sets.difference (held self.old) (value other.entry)) }
        ensures cost { steps.new ≡ steps.old + join_steps true
            (storage_words self.old.length) (storage_words other.entry.length) }
    {
        self.join::<AndNot>(other, steps);
    }

    // Joins the second set to the first.
    #[inline(always)]
    pub(crate) fn join<O: WordOp>(&mut self, other: Bits<'_>, steps: &mut Steps)
        requires shorter { O.TAKE ≡ true → other.length ≤ self.old.length }
        ensures value { Becomes self.old self.new
            (joined O.truth (held self.old) (value other.entry)) }
        ensures cost { steps.new ≡ steps.old + join_steps O.KEEP
            (storage_words self.old.length) (storage_words other.entry.length) }
    {
        joins::join::<O>(self.words, other.words, steps);
    }
}

impl Bits<'_> {
    /// How many positions are in either set.
    ///
    /// ```
    /// let (mut words, mut other) = ([9, 1, 0, 0], [3, 0, 0, 0]);
    /// let set = BitsMut::settle(&mut words, 70, 70);
    /// let other = BitsMut::settle(&mut other, 9, 9);
    /// assert_eq!(rt; set.as_bits().union_count(other.as_bits(), &mut Steps::new()), 4);
    /// ```
    #[inline(always)]
    #[tactic(auto, using(crate::proofs::JoinedCounts::union_count_of))]
    pub fn union_count(self, other: Bits<'_>, steps: &mut Steps) -> usize
        ensures count { result ≡ sets.union_count (value self.entry) (value other.entry) }
        ensures cost { steps.new ≡ steps.old + both_steps true true
            (storage_words self.entry.length) (storage_words other.entry.length) }
    {
        self.count::<Or>(other, steps)
    }

    /// How many positions are in both sets.
    ///
    /// ```
    /// let (mut words, mut other) = ([9, 1, 0, 0], [3, 0, 0, 0]);
    /// let set = BitsMut::settle(&mut words, 70, 70);
    /// let other = BitsMut::settle(&mut other, 9, 9);
    /// assert_eq!(rt; set.as_bits().intersection_count(other.as_bits(), &mut Steps::new()), 1);
    /// ```
    #[inline(always)]
    #[tactic(auto, using(crate::proofs::JoinedCounts::intersection_count_of))]
    pub fn intersection_count(self, other: Bits<'_>, steps: &mut Steps) -> usize
        ensures count { result ≡ sets.intersection_count (value self.entry) (value other.entry) }
        ensures cost { steps.new ≡ steps.old + both_steps false false
            (storage_words self.entry.length) (storage_words other.entry.length) }
    {
        self.count::<And>(other, steps)
    }

    /// How many positions of the first set the second lacks.
    ///
    /// ```
    /// let (mut words, mut other) = ([9, 1, 0, 0], [3, 0, 0, 0]);
    /// let set = BitsMut::settle(&mut words, 70, 70);
    /// let other = BitsMut::settle(&mut other, 9, 9);
    /// assert_eq!(rt; set.as_bits().difference_count(other.as_bits(), &mut Steps::new()), 2);
    /// ```
    #[inline(always)]
    #[tactic(auto, using(crate::proofs::JoinedCounts::difference_count_of))]
    pub fn difference_count(self, other: Bits<'_>, steps: &mut Steps) -> usize
        ensures count { result ≡ sets.difference_count (value self.entry) (value other.entry) }
        ensures cost { steps.new ≡ steps.old + both_steps true false
            (storage_words self.entry.length) (storage_words other.entry.length) }
    {
        self.count::<AndNot>(other, steps)
    }

    /// How many positions are in exactly one of the sets.
    ///
    /// ```
    /// let (mut words, mut other) = ([9, 1, 0, 0], [3, 0, 0, 0]);
    /// let set = BitsMut::settle(&mut words, 70, 70);
    /// let other = BitsMut::settle(&mut other, 9, 9);
    /// let count = set.as_bits().symmetric_difference_count(other.as_bits(), &mut Steps::new());
    /// assert_eq!(rt; count, 3);
    /// ```
    #[inline(always)]
    #[tactic(auto, using(crate::proofs::JoinedCounts::symmetric_difference_count_of))]
    pub fn symmetric_difference_count(self, other: Bits<'_>, steps: &mut Steps) -> usize
        ensures count { result
            ≡ sets.symmetric_difference_count (value self.entry) (value other.entry) }
        ensures cost { steps.new ≡ steps.old + both_steps true true
            (storage_words self.entry.length) (storage_words other.entry.length) }
    {
        self.count::<Xor>(other, steps)
    }

    /// Whether no position is in both sets.
    ///
    /// ```
    /// let (mut words, mut other) = ([9, 1, 0, 0], [6, 0, 0, 0]);
    /// let set = BitsMut::settle(&mut words, 70, 70);
    /// let other = BitsMut::settle(&mut other, 9, 9);
    /// assert!(rt; set.as_bits().is_disjoint(other.as_bits(), &mut Steps::new()));
    /// ```
    #[inline(always)]
    #[tactic(auto, using(crate::proofs::JoinedCounts::disjoint_of))]
    pub fn is_disjoint(self, other: Bits<'_>, steps: &mut Steps) -> bool
        ensures answer { result ≡ sets.is_disjoint (value self.entry) (value other.entry) }
        ensures cost { steps.new ≤ steps.old + both_steps false false
            (storage_words self.entry.length) (storage_words other.entry.length) }
        ensures exact_if_true { IsTrue result → steps.new ≡ steps.old + both_steps false false
            (storage_words self.entry.length) (storage_words other.entry.length) }
        ensures exact_if_stopped { IfSome
            (model.minimum (sets.intersection (value self.entry) (value other.entry)))
            (λ p. steps.new ≡ steps.old + lane_steps (p / 64 + 1)) }
        ensures stops { result ≡ false → steps.old < steps.new }
    {
        self.none::<And>(other, steps)
    }

    /// Whether each position of the first set is one of the second.
    ///
    /// ```
    /// let (mut words, mut other) = ([9, 0, 0, 0], [11, 0, 0, 0]);
    /// let set = BitsMut::settle(&mut words, 70, 70);
    /// let other = BitsMut::settle(&mut other, 9, 9);
    /// assert!(rt; set.as_bits().is_subset(other.as_bits(), &mut Steps::new()));
    /// ```
    #[inline(always)]
    #[tactic(auto, using(crate::proofs::JoinedCounts::subset_of))]
    pub fn is_subset(self, other: Bits<'_>, steps: &mut Steps) -> bool
        ensures answer { result ≡ sets.is_subset (value self.entry) (value other.entry) }
        ensures cost { steps.new ≤ steps.old + both_steps true false
            (storage_words self.entry.length) (storage_words other.entry.length) }
        ensures exact_if_true { IsTrue result → steps.new ≡ steps.old + both_steps true false
            (storage_words self.entry.length) (storage_words other.entry.length) }
        ensures exact_if_stopped { IfSome
            (model.minimum (sets.difference (value self.entry) (value other.entry)))
            (λ p. steps.new ≡ steps.old
            + both_steps true false (p / 64 + 1) (storage_words other.entry.length)) }
        ensures stops { result ≡ false → steps.old < steps.new }
    {
        self.none::<AndNot>(other, steps)
    }

    /// Whether each position of the second set is one of the first.
    ///
    /// ```
    /// let (mut words, mut other) = ([11, 0, 0, 0], [9, 0, 0, 0]);
    /// let set = BitsMut::settle(&mut words, 9, 9);
    /// let other = BitsMut::settle(&mut other, 70, 70);
    /// assert!(rt; set.as_bits().is_superset(other.as_bits(), &mut Steps::new()));
    /// ```
    #[inline(always)]
    pub fn is_superset(self, other: Bits<'_>, steps: &mut Steps) -> bool
        ensures answer { result ≡ sets.is_subset (value other.entry) (value self.entry) }
        ensures cost { steps.new ≤ steps.old + both_steps true false
            (storage_words other.entry.length) (storage_words self.entry.length) }
        ensures exact_if_true { IsTrue result → steps.new ≡ steps.old + both_steps true false
            (storage_words other.entry.length) (storage_words self.entry.length) }
        ensures exact_if_stopped { IfSome
            (model.minimum (sets.difference (value other.entry) (value self.entry)))
            (λ p. steps.new ≡ steps.old
            + both_steps true false (p / 64 + 1) (storage_words self.entry.length)) }
        ensures stops { result ≡ false → steps.old < steps.new }
    {
        other.is_subset(self, steps)
    }

    /// The least position of the second set that the first lacks, or `None` where it lacks none.
    ///
    /// It takes exactly the steps up to the lane of the position, or all where there is none.
    ///
    /// ```
    /// let (mut words, mut other) = ([9, 0, 0, 0], [11, 1, 0, 0]);
    /// let set = BitsMut::settle(&mut words, 9, 9);
    /// let other = BitsMut::settle(&mut other, 70, 70);
    /// let lacking = set.as_bits().first_lacking(other.as_bits(), &mut Steps::new());
    /// assert_eq!(rt; lacking, Some(1));
    /// ```
    #[inline(always)]
    #[tactic(auto, using(crate::proofs::Lacking::first_left))]
    pub fn first_lacking(self, other: Bits<'_>, steps: &mut Steps) -> Option<usize>
        ensures first { result
            ≡ model.minimum (sets.difference (value other.entry) (value self.entry)) }
        ensures bound { steps.new ≤ steps.old + both_steps true false
            (storage_words other.entry.length) (storage_words self.entry.length) }
        ensures cost { IfSome result (λ p. steps.new ≡ steps.old
            + both_steps true false (p / 64 + 1) (storage_words self.entry.length)) }
        ensures exact_if_none { IfNone result (steps.new ≡ steps.old + both_steps true false
            (storage_words other.entry.length) (storage_words self.entry.length)) }
    {
        joins::first_of_difference(other.words, self.words, steps)
    }

    /// Whether the lengths and the positions are equal. It takes no step where the lengths differ.
    ///
    /// ```
    /// let (mut words, mut other) = ([9, 0, 0, 0], [9, 0, 0, 0]);
    /// let set = BitsMut::settle(&mut words, 70, 70);
    /// let other = BitsMut::settle(&mut other, 9, 9);
    /// assert!(rt; !set.as_bits().is_equal(other.as_bits(), &mut Steps::new()));
    /// ```
    #[inline(always)]
    pub fn is_equal(self, other: Bits<'_>, steps: &mut Steps) -> bool
        ensures answer { result ≡ order.equal (value self.entry) (value other.entry) }
        ensures cost { steps.new ≤ steps.old + lane_steps (storage_words self.entry.length) }
        ensures exact_if_true { IsTrue result
            → steps.new ≡ steps.old + lane_steps (storage_words self.entry.length) }
        ensures exact_if_stopped { IfSome
            (model.minimum (sets.symmetric_difference (value self.entry) (value other.entry)))
            (λ p. self.entry.length ≡ other.entry.length
            → steps.new ≡ steps.old + lane_steps (p / 64 + 1)) }
        ensures unlike { self.entry.length ≢ other.entry.length → steps.new ≡ steps.old }
        ensures stops { result ≡ false → self.entry.length ≡ other.entry.length
            → steps.old < steps.new }
    {
        self.length == other.length && self.none::<Xor>(other, steps)
    }

    /// Which of the sets comes first, in the order of `FixedBitSet`.
    ///
    /// It counts a step for each lane where the lengths are alike, and none where they differ: std
    /// compares the words, and may stop before all that are counted.
    ///
    /// ```
    /// let (mut words, mut other) = ([9, 0, 0, 0], [11, 0, 0, 0]);
    /// let set = BitsMut::settle(&mut words, 70, 70);
    /// let other = BitsMut::settle(&mut other, 9, 9);
    /// let order = set.as_bits().compare(other.as_bits(), &mut Steps::new());
    /// assert_eq!(rt; order, Ordering::Greater);
    /// ```
    #[inline(always)]
    #[tactic(auto, using(crate::proofs::Words::of_length), unfolding(crate::specs::Order::compare, crate::specs::Order::key))]
    pub fn compare(self, other: Bits<'_>, steps: &mut Steps) -> Ordering
        ensures value { result ≡ order.compare (value self.entry) (value other.entry) }
        ensures cost { steps.new ≤ steps.old + lane_steps (storage_words self.entry.length) }
        ensures exact_if_equal { result ≡ Equal
            → steps.new ≡ steps.old + lane_steps (storage_words self.entry.length) }
        ensures like { self.entry.length ≡ other.entry.length
            → steps.new ≡ steps.old + lane_steps (storage_words self.entry.length) }
        ensures unlike { self.entry.length ≢ other.entry.length → steps.new ≡ steps.old }
    {
        match self.length.cmp(&other.length) {
            Ordering::Equal => {
                steps.tick_lanes(self.words.len());
                self.as_slice().cmp(other.as_slice())
            }
            unequal => unequal,
        }
    }

    // How many positions of either set pass the operation's truth function.
    #[inline(always)]
    fn count<O: WordOp>(self, other: Bits<'_>, steps: &mut Steps) -> usize
        ensures count { result ≡ count_joined O.truth (value self.entry) (value other.entry) }
        ensures cost { steps.new ≡ steps.old + both_steps O.KEEP O.TAKE
            (storage_words self.entry.length) (storage_words other.entry.length) }
    {
        joins::count::<O>(self.words, other.words, steps)
    }

    // The same, where sets of one lane are counted by the words that the longer length needs.
    // Compiled by the kit for AVX2, the four words of a lane become one vector, which takes
    // longer than two words.
    #[inline(always)]
    pub(crate) fn count_used<O: WordOp>(self, other: Bits<'_>, steps: &mut Steps) -> usize
        ensures count { result ≡ count_joined O.truth (value self.entry) (value other.entry) }
        ensures cost { steps.new ≡ steps.old + both_steps O.KEEP O.TAKE
            (storage_words self.entry.length) (storage_words other.entry.length) }
    {
        if self.words.len() == LANE && other.words.len() == LANE {
            let used = self.length.max(other.length).div_ceil(BITS).min(LANE);
            return joins::count::<O>(&self.words[..used], &other.words[..used], steps);
        }
        self.count::<O>(other, steps)
    }

    // Whether no position of either set passes the operation's truth function.
    #[inline(always)]
    fn none<O: WordOp>(self, other: Bits<'_>, steps: &mut Steps) -> bool
        ensures none { result
            ≡ (count_joined O.truth (value self.entry) (value other.entry) == 0) }
        ensures cost { steps.new ≤ steps.old + both_steps O.KEEP O.TAKE
            (storage_words self.entry.length) (storage_words other.entry.length) }
        ensures exact_if_true { IsTrue result → steps.new ≡ steps.old + both_steps O.KEEP O.TAKE
            (storage_words self.entry.length) (storage_words other.entry.length) }
        ensures exact_if_stopped { (p : ℕ)
            → IsNext (bits_test O.truth self.entry.words.now other.entry.words.now) 0
            (64 * max (length self.entry.words.now) (length other.entry.words.now)) p
            → steps.new ≡ steps.old + both_steps O.KEEP O.TAKE
            (min (p / 64 + 1) (storage_words self.entry.length))
            (min (p / 64 + 1) (storage_words other.entry.length)) }
        ensures stops { result ≡ false → steps.old < steps.new }
    {
        joins::none::<O>(self.words, other.words, steps)
    }
}
