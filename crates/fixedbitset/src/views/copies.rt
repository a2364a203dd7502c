//! Sets written over words that stand for nothing yet: copies, and two sets joined. Each word is
//! written once, and there have to be as many words as a set of the length keeps.

ghost use Rattle.std.specs.Prelude.{◌≡◌, ◌≤◌, max, min, true, false};
ghost use Rattle.std.specs.Prelude as prelude;
ghost use Rattle.fixedbitset.specs.Bits.{of_words, storage_words};
ghost use Rattle.fixedbitset.specs.Parts as parts;
ghost use Rattle.fixedbitset.specs.Stored.{IsClean, joined};
ghost use Rattle.fixedbitset.specs.TwoSets as sets;
ghost use Rattle.fixedbitset.specs.Views.{value, Becomes};

use crate::views::{Bits, BitsMut};
use bitlanes::ops::{And, AndNot, Or, Second, WordOp, Xor};
use bitlanes::{Block, Steps};
use bitwords::{joins, positions};

impl Bits<'_> {
    /// Makes the words those of a set of `length` positions, with the positions of this set
    /// that are below the length.
    ///
    /// ```
    /// let (mut to, mut words) = ([7; 4], [9, 34, 0, 0]);
    /// let set = BitsMut::settle(&mut words, 70, 70);
    /// set.as_bits().copy_to(&mut to, 66);
    /// assert_eq!(rt; to, [9, 2, 0, 0]);
    /// ```
    #[inline]
    pub fn copy_to(self, to: &mut [Block], length: usize)
        requires { prelude.length to.old ≡ storage_words length }
        ensures value { of_words length to.new ≡ parts.resize (value self.entry) length false }
        ensures clean { IsClean length to.new }
    {
        joins::join::<Second>(to, self.words, &mut Steps::new());
        positions::clear_from(to, length);
    }

    /// Makes the words those of a set of the greater length, with the positions of either set.
    ///
    /// ```
    /// let (mut to, mut words, mut other) = ([7; 4], [9, 1, 0, 0], [3, 0, 0, 0]);
    /// let set = BitsMut::settle(&mut words, 70, 70);
    /// let other = BitsMut::settle(&mut other, 9, 9);
    /// set.as_bits().union_to(other.as_bits(), &mut to);
    /// assert_eq!(rt; to, [11, 1, 0, 0]);
    /// ```
    #[inline]
    #[tactic(auto, using(crate::proofs::Words::of_length, crate::proofs::JoinedValues::union_longer, crate::proofs::JoinedValues::union_shorter))]
    pub fn union_to(self, other: Bits<'_>, to: &mut [Block])
        requires { prelude.length to.old ≡ storage_words (max self.length other.length) }
        ensures value { of_words (max self.entry.length other.entry.length) to.new
            ≡ sets.union (value self.entry) (value other.entry) }
        ensures clean { IsClean (max self.entry.length other.entry.length) to.new }
    {
        if self.length < other.length {
            other.join_to::<Or>(self, to);
        } else {
            self.join_to::<Or>(other, to);
        }
    }

    /// Makes the words those of a set of the greater length, with the positions of
    /// exactly one of the sets.
    ///
    /// ```
    /// let (mut to, mut words, mut other) = ([7; 4], [9, 1, 0, 0], [3, 0, 0, 0]);
    /// let set = BitsMut::settle(&mut words, 70, 70);
    /// let other = BitsMut::settle(&mut other, 9, 9);
    /// set.as_bits().symmetric_difference_to(other.as_bits(), &mut to);
    /// assert_eq!(rt; to, [10, 1, 0, 0]);
    /// ```
    #[inline]
    #[tactic(auto, using(crate::proofs::Words::of_length, crate::proofs::JoinedValues::symmetric_difference_longer, crate::proofs::JoinedValues::symmetric_difference_shorter))]
    pub fn symmetric_difference_to(self, other: Bits<'_>, to: &mut [Block])
        requires { prelude.length to.old ≡ storage_words (max self.length other.length) }
        ensures value { of_words (max self.entry.length other.entry.length) to.new
            ≡ sets.symmetric_difference (value self.entry) (value other.entry) }
        ensures clean { IsClean (max self.entry.length other.entry.length) to.new }
    {
        if self.length < other.length {
            other.join_to::<Xor>(self, to);
        } else {
            self.join_to::<Xor>(other, to);
        }
    }

    /// Makes the words those of a set of the smaller length, with the positions of both sets.
    ///
    /// ```
    /// let (mut to, mut words, mut other) = ([7; 4], [9, 1, 0, 0], [3, 0, 0, 0]);
    /// let set = BitsMut::settle(&mut words, 70, 70);
    /// let other = BitsMut::settle(&mut other, 9, 9);
    /// set.as_bits().intersection_to(other.as_bits(), &mut to);
    /// assert_eq!(rt; to, [1, 0, 0, 0]);
    /// ```
    #[inline]
    #[tactic(auto, using(crate::proofs::Words::of_length, crate::proofs::JoinedValues::bitand_longer, crate::proofs::JoinedValues::bitand_shorter))]
    pub fn intersection_to(self, other: Bits<'_>, to: &mut [Block])
        requires { prelude.length to.old ≡ storage_words (min self.length other.length) }
        ensures value { of_words (min self.entry.length other.entry.length) to.new
            ≡ sets.bitand (value self.entry) (value other.entry) }
        ensures clean { IsClean (min self.entry.length other.entry.length) to.new }
    {
        if self.length > other.length {
            other.join_to::<And>(self, to);
        } else {
            self.join_to::<And>(other, to);
        }
    }

    /// Makes the words those of a set of this one's length, with its positions
    /// that the second lacks.
    ///
    /// ```
    /// let (mut to, mut words, mut other) = ([7; 4], [9, 1, 0, 0], [3, 0, 0, 0]);
    /// let set = BitsMut::settle(&mut words, 70, 70);
    /// let other = BitsMut::settle(&mut other, 9, 9);
    /// set.as_bits().difference_to(other.as_bits(), &mut to);
    /// assert_eq!(rt; to, [8, 1, 0, 0]);
    /// ```
    #[inline]
    #[tactic(auto, using(crate::proofs::Words::of_length, crate::proofs::JoinedValues::difference_joined))]
    pub fn difference_to(self, other: Bits<'_>, to: &mut [Block])
        requires { prelude.length to.old ≡ storage_words self.length }
        ensures value { of_words self.entry.length to.new
            ≡ sets.difference (value self.entry) (value other.entry) }
        ensures clean { IsClean self.entry.length to.new }
    {
        self.join_to::<AndNot>(other, to);
    }

    // Writes this set, joined with the second, over the words.
    #[inline(always)]
    fn join_to<O: WordOp>(self, other: Bits<'_>, to: &mut [Block])
        requires count { prelude.length to.old ≡ storage_words self.length }
        requires shorter { O.TAKE ≡ true → other.length ≤ self.length }
        ensures value { of_words self.entry.length to.new
            ≡ joined O.truth (value self.entry) (value other.entry) }
        ensures clean { IsClean self.entry.length to.new }
    {
        joins::join_to::<O>(to, self.words, other.words, &mut Steps::new());
    }
}

impl BitsMut<'_> {
    /// Makes this set the union of two others. Its length has to be the greater of theirs; which
    /// positions it had does not matter.
    ///
    /// ```
    /// let (mut to, mut words, mut other) = ([7; 4], [9, 1, 0, 0], [3, 0, 0, 0]);
    /// let set = BitsMut::settle(&mut words, 70, 70);
    /// let other = BitsMut::settle(&mut other, 9, 9);
    /// BitsMut::settle(&mut to, 70, 0).union_of(set.as_bits(), other.as_bits());
    /// assert_eq!(rt; to, [11, 1, 0, 0]);
    /// ```
    #[inline]
    pub fn union_of(&mut self, one: Bits<'_>, other: Bits<'_>)
        requires { self.old.length ≡ max one.length other.length }
        ensures { Becomes self.old self.new (sets.union (value one.entry) (value other.entry)) }
    {
        one.union_to(other, self.words);
    }

    /// Makes this set the positions of exactly one of two others. Its length has to be the greater
    /// of theirs.
    ///
    /// ```
    /// let (mut to, mut words, mut other) = ([7; 4], [9, 1, 0, 0], [3, 0, 0, 0]);
    /// let set = BitsMut::settle(&mut words, 70, 70);
    /// let other = BitsMut::settle(&mut other, 9, 9);
    /// BitsMut::settle(&mut to, 70, 0).symmetric_difference_of(set.as_bits(), other.as_bits());
    /// assert_eq!(rt; to, [10, 1, 0, 0]);
    /// ```
    #[inline]
    pub fn symmetric_difference_of(&mut self, one: Bits<'_>, other: Bits<'_>)
        requires { self.old.length ≡ max one.length other.length }
        ensures { Becomes self.old self.new
            (sets.symmetric_difference (value one.entry) (value other.entry)) }
    {
        one.symmetric_difference_to(other, self.words);
    }

    /// Makes this set the positions of both of two others. Its length has to be the lesser
    /// of theirs.
    ///
    /// ```
    /// let (mut to, mut words, mut other) = ([7; 4], [9, 1, 0, 0], [3, 0, 0, 0]);
    /// let set = BitsMut::settle(&mut words, 70, 70);
    /// let other = BitsMut::settle(&mut other, 9, 9);
    /// BitsMut::settle(&mut to, 9, 0).intersection_of(set.as_bits(), other.as_bits());
    /// assert_eq!(rt; to, [1, 0, 0, 0]);
    /// ```
    #[inline]
    pub fn intersection_of(&mut self, one: Bits<'_>, other: Bits<'_>)
        requires { self.old.length ≡ min one.length other.length }
        ensures { Becomes self.old self.new (sets.bitand (value one.entry) (value other.entry)) }
    {
        one.intersection_to(other, self.words);
    }

    /// Makes this set the positions of the first of two others that the second lacks. Its length
    /// has to be that of the first.
    ///
    /// ```
    /// let (mut to, mut words, mut other) = ([7; 4], [9, 1, 0, 0], [3, 0, 0, 0]);
    /// let set = BitsMut::settle(&mut words, 70, 70);
    /// let other = BitsMut::settle(&mut other, 9, 9);
    /// BitsMut::settle(&mut to, 70, 0).difference_of(set.as_bits(), other.as_bits());
    /// assert_eq!(rt; to, [8, 1, 0, 0]);
    /// ```
    #[inline]
    pub fn difference_of(&mut self, one: Bits<'_>, other: Bits<'_>)
        requires { self.old.length ≡ one.length }
        ensures { Becomes self.old self.new
            (sets.difference (value one.entry) (value other.entry)) }
    {
        one.difference_to(other, self.words);
    }
}
