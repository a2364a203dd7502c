//! Iterators over the positions of a set that another one has, or lacks. Their calls are those of
//! `walks`.
//!
//! The positions of a word are looked up in the other set at once, when the iterator takes the
//! word. So a call costs by the words that it takes and the positions that it gives. The
//! intersection goes over the words that both lengths need, and the difference over those that the
//! first one needs.

ghost use Rattle.std.specs.Prelude.{◌≡◌, false, length, min};
ghost use Rattle.std.specs.Iterator.{YieldsFirst, YieldsLast};
ghost use Rattle.bits_c.specs.Walks.{given, sieved, shared_left, lacked_left, words_between};
ghost use Rattle.fixedbitset.specs.Bits as model;
ghost use Rattle.fixedbitset.specs.TwoSets as sets;
ghost use Rattle.fixedbitset.specs.Views.{value};

use crate::structs::{Ones, Sieve};
use crate::walks::hand_out;
use bitlanes::ops::{And, AndNot, WordOp};
use bitwords::cursors::{Beside, Cursor, Held};
use fixedbitset::views::Bits;

impl<'a> Sieve<'a> {
    // The iterator over the positions of the first set that the second lacks, before its first
    // call.
    #[inline(always)]
    pub(crate) fn lacking(set: &Bits<'a>, other: &Bits<'a>) -> Sieve<'a>
        ensures left { lacked_left result
            ≡ model.asc (sets.difference (value set.now) (value other.now)) }
        ensures words { length result.walk.words.now ≡ words_between set.now.length }
    {
        let cursor = set.difference(*other);
        Sieve::of(cursor)
    }

    #[inline(always)]
    pub(crate) fn of<O: WordOp>(cursor: Cursor<Beside<'a, O>>) -> Sieve<'a>
        ensures left { sieved O.joined result ≡ cursor.entry.items }
        ensures words { length result.walk.words.now ≡ length cursor.entry.words }
    {
        let held = cursor.into_held();
        Sieve {
            walk: Ones {
                front: held.front,
                back: held.back,
                front_at: held.front_at,
                back_at: held.back_at,
                words: held.middle.plain.words.as_slice(),
            },
            other: held.middle.other,
        }
    }

    #[inline(always)]
    pub(crate) fn cursor<O: WordOp>(&self) -> Cursor<Beside<'a, O>>
        ensures { result.items ≡ sieved O.joined self.now }
    {
        Cursor::of_held(Held {
            front: self.walk.front,
            back: self.walk.back,
            front_at: self.walk.front_at,
            back_at: self.walk.back_at,
            middle: Beside::of(self.walk.words, self.other),
        })
    }

    // The first position left that passes.
    #[inline(always)]
    pub(crate) fn take_first<O: WordOp>(&mut self) -> Option<usize>
        ensures { YieldsFirst (sieved O.joined) self.old result self.new }
    {
        let mut cursor = self.cursor::<O>();
        let item = cursor.next();
        *self = Sieve::of(cursor);
        item
    }

    // The last position left that passes.
    #[inline(always)]
    pub(crate) fn take_last<O: WordOp>(&mut self) -> Option<usize>
        ensures { YieldsLast (sieved O.joined) self.old result self.new }
    {
        let mut cursor = self.cursor::<O>();
        let item = cursor.next_back();
        *self = Sieve::of(cursor);
        item
    }
}

/// Initializes the iterator over the positions that are in both sets, in ascending order.
#[unsafe(no_mangle)]
pub extern "C" fn bits_intersection<'a>(walk: &mut Sieve<'a>, set: &Bits<'a>, other: &Bits<'a>)
    ensures left { shared_left walk.new
        ≡ model.asc (sets.intersection (value set.now) (value other.now)) }
    ensures words { length walk.new.walk.words.now
        ≡ words_between (min set.now.length other.now.length) }
{
    *walk = Sieve::of(set.intersection(*other));
}

/// Writes the first position that is left to `position`, and returns whether there was one.
#[tactic(auto, using(crate::proofs::Given::first_given))]
#[unsafe(no_mangle)]
pub extern "C" fn bits_intersection_next(walk: &mut Sieve<'_>, position: &mut usize) -> bool
    ensures gives { YieldsFirst shared_left walk.old (given result position.new) walk.new }
    ensures stays { result ≡ false → position.new ≡ position.old }
{
    hand_out(walk.take_first::<And>(), position)
}

/// Writes the last position that is left to `position`, and returns whether there was one.
#[tactic(auto, using(crate::proofs::Given::last_given))]
#[unsafe(no_mangle)]
pub extern "C" fn bits_intersection_next_back(walk: &mut Sieve<'_>, position: &mut usize) -> bool
    ensures gives { YieldsLast shared_left walk.old (given result position.new) walk.new }
    ensures stays { result ≡ false → position.new ≡ position.old }
{
    hand_out(walk.take_last::<And>(), position)
}

/// Initializes the iterator over the positions of the first set that the second lacks, in ascending
/// order.
#[unsafe(no_mangle)]
pub extern "C" fn bits_difference<'a>(walk: &mut Sieve<'a>, set: &Bits<'a>, other: &Bits<'a>)
    ensures left { lacked_left walk.new
        ≡ model.asc (sets.difference (value set.now) (value other.now)) }
    ensures words { length walk.new.walk.words.now ≡ words_between set.now.length }
{
    *walk = Sieve::lacking(set, other);
}

/// Writes the first position that is left to `position`, and returns whether there was one.
#[tactic(auto, using(crate::proofs::Given::first_given))]
#[unsafe(no_mangle)]
pub extern "C" fn bits_difference_next(walk: &mut Sieve<'_>, position: &mut usize) -> bool
    ensures gives { YieldsFirst lacked_left walk.old (given result position.new) walk.new }
    ensures stays { result ≡ false → position.new ≡ position.old }
{
    hand_out(walk.take_first::<AndNot>(), position)
}

/// Writes the last position that is left to `position`, and returns whether there was one.
#[tactic(auto, using(crate::proofs::Given::last_given))]
#[unsafe(no_mangle)]
pub extern "C" fn bits_difference_next_back(walk: &mut Sieve<'_>, position: &mut usize) -> bool
    ensures gives { YieldsLast lacked_left walk.old (given result position.new) walk.new }
    ensures stays { result ≡ false → position.new ≡ position.old }
{
    hand_out(walk.take_last::<AndNot>(), position)
}
