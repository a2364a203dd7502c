//! Iterators over the positions of two sets in turn: from the front those of the first before those
//! of the second, and from the back those of the second before those of the first. Their calls are
//! those of `walks`.

ghost use Rattle.std.specs.Prelude.{◌≡◌, ◌++◌, [], false, length};
ghost use Rattle.std.specs.Iterator.{YieldsFirst, YieldsLast};
ghost use Rattle.bits_c.specs.Walks.{given, joined_left, lacked_left, split_left, words_between};
ghost use Rattle.fixedbitset.specs.Bits as model;
ghost use Rattle.fixedbitset.specs.TwoSets as sets;
ghost use Rattle.fixedbitset.specs.Views.{value};

use crate::structs::{Ones, Pair, Sieve};
use crate::walks::hand_out;
use bitlanes::ops::AndNot;
use bitlanes::word::BITS;
use fixedbitset::views::Bits;

impl<'a> Pair<'a> {
    // The first position of the second iterator. The other bits of its word become the first
    // iterator: so the next calls find them without a look at an iterator that has none left.
    #[inline(always)]
    fn take_first_of_second(&mut self) -> Option<usize>
        ensures joined { YieldsFirst (λ all. all)
            (lacked_left self.old.second) result (joined_left self.new) }
        ensures split { YieldsFirst (λ all. all)
            (lacked_left self.old.second) result (split_left self.new) }
    {
        let item = self.second.take_first::<AndNot>();
        let second = &mut self.second.walk;
        self.first.walk = Ones {
            front: second.front,
            back: 0,
            front_at: second.front_at,
            back_at: second.front_at,
            words: &[],
        };
        second.front = 0;
        item
    }

    // The last word of the first iterator becomes the second one, which has none left: so the next
    // calls from the back find its bits without a look at that.
    #[inline(always)]
    fn bring_last_word(&mut self)
        requires { lacked_left self.old.second ≡ [] }
        ensures joined { joined_left self.new ≡ joined_left self.old }
        ensures split { split_left self.new ≡ split_left self.old }
        ensures brought { self.new.first.walk.back ≡ 0 }
    {
        let first = &mut self.first.walk;
        if first.back == 0 {
            return;
        }
        self.second.walk = Ones {
            front: 0,
            back: first.back,
            front_at: first.back_at - BITS,
            back_at: first.back_at,
            words: &[],
        };
        first.back = 0;
    }
}

/// Initializes the iterator over the positions of the first set, ascending, and then the positions
/// that only the second set has, ascending.
#[unsafe(no_mangle)]
pub extern "C" fn bits_union<'a>(walk: &mut Pair<'a>, set: &Bits<'a>, other: &Bits<'a>)
    ensures left { joined_left walk.new ≡ model.asc (value set.now)
        ++ model.asc (sets.difference (value other.now) (value set.now)) }
    ensures words { length walk.new.first.walk.words.now ≡ words_between set.now.length }
    ensures others { length walk.new.second.walk.words.now ≡ words_between other.now.length }
{
    *walk = Pair {
        first: Sieve {
            walk: Ones::of(set.ones()),
            other: other.words,
        },
        second: Sieve::lacking(other, set),
    };
}

/// Writes the first position that is left to `position`, and returns whether there was one.
#[tactic(auto, using(crate::proofs::Given::first_given))]
#[unsafe(no_mangle)]
pub extern "C" fn bits_union_next(walk: &mut Pair<'_>, position: &mut usize) -> bool
    ensures gives { YieldsFirst joined_left walk.old (given result position.new) walk.new }
    ensures stays { result ≡ false → position.new ≡ position.old }
{
    let item = match walk.first.walk.take_first() {
        Some(found) => Some(found),
        None => walk.take_first_of_second(),
    };
    hand_out(item, position)
}

/// Writes the last position that is left to `position`, and returns whether there was one.
#[tactic(auto, using(crate::proofs::Given::last_given))]
#[unsafe(no_mangle)]
pub extern "C" fn bits_union_next_back(walk: &mut Pair<'_>, position: &mut usize) -> bool
    ensures gives { YieldsLast joined_left walk.old (given result position.new) walk.new }
    ensures stays { result ≡ false → position.new ≡ position.old }
{
    let item = match walk.second.take_last::<AndNot>() {
        Some(found) => Some(found),
        None => {
            let last = walk.first.walk.take_last();
            walk.bring_last_word();
            last
        }
    };
    hand_out(item, position)
}

/// Initializes the iterator over the positions that only the first set has, ascending, and then the
/// positions that only the second set has, ascending.
#[unsafe(no_mangle)]
pub extern "C" fn bits_symmetric_difference<'a>(
    walk: &mut Pair<'a>,
    set: &Bits<'a>,
    other: &Bits<'a>,
)
    ensures left { split_left walk.new
        ≡ model.asc (sets.difference (value set.now) (value other.now))
        ++ model.asc (sets.difference (value other.now) (value set.now)) }
    ensures words { length walk.new.first.walk.words.now ≡ words_between set.now.length }
    ensures others { length walk.new.second.walk.words.now ≡ words_between other.now.length }
{
    *walk = Pair {
        first: Sieve::lacking(set, other),
        second: Sieve::lacking(other, set),
    };
}

/// Writes the first position that is left to `position`, and returns whether there was one.
#[tactic(auto, using(crate::proofs::Given::first_given))]
#[unsafe(no_mangle)]
pub extern "C" fn bits_symmetric_difference_next(walk: &mut Pair<'_>, position: &mut usize) -> bool
    ensures gives { YieldsFirst split_left walk.old (given result position.new) walk.new }
    ensures stays { result ≡ false → position.new ≡ position.old }
{
    let item = match walk.first.take_first::<AndNot>() {
        Some(found) => Some(found),
        None => walk.take_first_of_second(),
    };
    hand_out(item, position)
}

/// Writes the last position that is left to `position`, and returns whether there was one.
#[tactic(auto, using(crate::proofs::Given::last_given))]
#[unsafe(no_mangle)]
pub extern "C" fn bits_symmetric_difference_next_back(
    walk: &mut Pair<'_>,
    position: &mut usize,
) -> bool
    ensures gives { YieldsLast split_left walk.old (given result position.new) walk.new }
    ensures stays { result ≡ false → position.new ≡ position.old }
{
    let item = match walk.second.take_last::<AndNot>() {
        Some(found) => Some(found),
        None => {
            let last = walk.first.take_last::<AndNot>();
            walk.bring_last_word();
            last
        }
    };
    hand_out(item, position)
}
