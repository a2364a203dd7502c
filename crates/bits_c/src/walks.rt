//! Iterators over the positions of a set, kept in a struct of the caller's.
//!
//! One call initialises an iterator, and writes the whole struct whatever it held before. Each
//! further call gives one position, from either end, and returns whether it did: once none is left,
//! no call gives one. A call that gives none leaves what `position` points to. While an iterator is
//! used, the words that it iterates over may not change.
//!
//! An iterator goes over the words that the length needs, and over no words after them. It holds
//! the first and the last of them, and `words` are those between that no call has taken yet.

ghost use Rattle.std.specs.Prelude.{◌≡◌, [], false, if◌then◌else◌, length};
ghost use Rattle.std.specs.Iterator.{YieldsFirst, YieldsLast};
ghost use Rattle.bits_c.specs.Walks.{given, ones_left, zeroes_left};
ghost use Rattle.bits_c.specs.Walks.{words_between, range_words_between};
ghost use Rattle.fixedbitset.specs.Bits as model;
ghost use Rattle.fixedbitset.specs.Ranges.{is_valid};
ghost use Rattle.fixedbitset.specs.Walks.{ones_of, zeroes_of};
ghost use Rattle.fixedbitset.specs.Views.{value};

use crate::ranges::bits_range_is_valid;
use crate::structs::{Ones, Zeroes};
use bitwords::cursors::{Cursor, Held, Inverted, Plain};
use fixedbitset::views::Bits;

impl<'a> Ones<'a> {
    #[inline(always)]
    pub(crate) fn of(cursor: Cursor<Plain<'a>>) -> Ones<'a>
        ensures left { ones_left result ≡ cursor.entry.items }
        ensures words { result.words.now ≡ cursor.entry.words }
    {
        let held = cursor.into_held();
        Ones {
            front: held.front,
            back: held.back,
            front_at: held.front_at,
            back_at: held.back_at,
            words: held.middle.words.as_slice(),
        }
    }

    #[inline(always)]
    pub(crate) fn cursor(&self) -> Cursor<Plain<'a>>
        ensures { result.items ≡ ones_left self.now }
    {
        Cursor::of_held(Held {
            front: self.front,
            back: self.back,
            front_at: self.front_at,
            back_at: self.back_at,
            middle: Plain {
                words: self.words.iter(),
            },
        })
    }

    // The first position left.
    #[inline(always)]
    pub(crate) fn take_first(&mut self) -> Option<usize>
        ensures { YieldsFirst ones_left self.old result self.new }
    {
        let mut cursor = self.cursor();
        let item = cursor.next();
        *self = Ones::of(cursor);
        item
    }

    // The last position left.
    #[inline(always)]
    pub(crate) fn take_last(&mut self) -> Option<usize>
        ensures { YieldsLast ones_left self.old result self.new }
    {
        let mut cursor = self.cursor();
        let item = cursor.next_back();
        *self = Ones::of(cursor);
        item
    }
}

impl<'a> Zeroes<'a> {
    #[inline(always)]
    pub(crate) fn of(cursor: Cursor<Inverted<'a>>) -> Zeroes<'a>
        ensures left { zeroes_left result ≡ cursor.entry.items }
        ensures words { length result.words.now ≡ length cursor.entry.words }
    {
        let held = cursor.into_held();
        Zeroes {
            front: held.front,
            back: held.back,
            front_at: held.front_at,
            back_at: held.back_at,
            words: held.middle.plain.words.as_slice(),
        }
    }

    #[inline(always)]
    pub(crate) fn cursor(&self) -> Cursor<Inverted<'a>>
        ensures { result.items ≡ zeroes_left self.now }
    {
        let plain = Plain {
            words: self.words.iter(),
        };
        Cursor::of_held(Held {
            front: self.front,
            back: self.back,
            front_at: self.front_at,
            back_at: self.back_at,
            middle: Inverted { plain },
        })
    }
}

// Writes the item to `position`, and returns whether there is one.
#[inline(always)]
pub(crate) fn hand_out(item: Option<usize>, position: &mut usize) -> bool
    ensures given { given result position.new ≡ item }
    ensures stays { result ≡ false → position.new ≡ position.old }
{
    match item {
        Some(found) => {
            *position = found;
            true
        }
        None => false,
    }
}

/// Initializes the iterator over the positions that are set, in ascending order.
#[unsafe(no_mangle)]
pub extern "C" fn bits_ones<'a>(walk: &mut Ones<'a>, set: &Bits<'a>)
    ensures left { ones_left walk.new ≡ model.asc (value set.now) }
    ensures words { length walk.new.words.now ≡ words_between set.now.length }
{
    *walk = Ones::of(set.ones());
}

/// Writes the first position that is left to `position`, and returns whether there was one.
#[tactic(auto, using(crate::proofs::Given::first_given))]
#[unsafe(no_mangle)]
pub extern "C" fn bits_ones_next(walk: &mut Ones<'_>, position: &mut usize) -> bool
    ensures gives { YieldsFirst ones_left walk.old (given result position.new) walk.new }
    ensures stays { result ≡ false → position.new ≡ position.old }
{
    hand_out(walk.take_first(), position)
}

/// Writes the last position that is left to `position`, and returns whether there was one.
#[tactic(auto, using(crate::proofs::Given::last_given))]
#[unsafe(no_mangle)]
pub extern "C" fn bits_ones_next_back(walk: &mut Ones<'_>, position: &mut usize) -> bool
    ensures gives { YieldsLast ones_left walk.old (given result position.new) walk.new }
    ensures stays { result ≡ false → position.new ≡ position.old }
{
    hand_out(walk.take_last(), position)
}

/// Initializes the iterator over the positions from `start` up to but not including `end` that are
/// set, in ascending order, and returns `true`. Returns `false` if the range is not valid; the
/// iterator is then empty.
#[unsafe(no_mangle)]
pub extern "C" fn bits_ones_in<'a>(
    walk: &mut Ones<'a>,
    set: &Bits<'a>,
    start: usize,
    end: usize,
) -> bool
    ensures answer { result ≡ is_valid (value set.now) start end }
    ensures left { ones_left walk.new
        ≡ (if result then ones_of (value set.now) start end else []) }
    ensures words { length walk.new.words.now
        ≡ (if result then range_words_between start end else 0) }
{
    if bits_range_is_valid(set, start, end) {
        *walk = Ones::of(set.ones_in(start, end));
        true
    } else {
        *walk = Ones::of(Cursor::over(Plain { words: [].iter() }));
        false
    }
}

/// Initializes the iterator over the positions from `start` up to but not including `end` that are
/// not set, in ascending order, and returns `true`. Returns `false` if the range is not valid; the
/// iterator is then empty.
#[unsafe(no_mangle)]
pub extern "C" fn bits_zeroes_in<'a>(
    walk: &mut Zeroes<'a>,
    set: &Bits<'a>,
    start: usize,
    end: usize,
) -> bool
    ensures answer { result ≡ is_valid (value set.now) start end }
    ensures left { zeroes_left walk.new
        ≡ (if result then zeroes_of (value set.now) start end else []) }
    ensures words { length walk.new.words.now
        ≡ (if result then range_words_between start end else 0) }
{
    if bits_range_is_valid(set, start, end) {
        *walk = Zeroes::of(set.zeroes_in(start, end));
        true
    } else {
        let plain = Plain { words: [].iter() };
        *walk = Zeroes::of(Cursor::over(Inverted { plain }));
        false
    }
}

/// Initializes the iterator over the positions below the length that are not set, in ascending
/// order.
#[unsafe(no_mangle)]
pub extern "C" fn bits_zeroes<'a>(walk: &mut Zeroes<'a>, set: &Bits<'a>)
    ensures left { zeroes_left walk.new ≡ model.asc (model.complement (value set.now)) }
    ensures words { length walk.new.words.now ≡ words_between set.now.length }
{
    *walk = Zeroes::of(set.zeroes());
}

/// Writes the first position that is left to `position`, and returns whether there was one.
#[tactic(auto, using(crate::proofs::Given::first_given))]
#[unsafe(no_mangle)]
pub extern "C" fn bits_zeroes_next(walk: &mut Zeroes<'_>, position: &mut usize) -> bool
    ensures gives { YieldsFirst zeroes_left walk.old (given result position.new) walk.new }
    ensures stays { result ≡ false → position.new ≡ position.old }
{
    let mut cursor = walk.cursor();
    let item = cursor.next();
    *walk = Zeroes::of(cursor);
    hand_out(item, position)
}

/// Writes the last position that is left to `position`, and returns whether there was one.
#[tactic(auto, using(crate::proofs::Given::last_given))]
#[unsafe(no_mangle)]
pub extern "C" fn bits_zeroes_next_back(walk: &mut Zeroes<'_>, position: &mut usize) -> bool
    ensures gives { YieldsLast zeroes_left walk.old (given result position.new) walk.new }
    ensures stays { result ≡ false → position.new ≡ position.old }
{
    let mut cursor = walk.cursor();
    let item = cursor.next_back();
    *walk = Zeroes::of(cursor);
    hand_out(item, position)
}
