//! The positions of a row of words one by one, in ascending order: those that are set,
//! and those that are not.
//!
//! Each iterator stands on the one cursor of `bitwords`. It makes one turn a call, and one more for
//! each word that it takes. Proofs see the items left, the words that no call has taken yet, and
//! the counts of turns and of words taken; the counts take no bytes when the program runs.
//!
//! `Drop` is written by hand and not derived: an iterator that is dropped is then one call, and the
//! proof of a loop with a `return` keeps what it knows of the items.

ghost use Rattle.std.specs.Prelude.{◌≡◌, ◌≢◌, ◌+◌, ◌*◌, ◌^◌, ◌<◌, ◌≤◌, map, length, Some, IfSome};
ghost use Rattle.std.specs.Int.{bit_not, w64};
ghost use Rattle.std.specs.Iterator.{item_count, UpTo};
ghost use Rattle.std.specs.Iterator.SizeHint.{IsWithinCount};
ghost use Rattle.bitlanes.specs.Word.{IsLowestBit, ClearsBit};
ghost use Rattle.bitlanes.specs.Words.{lane_steps};
ghost use Rattle.bitwords.specs.RowFacts.{AreWords};
ghost use Rattle.bitwords.specs.Walk.{GivesFirst, GivesLast, over_row, range_row};
ghost use Rattle.bitwalks.specs.Pairs.{WalksFront, WalksBack};
ghost use Rattle.bitwalks.specs.PairsFacts.{walk_stays, walk_stays_back};

use crate::in_turn::Part;
use bitlanes::counter::Steps;
use bitlanes::word::{Block, take_lowest_bit};
use bitwords::cursors::{Cursor, Inverted, Plain, ones_within, zeroes_within};
use std::alloc::Global;
use std::iter::FusedIterator;
use std::marker::Model;
use std::vec;

/// The positions that are set, in ascending order. A set makes it by `ones`, and by `ones_in`.
///
/// It borrows the words and does not allocate.
///
/// ```
/// let set = FixedBitSet::from_iter(alloc, [3, 9, 200])?;
/// let mut walk = set.ones();
/// assert_eq!(rt; walk.next_back(), Some(200));
/// assert_eq!(rt; walk.next(), Some(3));
/// assert!(rt; walk.eq([9]));
/// ```
pub struct Ones<'a> {
    ones: Cursor<Plain<'a>>,
}

impl<'a> Model for Ones<'a> {
    ghost use Rattle.std.specs.Vec.Iter.{into_iter_items};
    ghost use Rattle.bitwords.specs.RowFacts.{AreWords};
    ghost use Rattle.bitwords.specs.Walk.{Walk};

    ghost Value = { Walk };

    ghost view = { λ walk. walk.ones };
}

impl<'a> Drop for Ones<'a> {
    #[inline]
    fn drop(self) {
        let Ones { ones: _ } = self;
    }
}

/// The positions that are set, in ascending order. A set becomes it by `into_ones`.
///
/// It owns the words.
///
/// ```
/// let set = FixedBitSet::from_iter(alloc, [3, 9, 200])?;
/// let mut walk = set.into_ones();
/// assert_eq!(rt; walk.next_back(), Some(200));
/// assert_eq!(rt; walk.next(), Some(3));
/// assert!(rt; walk.eq([9]));
/// ```
pub struct IntoOnes {
    owned: Cursor<vec::IntoIter<Block, Global>>,
}

impl Model for IntoOnes {
    ghost use Rattle.std.specs.Vec.Iter.{into_iter_items};
    ghost use Rattle.bitwords.specs.RowFacts.{AreWords};
    ghost use Rattle.bitwords.specs.Walk.{Walk};

    ghost Value = { Walk };

    ghost view = { λ walk. walk.owned };
}

impl Drop for IntoOnes {
    #[inline]
    fn drop(self) {
        let IntoOnes { owned: _ } = self;
    }
}

/// The positions below a length that are not set, in ascending order. A set makes it by
/// `zeroes`, and by `zeroes_in`.
///
/// It borrows the words and does not allocate. Proofs see the words with each bit inverted.
///
/// ```
/// let set = FixedBitSet::from_iter(alloc, [1, 4])?;
/// let mut walk = set.zeroes();
/// assert_eq!(rt; walk.next_back(), Some(3));
/// assert_eq!(rt; walk.next(), Some(0));
/// assert!(rt; walk.eq([2]));
/// ```
pub struct Zeroes<'a> {
    zeroes: Cursor<Inverted<'a>>,
}

impl<'a> Model for Zeroes<'a> {
    ghost use Rattle.std.specs.Vec.Iter.{into_iter_items};
    ghost use Rattle.bitwords.specs.RowFacts.{AreWords};
    ghost use Rattle.bitwords.specs.Walk.{Walk};

    ghost Value = { Walk };

    ghost view = { λ walk. walk.zeroes };
}

impl<'a> Drop for Zeroes<'a> {
    #[inline]
    fn drop(self) {
        let Zeroes { zeroes: _ } = self;
    }
}

impl<'a> Ones<'a> {
    /// The positions set in the words. It reads the first and the last word; those
    /// between are not yet taken.
    ///
    /// ```
    /// let words = [8, 0, 1];
    /// let walk = Ones::over(&words);
    /// assert!(rt; walk.eq([3, 128]));
    /// ```
    #[inline]
    pub fn over(words: &'a [Block]) -> Ones<'a>
        requires { 64 * length words.now ≤ 2 ^ 64 }
        ensures { result ≡ over_row words.now (64 * length words.now) }
    {
        let words = words.iter();
        Ones {
            ones: Cursor::over(Plain { words }),
        }
    }

    /// The positions set in the words, from `start` up to and without `end`. It reads the first and
    /// the last of the words that hold a position of the range; those between are not yet taken.
    ///
    /// ```
    /// let words = [8, 0, 7];
    /// let walk = Ones::within(&words, 4, 130);
    /// assert!(rt; walk.eq([128, 129]));
    /// ```
    #[inline]
    pub fn within(words: &'a [Block], start: usize, end: usize) -> Ones<'a>
        requires fits { 64 * length words.now ≤ 2 ^ 64 }
        requires order { start ≤ end }
        requires within { end ≤ 64 * length words.now }
        ensures { result ≡ range_row words.now start end }
    {
        Ones {
            ones: ones_within(words, start, end),
        }
    }

    /// The index of the lowest bit of the word that is set, which it clears. The word may not be 0;
    /// upstream's subtraction overflows there.
    ///
    /// ```
    /// let mut bits = 12;
    /// assert_eq!(rt; Ones::last_positive_bit_and_unset(&mut bits), 2);
    /// assert_eq!(rt; bits, 8);
    /// ```
    #[inline]
    pub fn last_positive_bit_and_unset(n: &mut Block) -> usize
        requires { n.old ≢ 0 }
        ensures lowest { IsLowestBit n.old result }
        ensures clears { ClearsBit n.old n.new result }
    {
        take_lowest_bit(n)
    }
}

impl IntoOnes {
    /// The positions set in the words. It reads the first and the last word; those
    /// between are not yet taken.
    ///
    /// ```
    /// let words = [8, 0, 1].to_vec(alloc)?;
    /// let walk = IntoOnes::over(words);
    /// assert!(rt; walk.eq([3, 128]));
    /// ```
    #[inline]
    pub fn over(words: Vec<Block>) -> IntoOnes
        requires { 64 * length words.items ≤ 2 ^ 64 }
        ensures walk { result ≡ over_row words.items (64 * length words.items) }
        ensures are_words { AreWords words.items }
    {
        IntoOnes {
            owned: Cursor::over(words.into_iter()),
        }
    }

    /// How many positions are left. Precondition: this number fits `usize`.
    ///
    /// It goes over the words and over no positions: with `m` words between the two that the
    /// iterator holds it takes exactly `m / 4` steps, rounded up, and one more.
    ///
    /// ```
    /// let words = [8, 0, 1].to_vec(alloc)?;
    /// let walk = IntoOnes::over(words);
    /// assert_eq!(rt; walk.count_left(&mut Steps::new()), 2);
    /// ```
    #[inline]
    pub fn count_left(self, steps: &mut Steps) -> usize
        requires { length self.items < 2 ^ 64 }
        ensures value { result ≡ length self.items }
        ensures cost { steps.new ≤ steps.old + lane_steps (length self.words) + 2 }
        ensures exact { steps.new ≡ steps.old + lane_steps (length self.words) + 1 }
    {
        let IntoOnes { owned } = self;
        owned.count_left(steps)
    }

    /// The same as `Ones::last_positive_bit_and_unset`.
    ///
    /// ```
    /// let mut bits = 1 << 63;
    /// assert_eq!(rt; IntoOnes::last_positive_bit_and_unset(&mut bits), 63);
    /// assert_eq!(rt; bits, 0);
    /// ```
    #[inline]
    pub fn last_positive_bit_and_unset(n: &mut Block) -> usize
        requires { n.old ≢ 0 }
        ensures lowest { IsLowestBit n.old result }
        ensures clears { ClearsBit n.old n.new result }
    {
        Ones::last_positive_bit_and_unset(n)
    }
}

impl<'a> Iterator for Ones<'a> {
    type Item = usize;

    ghost next_gives = { GivesFirst };

    ghost remaining = { item_count (λ walk. walk.items) };

    /// The least position left, or `None` where none is, and then for good. It makes one turn, and
    /// one more for each word that it takes.
    #[inline]
    fn next(&mut self) -> Option<usize> {
        self.ones.next()
    }

    /// At least 0, and at most 64 for each word not yet taken and for each of the two that the
    /// iterator holds. The latter is `None` where it is no `usize`.
    #[inline]
    fn size_hint(&self) -> (usize, Option<usize>)
        ensures zero { result.0 ≡ 0 }
        ensures lower { IsWithinCount result.0 (item_count (λ walk. walk.items) self.now) }
        ensures upper { IfSome result.1 (UpTo (item_count (λ walk. walk.items) self.now)) }
        ensures some_if_fits { 64 * (length self.now.words + 2) < 2 ^ 64
            → result.1 ≡ Some (64 * (length self.now.words + 2)) }
    {
        self.ones.size_hint()
    }
}

impl<'a> DoubleEndedIterator for Ones<'a> {
    ghost next_back_gives = { GivesLast };

    /// The greatest position left, or `None` where none is, and then for good. It makes one turn,
    /// and one more for each word that it takes.
    #[inline]
    fn next_back(&mut self) -> Option<usize> {
        self.ones.next_back()
    }
}

impl<'a> FusedIterator for Ones<'a> {}

impl Iterator for IntoOnes {
    type Item = usize;

    ghost next_gives = { GivesFirst };

    ghost remaining = { item_count (λ walk. walk.items) };

    /// As that of `Ones`.
    #[inline]
    fn next(&mut self) -> Option<usize> {
        self.owned.next()
    }

    /// As that of `Ones`.
    #[inline]
    fn size_hint(&self) -> (usize, Option<usize>)
        ensures zero { result.0 ≡ 0 }
        ensures lower { IsWithinCount result.0 (item_count (λ walk. walk.items) self.now) }
        ensures upper { IfSome result.1 (UpTo (item_count (λ walk. walk.items) self.now)) }
        ensures some_if_fits { 64 * (length self.now.words + 2) < 2 ^ 64
            → result.1 ≡ Some (64 * (length self.now.words + 2)) }
    {
        self.owned.size_hint()
    }
}

impl DoubleEndedIterator for IntoOnes {
    ghost next_back_gives = { GivesLast };

    /// As that of `Ones`.
    #[inline]
    fn next_back(&mut self) -> Option<usize> {
        self.owned.next_back()
    }
}

impl FusedIterator for IntoOnes {}

impl<'a> Zeroes<'a> {
    /// The positions not set in the words, from `start` up to and without `end`. It reads
    /// the first and the last of the words that hold a position of the range; those
    /// between are not yet taken.
    ///
    /// ```
    /// let words = [Block::MAX, 5];
    /// let walk = Zeroes::within(&words, 60, 68);
    /// assert!(rt; walk.eq([65, 67]));
    /// ```
    #[inline]
    pub fn within(words: &'a [Block], start: usize, end: usize) -> Zeroes<'a>
        requires fits { 64 * length words.now ≤ 2 ^ 64 }
        requires order { start ≤ end }
        requires within { end ≤ 64 * length words.now }
        ensures { result ≡ range_row (map (bit_not w64) words.now) start end }
    {
        Zeroes {
            zeroes: zeroes_within(words, start, end),
        }
    }
}

impl<'a> Iterator for Zeroes<'a> {
    type Item = usize;

    ghost next_gives = { GivesFirst };

    ghost remaining = { item_count (λ walk. walk.items) };

    /// The least position left, or `None` where none is, and then for good. It makes one turn, and
    /// one more for each word that it takes.
    #[inline]
    fn next(&mut self) -> Option<usize> {
        self.zeroes.next()
    }

    /// As that of `Ones`.
    #[inline]
    fn size_hint(&self) -> (usize, Option<usize>)
        ensures zero { result.0 ≡ 0 }
        ensures lower { IsWithinCount result.0 (item_count (λ walk. walk.items) self.now) }
        ensures upper { IfSome result.1 (UpTo (item_count (λ walk. walk.items) self.now)) }
        ensures some_if_fits { 64 * (length self.now.words + 2) < 2 ^ 64
            → result.1 ≡ Some (64 * (length self.now.words + 2)) }
    {
        self.zeroes.size_hint()
    }
}

impl<'a> DoubleEndedIterator for Zeroes<'a> {
    ghost next_back_gives = { GivesLast };

    /// The greatest position left, or `None` where none is, and then for good. It makes one turn,
    /// and one more for each word that it takes.
    #[inline]
    fn next_back(&mut self) -> Option<usize> {
        self.zeroes.next_back()
    }
}

impl<'a> FusedIterator for Zeroes<'a> {}

impl<'a> Part for Ones<'a> {
    ghost items = { λ walk. walk.items };

    ghost front = { WalksFront };

    ghost back = { WalksBack };

    ghost room = { λ walk. 64 * (length walk.words + 2) };

    #[inline]
    fn take_first(&mut self) -> Option<usize> {
        self.next()
    }

    #[inline]
    fn take_last(&mut self) -> Option<usize> {
        self.next_back()
    }

    #[inline]
    fn most(&self) -> Option<usize> {
        self.size_hint().1
    }

    ghost front_stays = { walk_stays };

    ghost back_stays = { walk_stays_back };
}
