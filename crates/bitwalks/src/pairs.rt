//! Iterators over two rows of words, of any two lengths.
//!
//! `Intersection` and `Difference` iterator over the first row and look each of its items up in the
//! other. `Union` iterators over the first row, and then over the second without the first;
//! `SymmetricDifference` over both differences in turn. So the items of the two last need not
//! ascend as a whole. No iterator allocates.
//!
//! Proofs see the items left, how many items of a source were looked up (`asked`), and each source
//! as an iterator of its own, with its turns and its words not yet taken. The counts take no bytes
//! when the program runs.

ghost use Rattle.std.specs.Prelude.{◌≡◌, ◌+◌, ◌*◌, ◌^◌, ◌<◌, ◌≤◌, not, length, Some, IfSome};
ghost use Rattle.std.specs.Iterator.{item_count, UpTo};
ghost use Rattle.std.specs.Iterator.SizeHint.{IsWithinCount};
ghost use Rattle.bitwords.specs.Walk.{over_row};
ghost use Rattle.bitwalks.specs.Pairs.{sieve_over, joined_items, JoinsFirst, JoinsLast};
ghost use Rattle.bitwalks.specs.Pairs.{split_items, SplitsFirst, SplitsLast};

use crate::in_turn::InTurn;
use crate::sieve::{Lacked, Shared, Sieve};
use crate::walks::Ones;
use bitlanes::word::Block;
use std::iter::FusedIterator;
use std::marker::Model;

/// The positions that two rows have in common, in ascending order. A set
/// makes it by `intersection`.
///
/// ```
/// let set = FixedBitSet::from_iter(alloc, [1, 3, 64])?;
/// let other = FixedBitSet::from_iter(alloc, [3, 5, 64, 200])?;
/// let mut walk = set.intersection(&other);
/// assert_eq!(rt; walk.next_back(), Some(64));
/// assert!(rt; walk.eq([3]));
/// ```
pub type Intersection<'a> = Sieve<'a, Shared>;

/// The positions of a row that another one lacks, in ascending order. A set
/// makes it by `difference`.
///
/// ```
/// let set = FixedBitSet::from_iter(alloc, [1, 3, 200])?;
/// let other = FixedBitSet::from_iter(alloc, [3, 64])?;
/// let mut walk = set.difference(&other);
/// assert_eq!(rt; walk.next_back(), Some(200));
/// assert!(rt; walk.eq([1]));
/// ```
pub type Difference<'a> = Sieve<'a, Lacked>;

/// The positions of a row, and then those of another one that the first lacks. A
/// set makes it by `union`.
///
/// ```
/// let set = FixedBitSet::from_iter(alloc, [9, 200])?;
/// let other = FixedBitSet::from_iter(alloc, [3, 9])?;
/// let mut walk = set.union(&other);
/// assert_eq!(rt; walk.next_back(), Some(3));
/// assert!(rt; walk.eq([9, 200]));
/// ```
pub struct Union<'a> {
    parts: InTurn<Ones<'a>, Sieve<'a, Lacked>>,
}

impl<'a> Model for Union<'a> {
    ghost use Rattle.bitwalks.specs.Pairs.{Joined};

    ghost Value = { Joined };

    ghost view = { λ walk. record { first = walk.parts.first; second = walk.parts.second } };
}

impl<'a> Drop for Union<'a> {
    #[inline]
    fn drop(self) {
        let Union { parts: _ } = self;
    }
}

/// The positions of a row that another one lacks, and then those of the other that the first lacks.
/// A set makes it by `symmetric_difference`.
///
/// ```
/// let set = FixedBitSet::from_iter(alloc, [9, 200])?;
/// let other = FixedBitSet::from_iter(alloc, [3, 9])?;
/// let mut walk = set.symmetric_difference(&other);
/// assert_eq!(rt; walk.next_back(), Some(3));
/// assert!(rt; walk.eq([200]));
/// ```
pub struct SymmetricDifference<'a> {
    sides: InTurn<Sieve<'a, Lacked>, Sieve<'a, Lacked>>,
}

impl<'a> Model for SymmetricDifference<'a> {
    ghost use Rattle.bitwalks.specs.Pairs.{Split};

    ghost Value = { Split };

    ghost view = { λ walk. record { first = walk.sides.first; second = walk.sides.second } };
}

impl<'a> Drop for SymmetricDifference<'a> {
    #[inline]
    fn drop(self) {
        let SymmetricDifference { sides: _ } = self;
    }
}

impl<'a> Union<'a> {
    /// The iterator over the positions of `words` and `other`.
    ///
    /// ```
    /// let (words, other) = ([8, 1], [3]);
    /// let walk = Union::over(&words, &other);
    /// assert!(rt; walk.eq([3, 64, 0, 1]));
    /// ```
    #[inline]
    pub fn over(words: &'a [Block], other: &'a [Block]) -> Union<'a>
        requires first { 64 * length words.now ≤ 2 ^ 64 }
        requires second { 64 * length other.now ≤ 2 ^ 64 }
        ensures { result ≡ record {
          first = over_row words.now (64 * length words.now);
          second = sieve_over not other.now words.now;
        } }
    {
        Union {
            parts: InTurn::of(Ones::over(words), Sieve::over(other, words)),
        }
    }
}

impl<'a> Iterator for Union<'a> {
    type Item = usize;

    ghost next_gives = { JoinsFirst };

    ghost remaining = { item_count joined_items };

    /// The first position left, or `None` where none is, and then for good. Each item that a source
    /// gives is looked up once; a source is called once for each, and once more at most.
    #[inline]
    fn next(&mut self) -> Option<usize> {
        self.parts.take_first()
    }

    /// At least 0, and at most the sum of what both parts have. The latter is `None`
    /// where it is no `usize`.
    #[inline]
    fn size_hint(&self) -> (usize, Option<usize>)
        ensures zero { result.0 ≡ 0 }
        ensures lower { IsWithinCount result.0 (item_count joined_items self.now) }
        ensures upper { IfSome result.1 (UpTo (item_count joined_items self.now)) }
        ensures some_if_fits { 64 * (length self.now.first.words + 2)
            + 64 * (length self.now.second.source.words + 2) < 2 ^ 64
            → result.1 ≡ Some
            (64 * (length self.now.first.words + 2)
            + 64 * (length self.now.second.source.words + 2)) }
    {
        (0, self.parts.most())
    }
}

impl<'a> DoubleEndedIterator for Union<'a> {
    ghost next_back_gives = { JoinsLast };

    /// The last position left, or `None` where none is, and then for good.
    #[inline]
    fn next_back(&mut self) -> Option<usize> {
        self.parts.take_last()
    }
}

impl<'a> FusedIterator for Union<'a> {}

impl<'a> SymmetricDifference<'a> {
    /// The iterator over the positions of `words` and `other`.
    ///
    /// ```
    /// let (words, other) = ([8, 1], [11]);
    /// let walk = SymmetricDifference::over(&words, &other);
    /// assert!(rt; walk.eq([64, 0, 1]));
    /// ```
    #[inline]
    pub fn over(words: &'a [Block], other: &'a [Block]) -> SymmetricDifference<'a>
        requires first { 64 * length words.now ≤ 2 ^ 64 }
        requires second { 64 * length other.now ≤ 2 ^ 64 }
        ensures { result ≡ record {
          first = sieve_over not words.now other.now;
          second = sieve_over not other.now words.now;
        } }
    {
        SymmetricDifference {
            sides: InTurn::of(Sieve::over(words, other), Sieve::over(other, words)),
        }
    }
}

impl<'a> Iterator for SymmetricDifference<'a> {
    type Item = usize;

    ghost next_gives = { SplitsFirst };

    ghost remaining = { item_count split_items };

    /// The first position left, or `None` where none is, and then for good. Each item that a source
    /// gives is looked up once; a source is called once for each, and once more at most.
    #[inline]
    fn next(&mut self) -> Option<usize> {
        self.sides.take_first()
    }

    /// At least 0, and at most the sum of what both parts have. The latter is `None`
    /// where it is no `usize`.
    #[inline]
    fn size_hint(&self) -> (usize, Option<usize>)
        ensures zero { result.0 ≡ 0 }
        ensures lower { IsWithinCount result.0 (item_count split_items self.now) }
        ensures upper { IfSome result.1 (UpTo (item_count split_items self.now)) }
        ensures some_if_fits { 64 * (length self.now.first.source.words + 2)
            + 64 * (length self.now.second.source.words + 2) < 2 ^ 64
            → result.1 ≡ Some
            (64 * (length self.now.first.source.words + 2)
            + 64 * (length self.now.second.source.words + 2)) }
    {
        (0, self.sides.most())
    }
}

impl<'a> DoubleEndedIterator for SymmetricDifference<'a> {
    ghost next_back_gives = { SplitsLast };

    /// The last position left, or `None` where none is, and then for good.
    #[inline]
    fn next_back(&mut self) -> Option<usize> {
        self.sides.take_last()
    }
}

impl<'a> FusedIterator for SymmetricDifference<'a> {}
