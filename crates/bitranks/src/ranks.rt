//! The ranks of a set: the set, borrowed, and a directory of its words.

ghost use Rattle.std.specs.Prelude.{◌≡◌, IfOk};
ghost use Rattle.bitranks.specs.Ranks as ranks;

use crate::counted;
use bitlanes::{Block, Steps};
use fixedbitset::FixedBitSet;
use std::alloc::{AllocError, Global};
use std::marker::Model;

/// A set that is borrowed, with a directory for `rank` and `select`.
///
/// Contracts see it as the set. The directory takes one word of memory for eight words of the set,
/// rounded up. While it lives the set cannot change.
#[derive(Drop)]
pub struct Ranks<'a> {
    pub(crate) set: &'a FixedBitSet,
    pub(crate) words: &'a [Block],
    pub(crate) directory: Vec<usize>,
}

impl<'a> Model for Ranks<'a> {
    ghost use Rattle.fixedbitset.specs.Bits.{Bits};
    ghost use Rattle.fixedbitset.specs.BitsCode.{code};
    ghost use Rattle.bitranks.specs.Ranks.{IsKept};

    ghost Value = { Bits };

    ghost coded = { code };

    ghost view = { λ r. r.set.now };

    ghost invariant = { λ r. IsKept r.set.now r.words.now r.directory.items };
}

impl<'a> Ranks<'a> {
    /// The ranks of a set. It looks at each word of the set once at most.
    ///
    /// `Err` is returned only where the allocation of the directory failed.
    ///
    /// ```
    /// let set = FixedBitSet::from_iter(alloc, [3, 64, 70])?;
    /// let ranks = Ranks::of(alloc, &set)?;
    /// assert_eq!(rt; ranks.rank(70), 2);
    /// assert_eq!(rt; ranks.select(2), Some(70));
    /// ```
    pub fn of(alloc: Global, set: &'a FixedBitSet) -> Result<Ranks<'a>, AllocError>
        ensures { IfOk result (λ ranks. ranks ≡ set.now) }
    {
        counted::of(alloc, set, &mut Steps::new())
    }

    /// The set that the ranks are of.
    ///
    /// ```
    /// let set = FixedBitSet::from_iter(alloc, [3, 64])?;
    /// let ranks = Ranks::of(alloc, &set)?;
    /// assert_eq!(rt; ranks.set().len(), 65);
    /// ```
    #[inline]
    pub fn set(&self) -> &'a FixedBitSet
        ensures { result.now ≡ self.now }
    {
        self.set
    }

    /// How many positions below this one are set. The position may be any number; past the
    /// length all are below it.
    ///
    /// It looks at one entry of the directory and at eight words of the set at most.
    ///
    /// ```
    /// let set = FixedBitSet::from_iter(alloc, [3, 64, 70])?;
    /// let ranks = Ranks::of(alloc, &set)?;
    /// assert_eq!(rt; ranks.rank(64), 1);
    /// assert_eq!(rt; ranks.rank(65), 2);
    /// assert_eq!(rt; ranks.rank(usize::MAX), 3);
    /// ```
    #[inline]
    pub fn rank(&self, position: usize) -> usize
        ensures { result ≡ ranks.rank self.now position }
    {
        counted::rank(self, position, &mut Steps::new())
    }

    /// The position with so many positions of the set below it: the first has index 0. `None` where
    /// the set has no more positions than that.
    ///
    /// It looks at one entry of the directory for each time that it can be halved, and at eight
    /// words of the set at most.
    ///
    /// ```
    /// let set = FixedBitSet::from_iter(alloc, [3, 64, 70])?;
    /// let ranks = Ranks::of(alloc, &set)?;
    /// assert_eq!(rt; ranks.select(0), Some(3));
    /// assert_eq!(rt; ranks.select(1), Some(64));
    /// assert_eq!(rt; ranks.select(3), None);
    /// ```
    #[inline]
    pub fn select(&self, index: usize) -> Option<usize>
        ensures { result ≡ ranks.select self.now index }
    {
        counted::select(self, index, &mut Steps::new())
    }
}
