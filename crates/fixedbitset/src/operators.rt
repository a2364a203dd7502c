//! The operators on sets.

ghost use Rattle.std.specs.Prelude.{◌≡◌};
ghost use Rattle.fixedbitset.specs.Bits as model;
ghost use Rattle.fixedbitset.specs.TwoSets as sets;

use crate::set::FixedBitSet;
use std::ops::{BitAndAssign, Index};

// What an index returns.
static TRUE: bool = true;

static FALSE: bool = false;

/// `set &= other` is `set.intersect_with(&other)`: the length stays, and the positions that both
/// have. It does not allocate.
///
/// ```
/// let mut set = FixedBitSet::from_iter(alloc, [1, 3, 64])?;
/// set &= FixedBitSet::from_iter(alloc, [3, 5])?;
/// assert_eq!(rt; set.len(), 65);
/// assert_eq!(rt; set.as_slice(), [8, 0].as_slice());
/// ```
impl BitAndAssign for FixedBitSet {
    ghost bitand_assign_gives = { λ old other new. new ≡ sets.intersection old other };

    fn bitand_assign(&mut self, other: FixedBitSet) {
        self.intersect_with(&other);
    }
}

/// `set &= &other` is `set.intersect_with(&other)`: the length stays, and the positions that both
/// have. It does not allocate.
///
/// ```
/// let mut set = FixedBitSet::from_iter(alloc, [3, 5])?;
/// let other = FixedBitSet::from_iter(alloc, [1, 3, 64])?;
/// set &= &other;
/// assert_eq!(rt; set.as_slice(), [8].as_slice());
/// assert_eq!(rt; other.count_ones(..), 3);
/// ```
impl BitAndAssign<&FixedBitSet> for FixedBitSet {
    ghost bitand_assign_gives = { λ old other new. new ≡ sets.intersection old other.now };

    fn bitand_assign(&mut self, other: &FixedBitSet) {
        self.intersect_with(other);
    }
}

/// `set[bit]` is `set.contains(bit)`: `false` at or past the length.
///
/// ```
/// let set = FixedBitSet::from_iter(alloc, [3, 64])?;
/// assert!(rt; set[64] && !set[63]);
/// assert!(rt; !set[usize::MAX]);
/// ```
impl Index<usize> for FixedBitSet {
    type Output = bool;

    ghost index_gives = { λ set bit is_set. is_set ≡ model.contains set bit };

    fn index(&self, bit: usize) -> &bool {
        if self.contains(bit) { &TRUE } else { &FALSE }
    }
}
