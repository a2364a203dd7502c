//! Changes of a set by up to two others. The tables hold changes that do not allocate, since the
//! set has words enough. Each change stands with what it leaves. There the first other is the short
//! set, and the second is the long one.

use crate::outcome::Fault;
use crate::starts::{BOTH, LAST, LONG, SHORT, is_value};
use fixedbitset::{FixedBitSet, Steps, counted};
use std::alloc::AllocError;

/// A change of a set. A name that ends in `WithSecond` is a change by the second of two others.
/// The two `..UnionWithDifference`, and those that end in `Of`, are changes by both. `ShiftUp`,
/// `ShiftDown`, `UnionWithOwnShift`, `Truncate`, `CountedPopFirst`, `CountedPopLast` and
/// `CountedClear` take no other set. All the rest are changes by the first.
#[derive(Clone, Copy)]
pub enum Change {
    UnionWith,
    SymmetricDifferenceWith,
    BitorAssign,
    BitxorAssign,
    CloneFrom,
    UnionOf,
    SymmetricDifferenceOf,
    IntersectionOf,
    DifferenceOf,
    UnionWithChange,
    SymmetricDifferenceWithChange,
    UnionWithDifference,
    DifferenceWithChange,
    IntersectChangeWithSecond,
    BitandAssign,
    IntersectWith,
    DifferenceWith,
    DifferenceWithSecond,
    ShiftUp,
    ShiftDown,
    UnionWithOwnShift,
    UnionWithShifted,
    Truncate,
    CopyRange,
    CountedUnionWith,
    CountedSymmetricDifferenceWith,
    CountedCloneFrom,
    CountedUnionWithChange,
    CountedSymmetricDifferenceWithChange,
    CountedUnionWithDifference,
    CountedDifferenceWithChange,
    CountedIntersectWithChange,
    CountedIntersectWith,
    CountedDifferenceWithSecond,
    CountedPopFirst,
    CountedPopLast,
    CountedClear,
}

/// A change, with the length and the positions that it leaves.
pub type Row = (Change, usize, &'static [usize]);

/// Of a short set: those that leave its length.
pub const LESSER: &[Row; 4] = &[
    (Change::BitandAssign, 10, SHORT),
    (Change::IntersectWith, 10, SHORT),
    (Change::DifferenceWithSecond, 10, SHORT),
    (Change::DifferenceWith, 10, &[]),
];

/// Of a short set: those that move positions, one that cuts them off, and one that copies some.
pub const SHIFTS: &[Row; 6] = &[
    (Change::ShiftUp, 10, &[8]),
    (Change::ShiftDown, 10, &[6]),
    (Change::UnionWithOwnShift, 10, &[6, 9]),
    (Change::UnionWithShifted, 10, &[4, 6, 9]),
    (Change::Truncate, 7, &[4, 6]),
    (Change::CopyRange, 7, &[5]),
];

/// Of a long set: joined with the short one, made of both, and in the end a copy of the short one.
pub const JOINS: &[Row; 14] = &[
    (Change::UnionWith, LONG, BOTH),
    (Change::SymmetricDifferenceWith, LONG, LAST),
    (Change::BitorAssign, LONG, BOTH),
    (Change::BitxorAssign, LONG, LAST),
    (Change::UnionWithChange, LONG, BOTH),
    (Change::SymmetricDifferenceWithChange, LONG, LAST),
    (Change::UnionWithDifference, LONG, BOTH),
    (Change::DifferenceWithChange, LONG, LAST),
    (Change::IntersectChangeWithSecond, LONG, LAST),
    (Change::UnionOf, LONG, BOTH),
    (Change::SymmetricDifferenceOf, LONG, BOTH),
    (Change::DifferenceOf, 10, SHORT),
    (Change::IntersectionOf, 10, &[]),
    (Change::CloneFrom, 10, SHORT),
];

/// The counted calls on a long set.
pub const COUNTED_JOINS: &[Row; 7] = &[
    (Change::CountedUnionWith, LONG, BOTH),
    (Change::CountedSymmetricDifferenceWith, LONG, LAST),
    (Change::CountedUnionWithChange, LONG, BOTH),
    (Change::CountedSymmetricDifferenceWithChange, LONG, LAST),
    (Change::CountedUnionWithDifference, LONG, BOTH),
    (Change::CountedDifferenceWithChange, LONG, LAST),
    (Change::CountedCloneFrom, 10, SHORT),
];

/// The counted calls on a short set.
pub const COUNTED_LESSER: &[Row; 6] = &[
    (Change::CountedIntersectWith, 10, SHORT),
    (Change::CountedDifferenceWithSecond, 10, SHORT),
    (Change::CountedIntersectWithChange, 10, SHORT),
    (Change::CountedPopFirst, 10, &[]),
    (Change::CountedPopLast, 10, &[]),
    (Change::CountedClear, 10, &[]),
];

/// Makes the changes one after the other, and returns whether each of them leaves and says what it
/// should.
pub fn make_changes(
    set: &mut FixedBitSet,
    first: &FixedBitSet,
    second: &FixedBitSet,
    changes: &[Row],
) -> Result<bool, Fault> {
    for (change, length, positions) in changes {
        if !make_change(set, first, second, *change)? || !is_value(set, *length, positions) {
            return Ok(false);
        }
    }
    Ok(true)
}

/// Makes the change, and returns whether the call says what it should, where the call says
/// anything. `IntersectChangeWithSecond` and `CountedIntersectWithChange` have to say that the set
/// has not changed. The others have to say that the set has changed.
pub fn make_change(
    set: &mut FixedBitSet,
    first: &FixedBitSet,
    second: &FixedBitSet,
    change: Change,
) -> Result<bool, AllocError> {
    let joined = match change {
        Change::UnionWith => set.union_with(first),
        Change::SymmetricDifferenceWith => set.symmetric_difference_with(first),
        Change::BitorAssign => set.bitor_assign(first),
        Change::BitxorAssign => set.bitxor_assign(first),
        Change::CloneFrom => set.clone_from(first),
        Change::UnionOf => set.union_of(first, second),
        Change::SymmetricDifferenceOf => set.symmetric_difference_of(first, second),
        Change::IntersectionOf => set.intersection_of(first, second),
        Change::DifferenceOf => set.difference_of(first, second),
        Change::CountedUnionWith => counted::union_with(set, first, &mut Steps::new()),
        Change::CountedSymmetricDifferenceWith => {
            counted::symmetric_difference_with(set, first, &mut Steps::new())
        }
        Change::CountedCloneFrom => counted::clone_from(set, first, &mut Steps::new()),
        _ => return unite(set, first, second, change),
    };
    joined?;
    Ok(true)
}

// The unions that say whether the set has changed, and the changes that do not allocate.
fn unite(
    set: &mut FixedBitSet,
    first: &FixedBitSet,
    second: &FixedBitSet,
    change: Change,
) -> Result<bool, AllocError> {
    let steps = &mut Steps::new();
    match change {
        Change::UnionWithChange => set.union_with_change(first),
        Change::SymmetricDifferenceWithChange => set.symmetric_difference_with_change(first),
        Change::UnionWithDifference => set.union_with_difference(first, second),
        Change::CountedUnionWithChange => counted::union_with_change(set, first, steps),
        Change::CountedSymmetricDifferenceWithChange => {
            counted::symmetric_difference_with_change(set, first, steps)
        }
        Change::CountedUnionWithDifference => {
            counted::union_with_difference(set, first, second, steps)
        }
        _ => Ok(lessen(set, first, second, change)),
    }
}

// The changes that do not allocate at any length.
fn lessen(
    set: &mut FixedBitSet,
    first: &FixedBitSet,
    second: &FixedBitSet,
    change: Change,
) -> bool {
    let steps = &mut Steps::new();
    match change {
        Change::DifferenceWithChange => return set.difference_with_change(first),
        Change::IntersectChangeWithSecond => return !set.intersect_with_change(second),
        Change::CountedDifferenceWithChange => {
            return counted::difference_with_change(set, first, steps);
        }
        Change::CountedIntersectWithChange => {
            return !counted::intersect_with_change(set, first, steps);
        }
        Change::BitandAssign => *set &= first,
        Change::IntersectWith => set.intersect_with(first),
        Change::DifferenceWith => set.difference_with(first),
        Change::DifferenceWithSecond => set.difference_with(second),
        Change::CountedIntersectWith => counted::intersect_with(set, first, steps),
        Change::CountedDifferenceWithSecond => counted::difference_with(set, second, steps),
        Change::CountedPopFirst => return counted::pop_first(set, steps) == Some(3),
        Change::CountedPopLast => return counted::pop_last(set, steps).is_none(),
        Change::CountedClear => counted::clear(set, steps),
        _ => return move_positions(set, first, change),
    }
    true
}

fn move_positions(set: &mut FixedBitSet, first: &FixedBitSet, change: Change) -> bool {
    match change {
        Change::ShiftUp => set.shift_up(5),
        Change::ShiftDown => set.shift_down(2),
        Change::UnionWithOwnShift => set.union_with_own_shift(3),
        Change::UnionWithShifted => set.union_with_shifted(first, 1),
        Change::Truncate => set.truncate(7),
        Change::CopyRange if set.len() == 7 && first.len() == 10 => set.copy_range(first, 2..5, 4),
        _ => return false,
    }
    true
}
