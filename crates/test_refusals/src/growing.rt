//! The calls that may fail to allocate and change a set: each on a short set of its own.

ghost use Rattle.std.specs.Prelude.{length};
ghost use Rattle.std.specs.Iterator.{at_most};

use crate::calls::Call;
use crate::changes::{Change, make_change};
use crate::outcome::Fault;
use crate::starts::{BOTH, LAST, LONG, SHORT, Starts, is_long, is_short, is_value};
use fixedbitset::FixedBitSet;
use std::alloc::AllocError;

#[derive(Clone, Copy)]
pub enum Growing {
    Grow,
    GrowAndInsert,
    GrowAndPut,
    Extend,
    Append,
    Resize,
    /// A change by the long set, or by that and the short one.
    By(Change),
}

pub const CALLS: &[(&str, Call); 23] = &[
    ("grow", Call::Growing(Growing::Grow)),
    ("grow_and_insert", Call::Growing(Growing::GrowAndInsert)),
    ("grow_and_put", Call::Growing(Growing::GrowAndPut)),
    ("extend", Call::Growing(Growing::Extend)),
    ("clone_from", Call::Growing(Growing::By(Change::CloneFrom))),
    ("union_with", Call::Growing(Growing::By(Change::UnionWith))),
    (
        "symmetric_difference_with",
        Call::Growing(Growing::By(Change::SymmetricDifferenceWith)),
    ),
    (
        "bitor_assign",
        Call::Growing(Growing::By(Change::BitorAssign)),
    ),
    (
        "bitxor_assign",
        Call::Growing(Growing::By(Change::BitxorAssign)),
    ),
    (
        "union_with_change",
        Call::Growing(Growing::By(Change::UnionWithChange)),
    ),
    (
        "symmetric_difference_with_change",
        Call::Growing(Growing::By(Change::SymmetricDifferenceWithChange)),
    ),
    (
        "union_with_difference",
        Call::Growing(Growing::By(Change::UnionWithDifference)),
    ),
    ("union_of", Call::Growing(Growing::By(Change::UnionOf))),
    (
        "symmetric_difference_of",
        Call::Growing(Growing::By(Change::SymmetricDifferenceOf)),
    ),
    (
        "difference_of",
        Call::Growing(Growing::By(Change::DifferenceOf)),
    ),
    ("append", Call::Growing(Growing::Append)),
    ("resize", Call::Growing(Growing::Resize)),
    (
        "counted::clone_from",
        Call::Growing(Growing::By(Change::CountedCloneFrom)),
    ),
    (
        "counted::union_with",
        Call::Growing(Growing::By(Change::CountedUnionWith)),
    ),
    (
        "counted::symmetric_difference_with",
        Call::Growing(Growing::By(Change::CountedSymmetricDifferenceWith)),
    ),
    (
        "counted::union_with_change",
        Call::Growing(Growing::By(Change::CountedUnionWithChange)),
    ),
    (
        "counted::symmetric_difference_with_change",
        Call::Growing(Growing::By(Change::CountedSymmetricDifferenceWithChange)),
    ),
    (
        "counted::union_with_difference",
        Call::Growing(Growing::By(Change::CountedUnionWithDifference)),
    ),
];

// Whether the set is what the call leaves with ample memory.
fn is_grown(set: &FixedBitSet, call: Growing) -> bool {
    match call {
        Growing::Grow | Growing::Resize => is_value(set, LONG, SHORT),
        Growing::Append => is_value(set, 10 + LONG, &[3, 9 + LONG]),
        Growing::GrowAndInsert | Growing::GrowAndPut => is_value(set, LONG + 1, &[3, LONG]),
        Growing::Extend => is_value(set, LONG + 1, &[3, 4, 5, LONG]),
        Growing::By(Change::CloneFrom | Change::CountedCloneFrom) => is_long(set),
        Growing::By(Change::DifferenceOf) => is_value(set, LONG, LAST),
        Growing::By(_) => is_value(set, LONG, BOTH),
    }
}

// Whether the set is what the call leaves where an allocation fails. Of the items of `extend` those
// before the one that failed stand.
fn is_left(set: &FixedBitSet, call: Growing) -> bool {
    match call {
        Growing::Extend => is_value(set, 10, &[3, 4]),
        _ => is_short(set),
    }
}

/// Makes the call on a short set, and looks at what the call leaves.
pub fn grown(starts: &mut Starts, call: Growing) -> Result<bool, Fault> {
    let mut set = starts.take_short()?;
    grown_of(&mut set, starts, call)
}

// The set is a short one.
fn grown_of(set: &mut FixedBitSet, starts: &Starts, call: Growing) -> Result<bool, Fault> {
    match make_growth(set, starts, call) {
        Ok(says_right) => Ok(says_right && is_grown(set, call) && is_long(&starts.long)),
        Err(Fault::Memory) if is_left(set, call) && is_long(&starts.long) => Err(Fault::Memory),
        Err(_) => Ok(false),
    }
}

// Makes the call alone, and returns whether the call says what it should.
fn make_growth(set: &mut FixedBitSet, starts: &Starts, call: Growing) -> Result<bool, Fault> {
    match call {
        Growing::Grow => grow(set, starts.forgets)?,
        Growing::GrowAndInsert => set.grow_and_insert(LONG)?,
        Growing::GrowAndPut => return Ok(!set.grow_and_put(LONG)?),
        Growing::Extend => return extend(set),
        Growing::Append => append(set, &starts.long)?,
        Growing::Resize => set.resize(LONG, false)?,
        Growing::By(change) => {
            return Ok(make_change(set, &starts.long, &starts.short, change)?);
        }
    }
    Ok(true)
}

// With `forgets` a refused call loses the positions of the set. The sweep has to tell this.
fn grow(set: &mut FixedBitSet, forgets: bool) -> Result<(), AllocError> {
    let grown = set.grow(LONG);
    if forgets && grown.is_err() {
        set.clear();
    }
    grown
}

// The lengths are those of a short set and a long one. Other sets are not put together.
fn append(set: &mut FixedBitSet, long: &FixedBitSet) -> Result<(), AllocError> {
    if set.len() <= LONG && long.len() <= LONG {
        return set.append(long);
    }
    Ok(())
}

/// Gives its items, and counts how often it is asked for one.
#[derive(Drop)]
pub struct Asked<'a> {
    pub items: &'a [usize],
    pub count: usize,
}

impl Iterator for Asked<'_> {
    type Item = usize;

    ghost remaining = { λ asked. at_most (length asked.items.now) };

    fn next(&mut self) -> Option<usize> {
        self.count = self.count.saturating_add(1);
        let (first, others) = self.items.split_first()?;
        self.items = others;
        Some(*first)
    }
}

// Returns whether all items are asked for. None is asked for after a refused one.
fn extend(set: &mut FixedBitSet) -> Result<bool, Fault> {
    let mut items = Asked {
        items: &[4, LONG, 5],
        count: 0,
    };
    match set.extend(&mut items) {
        Ok(()) => Ok(items.count == 4),
        Err(fault) if items.count == 2 => Err(Fault::from(fault)),
        Err(_) => Ok(false),
    }
}
