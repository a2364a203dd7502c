//! Commands that change one set by another one, or by itself.
ghost use Rattle.bitcommands.specs.Actions as action;
ghost use Rattle.bitcommands.specs.Actions.{whole_action};
ghost use Rattle.bitcommands.specs.Outcomes.{Answers, AnswersAlways};

use crate::commands::refusals::{Refusal, check_sets};
use crate::commands::replies::Reply;
use fixedbitset::FixedBitSet;
use std::alloc::Global;
use std::mem;

/// A command that changes the set `a` by the set `b`, which may be the same.
#[derive(Debug, Drop)]
pub enum Whole {
    /// `a` takes in the positions of `b`; its length becomes the greater of both.
    UnionWith { a: usize, b: usize },
    /// `a` becomes the positions of exactly one; its length becomes the greater of both.
    SymmetricDifferenceWith { a: usize, b: usize },
    /// The same as `UnionWith`.
    BitorAssign { a: usize, b: usize },
    /// The same as `SymmetricDifferenceWith`.
    BitxorAssign { a: usize, b: usize },
    /// `a` keeps the positions that `b` has too; its length stays.
    IntersectWith { a: usize, b: usize },
    /// `a` keeps the positions that `b` lacks; its length stays.
    DifferenceWith { a: usize, b: usize },
    /// The same as `IntersectWith`.
    BitandAssign { a: usize, b: usize },
}

pub(super) fn apply_whole(
    alloc: Global,
    sets: &mut [FixedBitSet],
    command: &Whole,
    limit: usize,
) -> Result<Reply, Refusal>
    ensures { Answers limit sets.old (whole_action command.now) result sets.new }
{
    match command {
        Whole::UnionWith { a, b } => union_with(alloc, sets, *a, *b),
        Whole::SymmetricDifferenceWith { a, b } => symmetric_difference_with(alloc, sets, *a, *b),
        Whole::BitorAssign { a, b } => union_with(alloc, sets, *a, *b),
        Whole::BitxorAssign { a, b } => symmetric_difference_with(alloc, sets, *a, *b),
        Whole::IntersectWith { a, b } => intersect_with(alloc, sets, *a, *b),
        Whole::DifferenceWith { a, b } => difference_with(alloc, sets, *a, *b),
        Whole::BitandAssign { a, b } => intersect_with(alloc, sets, *a, *b),
    }
}

#[tactic(auto, using(crate::proofs::TakenOut::by_itself))]
fn union_with(alloc: Global, sets: &mut [FixedBitSet], a: usize, b: usize) -> Result<Reply, Refusal>
    ensures { AnswersAlways sets.old (action.union_with a b) result sets.new }
{
    check_sets(sets, a, b)?;
    if a == b {
        return Ok(Reply::Done);
    }
    let mut taken = mem::replace(&mut sets[a], FixedBitSet::new(alloc));
    let result = taken.union_with(&sets[b]);
    sets[a] = taken;
    result?;
    Ok(Reply::Done)
}

#[tactic(auto, using(crate::proofs::TakenOut::by_itself))]
fn symmetric_difference_with(
    alloc: Global,
    sets: &mut [FixedBitSet],
    a: usize,
    b: usize,
) -> Result<Reply, Refusal>
    ensures { AnswersAlways sets.old (action.symmetric_difference_with a b) result sets.new }
{
    check_sets(sets, a, b)?;
    if a == b {
        sets[a].clear();
        return Ok(Reply::Done);
    }
    let mut taken = mem::replace(&mut sets[a], FixedBitSet::new(alloc));
    let result = taken.symmetric_difference_with(&sets[b]);
    sets[a] = taken;
    result?;
    Ok(Reply::Done)
}

#[tactic(auto, using(crate::proofs::TakenOut::by_itself))]
fn intersect_with(
    alloc: Global,
    sets: &mut [FixedBitSet],
    a: usize,
    b: usize,
) -> Result<Reply, Refusal>
    ensures { AnswersAlways sets.old (action.intersect_with a b) result sets.new }
{
    check_sets(sets, a, b)?;
    if a == b {
        return Ok(Reply::Done);
    }
    let mut taken = mem::replace(&mut sets[a], FixedBitSet::new(alloc));
    taken.intersect_with(&sets[b]);
    sets[a] = taken;
    Ok(Reply::Done)
}

#[tactic(auto, using(crate::proofs::TakenOut::by_itself))]
fn difference_with(
    alloc: Global,
    sets: &mut [FixedBitSet],
    a: usize,
    b: usize,
) -> Result<Reply, Refusal>
    ensures { AnswersAlways sets.old (action.difference_with a b) result sets.new }
{
    check_sets(sets, a, b)?;
    if a == b {
        sets[a].clear();
        return Ok(Reply::Done);
    }
    let mut taken = mem::replace(&mut sets[a], FixedBitSet::new(alloc));
    taken.difference_with(&sets[b]);
    sets[a] = taken;
    Ok(Reply::Done)
}
