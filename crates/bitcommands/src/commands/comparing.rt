//! Commands that compare two sets and change nothing.
ghost use Rattle.bitcommands.specs.Actions as action;
ghost use Rattle.bitcommands.specs.Actions.{compare_action};
ghost use Rattle.bitcommands.specs.Outcomes.{Answers, AnswersAlways};

use crate::commands::refusals::{Refusal, check_sets};
use crate::commands::replies::Reply;
use fixedbitset::FixedBitSet;

/// A command that compares the set `a` with the set `b`.
#[derive(Debug, Drop)]
pub enum Compare {
    /// How many positions are in either.
    UnionCount { a: usize, b: usize },
    /// How many positions are in both.
    IntersectionCount { a: usize, b: usize },
    /// How many positions of `a` the set `b` lacks.
    DifferenceCount { a: usize, b: usize },
    /// How many positions are in exactly one.
    SymmetricDifferenceCount { a: usize, b: usize },
    /// Whether no position is in both.
    IsDisjoint { a: usize, b: usize },
    /// Whether `b` has each position of `a`.
    IsSubset { a: usize, b: usize },
    /// Whether `a` has each position of `b`.
    IsSuperset { a: usize, b: usize },
    /// Whether both have the same length and the same positions.
    Eq { a: usize, b: usize },
    /// Which comes first in the order of sets.
    Cmp { a: usize, b: usize },
}

pub(super) fn apply_compare(
    sets: &[FixedBitSet],
    command: &Compare,
    limit: usize,
) -> Result<Reply, Refusal>
    ensures { Answers limit sets.now (compare_action command.now) result sets.now }
{
    match command {
        Compare::UnionCount { a, b } => union_count(sets, *a, *b),
        Compare::IntersectionCount { a, b } => intersection_count(sets, *a, *b),
        Compare::DifferenceCount { a, b } => difference_count(sets, *a, *b),
        Compare::SymmetricDifferenceCount { a, b } => symmetric_difference_count(sets, *a, *b),
        Compare::IsDisjoint { a, b } => is_disjoint(sets, *a, *b),
        Compare::IsSubset { a, b } => is_subset(sets, *a, *b),
        Compare::IsSuperset { a, b } => is_superset(sets, *a, *b),
        Compare::Eq { a, b } => eq(sets, *a, *b),
        Compare::Cmp { a, b } => cmp(sets, *a, *b),
    }
}

#[tactic(auto, unfolding(fixedbitset::specs::TwoSets::union_count))]
fn union_count(sets: &[FixedBitSet], a: usize, b: usize) -> Result<Reply, Refusal>
    ensures { AnswersAlways sets.now (action.union_count a b) result sets.now }
{
    check_sets(sets, a, b)?;
    Ok(Reply::Number(sets[a].union_count(&sets[b])))
}

#[tactic(auto, unfolding(fixedbitset::specs::TwoSets::intersection_count))]
fn intersection_count(sets: &[FixedBitSet], a: usize, b: usize) -> Result<Reply, Refusal>
    ensures { AnswersAlways sets.now (action.intersection_count a b) result sets.now }
{
    check_sets(sets, a, b)?;
    Ok(Reply::Number(sets[a].intersection_count(&sets[b])))
}

#[tactic(auto, unfolding(fixedbitset::specs::TwoSets::difference_count))]
fn difference_count(sets: &[FixedBitSet], a: usize, b: usize) -> Result<Reply, Refusal>
    ensures { AnswersAlways sets.now (action.difference_count a b) result sets.now }
{
    check_sets(sets, a, b)?;
    Ok(Reply::Number(sets[a].difference_count(&sets[b])))
}

#[tactic(auto, unfolding(fixedbitset::specs::TwoSets::symmetric_difference_count))]
fn symmetric_difference_count(sets: &[FixedBitSet], a: usize, b: usize) -> Result<Reply, Refusal>
    ensures { AnswersAlways sets.now (action.symmetric_difference_count a b) result sets.now }
{
    check_sets(sets, a, b)?;
    Ok(Reply::Number(sets[a].symmetric_difference_count(&sets[b])))
}

#[tactic(auto, unfolding(fixedbitset::specs::TwoSets::is_disjoint, fixedbitset::specs::TwoSets::intersection_count))]
fn is_disjoint(sets: &[FixedBitSet], a: usize, b: usize) -> Result<Reply, Refusal>
    ensures { AnswersAlways sets.now (action.is_disjoint a b) result sets.now }
{
    check_sets(sets, a, b)?;
    Ok(Reply::Bool(sets[a].is_disjoint(&sets[b])))
}

#[tactic(auto, unfolding(fixedbitset::specs::TwoSets::is_subset))]
fn is_subset(sets: &[FixedBitSet], a: usize, b: usize) -> Result<Reply, Refusal>
    ensures { AnswersAlways sets.now (action.is_subset a b) result sets.now }
{
    check_sets(sets, a, b)?;
    Ok(Reply::Bool(sets[a].is_subset(&sets[b])))
}

#[tactic(auto, unfolding(fixedbitset::specs::TwoSets::is_subset))]
fn is_superset(sets: &[FixedBitSet], a: usize, b: usize) -> Result<Reply, Refusal>
    ensures { AnswersAlways sets.now (action.is_superset a b) result sets.now }
{
    check_sets(sets, a, b)?;
    Ok(Reply::Bool(sets[a].is_superset(&sets[b])))
}

fn eq(sets: &[FixedBitSet], a: usize, b: usize) -> Result<Reply, Refusal>
    ensures { AnswersAlways sets.now (action.eq a b) result sets.now }
{
    check_sets(sets, a, b)?;
    Ok(Reply::Bool(sets[a] == sets[b]))
}

fn cmp(sets: &[FixedBitSet], a: usize, b: usize) -> Result<Reply, Refusal>
    ensures { AnswersAlways sets.now (action.cmp a b) result sets.now }
{
    check_sets(sets, a, b)?;
    Ok(Reply::Order(sets[a].cmp(&sets[b])))
}
