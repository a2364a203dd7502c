//! The least solution of the equations.

ghost use Rattle.std.specs.Prelude.{◌≡◌, ◌+◌, ◌*◌, ◌<◌, ◌≤◌, IfOk, OnOk, OnErr, length, replicate};
ghost use Rattle.fixedbitset.specs.Bits as model;
ghost use Rattle.flow.specs.Flow.{IsProblem, IsFor, IsSolution, IsLeast, ArePaths};

use crate::rounds::{Room, settle};
use fixedbitset::{FixedBitSet, Steps};
use std::alloc::{AllocError, Global};

/// A set In(v) and a set Out(v) of facts for each node v, by its number.
#[derive(Debug, Drop)]
pub struct Solution {
    /// What comes to each node.
    pub ins: Vec<FixedBitSet>,
    /// What comes out of each node.
    pub outs: Vec<FixedBitSet>,
}

/// The least solution of the equations: the one whose sets are subsets of those of every solution.
/// A fact is in Out(v) exactly if some node generates it, it goes from there along edges to v, and
/// no node that it comes to kills it.
///
/// Its precondition is what [`is_problem`](crate::problem::is_problem) tests. It goes in rounds
/// until none changes a set, a round being one turn over all edges in their order, and so over all
/// nodes that an edge leads to. It ticks `rounds` once for each: at least once, and at most
/// `nodes * facts + 1` times. A round looks at the sets of an edge only where its first node took
/// something in it or in the round before, and in the first round; so edges that stand in the order
/// of the flow need few rounds. A look is one call over whole sets, which lets go along the edge
/// what there is; where something went there is one more.
///
/// `Err` is returned only where the allocation of the sets of the result, or of three sets more at
/// most, failed. It is all taken before the first round, so no round was ticked then.
///
/// ```
/// let none = FixedBitSet::with_capacity(alloc, 2)?;
/// let gens = [FixedBitSet::from_iter(alloc, [0, 1])?, none.clone()?];
/// let kills = [none, FixedBitSet::from_iter(alloc, [1])?];
/// assert!(rt; flow::is_problem(2, &[(0, 1)], &gens, &kills));
/// let answer = flow::solve(alloc, 2, &[(0, 1)], &gens, &kills, &mut Steps::new())?;
/// let last = answer.outs.last().and_then(|facts| facts.maximum());
/// assert_eq!(rt; last, Some(0));
/// ```
pub fn solve(
    alloc: Global,
    facts: usize,
    edges: &[(usize, usize)],
    gens: &[FixedBitSet],
    kills: &[FixedBitSet],
    rounds: &mut Steps,
) -> Result<Solution, AllocError>
    requires { IsProblem facts edges.now gens.now kills.now }
    ensures sized { IfOk result
        (λ answer. IsFor gens.now facts answer.ins.items × IsFor gens.now facts answer.outs.items) }
    ensures solves { IfOk result
        (λ answer. IsSolution edges.now gens.now kills.now answer.ins.items answer.outs.items) }
    ensures least { IfOk result
        (λ answer. IsLeast edges.now gens.now kills.now answer.ins.items answer.outs.items) }
    ensures paths { IfOk result
        (λ answer. ArePaths edges.now gens.now kills.now answer.outs.items) }
    ensures once { OnOk result (rounds.old < rounds.new) }
    ensures bound { OnOk result (rounds.new ≤ rounds.old + (length gens.now * facts + 1)) }
    ensures err { OnErr result (rounds.new ≡ rounds.old) }
{
    let mut answer = start(alloc, facts, gens)?;
    let mut room = Room::new(alloc, gens.len())?;
    settle(
        edges,
        kills,
        &mut answer.ins,
        &mut answer.outs,
        &mut room,
        rounds,
    );
    Ok(answer)
}

// The sets before the first round: nothing comes to a node, and what it generates comes out.
fn start(alloc: Global, facts: usize, gens: &[FixedBitSet]) -> Result<Solution, AllocError>
    ensures ins { IfOk result (λ start. start.ins.items
        ≡ replicate (length gens.now) (model.empty facts)) }
    ensures outs { IfOk result (λ start. start.outs.items ≡ gens.now) }
{
    let mut ins = Vec::with_capacity(alloc, gens.len())?;
    let mut outs = Vec::with_capacity(alloc, gens.len())?;
    for out in gens {
        ins.push(FixedBitSet::with_capacity(alloc, facts)?)?;
        outs.push(FixedBitSet::from_bits(alloc, out.as_bits())?)?;
    }
    Ok(Solution { ins, outs })
}
