//! Block 1 of CALLING.md. tools/docs/make_examples writes this file.

ghost use Rattle.std.specs.Prelude.{◌≡◌, ◌<◌, ◌≤◌, ℕ, IfOk, IfSome, IfNone, IsTrue, false};
ghost use Rattle.std.specs.Prelude.{length, slice_get};
ghost use Rattle.fixedbitset.specs.Bits as model;
ghost use Rattle.fixedbitset.specs.TwoSets as sets;

use fixedbitset::FixedBitSet;
use std::alloc::{AllocError, Global};

/// The start of a graph traversal: of `nodes` nodes the first is visited.
#[tactic(auto, using(fixedbitset::specs::BitsFacts::facts))]
pub fn start(alloc: Global, nodes: usize) -> Result<FixedBitSet, AllocError>
    requires { 0 < nodes }
    ensures { IfOk result (λ visited. visited ≡ model.insert (model.empty nodes) 0) }
{
    let mut visited = FixedBitSet::with_capacity(alloc, nodes)?;
    visited.insert(0);
    Ok(visited)
}

/// How many neighbours two nodes of a graph share: set a has the nodes that node a leads to.
pub fn shared(graph: &[FixedBitSet], a: usize, b: usize) -> usize
    requires first { a < length graph.now }
    requires second { b < length graph.now }
    ensures { IfSome (slice_get graph.now a)
        (λ v. IfSome (slice_get graph.now b) (λ w. result ≡ sets.intersection_count v w)) }
{
    graph[a].intersection_count(&graph[b])
}

/// The next free slot from `from` on.
#[tactic(auto, using(fixedbitset::specs::NeighbourFacts::next_zero_least, fixedbitset::specs::NeighbourFacts::next_zero_none))]
pub fn free(taken: &FixedBitSet, from: usize) -> Option<usize>
    ensures some { IfSome result
        (λ p. (from ≤ p) × (p < taken.now.length) × (model.contains taken.now p ≡ false)) }
    ensures none { IfNone result
        ((p : ℕ) → from ≤ p → p < taken.now.length → IsTrue (model.contains taken.now p)) }
{
    taken.next_zero(from)
}

/// A neighbour that two nodes share.
pub fn common(one: &FixedBitSet, other: &FixedBitSet) -> Option<usize>
    ensures some { IfSome result
        (λ p. IsTrue (model.contains one.now p) × IsTrue (model.contains other.now p)) }
    ensures none { IfNone result
        ((p : ℕ) → IsTrue (model.contains one.now p) → model.contains other.now p ≡ false) }
{
    one.next_common(other, 0)
}

/// Sets each position from `from` on.
#[tactic(auto, using(fixedbitset::specs::BitsFacts::facts))]
pub fn fill_from(set: &mut FixedBitSet, from: usize)
    ensures length { set.new.length ≡ set.old.length }
    ensures filled { (p : ℕ) → from ≤ p → p < set.new.length → IsTrue (model.contains set.new p) }
{
    let mut at = from;
    while at < set.len() {
        set.insert(at);
        at += 1;
    }
}
