//! Loops that set positions until none is left, or until one comes again.

ghost use Rattle.std.specs.Prelude.{◌≡◌, ℕ, ◌<◌, length, slice_index, EachIndex, IfOk, true};
ghost use Rattle.fixedbitset.specs.Bits as model;

use crate::zeroes::first_clear;
use fixedbitset::FixedBitSet;
use std::alloc::{AllocError, Global};

/// Takes the free slots from the first on, one a turn.
#[tactic(auto, using(fixedbitset::specs::BitsFacts::facts, fixedbitset::specs::SizeFacts::falls))]
pub fn fill(set: &mut FixedBitSet)
    ensures length { set.new.length ≡ set.old.length }
    ensures full { (p : ℕ) → p < set.new.length → model.contains set.new p ≡ true }
{
    while let Some(slot) = first_clear(set) {
        set.insert(slot);
    }
}

/// Follows `next` from `start` until a node comes again, and returns it.
#[tactic(auto, using(fixedbitset::specs::BitsFacts::facts, fixedbitset::specs::SizeFacts::falls))]
pub fn first_again(visited: &mut FixedBitSet, next: &[usize], start: usize) -> usize
    requires nodes { length next.now ≡ visited.old.length }
    requires starts { start < visited.old.length }
    requires leads { EachIndex next.now (λ k. slice_index next.now k < length next.now) }
    ensures nodes { visited.new.length ≡ visited.old.length }
    ensures visited { model.contains visited.new result ≡ true }
{
    let mut node = start;
    while !visited.put(node) {
        node = next[node];
    }
    node
}

/// The nodes that are reached from `start`: a node is set as it is put on the list of those to do.
#[tactic(auto, using(fixedbitset::specs::BitsFacts::facts, fixedbitset::specs::SizeFacts::falls, crate::proofs::FillLemmas::contains_stays))]
pub fn reached(alloc: Global, edges: &[Vec<usize>], start: usize) -> Result<FixedBitSet, AllocError>
    requires { start < length edges.now }
    ensures nodes { IfOk result (λ visited. visited.length ≡ length edges.now) }
    ensures start { IfOk result (λ visited. model.contains visited start ≡ true) }
{
    let mut visited = FixedBitSet::with_capacity(alloc, edges.len())?;
    let mut todo = Vec::new(alloc);
    visited.insert(start);
    todo.push(start)?;
    while let Some(node) = todo.pop() {
        if let Some(next) = edges.get(node) {
            for to in next.iter() {
                if *to < visited.len() && !visited.put(*to) {
                    todo.push(*to)?;
                }
            }
        }
    }
    Ok(visited)
}
