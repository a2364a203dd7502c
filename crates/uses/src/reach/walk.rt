//! The nodes that a graph traversal reaches.
//!
//! Nodes are the numbers below the length of a graph, whose row a has the nodes that an edge from
//! node a leads to. A node is reachable if there is a path of any number of edges from the start to
//! it (`specs/Reach.antt`).
//!
//! What [`reachable`] promises: its result has exactly the nodes that are reachable. It takes each
//! of them once, and looks once at each edge that leads from one of them.

ghost use Rattle.std.specs.Prelude.{◌≡◌, ◌+◌, ◌<◌, ◌≤◌, ◌↔◌, ℕ, IsTrue, IfOk, length};
ghost use Rattle.fixedbitset.specs.Bits.{contains};
ghost use Rattle.uses.specs.Reach.{IsGraph, AreNodes, IsReachable};
ghost use Rattle.uses.specs.Reach.{size, edges_from, edge_count};

use fixedbitset::{FixedBitSet, Steps};
use std::alloc::{AllocError, Global};

/// Whether each edge leads to a node, as [`reachable`] requires.
pub fn is_graph(graph: &[Vec<usize>]) -> bool
    ensures { IsTrue result ↔ IsGraph graph.now }
{
    let nodes = graph.len();
    graph.iter().all(|row| are_nodes(row, nodes))
}

/// Whether each of the row is a node, where there are so many.
pub fn are_nodes(row: &[usize], nodes: usize) -> bool
    ensures { IsTrue result ↔ AreNodes nodes row.now }
{
    row.iter().all(|node| *node < nodes)
}

/// The nodes that a path from `start` leads to, `start` among them.
///
/// Its precondition is what [`is_graph`] tests, and that `start` is a node. It ticks `turns` for
/// each node that it takes from the stack, once for each node of the result, and `looks` for each
/// edge that it looks at, once for each edge from these nodes. `Err` is returned only on allocation
/// failure.
pub fn reachable(
    alloc: Global,
    graph: &[Vec<usize>],
    start: usize,
    turns: &mut Steps,
    looks: &mut Steps,
) -> Result<FixedBitSet, AllocError>
    requires graph { IsGraph graph.now }
    requires start { start < length graph.now }
    ensures nodes { IfOk result (λ set. set.length ≡ length graph.now) }
    ensures reached { IfOk result
        (λ set. (node : ℕ) → IsTrue (contains set node) ↔ IsReachable graph.now start node) }
    ensures once { IfOk result (λ set. turns.new ≡ turns.old + size set) }
    ensures looked { IfOk result (λ set. looks.new ≡ looks.old + edges_from set 0 graph.now) }
    ensures bound { turns.new ≤ turns.old + length graph.now }
    ensures edges { looks.new ≤ looks.old + edge_count graph.now }
{
    let mut reached = FixedBitSet::with_capacity(alloc, graph.len())?;
    let mut to_do = Vec::new(alloc);
    reached.insert(start);
    to_do.push(start)?;
    'turns: while let Some(node) = to_do.pop() {
        turns.tick();
        for next in &graph[node] {
            looks.tick();
            if !reached.put(*next) {
                to_do.push(*next)?;
            }
        }
    }
    Ok(reached)
}
