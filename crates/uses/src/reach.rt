//! Reads a graph from standard input, and prints the nodes that a path from its start reaches, one
//! a line.
//!
//! The first line is the start. The next is the row of node 0: the nodes that an edge from it leads
//! to; and so on, a row for each node. Where some line is not as said here, or names a node that
//! there is not, nothing is printed but one sentence on standard error with the number of that
//! line, and the status is 1.

ghost use Rattle.std.specs.Prelude.{◌≡◌, ℕ, ◌<◌, ◌∷◌, [], IfOk, IfErr};
ghost use Rattle.std.specs.Prelude.{map, length, string_bytes};
ghost use Rattle.uses.specs.Faults.{HasLine, IsFaultOfRow};
ghost use Rattle.uses.specs.Reach.{Graph, HasGraph, IsGraph, AreNodes, IsReachable};
ghost use Rattle.uses.specs.Texts.{IsOne, IsRefusal, Prints, one_a_line};

use crate::text::sets::as_lines;
use crate::text::{Fault, Row, Wrong};
use fixedbitset::Steps;
use std::alloc::{AllocError, Global};
use walk::{are_nodes, is_graph, reachable};

mod walk;

/// What is printed for this text.
pub(crate) fn output(alloc: Global, text: &str) -> Result<String, Fault>
    ensures printed { IfOk result (λ printed. (start : ℕ) × (graph : Graph)
        × HasGraph text.now start graph
        × Prints one_a_line (IsReachable graph start) (string_bytes printed)) }
    ensures fault { IfErr result
        (IsRefusal ((start : ℕ) × (graph : Graph) × HasGraph text.now start graph)) }
{
    let rows = crate::text::rows(alloc, text)?;
    let Some((first, others)) = rows.split_first() else {
        return Err(Fault::Line(1, Wrong::Form("the start is missing")));
    };
    let start = start_of(first, others.len())?;
    let graph = graph_of(alloc, others)?;
    prove!(is_graph(&graph));
    Ok(lines_of(alloc, &graph, start)?)
}

// The start that a row names, where there are so many nodes.
fn start_of(row: &Row, nodes: usize) -> Result<usize, Fault>
    ensures found { IfOk result (λ start. row.now.numbers.items ≡ start ∷ []) }
    ensures node { IfOk result (λ start. start < nodes) }
    ensures fault { IfErr result (λ fault. (¬ (IsOne (λ start. start < nodes)
        row.now.numbers.items)) × HasLine fault row.now.line) }
{
    match *row.numbers.as_slice() {
        [start] if start < nodes => Ok(start),
        [start] => Err(Fault::Line(row.line, Wrong::NotBelow("the start", start, nodes))),
        _ => Err(Fault::Line(row.line, Wrong::Form("the start has to be one number"))),
    }
}

// The nodes that a path from the start leads to, one a line.
#[tactic(auto, using(crate::proofs::Answered::prints))]
fn lines_of(alloc: Global, graph: &[Vec<usize>], start: usize) -> Result<String, AllocError>
    requires graph { IsGraph graph.now }
    requires start { start < length graph.now }
    ensures { IfOk result
        (λ text. Prints one_a_line (IsReachable graph.now start) (string_bytes text)) }
{
    let reached = reachable(alloc, graph, start, &mut Steps::new(), &mut Steps::new())?;
    as_lines(alloc, &reached)
}

// The graph that has these rows. The error has the first row with an edge to no node.
fn graph_of(alloc: Global, rows: &[Row]) -> Result<Vec<Vec<usize>>, Fault>
    ensures graph { IfOk result (λ graph. IsGraph graph.items) }
    ensures rows { IfOk result (λ graph.
        map (λ row. row.items) graph.items ≡ map (λ row. row.numbers.items) rows.now) }
    ensures fault { IfErr result (IsFaultOfRow (AreNodes (length rows.now)) rows.now) }
{
    let mut graph = Vec::new(alloc);
    for row in rows {
        if !are_nodes(&row.numbers, rows.len()) {
            return Err(Fault::Line(row.line, wrong_row(&row.numbers, rows.len())));
        }
        graph.push(row.numbers.to_vec(alloc)?)?;
    }
    Ok(graph)
}

// What is wrong with a row that has an edge to no node: the first such.
fn wrong_row(numbers: &[usize], nodes: usize) -> Wrong {
    match numbers.iter().find(|node| **node >= nodes) {
        Some(node) => Wrong::NotBelow("the node", *node, nodes),
        None => Wrong::Form("each edge has to lead to a node"),
    }
}
