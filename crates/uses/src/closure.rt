//! Reads a graph from standard input, and prints the pairs of nodes that a path of one or more
//! edges joins, one pair a line.
//!
//! The first line is how many nodes there are, at most 10,000. Each other line is an edge: the node
//! that it leads from, and the node that it leads to. The pairs come in ascending order. Where some
//! line is not as said here, or names a node that there is not, nothing is printed but one sentence
//! on standard error with the number of that line, and the status is 1.

ghost use Rattle.std.specs.Prelude.{ℕ, ◌∷◌, [], List, Contains};
ghost use Rattle.std.specs.Prelude.{IfOk, IfErr, OnOk, string_bytes};
ghost use Rattle.bitrows.specs.Paths.{IsConnected};
ghost use Rattle.uses.specs.Edges.{HasEdges, HasEdge, IsEdge, PrintsPairs};
ghost use Rattle.uses.specs.Faults.{AreAll, IsFaultOfRow};
ghost use Rattle.uses.specs.Texts.{IsRefusal};

use crate::text::first::{Said, first_number};
use crate::text::{Fault, Row};
use graph::closure;
use std::alloc::Global;
use std::fmt::Write;

mod graph;

// How many nodes there may be.
const LIMIT: usize = 10_000;

/// What is printed for this text.
pub(crate) fn output(alloc: Global, text: &str) -> Result<String, Fault>
    ensures printed { IfOk result (λ printed. (nodes : ℕ) × (edges : List (List ℕ))
        × HasEdges LIMIT text.now nodes edges × PrintsPairs
        (IsConnected (λ a b. Contains edges (a ∷ b ∷ []))) (string_bytes printed)) }
    ensures fault { IfErr result
        (IsRefusal ((nodes : ℕ) × (edges : List (List ℕ)) × HasEdges LIMIT text.now nodes edges)) }
{
    let rows = crate::text::rows(alloc, text)?;
    let said = Said {
        missing: "the number of nodes is missing",
        form: "the number of nodes has to be one number",
        name: "the number of nodes",
    };
    let (nodes, edges) = first_number(&rows, LIMIT, &said)?;
    lines_of(alloc, nodes, edges)
}

// The pairs of nodes that a path of these edges joins, one a line.
fn lines_of(alloc: Global, nodes: usize, edges: &[Row]) -> Result<String, Fault>
    ensures printed { IfOk result
        (λ text. PrintsPairs (IsConnected (HasEdge edges.now)) (string_bytes text)) }
    ensures each { OnOk result (AreAll (IsEdge nodes) edges.now) }
    ensures fault { IfErr result (IsFaultOfRow (IsEdge nodes) edges.now) }
{
    let mut lines = String::new(alloc);
    for (from, to) in &closure(alloc, nodes, edges)? {
        writeln!(lines, "{from} {to}")?;
    }
    Ok(lines)
}
