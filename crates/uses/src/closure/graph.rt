//! The closure of a graph whose edges are the rows of a text.
//!
//! Nodes are the numbers below a given one, and a row is an edge: the node that it leads from, and
//! the node that it leads to (`specs/Edges.antt`).
//!
//! What [`closure`] promises: its result has exactly the pairs of nodes that some path of one or
//! more edges joins, in ascending order.

ghost use Rattle.std.specs.Prelude.{◌≡◌, ◌∷◌, [], ◌↔◌, ℕ, MatchOption, Contains};
ghost use Rattle.std.specs.Prelude.{IfOk, IfErr, OnOk, IsTrue, length};
ghost use Rattle.std.specs.List.{AllPairs};
ghost use Rattle.uses.specs.Faults.{AreAll, IsFaultOfRow};
ghost use Rattle.bitrows.specs.Tables.{has};
ghost use Rattle.bitrows.specs.Paths.{IsConnected};
ghost use Rattle.uses.specs.Edges.{IsEdge, HasEdge, IsBefore, pairs_in};

use crate::text::{Fault, Row, Wrong};
use bitrows::BitRows;
use std::alloc::{AllocError, Global};

/// The pairs of nodes that a path of one or more of these edges joins.
///
/// The error is that an allocation failed, or it has the first row that is no edge.
pub fn closure(alloc: Global, nodes: usize, rows: &[Row]) -> Result<Vec<(usize, usize)>, Fault>
    ensures joined { IfOk result (λ pairs. (a b : ℕ)
        → Contains pairs.items (a, b) ↔ IsConnected (HasEdge rows.now) a b) }
    ensures ascending { IfOk result (λ pairs. AllPairs IsBefore pairs.items) }
    ensures each { OnOk result (AreAll (IsEdge nodes) rows.now) }
    ensures fault { IfErr result (IsFaultOfRow (IsEdge nodes) rows.now) }
{
    let mut table = table_of(alloc, nodes, rows)?;
    table.close();
    Ok(pairs_of(alloc, &table)?)
}

// The table that has exactly these edges. The error has the first row that is none.
fn table_of(alloc: Global, nodes: usize, rows: &[Row]) -> Result<BitRows, Fault>
    ensures edges { IfOk result
        (λ table. (a b : ℕ) → IsTrue (has table a b) ↔ HasEdge rows.now a b) }
    ensures each { OnOk result (AreAll (IsEdge nodes) rows.now) }
    ensures fault { IfErr result (IsFaultOfRow (IsEdge nodes) rows.now) }
{
    let mut table = BitRows::new(alloc, nodes, nodes)?;
    for row in rows {
        let Some((from, to)) = edge_of(&row.numbers, nodes) else {
            return Err(Fault::Line(row.line, wrong_edge(&row.numbers, nodes)));
        };
        table.set(from, to, true);
    }
    Ok(table)
}

// What is wrong with the numbers of a row that is no edge.
fn wrong_edge(numbers: &[usize], nodes: usize) -> Wrong {
    match *numbers {
        [from, _] if from >= nodes => Wrong::NotBelow("the node", from, nodes),
        [_, to] => Wrong::NotBelow("the node", to, nodes),
        _ => Wrong::Form("an edge has to be two nodes"),
    }
}

// The nodes of an edge. `None` is returned exactly where the numbers are none.
fn edge_of(numbers: &[usize], nodes: usize) -> Option<(usize, usize)>
    ensures { MatchOption result (¬ (IsEdge nodes numbers.now))
        (λ edge. IsEdge nodes numbers.now × (numbers.now ≡ edge.0 ∷ edge.1 ∷ [])) }
{
    match *numbers {
        [from, to] if from < nodes && to < nodes => Some((from, to)),
        _ => None,
    }
}

// The row and the column of each bit, in ascending order.
fn pairs_of(alloc: Global, table: &BitRows) -> Result<Vec<(usize, usize)>, AllocError>
    ensures { IfOk result (λ pairs. pairs.items ≡ pairs_in table.now (length table.now.rows)) }
{
    let mut pairs = Vec::new(alloc);
    for row in 0..table.rows() {
        for column in table.row(row) {
            pairs.push((row, column))?;
        }
    }
    Ok(pairs)
}
