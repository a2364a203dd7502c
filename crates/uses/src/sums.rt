//! Prints which totals up to a limit the parts of a list of numbers have.
//!
//! The first line is the limit, at most 10,000,000. The numbers of all other lines are the list. A
//! part takes some of them, each at most once. The output is one line with the totals, 0 of the
//! empty part among them, in ascending order. Where some line is not as said here, nothing is
//! printed but one sentence on standard error with the number of that line, and the status is 1.

ghost use Rattle.std.specs.Prelude.{◌≡◌, ℕ, ◌≤◌, List, IfOk, IfErr, string_bytes};
ghost use Rattle.std.specs.List.{flat_map};
ghost use Rattle.fixedbitset.specs.Bits.{asc};
ghost use Rattle.uses.specs.Sums.{HasList, HasTotal};
ghost use Rattle.uses.specs.Texts.{IsRefusal, Prints, in_one_line};

use crate::text::first::{Said, first_number};
use crate::text::{Fault, Row};
use fixedbitset::FixedBitSet;
use parts::totals;
use std::alloc::{AllocError, Global};
use std::fmt::Write;

mod parts;

// The greatest limit that the program takes.
const LIMIT: usize = 10_000_000;

/// What is printed for this text.
pub(crate) fn output(alloc: Global, text: &str) -> Result<String, Fault>
    ensures printed { IfOk result (λ printed. (limit : ℕ) × (numbers : List ℕ)
        × HasList LIMIT text.now limit numbers × Prints in_one_line
        (λ total. (total ≤ limit) × HasTotal numbers total) (string_bytes printed)) }
    ensures fault { IfErr result
        (IsRefusal ((limit : ℕ) × (numbers : List ℕ) × HasList LIMIT text.now limit numbers)) }
{
    let rows = crate::text::rows(alloc, text)?;
    let said = Said {
        missing: "the limit is missing",
        form: "the limit has to be one number",
        name: "the limit",
    };
    let (limit, others) = first_number(&rows, LIMIT, &said)?;
    Ok(totals_of(alloc, others, limit)?)
}

// The totals up to the limit that parts of the numbers of these rows have, in one line.
#[tactic(auto, using(crate::proofs::Answered::prints))]
fn totals_of(alloc: Global, rows: &[Row], limit: usize) -> Result<String, AllocError>
    requires { limit ≤ LIMIT }
    ensures { IfOk result (λ text. Prints in_one_line (λ total. (total ≤ limit)
        × HasTotal (flat_map (λ row. row.numbers.items) rows.now) total) (string_bytes text)) }
{
    let numbers = numbers_of(alloc, rows)?;
    line_of(alloc, &totals(alloc, &numbers, limit)?)
}

// The totals in one line.
fn line_of(alloc: Global, totals: &FixedBitSet) -> Result<String, AllocError>
    ensures { IfOk result (λ text. string_bytes text ≡ in_one_line (asc totals.now)) }
{
    let mut line = String::new(alloc);
    let mut left = totals.ones();
    if let Some(least) = left.next() {
        write!(line, "{least}")?;
    }
    for total in left {
        write!(line, " {total}")?;
    }
    line.push_str("\n")?;
    Ok(line)
}

// The numbers of all rows, row after row.
fn numbers_of(alloc: Global, rows: &[Row]) -> Result<Vec<usize>, AllocError>
    ensures { IfOk result
        (λ numbers. numbers.items ≡ flat_map (λ row. row.numbers.items) rows.now) }
{
    let mut numbers = Vec::new(alloc);
    for row in rows {
        numbers.extend_from_slice(&row.numbers)?;
    }
    Ok(numbers)
}
