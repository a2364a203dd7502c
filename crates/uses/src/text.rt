//! Rows of numbers in a text, the one number of a first row, sets of such numbers, and how a
//! program reads its input and ends: what the worked uses share.
//!
//! Each line of the text is a row. Its words stand between spaces, and each of them has to be a
//! number: one or more decimal digits and nothing else, of a value below 2 ^ 64
//! (`specs/Rows.antt`). A line without words is a row without numbers. Where some line is not as it
//! should be, there is an error with the number of the first such line.

ghost use Rattle.std.specs.Prelude.{◌≡◌, ◌+◌, ◌==◌, ℕ, IfOk, IfErr, OnOk};
ghost use Rattle.std.specs.Prelude.{MatchOption, All, EachIndex, map};
ghost use Rattle.std.specs.List.{slice_split};
ghost use Rattle.std.specs.Option.{SomeIff};
ghost use Rattle.std.specs.Str.Lines.{lines};
ghost use Rattle.uses.specs.Rows.{IsNumber, IsRow, AreRowsOf, value, row_of};
ghost use Rattle.uses.specs.Faults.{IsFaultOfLine};

use std::alloc::{AllocError, AllocFailed, Global};
use thiserror::Error;

pub mod first;
pub mod program;
pub mod sets;

/// The numbers of a line.
#[derive(Debug, Drop)]
pub struct Row {
    /// The number of the line, from 1 on.
    pub line: usize,
    pub numbers: Vec<usize>,
}

/// Why there is no output for a text.
#[derive(Debug, Drop, Error)]
pub enum Fault {
    /// An allocation failed.
    #[error("out of memory")]
    Memory,
    /// The input cannot be read.
    #[error("the input cannot be read")]
    Input,
    /// The line of this number, from 1 on, is wrong as it is said.
    #[error("line {0}: {1}")]
    Line(usize, Wrong),
}

/// What is wrong with a line.
#[derive(Debug, Drop, Error)]
pub enum Wrong {
    /// It has not the form that the sentence says.
    #[error("{0}")]
    Form(&'static str),
    /// What is named has this number, which is not below the bound.
    #[error("{0} {1} is not below {2}")]
    NotBelow(&'static str, usize, usize),
    /// What is named has this number, which is above the greatest.
    #[error("{0} {1} is above {2}")]
    Above(&'static str, usize, usize),
    /// The sentence says what would go past this number.
    #[error("{0} {1}")]
    Past(&'static str, usize),
}

impl From<AllocError> for Fault {
    ghost use Rattle.uses.specs.declared.text.Fault.TheVariants.{Memory};

    ghost from_gives = { λ _ fault. fault ≡ Memory };

    fn from(_refused: AllocError) -> Fault {
        Fault::Memory
    }
}

impl<T: Drop> From<AllocFailed<T>> for Fault {
    ghost use Rattle.uses.specs.declared.text.Fault.TheVariants.{Memory};

    ghost from_gives = { λ _ fault. fault ≡ Memory };

    fn from(_refused: AllocFailed<T>) -> Fault {
        Fault::Memory
    }
}

/// The numbers of each line, with the number of the line. It looks at each byte a
/// fixed number of times.
///
/// The error is that an allocation failed, or it has the first line that is not a row of numbers.
pub fn rows(alloc: Global, text: &str) -> Result<Vec<Row>, Fault>
    ensures rows { IfOk result (λ rows. AreRowsOf (lines text.now) rows.items) }
    ensures fault { IfErr result (IsFaultOfLine IsRow (lines text.now)) }
{
    let lines = lines_of(alloc, text)?;
    let mut rows = Vec::new(alloc);
    for line in &lines {
        let number = rows.len() + 1;
        let Some(numbers) = numbers_of(alloc, line)? else {
            let wanted = "each word has to be a number below 2^64";
            return Err(Fault::Line(number, Wrong::Form(wanted)));
        };
        rows.push(Row {
            line: number,
            numbers,
        })?;
    }
    Ok(rows)
}

/// The numbers of one line. `None` is returned exactly where some word of it is not a number.
pub fn numbers_of(alloc: Global, line: &str) -> Result<Option<Vec<usize>>, AllocError>
    ensures { IfOk result (λ read. MatchOption read (¬ (IsRow line.now))
        (λ numbers. IsRow line.now × (numbers.items ≡ row_of line.now))) }
{
    let words = pieces_of(alloc, line)?;
    let mut numbers = Vec::new(alloc);
    for word in &words {
        if !word.is_empty() {
            let Some(number) = number(word) else {
                return Ok(None);
            };
            numbers.push(number)?;
        }
    }
    Ok(Some(numbers))
}

fn lines_of<'a>(alloc: Global, text: &'a str) -> Result<Vec<&'a str>, AllocError>
    ensures { IfOk result (λ list. map (λ line. line.now) list.items ≡ lines text.now) }
{
    text.lines().collect(alloc)
}

// What stands between the spaces of a line, empty pieces among them.
fn pieces_of<'a>(alloc: Global, line: &'a str) -> Result<Vec<&'a str>, AllocError>
    ensures { IfOk result (λ list.
        map (λ piece. piece.now) list.items ≡ slice_split (λ b. b == 32) line.now) }
{
    line.split(' ').collect(alloc)
}

// `parse` would take a plus before the digits.
fn number(word: &str) -> Option<usize>
    ensures { SomeIff result (IsNumber word.now) (value word.now) }
{
    if word.starts_with('+') {
        return None;
    }
    word.parse().ok()
}
