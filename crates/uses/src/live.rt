//! Reads a small program from standard input, one statement a line, and prints for each statement,
//! by its number from 0 on, the variables that are live before it.
//!
//! Variables are the letters a to z. A line says what its statement defines, what it uses, and the
//! numbers of those that may come next, as `x = y z -> 2 3`. Where some line is no such line, or
//! names a statement that there is not, nothing is printed but one sentence on standard error with
//! the number of that line, from 1 on, and the status is 1.

ghost use Rattle.std.specs.Prelude.{◌≡◌, ℕ, ◌+◌, ◌<◌, ◌≤◌, ◌⊎◌, ◌↔◌, MatchOption};
ghost use Rattle.std.specs.Prelude.{IfOk, OnOk, IfSome, IsTrue, All, Contains, length};
ghost use Rattle.fixedbitset.specs.Bits.{contains};
ghost use Rattle.flow.specs.Flow.{HaveLength, IsProblem};
ghost use Rattle.uses.specs.Variables.{AreLetters, AreVariables};

use crate::text::{Fault, Wrong, numbers_of};
use fixedbitset::FixedBitSet;
use std::alloc::{AllocError, Global};
use std::fmt::Write;
use variables::live_before;

mod variables;

/// All variables, each at the position that stands for it.
const LETTERS: &[u8; 26] = b"abcdefghijklmnopqrstuvwxyz";

/// A line that was read.
#[derive(Drop)]
struct Statement {
    defines: FixedBitSet,
    uses: FixedBitSet,
    // The numbers of those that may come next.
    next: Vec<usize>,
}

/// The statements that were read.
#[derive(Drop)]
struct Program {
    uses: Vec<FixedBitSet>,
    defines: Vec<FixedBitSet>,
    // Pairs of a statement and one that may come next.
    next: Vec<(usize, usize)>,
}

/// What is printed for this text.
pub(crate) fn output(alloc: Global, text: &str) -> Result<String, Fault> {
    let Program {
        uses,
        defines,
        next,
    } = program_of(alloc, text)?;
    let live = live_before(alloc, LETTERS.len(), &next, &uses, &defines)?;
    Ok(lines_of(alloc, &live)?)
}

// A line for each statement: its number, and the variables of its set.
fn lines_of(alloc: Global, live: &[FixedBitSet]) -> Result<String, AllocError> {
    let mut lines = String::new(alloc);
    for (number, variables) in live.iter().enumerate() {
        write!(lines, "{number}:")?;
        write_letters(&mut lines, variables)?;
        lines.push('\n')?;
    }
    Ok(lines)
}

// Adds the letters of these variables.
fn write_letters(line: &mut String, variables: &FixedBitSet) -> Result<(), AllocError> {
    for (variable, letter) in LETTERS.iter().enumerate() {
        if variables.contains(variable) {
            let letter = char::from(*letter);
            write!(line, " {letter}")?;
        }
    }
    Ok(())
}

// The program of these lines. The error has the first line that is no statement, or else the first
// with a next statement that there is not.
fn program_of(alloc: Global, text: &str) -> Result<Program, Fault>
    ensures { IfOk result (λ program.
        IsProblem 26 program.next.items program.uses.items program.defines.items) }
{
    let program = statements_of(alloc, text)?;
    check_next(&program)?;
    Ok(program)
}

// The statements of these lines. The error has the first line that is none.
fn statements_of(alloc: Global, text: &str) -> Result<Program, Fault>
    ensures many { IfOk result (λ program.
        length program.uses.items ≡ length program.defines.items) }
    ensures uses { IfOk result (λ program. HaveLength 26 program.uses.items) }
    ensures defines { IfOk result (λ program. HaveLength 26 program.defines.items) }
    ensures from { IfOk result (λ program.
        All (λ edge. edge.0 < length program.uses.items) program.next.items) }
{
    let mut uses = Vec::new(alloc);
    let mut defines = Vec::new(alloc);
    let mut next = Vec::new(alloc);
    for line in text.lines() {
        let from = uses.len();
        let Some(statement) = statement_of(alloc, line)? else {
            let wanted = "a statement has to be as in x = y z -> 2 3";
            return Err(Fault::Line(from + 1, Wrong::Form(wanted)));
        };
        add_next(&mut next, from, &statement.next)?;
        uses.push(statement.uses)?;
        defines.push(statement.defines)?;
    }
    Ok(Program {
        uses,
        defines,
        next,
    })
}

// Adds the pairs of a statement, which is past those before, and each that may come next.
fn add_next(pairs: &mut Vec<(usize, usize)>, from: usize, next: &[usize]) -> Result<(), AllocError>
    requires { All (λ pair. pair.0 ≤ from) pairs.old.items }
    ensures { OnOk result (All (λ pair. pair.0 ≤ from) pairs.new.items) }
{
    for to in next {
        pairs.push((from, *to))?;
    }
    Ok(())
}

// Whether each next statement is there. The error has the first line with one that is not.
fn check_next(program: &Program) -> Result<(), Fault>
    requires { All (λ edge. edge.0 < length program.now.uses.items) program.now.next.items }
    ensures { OnOk result
        (All (λ edge. edge.1 < length program.now.uses.items) program.now.next.items) }
{
    for (from, to) in &program.next {
        if *to >= program.uses.len() {
            let wrong = Wrong::NotBelow("the next statement", *to, program.uses.len());
            return Err(Fault::Line(*from + 1, wrong));
        }
    }
    Ok(())
}

// The statement of a line, if it is one.
fn statement_of(alloc: Global, line: &str) -> Result<Option<Statement>, AllocError>
    ensures { IfOk result (λ read. IfSome read (λ statement.
        (statement.defines.length ≡ 26) × (statement.uses.length ≡ 26))) }
{
    let Some((defined, rest)) = line.split_once('=') else {
        return Ok(None);
    };
    let Some((used, numbers)) = rest.split_once("->") else {
        return Ok(None);
    };
    let (Some(defines), Some(uses), Some(next)) = (
        variables_of(alloc, defined)?,
        variables_of(alloc, used)?,
        numbers_of(alloc, numbers)?,
    ) else {
        return Ok(None);
    };
    Ok(Some(Statement {
        defines,
        uses,
        next,
    }))
}

// The set of the variables that a text names. `None` is returned exactly where it has more than
// their letters and spaces.
fn variables_of(alloc: Global, text: &str) -> Result<Option<FixedBitSet>, AllocError>
    ensures { IfOk result (λ read. MatchOption read (¬ (AreLetters text.now))
        (λ set. AreLetters text.now × AreVariables text.now set)) }
{
    let mut set = FixedBitSet::with_capacity(alloc, LETTERS.len())?;
    for byte in text.as_bytes() {
        match *byte {
            b' ' => {}
            b'a'..=b'z' => set.insert(usize::from(*byte - b'a')),
            _ => return Ok(None),
        }
    }
    Ok(Some(set))
}
