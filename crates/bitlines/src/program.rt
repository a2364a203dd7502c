//! The program over any reader and writer.
ghost use Rattle.std.specs.Prelude.{◌≡◌, ◌≢◌, ◌∷◌, ◌++◌, ℕ, ◌<◌, List, length};
ghost use Rattle.std.specs.Prelude.{replicate, IfOk, OnOk, IfErr, Err};
ghost use Rattle.std.specs.Io.{StartsWith};
ghost use Rattle.std.specs.Io.KnownBytes.{Keeps, Appends};
ghost use Rattle.fixedbitset.specs.Bits.{empty};
ghost use Rattle.bitlines.specs.Output.{IsOutput, lines_of};
ghost use Rattle.bitcommands.specs.Actions.{action_of};
ghost use Rattle.bitlines.specs.OneLine.{AnswersLine, AnswersCommand};
ghost use Rattle.bitlines.specs.Program.{IsRead, status_of};

use crate::lines::{LineFault, parse_line};
use crate::near::find_near;
use bitcommands::commands::{Command, apply};
use fixedbitset::FixedBitSet;
use std::alloc::{AllocError, Global};
use std::io::{Read, Write};
use thiserror::Error;

/// How many sets there are.
const SETS: usize = 16;

/// The greatest length that a command may ask for.
const LIMIT: usize = 1_000_000;

/// How many bytes are read at a time, at most.
const BUFFER: usize = 16_384;

/// Why the program ended early.
#[derive(Debug, Drop, Error)]
pub enum RunFault {
    /// A read returned an error. Nothing was written.
    #[error("read failed")]
    Read,
    /// A write or the flush returned an error, or a write took none of the bytes left. What went
    /// out is a beginning of the output.
    #[error("write failed")]
    Write,
    /// An allocation failed. Nothing was written.
    #[error("no memory")]
    Memory,
}

/// Reads all bytes, carries out their lines over sixteen sets of length 0 with the limit 1,000,000,
/// and writes one line for each. The reader has to end.
///
/// It builds the whole output before it writes the first byte, and flushes after the last one. No
/// failed read or write is tried again. It is linear in input and output, which it keeps whole.
///
/// ```
/// let mut input = "grow 0 9\nlen 0\nlen\n".as_bytes();
/// let mut output = Vec::new(alloc);
/// program::run_text(alloc, &mut input, &mut output)?;
/// let wanted = "ok\n9\nF8 not a command\n";
/// assert_eq!(rt; output.as_slice(), wanted.as_bytes());
/// ```
pub fn run_text<R: Read, W: Write>(
    alloc: Global,
    reader: &mut R,
    writer: &mut W,
) -> Result<(), RunFault>
    ensures ok { OnOk result ((input output : List ℕ)
        × IsRead R.remaining reader.old reader.new input
        × IsOutput input output × Appends (W.contents writer.old) (W.contents writer.new) output) }
    ensures write { result ≡ Err RunFault.Write
        → (input output sent : List ℕ) × IsRead R.remaining reader.old reader.new input
        × IsOutput input output × StartsWith output sent
        × Appends (W.contents writer.old) (W.contents writer.new) sent }
    ensures read { result ≡ Err RunFault.Read
        → Keeps (W.contents writer.old) (W.contents writer.new) }
    ensures memory { result ≡ Err RunFault.Memory
        → Keeps (W.contents writer.old) (W.contents writer.new) }
{
    let input = read_all(alloc, reader)?;
    let Ok(output) = output_of(alloc, input.as_slice()) else {
        return Err(RunFault::Memory);
    };
    send(writer, output.as_slice())
}

/// The exit status: 0 for success, 1 for `Read`, 2 for `Write`, 3 for `Memory`.
///
/// ```
/// assert_eq!(rt; program::status(&Ok(())), 0);
/// assert_eq!(rt; program::status(&Err(RunFault::Write)), 2);
/// ```
pub fn status(outcome: &Result<(), RunFault>) -> u8
    ensures { result ≡ status_of outcome.now }
{
    match outcome {
        Ok(()) => 0,
        Err(RunFault::Read) => 1,
        Err(RunFault::Write) => 2,
        Err(RunFault::Memory) => 3,
    }
}

// The output for an input.
fn output_of(alloc: Global, input: &[u8]) -> Result<Vec<u8>, AllocError>
    ensures { IfOk result (λ output. IsOutput input.now output.items) }
{
    let mut sets = new_sets(alloc)?;
    let sets = sets.as_mut_slice();
    let mut output = Vec::new(alloc);
    let mut rest = input;
    while !rest.is_empty() {
        let (line, more) = first_line(rest);
        answer_line(alloc, sets, line, &mut output)?;
        rest = more;
    }
    Ok(output)
}

// Carries out a line, and appends its reply, or an error, and a line end to the output.
fn answer_line(
    alloc: Global,
    sets: &mut [FixedBitSet],
    line: &[u8],
    output: &mut Vec<u8>,
) -> Result<(), AllocError>
    ensures { OnOk result ((out : List ℕ) × (output.new.items ≡ output.old.items ++ out)
        × AnswersLine line.now sets.old sets.new out) }
{
    match &parse_line(alloc, line) {
        Ok(command) => answer_command(alloc, sets, command, output),
        Err(LineFault::NotACommand) => output.extend_from_slice(b"F8 not a command\n"),
        Err(LineFault::Memory) => Err(AllocError),
    }
}

// Carries out a command, and appends its reply and a line end to the output.
fn answer_command(
    alloc: Global,
    sets: &mut [FixedBitSet],
    command: &Command,
    output: &mut Vec<u8>,
) -> Result<(), AllocError>
    ensures { OnOk result ((out : List ℕ) × (output.new.items ≡ output.old.items ++ out)
        × AnswersCommand (action_of command.now) sets.old sets.new out) }
{
    apply(alloc, sets, command, LIMIT).push_text(output)?;
    output.push(b'\n')?;
    Ok(())
}

fn new_sets(alloc: Global) -> Result<Vec<FixedBitSet>, AllocError>
    ensures { IfOk result (λ sets. sets.items ≡ replicate 16 (empty 0)) }
{
    let mut sets = Vec::new(alloc);
    for _ in 0..SETS {
        sets.push(FixedBitSet::new(alloc))?;
    }
    Ok(sets)
}

// The first line, and what stands after its line end.
#[tactic(auto, using(crate::proofs::Outputs::lines_of_found, crate::proofs::Outputs::lines_of_none, crate::proofs::Outputs::lines_of_nil))]
fn first_line(text: &[u8]) -> (&[u8], &[u8])
    requires { 0 < length text.now }
    ensures lines { lines_of text.now ≡ result.0.now ∷ lines_of result.1.now }
    ensures shorter { length result.1.now < length text.now }
{
    match find_near(text, b'\n') {
        Some(end) => (&text[..end], &text[end + 1..]),
        None => (text, &text[text.len()..]),
    }
}

// Reads to the end.
fn read_all<R: Read>(alloc: Global, reader: &mut R) -> Result<Vec<u8>, RunFault>
    ensures ok { IfOk result (λ input. IsRead R.remaining reader.old reader.new input.items) }
    ensures err { IfErr result (λ fault. fault ≢ RunFault.Write) }
{
    let mut input = Vec::new(alloc);
    let mut buffer = [0; BUFFER];
    for _ in 0..u64::MAX {
        let Ok(count) = reader.read(&mut buffer) else {
            return Err(RunFault::Read);
        };
        if count == 0 {
            return Ok(input);
        }
        if input.extend_from_slice(&buffer[..count]).is_err() {
            return Err(RunFault::Memory);
        }
    }
    Err(RunFault::Memory)
}

// Writes all the bytes, and flushes.
fn send<W: Write>(writer: &mut W, bytes: &[u8]) -> Result<(), RunFault>
    ensures ok { OnOk result (Appends (W.contents writer.old) (W.contents writer.new) bytes.now) }
    ensures err { IfErr result
        (λ fault. (fault ≡ RunFault.Write) × ((sent : List ℕ) × StartsWith bytes.now sent
        × Appends (W.contents writer.old) (W.contents writer.new) sent)) }
{
    let mut done = 0;
    while done < bytes.len() {
        match writer.write(&bytes[done..]) {
            Ok(0) | Err(_) => return Err(RunFault::Write),
            Ok(count) => done += count,
        }
    }
    match writer.flush() {
        Ok(()) => Ok(()),
        Err(_) => Err(RunFault::Write),
    }
}
