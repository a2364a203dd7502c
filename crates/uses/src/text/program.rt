//! How a program reads its input and how it ends.

ghost use Rattle.std.specs.Prelude.{◌≡◌, ◌≤◌, length, IsErr, IfErr, IfOk};
ghost use Rattle.std.specs.Prelude.{IsOkAnd, OnErr, IfSome, string_bytes};
ghost use Rattle.std.specs.Str.{IsUtf8};
ghost use Rattle.std.specs.Str.Lossy.{utf8_valid_len};
ghost use Rattle.std.specs.Process.{exit_status};
ghost use Rattle.std.specs.Io.KnownBytes.{Keeps, Appends};
ghost use Rattle.uses.specs.Faults.{HasLine, line_of};

use crate::text::{Fault, Wrong};
use std::alloc::Global;
use std::io::{ErrorKind, Read, Write};
use std::process::ExitCode;

/// The text that the reader gives to its end.
///
/// The error is that the input cannot be read, that an allocation failed, or the first line that is
/// not UTF-8.
pub fn read<R: Read>(alloc: Global, reader: &mut R) -> Result<String, Fault>
    ensures { IfOk result (λ text.
        IfSome (R.remaining reader.old) (λ bytes. string_bytes text ≡ bytes)) }
{
    let mut bytes = Vec::new(alloc);
    match reader.read_to_end(&mut bytes) {
        Ok(_) => text_of(bytes),
        Err(error) if error.kind() == ErrorKind::OutOfMemory => Err(Fault::Memory),
        Err(_) => Err(Fault::Input),
    }
}

// These bytes as a text. The error has the line of the first byte that belongs to no character.
#[tactic(auto, using(std::proofs::lemmas::Str::utf8_valid_len_le))]
fn text_of(bytes: Vec<u8>) -> Result<String, Fault>
    ensures text { IfOk result (λ text. string_bytes text ≡ bytes.items) }
    ensures fault { OnErr result (¬ (IsUtf8 bytes.items)) }
    ensures line { IfErr result (λ fault.
        HasLine fault (line_of (utf8_valid_len bytes.items) bytes.items)) }
{
    match String::from_utf8(bytes) {
        Ok(text) => Ok(text),
        Err(error) => {
            let line = line_at(error.as_bytes(), error.utf8_error().valid_up_to());
            Err(Fault::Line(line, Wrong::Form("a text has to be UTF-8")))
        }
    }
}

// The number of the line that has the byte at this place, from 1 on.
fn line_at(bytes: &[u8], place: usize) -> usize
    requires { place ≤ length bytes.now }
    ensures { result ≡ line_of place bytes.now }
{
    let line_ends = bytes[..place].iter().filter(|byte| **byte == b'\n');
    line_ends.count() + 1
}

/// Writes the output at once, and ends with status 0. An error is one sentence on standard error:
/// nothing is written then, and the status is 1. So it is where the output cannot be written.
pub fn finish<W: Write>(
    rt: &impl Eprint,
    answer: &Result<String, Fault>,
    writer: &mut W,
) -> ExitCode
    ensures written { exit_status result ≡ 0 → IsOkAnd answer.now (λ text.
        Appends (W.contents writer.old) (W.contents writer.new) (string_bytes text)) }
    ensures refused { IsErr answer.now → exit_status result ≡ 1 }
    ensures nothing { OnErr answer.now (Keeps (W.contents writer.old) (W.contents writer.new)) }
{
    match answer {
        Ok(text) => {
            let sent = writer.write_all(text.as_bytes());
            if sent.is_ok() && writer.flush().is_ok() {
                return ExitCode::SUCCESS;
            }
            let _ = eprintln!(rt; "the answer cannot be written");
        }
        Err(fault) => {
            let _ = eprintln!(rt; "{fault}");
        }
    }
    ExitCode::FAILURE
}
