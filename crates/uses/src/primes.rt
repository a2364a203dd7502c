//! Prints the primes below a number, one a line.
//!
//! Standard input has one line with the number, at most 10,000,000. Where it is not as said here,
//! nothing is printed but one sentence on standard error with the number of the line, and the
//! status is 1.

ghost use Rattle.std.specs.Prelude.{ℕ, ◌<◌, IfOk, IfErr, string_bytes};
ghost use Rattle.uses.specs.Primes.{HasEnd, IsPrime};
ghost use Rattle.uses.specs.Texts.{IsRefusal, Prints, one_a_line};

use crate::text::first::{Said, first_number};
use crate::text::sets::as_lines;
use crate::text::{Fault, Wrong};
use sieve::{LIMIT, primes};
use std::alloc::Global;

mod sieve;

/// What is printed for this text.
pub(crate) fn output(alloc: Global, text: &str) -> Result<String, Fault>
    ensures printed { IfOk result (λ printed. (end : ℕ) × HasEnd LIMIT text.now end
        × Prints one_a_line (λ p. (p < end) × IsPrime p) (string_bytes printed)) }
    ensures fault { IfErr result (IsRefusal ((end : ℕ) × HasEnd LIMIT text.now end)) }
{
    let rows = crate::text::rows(alloc, text)?;
    let said = Said {
        missing: "the number is missing",
        form: "there has to be one number",
        name: "the number",
    };
    let (end, others) = first_number(&rows, LIMIT, &said)?;
    if let Some(other) = others.first() {
        return Err(Fault::Line(other.line, Wrong::Form("there has to be one line")));
    }
    Ok(as_lines(alloc, &primes(alloc, end)?)?)
}
