//! The one number of a first line.

ghost use Rattle.std.specs.Prelude.{◌≡◌, ◌≤◌, ◌∷◌, [], IfOk, IfErr};
ghost use Rattle.uses.specs.Faults.{HasLine};
ghost use Rattle.uses.specs.Texts.{IsOne, HasFirst, IsFaultOfFirst};

use crate::text::{Fault, Row, Wrong};

/// What is said of a first line that is not one number up to a limit.
#[derive(Clone, Copy)]
pub struct Said {
    /// Where there is no line.
    pub missing: &'static str,
    /// Where the line is not one number.
    pub form: &'static str,
    /// What the number is called where it is above the limit.
    pub name: &'static str,
}

/// The number of the first row, and the other rows. The error is that the first row is not one
/// number up to the limit, or that there is none.
pub fn first_number<'a>(
    rows: &'a [Row],
    limit: usize,
    said: &Said,
) -> Result<(usize, &'a [Row]), Fault>
    ensures found { IfOk result (λ found. HasFirst rows.now found.0 found.1.now) }
    ensures limit { IfOk result (λ found. found.0 ≤ limit) }
    ensures fault { IfErr result (IsFaultOfFirst (IsOne (λ number. number ≤ limit)) rows.now) }
{
    let Some((first, others)) = rows.split_first() else {
        return Err(Fault::Line(1, Wrong::Form(said.missing)));
    };
    Ok((number_of(first, limit, said)?, others))
}

// The number of a row that is one number up to the limit.
fn number_of(row: &Row, limit: usize, said: &Said) -> Result<usize, Fault>
    ensures found { IfOk result (λ number. row.now.numbers.items ≡ number ∷ []) }
    ensures limit { IfOk result (λ number. number ≤ limit) }
    ensures fault { IfErr result (λ fault. (¬ (IsOne (λ number. number ≤ limit)
        row.now.numbers.items)) × HasLine fault row.now.line) }
{
    match *row.numbers.as_slice() {
        [number] if number <= limit => Ok(number),
        [number] => Err(Fault::Line(row.line, Wrong::Above(said.name, number, limit))),
        _ => Err(Fault::Line(row.line, Wrong::Form(said.form))),
    }
}
