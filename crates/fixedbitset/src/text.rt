//! The text of a set: one character for each position, from position 0 on, `1` where it is
//! set and `0` where not.

ghost use Rattle.std.specs.Prelude.{◌≡◌, ℕ, ◌+◌, ◌<◌, Some, get_or};
ghost use Rattle.std.specs.Int.{bit_at};
ghost use Rattle.std.specs.Fmt.{WritesStyledOnOk, formatter_spec, spec_alternate};
ghost use Rattle.std.specs.Str.{IsUtf8};
ghost use Rattle.fixedbitset.specs.Text.{text, prefix, styled_text};

use crate::set::FixedBitSet;
use bitlanes::word::{BITS, Block};
use std::fmt;
use std::fmt::{Binary, Display};

impl Display for FixedBitSet {
    ghost output = { λ v. Some (text v) };

    ghost styled_output = { λ v spec. Some (styled_text (spec_alternate spec) v) };

    /// Writes what `Binary` writes, in as many calls.
    ///
    /// ```
    /// let set = FixedBitSet::with_capacity_and_blocks(alloc, 4, [2])?;
    /// assert_eq!(rt; set.to_string(alloc)?.as_str(), "0100");
    /// assert_eq!(rt; format!(in alloc; "{set:#}")?.as_str(), "0b0100");
    /// ```
    fn fmt<W: fmt::Write>(&self, f: &mut fmt::Formatter<W>) -> fmt::Result {
        Binary::fmt(self, f)
    }
}

impl Binary for FixedBitSet {
    /// Writes `len()` characters, that of position 0 first: `1` where the position is set, and
    /// `0` where not. So a set of length 0 is the empty text. `{:#}` puts `0b` in front; width
    /// and fill change nothing.
    ///
    /// It gives the writer the characters of one word at a time: `len() / 64` calls, rounded up,
    /// and one more for `0b`. `Err` comes only from the writer, which then has what was written
    /// before.
    ///
    /// ```
    /// let set = FixedBitSet::with_capacity_and_blocks(alloc, 4, [2])?;
    /// let mut f = Formatter::new(String::new(alloc));
    /// Binary::fmt(&set, &mut f)?;
    /// assert_eq!(rt; f.into_inner().as_str(), "0100");
    /// ```
    fn fmt<W: fmt::Write>(&self, f: &mut fmt::Formatter<W>) -> fmt::Result
        ensures { WritesStyledOnOk W.write_str_gives f.old result
            (styled_text (spec_alternate (formatter_spec f.old)) self.now) f.new }
    {
        write_prefix(f)?;
        self.write_digits(f)
    }
}

// Writes what stands in front of the characters.
fn write_prefix<W: fmt::Write>(f: &mut fmt::Formatter<W>) -> fmt::Result
    ensures { WritesStyledOnOk W.write_str_gives f.old result
        (prefix (spec_alternate (formatter_spec f.old))) f.new }
{
    if f.alternate() {
        f.write_str("0b")
    } else {
        Ok(())
    }
}

impl FixedBitSet {
    // Writes the characters of all positions.
    fn write_digits<W: fmt::Write>(&self, f: &mut fmt::Formatter<W>) -> fmt::Result
        ensures { WritesStyledOnOk W.write_str_gives f.old result (text self.now) f.new }
    {
        let mut digits = [0; BITS];
        let mut left = self.len();
        for word in self.as_slice() {
            put_digits(*word, &mut digits);
            let count = left.min(BITS);
            f.write_str(text_of(&digits[..count]))?;
            left -= count;
        }
        Ok(())
    }
}

// The digits as a text: they are ASCII.
fn text_of(digits: &[u8]) -> &str
    requires { IsUtf8 digits.now }
    ensures { result.now ≡ digits.now }
{
    unsafe { str::from_utf8_unchecked(digits) }
}

// Makes the bits of a word characters, the lowest bit first.
#[inline]
fn put_digits(word: Block, digits: &mut [u8; BITS])
    ensures { (i : ℕ) → i < 64 → get_or digits.new i 0 ≡ 48 + bit_at word i }
{
    for index in 0..BITS {
        digits[index] = b'0' + (word >> index & 1) as u8;
    }
}
