//! Texts of replies, appended to an output.
ghost use Rattle.std.specs.Prelude.{◌≡◌, ◌++◌, ◌≤◌, false, drop, take, vec_len, OnOk, OnErr};
ghost use Rattle.std.specs.Fmt.{decimal};
ghost use Rattle.serde_json.specs.View.{view};
ghost use Rattle.serde_json.specs.Written.{has_float, compact_text};
ghost use Rattle.bitcommands.specs.Texts.{flag_text, spaced_text};
ghost use Rattle.bitcommands.specs.Texts.{words_text, order_text, PutsValue};
ghost use Rattle.bitcommands.specs.Outcomes.{number_text};

use fixedbitset::Block;
use serde_json::Value;
use std::alloc::AllocError;
use std::cmp::Ordering;
use std::fmt;

// How many decimal digits a number has, at most.
const DIGITS: usize = 20;

#[inline]
pub(super) fn push_flag(flag: bool, output: &mut Vec<u8>) -> Result<(), AllocError>
    ensures ok { OnOk result (output.new.items ≡ output.old.items ++ flag_text flag) }
    ensures err { OnErr result (output.new.items ≡ output.old.items) }
{
    if flag {
        output.extend_from_slice(b"true")
    } else {
        output.extend_from_slice(b"false")
    }
}

pub(super) fn order_name(order: Ordering) -> &'static str
    ensures { result.now ≡ order_text order }
{
    match order {
        Ordering::Less => "less",
        Ordering::Equal => "equal",
        Ordering::Greater => "greater",
    }
}

// A text that is read as the value. Where an allocation fails the output is as it was.
pub(super) fn push_value(value: &Value, output: &mut Vec<u8>) -> Result<(), AllocError>
    ensures ok { OnOk result (has_float (view value.now) ≡ false
        → output.new.items ≡ output.old.items ++ compact_text (view value.now)) }
    ensures value { OnOk result (PutsValue output.old.items output.new.items (view value.now)) }
    ensures err { OnErr result (output.new.items ≡ output.old.items) }
{
    let text = value.to_vec(*output.allocator())?;
    output.extend_from_slice(text.as_slice())
}

// The text, and the number after it, if there is one. Where an allocation fails the output is as it
// was.
pub(super) fn push_numbered(
    text: &str,
    number: Option<usize>,
    output: &mut Vec<u8>,
) -> Result<(), AllocError>
    ensures ok { OnOk result
        (output.new.items ≡ output.old.items ++ (text.now ++ number_text number)) }
    ensures err { OnErr result (output.new.items ≡ output.old.items) }
{
    let start = output.len();
    output.extend_from_slice(text.as_bytes())?;
    let Some(number) = number else {
        return Ok(());
    };
    let pushed = push_number(number, output);
    if pushed.is_err() {
        output.truncate(start);
    }
    pushed
}

// What stands in a list of a reply: an item of an iterator, or a word.
pub(super) trait Part {
    ghost use Rattle.std.specs.Prelude.{◌≡◌, ◌++◌, List, ℕ, OnOk, OnErr};
    ghost use Rattle.std.specs.Fmt.{WritesOnOk};

    // Its text.
    ghost text_of: { Self → List ℕ };

    // Appends the text to the output. Where an allocation fails the output is as it was.
    fn push_to(&self, output: &mut Vec<u8>) -> Result<(), AllocError>
        ensures ok { OnOk result (output.new.items ≡ output.old.items ++ text_of self.now) }
        ensures err { OnErr result (output.new.items ≡ output.old.items) };

    // Writes the text.
    fn write_to<W: fmt::Write>(&self, f: &mut fmt::Formatter<W>) -> fmt::Result
        ensures { WritesOnOk W.write_str_gives f.old result (text_of self.now) f.new };
}

impl Part for Option<usize> {
    ghost use Rattle.bitcommands.specs.Texts.{item_text};

    ghost text_of = { item_text };

    fn push_to(&self, output: &mut Vec<u8>) -> Result<(), AllocError> {
        match self {
            Some(position) => push_number(*position, output),
            None => output.extend_from_slice(b"none"),
        }
    }

    fn write_to<W: fmt::Write>(&self, f: &mut fmt::Formatter<W>) -> fmt::Result {
        match self {
            Some(position) => write!(f, "{position}"),
            None => f.write_str("none"),
        }
    }
}

impl Part for Block {
    ghost use Rattle.std.specs.Fmt.{decimal};

    ghost text_of = { decimal };

    fn push_to(&self, output: &mut Vec<u8>) -> Result<(), AllocError> {
        push_number(*self as usize, output)
    }

    fn write_to<W: fmt::Write>(&self, f: &mut fmt::Formatter<W>) -> fmt::Result {
        write!(f, "{self}")
    }
}

// The words, one space between two of them, or `-` where there are none. Where an allocation fails
// the output is as it was.
pub(super) fn push_words(words: &[Block], output: &mut Vec<u8>) -> Result<(), AllocError>
    ensures ok { OnOk result (output.new.items ≡ output.old.items ++ words_text words.now) }
    ensures err { OnErr result (output.new.items ≡ output.old.items) }
{
    if words.is_empty() {
        return output.extend_from_slice(b"-");
    }
    push_parts(words, output)
}

// One text for each, one space between two of them. Where an allocation fails the output is as it
// was.
pub(super) fn push_parts<P: Part>(parts: &[P], output: &mut Vec<u8>) -> Result<(), AllocError>
    ensures ok { OnOk result
        (output.new.items ≡ output.old.items ++ spaced_text P.text_of parts.now) }
    ensures err { OnErr result (output.new.items ≡ output.old.items) }
{
    let before = output.len();
    let pushed = push_spaced(parts, output);
    if pushed.is_err() {
        output.truncate(before);
    }
    pushed
}

// The same. Where an allocation fails, a part of the text may be appended to the output.
fn push_spaced<P: Part>(parts: &[P], output: &mut Vec<u8>) -> Result<(), AllocError>
    ensures ok { OnOk result (output.new.items
        ≡ output.old.items ++ spaced_text P.text_of parts.now) }
    ensures err { OnErr result (take (vec_len output.old) output.new.items ≡ output.old.items) }
{
    let Some((first, rest)) = parts.split_first() else {
        return Ok(());
    };
    first.push_to(output)?;
    for part in rest {
        output.push(b' ')?;
        part.push_to(output)?;
    }
    Ok(())
}

pub(super) fn push_number(number: usize, output: &mut Vec<u8>) -> Result<(), AllocError>
    ensures ok { OnOk result (output.new.items ≡ output.old.items ++ decimal number) }
    ensures err { OnErr result (output.new.items ≡ output.old.items) }
{
    let mut digits = [0; DIGITS];
    let start = write_digits(number, &mut digits);
    output.extend_from_slice(&digits[start..])
}

// Writes the digits at the end of the buffer, and returns where they start. Two digits a turn halve
// the divisions that wait for one another.
#[inline]
fn write_digits(number: usize, digits: &mut [u8; DIGITS]) -> usize
    ensures inside { result ≤ 20 }
    ensures written { drop result digits.new ≡ decimal number }
{
    let mut start = DIGITS;
    let mut rest = number;
    while rest > 99 {
        start -= 1;
        digits[start] = b'0' + (rest % 10) as u8;
        start -= 1;
        digits[start] = b'0' + (rest / 10 % 10) as u8;
        rest /= 100;
    }
    if rest > 9 {
        start -= 1;
        digits[start] = b'0' + (rest % 10) as u8;
        start -= 1;
        digits[start] = b'0' + (rest / 10) as u8;
        return start;
    }
    start -= 1;
    digits[start] = b'0' + rest as u8;
    start
}
