//! The words of a line.
ghost use Rattle.std.specs.Prelude.{◌≡◌, ◌≤◌, ◌+◌, ◌-◌, ◌*◌, ◌^◌, ◌==◌, ℕ, false, true};
ghost use Rattle.std.specs.Prelude.{◌∷◌, [], length, position, IsTrue, MatchOption};
ghost use Rattle.std.specs.Char.{is_ascii_digit};
ghost use Rattle.serde_json.specs.View.{view};
ghost use Rattle.bitlines.specs.Words.{words, number_of, number_at, at_end};
ghost use Rattle.bitlines.specs.Arguments.{is, flag_of, flag_at, json_of, json_at};
ghost use Rattle.bitlines.specs.Cursor.{words_left};
ghost use Rattle.bitlines.specs.Reads.{Reads};

use crate::fault::LineFault;
use serde_json::Value;
use std::alloc::Global;
use std::marker::Model;

/// The words of a line that are still to be read.
#[derive(Drop)]
pub(crate) struct Words<'a> {
    rest: Option<&'a [u8]>,
}

impl<'a> Model for Words<'a> {
    ghost use Rattle.std.specs.Prelude.{List, ℕ};
    ghost use Rattle.bitlines.specs.Cursor.{words_left};

    ghost Value = { List (List ℕ) };

    ghost view = { λ w. words_left w.rest };
}

impl<'a> Words<'a> {
    #[inline]
    pub(crate) fn new(line: &'a [u8]) -> Words<'a>
        ensures { result ≡ words line.now }
    {
        Words { rest: Some(line) }
    }

    /// The next word.
    #[inline]
    pub(crate) fn next(&mut self) -> Option<&'a [u8]>
        ensures { MatchOption result ((self.old ≡ []) × (self.new ≡ []))
            (λ w. self.old ≡ w.now ∷ self.new) }
    {
        let line = self.rest?;
        match find(line, b' ') {
            Some(end) => {
                self.rest = Some(&line[end + 1..]);
                Some(&line[..end])
            }
            None => {
                self.rest = None;
                Some(line)
            }
        }
    }

    /// The next word as a number.
    #[tactic(auto, unfolding(crate::specs::Words::number_at))]
    #[inline]
    pub(crate) fn number(&mut self) -> Result<usize, LineFault>
        ensures { Reads false (λ n. (n, self.new)) result (number_at self.old) }
    {
        let line = self.rest.ok_or(LineFault::NotACommand)?;
        let (number, rest) = first_number(line)?;
        self.rest = rest;
        Ok(number)
    }

    /// The next word as `true` or `false`.
    #[tactic(auto, unfolding(crate::specs::Arguments::flag_at))]
    pub(crate) fn flag(&mut self) -> Result<bool, LineFault>
        ensures { Reads false (λ e. (e, self.new)) result (flag_at self.old) }
    {
        let word = self.next().ok_or(LineFault::NotACommand)?;
        flag(word).ok_or(LineFault::NotACommand)
    }

    /// All the words that are left, with the spaces between them, as a JSON value.
    #[tactic(auto, using(crate::proofs::JsonTexts::json_at_words, crate::proofs::JsonTexts::json_at_none))]
    pub(crate) fn json(&self, alloc: Global) -> Result<Value, LineFault>
        ensures { Reads true view result (json_at self.now) }
    {
        let text = self.rest.ok_or(LineFault::NotACommand)?;
        json(alloc, text)
    }

    /// Whether no word is left.
    #[tactic(auto, using(crate::proofs::LineSplits::some_words))]
    #[inline]
    pub(crate) fn is_empty(&self) -> bool
        ensures { result ≡ (length self.now == 0) }
    {
        self.rest.is_none()
    }

    /// No word is left.
    #[tactic(auto, using(crate::proofs::LineSplits::not_at_end), unfolding(crate::specs::Words::at_end))]
    #[inline]
    pub(crate) fn end(&self) -> Result<(), LineFault>
        ensures { Reads false (λ u. u) result (at_end self.now) }
    {
        match self.rest {
            Some(_) => Err(LineFault::NotACommand),
            None => Ok(()),
        }
    }
}

/// The place of the first such byte.
#[inline]
pub(crate) fn find(text: &[u8], byte: u8) -> Option<usize>
    ensures { result ≡ position (λ b. b == byte) text.now }
{
    text.iter().position(|b| *b == byte)
}

/// Whether the word is this text. The first bytes are compared before all are, so a caller with
/// many texts is compiled to a jump by that byte.
#[inline(always)]
pub(crate) fn is<const N: usize>(word: &[u8], text: &[u8; N]) -> bool
    ensures { result ≡ is word.now text.now }
{
    match word.as_array::<N>() {
        Some(word) => (N == 0 || word[0] == text[0]) && *word == *text,
        None => false,
    }
}

#[tactic(auto, unfolding(crate::specs::Arguments::flag_of))]
fn flag(word: &[u8]) -> Option<bool>
    ensures { result ≡ flag_of word.now }
{
    if is(word, b"true") {
        Some(true)
    } else if is(word, b"false") {
        Some(false)
    } else {
        None
    }
}

// A text as a JSON value.
#[tactic(auto, unfolding(crate::specs::Arguments::json_of), using(crate::proofs::JsonTexts::read_here, crate::proofs::JsonTexts::not_read_here))]
fn json(alloc: Global, text: &[u8]) -> Result<Value, LineFault>
    ensures { Reads true view result (json_of text.now) }
{
    match Value::from_slice(alloc, text) {
        Ok(value) => Ok(value),
        Err(error) if error.is_memory() => Err(LineFault::Memory),
        Err(_) => Err(LineFault::NotACommand),
    }
}

/// The first word of a text as a number, and the text after the space after it, if there is one.
/// Each byte is looked at once.
#[inline]
fn first_number(text: &[u8]) -> Result<(usize, Option<&[u8]>), LineFault>
    ensures { Reads false (λ x. (x.0, words_left x.1)) result (number_at (words text.now)) }
{
    if text.is_empty() || !text[0].is_ascii_digit() {
        return Err(LineFault::NotACommand);
    }
    let mut value = 0;
    let mut at = 0;
    while at < text.len() {
        match with_digit(value, text[at]) {
            Some(more) => value = more,
            None if text[at] == b' ' => return Ok((value, Some(&text[at + 1..]))),
            None => return Err(LineFault::NotACommand),
        }
        at += 1;
    }
    Ok((value, None))
}

/// One or more decimal digits as a number, where it is below 2 ^ 64.
#[inline]
pub(crate) fn number(word: &[u8]) -> Option<usize>
    ensures { result ≡ number_of word.now }
{
    if word.is_empty() {
        return None;
    }
    let mut value = 0;
    for byte in word {
        value = with_digit(value, *byte)?;
    }
    Some(value)
}

// A number with one more digit, where it is one, and below 2 ^ 64.
#[inline(always)]
fn with_digit(value: usize, byte: u8) -> Option<usize>
    ensures { MatchOption result (IsTrue (is_ascii_digit byte) → 2 ^ 64 ≤ value * 10 + (byte - 48))
        (λ n. IsTrue (is_ascii_digit byte) × (n ≡ value * 10 + (byte - 48))) }
{
    if !byte.is_ascii_digit() {
        return None;
    }
    let tens = value.checked_mul(10)?;
    tens.checked_add(usize::from(byte - b'0'))
}
