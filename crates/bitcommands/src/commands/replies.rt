//! What a command returns.
ghost use Rattle.std.specs.Fmt.{WritesOnOk};
ghost use Rattle.bitcommands.specs.Texts.{spaced_text, words_text};

use crate::commands::printing::{
    Part, order_name, push_flag, push_number, push_numbered, push_parts, push_value, push_words,
};
use crate::commands::refusals::Refusal;
use crate::commands::values::write_value;
use fixedbitset::Block;
use serde_json::Value;
use std::alloc::AllocError;
use std::cmp::Ordering;
use std::fmt;

/// The reply to a command.
///
/// ```
/// let reply = Reply::Position(None);
/// assert_eq!(rt; reply.to_string(alloc)?.as_str(), "none");
/// ```
#[derive(Debug, Drop)]
pub enum Reply {
    /// It was carried out, and has nothing to tell.
    Done,
    Bool(bool),
    Number(usize),
    /// A position, if there is one.
    Position(Option<usize>),
    /// What the calls of an iterator returned, in order.
    Items(Vec<Option<usize>>),
    /// The words of a set, in order.
    Words(Vec<Block>),
    /// Which of two sets comes first.
    Order(Ordering),
    /// A character for each position of a set.
    Text(String),
    /// The JSON form of a set.
    Value(Value),
    /// It was not carried out, or a part of it alone.
    Refused(Refusal),
}

impl Reply {
    ghost use Rattle.std.specs.Prelude.{◌≡◌, ◌++◌, OnOk, OnErr, IfSome};
    ghost use Rattle.bitcommands.specs.Answers.{answer_of};
    ghost use Rattle.bitcommands.specs.Texts.{one_text, value_of, PutsValue};

    /// Appends the text that `Display` prints to the output, without a formatter.
    ///
    /// The text of a JSON value is read back as the value, unless it nests deeper than 127. A value
    /// with no number that has a fraction or an exponent has but one text, and that has no spaces.
    /// A value that `apply` returns is such a one.
    ///
    /// `Err` is returned only where the allocation of the text failed. The output is then as it
    /// was.
    ///
    /// ```
    /// let mut output = Vec::new(alloc);
    /// Reply::Number(70).push_text(&mut output)?;
    /// Reply::Bool(true).push_text(&mut output)?;
    /// assert_eq!(rt; output.as_slice(), b"70true".as_slice());
    /// ```
    #[inline]
    pub fn push_text(&self, output: &mut Vec<u8>) -> Result<(), AllocError>
        ensures ok { OnOk result
            (IfSome (one_text (answer_of self.now))
            (λ text. output.new.items ≡ output.old.items ++ text)) }
        ensures value { OnOk result (IfSome (value_of (answer_of self.now))
            (PutsValue output.old.items output.new.items)) }
        ensures err { OnErr result (output.new.items ≡ output.old.items) }
    {
        match self {
            Reply::Done => output.extend_from_slice(b"ok"),
            Reply::Bool(flag) => push_flag(*flag, output),
            Reply::Number(number) => push_number(*number, output),
            Reply::Position(position) => position.push_to(output),
            Reply::Items(items) => push_parts(items.as_slice(), output),
            Reply::Words(words) => push_words(words.as_slice(), output),
            Reply::Order(order) => output.extend_from_slice(order_name(*order).as_bytes()),
            Reply::Text(text) => output.extend_from_slice(text.as_bytes()),
            Reply::Value(value) => push_value(value, output),
            Reply::Refused(refusal) => {
                let (text, number) = refusal.text();
                push_numbered(text, number, output)
            }
        }
    }
}

/// It writes the text that `push_text` appends to an output, and does not allocate.
///
/// Of a JSON value with a number that has a fraction or an exponent no text is promised.
impl fmt::Display for Reply {
    ghost use Rattle.bitcommands.specs.Answers.{answer_of};
    ghost use Rattle.bitcommands.specs.Texts.{one_text};

    ghost output = { λ reply. one_text (answer_of reply) };

    fn fmt<W: fmt::Write>(&self, f: &mut fmt::Formatter<W>) -> fmt::Result {
        match self {
            Reply::Done => f.write_str("ok"),
            Reply::Bool(flag) => fmt::Display::fmt(flag, f),
            Reply::Number(number) => fmt::Display::fmt(number, f),
            Reply::Position(position) => position.write_to(f),
            Reply::Items(items) => write_parts(items.as_slice(), f),
            Reply::Words(words) => write_words(words.as_slice(), f),
            Reply::Order(order) => f.write_str(order_name(*order)),
            Reply::Text(text) => f.write_str(text),
            Reply::Value(value) => write_value(value, f),
            Reply::Refused(refusal) => fmt::Display::fmt(refusal, f),
        }
    }
}

// The words, one space between two of them, or `-` where there are none.
fn write_words<W: fmt::Write>(words: &[Block], f: &mut fmt::Formatter<W>) -> fmt::Result
    ensures { WritesOnOk W.write_str_gives f.old result (words_text words.now) f.new }
{
    if words.is_empty() {
        return f.write_str("-");
    }
    write_parts(words, f)
}

// One text for each, one space between two of them.
fn write_parts<P: Part, W: fmt::Write>(parts: &[P], f: &mut fmt::Formatter<W>) -> fmt::Result
    ensures { WritesOnOk W.write_str_gives f.old result (spaced_text P.text_of parts.now) f.new }
{
    let Some((first, rest)) = parts.split_first() else {
        return Ok(());
    };
    first.write_to(f)?;
    for part in rest {
        f.write_str(" ")?;
        part.write_to(f)?;
    }
    Ok(())
}
