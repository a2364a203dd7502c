//! JSON values, written through a formatter that does not allocate. The library's own `Display`
//! promises no text.
ghost use Rattle.std.specs.Prelude.{◌≡◌, ◌++◌, false, codes};
ghost use Rattle.std.specs.Fmt.{WritesOnOk};
ghost use Rattle.bitcommands.specs.Quoting.{in_quotes};
ghost use Rattle.serde_json.specs.Data.{string};
ghost use Rattle.serde_json.specs.Find.{is_float};
ghost use Rattle.serde_json.specs.View.{view, number_view, items_view, members_view};
ghost use Rattle.serde_json.specs.Written.{has_float, items_have_float, members_have_float};
ghost use Rattle.serde_json.specs.Written.{number_text, compact_text};
ghost use Rattle.serde_json.specs.Written.{comma_if, items_text, members_text};

use serde_json::{Map, Number, Value};
use std::fmt;

// The value without spaces.
#[cycle(values)]
pub(super) fn write_value<W: fmt::Write>(value: &Value, f: &mut fmt::Formatter<W>) -> fmt::Result
    ensures { has_float (view value.now) ≡ false
        → WritesOnOk W.write_str_gives f.old result (compact_text (view value.now)) f.new }
{
    match value {
        Value::Null => f.write_str("null"),
        Value::Bool(true) => f.write_str("true"),
        Value::Bool(false) => f.write_str("false"),
        Value::Number(number) => write_number(number, f),
        Value::String(text) => write_quoted(text.as_str(), f),
        Value::Array(items) => {
            f.write_str("[")?;
            write_items(items, f)
        }
        Value::Object(members) => {
            f.write_str("{")?;
            write_members(members, f)
        }
    }
}

// The items, a comma between two of them, and the closing bracket.
#[cycle(values)]
fn write_items<W: fmt::Write>(items: &Vec<Value>, f: &mut fmt::Formatter<W>) -> fmt::Result
    ensures { let all = items_view items.now.items in items_have_float all ≡ false
        → WritesOnOk W.write_str_gives f.old result (items_text false all) f.new }
{
    let mut later = false;
    for item in items {
        write_comma(later, f)?;
        write_value(item, f)?;
        later = true;
    }
    f.write_str("]")
}

// The members, a comma between two of them, and the closing brace.
#[cycle(values)]
fn write_members<W: fmt::Write>(
    members: &Map<String, Value>,
    f: &mut fmt::Formatter<W>,
) -> fmt::Result
    ensures { let all = members_view members.now.entries in members_have_float all ≡ false
        → WritesOnOk W.write_str_gives f.old result (members_text false all) f.new }
{
    let mut later = false;
    for (key, member) in members.iter() {
        write_key(later, key.as_str(), f)?;
        write_value(member, f)?;
        later = true;
    }
    f.write_str("}")
}

// A comma, if something stands before.
fn write_comma<W: fmt::Write>(later: bool, f: &mut fmt::Formatter<W>) -> fmt::Result
    ensures { WritesOnOk W.write_str_gives f.old result (comma_if later) f.new }
{
    if later { f.write_str(",") } else { Ok(()) }
}

// The key of a member and a colon, after a comma if a member stands before.
fn write_key<W: fmt::Write>(later: bool, key: &str, f: &mut fmt::Formatter<W>) -> fmt::Result
    ensures { WritesOnOk W.write_str_gives f.old result
        (comma_if later ++ (compact_text (string key.now) ++ codes ":")) f.new }
{
    write_comma(later, f)?;
    write_quoted(key, f)?;
    f.write_str(":")
}

// A whole number in decimal. Of a number with a fraction or an exponent no text is promised.
fn write_number<W: fmt::Write>(number: &Number, f: &mut fmt::Formatter<W>) -> fmt::Result
    ensures { is_float (number_view number.now) ≡ false
        → WritesOnOk W.write_str_gives f.old result (number_text (number_view number.now)) f.new }
{
    if let Some(natural) = number.as_u64() {
        return write!(f, "{natural}");
    }
    if let Some(whole) = number.as_i64() {
        return write!(f, "{whole}");
    }
    write!(f, "{number}")
}

// The text in quotes, with the escapes that it needs.
fn write_quoted<W: fmt::Write>(text: &str, f: &mut fmt::Formatter<W>) -> fmt::Result
    ensures { WritesOnOk W.write_str_gives f.old result (compact_text (string text.now)) f.new }
{
    f.write_str("\"")?;
    for character in text.chars() {
        write_escaped(character, f)?;
    }
    f.write_str("\"")
}

// A character of a text, or what stands for it in quotes.
#[tactic(auto, using(crate::proofs::Escapes::letters))]
fn write_escaped<W: fmt::Write>(character: char, f: &mut fmt::Formatter<W>) -> fmt::Result
    ensures { WritesOnOk W.write_str_gives f.old result (in_quotes character) f.new }
{
    match character {
        '"' => f.write_str("\\\""),
        '\\' => f.write_str("\\\\"),
        '\u{8}' => f.write_str("\\b"),
        '\t' => f.write_str("\\t"),
        '\n' => f.write_str("\\n"),
        '\u{c}' => f.write_str("\\f"),
        '\r' => f.write_str("\\r"),
        _ if character < ' ' => write!(f, "\\u00{:02x}", character as u32),
        _ => f.write_char(character),
    }
}
