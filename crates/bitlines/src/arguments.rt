//! The arguments of commands.
ghost use Rattle.std.specs.Prelude.{◌≡◌, true, false};
ghost use Rattle.serde_json.specs.View.{view};
ghost use Rattle.bitlines.specs.Reads.{Reads};
ghost use Rattle.bitlines.specs.Arguments.{bound_of, end_bound_of, bounds_of, range_of};
ghost use Rattle.bitlines.specs.Arguments.{range_at, end_of, ends_of, ends_at, one, two};
ghost use Rattle.bitlines.specs.Arguments.{three, two_and_flag, one_and_range, range_and_flag};
ghost use Rattle.bitlines.specs.Arguments.{one_and_ends, two_and_ends, numbers_of};
ghost use Rattle.bitlines.specs.Arguments.{one_and_list, two_and_list, one_and_json};

use crate::fault::LineFault;
use crate::words::{Words, find, number};
use bitcommands::commands::{End, Span};
use fixedbitset::IndexRange;
use serde_json::Value;
use std::alloc::Global;

#[tactic(auto, unfolding(crate::specs::Arguments::one))]
pub(crate) fn one(mut args: Words<'_>) -> Result<usize, LineFault>
    ensures { Reads false (λ n. n) result (one args.entry) }
{
    let number = args.number()?;
    args.end()?;
    Ok(number)
}

#[tactic(auto, unfolding(crate::specs::Arguments::two))]
pub(crate) fn two(mut args: Words<'_>) -> Result<(usize, usize), LineFault>
    ensures { Reads false (λ x. x) result (two args.entry) }
{
    let first = args.number()?;
    let second = args.number()?;
    args.end()?;
    Ok((first, second))
}

#[tactic(auto, unfolding(crate::specs::Arguments::three))]
pub(crate) fn three(mut args: Words<'_>) -> Result<(usize, usize, usize), LineFault>
    ensures { Reads false (λ x. x) result (three args.entry) }
{
    let first = args.number()?;
    let second = args.number()?;
    let third = args.number()?;
    args.end()?;
    Ok((first, second, third))
}

#[tactic(auto, unfolding(crate::specs::Arguments::two_and_flag))]
pub(crate) fn two_and_flag(mut args: Words<'_>) -> Result<(usize, usize, bool), LineFault>
    ensures { Reads false (λ x. x) result (two_and_flag args.entry) }
{
    let first = args.number()?;
    let second = args.number()?;
    let value = args.flag()?;
    args.end()?;
    Ok((first, second, value))
}

#[tactic(auto, unfolding(crate::specs::Arguments::one_and_range))]
pub(crate) fn one_and_range(mut args: Words<'_>) -> Result<(usize, Span), LineFault>
    ensures { Reads false (λ x. (x.0, (x.1.start, x.1.end))) result (one_and_range args.entry) }
{
    let set = args.number()?;
    let range = range_in(&mut args)?;
    args.end()?;
    Ok((set, range))
}

#[tactic(auto, unfolding(crate::specs::Arguments::range_and_flag))]
pub(crate) fn range_and_flag(mut args: Words<'_>) -> Result<(usize, Span, bool), LineFault>
    ensures { Reads false (λ x. (x.0, (x.1.start, x.1.end), x.2)) result
        (range_and_flag args.entry) }
{
    let set = args.number()?;
    let range = range_in(&mut args)?;
    let value = args.flag()?;
    args.end()?;
    Ok((set, range, value))
}

#[tactic(auto, unfolding(crate::specs::Arguments::range_at))]
fn range_in(args: &mut Words<'_>) -> Result<Span, LineFault>
    ensures { Reads false (λ r. ((r.start, r.end), args.new)) result (range_at args.old) }
{
    let word = args.next().ok_or(LineFault::NotACommand)?;
    range(word)
}

// The two bounds with two dots between them.
#[tactic(auto, unfolding(crate::specs::Arguments::range_of), using(std::proofs::lemmas::List::take_rest, std::proofs::lemmas::List::get_or_past))]
fn range(word: &[u8]) -> Result<Span, LineFault>
    ensures { Reads false (λ r. (r.start, r.end)) result (range_of word.now) }
{
    let dot = find(word, b'.').ok_or(LineFault::NotACommand)?;
    if dot + 1 >= word.len() || word[dot + 1] != b'.' {
        return Err(LineFault::NotACommand);
    }
    bounds(&word[..dot], &word[dot + 2..])
}

#[tactic(auto, unfolding(crate::specs::Arguments::bounds_of))]
fn bounds(from: &[u8], to: &[u8]) -> Result<Span, LineFault>
    ensures { Reads false (λ r. (r.start, r.end)) result (bounds_of from.now to.now) }
{
    let start = bound(from)?;
    let end = end_bound(to)?;
    Ok(Span { start, end })
}

// A bound, or `=` and the last position of the range.
#[tactic(auto, unfolding(crate::specs::Arguments::end_bound_of))]
fn end_bound(word: &[u8]) -> Result<Option<usize>, LineFault>
    ensures { Reads false (λ b. b) result (end_bound_of word.now) }
{
    if word.is_empty() || word[0] != b'=' {
        return bound(word);
    }
    let last = number(&word[1..]).ok_or(LineFault::NotACommand)?;
    Ok((..=last).end())
}

// Nothing, or a number.
#[tactic(auto, unfolding(crate::specs::Arguments::bound_of))]
fn bound(word: &[u8]) -> Result<Option<usize>, LineFault>
    ensures { Reads false (λ b. b) result (bound_of word.now) }
{
    if word.is_empty() {
        return Ok(None);
    }
    let number = number(word).ok_or(LineFault::NotACommand)?;
    Ok(Some(number))
}

#[tactic(auto, unfolding(crate::specs::Arguments::one_and_ends))]
pub(crate) fn one_and_ends(
    alloc: Global,
    mut args: Words<'_>,
) -> Result<(usize, Vec<End>), LineFault>
    ensures { Reads true (λ x. (x.0, x.1.items)) result (one_and_ends args.entry) }
{
    let set = args.number()?;
    let ends = ends_in(alloc, &mut args)?;
    args.end()?;
    Ok((set, ends))
}

#[tactic(auto, unfolding(crate::specs::Arguments::two_and_ends))]
pub(crate) fn two_and_ends(
    alloc: Global,
    mut args: Words<'_>,
) -> Result<(usize, usize, Vec<End>), LineFault>
    ensures { Reads true (λ x. (x.0, x.1, x.2.items)) result (two_and_ends args.entry) }
{
    let a = args.number()?;
    let b = args.number()?;
    let ends = ends_in(alloc, &mut args)?;
    args.end()?;
    Ok((a, b, ends))
}

#[tactic(auto, unfolding(crate::specs::Arguments::ends_at))]
fn ends_in(alloc: Global, args: &mut Words<'_>) -> Result<Vec<End>, LineFault>
    ensures { Reads true (λ ends. (ends.items, args.new)) result (ends_at args.old) }
{
    let word = args.next().ok_or(LineFault::NotACommand)?;
    ends(alloc, word)
}

// One or more letters, an end for each.
#[tactic(auto, using(crate::proofs::EndLetters::ends_empty, crate::proofs::EndLetters::ends_start, crate::proofs::EndLetters::ends_more, crate::proofs::EndLetters::ends_none, crate::proofs::EndLetters::ends_end))]
fn ends(alloc: Global, word: &[u8]) -> Result<Vec<End>, LineFault>
    ensures { Reads true (λ ends. ends.items) result (ends_of word.now) }
{
    if word.is_empty() {
        return Err(LineFault::NotACommand);
    }
    let mut ends = Vec::new(alloc);
    for letter in word {
        let Some(end) = end_of(*letter) else {
            return Err(LineFault::NotACommand);
        };
        if ends.push(end).is_err() {
            return Err(LineFault::Memory);
        }
    }
    Ok(ends)
}

#[tactic(auto, unfolding(crate::specs::Arguments::end_of))]
fn end_of(letter: u8) -> Option<End>
    ensures { result ≡ end_of letter }
{
    match letter {
        b'f' => Some(End::Front),
        b'b' => Some(End::Back),
        _ => None,
    }
}

#[tactic(auto, unfolding(crate::specs::Arguments::one_and_list))]
pub(crate) fn one_and_list(
    alloc: Global,
    mut args: Words<'_>,
) -> Result<(usize, Vec<usize>), LineFault>
    ensures { Reads true (λ x. (x.0, x.1.items)) result (one_and_list args.entry) }
{
    let set = args.number()?;
    let items = numbers(alloc, args)?;
    Ok((set, items))
}

#[tactic(auto, unfolding(crate::specs::Arguments::two_and_list))]
pub(crate) fn two_and_list(
    alloc: Global,
    mut args: Words<'_>,
) -> Result<(usize, usize, Vec<usize>), LineFault>
    ensures { Reads true (λ x. (x.0, x.1, x.2.items)) result (two_and_list args.entry) }
{
    let set = args.number()?;
    let bits = args.number()?;
    let blocks = numbers(alloc, args)?;
    Ok((set, bits, blocks))
}

// A number for each word that is left.
#[tactic(auto, using(crate::proofs::Lists::numbers_start, crate::proofs::Lists::numbers_more, crate::proofs::Lists::numbers_none, crate::proofs::Lists::numbers_end, crate::proofs::Lists::fewer_words))]
fn numbers(alloc: Global, mut args: Words<'_>) -> Result<Vec<usize>, LineFault>
    ensures { Reads true (λ list. list.items) result (numbers_of args.entry) }
{
    let mut list = Vec::new(alloc);
    while !args.is_empty() {
        let Ok(number) = args.number() else {
            return Err(LineFault::NotACommand);
        };
        if list.push(number).is_err() {
            return Err(LineFault::Memory);
        }
    }
    Ok(list)
}

#[tactic(auto, unfolding(crate::specs::Arguments::one_and_json))]
pub(crate) fn one_and_json(alloc: Global, mut args: Words<'_>) -> Result<(usize, Value), LineFault>
    ensures { Reads true (λ x. (x.0, view x.1)) result (one_and_json args.entry) }
{
    let set = args.number()?;
    let json = args.json(alloc)?;
    Ok((set, json))
}
