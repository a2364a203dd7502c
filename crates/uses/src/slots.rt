//! Takes slots and gives them back, as lines of standard input say, and prints a reply for each of
//! them.
//!
//! The first line is how many slots there are, at most 1,000,000. A line without a number takes a
//! slot, and the reply is the slot or `full`. A line with a number gives that slot back, and the
//! reply is `ok`, or `free` where it was not taken. A line of two numbers takes a stretch: as many
//! slots as the first says, one after the other, from the least start at or past the second where
//! all of them are free. The reply is that start, or `full`. A third number is the end: where the
//! stretch goes past it, nothing is taken, and the reply is `full`. Each slot of a stretch is given
//! back by a line of its own.
//!
//! At the end what is in the slots moves to the front, the least slot first, with a line like `5 to
//! 0` for each that moves. The last line is how many slots are free then, and the two least of them
//! where there are two, as in `4 free: 5 6`.
//!
//! Where some line is not as said here, nothing is printed but one sentence on standard error with
//! the number of that line, and the status is 1.

ghost use Rattle.std.specs.Prelude.{◌≡◌, ◌≢◌, ◌+◌, ◌<◌, ◌≤◌};
ghost use Rattle.std.specs.Prelude.{OnOk, IfErr, IfNone, IfSome, MatchOption};
ghost use Rattle.bitslots.specs.Slots.{IsFree, IsLeastFree, IsTaken, IsTakenStretch, free_count};
ghost use Rattle.fixedbitset.specs.Bits as model;
ghost use Rattle.uses.specs.Faults.{AreAll, IsFaultOfRow};
ghost use Rattle.uses.specs.Commands.{IsCommand};

use crate::text::first::{Said, first_number};
use crate::text::{Fault, Row, Wrong};
use bitslots::{Slots, never_twice};
use std::alloc::{AllocError, Global};
use std::fmt::Write;

// How many slots there may be.
const LIMIT: usize = 1_000_000;

/// What is printed for this text.
pub(crate) fn output(alloc: Global, text: &str) -> Result<String, Fault> {
    let rows = crate::text::rows(alloc, text)?;
    let said = Said {
        missing: "the number of slots is missing",
        form: "the number of slots has to be one number",
        name: "the number of slots",
    };
    let (many, others) = first_number(&rows, LIMIT, &said)?;
    answers_of(alloc, many, others)
}

// The results to these rows, of so many slots.
fn answers_of(alloc: Global, many: usize, rows: &[Row]) -> Result<String, Fault> {
    let mut slots = Slots::new(alloc, many)?;
    // A law of the calls that the lines make. It does nothing.
    never_twice();
    let mut answers = carry_out(alloc, &mut slots, rows)?;
    move_to_front(&mut slots, many, &mut answers)?;
    Ok(answers)
}

// Carries out the command of each row, and returns a line for each. The error has the first row
// that is no command.
fn carry_out(alloc: Global, slots: &mut Slots, rows: &[Row]) -> Result<String, Fault>
    ensures each { OnOk result (AreAll IsCommand rows.now) }
    ensures fault { IfErr result (IsFaultOfRow IsCommand rows.now) }
{
    let mut answers = String::new(alloc);
    for row in rows {
        let Some(answer) = answer_to(slots, &row.numbers) else {
            let wanted = "a command has to be three numbers at most";
            return Err(Fault::Line(row.line, Wrong::Form(wanted)));
        };
        write_answer(&mut answers, answer)?;
    }
    Ok(answers)
}

// The reply of the slots to a command.
#[derive(Clone, Copy)]
enum Answer {
    // The slot that was taken, or the start of the stretch, or none where nothing was taken.
    Taken(Option<usize>),
    // The slot was given back.
    Back,
    // The slot was not taken.
    Free,
}

// Carries out a command. `None` is returned exactly where the numbers are none.
fn answer_to(slots: &mut Slots, numbers: &[usize]) -> Option<Answer>
    ensures { MatchOption result (¬ (IsCommand numbers.now)) (λ _. IsCommand numbers.now) }
{
    match *numbers {
        [] => Some(Answer::Taken(slots.take())),
        [slot] if slots.is_taken(slot) => {
            slots.give_back(slot);
            Some(Answer::Back)
        }
        [_] => Some(Answer::Free),
        [count, from] => Some(Answer::Taken(slots.take_stretch(count, from))),
        [count, from, end] => Some(Answer::Taken(take_before(slots, count, from, end))),
        _ => None,
    }
}

// Adds the line of a reply.
fn write_answer(answers: &mut String, answer: Answer) -> Result<(), AllocError> {
    match answer {
        Answer::Taken(Some(slot)) => writeln!(answers, "{slot}"),
        Answer::Taken(None) => answers.push_str("full\n"),
        Answer::Back => answers.push_str("ok\n"),
        Answer::Free => answers.push_str("free\n"),
    }
}

// Takes the stretch that `take_stretch` takes, if it does not go past `end`.
fn take_before(slots: &mut Slots, count: usize, from: usize, end: usize) -> Option<usize>
    ensures { IfSome result (λ start.
        IsTakenStretch slots.new count start × (start + count ≤ end)) }
{
    let start = slots.take_stretch(count, from)?;
    if end < start || end - start < count {
        slots.give_back_stretch(start, count);
        return None;
    }
    Some(start)
}

// Moves what is in the slots to the front, and adds the lines that say so and what is free then.
fn move_to_front(slots: &mut Slots, many: usize, answers: &mut String) -> Result<(), AllocError> {
    for slot in 0..many {
        if slots.is_taken(slot) {
            let front = slots.lower(slot);
            if front < slot {
                writeln!(answers, "{slot} to {front}")?;
            }
        }
    }
    write_free(slots, answers)
}

// Adds how many slots are free, and takes and adds the two least of them where there are two.
fn write_free(slots: &mut Slots, answers: &mut String) -> Result<(), AllocError> {
    write!(answers, "{} free", slots.free())?;
    if let Some((first, second)) = take_two(slots) {
        write!(answers, ": {first} {second}")?;
    }
    answers.push_str("\n")
}

// Takes the least free slot and then the least one that is left, or none where fewer than two are
// free.
#[tactic(auto, using(crate::proofs::Pools::two_taken))]
fn take_two(slots: &mut Slots) -> Option<(usize, usize)>
    ensures few { IfNone result ((free_count slots.old < 2) × (slots.new ≡ slots.old)) }
    ensures first { IfSome result (λ two. IsLeastFree slots.old two.0) }
    ensures second { IfSome result (λ two. IsLeastFree (model.insert slots.old two.0) two.1) }
    ensures after { IfSome result (λ two.
        slots.new ≡ model.insert (model.insert slots.old two.0) two.1) }
    ensures apart { IfSome result (λ two. two.0 ≢ two.1) }
    ensures were_free { IfSome result (λ two. IsFree slots.old two.0 × IsFree slots.old two.1) }
    ensures are_taken { IfSome result (λ two. IsTaken slots.new two.0 × IsTaken slots.new two.1) }
{
    if slots.free() < 2 {
        return None;
    }
    let first = slots.take()?;
    let second = slots.take()?;
    Some((first, second))
}
