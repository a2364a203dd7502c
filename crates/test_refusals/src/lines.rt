//! The commands that do not allocate, as lines: each is read, carried out over two short sets, and
//! its reply appended to an output that has room for it.

use crate::outcome::Fault;
use crate::starts::{LONG, Starts};
use bitcommands::commands::{Command, apply};
use bitlines::lines::{LineFault, parse_line};
use bitlines::program::{RunFault, status};
use std::alloc::{AllocError, Global};

/// At least one line of each command that never fails to allocate, with its reply, and lines that
/// are no commands. The last lines are of commands whose allocation may fail, where the set has
/// words enough.
pub const REPLIES: &[(&str, &str); 61] = &[
    ("len 0", "10"),
    ("is_empty 0", "false"),
    ("is_clear 0", "false"),
    ("is_full 0", "false"),
    ("minimum 0", "3"),
    ("maximum 0", "3"),
    ("contains 0 3", "true"),
    ("index 0 4", "false"),
    ("insert 0 4", "ok"),
    ("remove 0 3", "ok"),
    ("toggle 0 5", "ok"),
    ("put 0 6", "false"),
    ("set 0 7 true", "ok"),
    ("copy_bit 0 7 8", "ok"),
    ("set_block 0 0 24", "ok"),
    ("count_ones 0 ..", "2"),
    ("count_zeroes 0 3..5", "0"),
    ("set_range 0 ..2 true", "ok"),
    ("insert_range 0 8..", "ok"),
    ("remove_range 0 9..10", "ok"),
    ("toggle_range 0 5..7", "ok"),
    ("contains_all_in_range 0 3..7", "true"),
    ("contains_any_in_range 0 9..", "false"),
    ("range_is_valid 0 ..11", "false"),
    ("union_count 0 1", "7"),
    ("intersection_count 0 1", "1"),
    ("difference_count 0 1", "6"),
    ("symmetric_difference_count 0 1", "6"),
    ("is_disjoint 0 1", "false"),
    ("is_subset 1 0", "true"),
    ("is_superset 1 0", "false"),
    ("eq 0 1", "false"),
    ("cmp 0 1", "greater"),
    ("intersect_with 0 1", "ok"),
    ("difference_with 0 0", "ok"),
    ("bitand_assign 0 1", "ok"),
    ("maximum 0", "none"),
    ("insert 0 10", "F2 position not below the length"),
    ("count_ones 0 ..11", "F3 range not valid"),
    ("len 2", "F1 no such set"),
    ("grow 0 100001", "F7 length above the limit"),
    (
        "grow_and_insert 0 18446744073709551615",
        "F4 position too great",
    ),
    ("grow 0 64", "ok"),
    ("grow_and_insert 0 63", "ok"),
    ("union_with 0 1", "ok"),
    ("symmetric_difference_with 0 1", "ok"),
    ("bitor_assign 0 1", "ok"),
    ("bitxor_assign 0 1", "ok"),
    ("union_with 0 0", "ok"),
    ("bitor_assign 0 0", "ok"),
    ("bitand_assign 0 0", "ok"),
    ("intersect_with 0 0", "ok"),
    ("clone_from 0 0", "ok"),
    ("count_ones 0 ..", "1"),
    ("symmetric_difference_with 0 0", "ok"),
    ("bitxor_assign 0 0", "ok"),
    ("clone_from 0 1", "ok"),
    ("clear 0", "ok"),
    ("is_clear 0", "true"),
    ("new 0", "ok"),
    ("default 1", "ok"),
];

/// Lines that are no commands; the list of the second would allocate.
pub const NO_COMMANDS: &[&str; 4] = &["", "len", "len 0 0", "Extend 0 1"];

/// Whether each line gets its reply. The exit status does not allocate either.
pub fn are_answered(alloc: Global, starts: &mut Starts) -> Result<bool, Fault> {
    let are_commands = are_replied(alloc, starts)?;
    Ok(are_commands && are_no_commands(alloc) && are_statuses())
}

fn are_replied(alloc: Global, starts: &mut Starts) -> Result<bool, Fault> {
    for (line, reply) in REPLIES {
        if !is_replied(alloc, starts, line, reply)? {
            return Ok(false);
        }
    }
    Ok(true)
}

fn are_no_commands(alloc: Global) -> bool {
    for line in NO_COMMANDS {
        if !is_no_command(alloc, line) {
            return false;
        }
    }
    true
}

fn are_statuses() -> bool {
    status(&Ok(())) == 0 && status(&Err(RunFault::Memory)) == 3
}

fn is_no_command(alloc: Global, line: &str) -> bool {
    matches!(
        parse_line(alloc, line.as_bytes()),
        Err(LineFault::NotACommand)
    )
}

fn is_replied(alloc: Global, starts: &mut Starts, line: &str, reply: &str) -> Result<bool, Fault> {
    let command = parse_line(alloc, line.as_bytes())?;
    gets_reply(alloc, starts, &command, reply)
}

fn gets_reply(
    alloc: Global,
    starts: &mut Starts,
    command: &Command,
    reply: &str,
) -> Result<bool, Fault> {
    write_reply(alloc, starts, command)?;
    Ok(starts.output.as_slice() == reply.as_bytes())
}

// Writes the reply in place of the one before it.
fn write_reply(alloc: Global, starts: &mut Starts, command: &Command) -> Result<(), AllocError> {
    starts.output.clear();
    let reply = apply(alloc, starts.sets.as_mut_slice(), command, LONG);
    reply.push_text(&mut starts.output)
}
