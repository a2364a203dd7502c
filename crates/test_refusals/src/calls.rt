//! What is called, and the tables of it.

use crate::growing::{Growing, grown};
use crate::making::{Making, line_read, made};
use crate::outcome::Fault;
use crate::plain::{Group, holds};
use crate::solving::solved;
use crate::starts::Starts;
use crate::walking::{Walk, gives};
use crate::{growing, lines, making, plain, solving, walking, words};
use std::alloc::Global;

/// A call that may fail to allocate, or a group of calls that do not allocate.
#[derive(Clone, Copy)]
pub enum Call {
    Growing(Growing),
    Making(Making),
    /// Reads a line. The name in the table is the line itself.
    Line,
    /// A data-flow problem, by its place.
    Problem(usize),
    Group(Group),
    Walk(Walk),
    Words,
    Lines,
}

/// The calls that may fail to allocate.
pub const REFUSABLE: &[&[(&str, Call)]; 4] = &[
    growing::CALLS,
    making::CALLS,
    making::LINES,
    solving::CALLS,
];

/// The groups of calls that take none.
pub const PLAIN: &[&[(&str, Call)]; 4] = &[plain::GROUPS, walking::WALKS, solving::PLAIN, OTHERS];

const OTHERS: &[(&str, Call); 2] = &[("words", Call::Words), ("lines", Call::Lines)];

/// Makes the call, and returns whether it does what it does with ample memory.
pub fn make(alloc: Global, starts: &mut Starts, name: &str, call: Call) -> Result<bool, Fault> {
    match call {
        Call::Growing(growing) => grown(starts, growing),
        Call::Making(making) => made(alloc, starts, making),
        Call::Line => line_read(alloc, name),
        Call::Problem(place) => solved(alloc, starts, place),
        Call::Group(group) => holds(alloc, starts, group),
        Call::Walk(walk) => gives(starts, walk),
        Call::Words => Ok(words::hold()),
        Call::Lines => lines::are_answered(alloc, starts),
    }
}
