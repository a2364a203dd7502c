//! Two reference values: joined, counted, and every pair of fifteen lengths.

use std::alloc::{AllocError, Global};

/// Which positions of two reference values are meant.
#[derive(Clone, Copy)]
pub enum Join {
    /// Those of the first.
    First,
    Either,
    Both,
    /// Those of the first that the second lacks.
    FirstAlone,
    /// Those of the second that the first lacks.
    SecondAlone,
    /// Those of exactly one.
    One,
}

impl Join {
    /// Whether a position is meant that the first value has or not, and the second has or not.
    pub fn takes(self, first: bool, second: bool) -> bool {
        match self {
            Join::First => first,
            Join::Either => first || second,
            Join::Both => first && second,
            Join::FirstAlone => first && !second,
            Join::SecondAlone => !first && second,
            Join::One => first != second,
        }
    }
}

fn has(flags: &[bool], position: usize) -> bool {
    position < flags.len() && flags[position]
}

/// The reference value of this length that has the positions of the join.
pub fn joined(
    alloc: Global,
    length: usize,
    a: &[bool],
    b: &[bool],
    join: Join,
) -> Result<Vec<bool>, AllocError> {
    let mut flags = Vec::new(alloc);
    for position in 0..length {
        flags.push(join.takes(has(a, position), has(b, position)))?;
    }
    Ok(flags)
}

/// How many positions the join has.
pub fn count_joined(a: &[bool], b: &[bool], join: Join) -> usize {
    let mut count = 0usize;
    for position in 0..a.len().max(b.len()) {
        if join.takes(has(a, position), has(b, position)) {
            count = count.wrapping_add(1);
        }
    }
    count
}

// ---- every pair of lengths

// None, one word and less, and lanes of four words with a rest of 0 to 3 words.
const LENGTHS: [usize; 15] = [
    0, 1, 63, 64, 65, 128, 191, 192, 193, 255, 256, 257, 320, 448, 576,
];

// How the two sets of a pair are filled.
const FILLINGS: [(usize, usize); 8] = [
    (0, 1),
    (1, 2),
    (2, 0),
    (3, 4),
    (4, 1),
    (5, 2),
    (2, 5),
    (1, 1),
];

/// How many pairs there are.
pub const PAIRS: usize = 1_800;

// Whether a set of the filling has the position.
fn is_chosen(filling: usize, position: usize) -> bool {
    match filling {
        0 => true,
        1 => position % 3 == 0,
        2 => position % 64 > 59 || position % 7 == 2,
        3 => position > 189,
        4 => position == 575 || position == 256,
        _ => false,
    }
}

// The reference value of a filling.
fn chosen(alloc: Global, length: usize, filling: usize) -> Result<Vec<bool>, AllocError> {
    let mut flags = Vec::new(alloc);
    for position in 0..length {
        flags.push(is_chosen(filling, position))?;
    }
    Ok(flags)
}

/// Two reference values.
#[derive(Drop)]
pub struct Pair {
    pub a: Vec<bool>,
    pub b: Vec<bool>,
}

/// All pairs of the lengths and the fillings, `PAIRS` of them.
pub fn every_pair(alloc: Global) -> Result<Vec<Pair>, AllocError> {
    let mut pairs = Vec::new(alloc);
    for length in LENGTHS {
        for other_length in LENGTHS {
            for (filling, other_filling) in FILLINGS {
                let a = chosen(alloc, length, filling)?;
                let b = chosen(alloc, other_length, other_filling)?;
                pairs.push(Pair { a, b })?;
            }
        }
    }
    Ok(pairs)
}
