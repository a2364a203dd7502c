//! The iterators, which do not allocate: each is made, asked for its hint and called from its ends.

use crate::calls::Call;
use crate::outcome::Fault;
use crate::starts::{LONG, Starts};
use fixedbitset::{FixedBitSet, IntoOnes, Ones};

#[derive(Clone, Copy, PartialEq, Eq)]
pub enum Walk {
    Ones,
    IntoOnes,
    Zeroes,
    Intersection,
    Difference,
    Union,
    SymmetricDifference,
    LastBit,
}

pub const WALKS: &[(&str, Call); 8] = &[
    ("ones", Call::Walk(Walk::Ones)),
    ("into_ones", Call::Walk(Walk::IntoOnes)),
    ("zeroes", Call::Walk(Walk::Zeroes)),
    ("intersection", Call::Walk(Walk::Intersection)),
    ("difference", Call::Walk(Walk::Difference)),
    ("union", Call::Walk(Walk::Union)),
    (
        "symmetric_difference",
        Call::Walk(Walk::SymmetricDifference),
    ),
    ("last_positive_bit_and_unset", Call::Walk(Walk::LastBit)),
];

// Whether the iterator gives two items, the first from the front and the last from the back, and
// then no more.
fn gives_two<I: DoubleEndedIterator<Item = usize>>(mut walk: I, first: usize, last: usize) -> bool
    requires front { (state : I) → I.can_next state }
    requires back { (state : I) → I.can_next_back state }
{
    let (lower, upper) = walk.size_hint();
    lower == 0
        && upper >= Some(2)
        && walk.next() == Some(first)
        && walk.next_back() == Some(last)
        && walk.next().is_none()
        && walk.next_back().is_none()
}

pub fn gives(starts: &mut Starts, walk: Walk) -> Result<bool, Fault> {
    let mut set = starts.take_short()?;
    if set.len() != 10 {
        return Ok(false);
    }
    set.insert(9);
    if walk == Walk::IntoOnes {
        return Ok(gives_two(set.into_ones(), 3, 9));
    }
    Ok(gives_lent(&set, &starts.short, &starts.long, walk))
}

// All iterators but the one that takes its set.
fn gives_lent(set: &FixedBitSet, short: &FixedBitSet, long: &FixedBitSet, walk: Walk) -> bool {
    match walk {
        Walk::Ones => gives_two(set.ones(), 3, 9),
        Walk::IntoOnes => false,
        Walk::Zeroes => gives_zeroes(short),
        Walk::Intersection => gives_two(set.intersection(set), 3, 9),
        Walk::Difference => gives_two(set.difference(long), 3, 9),
        Walk::Union => gives_two(short.union(long), 3, LONG - 1),
        Walk::SymmetricDifference => gives_two(long.symmetric_difference(short), LONG - 1, 3),
        Walk::LastBit => gives_last_bit(),
    }
}

fn gives_zeroes(set: &FixedBitSet) -> bool {
    let mut zeroes = set.zeroes();
    zeroes.nth(3) == Some(4) && zeroes.size_hint().1 >= Some(5) && zeroes.next_back() == Some(9)
}

fn gives_last_bit() -> bool {
    let (mut word, mut other) = (12, 12);
    Ones::last_positive_bit_and_unset(&mut word) == 2
        && IntoOnes::last_positive_bit_and_unset(&mut other) == 2
        && word == 8
        && other == 8
}
