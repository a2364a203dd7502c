//! The structs that a caller keeps, but for the sets and the tables. `front/c/bits.h` declares them
//! as `bits`, `bits_walk`, `bits_run_walk`, `bits_sieve`, `bits_pair` and `bits_ranks`.
//!
//! They stand in a file of their own, since the definitions of `specs/` name them.

ghost use Rattle.std.specs.Prelude.{◌*◌, ◌^◌, ◌≤◌, length};
ghost use Rattle.bitranks.specs.Ranks.{IsDirectory};
ghost use Rattle.bitwords.specs.Runs.{IsBetween, is_like};
ghost use Rattle.bitwords.specs.WalkedWords.{IsSpaced};
ghost use Rattle.fixedbitset.specs.Stored.{IsClean};

use bitlanes::Block;

/// Room for a set: words that may hold anything, and the length in bits of the set to be.
#[repr(C)]
#[derive(Drop)]
pub struct Room<'a> {
    pub words: &'a mut [Block],
    pub length: usize,
}

/// An iterator over the positions that are set: the first and the last word of those left, without
/// the bits that were given, the positions of their bits 0, and the words between them.
#[repr(C)]
#[derive(Drop)]
pub struct Ones<'a> {
    pub front: Block,
    pub back: Block,
    pub front_at: usize,
    pub back_at: usize,
    pub words: &'a [Block],
    pub ghost spaced: { IsSpaced front_at back_at (length words.now) back },
}

/// An iterator over the positions that are not set. Its first and its last word are inverted, and
/// those between are not.
#[repr(C)]
#[derive(Drop)]
pub struct Zeroes<'a> {
    pub front: Block,
    pub back: Block,
    pub front_at: usize,
    pub back_at: usize,
    pub words: &'a [Block],
    pub ghost spaced: { IsSpaced front_at back_at (length words.now) back },
}

/// An iterator over runs: whether they are of positions that are set, how many positions there are,
/// where the runs left are, and the words.
#[repr(C)]
#[derive(Drop)]
pub struct Runs<'a> {
    pub are_set: bool,
    pub end: usize,
    pub low: usize,
    pub high: usize,
    pub words: &'a [Block],
    pub ghost between: { IsBetween (is_like are_set words.now) end low high },
    pub ghost long: { end ≤ 64 * length words.now },
    pub ghost fits: { 64 * length words.now ≤ 2 ^ 64 },
}

/// An iterator over the positions of one set that another one has, or over those that it lacks. Its
/// first and its last word have no other bits. Each of the words between is joined with the word at
/// its place of `other` when it is taken.
#[repr(C)]
#[derive(Drop)]
pub struct Sieve<'a> {
    pub walk: Ones<'a>,
    pub other: &'a [Block],
}

/// Two such iterators, one after the other. In a union the first takes the words of its set as they
/// are.
#[repr(C)]
#[derive(Drop)]
pub struct Pair<'a> {
    pub first: Sieve<'a>,
    pub second: Sieve<'a>,
}

/// A set that is borrowed with a directory of its words: the words, the length in bits, and the
/// directory.
#[repr(C)]
#[derive(Drop)]
pub struct Ranks<'a> {
    pub words: &'a [Block],
    pub length: usize,
    pub directory: &'a [usize],
    pub ghost clean: { IsClean length words.now },
    pub ghost kept: { IsDirectory words.now directory.now },
}
