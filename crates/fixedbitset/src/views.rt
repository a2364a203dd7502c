//! A set over words that someone else keeps: `Bits` to be read, and `BitsMut` to be changed.
//!
//! They are to a `FixedBitSet` what slices are to a `Vec`, and have each of its calls that does not
//! allocate. The words are those of a set of the length: whole lanes of four words, as many as the
//! length needs, and no bit past it (`IsClean`). `Bits::over` looks whether words are such, and
//! `BitsMut::settle` makes any words so. Positions and ranges are those of the calls of
//! `FixedBitSet` with the same names, which hand over to these.
//!
//! A step is one lane of four words in one turn of a kernel. A set of `n` positions has `n /
//! 256` lanes, rounded up.

ghost use Rattle.fixedbitset.specs.Stored.{IsClean};

mod bytes;
mod changes;
mod copies;
mod gaps;
mod neighbours;
mod positions;
mod ranges;
mod shifts;
mod walks;
mod whole;

use bitlanes::Block;
pub use positions::storage_words;

/// A set over borrowed words, to be read: its words, and its length in bits.
#[repr(C)]
#[derive(Clone, Copy)]
pub struct Bits<'a> {
    pub words: &'a [Block],
    pub length: usize,
    pub ghost clean: { IsClean length words.now },
}

/// A set over borrowed words, to be changed. Its length stays.
#[repr(C)]
#[derive(Drop)]
pub struct BitsMut<'a> {
    pub words: &'a mut [Block],
    pub length: usize,
    pub ghost clean: { IsClean length words.now },
}
