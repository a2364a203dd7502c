//! A table over words that someone else keeps: `Rows` to be read, and `RowsMut` to be changed.
//!
//! The words are those of a table (`IsTable`): for each row as many as a set of `columns` positions
//! keeps, one row after the other, and no bit past the columns. So a row is a set over borrowed
//! words ([`Bits`](fixedbitset::Bits)). `RowsMut::blank` makes any words those of a table. No call
//! allocates. The calls of [`BitRows`](crate::BitRows) hand over to these.

ghost use Rattle.bitrows.specs.Stored.{IsTable};

mod changes;
mod reads;

use bitlanes::Block;

/// A table over borrowed words, to be read: the words of its rows, how many rows there are, and how
/// many columns.
#[repr(C)]
#[derive(Clone, Copy)]
pub struct Rows<'a> {
    pub words: &'a [Block],
    pub rows: usize,
    pub columns: usize,
    pub ghost clean: { IsTable rows columns words.now },
}

/// A table over borrowed words, to be changed. Its numbers of rows and of columns stay.
#[repr(C)]
#[derive(Drop)]
pub struct RowsMut<'a> {
    pub words: &'a mut [Block],
    pub rows: usize,
    pub columns: usize,
    pub ghost clean: { IsTable rows columns words.now },
}
