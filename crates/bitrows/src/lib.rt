//! A bit matrix: rows of one length, in one row of words.
//!
//! Every contract sees a table as how many columns it has and, for each row, the set of the columns
//! at which it has a bit (`specs/Tables.antt`). Each row is kept in whole lanes of four words, as a
//! set of `fixedbitset` is, so a call on rows is one of a set over the words of a row. The calls of
//! `BitRows` hand over to those of `Rows` and `RowsMut`.
#![tactic(auto)]

pub mod counted;
pub mod table;
pub mod views;

pub use bitlanes::Steps;
pub use bitwalks::walks::Ones;
pub use table::BitRows;
pub use views::{Rows, RowsMut};
