//! A bit set (bitmap) with a length: upstream is the Rust crate `fixedbitset` 0.5.7, this crate its
//! formally verified rewrite.
//!
//! A set is seen by every contract as its length in bits and the set of positions below it
//! that are set (`specs/Bits.antt`). It is kept in words of 64 bits: position `p` is bit `p
//! % 64` of word `p / 64`.
#![tactic(auto)]

pub mod bits;
pub mod counted;
pub mod extend;
pub mod json;
pub mod neighbours;
pub mod of_two;
pub mod operators;
pub mod order;
pub mod pairs;
pub mod parts;
pub mod questions;
pub mod ranges;
pub mod set;
pub mod shifts;
pub mod text;
pub mod views;
pub mod walks;
pub mod whole;

pub use bitlanes::{Block, IndexRange, Steps};
pub use bitwalks::{
    Difference, Intersection, IntoOnes, Ones, Runs, SymmetricDifference, Union, Zeroes,
};
pub use extend::ExtendFault;
pub use json::JsonFault;
pub use set::FixedBitSet;
pub use views::{Bits, BitsMut};
