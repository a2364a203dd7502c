//! Iterators over the positions of rows of words: over one row, and over two. No iterator here
//! knows a set or its length.
#![tactic(auto)]

pub mod in_turn;
pub mod pairs;
pub mod runs;
pub mod sieve;
pub mod walks;

pub use pairs::{Difference, Intersection, SymmetricDifference, Union};
pub use runs::Runs;
pub use sieve::{Lacked, Shared, Sieve};
pub use walks::{IntoOnes, Ones, Zeroes};
