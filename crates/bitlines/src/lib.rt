//! Lines as commands over numbered bit sets, and the program that replies to each line.
#![tactic(auto)]

mod arguments;
pub mod fault;
pub mod laws;
pub mod lines;
mod names;
mod near;
pub mod program;
mod words;
