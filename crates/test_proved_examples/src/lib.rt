//! Examples in the docs of public calls, and blocks of the documents, as tests.
//! tools/docs/make_examples writes each file of this crate, but for proofs by hand.
#![tactic(auto)]

#[cfg(test)]
mod bitranks_laws;
pub mod calling_1;
#[cfg(test)]
mod calling_3;
#[cfg(test)]
mod calls;
#[cfg(test)]
mod joins;
#[cfg(test)]
mod laws;
