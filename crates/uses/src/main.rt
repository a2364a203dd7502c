//! The program `uses`: runs a worked use of the set, which its one argument names. The head of the
//! use's module says what the lines of standard input are, and what is printed.
//!
//! Where no use has that name, the argument is missing, or there are more, nothing is read and
//! nothing is written but one sentence on standard error with the names, and the status is 2.
#![tactic(auto)]

use crate::text::Fault;
use crate::text::program::{finish, read};
use std::alloc::Global;
use std::env::Args;
use std::io::ErrorKind;
use std::process::ExitCode;
use std::{env, io};

mod access;
mod closure;
mod live;
mod primes;
mod reach;
mod slots;
mod subsets;
mod sums;
mod text;

/// What an argument may name.
#[derive(Clone, Copy, PartialEq, Eq, Debug)]
enum Use {
    Access,
    Closure,
    Live,
    Primes,
    Reach,
    Slots,
    Subsets,
    Sums,
}

fn main(rt: HostRuntime) -> ExitCode {
    let alloc = rt.alloc();
    let chosen = match chosen_by(env::args(&rt)) {
        Ok(Some(chosen)) => chosen,
        Ok(None) => return refuse(&rt),
        Err(fault) => return finish(&rt, &Err(fault), &mut rt.stdout()),
    };
    let text = read(alloc, &mut rt.stdin());
    let answer = text.and_then(|text| output(alloc, chosen, text.as_str()));
    finish(&rt, &answer, &mut rt.stdout())
}

// The use that the words of a command line name, if they are a text. The error is that an
// allocation failed.
fn chosen_by(words: io::Result<Args>) -> Result<Option<Use>, Fault> {
    match words {
        Ok(words) => Ok(named_by(words)),
        Err(error) if error.kind() == ErrorKind::OutOfMemory => Err(Fault::Memory),
        Err(_) => Ok(None),
    }
}

// The use that these words name: the first is the program, and the only other one the name.
fn named_by(mut words: Args) -> Option<Use> {
    let _program = words.next();
    let (Some(name), None) = (words.next(), words.next()) else {
        return None;
    };
    use_of(name.as_str())
}

// The use that has this name.
fn use_of(name: &str) -> Option<Use> {
    match name {
        "access" => Some(Use::Access),
        "closure" => Some(Use::Closure),
        "live" => Some(Use::Live),
        "primes" => Some(Use::Primes),
        "reach" => Some(Use::Reach),
        "slots" => Some(Use::Slots),
        "subsets" => Some(Use::Subsets),
        "sums" => Some(Use::Sums),
        _ => None,
    }
}

// What is printed for this text.
fn output(alloc: Global, chosen: Use, text: &str) -> Result<String, Fault> {
    match chosen {
        Use::Access => access::output(alloc, text),
        Use::Closure => closure::output(alloc, text),
        Use::Live => live::output(alloc, text),
        Use::Primes => primes::output(alloc, text),
        Use::Reach => reach::output(alloc, text),
        Use::Slots => slots::output(alloc, text),
        Use::Subsets => subsets::output(alloc, text),
        Use::Sums => sums::output(alloc, text),
    }
}

// Says on standard error which names there are.
fn refuse(rt: &impl Eprint) -> ExitCode {
    let names = "access, closure, live, primes, reach, slots, subsets, sums";
    let _ = eprintln!(rt; "uses: it takes the name of a use, and these are {names}");
    ExitCode::from(2)
}
