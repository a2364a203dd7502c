//! The program `bits`: reads lines of commands from standard input, and writes one reply a line to
//! standard output. It looks at no arguments. Everything that matters is in the library `bitlines`.
#![tactic(auto)]

use bitlines::program::{run_text, status};
use std::process::ExitCode;

fn main(rt: HostRuntime) -> ExitCode {
    let outcome = run_text(rt.alloc(), &mut rt.stdin(), &mut rt.stdout());
    ExitCode::from(status(&outcome))
}
