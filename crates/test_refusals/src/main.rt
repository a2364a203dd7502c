//! The program `test_refusals`: makes each call that may fail to allocate, and each call that does
//! not allocate, and checks what it returns and what it leaves. The script `tools/memory/sweep`
//! runs it and makes its allocations fail.
//!
//! All sets are made before the first call. It writes a line for each call that failed to allocate,
//! one for each that did wrong, and at the end how many it made. It ends with status 0 where each
//! call did right, refused or not, and with 1 otherwise; with 3 where the allocation of the sets
//! failed, and then it makes no call.
//!
//! Where its input has a byte, a failed `grow` is made to lose the positions of its set, which is
//! wrong.
#![tactic(auto)]

mod calls;
mod changes;
mod growing;
mod lines;
mod making;
mod outcome;
mod plain;
mod solving;
mod starts;
mod walking;
mod words;

use calls::{Call, PLAIN, REFUSABLE, make};
use outcome::Tally;
use starts::Starts;
use std::io;
use std::io::Read;
use std::process::ExitCode;

fn main(rt: HostRuntime) -> ExitCode {
    let mut starts = Starts::new(rt.alloc(), has_input(&rt));
    if starts.add_all(rt.alloc()).is_err() {
        return ExitCode::from(3);
    }
    match make_all(&rt, &mut starts) {
        Ok(true) => ExitCode::from(0),
        _ => ExitCode::from(1),
    }
}

fn has_input(rt: &HostRuntime) -> bool {
    let mut letters = [0];
    matches!(rt.stdin().read(&mut letters), Ok(1))
}

// Makes all calls, and returns whether each of them did right.
fn make_all(rt: &(impl Print + AllocGlobal), starts: &mut Starts) -> io::Result<bool> {
    let refusable = make_tables(rt, starts, REFUSABLE)?;
    let plain = make_tables(rt, starts, PLAIN)?;
    println!(rt;
        "made {} calls that may be refused memory, and {} groups of calls that take none",
        refusable.calls, plain.calls
    )?;
    Ok(refusable.is_right && plain.is_right)
}

fn make_tables(
    rt: &(impl Print + AllocGlobal),
    starts: &mut Starts,
    tables: &[&[(&str, Call)]],
) -> io::Result<Tally> {
    let mut tally = Tally::new();
    for table in tables {
        make_table(rt, starts, table, &mut tally)?;
    }
    Ok(tally)
}

fn make_table(
    rt: &(impl Print + AllocGlobal),
    starts: &mut Starts,
    table: &[(&str, Call)],
    tally: &mut Tally,
) -> io::Result<()> {
    for (name, call) in table {
        tally.count(rt, name, make(rt.alloc(), starts, name, *call))?;
    }
    Ok(())
}
