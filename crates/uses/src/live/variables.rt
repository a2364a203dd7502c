//! Live variables, as a caller of the data-flow solver.
//!
//! A variable is live before a statement exactly if some path of statements from there reaches one
//! that uses it, and none before that one defines it. The facts of the data-flow problem are the
//! variables, and its edges go against the run of the program: what is live before a statement
//! comes out of it to those that may come before.

ghost use Rattle.std.specs.Prelude.{◌≡◌, ℕ, ◌<◌, ◌↔◌, IfOk, length, map};
ghost use Rattle.flow.specs.Flow.{Has, IsFor, IsProblem};
ghost use Rattle.uses.specs.Live.{IsLive};

use fixedbitset::{FixedBitSet, Steps};
use flow::{Solution, solve_in_order};
use std::alloc::{AllocError, Global};

/// For each statement the variables that are live before it: those for which a path from it reaches
/// a use with no definition before.
///
/// Variables are the positions below `variables`, and statements the numbers below the length of
/// `uses`. Statement s uses the variables of `uses[s]`, and then defines those of `defines[s]`. A
/// pair `(s, t)` in `next` says that t may come after s. `flow::is_problem` tests this
/// precondition.
///
/// `Err` is returned only on allocation failure.
pub fn live_before(
    alloc: Global,
    variables: usize,
    next: &[(usize, usize)],
    uses: &[FixedBitSet],
    defines: &[FixedBitSet],
) -> Result<Vec<FixedBitSet>, AllocError>
    requires { IsProblem variables next.now uses.now defines.now }
    ensures sized { IfOk result (λ live. IsFor uses.now variables live.items) }
    ensures live { IfOk result (λ live. (s x : ℕ) → s < length uses.now
        → Has live.items s x ↔ IsLive next.now uses.now defines.now x s) }
{
    let back = turned(alloc, next)?;
    let Solution { ins: _, outs } = solve_in_order(
        alloc,
        variables,
        &back,
        uses,
        defines,
        &mut Steps::new(),
    )?;
    Ok(outs)
}

// Each pair reversed.
fn turned(alloc: Global, pairs: &[(usize, usize)]) -> Result<Vec<(usize, usize)>, AllocError>
    ensures { IfOk result (λ turned. turned.items ≡ map (λ pair. (pair.1, pair.0)) pairs.now) }
{
    pairs
        .iter()
        .map(|(first, second)| (*second, *first))
        .collect(alloc)
}
