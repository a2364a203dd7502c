//! The data-flow solver on five worked problems.

use crate::calls::Call;
use crate::outcome::Fault;
use crate::starts::{Nodes, Starts, is_value};
use fixedbitset::{FixedBitSet, Steps};
use flow::{Solution, is_problem, solve, solve_in_order};
use std::alloc::Global;

/// A problem and its least solution: the facts of each node, one list after the other.
#[derive(Clone, Copy)]
pub struct Problem {
    /// How many facts the problem has.
    pub facts: usize,
    edges: &'static [(usize, usize)],
    /// What each node makes.
    pub gens: &'static [&'static [usize]],
    /// What each node stops.
    pub kills: &'static [&'static [usize]],
    ins: &'static [&'static [usize]],
    outs: &'static [&'static [usize]],
}

/// Facts along a loop of two nodes; a loop with no fact; an edge from a node to itself, twice;
/// no facts; and no nodes.
pub const PROBLEMS: &[Problem; 5] = &[
    Problem {
        facts: 3,
        edges: &[(0, 1), (1, 2), (2, 1), (1, 3)],
        gens: &[&[0], &[], &[1], &[2]],
        kills: &[&[1], &[], &[0], &[]],
        ins: &[&[], &[0, 1], &[0, 1], &[0, 1]],
        outs: &[&[0], &[0, 1], &[1], &[0, 1, 2]],
    },
    Problem {
        facts: 2,
        edges: &[(0, 1), (1, 0)],
        gens: &[&[], &[]],
        kills: &[&[], &[]],
        ins: &[&[], &[]],
        outs: &[&[], &[]],
    },
    Problem {
        facts: 1,
        edges: &[(0, 0), (0, 0)],
        gens: &[&[0]],
        kills: &[&[0]],
        ins: &[&[0]],
        outs: &[&[0]],
    },
    Problem {
        facts: 0,
        edges: &[(0, 1)],
        gens: &[&[], &[]],
        kills: &[&[], &[]],
        ins: &[&[], &[]],
        outs: &[&[], &[]],
    },
    Problem {
        facts: 5,
        edges: &[],
        gens: &[],
        kills: &[],
        ins: &[],
        outs: &[],
    },
];

/// The problems that have nodes, each by its place in that list.
pub const CALLS: &[(&str, Call); 4] = &[
    ("solve of four nodes", Call::Problem(0)),
    ("solve of a loop", Call::Problem(1)),
    ("solve of one node", Call::Problem(2)),
    ("solve of no facts", Call::Problem(3)),
];

/// The problem that has none, whose solution has no set.
pub const PLAIN: &[(&str, Call); 1] = &[("solve of no nodes", Call::Problem(4))];

/// Solves the problem at this place, with the edges as they stand and by the order of the flow,
/// looks at the results, and that the sets of the problem stay.
pub fn solved(alloc: Global, starts: &Starts, place: usize) -> Result<bool, Fault> {
    match (PROBLEMS.get(place), starts.nodes.get(place)) {
        (Some(problem), Some(nodes)) => solved_of(alloc, nodes, problem),
        _ => Ok(false),
    }
}

fn solved_of(alloc: Global, nodes: &Nodes, problem: &Problem) -> Result<bool, Fault> {
    let outcome = answered(alloc, &nodes.gens, &nodes.kills, problem);
    let facts = problem.facts;
    if are(&nodes.gens, facts, problem.gens) && are(&nodes.kills, facts, problem.kills) {
        outcome
    } else {
        Ok(false)
    }
}

fn answered(
    alloc: Global,
    gens: &[FixedBitSet],
    kills: &[FixedBitSet],
    problem: &Problem,
) -> Result<bool, Fault> {
    let (facts, edges) = (problem.facts, problem.edges);
    if !is_problem(facts, edges, gens, kills) {
        return Ok(false);
    }
    let answer = solve(alloc, facts, edges, gens, kills, &mut Steps::new())?;
    let ordered = solve_in_order(alloc, facts, edges, gens, kills, &mut Steps::new())?;
    Ok(is_solution(&answer, problem) && is_solution(&ordered, problem))
}

// Whether these are the sets of the problem's solution.
fn is_solution(answer: &Solution, problem: &Problem) -> bool {
    are(&answer.ins, problem.facts, problem.ins) && are(&answer.outs, problem.facts, problem.outs)
}

// Whether the sets have this length and these positions, one after the other.
fn are(sets: &[FixedBitSet], facts: usize, wanted: &[&[usize]]) -> bool {
    sets.len() == wanted.len()
        && sets
            .iter()
            .zip(wanted.iter())
            .all(|(set, positions)| is_value(set, facts, positions))
}
