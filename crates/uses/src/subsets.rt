//! Reads a nondeterministic automaton from standard input, makes it deterministic, and prints it
//! and which words it accepts.
//!
//! The first line is how many states and how many letters there are, at most 1,000 and at most 100.
//! A third number may follow: how many states the deterministic automaton may have, at most 1,000.
//! Without it they are 1,000. The second line is the start states, and the third the accepting
//! states. Then come the edges, each as a state, a letter and a state, and an empty line. Each
//! further line is a word.
//!
//! The first line of the output is how many states the deterministic automaton has. A line for each
//! of them follows, as `0 2 -> 0 1`: the set of states that it is, and the state after it by each
//! letter. The others are `yes` or `no`, one a word.
//!
//! The automaton has exactly the states and edges of its lines. Where some line is not as said
//! here, nothing is printed but one sentence on standard error with the number of that line, and
//! the status is 1. An automaton that would have too many states is an error of its first line.

ghost use Rattle.std.specs.Prelude.{◌≡◌, [], ◌∷◌, MatchOption, IfOk, IfErr, All, map};
ghost use Rattle.uses.specs.Faults.{IsFaultOfRow};
ghost use Rattle.uses.specs.Sets.{AreBelow, IsSetOf};
ghost use Rattle.uses.specs.Automata.{IsNfa, IsDfa};
ghost use Rattle.uses.specs.AutomatonEdges.{IsEdge, IsBetween};

use crate::text::sets::set_of;
use crate::text::{Fault, Row, Wrong};
use automata::{Dfa, Edge, Nfa};
use construction::determinize;
use fixedbitset::FixedBitSet;
use std::alloc::{AllocError, Global};
use std::fmt::Write;

mod automata;
mod construction;

// How many states either automaton may have, and how many letters there may be.
const STATES: usize = 1_000;

const LETTERS: usize = 100;

/// What is printed for this text.
pub(crate) fn output(alloc: Global, text: &str) -> Result<String, Fault> {
    let rows = crate::text::rows(alloc, text)?;
    output_of(alloc, &rows, rows.len() + 1)
}

// What is printed for these rows, after which this line would stand.
fn output_of(alloc: Global, rows: &[Row], line: usize) -> Result<String, Fault> {
    let [size, start, accepting, others @ ..] = rows else {
        return Err(Fault::Line(line, Wrong::Form("a line is missing")));
    };
    let (states, letters, limit) = sizes_of(size)?;
    let ends = ends_of(alloc, states, start, accepting)?;
    let (edges, words) = edges_and_words(others, line)?;
    let nfa = automaton_of(alloc, states, letters, ends, edges)?;
    answers_to(alloc, &nfa, limit, size.line, words)
}

// The sets of the start states and of the accepting states.
fn ends_of(
    alloc: Global,
    states: usize,
    start: &Row,
    accepting: &Row,
) -> Result<(FixedBitSet, FixedBitSet), Fault>
    ensures { IfOk result (λ ends. (ends.0.length ≡ states) × (ends.1.length ≡ states)) }
{
    let start = states_of(alloc, states, start)?;
    let accepting = states_of(alloc, states, accepting)?;
    Ok((start, accepting))
}

// The rows before the first empty one, and those after it.
fn edges_and_words(rows: &[Row], line: usize) -> Result<(&[Row], &[Row]), Fault> {
    let mut parts = rows.splitn(2, |row| row.numbers.is_empty());
    match (parts.next(), parts.next()) {
        (Some(edges), Some(words)) => Ok((edges, words)),
        _ => Err(Fault::Line(line, Wrong::Form("an empty line has to follow the edges"))),
    }
}

// The automaton of these start and accepting states, and of the edges of these rows.
fn automaton_of(
    alloc: Global,
    states: usize,
    letters: usize,
    ends: (FixedBitSet, FixedBitSet),
    rows: &[Row],
) -> Result<Nfa, Fault>
    requires start { ends.0.length ≡ states }
    requires accepting { ends.1.length ≡ states }
    ensures { IfOk result (λ nfa. IsNfa nfa) }
{
    let edges = edges_of(alloc, states, letters, rows)?;
    let (start, accepting) = ends;
    let nfa = Nfa {
        states,
        letters,
        edges,
        start,
        accepting,
    };
    prove!(nfa.is_valid());
    Ok(nfa)
}

// Makes the automaton deterministic, and says of each of these words whether it accepts it. Where
// it would have more states than the limit, the error has this line.
fn answers_to(
    alloc: Global,
    nfa: &Nfa,
    limit: usize,
    line: usize,
    words: &[Row],
) -> Result<String, Fault>
    requires { IsNfa nfa.now }
{
    let Some(dfa) = determinize(alloc, nfa, limit)? else {
        let wrong = Wrong::Past("the automaton would have more states than", limit);
        return Err(Fault::Line(line, wrong));
    };
    Ok(answers_of(alloc, &dfa, words)?)
}

// The automaton and which of these words it accepts, as they are printed.
fn answers_of(alloc: Global, dfa: &Dfa, words: &[Row]) -> Result<String, AllocError>
    requires { IsDfa dfa.now }
{
    let mut answers = String::new(alloc);
    write_states(&mut answers, dfa)?;
    for word in words {
        let answer = dfa.accepts(&word.numbers);
        answers.push_str(if answer { "yes\n" } else { "no\n" })?;
    }
    Ok(answers)
}

// How many states and letters there are, and how many states the deterministic automaton may have.
fn sizes_of(row: &Row) -> Result<(usize, usize, usize), Fault> {
    match *row.numbers.as_slice() {
        [states @ 0..=STATES, letters @ 0..=LETTERS] => Ok((states, letters, STATES)),
        [
            states @ 0..=STATES,
            letters @ 0..=LETTERS,
            limit @ 0..=STATES,
        ] => Ok((states, letters, limit)),
        _ => Err(Fault::Line(row.line, wrong_sizes(&row.numbers))),
    }
}

// What is wrong with numbers that are no such sizes.
fn wrong_sizes(numbers: &[usize]) -> Wrong {
    match *numbers {
        [states, _, ..] if states > STATES => Wrong::Above("the number of states", states, STATES),
        [_, letters, ..] if letters > LETTERS => {
            Wrong::Above("the number of letters", letters, LETTERS)
        }
        [_, _, limit] => Wrong::Above("the limit", limit, STATES),
        _ => Wrong::Form(
            "there have to be the numbers of states and of letters, and perhaps a limit",
        ),
    }
}

// How many states there are, and a line for each: the set that it is, and the state
// after it by each letter.
fn write_states(answers: &mut String, dfa: &Dfa) -> Result<(), AllocError> {
    writeln!(answers, "{}", dfa.sets.len())?;
    let mut next = dfa.next.iter();
    for set in &dfa.sets {
        for state in set.ones() {
            write!(answers, "{state} ")?;
        }
        answers.push_str("->")?;
        for state in next.by_ref().take(dfa.letters) {
            write!(answers, " {state}")?;
        }
        answers.push_str("\n")?;
    }
    Ok(())
}

// The set of the states of a row. The error has the row, some number of which is no state.
fn states_of(alloc: Global, states: usize, row: &Row) -> Result<FixedBitSet, Fault>
    ensures set { IfOk result (IsSetOf states row.now.numbers.items) }
    ensures fault { IfErr result (IsFaultOfRow (AreBelow states) (row.now ∷ [])) }
{
    let Some(set) = set_of(alloc, states, &row.numbers)? else {
        return Err(Fault::Line(row.line, wrong_states(&row.numbers, states)));
    };
    Ok(set)
}

// What is wrong with numbers that are not all states: the first that is none.
fn wrong_states(numbers: &[usize], states: usize) -> Wrong {
    match numbers.iter().find(|state| **state >= states) {
        Some(state) => Wrong::NotBelow("the state", *state, states),
        None => Wrong::Form("each number has to be a state"),
    }
}

// The edges of these rows, one each. The error has the first row that is no edge.
fn edges_of(alloc: Global, states: usize, letters: usize, rows: &[Row]) -> Result<Vec<Edge>, Fault>
    ensures edges { IfOk result (λ edges. map (λ edge. edge.0 ∷ edge.1 ∷ edge.2 ∷ []) edges.items
        ≡ map (λ row. row.numbers.items) rows.now) }
    ensures between { IfOk result (λ edges. All (IsBetween states letters) edges.items) }
    ensures fault { IfErr result (IsFaultOfRow (IsEdge states letters) rows.now) }
{
    let mut edges = Vec::new(alloc);
    for row in rows {
        let Some(edge) = edge_of(&row.numbers, states, letters) else {
            return Err(Fault::Line(row.line, wrong_edge(&row.numbers, states, letters)));
        };
        edges.push(edge)?;
    }
    Ok(edges)
}

// What is wrong with the numbers of a row that is no edge.
fn wrong_edge(numbers: &[usize], states: usize, letters: usize) -> Wrong {
    match *numbers {
        [from, _, _] if from >= states => Wrong::NotBelow("the state", from, states),
        [_, by, _] if by >= letters => Wrong::NotBelow("the letter", by, letters),
        [_, _, to] => Wrong::NotBelow("the state", to, states),
        _ => Wrong::Form("an edge has to be a state, a letter and a state"),
    }
}

// The numbers of an edge. `None` is returned exactly where they are none.
fn edge_of(numbers: &[usize], states: usize, letters: usize) -> Option<Edge>
    ensures { MatchOption result (¬ (IsEdge states letters numbers.now))
        (λ edge. IsBetween states letters edge × (numbers.now ≡ edge.0 ∷ edge.1 ∷ edge.2 ∷ [])) }
{
    match *numbers {
        [from, by, to] if from < states && by < letters && to < states => Some((from, by, to)),
        _ => None,
    }
}
