//! The subset construction.
//!
//! What [`determinize`] promises: the deterministic automaton accepts exactly the words that the
//! nondeterministic one accepts, and its states are exactly the sets of states that some word
//! reaches, each once. A word is accepted if its letters lead along edges from a start state to an
//! accepting state (`specs/Automata.antt`).

ghost use Rattle.std.specs.Prelude.{◌≡◌, ◌<◌, ◌≤◌, ◌↔◌, ℕ, List, IfOk, length, Ok, None};
ghost use Rattle.uses.specs.Automata.{IsNfa, IsOver, IsAccepted, IsSetOf};
ghost use Rattle.uses.specs.Automata.{IsDfa, IsAcceptedBy, AreDistinct};
ghost use Rattle.uses.specs.Automata.{NeedsMore, IfMade, at, end_of};
ghost use Rattle.uses.specs.Subsets.{IsStep, IsNumbered};

use crate::subsets::automata::{Dfa, Nfa};
use fixedbitset::FixedBitSet;
use std::alloc::{AllocError, Global};

/// The deterministic automaton that accepts the words that `nfa` accepts. Its states are
/// the sets of states that some word reaches, each of them once, and the first is the
/// set of the start states.
///
/// Its precondition is what [`Nfa::is_valid`] tests. `None` is returned only where there are more
/// than `limit` such sets; `Err` only on allocation failure.
pub fn determinize(alloc: Global, nfa: &Nfa, limit: usize) -> Result<Option<Dfa>, AllocError>
    requires { IsNfa nfa.now }
    ensures dfa { IfMade result (λ dfa. IsDfa dfa) }
    ensures letters { IfMade result (λ dfa. dfa.letters ≡ nfa.now.letters) }
    ensures accepts { IfMade result (λ dfa. (word : List ℕ) → IsOver nfa.now.letters word
        → IsAcceptedBy dfa word ↔ IsAccepted nfa.now word) }
    ensures sets { IfMade result (λ dfa. (word : List ℕ) → IsOver nfa.now.letters word
        → IsSetOf nfa.now word (at dfa.sets.items (end_of dfa word))) }
    ensures useful { IfMade result (λ dfa. (s : ℕ) → s < length dfa.sets.items
        → (word : List ℕ) × IsOver nfa.now.letters word × (end_of dfa word ≡ s)) }
    ensures distinct { IfMade result (λ dfa. AreDistinct dfa.sets.items) }
    ensures within { IfMade result (λ dfa. length dfa.sets.items ≤ limit) }
    ensures too_many { result ≡ Ok None → NeedsMore nfa.now limit }
{
    // The set of the start states is one already.
    if limit == 0 {
        return Ok(None);
    }
    let mut sets = vec![in alloc; nfa.start.clone()?]?;
    let (mut next, mut accepting) = (Vec::new(alloc), Vec::new(alloc));
    let mut state = 0;
    'states: while state < sets.len() {
        accepting.push(!sets[state].is_disjoint(&nfa.accepting))?;
        for letter in 0..nfa.letters {
            let set = step(alloc, nfa, &sets[state], letter)?;
            next.push(number_of(&mut sets, set)?)?;
            if sets.len() > limit {
                return Ok(None);
            }
        }
        state += 1;
    }
    Ok(Some(Dfa {
        letters: nfa.letters,
        sets,
        next,
        accepting,
    }))
}

// The states to which edges lead from these states by a letter.
fn step(alloc: Global, nfa: &Nfa, set: &FixedBitSet, by: usize) -> Result<FixedBitSet, AllocError>
    requires { IsNfa nfa.now }
    ensures { IfOk result (λ new. IsStep nfa.now.states nfa.now.edges.items set.now by new) }
{
    let mut new = FixedBitSet::with_capacity(alloc, nfa.states)?;
    for (from, letter, to) in &nfa.edges {
        if *letter == by && set.contains(*from) {
            new.insert(*to);
        }
    }
    Ok(new)
}

// The number of a set, which is added if it isn't there yet.
fn number_of(sets: &mut Vec<FixedBitSet>, set: FixedBitSet) -> Result<usize, AllocError>
    ensures { IfOk result (λ k. IsNumbered sets.old.items set sets.new.items k) }
{
    if let Some(number) = sets.iter().position(|known| *known == set) {
        return Ok(number);
    }
    sets.push(set)?;
    Ok(sets.len() - 1)
}
