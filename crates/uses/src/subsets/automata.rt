//! Automata over the letters `0..letters`, and the words that they accept (`specs/Automata.antt`).

ghost use Rattle.std.specs.Prelude.{◌↔◌, IsTrue};
ghost use Rattle.uses.specs.Automata.{IsNfa, IsDfa, IsOver, IsAcceptedBy};

use fixedbitset::FixedBitSet;

/// A state, a letter and the state that an edge by it leads to.
pub type Edge = (usize, usize, usize);

/// A nondeterministic automaton. A word is accepted if its letters lead along edges from a start
/// state to an accepting state.
#[derive(Debug, Drop)]
pub struct Nfa {
    /// How many states there are; they are `0..states`.
    pub states: usize,
    pub letters: usize,
    pub edges: Vec<Edge>,
    pub start: FixedBitSet,
    pub accepting: FixedBitSet,
}

/// A deterministic automaton whose states are sets of the states of another one. A
/// run starts at state 0.
#[derive(Debug, Drop)]
pub struct Dfa {
    pub letters: usize,
    /// The set that each state is.
    pub sets: Vec<FixedBitSet>,
    /// The state after `state` by `letter`, at `state * letters + letter`.
    pub next: Vec<usize>,
    /// Whether each state is accepting.
    pub accepting: Vec<bool>,
}

impl Nfa {
    /// Whether its edges lie between its states and bear its letters, and both its
    /// sets have length `states`.
    pub fn is_valid(&self) -> bool
        ensures { IsTrue result ↔ IsNfa self.now }
    {
        let (states, letters) = (self.states, self.letters);
        let mut edges = self.edges.iter();
        self.start.len() == states
            && self.accepting.len() == states
            && edges.all(|(from, letter, to)| *from < states && *letter < letters && *to < states)
    }
}

impl Dfa {
    /// Whether it accepts a word: whether a run from state 0 ends at an accepting state. A word
    /// with a letter past `letters` is not accepted.
    pub fn accepts(&self, word: &[usize]) -> bool
        requires { IsDfa self.now }
        ensures { IsTrue result
            ↔ (IsOver self.now.letters word.now × IsAcceptedBy self.now word.now) }
    {
        let mut state = 0;
        for letter in word {
            if *letter >= self.letters {
                return false;
            }
            state = self.next[state * self.letters + *letter];
        }
        self.accepting[state]
    }
}
