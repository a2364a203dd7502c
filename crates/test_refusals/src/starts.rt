//! The sets that the calls are made on. All memory for them is asked for before the first call.

ghost use Rattle.std.specs.Prelude.{IfOk, ◌≡◌};
ghost use Rattle.fixedbitset.specs.Bits as model;

use crate::outcome::Fault;
use crate::solving::{PROBLEMS, Problem};
use fixedbitset::FixedBitSet;
use serde_json::Value;
use std::alloc::{AllocError, Global};

/// The length of a long set. A short set needs more words to have it.
pub const LONG: usize = 100_000;

/// The positions of a short set.
pub const SHORT: &[usize] = &[3];

/// The positions of a long set: the last one alone.
pub const LAST: &[usize] = &[LONG - 1];

/// The positions of both.
pub const BOTH: &[usize] = &[3, LONG - 1];

// As many sets as calls take for themselves. Each of the 23 calls of `growing`, the 15 groups and
// the 8 iterators takes a short set. The groups `lesser` and `growth_in_place` take one more each.
const SHORT_SETS: usize = 23 + 15 + 8 + 2;

// The groups `counted` and `joins_in_place` take a long set each. No call takes the rest.
const LONG_SETS: usize = 8;

// Room for each text that a call appends to the output.
const ROOM: usize = 64;

/// What the nodes of a data-flow problem make, and what they stop.
#[derive(Drop)]
pub struct Nodes {
    pub gens: Vec<FixedBitSet>,
    pub kills: Vec<FixedBitSet>,
}

#[derive(Drop)]
pub struct Starts {
    short_sets: Vec<FixedBitSet>,
    long_sets: Vec<FixedBitSet>,
    /// A short set and a long one, which no call changes.
    pub short: FixedBitSet,
    pub long: FixedBitSet,
    /// The sets of commands: two short ones.
    pub sets: Vec<FixedBitSet>,
    /// The set of the commands that are run together: a short one.
    pub run_sets: Vec<FixedBitSet>,
    /// The nodes of each data-flow problem.
    pub nodes: Vec<Nodes>,
    /// The JSON form of a short set.
    pub json: Value,
    /// A text without room, and one with enough for the reply to a line.
    pub full: Vec<u8>,
    pub output: Vec<u8>,
    /// Whether a failed `grow` is made to lose the positions of its set.
    pub forgets: bool,
}

impl Starts {
    /// No sets yet, which does not allocate. `add_all` makes the sets in a second step: one
    /// function that makes all at once is several times as dear to prove.
    pub fn new(alloc: Global, forgets: bool) -> Starts {
        Starts {
            short_sets: Vec::new(alloc),
            long_sets: Vec::new(alloc),
            short: FixedBitSet::new(alloc),
            long: FixedBitSet::new(alloc),
            sets: Vec::new(alloc),
            run_sets: Vec::new(alloc),
            nodes: Vec::new(alloc),
            json: Value::Null,
            full: Vec::new(alloc),
            output: Vec::new(alloc),
            forgets,
        }
    }

    /// Makes all the sets. Where an allocation fails, the sets made so far stay, and the rest are
    /// missing. No call is to be made then.
    pub fn add_all(&mut self, alloc: Global) -> Result<(), Fault> {
        self.add_values(alloc)?;
        self.add_sets(alloc)?;
        self.add_kept(alloc)?;
        Ok(())
    }

    fn add_values(&mut self, alloc: Global) -> Result<(), Fault> {
        self.json = short_json(alloc)?;
        self.output = Vec::with_capacity(alloc, ROOM)?;
        Ok(())
    }

    fn add_sets(&mut self, alloc: Global) -> Result<(), AllocError> {
        add_short_sets(&mut self.short_sets, alloc, SHORT_SETS)?;
        add_long_sets(&mut self.long_sets, alloc, LONG_SETS)?;
        add_short_sets(&mut self.sets, alloc, 2)?;
        add_short_sets(&mut self.run_sets, alloc, 1)
    }

    // The sets that no call changes, and the nodes.
    fn add_kept(&mut self, alloc: Global) -> Result<(), AllocError> {
        self.short = short_set(alloc)?;
        self.long = long_set(alloc)?;
        add_nodes(&mut self.nodes, alloc)
    }

    /// A set of ten positions, of them 3, for one call alone.
    pub fn take_short(&mut self) -> Result<FixedBitSet, Fault> {
        self.short_sets.pop().ok_or(Fault::Other)
    }

    /// A set of 100,000 positions, of them the last, for one call alone.
    pub fn take_long(&mut self) -> Result<FixedBitSet, Fault> {
        self.long_sets.pop().ok_or(Fault::Other)
    }
}

fn short_json(alloc: Global) -> Result<Value, Fault> {
    Value::from_str(alloc, r#"{"length":10,"data":[8]}"#).map_err(|_| Fault::Memory)
}

fn add_short_sets(
    sets: &mut Vec<FixedBitSet>,
    alloc: Global,
    count: usize,
) -> Result<(), AllocError> {
    for _ in 0..count {
        sets.push(short_set(alloc)?)?;
    }
    Ok(())
}

fn add_long_sets(
    sets: &mut Vec<FixedBitSet>,
    alloc: Global,
    count: usize,
) -> Result<(), AllocError> {
    for _ in 0..count {
        sets.push(long_set(alloc)?)?;
    }
    Ok(())
}

#[tactic(auto, using(fixedbitset::specs::BitsFacts::facts))]
fn short_set(alloc: Global) -> Result<FixedBitSet, AllocError>
    ensures { IfOk result (λ set. set ≡ model.insert (model.empty 10) 3) }
{
    let mut set = FixedBitSet::with_capacity(alloc, 10)?;
    set.insert(3);
    Ok(set)
}

#[tactic(auto, using(fixedbitset::specs::BitsFacts::facts))]
fn long_set(alloc: Global) -> Result<FixedBitSet, AllocError>
    ensures { IfOk result (λ set. set ≡ model.insert (model.empty LONG) (99_999)) }
{
    let mut set = FixedBitSet::with_capacity(alloc, LONG)?;
    set.insert(LONG - 1);
    Ok(set)
}

fn add_nodes(all: &mut Vec<Nodes>, alloc: Global) -> Result<(), AllocError> {
    for problem in PROBLEMS {
        all.push(nodes_of(alloc, problem)?)?;
    }
    Ok(())
}

fn nodes_of(alloc: Global, problem: &Problem) -> Result<Nodes, AllocError> {
    let mut nodes = Nodes {
        gens: Vec::new(alloc),
        kills: Vec::new(alloc),
    };
    add_fact_sets(&mut nodes.gens, alloc, problem.facts, problem.gens)?;
    add_fact_sets(&mut nodes.kills, alloc, problem.facts, problem.kills)?;
    Ok(nodes)
}

// Adds a set of this length for each list of its positions.
fn add_fact_sets(
    sets: &mut Vec<FixedBitSet>,
    alloc: Global,
    length: usize,
    members: &[&[usize]],
) -> Result<(), AllocError> {
    for positions in members {
        sets.push(set_of(alloc, length, positions)?)?;
    }
    Ok(())
}

fn set_of(alloc: Global, length: usize, positions: &[usize]) -> Result<FixedBitSet, AllocError> {
    let mut set = FixedBitSet::with_capacity(alloc, length)?;
    for position in positions {
        insert_below(&mut set, *position);
    }
    Ok(set)
}

fn insert_below(set: &mut FixedBitSet, position: usize) {
    if position < set.len() {
        set.insert(position);
    }
}

/// Whether the set has this length and these positions alone, which are all different.
pub fn is_value(set: &FixedBitSet, length: usize, positions: &[usize]) -> bool {
    set.len() == length
        && set.as_slice().len() == length.div_ceil(64)
        && set.count_ones(..) == positions.len()
        && positions.iter().all(|position| set.contains(*position))
}

/// Whether the set is as it was made.
pub fn is_short(set: &FixedBitSet) -> bool {
    is_value(set, 10, SHORT)
}

pub fn is_long(set: &FixedBitSet) -> bool {
    is_value(set, LONG, LAST)
}
