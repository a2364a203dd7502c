//! Rounds over all edges, until nothing goes along one. Nothing here allocates.

ghost use Rattle.std.specs.Prelude.{◌≡◌, ◌+◌, ◌*◌, ◌<◌, ◌≤◌, IsTrue, IfOk};
ghost use Rattle.std.specs.Prelude.{not, length, true, false, if◌then◌else◌};
ghost use Rattle.fixedbitset.specs.Bits as model;
ghost use Rattle.fixedbitset.specs.TwoSets.{union, difference, is_subset};
ghost use Rattle.flow.specs.Flow.{Sets, AreBelow};
ghost use Rattle.flow.specs.Turns.{Fits, IsReached, IsPassed, AreSettled, AreSettledBut};
ghost use Rattle.flow.specs.Turns.{all, total, facts_of, ins_after, outs_after};

use fixedbitset::{FixedBitSet, Steps};
use std::alloc::{AllocError, Global};
use std::mem;

// The nodes that may have something to pass on in this round, and in the next one.
#[derive(Drop)]
pub(crate) struct Room {
    due: FixedBitSet,
    next: FixedBitSet,
}

impl Room {
    // Room before the first round, in which each node may have something to pass on.
    #[tactic(auto, using(fixedbitset::specs::BitsFacts::facts))]
    pub(crate) fn new(alloc: Global, nodes: usize) -> Result<Room, AllocError>
        ensures due { IfOk result (λ room. room.due ≡ all nodes) }
        ensures next { IfOk result (λ room. room.next ≡ model.empty nodes) }
    {
        let mut due = FixedBitSet::with_capacity(alloc, nodes)?;
        due.insert_range(..);
        let next = FixedBitSet::with_capacity(alloc, nodes)?;
        Ok(Room { due, next })
    }
}

// Goes in rounds until nothing goes along an edge.
pub(crate) fn settle(
    edges: &[(usize, usize)],
    kills: &[FixedBitSet],
    ins: &mut [FixedBitSet],
    outs: &mut [FixedBitSet],
    room: &mut Room,
    rounds: &mut Steps,
)
    requires below { AreBelow (length ins.old) edges.now }
    requires fits { Fits (facts_of kills.now) kills.now ins.old outs.old }
    requires due { room.old.due ≡ all (length ins.old) }
    requires next { room.old.next ≡ model.empty (length ins.old) }
    ensures fits { Fits (facts_of kills.now) kills.now ins.new outs.new }
    ensures reached { (gens : Sets) → length gens ≡ length ins.old
        → IsReached edges.now gens kills.now ins.old outs.old
        → IsReached edges.now gens kills.now ins.new outs.new }
    ensures settled { AreSettled edges.now ins.new outs.new }
    ensures once { rounds.old < rounds.new }
    ensures bound { rounds.new ≤ rounds.old + (length ins.old * facts_of kills.now + 1) }
{
    'turns: loop {
        rounds.tick();
        if !turn(edges, kills, ins, outs, room) {
            return;
        }
        mem::swap(&mut room.due, &mut room.next);
        room.next.clear();
    }
}

// One turn over all edges: along each of them goes what its first node has in `outs` and its second
// node lacks in `ins`. Returns whether anything went.
fn turn(
    edges: &[(usize, usize)],
    kills: &[FixedBitSet],
    ins: &mut [FixedBitSet],
    outs: &mut [FixedBitSet],
    room: &mut Room,
) -> bool
    requires below { AreBelow (length ins.old) edges.now }
    requires fits { Fits (facts_of kills.now) kills.now ins.old outs.old }
    requires nodes { room.old.due.length ≡ length ins.old }
    requires next { room.old.next ≡ model.empty (length ins.old) }
    requires due { AreSettledBut room.old.due edges.now ins.old outs.old }
    ensures fits { Fits (facts_of kills.now) kills.now ins.new outs.new }
    ensures due_nodes { room.new.due.length ≡ length ins.old }
    ensures next_nodes { room.new.next.length ≡ length ins.old }
    ensures next { AreSettledBut room.new.next edges.now ins.new outs.new }
    ensures reached { (gens : Sets) → length gens ≡ length ins.old
        → IsReached edges.now gens kills.now ins.old outs.old
        → IsReached edges.now gens kills.now ins.new outs.new }
    ensures settled { result ≡ false → AreSettled edges.now ins.new outs.new }
    ensures grows { result ≡ true
        → total (facts_of kills.now) ins.old < total (facts_of kills.now) ins.new }
{
    let mut changed = false;
    for (from, to) in edges {
        if pass(&room.due, *from, *to, kills, ins, outs) {
            room.due.insert(*to);
            room.next.insert(*to);
            changed = true;
        }
    }
    changed
}

// Where node `from` is due, lets what its out set has go along an edge to node `to`: all of it to
// the in set, and what is not killed to the out set. Returns whether the in set lacked some of it;
// else nothing is changed.
fn pass(
    due: &FixedBitSet,
    from: usize,
    to: usize,
    kills: &[FixedBitSet],
    ins: &mut [FixedBitSet],
    outs: &mut [FixedBitSet],
) -> bool
    requires from { from < length ins.old }
    requires to { to < length ins.old }
    requires fits { Fits (facts_of kills.now) kills.now ins.old outs.old }
    ensures due { result ≡ true → IsTrue (model.contains due.now from) }
    ensures more { result ≡ true → ¬ (IsPassed ins.old outs.old (from, to)) }
    ensures none { result ≡ false → IsTrue (model.contains due.now from)
        → IsPassed ins.old outs.old (from, to) }
    ensures ins { ins.new ≡ (if result then ins_after ins.old outs.old from to else ins.old) }
    ensures outs { outs.new
        ≡ (if result then outs_after kills.now outs.old from to else outs.old) }
{
    if !due.contains(from) {
        return false;
    }
    if !add(&mut ins[to], &outs[from]) {
        return false;
    }
    add_spared(&mut outs[to], &ins[to], &kills[to]);
    true
}

// Adds the positions of another set of the same length, and returns whether one came in. That does
// not allocate, so it cannot fail.
fn add(set: &mut FixedBitSet, other: &FixedBitSet) -> bool
    requires { other.now.length ≡ set.old.length }
    ensures value { set.new ≡ union set.old other.now }
    ensures changed { result ≡ not (is_subset other.now set.old) }
{
    set.union_with_change(other).unwrap_or(false)
}

// Adds the positions of another set of the same length that `kills` lacks. That does not allocate,
// so it cannot fail.
fn add_spared(set: &mut FixedBitSet, other: &FixedBitSet, kills: &FixedBitSet)
    requires { other.now.length ≡ set.old.length }
    ensures { set.new ≡ union set.old (difference other.now kills.now) }
{
    let _ = set.union_with_difference(other, kills);
}
