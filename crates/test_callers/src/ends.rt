//! Iterators from the back, and from both ends in turn.

ghost use Rattle.std.specs.Prelude.{◌≡◌, ◌+◌, reverse, length, slice_get, IfOk};
ghost use Rattle.test_callers.specs.Calls.{answers, left_after};
ghost use Rattle.fixedbitset.specs.Bits as model;

use fixedbitset::{FixedBitSet, Ones};
use std::alloc::{AllocError, Global};

/// The positions, the greatest first.
pub fn descending(alloc: Global, set: &FixedBitSet) -> Result<Vec<usize>, AllocError>
    ensures { IfOk result (λ list. list.items ≡ reverse (model.asc set.now)) }
{
    set.ones().rev().collect(alloc)
}

/// The position that has so many after it.
pub fn nth_back(set: &FixedBitSet, place: usize) -> Option<usize>
    ensures { result ≡ slice_get (reverse (model.asc set.now)) place }
{
    set.ones().nth_back(place)
}

/// The positions of a set that is not used again.
pub fn ascending_of(alloc: Global, set: FixedBitSet) -> Result<Vec<usize>, AllocError>
    ensures { IfOk result (λ list. list.items ≡ model.asc set) }
{
    set.into_ones().collect(alloc)
}

/// The same, the greatest first.
pub fn descending_of(alloc: Global, set: FixedBitSet) -> Result<Vec<usize>, AllocError>
    ensures { IfOk result (λ list. list.items ≡ reverse (model.asc set)) }
{
    set.into_ones().rev().collect(alloc)
}

/// What calls from these ends in turn return, where `true` is the front.
#[tactic(auto, using(crate::proofs::CallsLemmas::calls))]
pub fn called(
    alloc: Global,
    set: &FixedBitSet,
    ends: &[bool],
) -> Result<Vec<Option<usize>>, AllocError>
    ensures { IfOk result (λ list. list.items ≡ answers ends.now (model.asc set.now)) }
{
    let mut walk = set.ones();
    let mut list = Vec::new(alloc);
    for front in ends {
        let answer = if *front {
            walk.next()
        } else {
            walk.next_back()
        };
        list.push(answer)?;
    }
    Ok(list)
}

/// Calls an iterator from these ends in turn, and discards the results. The calls make one turn
/// each, and one more for each word that they take; no word is taken twice.
#[tactic(auto, using(crate::proofs::CallsLemmas::calls, crate::proofs::CallsLemmas::counts))]
pub fn call_all(walk: &mut Ones<'_>, ends: &[bool])
    ensures items { walk.new.items ≡ left_after ends.now walk.old.items }
    ensures turns { walk.new.turns + walk.old.taken ≡ walk.old.turns + length ends.now
        + walk.new.taken }
    ensures taken { walk.new.taken + length walk.new.words
        ≡ walk.old.taken + length walk.old.words }
{
    for front in ends {
        let _ = if *front {
            walk.next()
        } else {
            walk.next_back()
        };
    }
}
