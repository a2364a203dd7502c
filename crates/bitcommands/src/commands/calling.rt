//! Calls of an iterator from its ends, one after the other.
ghost use Rattle.std.specs.Prelude.{◌≡◌, ◌≤◌, [], length, MatchResult};
ghost use Rattle.std.specs.Vec.{vec_capacity};
ghost use Rattle.bitwalks.specs.Pairs.{joined_items, split_items};
ghost use Rattle.bitcommands.specs.Calls.{calls};
ghost use Rattle.bitcommands.specs.Answers.{answer_of, items};
ghost use Rattle.bitcommands.specs.declared.commands.refusals.Refusal.TheVariants.{Memory};
ghost use Rattle.bitcommands.specs.OneCall.{item_at, without_item_at};

use crate::commands::arguments::End;
use crate::commands::refusals::Refusal;
use crate::commands::replies::Reply;
use fixedbitset::{Difference, Intersection, IntoOnes, Ones, SymmetricDifference, Union, Zeroes};
use std::alloc::Global;

// An iterator that is called from its two ends.
pub(super) trait TwoEnds {
    ghost use Rattle.std.specs.Prelude.{List, ℕ};
    ghost use Rattle.std.specs.Iterator.{YieldsFirst, YieldsLast};

    // The items that are left.
    ghost items_left: { Self → List ℕ };

    // The first item that is left, or `None`.
    fn front(&mut self) -> Option<usize>
        ensures { YieldsFirst items_left self.old result self.new };

    // The last item that is left, or `None`.
    fn back(&mut self) -> Option<usize>
        ensures { YieldsLast items_left self.old result self.new };
}

impl<'a> TwoEnds for Ones<'a> {
    ghost items_left = { λ walk. walk.items };

    fn front(&mut self) -> Option<usize> {
        self.next()
    }

    fn back(&mut self) -> Option<usize> {
        self.next_back()
    }
}

impl TwoEnds for IntoOnes {
    ghost items_left = { λ walk. walk.items };

    fn front(&mut self) -> Option<usize> {
        self.next()
    }

    fn back(&mut self) -> Option<usize> {
        self.next_back()
    }
}

impl<'a> TwoEnds for Zeroes<'a> {
    ghost items_left = { λ walk. walk.items };

    fn front(&mut self) -> Option<usize> {
        self.next()
    }

    fn back(&mut self) -> Option<usize> {
        self.next_back()
    }
}

impl<'a> TwoEnds for Union<'a> {
    ghost items_left = { joined_items };

    fn front(&mut self) -> Option<usize> {
        self.next()
    }

    fn back(&mut self) -> Option<usize> {
        self.next_back()
    }
}

impl<'a> TwoEnds for Intersection<'a> {
    ghost items_left = { λ walk. walk.items };

    fn front(&mut self) -> Option<usize> {
        self.next()
    }

    fn back(&mut self) -> Option<usize> {
        self.next_back()
    }
}

impl<'a> TwoEnds for Difference<'a> {
    ghost items_left = { λ walk. walk.items };

    fn front(&mut self) -> Option<usize> {
        self.next()
    }

    fn back(&mut self) -> Option<usize> {
        self.next_back()
    }
}

impl<'a> TwoEnds for SymmetricDifference<'a> {
    ghost items_left = { split_items };

    fn front(&mut self) -> Option<usize> {
        self.next()
    }

    fn back(&mut self) -> Option<usize> {
        self.next_back()
    }
}

// The reply of one call an end, in order. All places are reserved before the first call.
pub(super) fn call_all<W: TwoEnds + Drop>(
    alloc: Global,
    walk: W,
    ends: &[End],
) -> Result<Reply, Refusal>
    ensures { MatchResult result
        (λ reply. answer_of reply ≡ items (calls ends.now (W.items_left walk)))
        (λ refusal. refusal ≡ Memory) }
{
    let places = Vec::with_capacity(alloc, ends.len())?;
    Ok(Reply::Items(call_each(walk, ends, places)))
}

// The same, where the list is empty and has a place for each result.
pub(super) fn call_each<W: TwoEnds + Drop>(
    mut walk: W,
    ends: &[End],
    mut items: Vec<Option<usize>>,
) -> Vec<Option<usize>>
    requires empty { items.items ≡ [] }
    requires room { length ends.now ≤ vec_capacity items }
    ensures { result.items ≡ calls ends.now (W.items_left walk) }
{
    for end in ends {
        let item = call(&mut walk, end);
        items.push(item).unwrap();
    }
    items
}

// One call from this end.
#[tactic(auto, using(crate::proofs::Calls::front_call, crate::proofs::Calls::back_call))]
fn call<W: TwoEnds>(walk: &mut W, end: &End) -> Option<usize>
    ensures item { result ≡ item_at end.now (W.items_left walk.old) }
    ensures left { W.items_left walk.new ≡ without_item_at end.now (W.items_left walk.old) }
{
    match end {
        End::Front => walk.front(),
        End::Back => walk.back(),
    }
}
