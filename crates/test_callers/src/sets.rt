//! Functions over sets as a user writes them: made, filled, compared, and kept as keys of maps.

ghost use Rattle.std.specs.Prelude.{◌≡◌, ◌≢◌, ◌↔◌, ◌+◌, ◌-◌, ◌<◌, ◌^◌, ◌∷◌, []};
ghost use Rattle.std.specs.Prelude.{IsTrue, IfOk, OnOk, None, Some, true, false};
ghost use Rattle.fixedbitset.specs.Bits as model;
ghost use Rattle.fixedbitset.specs.Ranges as ranges;

use fixedbitset::{ExtendFault, FixedBitSet};
use std::alloc::{AllocError, Global};
use std::collections::{BTreeMap, HashMap};
use std::test::Fail;

/// The set of a graph traversal's start: of `nodes` nodes the first is visited.
#[tactic(auto, using(fixedbitset::specs::BitsFacts::facts))]
pub fn start(alloc: Global, nodes: usize) -> Result<FixedBitSet, AllocError>
    requires { 0 < nodes }
    ensures { IfOk result (λ visited. visited ≡ model.insert (model.empty nodes) 0) }
{
    let mut visited = FixedBitSet::with_capacity(alloc, nodes)?;
    visited.insert(0);
    Ok(visited)
}

/// Takes the slots from `first` to `last`, both of them too, and returns whether there are such
/// slots.
#[tactic(auto, using(bitlanes::specs::RangeFacts::behind_next))]
pub fn take(slots: &mut FixedBitSet, first: usize, last: usize) -> bool
    ensures taken { result ≡ true → slots.new ≡ ranges.insert_range slots.old first (last + 1) }
    ensures left { result ≡ false → slots.new ≡ slots.old }
{
    if first > last || last >= slots.len() {
        return false;
    }
    slots.insert_range(first..=last);
    true
}

/// How many slots are taken, and how many are not, by iterators over them.
#[tactic(auto, using(fixedbitset::specs::SizeFacts::items_counted, fixedbitset::specs::SizeFacts::zero_items_counted))]
pub fn walked(slots: &FixedBitSet) -> (usize, usize)
    ensures taken { result.0 ≡ ranges.count_ones slots.now 0 slots.now.length }
    ensures left { result.1 ≡ ranges.count_zeroes slots.now 0 slots.now.length }
{
    (slots.ones().count(), slots.zeroes().count())
}

/// The set of a list's items.
pub fn set_of(alloc: Global, items: &[usize]) -> Result<FixedBitSet, ExtendFault>
    ensures { IfOk result (λ set. set ≡ model.add_all (model.empty 0) items.now) }
{
    FixedBitSet::from_iter(alloc, items.iter().copied())
}

/// Adds the last two days of a week to the days of it.
pub fn add_weekend(days: &mut FixedBitSet) -> Result<(), ExtendFault>
    ensures { OnOk result (days.new ≡ model.add_all days.old (5 ∷ 6 ∷ [])) }
{
    days.extend([5, 6])
}

/// Remembers a node of a graph whose size is not known.
#[tactic(auto, using(fixedbitset::specs::AddFacts::additions))]
pub fn remember(seen: &mut FixedBitSet, node: usize) -> Result<(), AllocError>
    requires { node < 2 ^ 64 - 1 }
    ensures { OnOk result (model.contains seen.new node ≡ true) }
{
    seen.grow_and_insert(node)
}

/// Whether two sets are the same value.
#[tactic(auto, using(fixedbitset::specs::OrderFacts::facts))]
pub fn alike(a: &FixedBitSet, b: &FixedBitSet) -> bool
    ensures { IsTrue result ↔ (a.now ≡ b.now) }
{
    a == b
}

/// What a tree that has the first set finds at the second.
#[tactic(auto, using(fixedbitset::specs::OrderFacts::facts))]
pub fn found_in_tree(
    alloc: Global,
    first: FixedBitSet,
    second: &FixedBitSet,
) -> Result<Option<usize>, Fail>
    ensures same { IfOk result (λ found. first ≡ second.now → found ≡ Some 7) }
    ensures other { IfOk result (λ found. first ≢ second.now → found ≡ None) }
{
    let mut map = BTreeMap::new(alloc);
    map.insert(first, 7)?;
    Ok(map.get(second).copied())
}

/// What a table that has the first set finds at the second.
#[tactic(auto, using(fixedbitset::specs::OrderFacts::facts))]
pub fn found_in_table(
    alloc: Global,
    first: FixedBitSet,
    second: &FixedBitSet,
) -> Result<Option<usize>, Fail>
    ensures same { IfOk result (λ found. first ≡ second.now → found ≡ Some 7) }
    ensures other { IfOk result (λ found. first ≢ second.now → found ≡ None) }
{
    let mut map: HashMap<FixedBitSet, usize> = HashMap::new(alloc);
    map.insert(first, 7)?;
    Ok(map.get(second).copied())
}
