//! The examples in the docs of `bitlaws::laws`.
//! tools/docs/make_examples writes this file.

use crate::calls::{cleared, known, known_equal, ok, set_of};
use bitlaws::laws;
use fixedbitset::FixedBitSet;

#[test]
#[tactic(auto, using(fixedbitset::specs::OrderFacts::facts))]
fn reads_back(rt: HostRuntime) {
    let alloc = rt.alloc();
    let set = set_of(&rt, alloc, &[3, 64]);
    let value = ok(&rt, set.to_value(alloc));
    laws::reads_back();
    let again = ok(&rt, FixedBitSet::from_value(alloc, &value));
    prove!(again == set);
}

#[test]
fn none_and_all(rt: HostRuntime) {
    let alloc = rt.alloc();
    let set = set_of(&rt, alloc, &[3, 64]);
    laws::none_and_all();
    prove!(set.is_clear() == (set.count_ones(..) == 0));
    prove!(set.is_full() == (set.count_ones(..) == set.len()));
}

#[test]
#[tactic(auto, using(fixedbitset::specs::BitsFacts::facts))]
fn one_more_or_fewer(rt: HostRuntime) {
    let alloc = rt.alloc();
    let mut set = cleared(&rt, alloc, 70);
    let before = set.count_ones(..);
    known(&rt, !set.put(64));
    laws::one_more_or_fewer();
    prove!(set.count_ones(..) == before + 1);
}

#[test]
#[tactic(auto, using(fixedbitset::specs::RangesFacts::facts, fixedbitset::specs::OrderFacts::facts))]
fn toggling_twice(rt: HostRuntime) {
    let alloc = rt.alloc();
    let mut set = set_of(&rt, alloc, &[3, 64]);
    let before = ok(&rt, set.clone());
    set.toggle_range(..);
    set.toggle_range(..);
    laws::toggling_twice();
    prove!(set == before);
}

#[test]
#[tactic(auto, using(fixedbitset::specs::BitsFacts::facts))]
fn counts_of_range_add_up(rt: HostRuntime) {
    let alloc = rt.alloc();
    let mut set = cleared(&rt, alloc, 70);
    set.insert(64);
    known_equal(&rt, set.count_ones(60..), 1);
    laws::counts_of_range_add_up();
    prove!(set.count_zeroes(60..) == 9);
}

#[test]
#[tactic(auto, using(fixedbitset::specs::BitsFacts::facts, fixedbitset::specs::RangesFacts::facts))]
fn tests_of_range(rt: HostRuntime) {
    let alloc = rt.alloc();
    let mut set = cleared(&rt, alloc, 70);
    set.insert_range(60..66);
    known(&rt, set.contains_all_in_range(60..66));
    laws::tests_of_range();
    prove!(set.contains(64));
}

#[test]
fn symmetric_difference_count_is_a_sum(rt: HostRuntime) {
    let alloc = rt.alloc();
    let set = set_of(&rt, alloc, &[1, 3]);
    let other = set_of(&rt, alloc, &[3, 64]);
    laws::symmetric_difference_count_is_a_sum();
    let count = set.symmetric_difference_count(&other);
    prove!(count == set.difference_count(&other) + other.difference_count(&set));
}

#[test]
fn tests_of_two_sets(rt: HostRuntime) {
    let alloc = rt.alloc();
    let set = set_of(&rt, alloc, &[3, 64]);
    let other = set_of(&rt, alloc, &[3, 64, 200]);
    known(&rt, set.contains(64) && set.is_subset(&other));
    laws::tests_of_two_sets();
    prove!(other.contains(64));
}

#[test]
fn joins_in_any_order(rt: HostRuntime) {
    let alloc = rt.alloc();
    let set = set_of(&rt, alloc, &[3, 64]);
    let other = set_of(&rt, alloc, &[3, 64, 200]);
    laws::joins_in_any_order();
    let (one, same) = (ok(&rt, set.bitor(&other)), ok(&rt, other.bitor(&set)));
    prove!(one == same);
}

#[test]
fn subsets_are_ordered(rt: HostRuntime) {
    let alloc = rt.alloc();
    let set = set_of(&rt, alloc, &[3, 64]);
    let other = set_of(&rt, alloc, &[9]);
    laws::subsets_are_ordered();
    let joined = ok(&rt, set.bitor(&other));
    prove!(set.is_subset(&joined));
}
