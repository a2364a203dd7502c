//! The calls on sets that do not allocate, in groups. Each returns whether all calls of the group
//! did what they do with ample memory.

use crate::calls::Call;
use crate::changes::{COUNTED_JOINS, COUNTED_LESSER, JOINS, LESSER, SHIFTS, make_changes};
use crate::growing::Asked;
use crate::outcome::Fault;
use crate::starts::{LONG, Starts, is_long, is_short, is_value};
use fixedbitset::{Bits, ExtendFault, FixedBitSet, IndexRange, JsonFault, Steps, counted};
use serde_json::Value;
use std::alloc::Global;
use std::cmp::Ordering;
use std::hash::{DefaultHasher, Hash, Hasher};

#[derive(Clone, Copy)]
pub enum Group {
    Looks,
    Positions,
    Unchecked,
    RangesAsked,
    RangesChanged,
    RangesCounted,
    RangesInclusive,
    Lesser,
    Shifts,
    Counts,
    Counted,
    Order,
    GrowthInPlace,
    JoinsInPlace,
    Json,
}

pub const GROUPS: &[(&str, Call); 15] = &[
    ("looks", Call::Group(Group::Looks)),
    ("positions", Call::Group(Group::Positions)),
    ("unchecked", Call::Group(Group::Unchecked)),
    ("ranges_asked", Call::Group(Group::RangesAsked)),
    ("ranges_changed", Call::Group(Group::RangesChanged)),
    ("ranges_counted", Call::Group(Group::RangesCounted)),
    ("ranges_inclusive", Call::Group(Group::RangesInclusive)),
    ("lesser", Call::Group(Group::Lesser)),
    ("shifts", Call::Group(Group::Shifts)),
    ("counts", Call::Group(Group::Counts)),
    ("counted", Call::Group(Group::Counted)),
    ("order", Call::Group(Group::Order)),
    ("growth_in_place", Call::Group(Group::GrowthInPlace)),
    ("joins_in_place", Call::Group(Group::JoinsInPlace)),
    ("json", Call::Group(Group::Json)),
];

pub fn holds(alloc: Global, starts: &mut Starts, group: Group) -> Result<bool, Fault> {
    let mut set = starts.take_short()?;
    holds_of(alloc, &mut set, starts, group)
}

// The set is a short one.
fn holds_of(
    alloc: Global,
    set: &mut FixedBitSet,
    starts: &mut Starts,
    group: Group,
) -> Result<bool, Fault> {
    match group {
        Group::Lesser => lesser(set, starts),
        Group::Shifts => shifts(set, starts),
        Group::Counted => counted_calls(set, starts),
        Group::GrowthInPlace => growth_in_place(set, starts),
        Group::JoinsInPlace => joins_in_place(starts),
        _ => Ok(holds_without_fault(alloc, set, starts, group)),
    }
}

// The groups in which no call returns an error.
fn holds_without_fault(
    alloc: Global,
    set: &mut FixedBitSet,
    starts: &Starts,
    group: Group,
) -> bool {
    match group {
        Group::Looks => looks(alloc, set),
        Group::Positions => positions(set),
        Group::Unchecked => unchecked(set),
        Group::RangesAsked => ranges_asked(set),
        Group::RangesChanged => ranges_changed(set),
        Group::RangesCounted => ranges_counted(set),
        Group::RangesInclusive => ranges_inclusive(set),
        Group::Counts => counts(&starts.short, &starts.long),
        Group::Order => order(&starts.short, &starts.long),
        Group::Json => values(&starts.json),
        _ => false,
    }
}

// A value in the form, and one that is not.
fn values(json: &Value) -> bool {
    FixedBitSet::check_value(json) == Ok(10)
        && FixedBitSet::check_value(&Value::Null) == Err(JsonFault::Shape)
}

fn looks(alloc: Global, set: &mut FixedBitSet) -> bool {
    makes_empty(alloc) && sees_all(set) && replaces(set)
}

fn makes_empty(alloc: Global) -> bool {
    let (empty, default) = (FixedBitSet::new(alloc), FixedBitSet::default(alloc));
    empty.is_empty() && default.is_full()
}

// Writes the first word of the set, and then clears it.
fn replaces(set: &mut FixedBitSet) -> bool {
    if set.as_slice().is_empty() {
        return false;
    }
    set.set_block(0, 14);
    let is_set = is_value(set, 10, &[1, 2, 3]);
    let has_popped = set.pop_first() == Some(1) && set.pop_last() == Some(3);
    let is_left = is_value(set, 10, &[2]);
    set.clear();
    is_set && has_popped && is_left && is_value(set, 10, &[])
}

fn sees_all(set: &FixedBitSet) -> bool {
    sees(set) && sees_nearest(set) && sees_walks(set) && sees_gaps(set)
}

fn sees(set: &FixedBitSet) -> bool {
    set.len() == 10
        && !set.is_empty()
        && !set.is_clear()
        && !set.is_full()
        && set.minimum() == Some(3)
        && set.maximum() == Some(3)
}

fn sees_nearest(set: &FixedBitSet) -> bool {
    set.next_one(0) == Some(3)
        && set.next_zero(3) == Some(4)
        && set.next_common(set, 1) == Some(3)
        && set.nth_one(0) == Some(3)
        && set.nth_one(1) == None
        && set.previous_one(10) == Some(3)
        && set.previous_zero(4) == Some(2)
}

fn sees_walks(set: &FixedBitSet) -> bool {
    set.len() == 10
        && set.ones_in(3..).next() == Some(3)
        && set.zeroes_in(..4).next_back() == Some(2)
        && set.runs().next() == Some((3, 4))
        && set.zero_runs().next_back() == Some((4, 10))
}

fn sees_gaps(set: &FixedBitSet) -> bool {
    set.len() == 10
        && set.first_gap(5, 0) == Some(4)
        && set.first_aligned_gap(5, 5, 1..) == Some(5)
        && set.last_gap(3, 9) == Some(6)
        && set.as_slice() == [8].as_slice()
}

// A call on one position. `CopyBit` copies what the position before it is.
#[derive(Clone, Copy)]
enum Placing {
    Insert,
    Remove,
    Toggle,
    Put,
    Set,
    CopyBit,
    InsertUnchecked,
    RemoveUnchecked,
    ToggleUnchecked,
    PutUnchecked,
    SetUnchecked,
    CopyBitUnchecked,
}

const PLACINGS: &[(usize, Placing); 6] = &[
    (4, Placing::Insert),
    (3, Placing::Remove),
    (5, Placing::Toggle),
    (6, Placing::Put),
    (7, Placing::Set),
    (8, Placing::CopyBit),
];

const UNCHECKED: &[(usize, Placing); 6] = &[
    (4, Placing::InsertUnchecked),
    (3, Placing::RemoveUnchecked),
    (5, Placing::ToggleUnchecked),
    (6, Placing::PutUnchecked),
    (7, Placing::SetUnchecked),
    (8, Placing::CopyBitUnchecked),
];

// Makes the call, where the position is below the length. `put` returns that it was not set before.
fn place(set: &mut FixedBitSet, position: usize, placing: Placing) -> bool {
    if position == 0 || position >= set.len() {
        return false;
    }
    match placing {
        Placing::Insert => set.insert(position),
        Placing::Remove => set.remove(position),
        Placing::Toggle => set.toggle(position),
        Placing::Put => return !set.put(position),
        Placing::Set => set.set(position, true),
        Placing::CopyBit => set.copy_bit(position - 1, position),
        Placing::InsertUnchecked => set.insert_unchecked(position),
        Placing::RemoveUnchecked => set.remove_unchecked(position),
        Placing::ToggleUnchecked => set.toggle_unchecked(position),
        Placing::PutUnchecked => return !set.put_unchecked(position),
        Placing::SetUnchecked => set.set_unchecked(position, true),
        Placing::CopyBitUnchecked => set.copy_bit_unchecked(position - 1, position),
    }
    true
}

fn place_all(set: &mut FixedBitSet, placings: &[(usize, Placing)]) -> bool {
    for (position, placing) in placings {
        if !place(set, *position, *placing) {
            return false;
        }
    }
    is_value(set, 10, &[4, 5, 6, 7, 8])
}

fn positions(set: &mut FixedBitSet) -> bool {
    place_all(set, PLACINGS) && set.contains(4) && set[5] && !set[10]
}

fn unchecked(set: &mut FixedBitSet) -> bool {
    place_all(set, UNCHECKED) && set.len() > 8 && set.contains_unchecked(8)
}

fn ranges_asked(set: &FixedBitSet) -> bool {
    if !set.range_is_valid(&(2..9)) || set.range_is_valid(&(2..11)) {
        return false;
    }
    set.count_ones(2..9) == 1
        && set.count_zeroes(2..9) == 6
        && !set.contains_all_in_range(2..9)
        && set.contains_any_in_range(2..9)
        && (2..9).start() == Some(2)
        && (2..9).end() == Some(9)
}

// A change of the range, where it is valid.
#[derive(Clone, Copy)]
enum Changing {
    Insert,
    Remove,
    Toggle,
    Set,
}

fn change<R: IndexRange<usize> + Drop>(set: &mut FixedBitSet, range: R, changing: Changing) {
    if !set.range_is_valid(&range) {
        return;
    }
    match changing {
        Changing::Insert => set.insert_range(range),
        Changing::Remove => set.remove_range(range),
        Changing::Toggle => set.toggle_range(range),
        Changing::Set => set.set_range(range, true),
    }
}

fn change_counted<R: IndexRange<usize> + Drop>(
    set: &mut FixedBitSet,
    range: R,
    changing: Changing,
) {
    if !set.range_is_valid(&range) {
        return;
    }
    let steps = &mut Steps::new();
    match changing {
        Changing::Insert | Changing::Set => counted::insert_range(set, range, steps),
        Changing::Remove => counted::remove_range(set, range, steps),
        Changing::Toggle => counted::toggle_range(set, range, steps),
    }
}

fn ranges_changed(set: &mut FixedBitSet) -> bool {
    change(set, .., Changing::Insert);
    change(set, 2.., Changing::Remove);
    change(set, ..3, Changing::Toggle);
    change(set, 8..10, Changing::Set);
    is_value(set, 10, &[2, 8, 9])
}

fn ranges_counted(set: &mut FixedBitSet) -> bool {
    change_counted(set, .., Changing::Insert);
    change_counted(set, 2.., Changing::Remove);
    change_counted(set, ..3, Changing::Toggle);
    is_value(set, 10, &[2]) && whole_counted(set)
}

fn whole_counted(set: &FixedBitSet) -> bool {
    let steps = &mut Steps::new();
    counted::count_ones(set, .., steps) == 1
        && counted::count_zeroes(set, .., steps) == 9
        && !counted::contains_all_in_range(set, .., steps)
        && counted::contains_any_in_range(set, .., steps)
}

// The calls on ranges that name their last position.
fn ranges_inclusive(set: &mut FixedBitSet) -> bool {
    change(set, 2..=4, Changing::Insert);
    change(set, ..=2, Changing::Toggle);
    change(set, 3..=3, Changing::Remove);
    change(set, 8..=9, Changing::Set);
    change_counted(set, 8..=8, Changing::Toggle);
    is_value(set, 10, &[0, 1, 4, 9]) && inclusive_asked(set) && inclusive_counted(set)
}

fn inclusive_asked(set: &FixedBitSet) -> bool {
    if !set.range_is_valid(&(1..=4)) || set.range_is_valid(&(1..=10)) {
        return false;
    }
    set.count_ones(1..=4) == 2
        && set.count_zeroes(1..=4) == 2
        && !set.contains_all_in_range(1..=4)
        && set.contains_any_in_range(1..=4)
        && IndexRange::start(&(1..=4)) == Some(1)
        && IndexRange::end(&(1..=4)) == Some(5)
        && IndexRange::end(&(..=4)) == Some(5)
}

fn inclusive_counted(set: &FixedBitSet) -> bool {
    if !set.range_is_valid(&(1..=4)) {
        return false;
    }
    let steps = &mut Steps::new();
    counted::count_ones(set, 1..=4, steps) == 2
        && counted::count_zeroes(set, 1..=4, steps) == 2
        && !counted::contains_all_in_range(set, 1..=4, steps)
        && counted::contains_any_in_range(set, 1..=4, steps)
}

// The calls on two sets that leave the length of the first.
fn lesser(set: &mut FixedBitSet, starts: &mut Starts) -> Result<bool, Fault> {
    *set &= starts.take_short()?;
    make_changes(set, &starts.short, &starts.long, LESSER)
}

// The calls that move positions, and those on parts of a set.
fn shifts(set: &mut FixedBitSet, starts: &Starts) -> Result<bool, Fault> {
    let is_moved = make_changes(set, &starts.short, &starts.long, SHIFTS)?;
    Ok(is_moved && numbers(set))
}

// A part as a number, and lists of positions.
#[tactic(auto, using(fixedbitset::specs::PartsFacts::facts, fixedbitset::specs::AddFacts::additions))]
fn numbers(set: &mut FixedBitSet) -> bool {
    if set.len() != 7 {
        return false;
    }
    let number = set.load(3, 4);
    set.store(0, 3, 5);
    set.insert_all(&[6, 1]);
    set.remove_all(&[5, 0]);
    number == 4 && is_value(set, 7, &[1, 2, 6])
}

fn counts(short: &FixedBitSet, long: &FixedBitSet) -> bool {
    short.union_count(long) == 2
        && short.intersection_count(long) == 0
        && short.difference_count(long) == 1
        && short.symmetric_difference_count(long) == 2
        && short.is_disjoint(long)
        && !short.is_subset(long)
        && !short.is_superset(long)
        && short.first_lacking(long) == Some(LONG - 1)
        && is_short(short)
        && is_long(long)
}

fn counted_calls(set: &mut FixedBitSet, starts: &mut Starts) -> Result<bool, Fault> {
    let mut wide = starts.take_long()?;
    calls_counted(set, &mut wide, &starts.short, &starts.long)
}

// The set is a short one, and the wide one a long one.
fn calls_counted(
    set: &mut FixedBitSet,
    wide: &mut FixedBitSet,
    short: &FixedBitSet,
    long: &FixedBitSet,
) -> Result<bool, Fault> {
    if !are_counted(short, long) || !are_found(short, long) {
        return Ok(false);
    }
    let is_lessened = make_changes(set, short, long, COUNTED_LESSER)?;
    Ok(is_lessened && make_changes(wide, short, long, COUNTED_JOINS)?)
}

fn are_counted(short: &FixedBitSet, long: &FixedBitSet) -> bool {
    let steps = &mut Steps::new();
    counted::union_count(short, long, steps) == 2
        && counted::intersection_count(short, long, steps) == 0
        && counted::difference_count(short, long, steps) == 1
        && counted::symmetric_difference_count(short, long, steps) == 2
        && counted::is_disjoint(short, long, steps)
        && !counted::is_subset(short, long, steps)
}

fn are_found(short: &FixedBitSet, long: &FixedBitSet) -> bool {
    are_told(short.as_bits(), long.as_bits())
        && are_compared(short, long)
        && ones_are_found(short.as_bits(), short)
        && others_are_found(short.as_bits(), short)
}

// The bits are those of a short set and of a long one.
fn are_told(bits: Bits<'_>, others: Bits<'_>) -> bool {
    let steps = &mut Steps::new();
    bits.first_lacking(others, steps) == Some(LONG - 1)
        && !bits.is_equal(others, steps)
        && !bits.is_full(steps)
        && !bits.is_clear(steps)
}

fn are_compared(short: &FixedBitSet, long: &FixedBitSet) -> bool {
    let (bits, others, steps) = (short.as_bits(), long.as_bits(), &mut Steps::new());
    bits.minimum(steps) == short.minimum()
        && others.maximum(steps) == long.maximum()
        && bits.compare(others, steps) == short.cmp(long)
}

fn ones_are_found(bits: Bits<'_>, set: &FixedBitSet) -> bool {
    let steps = &mut Steps::new();
    bits.next_one(0, steps) == set.next_one(0)
        && bits.next_common(bits, 0, steps) == set.next_common(set, 0)
        && bits.nth_one(0, steps) == set.nth_one(0)
}

fn others_are_found(bits: Bits<'_>, set: &FixedBitSet) -> bool {
    let steps = &mut Steps::new();
    bits.next_zero(0, steps) == set.next_zero(0)
        && bits.previous_one(10, steps) == set.previous_one(10)
        && bits.previous_zero(10, steps) == set.previous_zero(10)
}

fn hash_of(set: &FixedBitSet) -> u64 {
    let mut hasher = DefaultHasher::new();
    set.hash(&mut hasher);
    hasher.finish()
}

fn order(short: &FixedBitSet, long: &FixedBitSet) -> bool {
    short == short
        && short != long
        && short.cmp(long) == Ordering::Less
        && long.partial_cmp(short) == Some(Ordering::Greater)
        && hash_of(long) == hash_of(long)
        && hash_of(long) != hash_of(short)
}

// What needs no more words than the set has. An item that is no position stops
// `extend` without a request.
fn growth_in_place(set: &mut FixedBitSet, starts: &mut Starts) -> Result<bool, Fault> {
    let has_grown = grows_in_place(set)?;
    Ok(stops(&mut starts.take_short()?) && has_grown)
}

fn grows_in_place(set: &mut FixedBitSet) -> Result<bool, Fault> {
    set.grow(64)?;
    set.grow_and_insert(63)?;
    let was_set = set.grow_and_put(63)?;
    set.extend([5, 63, 6])?;
    Ok(was_set && is_value(set, 64, &[3, 5, 6, 63]))
}

fn stops(set: &mut FixedBitSet) -> bool {
    let mut items = Asked {
        items: &[4, usize::MAX, LONG],
        count: 0,
    };
    let fault = set.extend(&mut items);
    let has_stopped = matches!(fault, Err(ExtendFault::Position)) && items.count == 2;
    has_stopped && is_value(set, 10, &[3, 4])
}

// A long set joined with a short one.
fn joins_in_place(starts: &mut Starts) -> Result<bool, Fault> {
    let mut set = starts.take_long()?;
    make_changes(&mut set, &starts.short, &starts.long, JOINS)
}
