//! Two whole sets, of any two lengths. The words of a set that is changed may not
//! be those of the other.

ghost use Rattle.std.specs.Prelude.{◌≡◌, nat_le, not, unwrap_or, if◌then◌else◌};
ghost use Rattle.bits_c.specs.Sets.{sign};
ghost use Rattle.fixedbitset.specs.Bits as model;
ghost use Rattle.fixedbitset.specs.Order as order;
ghost use Rattle.fixedbitset.specs.TwoSets as sets;
ghost use Rattle.fixedbitset.specs.Views.{value, held};

use crate::NONE;
use bitlanes::Steps;
use fixedbitset::views::{Bits, BitsMut};
use std::cmp::Ordering;

// made by front/calls
/// Adds the positions of the second set (union) and returns `true`; returns `false` and changes
/// nothing if the second set is longer than the first.
#[unsafe(no_mangle)]
pub extern "C" fn bits_union_with(set: &mut BitsMut<'_>, other: &Bits<'_>) -> bool
    ensures answer { result ≡ nat_le other.now.length set.old.length }
    ensures value { held set.new
        ≡ (if result then sets.union (held set.old) (value other.now) else held set.old) }
    ensures same { set.new.words.ghost_name ≡ set.old.words.ghost_name }
{
    if other.length <= set.length {
        set.union_with(*other, &mut Steps::new());
        true
    } else {
        false
    }
}

/// Leaves the positions that are in exactly one of the sets (xor) and returns `true`; returns
/// `false` and changes nothing if the second set is longer than the first.
#[unsafe(no_mangle)]
pub extern "C" fn bits_symmetric_difference_with(set: &mut BitsMut<'_>, other: &Bits<'_>) -> bool
    ensures answer { result ≡ nat_le other.now.length set.old.length }
    ensures value { held set.new ≡ (if result
        then sets.symmetric_difference (held set.old) (value other.now) else held set.old) }
    ensures same { set.new.words.ghost_name ≡ set.old.words.ghost_name }
{
    if other.length <= set.length {
        set.symmetric_difference_with(*other, &mut Steps::new());
        true
    } else {
        false
    }
}

/// Leaves the positions that are in both sets (intersection). The length of the first set stays.
#[unsafe(no_mangle)]
pub extern "C" fn bits_intersect_with(set: &mut BitsMut<'_>, other: &Bits<'_>)
    ensures value { held set.new ≡ sets.intersection (held set.old) (value other.now) }
    ensures same { set.new.words.ghost_name ≡ set.old.words.ghost_name }
{
    set.intersect_with(*other, &mut Steps::new());
}

/// Leaves the positions of the first set that the second lacks (difference). The length of the
/// first set stays.
#[unsafe(no_mangle)]
pub extern "C" fn bits_difference_with(set: &mut BitsMut<'_>, other: &Bits<'_>)
    ensures value { held set.new ≡ sets.difference (held set.old) (value other.now) }
    ensures same { set.new.words.ghost_name ≡ set.old.words.ghost_name }
{
    set.difference_with(*other, &mut Steps::new());
}

/// Adds the positions of the second set (union), writes to `changed` whether the first set changed,
/// and returns `true`. Returns `false`, changes nothing, and writes nothing to `changed`, if the
/// second set is longer than the first.
#[unsafe(no_mangle)]
pub extern "C" fn bits_union_with_change(
    set: &mut BitsMut<'_>,
    other: &Bits<'_>,
    changed: &mut bool,
) -> bool
    ensures answer { result ≡ nat_le other.now.length set.old.length }
    ensures value { held set.new
        ≡ (if result then sets.union (held set.old) (value other.now) else held set.old) }
    ensures changed { changed.new ≡ (if result
        then not (sets.is_subset (value other.now) (held set.old)) else changed.old) }
    ensures same { set.new.words.ghost_name ≡ set.old.words.ghost_name }
{
    if other.length <= set.length {
        *changed = set.union_with_change(*other, &mut Steps::new());
        true
    } else {
        false
    }
}

/// Leaves the positions that are in exactly one of the sets (xor), writes to `changed` whether the
/// first set changed, and returns `true`. Returns `false`, changes nothing, and writes nothing to
/// `changed`, if the second set is longer than the first.
#[unsafe(no_mangle)]
pub extern "C" fn bits_symmetric_difference_with_change(
    set: &mut BitsMut<'_>,
    other: &Bits<'_>,
    changed: &mut bool,
) -> bool
    ensures answer { result ≡ nat_le other.now.length set.old.length }
    ensures value { held set.new ≡ (if result
        then sets.symmetric_difference (held set.old) (value other.now) else held set.old) }
    ensures changed { changed.new ≡ (if result
        then not (model.is_clear (value other.now)) else changed.old) }
    ensures same { set.new.words.ghost_name ≡ set.old.words.ghost_name }
{
    if other.length <= set.length {
        *changed = set.symmetric_difference_with_change(*other, &mut Steps::new());
        true
    } else {
        false
    }
}

/// Like `bits_intersect_with`, and returns whether a position was removed.
#[unsafe(no_mangle)]
pub extern "C" fn bits_intersect_with_change(set: &mut BitsMut<'_>, other: &Bits<'_>) -> bool
    ensures value { held set.new ≡ sets.intersection (held set.old) (value other.now) }
    ensures changed { result ≡ not (sets.is_subset (held set.old) (value other.now)) }
    ensures same { set.new.words.ghost_name ≡ set.old.words.ghost_name }
{
    set.intersect_with_change(*other, &mut Steps::new())
}

/// Like `bits_difference_with`, and returns whether a position was removed.
#[unsafe(no_mangle)]
pub extern "C" fn bits_difference_with_change(set: &mut BitsMut<'_>, other: &Bits<'_>) -> bool
    ensures value { held set.new ≡ sets.difference (held set.old) (value other.now) }
    ensures changed { result ≡ not (sets.is_disjoint (held set.old) (value other.now)) }
    ensures same { set.new.words.ghost_name ≡ set.old.words.ghost_name }
{
    set.difference_with_change(*other, &mut Steps::new())
}

/// Adds the positions of `gens` that `kills` lacks, writes to `changed` whether the first set
/// changed, and returns `true`. Returns `false`, changes nothing, and writes nothing to `changed`,
/// if `gens` is longer than the first set.
#[unsafe(no_mangle)]
pub extern "C" fn bits_union_with_difference(
    set: &mut BitsMut<'_>,
    gens: &Bits<'_>,
    kills: &Bits<'_>,
    changed: &mut bool,
) -> bool
    ensures answer { result ≡ nat_le gens.now.length set.old.length }
    ensures value { held set.new ≡ (if result
        then sets.union (held set.old) (sets.difference (value gens.now) (value kills.now))
        else held set.old) }
    ensures changed { changed.new ≡ (if result then not (sets.is_subset
        (sets.difference (value gens.now) (value kills.now)) (held set.old)) else changed.old) }
    ensures same { set.new.words.ghost_name ≡ set.old.words.ghost_name }
{
    if gens.length <= set.length {
        *changed = set.union_with_difference(*gens, *kills, &mut Steps::new());
        true
    } else {
        false
    }
}

/// Returns how many positions are in either set.
#[unsafe(no_mangle)]
pub extern "C" fn bits_union_count(set: &Bits<'_>, other: &Bits<'_>) -> usize
    ensures { result ≡ sets.union_count (value set.now) (value other.now) }
{
    set.union_count(*other, &mut Steps::new())
}

/// Returns how many positions are in both sets.
#[unsafe(no_mangle)]
pub extern "C" fn bits_intersection_count(set: &Bits<'_>, other: &Bits<'_>) -> usize
    ensures { result ≡ sets.intersection_count (value set.now) (value other.now) }
{
    set.intersection_count(*other, &mut Steps::new())
}

/// Returns how many positions of the first set the second lacks.
#[unsafe(no_mangle)]
pub extern "C" fn bits_difference_count(set: &Bits<'_>, other: &Bits<'_>) -> usize
    ensures { result ≡ sets.difference_count (value set.now) (value other.now) }
{
    set.difference_count(*other, &mut Steps::new())
}

/// Returns how many positions are in exactly one of the sets.
#[unsafe(no_mangle)]
pub extern "C" fn bits_symmetric_difference_count(set: &Bits<'_>, other: &Bits<'_>) -> usize
    ensures { result ≡ sets.symmetric_difference_count (value set.now) (value other.now) }
{
    set.symmetric_difference_count(*other, &mut Steps::new())
}

/// Returns whether no position is in both sets.
#[unsafe(no_mangle)]
pub extern "C" fn bits_is_disjoint(set: &Bits<'_>, other: &Bits<'_>) -> bool
    ensures { result ≡ sets.is_disjoint (value set.now) (value other.now) }
{
    set.is_disjoint(*other, &mut Steps::new())
}

/// Returns whether the first set is a subset of the second: the second has each position of the
/// first. The lengths do not matter.
#[unsafe(no_mangle)]
pub extern "C" fn bits_is_subset(set: &Bits<'_>, other: &Bits<'_>) -> bool
    ensures { result ≡ sets.is_subset (value set.now) (value other.now) }
{
    set.is_subset(*other, &mut Steps::new())
}

/// Returns the least position of the second set that the first lacks, or `NONE`.
#[unsafe(no_mangle)]
pub extern "C" fn bits_first_lacking(set: &Bits<'_>, other: &Bits<'_>) -> usize
    ensures { result ≡ unwrap_or
        (model.minimum (sets.difference (value other.now) (value set.now))) NONE }
{
    set.first_lacking(*other, &mut Steps::new()).unwrap_or(NONE)
}

/// Returns whether the lengths and the positions are equal.
#[unsafe(no_mangle)]
pub extern "C" fn bits_equal(set: &Bits<'_>, other: &Bits<'_>) -> bool
    ensures { result ≡ order.equal (value set.now) (value other.now) }
{
    set.is_equal(*other, &mut Steps::new())
}
// end of what front/calls makes

/// Returns -1 if the first set comes before the second, 0 if they are equal, and 1 if the first
/// comes after the second. The order is by length, and then by the words from the first word on.
#[unsafe(no_mangle)]
pub extern "C" fn bits_compare(set: &Bits<'_>, other: &Bits<'_>) -> isize
    ensures { result ≡ sign (order.compare (value set.now) (value other.now)) }
{
    match set.compare(*other, &mut Steps::new()) {
        Ordering::Less => -1,
        Ordering::Equal => 0,
        Ordering::Greater => 1,
    }
}
