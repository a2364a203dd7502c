//! Ranges of positions, from `start` up to and without `end`. A range is valid where its start is
//! not past its end, and its end not past the length.

ghost use Rattle.std.specs.Prelude.{◌≡◌, ◌&&◌, if◌then◌else◌};
ghost use Rattle.fixedbitset.specs.Ranges as model;
ghost use Rattle.fixedbitset.specs.Ranges.{is_valid};
ghost use Rattle.fixedbitset.specs.Views.{value, held};

use bitlanes::Steps;
use fixedbitset::views::{Bits, BitsMut};

// made by front/calls
/// Returns whether the range is valid: `start <= end`, and `end <= length`.
#[unsafe(no_mangle)]
pub extern "C" fn bits_range_is_valid(set: &Bits<'_>, start: usize, end: usize) -> bool
    ensures { result ≡ is_valid (value set.now) start end }
{
    set.range_is_valid(start, end)
}

/// Sets each position of the range and returns `true`; returns `false` and changes nothing if the
/// range is not valid.
#[unsafe(no_mangle)]
pub extern "C" fn bits_insert_range(set: &mut BitsMut<'_>, start: usize, end: usize) -> bool
    ensures answer { result ≡ is_valid (held set.old) start end }
    ensures value { held set.new
        ≡ (if result then model.insert_range (held set.old) start end else held set.old) }
    ensures same { set.new.words.ghost_name ≡ set.old.words.ghost_name }
{
    if set.as_bits().range_is_valid(start, end) {
        set.insert_range(start, end, &mut Steps::new());
        true
    } else {
        false
    }
}

/// Clears each position of the range and returns `true`; returns `false` and changes nothing if the
/// range is not valid.
#[unsafe(no_mangle)]
pub extern "C" fn bits_remove_range(set: &mut BitsMut<'_>, start: usize, end: usize) -> bool
    ensures answer { result ≡ is_valid (held set.old) start end }
    ensures value { held set.new
        ≡ (if result then model.remove_range (held set.old) start end else held set.old) }
    ensures same { set.new.words.ghost_name ≡ set.old.words.ghost_name }
{
    if set.as_bits().range_is_valid(start, end) {
        set.remove_range(start, end, &mut Steps::new());
        true
    } else {
        false
    }
}

/// Flips each position of the range and returns `true`; returns `false` and changes nothing if the
/// range is not valid.
#[unsafe(no_mangle)]
pub extern "C" fn bits_toggle_range(set: &mut BitsMut<'_>, start: usize, end: usize) -> bool
    ensures answer { result ≡ is_valid (held set.old) start end }
    ensures value { held set.new
        ≡ (if result then model.toggle_range (held set.old) start end else held set.old) }
    ensures same { set.new.words.ghost_name ≡ set.old.words.ghost_name }
{
    if set.as_bits().range_is_valid(start, end) {
        set.toggle_range(start, end, &mut Steps::new());
        true
    } else {
        false
    }
}

/// Returns how many positions of the range are set (the population count, popcount); 0 if the range
/// is not valid.
#[unsafe(no_mangle)]
pub extern "C" fn bits_count_ones(set: &Bits<'_>, start: usize, end: usize) -> usize
    ensures { result ≡ (if is_valid (value set.now) start end
        then model.count_ones (value set.now) start end else 0) }
{
    if bits_range_is_valid(set, start, end) {
        set.count_ones(start, end, &mut Steps::new())
    } else {
        0
    }
}

/// Returns how many positions of the range are not set; 0 if the range is not valid.
#[unsafe(no_mangle)]
pub extern "C" fn bits_count_zeroes(set: &Bits<'_>, start: usize, end: usize) -> usize
    ensures { result ≡ (if is_valid (value set.now) start end
        then model.count_zeroes (value set.now) start end else 0) }
{
    if bits_range_is_valid(set, start, end) {
        set.count_zeroes(start, end, &mut Steps::new())
    } else {
        0
    }
}

/// Returns whether each position of the range is set; `false` if the range is not valid.
#[unsafe(no_mangle)]
pub extern "C" fn bits_contains_all_in_range(set: &Bits<'_>, start: usize, end: usize) -> bool
    ensures { result
        ≡ (is_valid (value set.now) start end && model.contains_all (value set.now) start end) }
{
    bits_range_is_valid(set, start, end) && set.contains_all_in_range(start, end, &mut Steps::new())
}

/// Returns whether some position of the range is set; `false` if the range is not valid.
#[unsafe(no_mangle)]
pub extern "C" fn bits_contains_any_in_range(set: &Bits<'_>, start: usize, end: usize) -> bool
    ensures { result
        ≡ (is_valid (value set.now) start end && model.contains_any (value set.now) start end) }
{
    bits_range_is_valid(set, start, end) && set.contains_any_in_range(start, end, &mut Steps::new())
}
// end of what front/calls makes
