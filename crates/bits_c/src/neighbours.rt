//! The positions of a set next to a given one, and the k-th of all. Any number may be given.

ghost use Rattle.std.specs.Prelude.{◌≡◌, if◌then◌else◌, slice_get, unwrap_or};
ghost use Rattle.fixedbitset.specs.Bits.{asc};
ghost use Rattle.fixedbitset.specs.Neighbours as neighbours;
ghost use Rattle.fixedbitset.specs.Ranges.{is_valid};
ghost use Rattle.fixedbitset.specs.Runs as stretches;
ghost use Rattle.fixedbitset.specs.TwoSets.{intersection};
ghost use Rattle.fixedbitset.specs.Views.{value};

use crate::NONE;
use crate::ranges::bits_range_is_valid;
use bitlanes::Steps;
use fixedbitset::views::Bits;

// made by front/calls
/// Returns the least position at or past `from` that is set, or `NONE`. Any number may be passed.
#[unsafe(no_mangle)]
pub extern "C" fn bits_next_one(set: &Bits<'_>, from: usize) -> usize
    ensures { result ≡ unwrap_or (neighbours.next_one (value set.now) from) NONE }
{
    set.next_one(from, &mut Steps::new()).unwrap_or(NONE)
}

/// Returns the least position at or past `from` and below the length that is not set, or `NONE`.
#[unsafe(no_mangle)]
pub extern "C" fn bits_next_zero(set: &Bits<'_>, from: usize) -> usize
    ensures { result ≡ unwrap_or (neighbours.next_zero (value set.now) from) NONE }
{
    set.next_zero(from, &mut Steps::new()).unwrap_or(NONE)
}

/// Returns the least position at or past `from` that is in both sets, or `NONE`. Any number may be
/// passed.
#[unsafe(no_mangle)]
pub extern "C" fn bits_next_common(set: &Bits<'_>, other: &Bits<'_>, from: usize) -> usize
    ensures { result ≡ unwrap_or
        (neighbours.next_one (intersection (value set.now) (value other.now)) from) NONE }
{
    set.next_common(*other, from, &mut Steps::new())
        .unwrap_or(NONE)
}

/// Returns the position of the set that has exactly `index` positions of the set below it (select),
/// or `NONE`; the first position has index 0. The call counts word by word; `bits_select` has a
/// directory.
#[unsafe(no_mangle)]
pub extern "C" fn bits_nth_one(set: &Bits<'_>, index: usize) -> usize
    ensures { result ≡ unwrap_or (slice_get (asc (value set.now)) index) NONE }
{
    set.nth_one(index, &mut Steps::new()).unwrap_or(NONE)
}

/// Returns the least number at or past `from` from which `count` consecutive positions are clear,
/// all below the length, or `NONE`; `NONE` too if `from` is past the length.
#[unsafe(no_mangle)]
pub extern "C" fn bits_first_gap(set: &Bits<'_>, count: usize, from: usize) -> usize
    ensures { result ≡ unwrap_or (stretches.first_gap (value set.now) count from) NONE }
{
    set.first_gap(count, from, &mut Steps::new())
        .unwrap_or(NONE)
}

/// Returns the least multiple of `align` in the range from which `count` consecutive positions are
/// clear, all in the range, or `NONE`; `NONE` too if the range is not valid. The only multiple of 0
/// is 0.
#[unsafe(no_mangle)]
pub extern "C" fn bits_first_aligned_gap(
    set: &Bits<'_>,
    count: usize,
    align: usize,
    start: usize,
    end: usize,
) -> usize
    ensures { result ≡ (if is_valid (value set.now) start end
        then unwrap_or (stretches.first_aligned_gap count align (value set.now) start end) NONE
        else NONE) }
{
    if bits_range_is_valid(set, start, end) {
        set.first_aligned_gap(count, align, start, end, &mut Steps::new())
            .unwrap_or(NONE)
    } else {
        NONE
    }
}

/// Returns the greatest number from which `count` consecutive positions are clear, all below
/// `below` and below the length, or `NONE`.
#[unsafe(no_mangle)]
pub extern "C" fn bits_last_gap(set: &Bits<'_>, count: usize, below: usize) -> usize
    ensures { result ≡ unwrap_or (stretches.last_gap (value set.now) count below) NONE }
{
    set.last_gap(count, below, &mut Steps::new())
        .unwrap_or(NONE)
}

/// Returns the greatest position below `below` that is set, or `NONE`.
#[unsafe(no_mangle)]
pub extern "C" fn bits_previous_one(set: &Bits<'_>, below: usize) -> usize
    ensures { result ≡ unwrap_or (neighbours.previous_one (value set.now) below) NONE }
{
    set.previous_one(below, &mut Steps::new()).unwrap_or(NONE)
}

/// Returns the greatest position below `below` and below the length that is not set, or `NONE`.
#[unsafe(no_mangle)]
pub extern "C" fn bits_previous_zero(set: &Bits<'_>, below: usize) -> usize
    ensures { result ≡ unwrap_or (neighbours.previous_zero (value set.now) below) NONE }
{
    set.previous_zero(below, &mut Steps::new()).unwrap_or(NONE)
}
// end of what front/calls makes
