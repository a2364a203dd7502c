//! Positions moved up or down by any number, sets joined with moved ones, parts, and parts as
//! numbers. The words of a set that is changed may not be those of the other.

ghost use Rattle.std.specs.Prelude.{◌≡◌, ◌+◌, ◌-◌, ◌&&◌, ◌==◌, nat_le, if◌then◌else◌};
ghost use Rattle.fixedbitset.specs.Bits.{number_at};
ghost use Rattle.fixedbitset.specs.Parts as parts;
ghost use Rattle.fixedbitset.specs.Views.{value, held};

use bitlanes::word::BITS;
use bitlanes::{Block, Steps};
use fixedbitset::views::{Bits, BitsMut};

// made by front/calls
/// Shifts each position up by `by`; positions that come to or past the length are dropped.
#[unsafe(no_mangle)]
pub extern "C" fn bits_shift_up(set: &mut BitsMut<'_>, by: usize)
    ensures value { held set.new ≡ parts.shift_up (held set.old) by }
    ensures same { set.new.words.ghost_name ≡ set.old.words.ghost_name }
{
    set.shift_up(by, &mut Steps::new());
}

/// Shifts each position down by `by`; positions below `by` are dropped.
#[unsafe(no_mangle)]
pub extern "C" fn bits_shift_down(set: &mut BitsMut<'_>, by: usize)
    ensures value { held set.new ≡ parts.shift_down (held set.old) by }
    ensures same { set.new.words.ghost_name ≡ set.old.words.ghost_name }
{
    set.shift_down(by, &mut Steps::new());
}

/// Adds the positions of the second set, shifted up by `by`; those that come to or past the length
/// are dropped.
#[unsafe(no_mangle)]
pub extern "C" fn bits_union_with_shifted(set: &mut BitsMut<'_>, other: &Bits<'_>, by: usize)
    ensures value { held set.new ≡ parts.union_with_shifted (held set.old) (value other.now) by }
    ensures same { set.new.words.ghost_name ≡ set.old.words.ghost_name }
{
    set.union_with_shifted(*other, by, &mut Steps::new());
}

/// Adds the positions of the set itself, shifted up by `by`; those that come to or past the length
/// are dropped.
#[unsafe(no_mangle)]
pub extern "C" fn bits_union_with_own_shift(set: &mut BitsMut<'_>, by: usize)
    ensures value { held set.new ≡ parts.union_with_shifted (held set.old) (held set.old) by }
    ensures same { set.new.words.ghost_name ≡ set.old.words.ghost_name }
{
    set.union_with_own_shift(by, &mut Steps::new());
}
// end of what front/calls makes

/// Copies a slice: `part` gets the positions of the second set from `start` up to but not including
/// `end`, each less `start`. Returns `true` if the range is valid and the length of `part` is `end
/// - start`; else returns `false` and changes nothing.
#[unsafe(no_mangle)]
pub extern "C" fn bits_slice(
    part: &mut BitsMut<'_>,
    set: &Bits<'_>,
    start: usize,
    end: usize,
) -> bool
    ensures answer { result ≡ (nat_le start end && nat_le end set.now.length
        && part.old.length == end - start) }
    ensures value { held part.new
        ≡ (if result then parts.slice (value set.now) start end else held part.old) }
    ensures same { part.new.words.ghost_name ≡ part.old.words.ghost_name }
{
    if start <= end && end <= set.length && part.length == end - start {
        set.slice_to(start, end, part.words, &mut Steps::new());
        true
    } else {
        false
    }
}

// made by front/calls
/// Copies the range from `start` up to but not including `end` of the second set over the positions
/// of the first set from `at` on; all other positions stay. Returns `true` if the range is valid in
/// the second set, and its copy, from `at` on, ends within the first; else returns `false` and
/// changes nothing.
#[unsafe(no_mangle)]
pub extern "C" fn bits_copy_range(
    set: &mut BitsMut<'_>,
    other: &Bits<'_>,
    start: usize,
    end: usize,
    at: usize,
) -> bool
    ensures answer { result ≡ (nat_le start end && nat_le end other.now.length
        && nat_le (at + (end - start)) set.old.length) }
    ensures value { held set.new ≡ (if result
        then parts.copy_range (held set.old) (value other.now) start end at
        else held set.old) }
    ensures same { set.new.words.ghost_name ≡ set.old.words.ghost_name }
{
    if start > end || end > other.length {
        return false;
    }
    if at > set.length || end - start > set.length - at {
        return false;
    }
    set.copy_range(*other, start, end, at, &mut Steps::new());
    true
}

/// Writes the `width` positions from `start` on to `number`: bit `i` of the number is position
/// `start + i`. Returns `true` if `width` is at most 64 and the positions are below the length;
/// else returns `false` and writes nothing.
#[unsafe(no_mangle)]
pub extern "C" fn bits_load(set: &Bits<'_>, start: usize, width: usize, number: &mut Block) -> bool
    ensures answer { result ≡ (nat_le width 64 && nat_le (start + width) set.now.length) }
    ensures value { number.new
        ≡ (if result then number_at (value set.now) start width else number.old) }
{
    if is_part(set.length, start, width) {
        *number = set.load(start, width);
        true
    } else {
        false
    }
}

/// Writes the lowest `width` bits of the number to the positions from `start` on: position `start +
/// i` becomes bit `i` of the number. Returns `true` if `width` is at most 64 and the positions are
/// below the length; else returns `false` and changes nothing.
#[unsafe(no_mangle)]
pub extern "C" fn bits_store(
    set: &mut BitsMut<'_>,
    start: usize,
    width: usize,
    number: Block,
) -> bool
    ensures answer { result ≡ (nat_le width 64 && nat_le (start + width) set.old.length) }
    ensures value { held set.new
        ≡ (if result then parts.store (held set.old) start width number else held set.old) }
    ensures same { set.new.words.ghost_name ≡ set.old.words.ghost_name }
{
    if is_part(set.length, start, width) {
        set.store(start, width, number);
        true
    } else {
        false
    }
}
// end of what front/calls makes

// Whether so many positions from `start` on are below the length, and fit a word.
#[inline(always)]
fn is_part(length: usize, start: usize, width: usize) -> bool
    ensures { result ≡ (nat_le width 64 && nat_le (start + width) length) }
{
    width <= BITS && start <= length && width <= length - start
}
