//! Lists of positions in one call: put into a set, taken out of it, or looked up in it.

ghost use Rattle.std.specs.Prelude.{◌≡◌, ◌==◌, ◌<◌, ◌↔◌, IsTrue, true};
ghost use Rattle.std.specs.Prelude.{false, map, length, if◌then◌else◌};
ghost use Rattle.std.specs.List.{All};
ghost use Rattle.fixedbitset.specs.Bits as model;
ghost use Rattle.fixedbitset.specs.Views.{value, held};

use fixedbitset::views::{Bits, BitsMut};

// made by front/calls
/// Sets each of `count` positions and returns `true`; returns `false` and changes nothing if a
/// position is out of range.
#[unsafe(no_mangle)]
pub extern "C" fn bits_insert_all(set: &mut BitsMut<'_>, positions: &[usize]) -> bool
    ensures answer { IsTrue result ↔ All (λ p. p < set.old.length) positions.now }
    ensures value { held set.new
        ≡ (if result then model.add_all (held set.old) positions.now else held set.old) }
    ensures same { set.new.words.ghost_name ≡ set.old.words.ghost_name }
{
    if all_below(positions, set.length) {
        set.insert_all(positions);
        true
    } else {
        false
    }
}

/// Clears each of `count` positions and returns `true`; returns `false` and changes nothing if a
/// position is out of range.
#[unsafe(no_mangle)]
pub extern "C" fn bits_remove_all(set: &mut BitsMut<'_>, positions: &[usize]) -> bool
    ensures answer { IsTrue result ↔ All (λ p. p < set.old.length) positions.now }
    ensures value { held set.new
        ≡ (if result then model.remove_all (held set.old) positions.now else held set.old) }
    ensures same { set.new.words.ghost_name ≡ set.old.words.ghost_name }
{
    if all_below(positions, set.length) {
        set.remove_all(positions);
        true
    } else {
        false
    }
}

/// Writes to `answers`, for each of `count` positions, whether the position is set (`false` if it
/// is out of range), and returns `true`; returns `false` and writes nothing if `places` is not
/// `count`.
#[unsafe(no_mangle)]
pub extern "C" fn bits_contains_each(
    set: &Bits<'_>,
    positions: &[usize],
    answers: &mut [bool],
) -> bool
    ensures answer { result ≡ (length positions.now == length answers.old) }
    ensures answers { answers.new ≡ (if result
        then map (model.contains (value set.now)) positions.now else answers.old) }
{
    if positions.len() != answers.len() {
        return false;
    }
    set.contains_each(positions, answers);
    true
}
// end of what front/calls makes

// Whether each position of the list is below the length.
#[inline(always)]
fn all_below(positions: &[usize], length: usize) -> bool
    ensures { IsTrue result ↔ All (λ p. p < length) positions.now }
{
    positions.iter().all(|position| *position < length)
}
