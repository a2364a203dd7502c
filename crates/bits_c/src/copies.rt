//! Sets written over words that may hold anything: a copy, and two sets joined, of any two lengths.
//! Each word is written once. The words that are written may not be those of the other sets.

ghost use Rattle.std.specs.Prelude.{◌≡◌, ◌==◌, ◌&&◌, max, min, true, false, length};
ghost use Rattle.bits_c.specs.Sets.{written};
ghost use Rattle.fixedbitset.specs.Bits.{storage_words};
ghost use Rattle.fixedbitset.specs.Parts as parts;
ghost use Rattle.fixedbitset.specs.Stored.{IsClean};
ghost use Rattle.fixedbitset.specs.TwoSets as sets;
ghost use Rattle.fixedbitset.specs.Views.{value};

use crate::bits_words;
use crate::structs::Room;
use fixedbitset::views::Bits;

/// Copies to `to` the positions of the set that are below the length of `to`, which may be any
/// number, and returns `true`; returns `false` and changes nothing if `to` does not have
/// `bits_words` of its length.
#[unsafe(no_mangle)]
pub extern "C" fn bits_copy(to: &mut Room<'_>, set: &Bits<'_>) -> bool
    ensures answer { result ≡ (length to.old.words.now == storage_words to.old.length) }
    ensures clean { result ≡ true → IsClean to.new.length to.new.words.now }
    ensures value { result ≡ true
        → written to.new ≡ parts.resize (value set.now) to.old.length false }
    ensures stays { result ≡ false → to.new.words.now ≡ to.old.words.now }
    ensures length { to.new.length ≡ to.old.length }
    ensures same { to.new.words.ghost_name ≡ to.old.words.ghost_name }
{
    if to.words.len() == bits_words(to.length) {
        set.copy_to(to.words, to.length);
        true
    } else {
        false
    }
}

// made by front/calls
/// Writes the positions in either set (union) to `to`, and returns `true`. Returns `false` and
/// changes nothing if the length of `to` is not the greater of the two lengths, or its words are
/// not `bits_words` of that length.
#[unsafe(no_mangle)]
pub extern "C" fn bits_union_of(to: &mut Room<'_>, set: &Bits<'_>, other: &Bits<'_>) -> bool
    ensures answer { result ≡ (length to.old.words.now == storage_words to.old.length
        && to.old.length == max set.now.length other.now.length) }
    ensures clean { result ≡ true → IsClean to.new.length to.new.words.now }
    ensures value { result ≡ true
        → written to.new ≡ sets.union (value set.now) (value other.now) }
    ensures stays { result ≡ false → to.new.words.now ≡ to.old.words.now }
    ensures length { to.new.length ≡ to.old.length }
    ensures same { to.new.words.ghost_name ≡ to.old.words.ghost_name }
{
    if to.words.len() == bits_words(to.length) && to.length == set.length.max(other.length) {
        set.union_to(*other, to.words);
        true
    } else {
        false
    }
}

/// Writes the positions in exactly one of the sets (xor) to `to`, and returns `true`. Returns
/// `false` and changes nothing if the length of `to` is not the greater of the two lengths, or its
/// words are not `bits_words` of that length.
#[unsafe(no_mangle)]
pub extern "C" fn bits_symmetric_difference_of(
    to: &mut Room<'_>,
    set: &Bits<'_>,
    other: &Bits<'_>,
) -> bool
    ensures answer { result ≡ (length to.old.words.now == storage_words to.old.length
        && to.old.length == max set.now.length other.now.length) }
    ensures clean { result ≡ true → IsClean to.new.length to.new.words.now }
    ensures value { result ≡ true
        → written to.new ≡ sets.symmetric_difference (value set.now) (value other.now) }
    ensures stays { result ≡ false → to.new.words.now ≡ to.old.words.now }
    ensures length { to.new.length ≡ to.old.length }
    ensures same { to.new.words.ghost_name ≡ to.old.words.ghost_name }
{
    if to.words.len() == bits_words(to.length) && to.length == set.length.max(other.length) {
        set.symmetric_difference_to(*other, to.words);
        true
    } else {
        false
    }
}

/// Writes the positions in both sets (intersection) to `to`, and returns `true`. Returns `false`
/// and changes nothing if the length of `to` is not the smaller of the two lengths, or its words
/// are not `bits_words` of that length.
#[unsafe(no_mangle)]
pub extern "C" fn bits_intersection_of(to: &mut Room<'_>, set: &Bits<'_>, other: &Bits<'_>) -> bool
    ensures answer { result ≡ (length to.old.words.now == storage_words to.old.length
        && to.old.length == min set.now.length other.now.length) }
    ensures clean { result ≡ true → IsClean to.new.length to.new.words.now }
    ensures value { result ≡ true
        → written to.new ≡ sets.bitand (value set.now) (value other.now) }
    ensures stays { result ≡ false → to.new.words.now ≡ to.old.words.now }
    ensures length { to.new.length ≡ to.old.length }
    ensures same { to.new.words.ghost_name ≡ to.old.words.ghost_name }
{
    if to.words.len() == bits_words(to.length) && to.length == set.length.min(other.length) {
        set.intersection_to(*other, to.words);
        true
    } else {
        false
    }
}

/// Writes the positions of the first set that the second lacks (difference) to `to`, and returns
/// `true`. Returns `false` and changes nothing if the length of `to` is not the length of the
/// first, or its words are not `bits_words` of that length.
#[unsafe(no_mangle)]
pub extern "C" fn bits_difference_of(to: &mut Room<'_>, set: &Bits<'_>, other: &Bits<'_>) -> bool
    ensures answer { result ≡ (length to.old.words.now == storage_words to.old.length
        && to.old.length == set.now.length) }
    ensures clean { result ≡ true → IsClean to.new.length to.new.words.now }
    ensures value { result ≡ true
        → written to.new ≡ sets.difference (value set.now) (value other.now) }
    ensures stays { result ≡ false → to.new.words.now ≡ to.old.words.now }
    ensures length { to.new.length ≡ to.old.length }
    ensures same { to.new.words.ghost_name ≡ to.old.words.ghost_name }
{
    if to.words.len() == bits_words(to.length) && to.length == set.length {
        set.difference_to(*other, to.words);
        true
    } else {
        false
    }
}
// end of what front/calls makes
