//! A bit set (bitmap) under C names: the words and the length stand in a struct of the caller's.
//!
//! A set is the struct `bits` of `front/c/bits.h`: here `fixedbitset::Bits` where it is read, and
//! `fixedbitset::BitsMut` where it is changed. The caller owns its words, and keeps them as the
//! ghost field of both says: as many whole lanes of four as the length needs, and no bit past the
//! length. Each call leaves them so, and `bits_settle` makes any words so. There is no other
//! precondition: a call tests the numbers that it is given, and its result says what came of it. No
//! call allocates or waits, and only the initialisation of an iterator keeps a pointer.
//!
//! Each call is that of the two types with its name, and looks at as many words. A clause sees a
//! set as its value, a length and the positions below it. C passes a slice as a pointer and a
//! number, which the docs name as `bits.h` does: `count`, `places`, `entries` or `room`.
//! `front/calls` makes the comments of `bits.h` of the docs.
#![tactic(auto)]

ghost use Rattle.std.specs.Prelude.{◌≡◌, ◌≢◌, ◌↔◌, IsTrue, ◌<◌, ◌≤◌, ◌-◌, ◌^◌, ◌&&◌};
ghost use Rattle.std.specs.Prelude.{◌==◌, nat_lt, nat_le, unwrap_or, if◌then◌else◌};
ghost use Rattle.std.specs.Prelude as prelude;
ghost use Rattle.bitlanes.specs.Word.{ClearsBit, IsLowestBit};
ghost use Rattle.fixedbitset.specs.Bits as model;
ghost use Rattle.fixedbitset.specs.Bits.{of_words};
ghost use Rattle.fixedbitset.specs.Stored.{IsClean};
ghost use Rattle.fixedbitset.specs.Views.{value, held};

pub mod bytes;
pub mod copies;
pub mod handfuls;
pub mod lists;
pub mod neighbours;
pub mod pairs;
pub mod ranges;
pub mod ranks;
pub mod rows;
pub mod runs;
pub mod shifts;
pub mod sieves;
pub mod structs;
pub mod walks;
pub mod whole;

use bitlanes::lanes::LANE;
use bitlanes::word::{BITS, take_lowest_bit};
use bitlanes::{Block, Steps};
use fixedbitset::views::{Bits, BitsMut};

/// What a call returns for 'no position'. No set has this position.
pub const NONE: usize = usize::MAX;

/// Returns how many words a set of this length has: whole lanes of four words.
#[unsafe(no_mangle)]
pub extern "C" fn bits_words(length: usize) -> usize
    ensures { result ≡ model.storage_words length }
{
    LANE * length.div_ceil(BITS).div_ceil(LANE)
}

/// Returns how many words of a set of this length hold positions below the length.
#[unsafe(no_mangle)]
pub extern "C" fn bits_blocks(length: usize) -> usize
    ensures { result ≡ model.words_needed length }
{
    length.div_ceil(BITS)
}

/// Turns any words into the words of a set of `length` positions: positions below `kept` stay, and
/// all others are cleared. Returns `true` if `count` is `bits_words(length)` and `kept` is at most
/// the length; else returns `false` and changes nothing. For example, a `kept` of 0 makes the set
/// empty, a `kept` of the length takes over words from elsewhere, and a `kept` of the old length
/// makes a set longer in memory that has room.
#[unsafe(no_mangle)]
pub extern "C" fn bits_settle(words: &mut [Block], length: usize, kept: usize) -> bool
    ensures answer { result
        ≡ (prelude.length words.old == model.storage_words length && nat_le kept length) }
    ensures clean { result ≡ prelude.true → IsClean length words.new }
    ensures value { result ≡ prelude.true
        → of_words length words.new ≡ model.grow (of_words kept words.old) length }
    ensures stays { result ≡ prelude.false → words.new ≡ words.old }
{
    if words.len() == bits_words(length) && kept <= length {
        BitsMut::settle(words, length, kept);
        true
    } else {
        false
    }
}

/// Returns whether the words, as they are, are the words of a set of `length` positions: `count` is
/// `bits_words(length)`, and no bit at or past the length is set. With this call a program can
/// reject words from elsewhere, where `bits_settle` would drop the bits past the length.
#[unsafe(no_mangle)]
pub extern "C" fn bits_is_clean(words: &[Block], length: usize) -> bool
    ensures { IsTrue result ↔ IsClean length words.now }
{
    Bits::fits(words, length)
}

// made by front/calls
/// Returns whether the position is set; `false` if the position is out of range.
#[unsafe(no_mangle)]
pub extern "C" fn bits_contains(set: &Bits<'_>, bit: usize) -> bool
    ensures { result ≡ model.contains (value set.now) bit }
{
    set.contains(bit)
}

/// Sets the position and returns `true`; returns `false` and changes nothing if the position is out
/// of range.
#[unsafe(no_mangle)]
pub extern "C" fn bits_insert(set: &mut BitsMut<'_>, bit: usize) -> bool
    ensures answer { result ≡ nat_lt bit set.old.length }
    ensures value { held set.new
        ≡ (if result then model.insert (held set.old) bit else held set.old) }
    ensures same { set.new.words.ghost_name ≡ set.old.words.ghost_name }
{
    if bit < set.length {
        set.insert(bit);
        true
    } else {
        false
    }
}

/// Clears the position and returns `true`; returns `false` and changes nothing if the position is
/// out of range.
#[unsafe(no_mangle)]
pub extern "C" fn bits_remove(set: &mut BitsMut<'_>, bit: usize) -> bool
    ensures answer { result ≡ nat_lt bit set.old.length }
    ensures value { held set.new
        ≡ (if result then model.remove (held set.old) bit else held set.old) }
    ensures same { set.new.words.ghost_name ≡ set.old.words.ghost_name }
{
    if bit < set.length {
        set.remove(bit);
        true
    } else {
        false
    }
}

/// Flips the position and returns `true`; returns `false` and changes nothing if the position is
/// out of range.
#[unsafe(no_mangle)]
pub extern "C" fn bits_toggle(set: &mut BitsMut<'_>, bit: usize) -> bool
    ensures answer { result ≡ nat_lt bit set.old.length }
    ensures value { held set.new
        ≡ (if result then model.toggle (held set.old) bit else held set.old) }
    ensures same { set.new.words.ghost_name ≡ set.old.words.ghost_name }
{
    if bit < set.length {
        set.toggle(bit);
        true
    } else {
        false
    }
}

/// Sets the position, or clears it if `enabled` is `false`, and returns `true`; returns `false` and
/// changes nothing if the position is out of range.
#[unsafe(no_mangle)]
pub extern "C" fn bits_set(set: &mut BitsMut<'_>, bit: usize, enabled: bool) -> bool
    ensures answer { result ≡ nat_lt bit set.old.length }
    ensures value { held set.new
        ≡ (if result then model.set_bit (held set.old) bit enabled else held set.old) }
    ensures same { set.new.words.ghost_name ≡ set.old.words.ghost_name }
{
    if bit < set.length {
        set.set(bit, enabled);
        true
    } else {
        false
    }
}

/// Sets the position, and returns whether the position was set before; returns `false` and changes
/// nothing if the position is out of range.
#[tactic(auto, using(crate::proofs::Sets::none_past))]
#[unsafe(no_mangle)]
pub extern "C" fn bits_put(set: &mut BitsMut<'_>, bit: usize) -> bool
    ensures answer { result ≡ model.contains (held set.old) bit }
    ensures value { held set.new
        ≡ (if nat_lt bit set.old.length then model.insert (held set.old) bit else held set.old) }
    ensures same { set.new.words.ghost_name ≡ set.old.words.ghost_name }
{
    if bit < set.length {
        set.put(bit)
    } else {
        false
    }
}

/// Clears the position, and returns whether the position was set before; returns `false` and
/// changes nothing if the position is out of range.
#[tactic(auto, using(crate::proofs::Sets::none_past))]
#[unsafe(no_mangle)]
pub extern "C" fn bits_take(set: &mut BitsMut<'_>, bit: usize) -> bool
    ensures answer { result ≡ model.contains (held set.old) bit }
    ensures value { held set.new
        ≡ (if nat_lt bit set.old.length then model.remove (held set.old) bit else held set.old) }
    ensures same { set.new.words.ghost_name ≡ set.old.words.ghost_name }
{
    if bit < set.length {
        set.take(bit)
    } else {
        false
    }
}

/// Writes the block to word `index`, without the bits of the block at or past the length, and
/// returns `true`; returns `false` and changes nothing if the length needs no such word.
#[unsafe(no_mangle)]
pub extern "C" fn bits_set_block(set: &mut BitsMut<'_>, index: usize, block: Block) -> bool
    ensures answer { result ≡ nat_lt index (model.words_needed set.old.length) }
    ensures value { held set.new
        ≡ (if result then model.set_block (held set.old) index block else held set.old) }
    ensures same { set.new.words.ghost_name ≡ set.old.words.ghost_name }
{
    if index < bits_blocks(set.length) {
        set.set_block(index, block);
        true
    } else {
        false
    }
}

/// Clears all positions.
#[unsafe(no_mangle)]
pub extern "C" fn bits_clear(set: &mut BitsMut<'_>)
    ensures value { held set.new ≡ model.empty set.old.length }
    ensures same { set.new.words.ghost_name ≡ set.old.words.ghost_name }
{
    set.clear(&mut Steps::new());
}

/// Returns whether no position is set.
#[unsafe(no_mangle)]
pub extern "C" fn bits_is_clear(set: &Bits<'_>) -> bool
    ensures { result ≡ model.is_clear (value set.now) }
{
    set.is_clear(&mut Steps::new())
}

/// Returns whether each position below the length is set.
#[unsafe(no_mangle)]
pub extern "C" fn bits_is_full(set: &Bits<'_>) -> bool
    ensures { result ≡ model.is_full (value set.now) }
{
    set.is_full(&mut Steps::new())
}

/// Returns the least position that is set, or `NONE` if no position is set.
#[unsafe(no_mangle)]
pub extern "C" fn bits_minimum(set: &Bits<'_>) -> usize
    ensures { result ≡ unwrap_or (model.minimum (value set.now)) NONE }
{
    set.minimum(&mut Steps::new()).unwrap_or(NONE)
}

/// Returns the greatest position that is set, or `NONE` if no position is set.
#[unsafe(no_mangle)]
pub extern "C" fn bits_maximum(set: &Bits<'_>) -> usize
    ensures { result ≡ unwrap_or (model.maximum (value set.now)) NONE }
{
    set.maximum(&mut Steps::new()).unwrap_or(NONE)
}
// end of what front/calls makes

/// Clears the lowest bit of the word that is set, and returns the index of that bit; returns `NONE`
/// if the word is 0.
#[unsafe(no_mangle)]
pub extern "C" fn bits_take_lowest_bit(word: &mut Block) -> usize
    ensures zero { word.old ≡ 0 → (result ≡ NONE) × (word.new ≡ 0) }
    ensures lowest { word.old ≢ 0 → IsLowestBit word.old result }
    ensures clears { word.old ≢ 0 → ClearsBit word.old word.new result }
{
    if *word == 0 {
        NONE
    } else {
        take_lowest_bit(word)
    }
}
