//! A set as bytes: position `p` is bit `p % 8` of byte `p / 8`.

ghost use Rattle.std.specs.Prelude.{◌≡◌, ◌*◌, ◌==◌, if◌then◌else◌, length, map};
ghost use Rattle.std.specs.Int.{reverse_bits, w8};
ghost use Rattle.fixedbitset.specs.Bits.{words_needed};
ghost use Rattle.fixedbitset.specs.Json as json;
ghost use Rattle.fixedbitset.specs.Views.{value, held};

use crate::bits_blocks;
use fixedbitset::views::{Bits, BitsMut};

/// Returns how many bytes a set of this length has: eight for each word that the length needs.
#[unsafe(no_mangle)]
pub extern "C" fn bits_bytes(length: usize) -> usize
    ensures { result ≡ 8 * words_needed length }
{
    8 * bits_blocks(length)
}

// made by front/calls
/// Replaces the positions of the set by the positions in the bytes. Any number of bytes may be
/// passed: missing bytes count as 0, and bits past the length are dropped.
#[unsafe(no_mangle)]
pub extern "C" fn bits_from_bytes(set: &mut BitsMut<'_>, bytes: &[u8])
    ensures value { held set.new ≡ json.of_bytes set.old.length bytes.now }
    ensures same { set.new.words.ghost_name ≡ set.old.words.ghost_name }
{
    set.assign_bytes(bytes);
}

/// Writes the bytes of the set and returns `true`; returns `false` and changes nothing if `count`
/// is not `bits_bytes(length)`.
#[unsafe(no_mangle)]
pub extern "C" fn bits_to_bytes(set: &Bits<'_>, bytes: &mut [u8]) -> bool
    ensures answer { result ≡ (length bytes.old == 8 * words_needed set.now.length) }
    ensures bytes { bytes.new ≡ (if result then json.bytes (value set.now) else bytes.old) }
{
    if bytes.len() == bits_bytes(set.length) {
        set.to_bytes(bytes);
        true
    } else {
        false
    }
}
// end of what front/calls makes

/// Reverses the bits of each byte. `bits_from_bytes` and `bits_to_bytes` have the first of eight
/// positions in the lowest bit of a byte; this call turns bytes with that position in the highest
/// bit (most significant bit first) into such bytes, and back.
#[unsafe(no_mangle)]
pub extern "C" fn bits_reverse_each_byte(bytes: &mut [u8])
    ensures { bytes.new ≡ map (reverse_bits w8) bytes.old }
{
    for byte in bytes.iter_mut() {
        *byte = byte.reverse_bits();
    }
}
