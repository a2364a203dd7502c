//! A set as bytes of a caller's.

ghost use Rattle.std.specs.Prelude.{◌≡◌, ◌*◌};
ghost use Rattle.std.specs.Prelude as prelude;
ghost use Rattle.fixedbitset.specs.Bits.{words_needed};
ghost use Rattle.fixedbitset.specs.Json as json;
ghost use Rattle.fixedbitset.specs.Views.{value, Becomes};

use crate::views::{Bits, BitsMut};
use bitjson::fills::{fill_bytes, fill_words};
use bitwords::positions;

impl BitsMut<'_> {
    /// Leaves the positions that bytes say: position `p` is set where bit `p % 8` of byte `p / 8`
    /// is. Bytes that are missing count as 0, and bits past the length are dropped.
    ///
    /// It looks at each byte at most once, and writes over each word.
    ///
    /// ```
    /// let mut words = [0; 4];
    /// let mut set = BitsMut::settle(&mut words, 10, 10);
    /// set.assign_bytes(&[76, 255]);
    /// assert_eq!(rt; words, [844, 0, 0, 0]);
    /// ```
    pub fn assign_bytes(&mut self, source: &[u8])
        ensures { Becomes self.old self.new (json.of_bytes self.old.length source.now) }
    {
        let (words, length) = (&mut *self.words, self.length);
        fill_words(source, words);
        positions::clear_from(words, length);
    }
}

impl Bits<'_> {
    /// Writes the bytes of the set: position `p` is bit `p % 8` of byte `p / 8`. There have to be
    /// eight for each word that the length needs. It writes each byte once.
    ///
    /// ```
    /// let (mut words, mut data) = ([516, 0, 0, 0], [7; 8]);
    /// let set = BitsMut::settle(&mut words, 10, 10);
    /// set.as_bits().to_bytes(&mut data);
    /// assert_eq!(rt; data, [4, 2, 0, 0, 0, 0, 0, 0]);
    /// ```
    pub fn to_bytes(self, made: &mut [u8])
        requires { prelude.length made.old ≡ 8 * words_needed self.length }
        ensures { made.new ≡ json.bytes (value self.entry) }
    {
        fill_bytes(self.as_slice(), made);
    }
}
