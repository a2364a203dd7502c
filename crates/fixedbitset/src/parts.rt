//! Parts of a set, and sets put together: positions of a range as a set of their own or written
//! over those of another set, at most 64 of them as a number, one set after another, and other
//! lengths.
//!
//! `Err` is returned only where more words are needed than there are and their allocation failed.
//! The set is then as it was.

ghost use Rattle.std.specs.Prelude.{◌≡◌, ◌<◌, ◌≤◌, ◌+◌, ◌-◌, ◌^◌, ◌&&◌, nat_lt};
ghost use Rattle.std.specs.Prelude.{take, vec_len, IsTrue, IsOk, IfOk, OnOk, OnErr};
ghost use Rattle.bitwords.specs.Rows.{IsJoined};
ghost use Rattle.fixedbitset.specs.Bits as model;
ghost use Rattle.fixedbitset.specs.Json.{of_bytes, bytes};
ghost use Rattle.fixedbitset.specs.Parts as parts;
ghost use Rattle.fixedbitset.specs.Ranges as ranges;
ghost use Rattle.fixedbitset.specs.Ranges.{over};

use crate::counted;
use crate::set::FixedBitSet;
use crate::views::{BitsMut, storage_words};
use bitjson::bytes::{bytes_of_words, words_of_bytes};
use bitlanes::{Block, IndexRange, Steps};
use bitwords::positions;
use std::alloc::{AllocError, Global};

impl FixedBitSet {
    // made by front/calls, but for docs and #[inline]
    /// A set of the length of the range: its positions that this set has, less its start.
    ///
    /// The range has to be valid (`range_is_valid`). It writes each word of the new set twice.
    /// Upstream has no such call.
    ///
    /// ```
    /// let set = FixedBitSet::from_iter(alloc, [1, 63, 65, 69])?;
    /// assert_eq!(rt; set.len(), 70);
    /// let part = set.slice(alloc, 63..68)?;
    /// assert!(rt; part.ones().eq([0, 2]));
    /// ```
    #[inline]
    pub fn slice<R: IndexRange<usize> + Drop>(
        &self,
        alloc: Global,
        range: R,
    ) -> Result<Self, AllocError>
        requires { IsTrue (over ranges.is_valid self.now (R.start_of range) (R.end_of range)) }
        ensures { IfOk result (λ part. part
            ≡ over parts.slice self.now (R.start_of range) (R.end_of range)) }
    {
        counted::slice(self, alloc, range, &mut Steps::new())
    }

    /// Writes the positions of the range of `other` over those of this set from
    /// `at` on. All others stay.
    ///
    /// The range has to be valid in `other` (`range_is_valid`), and to end within this set where it
    /// begins at `at`. It writes each word that has one of these positions once, and does not
    /// allocate. Upstream has no such call.
    ///
    /// ```
    /// let mut set = FixedBitSet::from_iter(alloc, [0, 2, 65, 69])?;
    /// let other = FixedBitSet::from_iter(alloc, [1, 63, 65])?;
    /// assert!(rt; set.len() == 70 && other.len() == 66);
    /// set.copy_range(&other, 62..66, 1);
    /// assert!(rt; set.ones().eq([0, 2, 4, 65, 69]));
    /// ```
    pub fn copy_range<R: IndexRange<usize> + Drop>(&mut self, other: &Self, range: R, at: usize)
        requires valid { IsTrue (over ranges.is_valid other.now (R.start_of range)
            (R.end_of range)) }
        requires room { at + over (λ _ start end. end - start) other.now (R.start_of range)
            (R.end_of range) ≤ self.old.length }
        ensures { self.new ≡ over (λ w start end. parts.copy_range self.old w start end at)
            other.now (R.start_of range) (R.end_of range) }
    {
        counted::copy_range(self, other, range, at, &mut Steps::new());
    }

    /// The `width` positions from `start` on as a number: its bit `i` is position `start + i`.
    ///
    /// The width may be 64 at most, and the positions have to be below the length. It looks at one
    /// word, or at two. Upstream has no such call.
    ///
    /// ```
    /// let set = FixedBitSet::from_iter(alloc, [1, 63, 65, 69])?;
    /// assert_eq!(rt; set.len(), 70);
    /// assert_eq!(rt; set.load(62, 8), 138);
    /// assert_eq!(rt; set.load(70, 0), 0);
    /// ```
    #[tactic(auto, using(crate::proofs::Words::viewed_length))]
    pub fn load(&self, start: usize, width: usize) -> Block
        requires width { width ≤ 64 }
        requires within { start + width ≤ self.now.length }
        ensures { result ≡ model.number_at self.now start width }
    {
        self.as_bits().load(start, width)
    }

    /// Makes the `width` positions from `start` on the lowest bits of the number: position
    /// `start + i` becomes its bit `i`. All others stay.
    ///
    /// The width may be 64 at most, and the positions have to be below the length. It writes one
    /// word, or two. Upstream has no such call.
    ///
    /// ```
    /// let mut set = FixedBitSet::from_iter(alloc, [1, 63, 65, 69])?;
    /// assert_eq!(rt; set.len(), 70);
    /// set.store(62, 4, 5);
    /// assert!(rt; set.ones().eq([1, 62, 64, 69]));
    /// ```
    #[tactic(auto, using(crate::proofs::Words::given_back, crate::proofs::Words::viewed_length))]
    pub fn store(&mut self, start: usize, width: usize, number: Block)
        requires width { width ≤ 64 }
        requires within { start + width ≤ self.old.length }
        ensures { self.new ≡ parts.store self.old start width number }
    {
        let (words, length) = (&mut *self.words.as_mut_slice(), self.length);
        BitsMut { words, length }.store(start, width, number);
    }

    /// Puts the positions of `other` after those of this set: the lengths are added, which has to
    /// give a length.
    ///
    /// A call that needs no more words cannot fail. It reads each word of `other` once. Upstream
    /// has no such call.
    ///
    /// ```
    /// let mut set = FixedBitSet::with_capacity(alloc, 4)?;
    /// let mut other = FixedBitSet::with_capacity(alloc, 65)?;
    /// other.insert(64);
    /// set.append(&other)?;
    /// assert!(rt; set.len() == 69 && set.contains(68));
    /// ```
    #[inline]
    pub fn append(&mut self, other: &Self) -> Result<(), AllocError>
        requires { self.old.length + other.now.length < 2 ^ 64 }
        ensures ok { OnOk result (self.new ≡ parts.append self.old other.now) }
        ensures err { OnErr result (self.new ≡ self.old) }
        ensures succeeds { model.words_needed (self.old.length + other.now.length)
            ≤ model.words_needed self.old.length → IsOk result }
    {
        counted::append(self, other, &mut Steps::new())
    }
    // end of what front/calls makes

    /// Makes the length the lesser of itself and `bits`. The positions that are
    /// not below it fall away.
    ///
    /// It writes one word, and those up to a whole lane. Memory is kept. Upstream has no such call.
    ///
    /// ```
    /// let mut set = FixedBitSet::from_iter(alloc, [1, 3, 64])?;
    /// set.truncate(3);
    /// set.truncate(70);
    /// assert_eq!(rt; set.len(), 3);
    /// assert_eq!(rt; set.as_slice(), [2].as_slice());
    /// ```
    #[inline]
    pub fn truncate(&mut self, bits: usize)
        ensures { self.new ≡ parts.truncate self.old bits }
    {
        if bits < self.length {
            shorten(&mut self.words, bits);
            self.length = bits;
        }
    }

    /// Makes the length `bits`. Where it was greater, the positions that are not below `bits` fall
    /// away; where it was less, each new position is set or not, as `enabled` says.
    ///
    /// A call that needs no more words cannot fail. Upstream has no such call.
    ///
    /// ```
    /// let mut set = FixedBitSet::from_iter(alloc, [1, 3])?;
    /// set.resize(66, true)?;
    /// assert_eq!(rt; set.count_ones(..), 64);
    /// set.resize(3, true)?;
    /// assert!(rt; set.ones().eq([1]));
    /// ```
    #[inline]
    pub fn resize(&mut self, bits: usize, enabled: bool) -> Result<(), AllocError>
        ensures ok { OnOk result (self.new ≡ parts.resize self.old bits enabled) }
        ensures err { OnErr result (self.new ≡ self.old) }
        ensures succeeds { model.words_needed bits ≤ model.words_needed self.old.length
            → IsOk result }
    {
        counted::resize(self, bits, enabled, &mut Steps::new())
    }

    /// A set of `bits` positions, set as bytes say: position `p` is set where bit `p % 8` of byte
    /// `p / 8` is. Bytes that are missing count as 0, and bits past the length are dropped.
    ///
    /// It looks at each byte at most once, and writes each word once. Upstream has no such call.
    ///
    /// ```
    /// let set = FixedBitSet::from_bytes(alloc, 10, &[76, 255])?;
    /// assert_eq!(rt; set.len(), 10);
    /// assert_eq!(rt; set.as_slice(), [844].as_slice());
    /// ```
    pub fn from_bytes(alloc: Global, bits: usize, source: &[u8]) -> Result<Self, AllocError>
        ensures { IfOk result (λ set. set ≡ of_bytes bits source.now) }
    {
        let mut words = words_of_bytes(alloc, source, storage_words(bits))?;
        positions::clear_from(&mut words, bits);
        Ok(FixedBitSet {
            words,
            length: bits,
        })
    }

    /// The bytes of the set, as [`to_value`](Self::to_value) writes them: position `p`
    /// is bit `p % 8` of byte `p / 8`. There are eight for each word of `as_slice`, so
    /// those at the end may be 0.
    ///
    /// It writes each byte once. Upstream has no such call.
    ///
    /// ```
    /// let set = FixedBitSet::from_iter(alloc, [2, 9])?;
    /// let data = set.to_bytes(alloc)?;
    /// assert_eq!(rt; data.as_slice(), [4, 2, 0, 0, 0, 0, 0, 0].as_slice());
    /// ```
    pub fn to_bytes(&self, alloc: Global) -> Result<Vec<u8>, AllocError>
        ensures { IfOk result (λ made. made.items ≡ bytes self.now) }
    {
        bytes_of_words(alloc, self.as_slice())
    }
}

// Keeps the words of `bits` positions, and clears those that are not below `bits`.
fn shorten(words: &mut Vec<Block>, bits: usize)
    requires { model.storage_words bits ≤ vec_len words.old }
    ensures { IsJoined (λ x y. x && y) (take (model.storage_words bits) words.old.items)
        (λ p. nat_lt p bits) words.new.items }
{
    words.truncate(storage_words(bits));
    positions::clear_from(words, bits);
}
