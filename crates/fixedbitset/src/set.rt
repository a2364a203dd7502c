//! The set itself: making one, growing it, its length and its words.

ghost use Rattle.std.specs.Prelude.{◌≡◌, ◌<◌, ◌≤◌, ◌+◌, ◌-◌, ◌*◌, ◌^◌, ◌++◌, min, drop};
ghost use Rattle.std.specs.Prelude.{length, replicate, vec_len, IsOk, IfOk, OnOk, OnErr};
ghost use Rattle.std.specs.Vec.{vec_capacity};
ghost use Rattle.bitlanes.specs.Words.{lane_steps};
ghost use Rattle.fixedbitset.specs.Bits as model;
ghost use Rattle.fixedbitset.specs.Blocks.{FirstItems};
ghost use Rattle.fixedbitset.specs.Views.{value};

use crate::views::{Bits, BitsMut, storage_words};
use bitlanes::Steps;
use bitlanes::word::{BITS, Block};
use bitwords::positions;
use std::alloc::{AllocError, Global};
use std::marker::Model;

// From how many words on a set is copied by one call of `memcpy`. A shorter one is copied
// by a loop, with no call.
const LONG: usize = 64;

/// A bit set (bitmap): a length in bits, and a set of positions below it.
///
/// It keeps the words that the length needs, and up to three more, so that they make whole lanes of
/// four. Bits past the length are always zero. Two sets are the same value exactly if their lengths
/// and their positions are.
#[derive(Debug, Drop)]
pub struct FixedBitSet {
    pub(crate) words: Vec<Block>,
    pub(crate) length: usize,
}

impl Model for FixedBitSet {
    ghost use Rattle.fixedbitset.specs.Bits.{Bits, of_words};
    ghost use Rattle.fixedbitset.specs.BitsCode.{code};
    ghost use Rattle.fixedbitset.specs.Stored.{IsClean};

    ghost Value = { Bits };

    ghost coded = { code };

    ghost view = { λ s. of_words s.length s.words.items };

    ghost invariant = { λ s. IsClean s.length s.words.items };
}

impl FixedBitSet {
    /// A set of length 0. It does not allocate.
    ///
    /// Upstream's `new` is a `const fn` and takes no allocator.
    ///
    /// ```
    /// let mut set = FixedBitSet::new(alloc);
    /// assert_eq!(rt; set.len(), 0);
    /// set.grow_and_insert(64)?;
    /// assert_eq!(rt; set.as_slice(), [0, 1].as_slice());
    /// ```
    pub fn new(alloc: Global) -> Self
        ensures { result ≡ model.empty 0 }
    {
        FixedBitSet {
            words: Vec::new(alloc),
            length: 0,
        }
    }

    /// A set of `bits` positions, none of them set. It writes `bits / 64` words, rounded up, and
    /// those up to a whole lane of four.
    ///
    /// `Err` is returned only where the allocation of the words failed; upstream aborts there.
    ///
    /// ```
    /// let set = FixedBitSet::with_capacity(alloc, 70)?;
    /// assert_eq!(rt; set.len(), 70);
    /// assert_eq!(rt; set.as_slice(), [0, 0].as_slice());
    /// ```
    #[inline]
    pub fn with_capacity(alloc: Global, bits: usize) -> Result<Self, AllocError>
        ensures { IfOk result (λ set. set ≡ model.empty bits) }
    {
        Ok(FixedBitSet {
            words: vec![in alloc; 0; storage_words(bits)]?,
            length: bits,
        })
    }

    /// A set of length 0, as `new` makes it.
    ///
    /// Upstream implements the trait `Default`, whose call takes no allocator.
    ///
    /// ```
    /// let set = FixedBitSet::default(alloc);
    /// assert!(rt; set == FixedBitSet::new(alloc));
    /// ```
    pub fn default(alloc: Global) -> Self
        ensures { result ≡ model.empty 0 }
    {
        Self::new(alloc)
    }

    /// A set of `bits` positions, whose words are the first items of `blocks`. Words that
    /// no item comes for are 0.
    ///
    /// It takes no more items than there are words, which are `bits / 64`, rounded up. So `blocks`
    /// need not end. Bits past the length are cleared; upstream keeps those of its last word.
    ///
    /// `Err` is returned only where the allocation of the words failed; no item is taken then. It
    /// writes each word as 0, then the items, and then the last word.
    ///
    /// ```
    /// let set = FixedBitSet::with_capacity_and_blocks(alloc, 67, [1, 255])?;
    /// assert_eq!(rt; set.as_slice(), [1, 7].as_slice());
    /// assert!(rt; set.contains(66) && !set.contains(67));
    /// ```
    #[inline]
    pub fn with_capacity_and_blocks<I: IntoIterator<Item = Block>>(
        alloc: Global,
        bits: usize,
        blocks: I,
    ) -> Result<Self, AllocError>
        requires { (it : I.IntoIter) → I.into_iter_gives blocks it → I.IntoIter.can_next it }
        ensures { IfOk result (λ set. (it : I.IntoIter) × I.into_iter_gives blocks it
            × FirstItems I.IntoIter.next_gives it (model.words_needed bits)
            (λ words. set ≡ model.of_words bits words)) }
    {
        let items = blocks.into_iter();
        let mut words = vec![in alloc; 0; storage_words(bits)]?;
        fill(&mut words, bits.div_ceil(BITS), items);
        positions::clear_from(&mut words, bits);
        Ok(FixedBitSet {
            words,
            length: bits,
        })
    }

    /// Makes the length the greater of itself and `bits`. The new positions are not
    /// set; a set never shrinks.
    ///
    /// `Err` is returned only where more words are needed than the old length has and their
    /// allocation failed. The set is then as it was. A call that needs no more words cannot fail.
    /// It writes the new words alone, and where the allocation has to move also the old ones.
    ///
    /// ```
    /// let mut set = FixedBitSet::with_capacity_and_blocks(alloc, 2, [3])?;
    /// set.grow(70)?;
    /// set.grow(9)?;
    /// assert_eq!(rt; set.len(), 70);
    /// assert_eq!(rt; set.as_slice(), [3, 0].as_slice());
    /// ```
    #[inline]
    pub fn grow(&mut self, bits: usize) -> Result<(), AllocError>
        ensures ok { OnOk result (self.new ≡ model.grow self.old bits) }
        ensures err { OnErr result (self.new ≡ self.old) }
        ensures succeeds { model.words_needed bits ≤ model.words_needed self.old.length
            → IsOk result }
    {
        if bits > self.length {
            lengthen(&mut self.words, storage_words(bits))?;
            self.length = bits;
        }
        Ok(())
    }

    /// Copies `source` into this set, which takes its length and its positions. It uses
    /// the words that are there.
    ///
    /// `Err` is returned only where `source` has more words than the old set has and their
    /// allocation failed. The set is then as it was. It writes the words that are added, and then
    /// as many as `source` has.
    ///
    /// Upstream aborts where an allocation fails.
    ///
    /// ```
    /// let source = FixedBitSet::with_capacity_and_blocks(alloc, 3, [5])?;
    /// let mut set = FixedBitSet::with_capacity_and_blocks(alloc, 70, [8, 1])?;
    /// set.clone_from(&source)?;
    /// assert_eq!(rt; set.len(), 3);
    /// assert_eq!(rt; set.as_slice(), [5].as_slice());
    /// ```
    #[inline]
    pub fn clone_from(&mut self, source: &Self) -> Result<(), AllocError>
        ensures ok { OnOk result (self.new ≡ source.now) }
        ensures err { OnErr result (self.new ≡ self.old) }
        ensures succeeds { model.words_needed source.now.length
            ≤ model.words_needed self.old.length → IsOk result }
    {
        self.copy_from(source, &mut Steps::new())
    }

    // `clone_from`, with the steps that it takes. They are counted apart from std's copy.
    #[inline(always)]
    pub(crate) fn copy_from(&mut self, source: &Self, steps: &mut Steps) -> Result<(), AllocError>
        ensures ok { OnOk result (self.new ≡ source.now) }
        ensures err { OnErr result (self.new ≡ self.old) }
        ensures succeeds { model.words_needed source.now.length
            ≤ model.words_needed self.old.length → IsOk result }
        ensures cost { OnOk result
            (steps.new ≡ steps.old + lane_steps (model.storage_words source.now.length)) }
        ensures refused { OnErr result (steps.new ≡ steps.old) }
    {
        self.words.resize(source.words.len(), 0)?;
        self.words.copy_from_slice(&source.words);
        steps.tick_lanes(source.words.len());
        self.length = source.length;
        Ok(())
    }

    /// A set of the length and the positions of a view, in an allocation of its own. It writes each
    /// word once.
    ///
    /// `Err` is returned only where the allocation of the words failed. Upstream has no such call.
    ///
    /// ```
    /// let mut words = [9, 2, 0, 0];
    /// let lent = BitsMut::settle(&mut words, 70, 70);
    /// let set = FixedBitSet::from_bits(alloc, lent.as_bits())?;
    /// assert_eq!(rt; set.as_slice(), [9, 2].as_slice());
    /// ```
    #[inline]
    pub fn from_bits(alloc: Global, bits: Bits<'_>) -> Result<Self, AllocError>
        ensures { IfOk result (λ set. set ≡ value bits.entry) }
    {
        Ok(FixedBitSet {
            words: copied(alloc, bits.words)?,
            length: bits.length,
        })
    }

    /// The set as a view, to be read: no word is copied.
    ///
    /// Upstream has no such call.
    ///
    /// ```
    /// let set = FixedBitSet::from_iter(alloc, [3, 64])?;
    /// assert!(rt; set.as_bits().contains(64));
    /// ```
    #[inline(always)]
    #[tactic(auto, using(crate::proofs::Words::viewed_length))]
    pub fn as_bits(&self) -> Bits<'_>
        ensures value { value result ≡ self.now }
        ensures length { result.length ≡ self.now.length }
    {
        Bits {
            words: &self.words,
            length: self.length,
        }
    }

    /// Makes word `index` the given one. Bits past the length are dropped. It writes one word.
    ///
    /// The word has to be one of those that `as_slice` has. Upstream has no such call: there a
    /// caller writes into `as_mut_slice`, and bits past the length stay.
    ///
    /// ```
    /// let mut set = FixedBitSet::with_capacity(alloc, 70)?;
    /// assert_eq!(rt; set.as_slice().len(), 2);
    /// set.set_block(1, Block::MAX);
    /// assert_eq!(rt; set.as_slice(), [0, 63].as_slice());
    /// ```
    #[inline]
    #[tactic(auto, using(crate::proofs::Blocks::index_needed, crate::proofs::Words::given_back))]
    pub fn set_block(&mut self, index: usize, value: Block)
        requires { index < length (model.words self.old) }
        ensures { self.new ≡ model.set_block self.old index value }
    {
        let (words, length) = (&mut *self.words.as_mut_slice(), self.length);
        BitsMut { words, length }.set_block(index, value);
    }

    /// Clears all positions, and keeps the length. It writes each word once.
    ///
    /// ```
    /// let mut set = FixedBitSet::with_capacity_and_blocks(alloc, 70, [8, 1])?;
    /// set.clear();
    /// assert_eq!(rt; set.len(), 70);
    /// assert_eq!(rt; set.as_slice(), [0, 0].as_slice());
    /// ```
    #[inline]
    #[tactic(auto, using(crate::proofs::Words::given_back, crate::proofs::Words::viewed_length))]
    pub fn clear(&mut self)
        ensures { self.new ≡ model.empty self.old.length }
    {
        let (words, length) = (&mut *self.words.as_mut_slice(), self.length);
        BitsMut { words, length }.clear(&mut Steps::new());
    }

    /// The length in bits: set positions and others.
    ///
    /// ```
    /// let set = FixedBitSet::from_iter(alloc, [3, 70])?;
    /// assert_eq!(rt; set.len(), 71);
    /// assert_eq!(rt; set.count_ones(..), 2);
    /// ```
    #[inline]
    #[tactic(auto, using(crate::proofs::Words::viewed_length))]
    pub fn len(&self) -> usize
        ensures { result ≡ self.now.length }
    {
        self.length
    }

    /// The words, `len() / 64` rounded up: position `p` is bit `p % 64` of word `p / 64`, and bits
    /// past the length are 0.
    ///
    /// It is borrowed from the set and does not allocate.
    ///
    /// ```
    /// let set = FixedBitSet::from_iter(alloc, [63, 64, 65])?;
    /// assert_eq!(rt; set.as_slice(), [1 << 63, 3].as_slice());
    /// ```
    #[inline]
    pub fn as_slice(&self) -> &[Block]
        ensures { result.now ≡ model.words self.now }
    {
        self.used_words()
    }

    // The words that the length needs, without those after them that make up a whole lane.
    #[inline]
    #[tactic(auto, using(crate::proofs::Words::viewed_length))]
    pub(crate) fn used_words(&self) -> &[Block]
        ensures value { result.now ≡ model.words self.now }
        ensures count { length result.now ≡ model.words_needed self.now.length }
        ensures fits { self.now.length < 2 ^ 64 }
    {
        self.as_bits().as_slice()
    }
}

impl Clone for FixedBitSet {
    ghost is_clone = { λ set copy. copy ≡ set };

    /// A set of the same length and positions, in an allocation of its own. It writes each word
    /// once.
    ///
    /// `Err` is returned only where the allocation of the words failed; upstream aborts there.
    ///
    /// ```
    /// let set = FixedBitSet::from_iter(alloc, [3, 64])?;
    /// let mut copy = set.clone()?;
    /// copy.clear();
    /// assert_eq!(rt; copy.len(), 65);
    /// assert!(rt; set.contains(64) && !copy.contains(64));
    /// ```
    #[inline]
    fn clone(&self) -> Result<Self, AllocError> {
        Ok(FixedBitSet {
            words: copied(*self.words.allocator(), self.words.as_slice())?,
            length: self.length,
        })
    }
}

// A row of words in an allocation of its own.
#[inline]
fn copied(alloc: Global, words: &[Block]) -> Result<Vec<Block>, AllocError>
    ensures { IfOk result (λ copy. copy.items ≡ words.now) }
{
    if words.len() < LONG {
        Vec::from_clones(alloc, words)
    } else {
        Vec::from_slice(alloc, words)
    }
}

// Writes the items that come over the words from the first on, `count` at most.
fn fill<I: Iterator<Item = Block>>(words: &mut [Block], count: usize, blocks: I)
    requires items { I.can_next blocks }
    requires within { count ≤ length words.old }
    ensures { FirstItems I.next_gives blocks count
        (λ items. words.new ≡ items ++ drop (length items) words.old) }
{
    for (at, block) in blocks.take(count).enumerate() {
        words[at] = block;
    }
}

// Adds words that are 0 until there are `count`.
#[inline]
#[tactic(auto, using(crate::proofs::Growth::none_added))]
fn lengthen(words: &mut Vec<Block>, count: usize) -> Result<(), AllocError>
    requires { vec_len words.old ≤ count }
    ensures ok { OnOk result (words.new.items
        ≡ words.old.items ++ replicate (count - vec_len words.old) 0) }
    ensures err { OnErr result (words.new.items ≡ words.old.items) }
    ensures succeeds { count ≤ vec_capacity words.old → IsOk result }
{
    if count == words.len() {
        return Ok(());
    }
    add_words(words, count)
}

// The same where words are added. It is never inlined, so that `grow` is short
// where nothing has to grow.
#[inline(never)]
fn add_words(words: &mut Vec<Block>, count: usize) -> Result<(), AllocError>
    requires { vec_len words.old ≤ count }
    ensures ok { OnOk result (words.new.items
        ≡ words.old.items ++ replicate (count - vec_len words.old) 0) }
    ensures err { OnErr result (words.new.items ≡ words.old.items) }
    ensures succeeds { count ≤ vec_capacity words.old → IsOk result }
{
    words.resize(count, 0)
}
