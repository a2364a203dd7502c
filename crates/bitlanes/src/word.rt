//! The bits of one word.

ghost use Rattle.std.specs.Prelude.{◌≡◌, ◌≢◌, ℕ, ◌<◌, ◌≤◌, ◌&&◌, nat_lt, nat_le};
ghost use Rattle.bitlanes.specs.Bits.{bit};
ghost use Rattle.bitlanes.specs.Word.{IsLowestBit, IsHighestBit, ClearsBit};

/// One word of a set: 64 bits, bit 0 the lowest.
pub type Block = u64;

/// How many bits a word has.
pub const BITS: usize = 64;

/// The index of the lowest bit that is set. The word may not be 0.
///
/// ```
/// assert_eq!(rt; word::lowest_bit(12), 2);
/// assert_eq!(rt; word::lowest_bit(1 << 63), 63);
/// ```
#[inline(always)]
pub fn lowest_bit(word: Block) -> usize
    requires { word ≢ 0 }
    ensures { IsLowestBit word result }
{
    word.trailing_zeros() as usize
}

/// The index of the highest bit that is set. The word may not be 0.
///
/// ```
/// assert_eq!(rt; word::highest_bit(12), 3);
/// assert_eq!(rt; word::highest_bit(Block::MAX), 63);
/// ```
#[inline(always)]
pub fn highest_bit(word: Block) -> usize
    requires { word ≢ 0 }
    ensures { IsHighestBit word result }
{
    BITS - 1 - word.leading_zeros() as usize
}

/// The word with this bit clear, and each other bit as it was. The bit has to be one of the 64.
///
/// ```
/// assert_eq!(rt; word::clear_bit(12, 3), 4);
/// assert_eq!(rt; word::clear_bit(12, 0), 12);
/// ```
#[inline(always)]
pub fn clear_bit(word: Block, bit: usize) -> Block
    requires { bit < 64 }
    ensures { ClearsBit word result bit }
{
    word & !(1 << bit)
}

/// The word with its lowest bit that is set clear, and each other bit as it was.
/// The word may not be 0.
///
/// ```
/// assert_eq!(rt; word::clear_lowest_bit(12), 8);
/// assert_eq!(rt; word::clear_lowest_bit(8), 0);
/// ```
#[inline(always)]
pub fn clear_lowest_bit(word: Block) -> Block
    requires { word ≢ 0 }
    ensures { (bit : ℕ) → IsLowestBit word bit → ClearsBit word result bit }
{
    word & (word - 1)
}

/// Clears the lowest bit that is set, and returns its index. The word may not be 0.
///
/// ```
/// let mut bits = 12;
/// assert_eq!(rt; word::take_lowest_bit(&mut bits), 2);
/// assert_eq!(rt; bits, 8);
/// ```
#[inline(always)]
pub fn take_lowest_bit(word: &mut Block) -> usize
    requires { word.old ≢ 0 }
    ensures lowest { IsLowestBit word.old result }
    ensures clears { ClearsBit word.old word.new result }
{
    let index = lowest_bit(*word);
    *word = clear_lowest_bit(*word);
    index
}

/// Clears the highest bit that is set, and returns its index. The word may not be 0.
///
/// ```
/// let mut bits = 12;
/// assert_eq!(rt; word::take_highest_bit(&mut bits), 3);
/// assert_eq!(rt; bits, 4);
/// ```
#[inline(always)]
pub fn take_highest_bit(word: &mut Block) -> usize
    requires { word.old ≢ 0 }
    ensures highest { IsHighestBit word.old result }
    ensures clears { ClearsBit word.old word.new result }
{
    let index = highest_bit(*word);
    *word = clear_bit(*word, index);
    index
}

/// The word whose lowest `count` bits are set, and no other. The count may be 64 at most.
///
/// ```
/// assert_eq!(rt; word::ones_below(3), 7);
/// assert_eq!(rt; word::ones_below(64), Block::MAX);
/// ```
#[inline(always)]
#[tactic(auto, using(crate::proofs::Stretches::some_ones, crate::proofs::Stretches::all_ones))]
pub fn ones_below(count: usize) -> Block
    requires { count ≤ 64 }
    ensures { (i : ℕ) → bit result i ≡ nat_lt i count }
{
    if count < BITS {
        (1 << count) - 1
    } else {
        Block::MAX
    }
}

/// The word whose bits from `low` up to and without `high` are set, and no other.
/// Neither may be past 64.
///
/// Where `high` is `low` or less, no bit is set.
///
/// ```
/// assert_eq!(rt; word::stretch(2, 5), 28);
/// assert_eq!(rt; word::stretch(0, 64), Block::MAX);
/// assert_eq!(rt; word::stretch(5, 2), 0);
/// ```
#[inline(always)]
#[tactic(auto, using(crate::proofs::Stretches::ones_from, crate::proofs::Stretches::no_ones))]
pub fn stretch(low: usize, high: usize) -> Block
    requires from { low ≤ 64 }
    requires to { high ≤ 64 }
    ensures { (i : ℕ) → bit result i ≡ (nat_le low i && nat_lt i high) }
{
    if low < high {
        (Block::MAX >> (BITS - (high - low))) << low
    } else {
        0
    }
}
