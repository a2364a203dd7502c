//! The operations that join two sets, on one word of each and on lanes of four.
ghost use Rattle.std.specs.Prelude.{◌≡◌, ℕ, Bool, true, false, ◌&&◌};
ghost use Rattle.std.specs.Prelude.{◌||◌, not, bit_and, bit_or, bit_xor};
ghost use Rattle.std.specs.Simd.Lanes.{zip2};
ghost use Rattle.bitlanes.specs.Bits.{either, bit_without};
ghost use Rattle.bitlanes.specs.BitLaws.{laws_of_or, laws_of_and, laws_of_without};
ghost use Rattle.bitlanes.specs.BitLaws.{laws_of_xor, laws_of_second};
ghost use Rattle.bitlanes.specs.Ops.{IsWordOp};

use crate::Block;
use std::simd::prelude::*;

/// A truth function of two bits, applied to each bit of two words.
///
/// The first word is of the set that a call changes or asks, the second of the other set.
///
/// ```
/// assert_eq!(rt; <Xor as WordOp>::word(10, 6), 12);
/// let lane = <Xor as WordOp>::lane(u64x4::splat(10), u64x4::splat(6));
/// assert_eq!(rt; lane.to_array(), [12; 4]);
/// ```
pub trait WordOp {
    /// Whether a bit stays that only the first word has.
    const KEEP: bool;

    /// Whether a bit is taken that only the second word has.
    const TAKE: bool;

    ghost KEEP: { Bool };

    ghost TAKE: { Bool };

    /// The truth function: whether a bit is in the joined word, by the bits of the two.
    ghost truth: { Bool → Bool → Bool };

    /// The joined word, of two words.
    ghost joined: { ℕ → ℕ → ℕ };

    /// Joins two words.
    fn word(a: Block, b: Block) -> Block
        ensures { result ≡ joined a b };

    /// Joins two lanes of four words, each word of the left one with that of the
    /// right one at its place.
    fn lane(left: u64x4, right: u64x4) -> u64x4
        ensures { result ≡ zip2 joined left right };

    /// Its laws: by bits, and what becomes of a bit that only one word has.
    ghost laws: { IsWordOp joined truth KEEP TAKE };
}

/// The bits of either word.
///
/// ```
/// assert_eq!(rt; <Or as WordOp>::word(10, 6), 14);
/// assert!(rt; <Or as WordOp>::KEEP && <Or as WordOp>::TAKE);
/// ```
pub struct Or;

impl WordOp for Or {
    const KEEP: bool = true; // x or nothing is x

    const TAKE: bool = true; // nothing or y is y

    ghost KEEP = { true };

    ghost TAKE = { true };

    ghost truth = { λ x y. x || y };

    ghost joined = { bit_or };

    #[inline(always)]
    fn word(a: Block, b: Block) -> Block {
        a | b
    }

    #[inline(always)]
    fn lane(left: u64x4, right: u64x4) -> u64x4 {
        left | right
    }

    ghost laws = { laws_of_or };
}

/// The bits of both words.
///
/// ```
/// assert_eq!(rt; <And as WordOp>::word(10, 6), 2);
/// assert!(rt; !<And as WordOp>::KEEP && !<And as WordOp>::TAKE);
/// ```
pub struct And;

impl WordOp for And {
    const KEEP: bool = false; // x and nothing is nothing

    const TAKE: bool = false; // nothing and y is nothing

    ghost KEEP = { false };

    ghost TAKE = { false };

    ghost truth = { λ x y. x && y };

    ghost joined = { bit_and };

    #[inline(always)]
    fn word(a: Block, b: Block) -> Block {
        a & b
    }

    #[inline(always)]
    fn lane(left: u64x4, right: u64x4) -> u64x4 {
        left & right
    }

    ghost laws = { laws_of_and };
}

/// The bits of the first word that the second lacks.
///
/// ```
/// assert_eq!(rt; <AndNot as WordOp>::word(10, 6), 8);
/// assert!(rt; <AndNot as WordOp>::KEEP && !<AndNot as WordOp>::TAKE);
/// ```
pub struct AndNot;

impl WordOp for AndNot {
    const KEEP: bool = true; // x without nothing is x

    const TAKE: bool = false; // nothing without y is nothing

    ghost KEEP = { true };

    ghost TAKE = { false };

    ghost truth = { λ x y. x && not y };

    ghost joined = { bit_without };

    #[inline(always)]
    fn word(a: Block, b: Block) -> Block {
        a & !b
    }

    #[inline(always)]
    #[tactic(auto, using(crate::proofs::Zipping::zip2_map_right))]
    fn lane(left: u64x4, right: u64x4) -> u64x4 {
        left & !right
    }

    ghost laws = { laws_of_without };
}

/// The bits of exactly one of the words.
///
/// ```
/// assert_eq!(rt; <Xor as WordOp>::word(10, 6), 12);
/// assert!(rt; <Xor as WordOp>::KEEP && <Xor as WordOp>::TAKE);
/// ```
pub struct Xor;

impl WordOp for Xor {
    const KEEP: bool = true; // x against nothing is x

    const TAKE: bool = true; // nothing against y is y

    ghost KEEP = { true };

    ghost TAKE = { true };

    ghost truth = { either };

    ghost joined = { bit_xor };

    #[inline(always)]
    fn word(a: Block, b: Block) -> Block {
        a ^ b
    }

    #[inline(always)]
    fn lane(left: u64x4, right: u64x4) -> u64x4 {
        left ^ right
    }

    ghost laws = { laws_of_xor };
}

/// The bits of the second word: what a row is written over with.
///
/// ```
/// assert_eq!(rt; <Second as WordOp>::word(10, 6), 6);
/// assert!(rt; !<Second as WordOp>::KEEP && <Second as WordOp>::TAKE);
/// ```
pub struct Second;

impl WordOp for Second {
    const KEEP: bool = false; // what nothing is written over with is nothing

    const TAKE: bool = true; // what y is written over with is y

    ghost KEEP = { false };

    ghost TAKE = { true };

    ghost truth = { λ x y. y };

    ghost joined = { λ x y. y };

    #[inline(always)]
    fn word(_a: Block, b: Block) -> Block {
        b
    }

    #[inline(always)]
    fn lane(_left: u64x4, right: u64x4) -> u64x4 {
        right
    }

    ghost laws = { laws_of_second };
}
