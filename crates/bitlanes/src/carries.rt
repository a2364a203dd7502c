//! The ones of a long row of joined words, by carries: lanes are added bit by bit, and only every
//! eighth lane is counted.
//!
//! Three lanes added bit by bit make a lane of sums and a lane of carries, and a carry stands for
//! two ones. So two lanes and a sum make a new sum and a lane of twos, four lanes make a lane of
//! fours, and eight lanes a lane of eights. Of eight lanes only the lane of eights is counted, word
//! by word of it. The ones, twos and fours that are left are counted once, at the end.
ghost use Rattle.std.specs.Prelude.{◌≡◌, ◌+◌, ◌*◌, ◌^◌, ◌<◌, ◌≤◌, length, sum_by};
ghost use Rattle.std.specs.Int.RustNames.{count_ones};
ghost use Rattle.bitlanes.specs.Ones.{ones_of, ones_at, ones_up_to};

use crate::lanes::{LANE, lane_at, ones_in};
use crate::ops::WordOp;
use crate::{Block, Steps};
use std::marker::Model;
use std::simd::prelude::*;

/// How many words eight lanes have.
pub(crate) const EIGHT: usize = 8 * LANE;

/// How many bits are set in the first `blocks` times eight lanes of joined words.
#[inline(always)]
#[tactic(auto, using(crate::proofs::Counting::sum_eight))]
pub(crate) fn count_eights<O: WordOp>(
    a: &[Block],
    b: &[Block],
    blocks: usize,
    steps: &mut Steps,
) -> usize
    requires in_a { 32 * blocks ≤ length a.now }
    requires in_b { 32 * blocks ≤ length b.now }
    requires fits { ones_up_to (32 * blocks) O.joined a.now b.now < 2 ^ 64 }
    ensures ones { result ≡ ones_up_to (32 * blocks) O.joined a.now b.now }
    ensures cost { steps.new ≡ steps.old + 8 * blocks }
{
    let mut sums = Sums::new();
    let mut eights = Counts {
        first: 0,
        second: 0,
        third: 0,
        fourth: 0,
    };
    for block in 0..blocks {
        let at = EIGHT * block;
        let (a, b) = (&a[at..at + EIGHT], &b[at..at + EIGHT]);
        let carries = sums.add_eight::<O>(a, b, 0, steps);
        eights.add_ones(carries.to_array());
    }
    8 * eights.total() + sums.count()
}

// Counts of bits, one for each word of a lane: they are a lane too where the processor counts the
// bits of four words at once. A caller sees their sum.
#[derive(Drop)]
struct Counts {
    first: usize,
    second: usize,
    third: usize,
    fourth: usize,
}

impl Model for Counts {
    ghost use Rattle.std.specs.Prelude.{ℕ, ◌+◌};

    ghost Value = { ℕ };

    ghost view = { λ counts. counts.first + counts.second + counts.third + counts.fourth };
}

impl Counts {
    // Adds how many bits are set in each of four words.
    #[inline(always)]
    fn add_ones(&mut self, words: [Block; LANE])
        requires { self.old + sum_by count_ones words < 2 ^ 64 }
        ensures { self.new ≡ self.old + sum_by count_ones words }
    {
        let [first, second, third, fourth] = words;
        self.first += first.count_ones() as usize;
        self.second += second.count_ones() as usize;
        self.third += third.count_ones() as usize;
        self.fourth += fourth.count_ones() as usize;
    }

    // How many bits were counted.
    #[inline(always)]
    fn total(&self) -> usize
        requires { self.now < 2 ^ 64 }
        ensures { result ≡ self.now }
    {
        self.first + self.second + self.third + self.fourth
    }
}

// Lanes added bit by bit: of ones, of twos and of fours. A caller sees how
// many ones they stand for.
#[derive(Drop)]
struct Sums {
    ones: u64x4,
    twos: u64x4,
    fours: u64x4,
}

impl Model for Sums {
    ghost use Rattle.std.specs.Prelude.{ℕ, ◌+◌, ◌*◌};
    ghost use Rattle.bitlanes.specs.Ones.{ones_of};

    ghost Value = { ℕ };

    ghost view = { λ sums. ones_of sums.ones + 2 * ones_of sums.twos + 4 * ones_of sums.fours };
}

impl Sums {
    // Nothing added yet.
    #[inline(always)]
    fn new() -> Sums
        ensures { result ≡ 0 }
    {
        Sums {
            ones: u64x4::splat(0),
            twos: u64x4::splat(0),
            fours: u64x4::splat(0),
        }
    }

    // How many ones the lanes stand for.
    #[inline(always)]
    fn count(&self) -> usize
        requires { self.now < 2 ^ 64 }
        ensures { result ≡ self.now }
    {
        4 * ones_in(self.fours.to_array())
            + 2 * ones_in(self.twos.to_array())
            + ones_in(self.ones.to_array())
    }

    // Adds the two joined lanes from word `at` on, and returns the twos that are carried.
    #[inline(always)]
    fn add_two<O: WordOp>(
        &mut self,
        a: &[Block],
        b: &[Block],
        at: usize,
        steps: &mut Steps,
    ) -> u64x4
        requires in_a { at + 8 ≤ length a.now }
        requires in_b { at + 8 ≤ length b.now }
        ensures ones { self.old + ones_at at 8 O.joined a.now b.now
            ≡ self.new + 2 * ones_of result }
        ensures cost { steps.new ≡ steps.old + 2 }
    {
        steps.tick();
        let first = lane_at::<O>(a, b, at);
        steps.tick();
        let second = lane_at::<O>(a, b, at + LANE);
        let (sum, carries) = add(self.ones, first, second);
        self.ones = sum;
        carries
    }

    // Adds the four joined lanes from word `at` on, and returns the fours that are carried.
    #[inline(always)]
    fn add_four<O: WordOp>(
        &mut self,
        a: &[Block],
        b: &[Block],
        at: usize,
        steps: &mut Steps,
    ) -> u64x4
        requires in_a { at + 16 ≤ length a.now }
        requires in_b { at + 16 ≤ length b.now }
        ensures ones { self.old + ones_at at 16 O.joined a.now b.now
            ≡ self.new + 4 * ones_of result }
        ensures cost { steps.new ≡ steps.old + 4 }
    {
        let first = self.add_two::<O>(a, b, at, steps);
        let second = self.add_two::<O>(a, b, at + 2 * LANE, steps);
        let (sum, carries) = add(self.twos, first, second);
        self.twos = sum;
        carries
    }

    // Adds the eight joined lanes from word `at` on, and returns the eights that are carried.
    #[inline(always)]
    fn add_eight<O: WordOp>(
        &mut self,
        a: &[Block],
        b: &[Block],
        at: usize,
        steps: &mut Steps,
    ) -> u64x4
        requires in_a { at + 32 ≤ length a.now }
        requires in_b { at + 32 ≤ length b.now }
        ensures ones { self.old + ones_at at 32 O.joined a.now b.now
            ≡ self.new + 8 * ones_of result }
        ensures cost { steps.new ≡ steps.old + 8 }
    {
        let first = self.add_four::<O>(a, b, at, steps);
        let second = self.add_four::<O>(a, b, at + 4 * LANE, steps);
        let (sum, carries) = add(self.fours, first, second);
        self.fours = sum;
        carries
    }
}

// Adds two lanes to a sum, bit by bit: the new sum, and the carries.
#[inline(always)]
fn add(sum: u64x4, left: u64x4, right: u64x4) -> (u64x4, u64x4)
    ensures { ones_of sum + ones_of left + ones_of right
        ≡ ones_of result.0 + 2 * ones_of result.1 }
{
    let either = sum ^ left;
    (either ^ right, (sum & left) | (either & right))
}
