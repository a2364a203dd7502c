//! Functions whose contracts say how many steps the calls in them take. Steps are counted by proofs
//! alone, and there is nothing to see of them when the functions run.

ghost use Rattle.std.specs.Prelude.{◌≡◌, ◌+◌, ◌<◌, ◌≤◌, ◌^◌, length, sum_by, bit_and};
ghost use Rattle.std.specs.Int.RustNames.{count_ones};
ghost use Rattle.std.specs.Simd.Lanes.{zip2};
ghost use Rattle.std.specs.declared.option.Option.TheVariants.{Some};
ghost use Rattle.bitlanes.specs.Search.{IsFirstOne};
ghost use Rattle.fixedbitset.specs.Bits.{minimum};
ghost use Rattle.fixedbitset.specs.Neighbours.{next_one};
ghost use Rattle.fixedbitset.specs.Runs.{last_gap};
ghost use Rattle.fixedbitset.specs.TwoSets.{intersection, difference};
ghost use Rattle.fixedbitset.specs.Views.{value};

use bitlanes::lanes;
use bitlanes::ops::{And, Or};
use bitlanes::word::Block;
use fixedbitset::{Bits, FixedBitSet, Steps, counted};
use std::alloc::AllocError;

/// Counted calls whose steps the caller can sum up.
#[tactic(auto, using(fixedbitset::specs::RangesFacts::facts))]
pub fn counted_calls(set: &mut FixedBitSet, steps: &mut Steps) -> usize
    requires { 129 ≤ set.old.length }
    ensures length { set.new.length ≡ set.old.length }
    ensures cost { steps.new ≡ steps.old + 6 }
{
    counted::insert_range(set, 63..129, steps); // 3
    counted::insert_range(set, 64..64, steps); // none
    counted::count_ones(set, 63..129, steps) // 3
}

/// Two sets of 7 words: a lane of four words, and one of three words and a word of zeros.
pub fn unite_seven_words(
    set: &mut FixedBitSet,
    other: &FixedBitSet,
    steps: &mut Steps,
) -> Result<(), AllocError>
    requires left { set.old.length ≡ 448 }
    requires right { other.now.length ≡ 448 }
    ensures { steps.new ≡ steps.old + 2 }
{
    counted::union_with(set, other, steps)
}

/// Two sets of 9 words: two lanes of four words, and one of a word and three words of zeros.
pub fn unite_nine_words(
    set: &mut FixedBitSet,
    other: &FixedBitSet,
    steps: &mut Steps,
) -> Result<(), AllocError>
    requires left { set.old.length ≡ 576 }
    requires right { other.now.length ≡ 576 }
    ensures { steps.new ≡ steps.old + 3 }
{
    counted::union_with(set, other, steps)
}

/// How many steps a change of so many words takes.
pub fn apply_steps(dst: &mut [Block], src: &[Block], steps: &mut Steps)
    requires { length src.now ≡ length dst.old }
    ensures of_0 { length dst.old ≡ 0 → steps.new ≡ steps.old }
    ensures of_1 { length dst.old ≡ 1 → steps.new ≡ steps.old + 1 }
    ensures of_3 { length dst.old ≡ 3 → steps.new ≡ steps.old + 1 }
    ensures of_4 { length dst.old ≡ 4 → steps.new ≡ steps.old + 1 }
    ensures of_5 { length dst.old ≡ 5 → steps.new ≡ steps.old + 2 }
    ensures of_7 { length dst.old ≡ 7 → steps.new ≡ steps.old + 2 }
    ensures of_8 { length dst.old ≡ 8 → steps.new ≡ steps.old + 2 }
    ensures of_9 { length dst.old ≡ 9 → steps.new ≡ steps.old + 3 }
{
    lanes::apply::<Or>(dst, src, steps);
}

/// How many steps a count of so many words takes.
pub fn count_steps(a: &[Block], b: &[Block], steps: &mut Steps) -> usize
    requires equal { length b.now ≡ length a.now }
    requires fits { sum_by count_ones (zip2 bit_and a.now b.now) < 2 ^ 64 }
    ensures of_0 { length a.now ≡ 0 → steps.new ≡ steps.old }
    ensures of_1 { length a.now ≡ 1 → steps.new ≡ steps.old + 1 }
    ensures of_3 { length a.now ≡ 3 → steps.new ≡ steps.old + 1 }
    ensures of_4 { length a.now ≡ 4 → steps.new ≡ steps.old + 1 }
    ensures of_5 { length a.now ≡ 5 → steps.new ≡ steps.old + 2 }
    ensures of_7 { length a.now ≡ 7 → steps.new ≡ steps.old + 2 }
    ensures of_8 { length a.now ≡ 8 → steps.new ≡ steps.old + 2 }
    ensures of_9 { length a.now ≡ 9 → steps.new ≡ steps.old + 3 }
{
    lanes::count::<And>(a, b, steps)
}

/// How many steps a test takes that the first word that is not 0 stops.
pub fn none_steps(words: &[Block], steps: &mut Steps) -> bool
    ensures of_first { IsFirstOne words.now 0 → steps.new ≡ steps.old + 1 }
    ensures of_fourth { IsFirstOne words.now 3 → steps.new ≡ steps.old + 1 }
    ensures of_fifth { IsFirstOne words.now 4 → steps.new ≡ steps.old + 2 }
    ensures of_ninth { IsFirstOne words.now 8 → steps.new ≡ steps.old + 3 }
{
    lanes::none_one(words, steps)
}

/// A count by an iterator over 9 words: two lanes of the seven between its ends, and the two ends.
pub fn ones_of_nine_words(set: Bits<'_>, steps: &mut Steps) -> usize
    requires { set.length ≡ 576 }
    ensures { steps.new ≡ steps.old + 3 }
{
    set.ones().count_left(steps)
}

/// A search for the last gap, which begins in word 1 of 9: the words from there on are two lanes.
pub fn last_gap_from_word_1(set: Bits<'_>, steps: &mut Steps) -> Option<usize>
    requires long { set.length ≡ 576 }
    requires gap { last_gap (value set) 3 576 ≡ Some 100 }
    ensures { steps.old + 2 ≤ steps.new }
{
    set.last_gap(3, 576, steps)
}

/// Sets of any lengths whose least common position is 300: it stands in the second lane.
pub fn disjoint_up_to_300(set: &FixedBitSet, other: &FixedBitSet, steps: &mut Steps) -> bool
    requires { minimum (intersection set.now other.now) ≡ Some 300 }
    ensures { steps.new ≡ steps.old + 2 }
{
    counted::is_disjoint(set, other, steps)
}

/// A set whose least position that the other one lacks is 300, after the one lane of the other.
pub fn subset_up_to_300(set: &FixedBitSet, other: &FixedBitSet, steps: &mut Steps) -> bool
    requires shorter { other.now.length ≡ 100 }
    requires least { minimum (difference set.now other.now) ≡ Some 300 }
    ensures { steps.new ≡ steps.old + 2 }
{
    counted::is_subset(set, other, steps)
}

/// A range that begins within a word: that word, and one lane with the word of position 70.
pub fn any_up_to_70(set: &FixedBitSet, steps: &mut Steps) -> bool
    requires long { 2000 ≤ set.now.length }
    requires next { next_one set.now 60 ≡ Some 70 }
    ensures { steps.new ≡ steps.old + 2 }
{
    counted::contains_any_in_range(set, 60..2000, steps)
}
