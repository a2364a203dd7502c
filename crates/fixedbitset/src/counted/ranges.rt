//! Ranges of positions, with a counter of steps.
//!
//! A change or a count takes exactly one step for each word that holds a position of the range: so
//! none for an empty range, and never more than `(end - start) / 64 + 2`. A test takes no more: one
//! step for each lane of four of the words that are wholly in the range, and one for each other
//! word that holds a position of it. It stops at the first that decides, and takes exactly those up
//! to that one, or exactly all where none does.

ghost use Rattle.std.specs.Prelude.{◌≡◌, ◌<◌, ◌≤◌, ◌+◌, IsTrue, IfSome, min, false, not};
ghost use Rattle.bitwords.specs.Steps.{range_words, search_steps, word_end};
ghost use Rattle.fixedbitset.specs.Neighbours as neighbours;
ghost use Rattle.fixedbitset.specs.Ranges as ranges;
ghost use Rattle.fixedbitset.specs.Ranges.{over, start_of, end_of};

use crate::set::FixedBitSet;
use crate::views::BitsMut;
use bitlanes::{IndexRange, Steps};

/// [`FixedBitSet::insert_range`], with the steps that it takes.
///
/// ```
/// let mut set = FixedBitSet::with_capacity(alloc, 200)?;
/// let mut steps = Steps::new();
/// counted::insert_range(&mut set, 63..66, &mut steps);
/// assert_eq!(rt; counted::count_ones(&set, .., &mut steps), 3);
/// ```
#[inline]
#[tactic(auto, using(crate::proofs::Words::given_back, crate::proofs::Words::viewed_length))]
pub fn insert_range<R: IndexRange<usize> + Drop>(set: &mut FixedBitSet, range: R, steps: &mut Steps)
    requires { IsTrue (over ranges.is_valid set.old (R.start_of range) (R.end_of range)) }
    ensures value { set.new ≡ over ranges.insert_range set.old (R.start_of range) (R.end_of range) }
    ensures cost { steps.new ≡ steps.old
        + over (λ _. range_words) set.old (R.start_of range) (R.end_of range) }
{
    let start = range.start().unwrap_or(0);
    let end = range.end().unwrap_or(set.len());
    let (words, length) = (&mut *set.words.as_mut_slice(), set.length);
    BitsMut { words, length }.insert_range(start, end, steps);
}

// made by front/calls, but for docs and #[inline]
/// [`FixedBitSet::remove_range`], with the steps that it takes.
///
/// ```
/// let mut set = FixedBitSet::with_capacity(alloc, 200)?;
/// let mut steps = Steps::new();
/// counted::insert_range(&mut set, .., &mut steps);
/// counted::remove_range(&mut set, 1..=198, &mut steps);
/// assert_eq!(rt; set.count_ones(..), 2);
/// ```
#[inline]
#[tactic(auto, using(crate::proofs::Words::given_back, crate::proofs::Words::viewed_length))]
pub fn remove_range<R: IndexRange<usize> + Drop>(set: &mut FixedBitSet, range: R, steps: &mut Steps)
    requires { IsTrue (over ranges.is_valid set.old (R.start_of range) (R.end_of range)) }
    ensures value { set.new ≡ over ranges.remove_range set.old (R.start_of range) (R.end_of range) }
    ensures cost { steps.new ≡ steps.old
        + over (λ _. range_words) set.old (R.start_of range) (R.end_of range) }
{
    let start = range.start().unwrap_or(0);
    let end = range.end().unwrap_or(set.len());
    let (words, length) = (&mut *set.words.as_mut_slice(), set.length);
    BitsMut { words, length }.remove_range(start, end, steps);
}

/// [`FixedBitSet::toggle_range`], with the steps that it takes.
///
/// ```
/// let mut set = FixedBitSet::with_capacity(alloc, 200)?;
/// let mut steps = Steps::new();
/// counted::toggle_range(&mut set, 60..66, &mut steps);
/// counted::toggle_range(&mut set, 62.., &mut steps);
/// assert_eq!(rt; set.minimum(), Some(60));
/// ```
#[inline]
#[tactic(auto, using(crate::proofs::Words::given_back, crate::proofs::Words::viewed_length))]
pub fn toggle_range<R: IndexRange<usize> + Drop>(set: &mut FixedBitSet, range: R, steps: &mut Steps)
    requires { IsTrue (over ranges.is_valid set.old (R.start_of range) (R.end_of range)) }
    ensures value { set.new ≡ over ranges.toggle_range set.old (R.start_of range) (R.end_of range) }
    ensures cost { steps.new ≡ steps.old
        + over (λ _. range_words) set.old (R.start_of range) (R.end_of range) }
{
    let start = range.start().unwrap_or(0);
    let end = range.end().unwrap_or(set.len());
    let (words, length) = (&mut *set.words.as_mut_slice(), set.length);
    BitsMut { words, length }.toggle_range(start, end, steps);
}

/// [`FixedBitSet::count_ones`], with the steps that it takes.
///
/// ```
/// let mut set = FixedBitSet::with_capacity(alloc, 200)?;
/// set.insert_range(60..130);
/// assert_eq!(rt; counted::count_ones(&set, 63..=64, &mut Steps::new()), 2);
/// ```
#[inline]
pub fn count_ones<R: IndexRange<usize> + Drop>(
    set: &FixedBitSet,
    range: R,
    steps: &mut Steps,
) -> usize
    requires { IsTrue (over ranges.is_valid set.now (R.start_of range) (R.end_of range)) }
    ensures count { result ≡ over ranges.count_ones set.now (R.start_of range) (R.end_of range) }
    ensures cost { steps.new ≡ steps.old
        + over (λ _. range_words) set.now (R.start_of range) (R.end_of range) }
{
    let start = range.start().unwrap_or(0);
    let end = range.end().unwrap_or(set.len());
    set.as_bits().count_ones(start, end, steps)
}

/// [`FixedBitSet::count_zeroes`], with the steps that it takes.
///
/// ```
/// let mut set = FixedBitSet::with_capacity(alloc, 200)?;
/// set.insert_range(60..130);
/// assert_eq!(rt; counted::count_zeroes(&set, 59..=64, &mut Steps::new()), 1);
/// ```
#[inline]
pub fn count_zeroes<R: IndexRange<usize> + Drop>(
    set: &FixedBitSet,
    range: R,
    steps: &mut Steps,
) -> usize
    requires { IsTrue (over ranges.is_valid set.now (R.start_of range) (R.end_of range)) }
    ensures count { result ≡ over ranges.count_zeroes set.now (R.start_of range) (R.end_of range) }
    ensures cost { steps.new ≡ steps.old
        + over (λ _. range_words) set.now (R.start_of range) (R.end_of range) }
{
    let start = range.start().unwrap_or(0);
    let end = range.end().unwrap_or(set.len());
    set.as_bits().count_zeroes(start, end, steps)
}
// end of what front/calls makes

/// [`FixedBitSet::contains_all_in_range`], with the steps that it takes.
///
/// ```
/// let mut set = FixedBitSet::with_capacity(alloc, 200)?;
/// set.insert_range(60..130);
/// assert!(rt; counted::contains_all_in_range(&set, 60..130, &mut Steps::new()));
/// assert!(rt; !counted::contains_all_in_range(&set, 59..130, &mut Steps::new()));
/// ```
#[inline]
pub fn contains_all_in_range<R: IndexRange<usize> + Drop>(
    set: &FixedBitSet,
    range: R,
    steps: &mut Steps,
) -> bool
    requires { IsTrue (over ranges.is_valid set.now (R.start_of range) (R.end_of range)) }
    ensures answer { result ≡ over ranges.contains_all set.now (R.start_of range) (R.end_of range) }
    ensures cost { steps.new ≤ steps.old
        + over (λ _. search_steps) set.now (R.start_of range) (R.end_of range) }
    ensures exact_if_true { IsTrue result
        → steps.new ≡ steps.old
        + over (λ _. search_steps) set.now (R.start_of range) (R.end_of range) }
    ensures exact_if_stopped { let start = start_of (R.start_of range) in
        let end = end_of (R.end_of range) set.now.length in
        IfSome (neighbours.next_zero set.now start) (λ p.
        p < end → steps.new ≡ steps.old + search_steps start (min end (word_end p))) }
    ensures stops { result ≡ false → steps.old < steps.new }
{
    let start = range.start().unwrap_or(0);
    let end = range.end().unwrap_or(set.len());
    set.as_bits().contains_all_in_range(start, end, steps)
}

/// [`FixedBitSet::contains_any_in_range`], with the steps that it takes.
///
/// ```
/// let mut set = FixedBitSet::with_capacity(alloc, 200)?;
/// set.insert_range(60..130);
/// assert!(rt; counted::contains_any_in_range(&set, ..=60, &mut Steps::new()));
/// assert!(rt; !counted::contains_any_in_range(&set, ..60, &mut Steps::new()));
/// ```
#[inline]
pub fn contains_any_in_range<R: IndexRange<usize> + Drop>(
    set: &FixedBitSet,
    range: R,
    steps: &mut Steps,
) -> bool
    requires { IsTrue (over ranges.is_valid set.now (R.start_of range) (R.end_of range)) }
    ensures answer { result ≡ over ranges.contains_any set.now (R.start_of range) (R.end_of range) }
    ensures cost { steps.new ≤ steps.old
        + over (λ _. search_steps) set.now (R.start_of range) (R.end_of range) }
    ensures exact_if_false { IsTrue (not result)
        → steps.new ≡ steps.old
        + over (λ _. search_steps) set.now (R.start_of range) (R.end_of range) }
    ensures exact_if_stopped { let start = start_of (R.start_of range) in
        let end = end_of (R.end_of range) set.now.length in
        IfSome (neighbours.next_one set.now start) (λ p.
        p < end → steps.new ≡ steps.old + search_steps start (min end (word_end p))) }
    ensures stops { IsTrue result → steps.old < steps.new }
{
    let start = range.start().unwrap_or(0);
    let end = range.end().unwrap_or(set.len());
    set.as_bits().contains_any_in_range(start, end, steps)
}
