//! Each function here does nothing: its contract is a law, which holds for all values.

ghost use Rattle.bitlaws.specs.AscendingLaws.{OneAscendingList};
ghost use Rattle.bitlaws.specs.FlowLaws.{SolvesByComplement, GreatestByComplement};
ghost use Rattle.bitlaws.specs.JoinLaws.{Commutes, Associates, IsIdempotent};
ghost use Rattle.bitlaws.specs.JoinLaws.{Absorbs, Distributes, IntersectionIsBitand};
ghost use Rattle.bitlaws.specs.JoinLaws.{SubsetOfItself, SubsetThrough, SameSubsets};
ghost use Rattle.bitlaws.specs.JoinLaws.{UnionIsLeast, IntersectionIsGreatest};
ghost use Rattle.bitlaws.specs.JoinLaws.{ComplementTwice, ComplementOfUnion};
ghost use Rattle.bitlaws.specs.JoinLaws.{ComplementOfIntersection, DifferenceByComplement};
ghost use Rattle.bitlaws.specs.JsonLaws.{FormTells, WrittenReadsBack, TextIsExact};
ghost use Rattle.bitlaws.specs.JsonLaws.{HasWholeNumbers, NestsTwice};
ghost use Rattle.bitlaws.specs.OrderLaws.{EqualTells, CompareTells};
ghost use Rattle.bitlaws.specs.OrderLaws.{MinimumIsLeast, MaximumIsGreatest};
ghost use Rattle.bitlaws.specs.RangeLaws.{WordsOfRange, NumberOfRangeWords, RangeWordsBound};
ghost use Rattle.bitlaws.specs.RangeLaws.{SearchBound, TogglingTwice, RangeCountsAddUp};
ghost use Rattle.bitlaws.specs.RangeLaws.{IsValidTells, ContainsAllTells, ContainsAnyTells};
ghost use Rattle.bitlaws.specs.RunLaws.{RunsAreTheSet, ZeroRunsAreTheOthers, RoomTells, GapIsLeast};
ghost use Rattle.bitlaws.specs.RunLaws.{AlignedGapIsLeast};
ghost use Rattle.bitlaws.specs.SetLaws.{ClearHasNone, FullHasAll, InsertAddsOne, InsertKeeps};
ghost use Rattle.bitlaws.specs.SetLaws.{RemoveTakesOne, RemoveKeeps, WordsReadBack};
ghost use Rattle.bitlaws.specs.SetLaws.{StoredReadsBack, LoadedStays};
ghost use Rattle.bitlaws.specs.TwoSetLaws.{CountsAddUp, SymmetricDifferenceIsSum};
ghost use Rattle.bitlaws.specs.TwoSetLaws.{SubsetBothWays, IsSubsetTells};
ghost use Rattle.bitlaws.specs.TwoSetLaws.{IsDisjointTells, StepsBound, WholeStepsBound};
ghost use Rattle.bitlaws.specs.TwoSetLaws.{PartsBound, NextCommonBound};
ghost use Rattle.bitlaws.specs.TwoSetLaws.{MovedStepsBound, CopyStepsBound, StepsOfEqual};
ghost use Rattle.bitlaws.specs.WalkLaws.{PartsAreTheList, TurnsOfCalls};
ghost use Rattle.bitlaws.specs.WalkLaws.{LooksUpOnce, JoinsOnce, SplitsOnce};
ghost use Rattle.bitwords.specs.Walk.{GivesFirst, GivesLast};
ghost use Rattle.fixedbitset.specs.TwoSets.{union, symmetric_difference, intersection, bitand};
ghost use Rattle.bitwalks.specs.Pairs.{SievesFirst, SievesLast, joined_items, JoinsFirst};
ghost use Rattle.bitwalks.specs.Pairs.{JoinsLast, split_items, SplitsFirst, SplitsLast};

/// The ascending list of a set's positions is strictly ascending and has them all and no other, and
/// every list that is so is this one.
///
/// ```
/// let set = FixedBitSet::from_iter(alloc, [64, 3, 9])?;
/// laws::one_ascending_list();
/// assert!(rt; set.ones().eq([3, 9, 64]));
/// ```
pub fn one_ascending_list()
    ensures { OneAscendingList }
{}

/// The value of the words of a set is that set.
///
/// ```
/// let set = FixedBitSet::from_iter(alloc, [3, 64])?;
/// let words = set.as_slice().iter().copied();
/// laws::words_read_back();
/// let again = FixedBitSet::with_capacity_and_blocks(alloc, set.len(), words)?;
/// assert!(rt; again == set);
/// ```
pub fn words_read_back()
    ensures { WordsReadBack }
{}

/// A number that `store` writes is read by `load`, without the bits that have no place; and what
/// `load` reads, written there again, changes nothing.
///
/// ```
/// let mut set = FixedBitSet::with_capacity(alloc, 70)?;
/// laws::numbers_read_back();
/// set.store(62, 4, 21);
/// assert_eq!(rt; set.load(62, 4), 5);
/// ```
pub fn numbers_read_back()
    ensures stored { StoredReadsBack }
    ensures loaded { LoadedStays }
{}

/// The runs that `runs` and `zero_runs` return are the set. Each position of a run is set, or
/// clear; none between two runs is, and at least one position lies between them.
///
/// ```
/// let set = FixedBitSet::from_iter(alloc, [3, 4, 9])?;
/// laws::runs_are_the_set();
/// assert!(rt; set.runs().eq([(3, 5), (9, 10)]));
/// ```
pub fn runs_are_the_set()
    ensures ones { RunsAreTheSet }
    ensures zeroes { ZeroRunsAreTheOthers }
{}

/// `first_gap` returns the least number with room, and `None` exactly where no number has room.
/// There is room where the positions are below the length and none of them is set. So does
/// `first_aligned_gap` among the multiples.
///
/// ```
/// let set = FixedBitSet::from_iter(alloc, [3, 4, 9])?;
/// laws::first_gap_is_least();
/// assert_eq!(rt; set.first_gap(4, 0), Some(5));
/// ```
pub fn first_gap_is_least()
    ensures room { RoomTells }
    ensures least { GapIsLeast }
    ensures aligned { AlignedGapIsLeast }
{}

/// Which JSON values are in the form, and which error the others have. It is the first of these
/// that applies, in the order of `JsonFault`.
///
/// ```
/// let value = Value::from_str(alloc, "{\"length\":-1,\"data\":[256]}")?;
/// laws::one_form();
/// assert_eq!(rt; FixedBitSet::check_value(&value), Err(JsonFault::Length));
/// ```
pub fn one_form()
    ensures { FormTells }
{}

/// What is written of a set as JSON is in the form and means that set.
///
/// ```
/// let set = FixedBitSet::from_iter(alloc, [3, 64])?;
/// let value = set.to_value(alloc)?;
/// laws::reads_back();
/// let again = FixedBitSet::from_value(alloc, &value)?;
/// prove!(again == set);
/// ```
pub fn reads_back()
    ensures { WrittenReadsBack }
{}

/// The text of what is written of a set as JSON, without spaces and byte for byte. All its numbers
/// are whole and it nests twice: with these two facts `to_string` of `serde_json` writes this very
/// text, and it is read as what was written.
///
/// ```
/// let set = FixedBitSet::from_iter(alloc, [2, 9])?;
/// laws::json_text();
/// let text = set.to_value(alloc)?.to_string(alloc)?;
/// assert_eq!(rt; text.as_str(), "{\"data\":[4,2,0,0,0,0,0,0],\"length\":10}");
/// ```
pub fn json_text()
    ensures text { TextIsExact }
    ensures whole { HasWholeNumbers }
    ensures nests { NestsTwice }
{}

/// A set is clear exactly if it has no position, and full exactly if it has as many as its length.
///
/// ```
/// let set = FixedBitSet::from_iter(alloc, [3, 64])?;
/// laws::none_and_all();
/// prove!(set.is_clear() == (set.count_ones(..) == 0));
/// prove!(set.is_full() == (set.count_ones(..) == set.len()));
/// ```
pub fn none_and_all()
    ensures clear { ClearHasNone }
    ensures full { FullHasAll }
{}

/// Setting a position that was not set makes one more, and clearing one that was set makes one
/// fewer. Setting one that is set, and clearing one that is not, changes nothing.
///
/// ```
/// let mut set = FixedBitSet::with_capacity(alloc, 70)?;
/// let before = set.count_ones(..);
/// assert!(rt; !set.put(64));
/// laws::one_more_or_fewer();
/// prove!(set.count_ones(..) == before + 1);
/// ```
pub fn one_more_or_fewer()
    ensures insert { InsertAddsOne }
    ensures insert_again { InsertKeeps }
    ensures remove { RemoveTakesOne }
    ensures remove_again { RemoveKeeps }
{}

/// The words that hold a position of a range are those from the word of its start up to
/// that of its last position, and their number is `range_words`, the steps of a change or
/// a count of that range.
///
/// ```
/// let mut set = FixedBitSet::with_capacity(alloc, 200)?;
/// set.insert_range(63..129);
/// laws::words_of_range();
/// let words = set.as_slice().iter().filter(|word| **word != 0).count();
/// assert_eq!(rt; words, 3);
/// ```
pub fn words_of_range()
    ensures between { WordsOfRange }
    ensures number { NumberOfRangeWords }
{}

/// A change or a count of a range takes at most `(end - start) / 64 + 2` steps, and a
/// search no more than these.
///
/// ```
/// let mut set = FixedBitSet::with_capacity(alloc, 200)?;
/// set.insert_range(63..129);
/// laws::steps_of_range();
/// let words = set.as_slice().iter().filter(|word| **word != 0).count();
/// assert!(rt; words <= (129 - 63) / 64 + 2);
/// ```
pub fn steps_of_range()
    ensures words { RangeWordsBound }
    ensures search { SearchBound }
{}

/// Toggling a range is an involution: twice, it leaves the value as it was.
///
/// ```
/// let mut set = FixedBitSet::from_iter(alloc, [3, 64])?;
/// let before = set.clone()?;
/// set.toggle_range(..);
/// set.toggle_range(..);
/// laws::toggling_twice();
/// prove!(set == before);
/// ```
pub fn toggling_twice()
    ensures { TogglingTwice }
{}

/// Of the positions of a range those that are set and those that are not add up to
/// the length of the range.
///
/// ```
/// let mut set = FixedBitSet::with_capacity(alloc, 70)?;
/// set.insert(64);
/// assert_eq!(rt; set.count_ones(60..), 1);
/// laws::counts_of_range_add_up();
/// prove!(set.count_zeroes(60..) == 9);
/// ```
pub fn counts_of_range_add_up()
    ensures { RangeCountsAddUp }
{}

/// What the tests of a range say of each of its positions.
///
/// ```
/// let mut set = FixedBitSet::with_capacity(alloc, 70)?;
/// set.insert_range(60..66);
/// assert!(rt; set.contains_all_in_range(60..66));
/// laws::tests_of_range();
/// prove!(set.contains(64));
/// ```
pub fn tests_of_range()
    ensures valid { IsValidTells }
    ensures all { ContainsAllTells }
    ensures any { ContainsAnyTells }
{}

/// Inclusion-exclusion: the positions of either set and those of both, counted, are as many as
/// those of the two sets.
///
/// ```
/// let set = FixedBitSet::from_iter(alloc, [1, 3])?;
/// let other = FixedBitSet::from_iter(alloc, [3, 64])?;
/// assert!(rt; set.count_ones(..) == 2 && other.count_ones(..) == 2);
/// assert_eq!(rt; set.intersection_count(&other), 1);
/// laws::counts_add_up();
/// prove_eq!(set.union_count(&other), 3);
/// ```
pub fn counts_add_up()
    ensures { CountsAddUp }
{}

/// The positions of exactly one of two sets are those that the second lacks and
/// those that the first lacks.
///
/// ```
/// let set = FixedBitSet::from_iter(alloc, [1, 3])?;
/// let other = FixedBitSet::from_iter(alloc, [3, 64])?;
/// laws::symmetric_difference_count_is_a_sum();
/// let count = set.symmetric_difference_count(&other);
/// prove!(count == set.difference_count(&other) + other.difference_count(&set));
/// ```
pub fn symmetric_difference_count_is_a_sum()
    ensures { SymmetricDifferenceIsSum }
{}

/// Each of two sets is a subset of the other exactly if they have the same positions,
/// whatever their lengths.
///
/// ```
/// let set = FixedBitSet::from_iter(alloc, [1, 3])?;
/// let mut longer = set.clone()?;
/// longer.grow(200)?;
/// laws::subset_both_ways();
/// assert!(rt; set.is_subset(&longer) && longer.is_subset(&set));
/// ```
pub fn subset_both_ways()
    ensures { SubsetBothWays }
{}

/// What the comparisons of two sets say of each position.
///
/// ```
/// let set = FixedBitSet::from_iter(alloc, [3, 64])?;
/// let other = FixedBitSet::from_iter(alloc, [3, 64, 200])?;
/// assert!(rt; set.contains(64) && set.is_subset(&other));
/// laws::tests_of_two_sets();
/// prove!(other.contains(64));
/// ```
pub fn tests_of_two_sets()
    ensures subset { IsSubsetTells }
    ensures disjoint { IsDisjointTells }
{}

/// With `m` words that both lengths need and `t` that only the longer needs, a join, a count or a
/// test of two sets takes at most `m / 4 + 3` steps for the first and `t / 4 + 3` for the second,
/// and `next_common` none for the second. A shifted join, `append` and `copy_range` take at most
/// the sum of both. Over as many words, `m` each, a join, a count or a test that nothing stops
/// takes exactly `m / 4`, rounded up.
///
/// ```
/// let mut set = FixedBitSet::with_capacity(alloc, 448)?;
/// let other = FixedBitSet::from_iter(alloc, [447])?;
/// laws::steps_of_two_sets();
/// counted::union_with(&mut set, &other, &mut Steps::new())?;
/// assert_eq!(rt; set.as_slice().len().div_ceil(4), 2);
/// ```
pub fn steps_of_two_sets()
    ensures bound { StepsBound }
    ensures parts { PartsBound }
    ensures next_common { NextCommonBound }
    ensures whole { WholeStepsBound }
    ensures moved { MovedStepsBound }
    ensures copied { CopyStepsBound }
    ensures equal { StepsOfEqual }
{}

/// Whatever calls were made of an iterator from its two ends: the items that came from the front,
/// then those left, then those that came from the back, reversed, are the items that it had. It
/// holds of each iterator over one set and over two.
///
/// ```
/// let set = FixedBitSet::from_iter(alloc, [3, 9, 64, 70])?;
/// let mut walk = set.ones();
/// assert!(rt; walk.next() == Some(3) && walk.next_back() == Some(70));
/// laws::parts_are_the_list();
/// assert!(rt; walk.eq([9, 64]));
/// ```
pub fn parts_are_the_list()
    ensures of_one { PartsAreTheList (λ walk. walk.items) GivesFirst GivesLast }
    ensures of_sieved { PartsAreTheList (λ sieved. sieved.items) SievesFirst SievesLast }
    ensures of_joined { PartsAreTheList joined_items JoinsFirst JoinsLast }
    ensures of_split { PartsAreTheList split_items SplitsFirst SplitsLast }
{}

/// What calls of an iterator cost, in any order from its two ends. Calls of an iterator over one
/// set make exactly one turn each, and one more for each word that they take, each word once at
/// most. An iterator over two sets looks up each item that a source gave exactly once; `c` calls of
/// it make its sources take at most `2 c` turns, one for each item and one for each word.
///
/// ```
/// let set = FixedBitSet::from_iter(alloc, [3, 70])?;
/// let other = FixedBitSet::from_iter(alloc, [70, 200])?;
/// laws::turns_of_calls();
/// assert!(rt; set.intersection(&other).eq([70]));
/// ```
pub fn turns_of_calls()
    ensures of_one { TurnsOfCalls }
    ensures of_sieved { LooksUpOnce }
    ensures of_joined { JoinsOnce }
    ensures of_split { SplitsOnce }
{}

/// `union`, `symmetric_difference` and `bitand` of sets of any lengths are commutative; these and
/// `intersection` are associative, and all but `symmetric_difference` are idempotent.
/// `intersection` keeps the length of its first set, so it is `bitand` only where that is the
/// shorter one.
///
/// ```
/// let set = FixedBitSet::from_iter(alloc, [3, 64])?;
/// let other = FixedBitSet::from_iter(alloc, [3, 64, 200])?;
/// laws::joins_in_any_order();
/// let (one, same) = (set.bitor(&other)?, other.bitor(&set)?);
/// prove!(one == same);
/// ```
pub fn joins_in_any_order()
    ensures union_commutes { Commutes union }
    ensures symmetric_difference_commutes { Commutes symmetric_difference }
    ensures bitand_commutes { Commutes bitand }
    ensures union_associates { Associates union }
    ensures symmetric_difference_associates { Associates symmetric_difference }
    ensures intersection_associates { Associates intersection }
    ensures bitand_associates { Associates bitand }
    ensures union_idempotent { IsIdempotent union }
    ensures intersection_idempotent { IsIdempotent intersection }
    ensures bitand_idempotent { IsIdempotent bitand }
    ensures is_bitand { IntersectionIsBitand }
{}

/// The absorption laws of union and intersection, for sets of any lengths, and each is distributive
/// over the other.
///
/// ```
/// let mut set = FixedBitSet::from_iter(alloc, [3, 64])?;
/// let other = FixedBitSet::from_iter(alloc, [9])?;
/// let joined = set.bitor(&other)?;
/// laws::joins_of_joins();
/// set.intersect_with(&joined);
/// assert!(rt; set.ones().eq([3, 64]));
/// ```
pub fn joins_of_joins()
    ensures intersection_absorbs { Absorbs intersection union }
    ensures union_absorbs { Absorbs union intersection }
    ensures intersection_distributes { Distributes intersection union }
    ensures union_distributes { Distributes union intersection }
{}

/// Subsets are a partial order: reflexive and transitive, and antisymmetric for two sets of one
/// length. The union is the least upper bound of two sets, and the intersection the greatest lower
/// bound.
///
/// ```
/// let set = FixedBitSet::from_iter(alloc, [3, 64])?;
/// let other = FixedBitSet::from_iter(alloc, [9])?;
/// laws::subsets_are_ordered();
/// let joined = set.bitor(&other)?;
/// prove!(set.is_subset(&joined));
/// ```
pub fn subsets_are_ordered()
    ensures of_itself { SubsetOfItself }
    ensures through { SubsetThrough }
    ensures same { SameSubsets }
    ensures union_is_least { UnionIsLeast }
    ensures intersection_is_greatest { IntersectionIsGreatest }
{}

/// The complement of a set has the positions below its length that are not set, and is an
/// involution. De Morgan's laws hold of two sets of one length, and the difference is the
/// intersection of the first set with the complement of a second that is no shorter.
///
/// ```
/// let set = FixedBitSet::from_iter(alloc, [3, 5])?;
/// laws::complements();
/// assert!(rt; set.zeroes().eq([0, 1, 2, 4]));
/// ```
pub fn complements()
    ensures twice { ComplementTwice }
    ensures of_union { ComplementOfUnion }
    ensures of_intersection { ComplementOfIntersection }
    ensures difference { DifferenceByComplement }
{}

/// `==` is true exactly if lengths and positions are the same, and `cmp` returns by them which of
/// two sets comes first.
///
/// ```
/// let set = FixedBitSet::from_iter(alloc, [3, 64])?;
/// let other = FixedBitSet::from_iter(alloc, [9, 64])?;
/// laws::order_tells();
/// assert!(rt; set != other && set < other);
/// ```
pub fn order_tells()
    ensures equal { EqualTells }
    ensures compare { CompareTells }
{}

/// `minimum` and `maximum` return a position exactly if it is set and no other is less, or greater.
///
/// ```
/// let set = FixedBitSet::from_iter(alloc, [3, 9, 64])?;
/// laws::ends_of_a_set();
/// assert!(rt; set.minimum() == Some(3) && set.maximum() == Some(64));
/// ```
pub fn ends_of_a_set()
    ensures minimum { MinimumIsLeast }
    ensures maximum { MaximumIsGreatest }
{}

/// A data-flow problem over all paths, as available expressions are: ask the solver for the facts
/// that are lost on some path, where a node generates what it kills and does not generate, and
/// kills what it generates. The complements of the solution are the greatest solution over all
/// paths.
///
/// ```
/// let none = FixedBitSet::with_capacity(alloc, 1)?;
/// let one = FixedBitSet::from_iter(alloc, [0])?;
/// let gens = [one.clone()?, none.clone()?];
/// let lost = [none, one];
/// laws::greatest_by_complement();
/// let found = flow::solve(alloc, 1, &[(0, 1)], &lost, &gens, &mut Steps::new())?;
/// assert!(rt; found.outs.iter().map(|set| !set.contains(0)).eq([true, false]));
/// ```
pub fn greatest_by_complement()
    ensures solves { SolvesByComplement }
    ensures greatest { GreatestByComplement }
{}
