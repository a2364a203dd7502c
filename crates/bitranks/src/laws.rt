//! Each function here does nothing: its contract is a law, which holds for all values.

ghost use Rattle.bitranks.specs.RankLaws.{RankOfSelect, SelectOfRank};
ghost use Rattle.bitranks.specs.RankLaws.{SelectEnds, RankGrows, RankIsSize};

/// As many positions stand below the one that `select` returns as its index says, and `None` is
/// returned exactly where the set has no more positions than that.
///
/// ```
/// let set = FixedBitSet::from_iter(alloc, [3, 64])?;
/// let ranks = Ranks::of(alloc, &set)?;
/// let first = ranks.select(1).unwrap_or(0);
/// bitranks::laws::rank_of_select();
/// assert_eq!(rt; ranks.rank(first), 1);
/// ```
pub fn rank_of_select()
    ensures rank { RankOfSelect }
    ensures none { SelectEnds }
{}

/// The position of the set with as many positions below it as a position of
/// the set is that position.
///
/// ```
/// let set = FixedBitSet::from_iter(alloc, [3, 64])?;
/// let ranks = Ranks::of(alloc, &set)?;
/// bitranks::laws::select_of_rank();
/// assert_eq!(rt; ranks.select(ranks.rank(64)), Some(64));
/// ```
pub fn select_of_rank()
    ensures { SelectOfRank }
{}

/// The rank is monotone in the position, and from the length on it is how many positions the set
/// has.
///
/// ```
/// let set = FixedBitSet::from_iter(alloc, [3, 64])?;
/// let ranks = Ranks::of(alloc, &set)?;
/// bitranks::laws::rank_grows();
/// prove!(ranks.rank(9) <= ranks.rank(10));
/// ```
pub fn rank_grows()
    ensures grows { RankGrows }
    ensures size { RankIsSize }
{}
