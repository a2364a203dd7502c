//! Laws of a set that lies in pieces, as on several servers. Each function does nothing, and
//! its contract is a law.
//!
//! Cuts are positions in ascending order. The pieces are the slices from 0 to the first
//! cut, from each cut to the next, and from the last one to the length. Between two equal
//! cuts lies an empty piece.

ghost use Rattle.std.specs.Prelude.{true};
ghost use Rattle.fixedbitset.specs.Bits.{empty, insert, remove, toggle, is_clear};
ghost use Rattle.fixedbitset.specs.TwoSets.{union, intersection, difference, symmetric_difference};
ghost use Rattle.fixedbitset.specs.TwoSets.{union_count, intersection_count, difference_count};
ghost use Rattle.fixedbitset.specs.TwoSets.{symmetric_difference_count, is_subset, is_disjoint};
ghost use Rattle.bitlaws.specs.SetLaws.{size};
ghost use Rattle.bitlaws.specs.PieceLaws.{PiecesAreTheSet, AnySetsArePieces, JoinsByPieces};
ghost use Rattle.bitlaws.specs.PieceLaws.{CountsByPieces, TestsByPieces, SizeByPieces};
ghost use Rattle.bitlaws.specs.PieceLaws.{InOnePiece, MembersByPieces, ChangesByPieces};
ghost use Rattle.bitlaws.specs.PieceLaws.{AscendingByPieces, MinimumByPieces};
ghost use Rattle.bitlaws.specs.PieceLaws.{MaximumByPieces, MissingIsEmpty, WithNothing};

/// The pieces of a set, appended in order, are that set. And any sets are the pieces of what
/// they make when appended.
///
/// ```
/// let set = FixedBitSet::from_iter(alloc, [3, 64])?;
/// assert_eq!(rt; set.len(), 65);
/// let (mut low, high) = (set.slice(alloc, ..40)?, set.slice(alloc, 40..)?);
/// assert!(rt; low.len() == 40 && high.len() == 25);
/// low.append(&high)?;
/// pieces::pieces_are_the_set();
/// assert!(rt; low == set);
/// ```
pub fn pieces_are_the_set()
    ensures together { PiecesAreTheSet }
    ensures any { AnySetsArePieces }
{}

/// Two sets of any lengths are joined piece by piece: the pieces of the joined set are the
/// pieces of the two, joined.
///
/// ```
/// let set = FixedBitSet::from_iter(alloc, [3, 64])?;
/// let other = FixedBitSet::from_iter(alloc, [9, 64])?;
/// assert!(rt; set.len() == 65 && other.len() == 65);
/// let low = set.slice(alloc, ..40)?.bitor(&other.slice(alloc, ..40)?)?;
/// pieces::joins_by_pieces();
/// assert!(rt; low.ones().eq([3, 9]));
/// ```
pub fn joins_by_pieces()
    ensures union { JoinsByPieces union }
    ensures intersection { JoinsByPieces intersection }
    ensures difference { JoinsByPieces difference }
    ensures symmetric_difference { JoinsByPieces symmetric_difference }
{}

/// Counts are sums over the pieces: how many positions are set, and the counts over
/// two sets of any lengths.
///
/// ```
/// let set = FixedBitSet::from_iter(alloc, [3, 9, 64])?;
/// assert_eq!(rt; set.len(), 65);
/// let (low, high) = (set.slice(alloc, ..40)?, set.slice(alloc, 40..)?);
/// pieces::counts_by_pieces();
/// assert!(rt; low.count_ones(..) == 2 && high.count_ones(..) == 1);
/// ```
pub fn counts_by_pieces()
    ensures ones { SizeByPieces }
    ensures union { CountsByPieces union_count }
    ensures intersection { CountsByPieces intersection_count }
    ensures difference { CountsByPieces difference_count }
    ensures symmetric_difference { CountsByPieces symmetric_difference_count }
{}

/// A set is a subset of another one exactly if each of its pieces is a subset of the other's piece.
/// They are disjoint exactly if the two pieces are at each place. Their lengths may be any.
///
/// ```
/// let set = FixedBitSet::from_iter(alloc, [3, 64])?;
/// let other = FixedBitSet::from_iter(alloc, [9, 64])?;
/// assert!(rt; set.len() == 65 && other.len() == 65);
/// let (high, others) = (set.slice(alloc, 40..)?, other.slice(alloc, 40..)?);
/// pieces::tests_by_pieces();
/// assert!(rt; !high.is_disjoint(&others) && !set.is_disjoint(&other));
/// ```
pub fn tests_by_pieces()
    ensures subset { TestsByPieces is_subset }
    ensures disjoint { TestsByPieces is_disjoint }
{}

/// A position lies in one piece. It is in the set exactly if, less the start of that
/// piece, it is in that piece.
///
/// ```
/// let set = FixedBitSet::from_iter(alloc, [3, 64])?;
/// assert_eq!(rt; set.len(), 65);
/// let high = set.slice(alloc, 40..)?;
/// pieces::members_by_pieces();
/// assert!(rt; set.contains(64) && high.contains(64 - 40));
/// ```
pub fn members_by_pieces()
    ensures one { InOnePiece }
    ensures same { MembersByPieces }
{}

/// A change of one position is made in the piece in which it lies, less the start of that piece.
/// The other pieces stay.
///
/// ```
/// let mut set = FixedBitSet::with_capacity(alloc, 65)?;
/// let mut high = set.slice(alloc, 40..)?;
/// assert_eq!(rt; high.len(), 25);
/// set.insert(64);
/// high.insert(64 - 40);
/// pieces::changes_by_pieces();
/// assert!(rt; high == set.slice(alloc, 40..)?);
/// ```
pub fn changes_by_pieces()
    ensures insert { ChangesByPieces insert }
    ensures remove { ChangesByPieces remove }
    ensures toggle { ChangesByPieces toggle }
{}

/// The positions in ascending order are those of the pieces in order, each moved up by the start
/// of its piece. So `minimum` is that of the first piece that has one, and `maximum` that of the
/// last piece that has one.
///
/// ```
/// let set = FixedBitSet::from_iter(alloc, [49, 64])?;
/// assert_eq!(rt; set.len(), 65);
/// let (low, high) = (set.slice(alloc, ..40)?, set.slice(alloc, 40..)?);
/// pieces::order_by_pieces();
/// assert!(rt; low.minimum() == None && high.minimum() == Some(49 - 40));
/// ```
pub fn order_by_pieces()
    ensures ascending { AscendingByPieces }
    ensures minimum { MinimumByPieces }
    ensures maximum { MaximumByPieces }
{}

/// A piece in which no position is set is the empty set of its length, so it need not be kept. With
/// it joins, counts and tests return what the other piece alone tells.
///
/// ```
/// let set = FixedBitSet::from_iter(alloc, [3, 64])?;
/// assert_eq!(rt; set.len(), 65);
/// let middle = set.slice(alloc, 9..40)?;
/// pieces::missing_pieces();
/// assert!(rt; middle == FixedBitSet::with_capacity(alloc, 31)?);
/// ```
pub fn missing_pieces()
    ensures empty { MissingIsEmpty }
    ensures union { WithNothing union (λ v. v) (λ v. v) }
    ensures intersection { WithNothing intersection (λ v. empty v.length) (λ v. empty v.length) }
    ensures difference { WithNothing difference (λ v. v) (λ v. empty v.length) }
    ensures symmetric_difference { WithNothing symmetric_difference (λ v. v) (λ v. v) }
    ensures union_count { WithNothing union_count size size }
    ensures intersection_count { WithNothing intersection_count (λ v. 0) (λ v. 0) }
    ensures difference_count { WithNothing difference_count size (λ v. 0) }
    ensures symmetric_difference_count { WithNothing symmetric_difference_count size size }
    ensures subset { WithNothing is_subset is_clear (λ v. true) }
    ensures disjoint { WithNothing is_disjoint (λ v. true) (λ v. true) }
{}
