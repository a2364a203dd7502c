//! The call with a counter: it is the call of that name of the table, with one argument more.

ghost use Rattle.std.specs.Prelude.{◌≡◌, ◌≤◌, ◌↔◌, ◌+◌, ◌*◌, ℕ, min, length};
ghost use Rattle.bitrows.specs.Tables.{HaveSameSize};
ghost use Rattle.bitrows.specs.Paths.{HasEdge, IsConnected, IsPairCount};

use crate::table::BitRows;
use crate::views::RowsMut;
use bitlanes::Steps;

/// [`BitRows::close`], with the joins of two rows that it makes: one for each pair of nodes `a` and
/// `k` with a path from `a` to `k` whose nodes between its ends are all below `k`.
///
/// ```
/// let mut table = BitRows::new(alloc, 2, 2)?;
/// table.set(0, 1, true);
/// counted::close(&mut table, &mut Steps::new());
/// assert!(rt; table.row(0).eq([1]));
/// ```
#[tactic(auto, using(crate::proofs::RowWords::given_back, crate::proofs::RowWords::viewed_rows, crate::proofs::RowWords::viewed_columns))]
pub fn close(table: &mut BitRows, joins: &mut Steps)
    ensures size { HaveSameSize table.old table.new }
    ensures closed { (a b : ℕ) → HasEdge table.new a b ↔ IsConnected (HasEdge table.old) a b }
    ensures cost { (pairs : ℕ) × IsPairCount (HasEdge table.old) (length table.old.rows) pairs
        × (joins.new ≡ joins.old + pairs) }
    ensures bound { joins.new
        ≤ joins.old + length table.old.rows * min (length table.old.rows) table.old.columns }
{
    let (words, rows, columns) = (&mut *table.words.as_mut_slice(), table.rows, table.columns);
    RowsMut {
        words,
        rows,
        columns,
    }
    .close(joins);
}
