//! The table itself: making one, its sizes, single bits, rows, and the closure of a graph.

ghost use Rattle.std.specs.Prelude.{◌≡◌, ◌<◌, ◌↔◌, ℕ, not, All, IsTrue, IfOk, length};
ghost use Rattle.std.specs.Iterator.Runs.{EachRunFrom, ItemsAre, ItemsAreReversed};
ghost use Rattle.bitwords.specs.Walk.{GivesFirst, GivesLast, between_ends};
ghost use Rattle.bitrows.specs.Views.{table};
ghost use Rattle.fixedbitset.specs.Bits.{asc, words};
ghost use Rattle.fixedbitset.specs.TwoSets.{union, is_subset};
ghost use Rattle.bitrows.specs.Tables.{row_of, has, blank, with_row, set_at, HaveSameSize};
ghost use Rattle.bitrows.specs.Paths.{HasEdge, IsConnected};

use crate::counted;
use crate::views::{Rows, RowsMut};
use bitlanes::Steps;
use bitlanes::word::Block;
use bitwalks::walks::Ones;
use fixedbitset::views::storage_words;
use std::alloc::{AllocError, Global};
use std::marker::Model;

/// A table of bits: so many rows of so many columns.
///
/// The rows stand in one row of words. Each keeps the words that its columns need, and up to three
/// more, so that they make whole lanes of four. Two tables are the same value exactly if their
/// numbers of columns, their numbers of rows and their bits are.
#[derive(Debug, Drop)]
pub struct BitRows {
    pub(crate) words: Vec<Block>,
    pub(crate) rows: usize,
    pub(crate) columns: usize,
}

impl Model for BitRows {
    ghost use Rattle.bitrows.specs.Tables.{Table, code};
    ghost use Rattle.bitrows.specs.Stored.{IsTable, table_in};

    ghost Value = { Table };

    ghost coded = { code };

    ghost view = { λ s. table_in s.rows s.columns s.words.items };

    ghost invariant = { λ s. IsTable s.rows s.columns s.words.items };
}

impl BitRows {
    /// A table of `rows` rows and `columns` columns, with no bit. It writes each word once: a row
    /// has `columns / 64` words, rounded up to whole lanes of four.
    ///
    /// `Err` is returned only where the allocation of the words failed. So it is where there would
    /// be more than `usize::MAX` words.
    ///
    /// ```
    /// let table = BitRows::new(alloc, 3, 70)?;
    /// assert_eq!(rt; table.rows(), 3);
    /// assert_eq!(rt; table.columns(), 70);
    /// assert!(rt; !table.get(2, 69));
    /// ```
    pub fn new(alloc: Global, rows: usize, columns: usize) -> Result<BitRows, AllocError>
        ensures { IfOk result (λ table. table ≡ blank rows columns) }
    {
        let Some(count) = rows.checked_mul(storage_words(columns)) else {
            return Err(AllocError);
        };
        Ok(BitRows {
            words: vec![in alloc; 0; count]?,
            rows,
            columns,
        })
    }

    /// How many rows there are.
    ///
    /// ```
    /// let table = BitRows::new(alloc, 3, 70)?;
    /// assert_eq!(rt; table.rows(), 3);
    /// ```
    #[inline]
    pub fn rows(&self) -> usize
        ensures { result ≡ length self.now.rows }
    {
        self.rows
    }

    /// How many columns there are. Each row is a set of this length.
    ///
    /// ```
    /// let table = BitRows::new(alloc, 3, 70)?;
    /// assert_eq!(rt; table.columns(), 70);
    /// ```
    #[inline]
    pub fn columns(&self) -> usize
        ensures count { result ≡ self.now.columns }
        ensures all { All (λ row. row.length ≡ result) self.now.rows }
    {
        self.columns
    }

    /// The table as a view, to be read: no word is copied.
    ///
    /// ```
    /// let table = BitRows::new(alloc, 3, 70)?;
    /// assert!(rt; table.as_rows().row(2).is_clear(&mut Steps::new()));
    /// ```
    #[inline(always)]
    #[tactic(auto, using(crate::proofs::RowWords::viewed_rows, crate::proofs::RowWords::viewed_columns))]
    pub fn as_rows(&self) -> Rows<'_>
        ensures table { table result ≡ self.now }
        ensures rows { result.rows ≡ length self.now.rows }
        ensures columns { result.columns ≡ self.now.columns }
    {
        Rows {
            words: &self.words,
            rows: self.rows,
            columns: self.columns,
        }
    }

    /// Whether the row has a bit at the column: `false` past the rows and past the columns.
    ///
    /// ```
    /// let mut table = BitRows::new(alloc, 3, 70)?;
    /// table.set(1, 69, true);
    /// assert!(rt; table.get(1, 69) && !table.get(2, 69));
    /// assert!(rt; !table.get(1, 500) && !table.get(3, 69));
    /// ```
    #[inline]
    pub fn get(&self, row: usize, column: usize) -> bool
        ensures { result ≡ has self.now row column }
    {
        row < self.rows() && self.as_rows().get(row, column)
    }

    /// Sets the bit of the row at the column, or clears it where `enabled` is false. The table has
    /// to have both. It writes one word.
    ///
    /// ```
    /// let mut table = BitRows::new(alloc, 3, 70)?;
    /// table.set(1, 69, true);
    /// table.set(1, 3, true);
    /// table.set(1, 69, false);
    /// assert!(rt; table.row(1).eq([3]));
    /// ```
    #[inline]
    #[tactic(auto, using(crate::proofs::RowWords::given_back, crate::proofs::RowWords::viewed_rows, crate::proofs::RowWords::viewed_columns))]
    pub fn set(&mut self, row: usize, column: usize, enabled: bool)
        requires row { row < length self.old.rows }
        requires column { column < self.old.columns }
        ensures { self.new ≡ set_at self.old row column enabled }
    {
        let (words, rows, columns) = (&mut *self.words.as_mut_slice(), self.rows, self.columns);
        RowsMut {
            words,
            rows,
            columns,
        }
        .set(row, column, enabled);
    }

    /// Row `into` takes in the bits of row `from`, and the other rows stay. It returns whether a
    /// bit came in. The table has to have both rows; where they are one, nothing changes. It reads
    /// each word of the two rows once.
    ///
    /// ```
    /// let mut table = BitRows::new(alloc, 3, 70)?;
    /// table.set(0, 69, true);
    /// assert!(rt; table.union_rows(0, 2));
    /// assert!(rt; !table.union_rows(0, 2) && !table.union_rows(0, 0));
    /// assert!(rt; table.get(2, 69) && !table.get(1, 69));
    /// ```
    #[inline]
    #[tactic(auto, using(crate::proofs::RowWords::given_back, crate::proofs::RowWords::viewed_rows, crate::proofs::RowWords::viewed_columns))]
    pub fn union_rows(&mut self, from: usize, into: usize) -> bool
        requires from { from < length self.old.rows }
        requires into { into < length self.old.rows }
        ensures value { self.new
            ≡ with_row self.old into (union (row_of self.old into) (row_of self.old from)) }
        ensures changed { result ≡ not (is_subset (row_of self.old from) (row_of self.old into)) }
    {
        let (words, rows, columns) = (&mut *self.words.as_mut_slice(), self.rows, self.columns);
        RowsMut {
            words,
            rows,
            columns,
        }
        .union_rows(from, into)
    }

    /// The columns at which the row has a bit, in ascending order. The row has to be one of the
    /// table's. It does not allocate, and reads the first and the last word that the columns need;
    /// those between are not yet taken.
    ///
    /// ```
    /// let mut table = BitRows::new(alloc, 3, 70)?;
    /// table.set(1, 69, true);
    /// table.set(1, 3, true);
    /// assert!(rt; table.row(1).eq([3, 69]));
    /// ```
    #[inline]
    pub fn row(&self, row: usize) -> Ones<'_>
        requires { row < length self.now.rows }
        ensures items { result.items ≡ asc (row_of self.now row) }
        ensures runs { EachRunFrom GivesFirst result
            (λ run. ItemsAre run (asc (row_of self.now row))) }
        ensures runs_back { EachRunFrom GivesLast result
            (λ run. ItemsAreReversed run (asc (row_of self.now row))) }
        ensures words { result.words ≡ between_ends (words (row_of self.now row)) }
        ensures turns { result.turns ≡ 0 }
        ensures taken { result.taken ≡ 0 }
    {
        Ones::over(self.as_rows().row(row).as_slice())
    }

    /// The transitive closure of the graph that has an edge from each row to each column at which
    /// the row has a bit: afterwards row `a` has a bit at column `b` exactly if some path of one or
    /// more edges led from `a` to `b`.
    ///
    /// Nothing leads on from a column that is no row. It does not allocate. With `n` rows and `m`
    /// columns it looks at `n * min(n, m)` bits, and joins two rows for each bit that it finds set.
    /// [`counted::close`](crate::counted::close) counts these joins.
    ///
    /// ```
    /// let mut table = BitRows::new(alloc, 3, 3)?;
    /// table.set(0, 2, true);
    /// table.set(2, 1, true);
    /// table.close();
    /// assert!(rt; table.row(0).eq([1, 2]));
    /// assert!(rt; table.get(2, 1) && !table.get(1, 0));
    /// ```
    pub fn close(&mut self)
        ensures size { HaveSameSize self.old self.new }
        ensures closed { (a b : ℕ) → HasEdge self.new a b ↔ IsConnected (HasEdge self.old) a b }
    {
        counted::close(self, &mut Steps::new());
    }
}
