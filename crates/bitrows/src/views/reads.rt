//! The rows of a table, and its single bits.

ghost use Rattle.std.specs.Prelude.{◌≡◌, ◌<◌};
ghost use Rattle.bitrows.specs.Tables.{row_of, has};
ghost use Rattle.bitrows.specs.Views.{table};
ghost use Rattle.fixedbitset.specs.Views.{value};

use crate::views::Rows;
use fixedbitset::Bits;
use fixedbitset::views::storage_words;

impl<'a> Rows<'a> {
    /// A row, as a set of `columns` positions. The row has to be one of the table's.
    ///
    /// ```
    /// let mut words = [7; 8];
    /// let mut table = RowsMut::blank(&mut words, 2, 70);
    /// table.set(1, 64, true);
    /// assert!(rt; table.as_rows().row(1).ones().eq([64]));
    /// ```
    #[inline(always)]
    pub fn row(self, row: usize) -> Bits<'a>
        requires { row < self.rows }
        ensures value { value result ≡ row_of (table self.entry) row }
        ensures length { result.length ≡ self.entry.columns }
    {
        let wide = storage_words(self.columns);
        let start = row * wide;
        Bits {
            words: &self.words[start..start + wide],
            length: self.columns,
        }
    }

    /// Whether the row has a bit at the column: `false` past the columns. The row has to
    /// be one of the table's.
    ///
    /// ```
    /// let mut words = [7; 8];
    /// let mut table = RowsMut::blank(&mut words, 2, 70);
    /// table.set(1, 64, true);
    /// assert!(rt; table.as_rows().get(1, 64));
    /// assert!(rt; !table.as_rows().get(0, 64));
    /// ```
    #[inline(always)]
    pub fn get(self, row: usize, column: usize) -> bool
        requires { row < self.rows }
        ensures { result ≡ has (table self.entry) row column }
    {
        self.row(row).contains(column)
    }
}
