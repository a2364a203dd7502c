//! Tables of bits: rows of one length, in words of the caller's.
//!
//! A table is the struct `bits_rows` of `front/c/bits.h`: here `bitrows::Rows` where it is read,
//! and `bitrows::RowsMut` where it is changed. Each row keeps as many words as a set of `columns`
//! positions, one row after the other. `bits_rows_clear` makes any words those of a table with no
//! bit.

ghost use Rattle.std.specs.Prelude.{◌≡◌, ◌<◌, ◌≤◌, ◌*◌, ◌^◌, ◌↔◌, ◌&&◌, ℕ, [], ◌==◌};
ghost use Rattle.std.specs.Prelude.{nat_lt, true, false, not, if◌then◌else◌, length};
ghost use Rattle.bitrows.specs.Paths.{HasEdge, IsConnected};
ghost use Rattle.bitrows.specs.Stored.{IsTable, table_in};
ghost use Rattle.bitrows.specs.Tables.{row_of, has, blank, with_row, set_at, HaveSameSize};
ghost use Rattle.bitrows.specs.Views.{table, held};
ghost use Rattle.bits_c.specs.Walks.{ones_left, words_between};
ghost use Rattle.fixedbitset.specs.Bits.{asc, storage_words};
ghost use Rattle.fixedbitset.specs.TwoSets.{union, is_subset};

use crate::structs::Ones;
use crate::{NONE, bits_words};
use bitlanes::{Block, Steps};
use bitrows::{Rows, RowsMut};
use bitwords::cursors::{Cursor, Plain};

/// Returns how many words a table of this many rows and columns has, or `NONE` if that number does
/// not fit in a `usize`.
#[unsafe(no_mangle)]
pub extern "C" fn bits_rows_words(rows: usize, columns: usize) -> usize
    ensures words { rows * storage_words columns < 2 ^ 64
        → result ≡ rows * storage_words columns }
    ensures none { 2 ^ 64 ≤ rows * storage_words columns → result ≡ NONE }
{
    rows.checked_mul(bits_words(columns)).unwrap_or(NONE)
}

/// Turns any words into the words of a table of this many rows and columns with no bit set, and
/// returns `true`; returns `false` and changes nothing if `count` is not `bits_rows_words(rows,
/// columns)`. Words that are all zeros are already the words of such a table.
#[unsafe(no_mangle)]
pub extern "C" fn bits_rows_clear(words: &mut [Block], rows: usize, columns: usize) -> bool
    ensures answer { result ≡ (length words.old == rows * storage_words columns) }
    ensures clean { result ≡ true → IsTable rows columns words.new }
    ensures value { result ≡ true → table_in rows columns words.new ≡ blank rows columns }
    ensures stays { result ≡ false → words.new ≡ words.old }
{
    if words.len() == bits_rows_words(rows, columns) {
        RowsMut::blank(words, rows, columns);
        true
    } else {
        false
    }
}

/// Returns whether the row has a bit at the column; `false` if the row or the column is out of
/// range.
#[tactic(auto, using(crate::proofs::Tables::none_past))]
#[unsafe(no_mangle)]
pub extern "C" fn bits_rows_get(rows: &Rows<'_>, row: usize, column: usize) -> bool
    ensures { result ≡ has (table rows.now) row column }
{
    if row < rows.rows {
        rows.get(row, column)
    } else {
        false
    }
}

/// Sets the bit of the row at the column, or clears it if `enabled` is `false`, and returns `true`;
/// returns `false` and changes nothing if the row or the column is out of range.
#[unsafe(no_mangle)]
pub extern "C" fn bits_rows_set(
    rows: &mut RowsMut<'_>,
    row: usize,
    column: usize,
    enabled: bool,
) -> bool
    ensures answer { result ≡ (nat_lt row rows.old.rows && nat_lt column rows.old.columns) }
    ensures value { held rows.new
        ≡ (if result then set_at (held rows.old) row column enabled else held rows.old) }
    ensures same { rows.new.words.ghost_name ≡ rows.old.words.ghost_name }
{
    if row < rows.rows && column < rows.columns {
        rows.set(row, column, enabled);
        true
    } else {
        false
    }
}

/// Adds the bits of row `from` to row `into`, writes to `changed` whether a bit was added, and
/// returns `true`. Returns `false`, changes nothing, and writes nothing to `changed`, if a row is
/// out of range.
#[unsafe(no_mangle)]
pub extern "C" fn bits_rows_union(
    rows: &mut RowsMut<'_>,
    from: usize,
    into: usize,
    changed: &mut bool,
) -> bool
    ensures answer { result ≡ (nat_lt from rows.old.rows && nat_lt into rows.old.rows) }
    ensures value { held rows.new ≡ (if result
        then with_row (held rows.old) into
        (union (row_of (held rows.old) into) (row_of (held rows.old) from))
        else held rows.old) }
    ensures changed { changed.new ≡ (if result
        then not (is_subset (row_of (held rows.old) from) (row_of (held rows.old) into))
        else changed.old) }
    ensures same { rows.new.words.ghost_name ≡ rows.old.words.ghost_name }
{
    if from < rows.rows && into < rows.rows {
        *changed = rows.union_rows(from, into);
        true
    } else {
        false
    }
}

/// Initializes the iterator over the columns at which the row has a bit, in ascending order, and
/// returns `true`; `bits_ones_next` and `bits_ones_next_back` return the columns. Returns `false`
/// if the row is out of range; the iterator is then empty.
#[unsafe(no_mangle)]
pub extern "C" fn bits_rows_ones<'a>(walk: &mut Ones<'a>, rows: &Rows<'a>, row: usize) -> bool
    ensures answer { result ≡ nat_lt row rows.now.rows }
    ensures left { ones_left walk.new
        ≡ (if result then asc (row_of (table rows.now) row) else []) }
    ensures words { length walk.new.words.now
        ≡ (if result then words_between rows.now.columns else 0) }
{
    if row < rows.rows {
        *walk = Ones::of(rows.row(row).ones());
        true
    } else {
        *walk = Ones::of(Cursor::over(Plain { words: [].iter() }));
        false
    }
}

/// Replaces the table by the transitive closure of the graph with an edge from each row to each
/// column at which the row has a bit: afterwards row `a` has a bit at column `b` if and only if
/// some path of one or more edges led from `a` to `b`.
#[unsafe(no_mangle)]
pub extern "C" fn bits_rows_close(rows: &mut RowsMut<'_>)
    ensures size { HaveSameSize (held rows.old) (held rows.new) }
    ensures closed { (a b : ℕ) → HasEdge (held rows.new) a b
        ↔ IsConnected (HasEdge (held rows.old)) a b }
    ensures same { rows.new.words.ghost_name ≡ rows.old.words.ghost_name }
{
    rows.close(&mut Steps::new());
}
