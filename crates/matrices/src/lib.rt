//! Matrices as lists of rows: what is tested of them, and how their entries are read.
#![tactic(auto)]

ghost use Rattle.std.specs.Prelude.{◌≡◌, ◌↔◌, ◌^◌, ◌<◌, [], length, map, slice_index_or, IsTrue, All};
ghost use Rattle.orders.specs.Numbers.{IsNumber};
ghost use Rattle.matrices.specs.Rows.{HaveEntries, HaveLength, entries_of};

use orders::are_numbers;

/// Returns whether each number is from 0 to below 2^40.
pub fn have_entries(matrix: &[Vec<i64>]) -> bool
    ensures { IsTrue result ↔ HaveEntries (map (λ row. row.items) matrix.now) }
{
    are_rows(matrix)
}

/// Returns whether each row has `columns` numbers.
pub fn have_length(matrix: &[Vec<i64>], columns: usize) -> bool
    ensures { IsTrue result ↔ HaveLength columns (map (λ row. row.items) matrix.now) }
{
    are_long(matrix, columns)
}

/// Returns the entry of row `i` and column `j`.
pub fn entry(matrix: &[Vec<i64>], i: usize, j: usize) -> u64
    requires entries { HaveEntries (map (λ row. row.items) matrix.now) }
    requires row { i < length matrix.now }
    requires column { j < length (slice_index_or (map (λ row. row.items) matrix.now) i []) }
    ensures value { result ≡ entries_of (map (λ row. row.items) matrix.now) i j }
    ensures small { result < 2 ^ 40 }
{
    matrix[i][j] as u64
}

/// Whether each row is one of entries.
fn are_rows(matrix: &[Vec<i64>]) -> bool
    ensures { IsTrue result ↔ All (λ row. All IsNumber row.items) matrix.now }
{
    matrix.iter().all(|row| are_numbers(row))
}

/// Whether each row is that long.
fn are_long(matrix: &[Vec<i64>], columns: usize) -> bool
    ensures { IsTrue result ↔ All (λ row. length row.items ≡ columns) matrix.now }
{
    matrix.iter().all(|row| row.len() == columns)
}
