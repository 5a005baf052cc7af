//! Matrices of links and of pairs from the draws.
ghost use Rattle.std.specs.Prelude.{◌≡◌, IfOk};
ghost use Rattle.std.specs.Prelude.{◌+◌, ◌*◌, ◌^◌, ◌<◌, ◌≤◌, pos};
ghost use Rattle.std.specs.Prelude.{length, map, slice_index};
ghost use Rattle.std.specs.List.{range_with_len};
ghost use Rattle.drawn_games.specs.Draws.{short_draw};
ghost use Rattle.drawn_games.specs.Numbers.{rows_of, link, links_before, pair_value};

use crate::draws::short_draws;
use std::alloc::{AllocError, Global};

/// The links of `n` players and the source: the next number below 2^16 for each two points, by the lesser and then the
/// other, the same in both directions.
pub(crate) fn link_matrix(alloc: Global, n: u32, seed: u32) -> Result<Vec<Vec<i64>>, AllocError>
    requires few { n ≤ 16 }
    requires seed { seed < 2 ^ 31 }
    ensures { IfOk result (λ m. map (λ row. row.items) m.items ≡ rows_of (n + 1) (n + 1) (link (short_draw seed) n)) }
{
    let draws = short_draws(alloc, links_before(n, n), seed)?;
    let mut matrix = Vec::new(alloc);
    for i in 0..n + 1 {
        matrix.push(link_row(alloc, &draws, n, i)?)?;
    }
    Ok(matrix)
}

/// The values of the pairs: the next number below 2^16 for each, row by row.
pub(crate) fn pair_matrix(
    alloc: Global,
    rows: u32,
    columns: u32,
    seed: u32,
) -> Result<Vec<Vec<i64>>, AllocError>
    requires few_rows { rows ≤ 16 }
    requires few_columns { columns ≤ 16 }
    requires seed { seed < 2 ^ 31 }
    ensures { IfOk result
        (λ m. map (λ row. row.items) m.items ≡ rows_of rows columns (pair_value (short_draw seed) columns)) }
{
    let draws = short_draws(alloc, rows * columns, seed)?;
    let mut matrix = Vec::new(alloc);
    for i in 0..rows {
        matrix.push(pair_row(alloc, &draws, rows, columns, i)?)?;
    }
    Ok(matrix)
}

/// The pairs of `n + 1` points whose lesser point is below `i`.
fn links_before(n: u32, i: u32) -> u32
    requires few { n ≤ 16 }
    requires point { i ≤ n }
    ensures value { result ≡ links_before n i }
    ensures small { result ≤ 16 * i }
{
    let mut count = 0;
    for k in 0..i {
        count += n - k;
    }
    count
}

/// The number of the link between two points.
fn link_at(draws: &[u32], n: u32, i: u32, j: u32) -> u32
    requires few { n ≤ 16 }
    requires enough { length draws.now ≡ links_before n n }
    requires row { i ≤ n }
    requires column { j ≤ n }
    ensures { result ≡ link (slice_index draws.now) n i j }
{
    if i < j {
        draws[(links_before(n, i) + (j - i - 1)) as usize]
    } else if j < i {
        draws[(links_before(n, j) + (i - j - 1)) as usize]
    } else {
        0
    }
}

/// The numbers of the links of a point.
fn link_row(alloc: Global, draws: &[u32], n: u32, i: u32) -> Result<Vec<i64>, AllocError>
    requires few { n ≤ 16 }
    requires enough { length draws.now ≡ links_before n n }
    requires row { i ≤ n }
    ensures { IfOk result
        (λ row. row.items ≡ map (λ j. pos (link (slice_index draws.now) n i j)) (range_with_len 0 (n + 1))) }
{
    let mut row = Vec::new(alloc);
    for j in 0..n + 1 {
        row.push(i64::from(link_at(draws, n, i, j)))?;
    }
    Ok(row)
}

/// The numbers of a row.
fn pair_row(
    alloc: Global,
    draws: &[u32],
    rows: u32,
    columns: u32,
    i: u32,
) -> Result<Vec<i64>, AllocError>
    requires few_rows { rows ≤ 16 }
    requires few_columns { columns ≤ 16 }
    requires enough { length draws.now ≡ rows * columns }
    requires row { i < rows }
    ensures { IfOk result
        (λ row. row.items
        ≡ map (λ j. pos (pair_value (slice_index draws.now) columns i j)) (range_with_len 0 columns)) }
{
    let mut row = Vec::new(alloc);
    for j in 0..columns {
        row.push(i64::from(draws[(i * columns + j) as usize]))?;
    }
    Ok(row)
}
