//! Matrices from their rows, and from two numbers.
use std::alloc::{AllocError, Global};

/// A matrix of these rows.
pub(crate) fn matrix_of(alloc: Global, rows: &[&[i64]]) -> Result<Vec<Vec<i64>>, AllocError> {
    let mut matrix = Vec::new(alloc);
    for row in rows {
        matrix.push(row.to_vec(alloc)?)?;
    }
    Ok(matrix)
}

/// A matrix of so many rows and columns, with the first number on the diagonal and the second elsewhere.
pub(crate) fn diagonal(
    alloc: Global,
    rows: usize,
    columns: usize,
    on: i64,
    off: i64,
) -> Result<Vec<Vec<i64>>, AllocError> {
    let mut matrix = Vec::new(alloc);
    for i in 0..rows {
        let mut row = Vec::new(alloc);
        for j in 0..columns {
            row.push(if i == j { on } else { off })?;
        }
        matrix.push(row)?;
    }
    Ok(matrix)
}
