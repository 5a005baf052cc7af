//! Certificates and their levels in numbers.

use coalitions::Coalition;
use definitions::Mode;
use fractions::Frac;
use kohlberg::{Certificate, Level};
use std::alloc::{AllocError, Global};
use std::test::Fail;

/// A level's excess over a denominator, the masks of its coalitions and earlier ones and its bounds, with their
/// weights, and its total.
pub(crate) type Row<'a> = (
    (i128, i128),
    &'a [(u64, i128)],
    &'a [(u64, i128)],
    &'a [(u32, i128)],
    i128,
);

/// The coalition of a mask, with its weight.
fn pair_of(mask: u64, weight: i128) -> (Coalition, i128) {
    (Coalition(mask), weight)
}

/// The coalitions of masks, with their weights.
fn pairs_of(alloc: Global, masks: &[(u64, i128)]) -> Result<Vec<(Coalition, i128)>, AllocError> {
    let mut pairs = Vec::new(alloc);
    for &(mask, weight) in masks {
        pairs.push(pair_of(mask, weight))?;
    }
    Ok(pairs)
}

/// The level of these numbers.
fn level(alloc: Global, row: &Row<'_>) -> Result<Level, Fail> {
    let &((num, den), coalitions, earlier, bounds, total) = row;
    Ok(Level {
        excess: Frac::new(num, den).ok_or("not a fraction")?,
        coalitions: pairs_of(alloc, coalitions)?,
        earlier: pairs_of(alloc, earlier)?,
        bounds: bounds.to_vec(alloc)?,
        total,
    })
}

/// The levels of these numbers.
fn levels_of(alloc: Global, rows: &[Row<'_>]) -> Result<Vec<Level>, Fail> {
    let mut levels = Vec::new(alloc);
    for row in rows {
        levels.push(level(alloc, row)?)?;
    }
    Ok(levels)
}

/// The certificate of levels of these numbers, if they make one.
pub(crate) fn certificate_of(
    alloc: Global,
    players: u32,
    mode: Mode,
    rows: &[Row<'_>],
) -> Result<Option<Certificate>, Fail> {
    let levels = levels_of(alloc, rows)?;
    if players == 0 || players > 64 {
        return Err(Fail::from("another number of players"));
    }
    Ok(Certificate::new(players, mode, levels).ok())
}

/// Whether pairs are these masks, with their weights.
fn are_masks(pairs: &[(Coalition, i128)], masks: &[(u64, i128)]) -> bool {
    if pairs.len() != masks.len() {
        return false;
    }
    for i in 0..pairs.len() {
        let (mask, weight) = masks[i];
        if pairs[i] != pair_of(mask, weight) {
            return false;
        }
    }
    true
}

/// Whether a level has these numbers.
fn is_level(level: &Level, row: &Row<'_>) -> bool {
    let &((num, den), coalitions, earlier, bounds, total) = row;
    Some(level.excess) == Frac::new(num, den)
        && are_masks(&level.coalitions, coalitions)
        && are_masks(&level.earlier, earlier)
        && level.bounds.as_slice() == bounds
        && level.total == total
}

/// Whether levels have these numbers, one after the other.
pub(crate) fn are_levels(levels: &[Level], rows: &[Row<'_>]) -> bool {
    if levels.len() != rows.len() {
        return false;
    }
    for i in 0..levels.len() {
        if !is_level(&levels[i], &rows[i]) {
            return false;
        }
    }
    true
}
