//! The coalitions that block a point, and the one that a report names.

ghost use Rattle.std.specs.Prelude.{◌≡◌, ◌↔◌, ℕ, ◌^◌, ◌<◌, IsTrue, IfOk, MatchOption, unsigned_abs};
ghost use Rattle.std.specs.Int.{int_max};
ghost use Rattle.definitions.specs.Sums.{IsGreatest};
ghost use Rattle.definitions.specs.Games.{excess, Blocks, IsChosenBlocker};
ghost use Rattle.plain_programs.specs.Plain.{game_of, blocking_masks};

use crate::table::{Point, Table, excess};
use std::alloc::{AllocError, Global};

/// Returns whether a coalition is worth more than its members get.
pub fn blocks(table: &Table, point: &Point, coalition: u64) -> bool
    requires { coalition < 2 ^ table.now.players }
    ensures { IsTrue result ↔ Blocks (game_of table.now) point.now coalition }
{
    excess(table, point, coalition) > 0
}

/// Returns the masks of the coalitions that are worth more than their members get, in ascending order.
///
/// Fails only if memory runs out.
pub fn blockers(alloc: Global, table: &Table, point: &Point) -> Result<Vec<u64>, AllocError>
    ensures { IfOk result (λ masks. masks.items ≡ blocking_masks (game_of table.now) point.now) }
{
    let mut masks = Vec::new(alloc);
    for coalition in 0..table.coalitions() {
        if blocks(table, point, coalition) {
            masks.push(coalition)?;
        }
    }
    Ok(masks)
}

fn greater(first: i128, second: i128) -> i128
    requires first { unsigned_abs first < 2 ^ 89 }
    requires second { unsigned_abs second < 2 ^ 89 }
    ensures value { result ≡ int_max first second }
    ensures small { unsigned_abs result < 2 ^ 89 }
{
    if first < second { second } else { first }
}

fn greatest_excess(table: &Table, point: &Point) -> i128
    ensures value { IsGreatest
        (λ s. s < 2 ^ table.now.players)
        (excess (game_of table.now) point.now)
        result }
    ensures small { unsigned_abs result < 2 ^ 89 }
{
    let mut greatest = excess(table, point, 0);
    for coalition in 1..table.coalitions() {
        greatest = greater(greatest, excess(table, point, coalition));
    }
    greatest
}

/// Returns the mask of the coalition of greatest excess, and the least mask if there are several. Returns `None` if no
/// coalition blocks.
pub fn chosen_blocker(table: &Table, point: &Point) -> Option<u64>
    ensures { MatchOption result
        ((s : ℕ) → s < 2 ^ table.now.players → ¬ Blocks (game_of table.now) point.now s)
        (IsChosenBlocker (game_of table.now) point.now) }
{
    let greatest = greatest_excess(table, point);
    if greatest <= 0 {
        return None;
    }
    for coalition in 0..table.coalitions() {
        if excess(table, point, coalition) == greatest {
            return Some(coalition);
        }
    }
    None
}
