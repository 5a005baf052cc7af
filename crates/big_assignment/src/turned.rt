//! Rows and columns change their parts.
ghost use Rattle.std.specs.Prelude.{◌≡◌, ℕ, ◌<◌, ◌≤◌, ◌/◌, ◌%◌, slice_index, Option};
ghost use Rattle.big_assignment.specs.Deals.{AreColumns, Holds, IsTurned, gain_of, mates, offer_of, offers, place};

use crate::deal::{Deal, OFFERS, PLACES, SIDE};

/// The row that has column `k`.
fn holder(deal: &Deal, rows: usize, k: usize) -> Option<usize>
    requires rows { rows ≤ 32 }
    requires columns { AreColumns deal.now rows }
    ensures { Holds deal.now rows k (place result) }
{
    for i in 0..rows {
        if deal.mate(i) == k {
            return Some(i);
        }
    }
    None
}

/// The row that has each column.
fn holders(deal: &Deal, rows: usize, columns: usize) -> [Option<usize>; PLACES]
    requires rows { rows ≤ 32 }
    requires few { columns ≤ 32 }
    requires columns { AreColumns deal.now rows }
    ensures { (k : ℕ) → k < columns → Holds deal.now rows k (mates result k) }
{
    let mut held = [None; PLACES];
    for k in 0..columns {
        held[k] = holder(deal, rows, k);
    }
    held
}

/// What goes to one place of the table that has a row for each column: what the column is offered by a row.
fn turned_offer(deal: &Deal, place: usize) -> u64
    requires { place < 1056 }
    ensures row { place % 33 < 32 → result ≡ offer_of deal.now (place % 33) (place / 33) }
    ensures none { 32 ≤ place % 33 → result ≡ 0 }
{
    if place % PLACES < SIDE {
        deal.offer(place % PLACES, place / PLACES)
    } else {
        0
    }
}

/// The table with rows and columns exchanged.
fn turned_table(deal: &Deal) -> [u64; OFFERS]
    ensures offers { (k i : ℕ) → k < 32 → i < 32 → offers result k i ≡ offer_of deal.now i k }
    ensures none { (k : ℕ) → k < 32 → offers result k 32 ≡ 0 }
{
    let mut table = [0; OFFERS];
    for place in 0..OFFERS {
        table[place] = turned_offer(deal, place);
    }
    table
}

/// The gains of the rows, and 0 beside them.
fn gains_alone(deal: &Deal, rows: usize) -> [u64; PLACES]
    requires { rows ≤ 32 }
    ensures gains { (i : ℕ) → i < rows → slice_index result i ≡ gain_of deal.now i }
    ensures none { (i : ℕ) → rows ≤ i → slice_index result i ≡ 0 }
{
    let mut gains = [0; PLACES];
    for i in 0..rows {
        gains[i] = deal.gains[i];
    }
    gains
}

/// The deal in which the columns are the rows: what each column costs is what it gains.
pub(crate) fn exchanged(deal: &Deal, rows: usize, columns: usize) -> Deal
    requires rows { rows ≤ 32 }
    requires few { columns ≤ 32 }
    requires columns { AreColumns deal.now rows }
    ensures { IsTurned deal.now rows columns result }
{
    Deal {
        table: turned_table(deal),
        gains: deal.prices,
        prices: gains_alone(deal, rows),
        columns: holders(deal, rows, columns),
    }
}
