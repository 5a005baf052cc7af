//! The excess list of a point, and which of two points comes first (Schmeidler 1969; per head
//! Grotte 1970).

ghost use Rattle.std.specs.Prelude.{◌≡◌, ◌↔◌, IsTrue, IfOk};
ghost use Rattle.std.specs.Prelude.{◌*◌, ◌/◌, ◌^◌, ◌<◌, ◌≤◌, ◌*ℤ◌, unsigned_abs};
ghost use Rattle.definitions.specs.Coalitions.{size};
ghost use Rattle.definitions.specs.Measures.{measured};
ghost use Rattle.definitions.specs.Games.{measured_excess, excess_list, Beats};
ghost use Rattle.plain_programs.specs.Plain.{game_of, Fits, scale_limit, excess_limit};

use crate::order::{comes_before, sorted};
use crate::table::{Point, Table, excess, has_player};
use definitions::Measure;
use std::alloc::{AllocError, Global};

/// The number of members.
fn size(coalition: u64) -> u32
    ensures value { result ≡ size coalition }
    ensures few { result ≤ 64 }
{
    let mut count = 0;
    for player in 0..64u32 {
        if has_player(coalition, player) {
            count += 1;
        }
    }
    count
}

/// What an excess per head is times the excess, over 720720.
fn head_weight(coalition: u64) -> u32
    requires { 1 ≤ size coalition }
    ensures value { result ≡ 720720 / size coalition }
    ensures small { result ≤ 720720 }
{
    720720 / size(coalition)
}

/// A number times what an excess per head is times the excess.
fn per_head(coalition: u64, excess: i128) -> i128
    requires some { 1 ≤ size coalition }
    requires small { unsigned_abs excess < 2 ^ 79 }
    ensures value { result ≡ measured Measure.PerHead coalition excess }
    ensures small { unsigned_abs result < 2 ^ 99 }
{
    head_weight(coalition) as i128 * excess
}

/// Returns the excess of a coalition by the measure. Per head that is 720720 times the excess over the number of
/// members, which are at most 16.
pub fn measured_excess(measure: Measure, table: &Table, point: &Point, coalition: u64) -> i128
    requires some { 0 < coalition }
    requires within { coalition < 2 ^ table.now.players }
    requires fits { Fits measure point.now }
    ensures value { result ≡ measured_excess measure (game_of table.now) point.now coalition }
    ensures small { unsigned_abs result < excess_limit measure }
{
    let excess = excess(table, point, coalition);
    match measure {
        Measure::Plain => excess,
        Measure::PerHead => per_head(coalition, excess),
    }
}

fn scaled(scale: i128, excess: i128) -> i128
    requires { unsigned_abs scale * unsigned_abs excess < 2 ^ 127 }
    ensures value { result ≡ scale *ℤ excess }
    ensures small { unsigned_abs result < 2 ^ 127 }
{
    scale * excess
}

/// Returns the measured excesses of all coalitions except the empty one and that of all players, in mask order and over
/// the point's denominator, each times a scale.
///
/// Fails only if memory runs out.
pub fn excess_list(
    alloc: Global,
    measure: Measure,
    table: &Table,
    point: &Point,
    scale: i128,
) -> Result<Vec<i128>, AllocError>
    requires scale { unsigned_abs scale ≤ scale_limit measure }
    requires fits { Fits measure point.now }
    ensures { IfOk result
        (λ list. list.items ≡ excess_list measure (game_of table.now) point.now scale) }
{
    let mut list = Vec::new(alloc);
    for coalition in 1..table.coalitions() - 1 {
        let excess = measured_excess(measure, table, point, coalition);
        list.push(scaled(scale, excess))?;
    }
    Ok(list)
}

/// Returns whether the sorted excess list of the first point comes before that of the second by the measure, both over
/// the product of the two denominators.
///
/// Fails only if memory runs out.
pub fn beats(
    alloc: Global,
    measure: Measure,
    table: &Table,
    first: &Point,
    second: &Point,
) -> Result<bool, AllocError>
    requires first { Fits measure first.now }
    requires second { Fits measure second.now }
    ensures { IfOk result
        (λ before. IsTrue before ↔ Beats measure (game_of table.now) first.now second.now) }
{
    let ours = sorted(
        alloc,
        &excess_list(alloc, measure, table, first, second.den())?,
    )?;
    let theirs = sorted(
        alloc,
        &excess_list(alloc, measure, table, second, first.den())?,
    )?;
    Ok(comes_before(&ours, &theirs))
}
