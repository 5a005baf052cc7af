//! The columns that `Lazy` finds against those that `Listed` keeps, in front of those of the coalitions and among them,
//! and the column that it lets rise against a plain search.

ghost use Rattle.std.specs.Prelude.{◌≡◌, ◌<◌, ◌≤◌, ◌^◌, IsTrue, length, unsigned_abs};
ghost use Rattle.definitions.specs.declared.Measure.{Measure};
ghost use Rattle.definitions.specs.declared.Mode.{Mode};

use crate::fronts::{certificate_of, first_levels, span_of};
use crate::slow_games::{Slow, game_of};
use arrayvec::ArrayVec;
use definitions::{Family, Measure};
use kohlberg::Certificate;
use separation::{Lazy, Listed, coalition_count};
use simplex::{Columns, Multipliers, Optimal, Workspace, solve};
use std::alloc::Global;
use std::test::Fail;
use worth_core::Worth;
use worth_tables::TableGame;

/// The next state of a linear congruence modulo 2^31.
fn next(state: u64) -> u64 {
    state.wrapping_mul(1103515245).wrapping_add(12345) % 2147483648
}

/// A table whose worths past the players alone are drawn below 2^20.
fn drawn(alloc: Global, players: u32, seed: u64) -> Result<TableGame, Fail>
    requires { players ≤ 16 }
{
    let mut state = seed;
    let mut worths = Vec::new(alloc);
    for s in 1..1u64 << players {
        if s.is_power_of_two() {
            worths.push(0)?;
        } else {
            state = next(state);
            worths.push((state / 2048) as i64)?;
        }
    }
    Ok(
        TableGame::new(alloc, players, worths)
            .ok()
            .ok_or("no game")?,
    )
}

/// Whether a column has the same cost and entries in both programs.
fn same_column<A: Columns, B: Columns>(a: &A, b: &B, id: u64) -> bool
    requires first { IsTrue ((A.program a.now).is_column id) }
    requires second { IsTrue ((B.program b.now).is_column id) }
    requires rows { (A.program a.now).rows ≡ (B.program b.now).rows }
{
    for row in 0..a.rows() {
        if a.entry(id, row) != b.entry(id, row) {
            return false;
        }
    }
    a.cost(id) == b.cost(id)
}

/// Whether the numbers below `count` are those of the same columns.
fn same_columns<A: Columns, B: Columns>(a: &A, b: &B, count: u64) -> bool {
    if a.rows() != b.rows() {
        return false;
    }
    for row in 0..a.rows() {
        if a.right(row) != b.right(row) {
            return false;
        }
    }
    for id in 0..count {
        if a.has(id) != b.has(id) {
            return false;
        }
        if a.has(id) && b.has(id) && !same_column(a, b, id) {
            return false;
        }
    }
    true
}

/// Whether the same column enters.
fn same_entering<A: Columns, B: Columns>(
    a: &mut A,
    b: &mut B,
    m: &Multipliers,
    with_costs: bool,
) -> bool {
    let count = m.num.len();
    count == a.rows() as usize
        && count == b.rows() as usize
        && a.entering(m, with_costs) == b.entering(m, with_costs)
}

/// A multiplier for each of the players, and 0 for each row behind.
fn for_players(multiplier: i128, players: u32, rows: u32) -> Multipliers
    requires small { unsigned_abs multiplier < 2 ^ 110 }
    requires rows { rows ≤ 31 }
{
    let mut num = ArrayVec::new();
    for row in 0..rows {
        num.push(if row < players { multiplier } else { 0 });
    }
    Multipliers { num, den: 1 }
}

/// The multipliers and their denominator, each times one number; none if that makes them too large.
fn scaled(m: &Multipliers, by: i128) -> Option<Multipliers> {
    let den = m.den.wrapping_mul(by);
    if den < 1 || den > 1 << 63 {
        return None;
    }
    let mut num = ArrayVec::new();
    for row in 0..m.num.len() {
        let multiplier = m.num[row].wrapping_mul(by);
        if multiplier.unsigned_abs() >= 1 << 110 {
            return None;
        }
        num.push(multiplier);
    }
    Some(Multipliers { num, den })
}

/// The optimum of a program.
fn optimum<A: Columns>(alloc: Global, columns: &mut A) -> Result<Optimal, Fail> {
    let rows = columns.rows();
    if rows == 0 || rows > 31 {
        Err("no rows")?;
    }
    let mut work = Workspace::new(alloc, rows).ok().ok_or("no memory")?;
    Ok(solve(&mut work, columns).ok().ok_or("no optimum")?)
}

/// By how much the cost of a column is above its value, each row by itself; 0 if there is none.
fn gap_of<A: Columns>(a: &A, id: u64, m: &Multipliers, with_costs: bool) -> i128 {
    if !a.has(id) {
        return 0;
    }
    let cost = if with_costs { a.cost(id) } else { 0 };
    let mut gap = m.den.wrapping_mul(i128::from(cost));
    for row in 0..a.rows() {
        if (row as usize) < m.num.len() {
            let entry = i128::from(a.entry(id, row));
            gap = gap.wrapping_sub(m.num[row as usize].wrapping_mul(entry));
        }
    }
    gap
}

/// Where the coalitions' columns begin, how many numbers are looked at, and whether excess is plain.
#[derive(Clone, Copy)]
struct Shape {
    players: u32,
    first: u64,
    count: u64,
    is_plain: bool,
}

/// Whether a column improves, and of the 256 coalitions among which it stands none is further above its value.
fn is_best<A: Columns>(a: &A, shape: Shape, id: u64, m: &Multipliers, with_costs: bool) -> bool {
    let gap = gap_of(a, id, m, with_costs);
    if gap > 0 && shape.is_plain && id >= shape.first {
        let start = id - (id - shape.first) % 256;
        for other in start..start.saturating_add(256) {
            if gap_of(a, other, m, with_costs) > gap {
                return false;
            }
        }
    }
    gap > 0
}

/// A column that improves, or the one that enters, if there is a multiplier for each row.
fn asked<A: Columns>(a: &mut A, m: &Multipliers, with_costs: bool, first: bool) -> Option<u64> {
    if m.num.len() == a.rows() as usize {
        if first {
            a.entering(m, with_costs)
        } else {
            a.improving(m, with_costs)
        }
    } else {
        None
    }
}

/// Whether a column improves exactly when one enters, and well, and the same one if the multipliers are so large that
/// the search is in 128 bits.
fn improves_well<A: Columns, B: Columns>(
    a: &mut A,
    b: &mut B,
    shape: Shape,
    m: &Multipliers,
    with_costs: bool,
) -> bool {
    let found = asked(b, m, with_costs, false);
    for by in [1 << 20, 1 << 40] {
        if let Some(large) = scaled(m, by) {
            if asked(b, &large, with_costs, false) != found {
                return false;
            }
        }
    }
    match (found, asked(a, m, with_costs, true)) {
        (Some(id), Some(_)) => is_best(a, shape, id, m, with_costs),
        (None, None) => true,
        _ => false,
    }
}

/// Whether the same column enters, and some improves, with the costs and without them.
fn enter_alike<A: Columns, B: Columns>(
    a: &mut A,
    b: &mut B,
    shape: Shape,
    m: &Multipliers,
) -> bool {
    same_entering(a, b, m, true)
        && same_entering(a, b, m, false)
        && improves_well(a, b, shape, m, true)
        && improves_well(a, b, shape, m, false)
}

/// Compares two programs.
fn compare<A: Columns, B: Columns>(
    alloc: Global,
    listed: &mut A,
    found: &mut B,
    shape: Shape,
) -> Result<(), Fail> {
    if !same_columns(listed, found, shape.count) {
        Err("other columns")?;
    }
    // Those that are listed enter by the least number, which takes many steps.
    let best = optimum(alloc, found)?;
    // With more rows there is no optimum.
    let rows = listed.rows().min(31);
    let none = for_players(0, shape.players, rows);
    let some = for_players(262144, shape.players, rows);
    if !enter_alike(listed, found, shape, &none) || !enter_alike(listed, found, shape, &some) {
        Err("another column enters")?;
    }
    if !enter_alike(listed, found, shape, &best.multipliers) {
        Err("another column enters at the optimum")?;
    }
    Ok(())
}

/// Compares the balanced programs of a game.
fn compare_balanced<W: Worth>(alloc: Global, game: &W) -> Result<(), Fail>
    requires { (W.game game.now).players ≤ 16 }
{
    let mut listed = Listed::balanced(alloc, game).ok().ok_or("no memory")?;
    let mut found = Lazy::balanced(alloc, game).ok().ok_or("no memory")?;
    let players = game.players();
    let shape = Shape {
        players,
        first: 0,
        count: (1 << players) + 2,
        is_plain: true,
    };
    compare(alloc, &mut listed, &mut found, shape)
}

/// Compares the stages behind the first levels of a certificate.
fn compare_behind<W: Worth>(
    alloc: Global,
    game: &W,
    family: Family,
    measure: Measure,
    certificate: &Certificate,
    count: usize,
) -> Result<(), Fail>
    requires few { (W.game game.now).players ≤ 16 }
    requires heads { measure ≡ Measure.PerHead → (W.game game.now).players ≤ 8 }
    requires mode { certificate.now.mode ≡ Mode.Span }
    requires players { certificate.now.players ≡ (W.game game.now).players }
    requires count { count < length certificate.now.levels }
{
    let players = game.players();
    let levels = first_levels(certificate, count);
    let span = span_of(players, levels);
    let mut listed = Listed::stage(alloc, game, family, measure, levels, &span)
        .ok()
        .ok_or("no memory")?;
    let mut found = Lazy::stage(alloc, game, family, measure, levels, &span)
        .ok()
        .ok_or("no memory")?;
    let first = 2 + 2 * coalition_count(levels) + 2 * u64::from(players);
    let shape = Shape {
        players,
        first,
        count: first + (1 << players) + 2,
        is_plain: measure == Measure::Plain,
    };
    compare(alloc, &mut listed, &mut found, shape)
}

/// Compares all stages of a game.
fn compare_stages<W: Worth>(
    alloc: Global,
    game: &W,
    family: Family,
    measure: Measure,
) -> Result<(), Fail>
    requires few { (W.game game.now).players ≤ 16 }
    requires heads { measure ≡ Measure.PerHead → (W.game game.now).players ≤ 8 }
{
    if let Some(certificate) = certificate_of(alloc, game, family, measure)? {
        for count in 0..certificate.levels().len() {
            compare_behind(alloc, game, family, measure, &certificate, count)?;
        }
    }
    Ok(())
}

// The worths are those of the generated tables of these players and seeds.
#[test]
fn found_columns_are_the_listed_ones(rt: HostRuntime) -> Result<(), Fail> {
    for players in 2..7u32 {
        for seed in 1..5 {
            let game = drawn(rt.alloc(), players, seed)?;
            assert!(&rt; game.players() == players);
            compare_balanced(rt.alloc(), &game)?;
            for &measure in &[Measure::Plain, Measure::PerHead] {
                compare_stages(rt.alloc(), &game, Family::Imputations, measure)?;
                compare_stages(rt.alloc(), &game, Family::Preimputations, measure)?;
            }
        }
    }
    Ok(())
}

// Ten players have four blocks of 256 coalitions, and these games have nine levels.
#[test]
fn found_columns_of_ten_are_the_listed_ones_behind_each_level(rt: HostRuntime) -> Result<(), Fail> {
    for &family in &[Slow::Square, Slow::Line] {
        let game = game_of(rt.alloc(), family, 10)?;
        assert!(&rt; game.players() == 10);
        compare_balanced(rt.alloc(), &game)?;
        compare_stages(rt.alloc(), &game, Family::Imputations, Measure::Plain)?;
        compare_stages(rt.alloc(), &game, Family::Preimputations, Measure::Plain)?;
    }
    Ok(())
}

#[test]
fn found_columns_of_eight_are_the_listed_ones_per_head(rt: HostRuntime) -> Result<(), Fail> {
    let game = game_of(rt.alloc(), Slow::Square, 8)?;
    assert!(&rt; game.players() == 8);
    compare_stages(rt.alloc(), &game, Family::Imputations, Measure::PerHead)?;
    compare_stages(rt.alloc(), &game, Family::Preimputations, Measure::PerHead)?;
    Ok(())
}
