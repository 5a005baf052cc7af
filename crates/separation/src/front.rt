//! The columns of a stage in front of those of the coalitions outside: each by its number, and the first among them
//! that improves. That search goes from part to part, and counts the columns that it has passed.

ghost use Rattle.std.specs.Prelude.{◌≡◌, ◌+◌, ◌*◌, ◌<◌, ◌≤◌, ◌^◌, length, map, Some, ◌↔◌};
ghost use Rattle.std.specs.Prelude.{IsTrue, MatchOption};
ghost use Rattle.std.specs.List.{AllByRecursion};
ghost use Rattle.std.specs.Option.{ForSome};
ghost use Rattle.definitions.specs.Coalitions.{grand_coalition};
ghost use Rattle.definitions.specs.declared.Family.{Family};
ghost use Rattle.separation.specs.Fronts.{IsSmallLevel};
ghost use Rattle.separation.specs.Kept.{column_at};
ghost use Rattle.separation.specs.Making.{earlier_columns, whole_columns, inner_columns, listed, both_columns, single};
ghost use Rattle.separation.specs.Making.{bound, alone_columns};
ghost use Rattle.separation.specs.Scanned.{game_of, ImprovesIn, NoneOf, IsFirstOf, NoneInFront, IsFirstInFront};
ghost use Rattle.separation.specs.Stage.{earlier_of};

use crate::column::{Column, ColumnPlace, bound, minus, plain, single};
use crate::scan::Scan;
use coalitions::Coalition;
use definitions::Family;
use kohlberg::Level;
use simplex::ColumnId;
use worth_core::Worth;

/// Returns the number of coalitions of the levels.
pub fn coalition_count(levels: &[Level]) -> u64
    requires few { length levels.now ≤ 14 }
    requires small { AllByRecursion (λ l. length l.coalitions ≤ 65536) levels.now }
    ensures value { result ≡ length (earlier_of 0 levels.now) }
    ensures small { result ≤ 14 * 65536 }
{
    let mut count: u64 = 0;
    for level in levels {
        count += level.coalitions.len() as u64;
    }
    count
}

/// The column of the coalition of all players under a number, the first two of a stage.
fn whole<W: Worth>(game: &W, id: ColumnId) -> Option<Column>
    ensures { result ≡ column_at (whole_columns (W.game game.now) (grand_coalition (W.game game.now).players)) id }
{
    let all = Coalition::all(game.players());
    match id {
        0 => Some(plain(game, all, None)),
        1 => Some(minus(game, all, None)),
        _ => None,
    }
}

/// The column at a place among those of the coalitions of level `k`.
fn of_level<W: Worth>(game: &W, k: u32, pairs: &[(Coalition, i128)], place: ColumnPlace) -> Column
    requires within { AllByRecursion (λ c. c.0 < 2 ^ (W.game game.now).players) pairs.now }
    requires place { place < 2 * length pairs.now }
    ensures { Some result ≡ column_at (earlier_columns (W.game game.now) (map (λ c. (c.0, k)) pairs.now)) place }
{
    let (s, _) = pairs[(place / 2) as usize];
    if place % 2 == 0 {
        plain(game, s, Some(k))
    } else {
        minus(game, s, Some(k))
    }
}

/// The column at a place among those of the coalitions of the levels.
fn earlier<W: Worth>(game: &W, levels: &[Level], place: ColumnPlace) -> Option<Column>
    requires few { length levels.now ≤ 14 }
    requires within { AllByRecursion (IsSmallLevel (W.game game.now).players) levels.now }
    ensures { result ≡ column_at (earlier_columns (W.game game.now) (earlier_of 0 levels.now)) place }
{
    let mut rest = place;
    for k in 0..levels.len() {
        let level = &levels[k];
        let twice = 2 * level.coalitions.len() as u64;
        if rest < twice {
            return Some(of_level(game, k as u32, &level.coalitions, rest));
        }
        rest -= twice;
    }
    None
}

/// The levels in front of a stage, and the family for which it is.
#[derive(Clone, Copy)]
pub(crate) struct Front<'a> {
    pub(crate) family: Family,
    pub(crate) levels: &'a [Level],
}

impl Front<'_> {
    /// The number of columns in front of those of the coalitions of `n` players.
    pub(crate) fn count<W: Worth>(&self, game: &W) -> u64
        requires players { (W.game game.now).players ≤ 16 }
        requires few { length self.now.levels.now ≤ 14 }
        requires small { AllByRecursion (IsSmallLevel (W.game game.now).players) self.now.levels.now }
        ensures value { result ≡ length (inner_columns self.now.family (W.game game.now) self.now.levels.now) }
        ensures small { result ≤ 2 ^ 32 }
    {
        2 + 2 * coalition_count(self.levels) + 2 * u64::from(game.players())
    }

    /// The column under a number in front of those of the coalitions.
    pub(crate) fn column<W: Worth>(&self, game: &W, id: ColumnId) -> Option<Column>
        requires players { (W.game game.now).players ≤ 16 }
        requires few { length self.now.levels.now ≤ 14 }
        requires small { AllByRecursion (IsSmallLevel (W.game game.now).players) self.now.levels.now }
        ensures { result ≡ column_at (inner_columns self.now.family (W.game game.now) self.now.levels.now) id }
    {
        let n = u64::from(game.players());
        let settled = 2 + 2 * coalition_count(self.levels);
        if id < 2 {
            whole(game, id)
        } else if id < settled {
            earlier(game, self.levels, id - 2)
        } else if id < settled + n {
            single(game, self.family, (id - settled) as u32)
        } else if id < settled + n + n {
            bound(game, self.family, self.levels, (id - settled - n) as u32)
        } else {
            None
        }
    }
}

/// The place of the first of both columns of a coalition whose cost is above its value. The second is the first one
/// negated, so one value tells of both.
fn first_of_both<W: Worth>(
    scan: &Scan<'_, W>,
    s: Coalition,
    level: Option<u32>,
) -> Option<ColumnPlace>
    requires within { s < 2 ^ scan.now.program.now.players }
    requires level { ForSome level (λ l. l < scan.now.program.now.levels) }
    ensures { MatchOption result (NoneOf scan.now (both_columns (game_of scan.now) s level))
        (IsFirstOf scan.now (both_columns (game_of scan.now) s level)) }
{
    let column = plain(scan.program.game, s, level);
    let worth = column.cost;
    let value = scan.value(column);
    let cost = scan.bar(worth);
    if value < cost {
        Some(0)
    } else if cost < value {
        Some(1)
    } else {
        None
    }
}

/// The place of the first such column among those of the coalitions of level `k`.
fn first_of_level<W: Worth>(
    scan: &Scan<'_, W>,
    k: u32,
    pairs: &[(Coalition, i128)],
) -> Option<ColumnPlace>
    requires level { k < scan.now.program.now.levels }
    requires few { length pairs.now ≤ 65536 }
    requires within { AllByRecursion (λ c. c.0 < 2 ^ scan.now.program.now.players) pairs.now }
    ensures { MatchOption result
        (NoneOf scan.now (earlier_columns (game_of scan.now) (map (λ c. (c.0, k)) pairs.now)))
        (IsFirstOf scan.now (earlier_columns (game_of scan.now) (map (λ c. (c.0, k)) pairs.now))) }
{
    for j in 0..pairs.len() {
        let (s, _) = pairs[j];
        if let Some(place) = first_of_both(scan, s, Some(k)) {
            return Some(2 * j as u64 + place);
        }
    }
    None
}

/// The place of the first such column among those of the coalitions of the levels.
fn first_of_levels<W: Worth>(scan: &Scan<'_, W>, levels: &[Level]) -> Option<ColumnPlace>
    requires rows { length levels.now + 1 ≤ scan.now.program.now.levels }
    requires within { AllByRecursion (IsSmallLevel scan.now.program.now.players) levels.now }
    ensures { MatchOption result
        (NoneOf scan.now (earlier_columns (game_of scan.now) (earlier_of 0 levels.now)))
        (IsFirstOf scan.now (earlier_columns (game_of scan.now) (earlier_of 0 levels.now))) }
{
    let mut passed: u64 = 0;
    for k in 0..levels.len() {
        let level = &levels[k];
        if let Some(place) = first_of_level(scan, k as u32, &level.coalitions) {
            return Some(passed + place);
        }
        passed += 2 * level.coalitions.len() as u64;
    }
    None
}

/// The first player alone whose column for imputations improves.
fn first_single<W: Worth>(scan: &Scan<'_, W>) -> Option<u32>
    ensures { MatchOption result
        (NoneOf scan.now (listed scan.now.program.now.players (single Family.Imputations (game_of scan.now))))
        (IsFirstOf scan.now (listed scan.now.program.now.players (single Family.Imputations (game_of scan.now)))) }
{
    for i in 0..scan.program.players {
        let column = single(scan.program.game, Family::Imputations, i);
        if scan.improves(column) {
            return Some(i);
        }
    }
    None
}

/// Whether the column of a player alone, negated, is there for imputations and improves. Few improve, so the bounds of
/// few are looked for.
fn bound_improves<W: Worth>(scan: &Scan<'_, W>, levels: &[Level], i: u32) -> bool
    requires { i < scan.now.program.now.players }
    ensures { IsTrue result ↔ ImprovesIn scan.now (bound Family.Imputations (game_of scan.now) levels.now i) }
{
    let column = minus(scan.program.game, Coalition::single(i), None);
    scan.improves(Some(column)) && Level::has_bound(levels, i)
}

/// The first player alone whose negated column for imputations improves.
fn first_bound<W: Worth>(scan: &Scan<'_, W>, levels: &[Level]) -> Option<u32>
    ensures { MatchOption result
        (NoneOf scan.now (listed scan.now.program.now.players
        (bound Family.Imputations (game_of scan.now) levels.now)))
        (IsFirstOf scan.now (listed scan.now.program.now.players
        (bound Family.Imputations (game_of scan.now) levels.now))) }
{
    for i in 0..scan.program.players {
        if bound_improves(scan, levels, i) {
            return Some(i);
        }
    }
    None
}

/// The place of the first such column among those of the players alone, which imputations have.
fn first_of_players<W: Worth>(scan: &Scan<'_, W>, front: &Front<'_>) -> Option<ColumnPlace>
    ensures { MatchOption result
        (NoneOf scan.now (alone_columns front.now.family (game_of scan.now) front.now.levels.now))
        (IsFirstOf scan.now (alone_columns front.now.family (game_of scan.now) front.now.levels.now)) }
{
    match front.family {
        Family::Preimputations => None,
        Family::Imputations => {
            if let Some(i) = first_single(scan) {
                return Some(u64::from(i));
            }
            let i = first_bound(scan, front.levels)?;
            Some(u64::from(scan.program.players + i))
        }
    }
}

/// The place of the first such column in front of those of a stage's coalitions outside.
fn first_of_stage<W: Worth>(scan: &Scan<'_, W>, front: &Front<'_>) -> Option<ColumnPlace>
    requires { scan.now.program.now.front ≡ Some front.now }
    ensures { MatchOption result
        (NoneOf scan.now (inner_columns front.now.family (game_of scan.now) front.now.levels.now))
        (IsFirstOf scan.now (inner_columns front.now.family (game_of scan.now) front.now.levels.now)) }
{
    let program = scan.program;
    let all = Coalition::all(program.players);
    if let Some(place) = first_of_both(scan, all, None) {
        return Some(place);
    }
    if let Some(place) = first_of_levels(scan, front.levels) {
        return Some(2 + place);
    }
    let place = first_of_players(scan, front)?;
    Some(program.first - 2 * u64::from(program.players) + place)
}

/// The number of the first column in front of those of the coalitions whose cost is above its value.
pub(crate) fn first_in_front<W: Worth>(scan: &Scan<'_, W>) -> Option<ColumnId>
    ensures { MatchOption result (NoneInFront scan.now) (IsFirstInFront scan.now) }
{
    let front = scan.program.front.as_ref()?;
    first_of_stage(scan, front)
}
