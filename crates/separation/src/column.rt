//! Columns of the programs, and how each is made by the worth of its coalition.

ghost use Rattle.std.specs.Prelude.{◌≡◌, ◌≤◌, ◌<◌, ◌^◌, pos, ◌-ℤ◌, true, false, unsigned_abs};
ghost use Rattle.definitions.specs.Measures.{divisor};
ghost use Rattle.separation.specs.Making.{plain, minus, single, bound};

use coalitions::Coalition;
use definitions::{Family, Measure};
use kohlberg::Level;
use worth_core::Worth;

/// The place of a column among some that stand in a row, from 0.
pub(crate) type ColumnPlace = u64;

/// What a column has in its level row: what the measure divides the excess of its coalition by.
///
/// It is the measure's `divisor` without its condition that the coalition isn't empty: no maker of columns knows that.
pub(crate) fn level_entry(measure: Measure, s: Coalition) -> u32
    ensures value { result ≡ divisor measure s }
    ensures small { result ≤ 64 }
{
    match measure {
        Measure::Plain => 1,
        Measure::PerHead => s.len(),
    }
}

/// The vector of a coalition in the player rows and, in one level row or none, what a measure divides the excess of the
/// coalition by, and the worth of the coalition as cost; or all this negated.
///
/// The divisor is found where it is read (`entry`), so no maker of columns knows of measures.
#[derive(Clone, Copy)]
pub(crate) struct Column {
    pub(crate) coalition: Coalition,
    pub(crate) level: Option<u32>,
    pub(crate) negated: bool,
    pub(crate) cost: i64,
}

impl Column {
    ghost use Rattle.separation.specs.Kept.{plain_entry, column_entry};

    /// The column of a coalition of that worth.
    pub(crate) fn new(coalition: Coalition, level: Option<u32>, worth: i64) -> Column
        ensures { result ≡ record { coalition = coalition; level = level; negated = false; cost = worth } }
    {
        Column {
            coalition,
            level,
            negated: false,
            cost: worth,
        }
    }

    /// The column of a coalition of that worth, negated.
    pub(crate) fn minus(coalition: Coalition, level: Option<u32>, worth: i64) -> Column
        requires { unsigned_abs worth < 2 ^ 46 }
        ensures { result ≡ record { coalition = coalition; level = level; negated = true; cost = pos 0 -ℤ worth } }
    {
        Column {
            coalition,
            level,
            negated: true,
            cost: -worth,
        }
    }

    /// The entry in a row, of which the first ones are those of the players.
    pub(crate) fn entry(self, measure: Measure, players: u32, row: u32) -> i32
        requires { players ≤ 16 }
        ensures { result ≡ column_entry measure players self row }
    {
        let negated = self.negated;
        let plain = self.plain_entry(measure, players, row) as i32;
        if negated { -plain } else { plain }
    }

    /// The entry in a row, unless the column is negated.
    fn plain_entry(self, measure: Measure, players: u32, row: u32) -> u32
        requires { players ≤ 16 }
        ensures value { pos result ≡ plain_entry measure players self.coalition self.level row }
        ensures small { result ≤ 64 }
    {
        if row < players {
            u32::from(self.coalition.contains(row))
        } else if self.level == Some(row - players) {
            level_entry(measure, self.coalition)
        } else {
            0
        }
    }
}

/// The column of a coalition.
pub(crate) fn plain<W: Worth>(game: &W, s: Coalition, level: Option<u32>) -> Column
    requires { s < 2 ^ (W.game game.now).players }
    ensures { result ≡ plain (W.game game.now) s level }
{
    Column::new(s, level, game.worth(s))
}

/// The column of a coalition, negated.
pub(crate) fn minus<W: Worth>(game: &W, s: Coalition, level: Option<u32>) -> Column
    requires { s < 2 ^ (W.game game.now).players }
    ensures { result ≡ minus (W.game game.now) s level }
{
    game.players(); // Brings the laws of the game.
    Column::minus(s, level, game.worth(s))
}

/// The column of a player alone, for imputations.
pub(crate) fn single<W: Worth>(game: &W, family: Family, i: u32) -> Option<Column>
    requires { i < (W.game game.now).players }
    ensures { result ≡ single family (W.game game.now) i }
{
    game.players(); // Brings the laws of the game.
    match family {
        Family::Imputations => Some(plain(game, Coalition::single(i), None)),
        Family::Preimputations => None,
    }
}

/// The column of a player alone, negated, for imputations and if a level bounds the player.
pub(crate) fn bound<W: Worth>(game: &W, family: Family, levels: &[Level], i: u32) -> Option<Column>
    requires { i < (W.game game.now).players }
    ensures { result ≡ bound family (W.game game.now) levels.now i }
{
    game.players(); // Brings the laws of the game.
    if family == Family::Imputations && Level::has_bound(levels, i) {
        Some(minus(game, Coalition::single(i), None))
    } else {
        None
    }
}
