//! A program whose columns are kept in a list, each under its number.
//!
//! No command asks for it: it says column by column, in a list that can be looked at, what `Lazy` finds by number. The
//! tests of `Lazy` compare the two, and a caller who wants the columns of a small game has them here.

ghost use Rattle.std.specs.Prelude.{◌≡◌, ◌≤◌, MatchOption, ℕ, ◌+◌, ◌^◌, ◌<◌, unsigned_abs, length, IfOk};
ghost use Rattle.std.specs.Option.{ForSome};
ghost use Rattle.separation.specs.Balanced.{balanced_program};
ghost use Rattle.separation.specs.Kept.{column_at, kept_program, AreSmall, AreShort};
ghost use Rattle.separation.specs.Making.{listed, balanced_column};
ghost use Rattle.separation.specs.Same.{IsSame};
ghost use Rattle.separation.specs.Values.{AreSums, Improves, IsFirst};

use crate::column::{Column, plain};
use crate::sums::{improves, wide};
use crate::tables::Sums;
use coalitions::Coalition;
use definitions::Measure;
use fractions::OutOfMemory;
use simplex::{ColumnId, Columns, Multipliers};
use std::alloc::{AllocError, Global};
use worth_core::Worth;

/// A program with all its columns, the level rows behind those of the players.
#[derive(Drop)]
pub struct Listed {
    measure: Measure,
    players: u32,
    levels: u32,
    columns: Vec<Option<Column>>,
    ghost few_players: { players ≤ 16 },
    ghost few_levels: { levels ≤ 15 },
    ghost small: { AreSmall levels columns.items },
    ghost short: { AreShort measure players levels columns.items },
}

/// The column under a number.
fn column_at(columns: &[Option<Column>], id: ColumnId) -> Option<Column>
    ensures { result ≡ column_at columns.now id }
{
    if id < columns.len() as u64 {
        columns[id as usize]
    } else {
        None
    }
}

/// The number of the first column whose cost is above its value, without costs as if each were 0.
pub(crate) fn first_improving(
    columns: &[Option<Column>],
    m: &Multipliers,
    measure: Measure,
    n: u32,
    sums: &Sums<'_>,
    with_costs: bool,
) -> Option<ColumnId>
    requires within { (id : ℕ) → ForSome (column_at columns.now id)
        (λ c. ForSome c.level (λ l. n + l < length m.now.num.items)) }
    requires small { (id : ℕ) → ForSome (column_at columns.now id) (λ c. unsigned_abs c.cost < 2 ^ 46) }
    requires players { n ≤ length m.now.num.items }
    requires sums { AreSums m.now.num.items n sums.now }
    ensures { MatchOption result
        ((id : ℕ) → ¬ Improves measure m.now.num.items m.now.den n with_costs (column_at columns.now id))
        (IsFirst measure m.now.num.items m.now.den n with_costs columns.now) }
{
    for id in 0..columns.len() {
        if improves(columns[id], m, measure, n, sums, with_costs) {
            return Some(id as ColumnId);
        }
    }
    None
}

impl Listed {
    /// The program of these columns by a measure, each under its place, with so many rows of players and of levels.
    pub(crate) fn of(
        measure: Measure,
        players: u32,
        levels: u32,
        columns: Vec<Option<Column>>,
    ) -> Listed
        requires few { players ≤ 16 }
        requires few_levels { levels ≤ 15 }
        requires small { AreSmall levels columns.items }
        requires short { AreShort measure players levels columns.items }
        ensures measure { result.measure ≡ measure }
        ensures players { result.players ≡ players }
        ensures levels { result.levels ≡ levels }
        ensures columns { result.columns.items ≡ columns.items }
    {
        Listed {
            measure,
            players,
            levels,
            columns,
        }
    }
}

impl Columns for Listed {
    ghost use Rattle.separation.specs.Lawful.{kept_lawful};

    ghost program = { λ l. kept_program l.measure l.players l.levels l.columns.items };

    ghost players = { λ l. l.players };

    ghost lawful = { λ l. kept_lawful l.measure l.players l.levels l.columns.items
        l.few_players l.few_levels l.small l.short };

    fn rows(&self) -> u32 {
        self.players + self.levels
    }

    fn right(&self, row: u32) -> i32 {
        if self.levels == 0 || row + 1 == self.players + self.levels {
            1
        } else {
            0
        }
    }

    fn has(&self, id: u64) -> bool {
        column_at(&self.columns, id).is_some()
    }

    fn entry(&self, id: u64, row: u32) -> i32 {
        match column_at(&self.columns, id) {
            Some(column) => column.entry(self.measure, self.players, row),
            None => 0,
        }
    }

    fn cost(&self, id: u64) -> i64 {
        match column_at(&self.columns, id) {
            Some(column) => column.cost,
            None => 0,
        }
    }

    fn entering(&mut self, m: &Multipliers, with_costs: bool) -> Option<u64> {
        let tables = wide(m, self.players);
        first_improving(
            &self.columns,
            m,
            self.measure,
            self.players,
            &Sums::Wide(&tables),
            with_costs,
        )
    }
}

/// The column of a coalition, unless it is empty.
fn nonempty<W: Worth>(game: &W, s: Coalition) -> Option<Column>
    requires { s < 2 ^ (W.game game.now).players }
    ensures { result ≡ balanced_column (W.game game.now) s }
{
    if s.0 > 0 {
        Some(plain(game, s, None))
    } else {
        None
    }
}

/// The columns of the balanced program, each under its mask.
fn balanced_columns<W: Worth>(alloc: Global, game: &W) -> Result<Vec<Option<Column>>, AllocError>
    requires { (W.game game.now).players ≤ 16 }
    ensures { IfOk result (λ v. v.items ≡ listed (2 ^ (W.game game.now).players) (balanced_column (W.game game.now))) }
{
    let mut columns = Vec::new(alloc);
    for s in 0..1u64 << game.players() {
        columns.push(nonempty(game, Coalition(s)))?;
    }
    Ok(columns)
}

impl Listed {
    /// Makes the balanced program of a game of at most 16 players (Bondareva 1963, Shapley 1967): the greatest worth
    /// that coalitions have by weights that hold each player once. If that is the worth of all, the multipliers are a
    /// point of the core. If it is more, the weights show that there is none. Fails only if memory runs out.
    pub fn balanced<W: Worth>(alloc: Global, game: &W) -> Result<Listed, OutOfMemory>
        requires { (W.game game.now).players ≤ 16 }
        ensures { IfOk result (λ l. (⟦<Listed as Columns>⟧.players l ≡ (W.game game.now).players)
            × IsSame (⟦<Listed as Columns>⟧.program l) (balanced_program (W.game game.now))) }
    {
        match balanced_columns(alloc, game) {
            Ok(columns) => {
                let players = game.players();
                Ok(Listed::of(Measure::Plain, players, 0, columns))
            }
            Err(_) => Err(OutOfMemory),
        }
    }
}
