//! A game given by the worth of each coalition.
ghost use Rattle.std.specs.Prelude.{◌≡◌, ◌↔◌, ◌^◌, ◌<◌, IsTrue, All, MatchResult, unsigned_abs};

use coalitions::Coalition;
use std::alloc::Global;
use std::marker::Model;
use worth_core::Worth;

/// Why a table makes no game. If several causes apply, the first of them is returned.
#[derive(Clone, Copy, Debug, PartialEq, Eq)]
pub enum TableFault {
    /// There aren't 1 to 16 players, or the table doesn't list one worth for each coalition but the empty one.
    Players,
    /// A worth is 2^40 or more in size.
    Number,
    /// There was no memory.
    /// `TableGame::new` takes none and never gives this: it is part of a promised signature.
    Memory,
}

/// The worth of each coalition but the empty one, in mask order.
#[derive(Debug, Drop)]
pub struct TableGame {
    players: u32,
    worths: Vec<i64>,
}

impl Model for TableGame {
    ghost use Rattle.worth_tables.specs.Tables.{Table, IsTable, table};

    ghost Value = { Table };

    ghost view = { λ t. table t.players t.worths.items };

    ghost invariant = { λ t. IsTable (table t.players t.worths.items) };
}

impl TableGame {
    ghost use Rattle.worth_tables.specs.Tables.{table, IsTable, IsRefused};

    /// Makes the game of 1 to 16 players with these worths, each below 2^40 in size, in mask order from 1. Otherwise
    /// returns the first cause in the order of `TableFault`. It takes no memory.
    pub fn new(_alloc: Global, n: u32, worths: Vec<i64>) -> Result<TableGame, TableFault>
        ensures { let kept = table n worths.items in
            MatchResult result (λ t. (t ≡ kept) × IsTable kept) (IsRefused kept) }
    {
        if n < 1 || n > 16 {
            return Err(TableFault::Players);
        }
        if worths.len() != (1 << n) - 1 {
            return Err(TableFault::Players);
        }
        if !all_small(&worths) {
            return Err(TableFault::Number);
        }
        Ok(TableGame { players: n, worths })
    }
}

impl Worth for TableGame {
    ghost use Rattle.worth_tables.specs.Tables.{table_game};

    ghost game = { table_game };

    fn players(&self) -> u32 {
        self.players
    }

    fn worth(&self, s: Coalition) -> i64 {
        if s == Coalition::empty() {
            0
        } else {
            self.worths[s.0 as usize - 1]
        }
    }
}

/// Whether each worth is below 2^40 in size.
fn all_small(worths: &[i64]) -> bool
    ensures { IsTrue result ↔ All (λ w. unsigned_abs w < 2 ^ 40) worths.now }
{
    worths.iter().all(|w| w.unsigned_abs() < 1 << 40)
}
