//! The game of each kind, of a number of players and a seed.
ghost use Rattle.std.specs.Prelude.{◌≡◌, IfOk, length, All};
ghost use Rattle.std.specs.Prelude.{◌^◌, ◌<◌, ◌≤◌, ◌-◌, ◌/◌, ◌+◌, sum, unsigned_abs};
ghost use Rattle.std.specs.List.{sum_by};
ghost use Rattle.worth_tables.specs.Tables.{table};
ghost use Rattle.bankruptcy.specs.Bankruptcy.{bankruptcy};
ghost use Rattle.drawn_games.specs.Draws.{short_draw};
ghost use Rattle.drawn_games.specs.Numbers.{table_numbers, long_draws, rows_of, link, pair_value};

use crate::draws::long_draws;
use crate::matrices_of_draws::{link_matrix, pair_matrix};
use crate::table_of_draws::table_numbers;
use airport::{AirportFault, AirportGame};
use assignment_games::{AssignmentFault, AssignmentGame};
use bankruptcy::{BankruptcyFault, BankruptcyGame};
use fractions::OutOfMemory;
use std::alloc::Global;
use tree_games::{TreeFault, TreeGame};
use worth_tables::{TableFault, TableGame};

/// Draws a table: 0 for each player alone, and a number below 2^20 for each other coalition.
pub fn table(alloc: Global, n: u32, seed: u32) -> Result<TableGame, OutOfMemory>
    requires some { 1 ≤ n }
    requires few { n ≤ 16 }
    requires seed { seed < 2 ^ 31 }
    ensures { IfOk result (λ t. t ≡ table n (table_numbers seed n)) }
{
    let numbers = table_numbers(alloc, n, seed)?;
    match TableGame::new(alloc, n, numbers) {
        Ok(game) => Ok(game),
        Err(TableFault::Memory) => Err(OutOfMemory),
        Err(TableFault::Players) => unreachable!(),
        Err(TableFault::Number) => unreachable!(),
    }
}

/// Draws an airport: a cost below 2^20 for each player.
pub fn airport(alloc: Global, n: u32, seed: u32) -> Result<AirportGame, OutOfMemory>
    requires some { 1 ≤ n }
    requires few { n ≤ 64 }
    requires seed { seed < 2 ^ 31 }
    ensures { IfOk result (λ a. a.costs ≡ long_draws seed n) }
{
    let costs = long_draws(alloc, n, seed)?;
    match AirportGame::new(alloc, costs) {
        Ok(game) => Ok(game),
        Err(AirportFault::Memory) => Err(OutOfMemory),
        Err(AirportFault::Players) => unreachable!(),
        Err(AirportFault::Number) => unreachable!(),
    }
}

/// Draws a claim below 2^20 for each player, and takes half of all claims, rounded down, as the estate.
pub fn bankruptcy(alloc: Global, n: u32, seed: u32) -> Result<BankruptcyGame, OutOfMemory>
    requires some { 1 ≤ n }
    requires few { n ≤ 64 }
    requires seed { seed < 2 ^ 31 }
    ensures { IfOk result (λ b. b ≡ bankruptcy (sum (long_draws seed n) / 2) (long_draws seed n)) }
{
    let claims = long_draws(alloc, n, seed)?;
    let estate = total(&claims) / 2;
    match BankruptcyGame::new(alloc, estate as i64, claims) {
        Ok(game) => Ok(game),
        Err(BankruptcyFault::Memory) => Err(OutOfMemory),
        Err(BankruptcyFault::Players) => unreachable!(),
        Err(BankruptcyFault::Number) => unreachable!(),
        Err(BankruptcyFault::Estate) => unreachable!(),
    }
}

/// What all claim together.
fn total(claims: &[i64]) -> u64
    requires few { length claims.now ≤ 64 }
    requires small { All (λ c. unsigned_abs c < 2 ^ 20) claims.now }
    ensures value { result ≡ sum_by unsigned_abs claims.now }
    ensures small { result ≤ 2 ^ 26 }
{
    let mut total: u64 = 0;
    for claim in claims {
        total += claim.unsigned_abs();
    }
    total
}

/// Draws a cost below 2^16 for each link between two of the source and the players.
pub fn tree(alloc: Global, n: u32, seed: u32) -> Result<TreeGame, OutOfMemory>
    requires some { 1 ≤ n }
    requires few { n ≤ 16 }
    requires seed { seed < 2 ^ 31 }
    ensures { IfOk result (λ t. t ≡ rows_of (n + 1) (n + 1) (link (short_draw seed) n)) }
{
    let matrix = link_matrix(alloc, n, seed)?;
    match TreeGame::new(alloc, matrix) {
        Ok(game) => Ok(game),
        Err(TreeFault::Memory) => Err(OutOfMemory),
        Err(TreeFault::Players) => unreachable!(),
        Err(TreeFault::Number) => unreachable!(),
        Err(TreeFault::Matrix) => unreachable!(),
    }
}

/// Draws a value below 2^16 for each pair of a buyer and a seller. Half of the players, rounded down, are buyers.
pub fn assignment(alloc: Global, n: u32, seed: u32) -> Result<AssignmentGame, OutOfMemory>
    requires some { 2 ≤ n }
    requires few { n ≤ 16 }
    requires seed { seed < 2 ^ 31 }
    ensures { IfOk result (λ a. a ≡ rows_of (n / 2) (n - n / 2) (pair_value (short_draw seed) (n - n / 2))) }
{
    let matrix = pair_matrix(alloc, n / 2, n - n / 2, seed)?;
    match AssignmentGame::new(alloc, matrix) {
        Ok(game) => Ok(game),
        Err(AssignmentFault::Memory) => Err(OutOfMemory),
        Err(AssignmentFault::Players) => unreachable!(),
        Err(AssignmentFault::Number) => unreachable!(),
        Err(AssignmentFault::Matrix) => unreachable!(),
    }
}
