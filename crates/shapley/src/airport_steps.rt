//! The Shapley value of an airport game, step by step of the costs (Littlechild and Owen 1973).
ghost use Rattle.std.specs.Prelude.{◌≡◌, IfOk, IsErrOf, ◌↔◌, length, slice_index};
ghost use Rattle.std.specs.Prelude.{ℕ, ◌-◌, ◌*◌, ◌^◌, ◌<◌, ◌≤◌, unsigned_abs, pos, neg_ℤ};
ghost use Rattle.definitions.specs.Shapley.{IsShapley};
ghost use Rattle.airport.specs.Airport.{airport_game};
ghost use Rattle.shapley.specs.Layers.{common, above, count, units_below};

use crate::{COMMON, ShapleyFault};
use airport::AirportGame;
use std::alloc::{AllocError, Global};
use worth_core::Shares;

/// The cost of player `i`.
fn cost_of(game: &AirportGame, i: u32) -> u64
    requires { i < length game.now.costs }
    ensures value { result ≡ slice_index game.now.costs i }
    ensures small { result < 2 ^ 40 }
{
    game.cost(i) as u64
}

/// How many players have a cost above `cost`.
fn count_above(game: &AirportGame, cost: u64) -> u64
    requires { length game.now.costs ≤ 32 }
    ensures value { result ≡ count (above (slice_index game.now.costs) cost) (length game.now.costs) }
    ensures few { result ≤ 32 }
{
    let mut found = 0;
    for i in 0..game.len() {
        if cost < cost_of(game, i) {
            found += 1;
        }
    }
    found
}

/// The least of the costs above `from`, and `upto` if none of them is less.
fn next_cost(game: &AirportGame, from: u64, upto: u64) -> u64
    requires { from < upto }
    ensures above { from < result }
    ensures within { result ≤ upto }
    ensures next { (j : ℕ) → j < length game.now.costs → from < slice_index game.now.costs j
        → result ≤ slice_index game.now.costs j }
{
    let mut next = upto;
    for i in 0..game.len() {
        let cost = cost_of(game, i);
        if from < cost && cost < next {
            next = cost;
        }
    }
    next
}

/// What each player above a step of the costs pays for it, over the common denominator.
fn step_cost(from: u64, next: u64, share: u64) -> u128
    requires order { from ≤ next }
    requires small { next ≤ 2 ^ 40 }
    requires share { share ≤ common }
    ensures { result ≡ (next - from) * share }
{
    (next - from) as u128 * share as u128
}

/// What player `i` pays, over the common denominator: each step of the costs up to its own is shared equally by the
/// players whose costs are above it.
fn paid(game: &AirportGame, i: u32) -> u128
    requires few { length game.now.costs ≤ 32 }
    requires player { i < length game.now.costs }
    ensures value { pos result ≡ units_below game.now.costs common (slice_index game.now.costs i) }
    ensures small { result < 2 ^ 88 }
{
    let cost = cost_of(game, i);
    let mut from = 0;
    let mut sum: u128 = 0;
    while from < cost {
        let next = next_cost(game, from, cost);
        sum += step_cost(from, next, COMMON / count_above(game, from));
        from = next;
    }
    sum
}

/// What player `i` gets, over the common denominator.
fn owed(game: &AirportGame, i: u32) -> i128
    requires few { length game.now.costs ≤ 32 }
    requires player { i < length game.now.costs }
    ensures value { result ≡ neg_ℤ (units_below game.now.costs common (slice_index game.now.costs i)) }
    ensures small { unsigned_abs result < 2 ^ 110 }
{
    -(paid(game, i) as i128)
}

/// The Shapley shares of an airport game of at most 32 players, over the common denominator.
fn step_shares(alloc: Global, game: &AirportGame) -> Result<Shares, AllocError>
    requires { length game.now.costs ≤ 32 }
    ensures value { IfOk result (IsShapley (airport_game game.now)) }
    ensures den { IfOk result (λ x. x.den ≡ pos common) }
{
    let mut num: Vec<i128> = Vec::new(alloc);
    for i in 0..game.len() {
        num.push(owed(game, i))?;
    }
    Ok(Shares::new(num, COMMON as i128).unwrap())
}

/// Returns the Shapley shares of an airport game of at most 32 players, as worths over the least common multiple of 1
/// to 32: each step of the sorted costs is shared equally by the players at or above it (Littlechild and Owen 1973).
///
/// # Errors
///
/// `TooMany` exactly if there are more than 32 players; `Memory` if memory for the shares runs out.
pub fn airport_shapley(alloc: Global, game: &AirportGame) -> Result<Shares, ShapleyFault>
    ensures value { IfOk result (IsShapley (airport_game game.now)) }
    ensures den { IfOk result (λ x. x.den ≡ pos common) }
    ensures too_many { IsErrOf result ShapleyFault.TooMany ↔ (32 < length game.now.costs) }
{
    if game.len() > 32 {
        return Err(ShapleyFault::TooMany);
    }
    step_shares(alloc, game).map_err(|_| ShapleyFault::Memory)
}
