//! The levels of the blocks, the runs of places that pay the same.
ghost use Rattle.std.specs.Prelude.{◌≡◌, IfOk, if◌then◌else◌};
ghost use Rattle.std.specs.Prelude.{◌+◌, ◌-◌, ◌^◌, ◌<◌, ◌≤◌, pos, unsigned_abs, nat_lt};
ghost use Rattle.std.specs.Prelude.{length, [], ◌∷◌, All};
ghost use Rattle.std.specs.List.{AllByRecursion};
ghost use Rattle.kohlberg.specs.Solved.{IsLowest};
ghost use Rattle.airport.specs.Airport.{place};
ghost use Rattle.orders.specs.Orders.{front};
ghost use Rattle.airport_scheme.specs.Scheme.{cost_at, pay_at, IsPayment};
ghost use Rattle.airport_scheme.specs.Levels.{IsRunEnd, IsBlock, AreLevels, with_others, front_pair};

use crate::payments::Paid;
use airport::AirportGame;
use coalitions::Coalition;
use kohlberg::{Level, put_pair};
use std::alloc::{AllocError, Global};
use worth_core::ratio;

/// A pair, or nothing.
fn pair_if(
    alloc: Global,
    s: Coalition,
    w: i128,
    given: bool,
) -> Result<Vec<(Coalition, i128)>, AllocError>
    ensures { IfOk result (λ v. v.items ≡ (if given then (s, w) ∷ [] else [])) }
{
    let mut v = Vec::new(alloc);
    if given {
        v.push((s, w))?;
    }
    Ok(v)
}

/// The coalitions of the block from place `i` up to place `k`: all but one of its players, and the first `k` players
/// if others follow.
fn block_coalitions(
    alloc: Global,
    game: &AirportGame,
    i: u32,
    k: u32,
    after: Coalition,
) -> Result<Vec<(Coalition, i128)>, AllocError>
    requires some { i < k }
    requires within { k ≤ length game.now.costs }
    requires after { after ≡ front (place game.now) k }
    ensures { IfOk result (λ v. v.items ≡ with_others (length game.now.costs) (place game.now)
        (front_pair (place game.now) k (pos 1) (nat_lt k (length game.now.costs))) i (k - i)) }
{
    let n = game.len();
    let mut v = pair_if(alloc, after, 1, k < n)?;
    for j in i..k {
        put_pair(&mut v, Coalition::single(game.place(j)).complement(n), 1)?;
    }
    Ok(v)
}

/// The end of the block that begins at place `i`, and the players in front of it.
fn block_end(game: &AirportGame, pay: &[i128], i: u32, before: Coalition) -> (u32, Coalition)
    requires within { i < length game.now.costs }
    requires long { length pay.now ≡ length game.now.costs }
    requires small { All (λ z. unsigned_abs z < 2 ^ 104) pay.now }
    requires before { before ≡ front (place game.now) i }
    ensures end { IsRunEnd (length game.now.costs) (pay_at pay.now) i result.0 }
    ensures after { result.1 ≡ front (place game.now) result.0 }
{
    let n = game.len();
    let mut k = i;
    let mut after = before;
    while k < n && pay[k as usize] == pay[i as usize] {
        after = after.with(game.place(k));
        k += 1;
    }
    (k, after)
}

/// The level of the block from place `i` up to place `k`, between the players in front of it and those up to its end.
fn block_level(
    alloc: Global,
    game: &AirportGame,
    paid: &Paid,
    i: u32,
    k: u32,
    before: Coalition,
    after: Coalition,
) -> Result<Level, AllocError>
    requires two { i + 2 ≤ length game.now.costs }
    requires payment { IsPayment (length game.now.costs) (cost_at game.now) paid.now.pay.items paid.now.den }
    requires end { IsRunEnd (length game.now.costs) (pay_at paid.now.pay.items) i k }
    requires before { before ≡ front (place game.now) i }
    requires after { after ≡ front (place game.now) k }
    ensures block { IfOk result
        (λ l. IsBlock (length game.now.costs) (place game.now) (pay_at paid.now.pay.items) paid.now.den i k l) }
    ensures lowest { IfOk result IsLowest }
{
    let coalitions = block_coalitions(alloc, game, i, k, after)?;
    let earlier = pair_if(alloc, before, -1, i > 0)?;
    let size = (k - i) as i128;
    let total = if k < game.len() { size } else { size - 1 };
    let excess = ratio(-paid.pay[i as usize], paid.den);
    Ok(Level {
        excess,
        coalitions,
        earlier,
        bounds: Vec::new(alloc),
        total,
    })
}

/// The levels of the blocks that begin while two players are left.
pub(crate) fn all_levels(
    alloc: Global,
    game: &AirportGame,
    paid: &Paid,
) -> Result<Vec<Level>, AllocError>
    requires payment { IsPayment (length game.now.costs) (cost_at game.now) paid.now.pay.items paid.now.den }
    ensures levels { IfOk result
        (λ v. AreLevels (length game.now.costs) (place game.now) (pay_at paid.now.pay.items) paid.now.den v.items) }
    ensures lowest { IfOk result (λ v. AllByRecursion IsLowest v.items) }
{
    let n = game.len();
    let mut levels = Vec::new(alloc);
    let mut i = 0;
    let mut before = Coalition::empty();
    while i + 2 <= n {
        let (k, after) = block_end(game, &paid.pay, i, before);
        levels.push(block_level(alloc, game, paid, i, k, before, after)?)?;
        i = k;
        before = after;
    }
    Ok(levels)
}
