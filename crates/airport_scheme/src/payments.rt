//! The payments of the scheme, by place and by player.
ghost use Rattle.std.specs.Prelude.{◌≡◌, IfOk, OnOk};
ghost use Rattle.std.specs.Prelude.{ℕ, ◌^◌, ◌<◌, pos, ◌*ℤ◌, unsigned_abs};
ghost use Rattle.std.specs.Prelude.{length, slice_index_or, All};
ghost use Rattle.airport.specs.Airport.{IsAirport, place};
ghost use Rattle.airport_scheme.specs.Scheme.{cost_at, IsGrown, IsPayment, IsByPlayer};

use crate::rates::{next, times};
use airport::AirportGame;
use std::alloc::{AllocError, Global};

/// The payments at the places, over a common denominator.
#[derive(Drop)]
pub(crate) struct Paid {
    pub(crate) pay: Vec<i128>,
    pub(crate) den: i128,
}

/// Each payment times a small number.
fn scale(pay: &mut [i128], size: i128)
    requires small { All (λ z. unsigned_abs z < 2 ^ 104) pay.old }
    requires size { unsigned_abs size < 2 ^ 7 }
    ensures { (k : ℕ) → k < length pay.old
        → slice_index_or pay.new k (pos 0) ≡ slice_index_or pay.old k (pos 0) *ℤ size }
{
    for k in 0..pay.len() {
        pay[k] = times(pay[k], size);
    }
}

/// The payments over `size` times the denominator, and `count` new ones behind them.
fn grow(pay: &mut Vec<i128>, size: i128, rate: i128, count: u32) -> Result<(), AllocError>
    requires small { All (λ z. unsigned_abs z < 2 ^ 104) pay.old.items }
    requires size { unsigned_abs size < 2 ^ 7 }
    requires rate { unsigned_abs rate < 2 ^ 105 }
    ensures { OnOk result (IsGrown pay.old.items size rate count pay.new.items) }
{
    scale(pay, size);
    for d in 0..count {
        pay.push(rate)?;
    }
    Ok(())
}

/// The payment at each place, block by block.
pub(crate) fn by_place(alloc: Global, game: &AirportGame) -> Result<Paid, AllocError>
    ensures payment { IfOk result (λ p. IsPayment (length game.now.costs) (cost_at game.now) p.pay.items p.den) }
    ensures laws { IsAirport game.now }
{
    let n = game.len();
    let mut pay = Vec::new(alloc);
    let mut den: i128 = 1;
    let mut paid: i128 = 0;
    let mut done = 0;
    while done < n {
        let block = next(game, done, den, paid);
        let count = block.last + 1 - done;
        grow(&mut pay, block.size, block.value, count)?;
        paid = times(paid, block.size) + times(block.value, count as i128);
        den = times(den, block.size);
        done = block.last + 1;
    }
    Ok(Paid { pay, den })
}

/// The share of each player: minus the payment of its place.
pub(crate) fn by_player(
    alloc: Global,
    game: &AirportGame,
    pay: &[i128],
) -> Result<Vec<i128>, AllocError>
    requires long { length pay.now ≡ length game.now.costs }
    requires small { All (λ z. unsigned_abs z < 2 ^ 104) pay.now }
    ensures { IfOk result (λ v. IsByPlayer (length game.now.costs) (place game.now) pay.now v.items) }
{
    let n = game.len();
    let mut num = vec![in alloc; 0; n as usize]?;
    for k in 0..n {
        num[game.place(k) as usize] = -pay[k as usize];
    }
    Ok(num)
}
