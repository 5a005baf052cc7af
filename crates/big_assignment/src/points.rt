//! The two ends of the core: the points of the least and of the greatest prices.
ghost use Rattle.std.specs.Prelude.{◌≡◌, ℕ, ◌+◌, ◌^◌, ◌<◌, ◌≤◌, pos, length, slice_index, IfOk};
ghost use Rattle.definitions.specs.Sides.{IsBestFor, IsBuyer, IsSeller};
ghost use Rattle.assignment_games.specs.Assignments.{assignment_game};
ghost use Rattle.big_assignment.specs.Mates.{payoff};
ghost use Rattle.big_assignment.specs.Solutions.{IsWhole};
ghost use Rattle.big_assignment.specs.Deals.{IsDealOfAll};

use crate::deal::{Deal, PLACES};
use crate::least::cheapest;
use crate::market_game::MarketGame;
use crate::payoffs::payoff_of;
use crate::turned::exchanged;
use fractions::OutOfMemory;
use std::alloc::Global;
use worth_core::{Shares, Worth};

/// What each player gets, as shares over 1.
fn shares_of(
    alloc: Global,
    rows: u32,
    players: u32,
    gains: &[u64; PLACES],
    prices: &[u64; PLACES],
) -> Result<Shares, OutOfMemory>
    requires rows { rows ≤ 32 }
    requires some { 1 ≤ players }
    requires players { players ≤ rows + 32 }
    requires small { (k : ℕ) → k < players → payoff rows (slice_index gains.now) (slice_index prices.now) k ≤ 2 ^ 40 }
    ensures { IfOk result (λ x. IsWhole players x 1 (payoff rows (slice_index gains.now) (slice_index prices.now))) }
{
    let mut num = Vec::new(alloc);
    for k in 0..players {
        num.push(i128::from(payoff_of(rows, gains, prices, k)))?;
    }
    Ok(Shares::new(num, 1).unwrap())
}

impl MarketGame {
    /// The core point of the least prices.
    pub(crate) fn buyers_end(&self, alloc: Global, deal: &Deal) -> Result<Shares, OutOfMemory>
        requires { IsDealOfAll self.now deal.now }
        ensures best { IfOk result (λ x. IsBestFor (assignment_game self.now) (IsBuyer (length self.now)) x) }
        ensures den { IfOk result (λ x. x.den ≡ pos 1) }
    {
        let rows = self.buyers();
        let low = cheapest(deal, rows as usize);
        shares_of(alloc, rows, self.players(), &low.gains, &low.prices)
    }

    /// The core point of the greatest prices: the least of the other side, with rows and columns exchanged.
    pub(crate) fn sellers_end(&self, alloc: Global, deal: &Deal) -> Result<Shares, OutOfMemory>
        requires { IsDealOfAll self.now deal.now }
        ensures best { IfOk result (λ x. IsBestFor (assignment_game self.now) (IsSeller (length self.now)) x) }
        ensures den { IfOk result (λ x. x.den ≡ pos 1) }
    {
        let (rows, columns) = (self.buyers(), self.sellers());
        let turned = exchanged(deal, rows as usize, columns as usize);
        let high = cheapest(&turned, columns as usize);
        shares_of(alloc, rows, self.players(), &high.prices, &high.gains)
    }
}
