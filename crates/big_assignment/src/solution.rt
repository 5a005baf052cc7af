//! A market's solution: an optimal matching, and the two ends of the core.
ghost use Rattle.std.specs.Prelude.{◌≡◌, ◌+◌, ◌<◌, ◌≤◌, pos, length, IfOk};
ghost use Rattle.big_assignment.specs.Mates.{pairs_from};
ghost use Rattle.assignment_games.specs.Assignments.{assignment_game};
ghost use Rattle.definitions.specs.Sides.{IsBestFor, IsBuyer, IsSeller};
ghost use Rattle.big_assignment.specs.Deals.{AreColumns, mate_of};
ghost use Rattle.big_assignment.specs.Solutions.{IsOptimalMatching, player_pairs};

use crate::deal::Deal;
use crate::market_game::MarketGame;
use fractions::OutOfMemory;
use std::alloc::Global;
use worth_core::{Shares, Worth};

/// An optimal matching of a market with its value, and the core points that are best for every buyer and for every
/// seller.
#[derive(Debug, Drop)]
pub struct Solution {
    /// Each matched buyer with its seller, as players counted from 0, the buyers ascending. Seller `j` of `n` buyers is
    /// player `n + j`.
    pub pairs: Vec<(u32, u32)>,
    /// What the pairs are worth together: the worth of all players.
    pub value: i64,
    /// The core point of the least prices, over the denominator 1: none gives any buyer more, or any seller less.
    pub buyers_best: Shares,
    /// The core point of the greatest prices, over the denominator 1: none gives any seller more, or any buyer less.
    pub sellers_best: Shares,
}

/// Each row that has a column with the player of that column, ascending.
fn pairs_of(
    alloc: Global,
    deal: &Deal,
    rows: u32,
    columns: u32,
) -> Result<Vec<(u32, u32)>, OutOfMemory>
    requires rows { rows ≤ 32 }
    requires few { columns ≤ 32 }
    requires columns { AreColumns deal.now rows }
    ensures { IfOk result
        (λ pairs. pairs.items ≡ player_pairs rows (pairs_from (mate_of deal.now) columns 0 rows)) }
{
    let mut pairs = Vec::new(alloc);
    for i in 0..rows {
        let column = deal.mate(i as usize) as u32;
        if column < columns {
            pairs.push((i, rows + column))?;
        }
    }
    Ok(pairs)
}

impl MarketGame {
    /// Returns an optimal matching, and the core points best for every buyer and for every seller (Shapley and Shubik
    /// 1971). Each of the two shows that the matching is optimal: it shares out its value, and no pair blocks it.
    /// Which optimal matching it is stays open.
    ///
    /// Fails only if memory runs out.
    pub fn solve(&self, alloc: Global) -> Result<Solution, OutOfMemory>
        ensures pairs { IfOk result (λ solution. IsOptimalMatching self.now solution.pairs.items solution.value) }
        ensures buyers { IfOk result
            (λ solution. IsBestFor (assignment_game self.now) (IsBuyer (length self.now)) solution.buyers_best) }
        ensures sellers { IfOk result
            (λ solution. IsBestFor (assignment_game self.now) (IsSeller (length self.now)) solution.sellers_best) }
        ensures den { IfOk result
            (λ solution. (solution.buyers_best.den ≡ pos 1) × (solution.sellers_best.den ≡ pos 1)) }
    {
        let deal = self.deal_of_all();
        let pairs = pairs_of(alloc, &deal, self.buyers(), self.sellers())?;
        let buyers_best = self.buyers_end(alloc, &deal)?;
        let sellers_best = self.sellers_end(alloc, &deal)?;
        Ok(Solution {
            pairs,
            value: self.worth(self.everybody()),
            buyers_best,
            sellers_best,
        })
    }
}
