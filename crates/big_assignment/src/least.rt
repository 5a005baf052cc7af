//! The least prices at which each row is content with its column: prices rise from 0, and only while a row would rather
//! have another column (Shapley and Shubik 1971; Demange, Gale and Sotomayor 1986).
ghost use Rattle.std.specs.Prelude.{ℕ, ◌<◌, ◌≤◌, slice_index};
ghost use Rattle.big_assignment.specs.Deals.{AreColumns, AreDealOffers, IsBelow, IsContentAt, IsFair, IsGain};
ghost use Rattle.big_assignment.specs.Deals.{NoneWanted, at_prices, mate_of, offer_of};

use crate::deal::{Deal, PLACES};

/// The prices after row `i` had its turn: each column that it would rather have than its own costs so much more that
/// the row is content.
fn after_turn(deal: &Deal, n: usize, i: usize, prices: &[u64; PLACES]) -> [u64; PLACES]
    requires rows { n ≤ 32 }
    requires row { i < n }
    requires offers { AreDealOffers deal.now }
    requires fair { IsFair deal.now n }
    requires below { IsBelow deal.now n (slice_index prices.now) }
    ensures below { IsBelow deal.now n (slice_index result) }
    ensures more { (k : ℕ) → k ≤ 32 → slice_index prices.now k ≤ slice_index result k }
    ensures content { IsContentAt deal.now (slice_index prices.now) (slice_index result) i }
{
    let own = deal.mate(i);
    let gain = deal.offer(i, own);
    let mut raised = *prices;
    for k in 0..PLACES {
        let other = deal.offer(i, k) + prices[own];
        if gain + prices[k] < other {
            raised[k] = other - gain;
        }
    }
    raised
}

/// The prices after each row had its turn, one after the other.
fn after_round(deal: &Deal, n: usize, prices: &[u64; PLACES]) -> [u64; PLACES]
    requires rows { n ≤ 32 }
    requires offers { AreDealOffers deal.now }
    requires fair { IsFair deal.now n }
    requires below { IsBelow deal.now n (slice_index prices.now) }
    ensures below { IsBelow deal.now n (slice_index result) }
    ensures more { (k : ℕ) → k ≤ 32 → slice_index prices.now k ≤ slice_index result k }
    ensures content { (i : ℕ) → i < n → IsContentAt deal.now (slice_index prices.now) (slice_index result) i }
{
    let mut raised = *prices;
    for i in 0..n {
        raised = after_turn(deal, n, i, &raised);
    }
    raised
}

/// The least prices at which each row is content. In each round, as in Bellman 1958, one price more gets as high as it
/// has to be: so as many rounds as there are places suffice, and a price is raised in at most that many turns of each
/// row.
fn least_prices(deal: &Deal, n: usize) -> [u64; PLACES]
    requires rows { n ≤ 32 }
    requires offers { AreDealOffers deal.now }
    requires fair { IsFair deal.now n }
    ensures below { IsBelow deal.now n (slice_index result) }
    ensures content { (i : ℕ) → i < n → NoneWanted deal.now (slice_index result) i }
{
    let mut prices = [0; PLACES];
    for _round in 0..PLACES {
        let raised = after_round(deal, n, &prices);
        if raised == prices {
            return prices;
        }
        prices = raised;
    }
    prices
}

/// What each row gains at these prices.
fn gains_at(deal: &Deal, n: usize, prices: &[u64; PLACES]) -> [u64; PLACES]
    requires rows { n ≤ 32 }
    requires columns { AreColumns deal.now n }
    requires less { (i : ℕ) → i < n
        → slice_index prices.now (mate_of deal.now i) ≤ offer_of deal.now i (mate_of deal.now i) }
    ensures { IsGain deal.now n (slice_index prices.now) (slice_index result) }
{
    let mut gains = [0; PLACES];
    for i in 0..n {
        let own = deal.mate(i);
        gains[i] = deal.offer(i, own) - prices[own];
    }
    gains
}

/// Returns the deal with the columns that it has, at the least prices.
pub(crate) fn cheapest(deal: &Deal, n: usize) -> Deal
    requires rows { n ≤ 32 }
    requires offers { AreDealOffers deal.now }
    requires fair { IsFair deal.now n }
    ensures fair { IsFair (at_prices deal.now result.gains result.prices) n }
    ensures below { IsBelow deal.now n (slice_index result.prices) }
{
    let prices = least_prices(deal, n);
    let gains = gains_at(deal, n, &prices);
    Deal {
        table: deal.table,
        gains,
        prices,
        columns: deal.columns,
    }
}
