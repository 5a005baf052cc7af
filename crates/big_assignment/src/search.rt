//! One row more: columns are reached from it, and prices rise, until a free column is reached.
ghost use Rattle.std.specs.Prelude.{◌≡◌, ◌↔◌, ℕ, ◌+◌, ◌^◌, ◌<◌, ◌≤◌, true, false, IsTrue, slice_index, Option};
ghost use Rattle.big_assignment.specs.Deals.{AreColumns, AreDealOffers, IsCovered, IsFair, IsTight, gain_of};
ghost use Rattle.big_assignment.specs.Deals.{mate_of, price_of, with_columns};
ghost use Rattle.big_assignment.specs.Searches.{IsImproved, IsNearest, IsOpen, IsReached, IsSearch, rank_of, unreached};

use crate::deal::{Deal, PLACES, Search, column_at, place_of};

/// Whether row `i` is reached.
fn is_reached(deal: &Deal, search: &Search, n: usize, i: usize) -> bool
    requires rows { n < 32 }
    requires row { i ≤ n }
    requires columns { AreColumns deal.now n }
    ensures { IsTrue result ↔ IsReached deal.now search.now n i }
{
    i == n || search.ranks[deal.mate(i)] > 0
}

/// Of a pair and those of row `i` with columns that are not reached, the first with the least slack.
fn nearest_in_row(
    deal: &Deal,
    search: &Search,
    n: usize,
    i: usize,
    best: (usize, usize),
) -> (usize, usize)
    requires rows { n < 32 }
    requires covered { IsCovered deal.now n }
    requires row { i ≤ n }
    requires best_row { best.0 ≤ n }
    requires best_column { best.1 ≤ 32 }
    requires best_unreached { rank_of search.now best.1 ≡ 0 }
    ensures { IsImproved deal.now search.now i best result }
{
    let mut nearest = best;
    for k in 0..PLACES {
        if search.ranks[k] == 0 && deal.slack(n, i, k) < deal.slack(n, nearest.0, nearest.1) {
            nearest = (i, k);
        }
    }
    nearest
}

/// Of the reached rows and the columns that are not reached, the first pair with the least slack.
fn nearest(deal: &Deal, search: &Search, n: usize) -> (usize, usize)
    requires rows { n < 32 }
    requires covered { IsCovered deal.now n }
    requires columns { AreColumns deal.now n }
    requires free { rank_of search.now 32 ≡ 0 }
    ensures { IsNearest deal.now search.now n result.0 result.1 }
{
    let mut best = (n, place_of(None));
    for i in 0..n + 1 {
        if is_reached(deal, search, n, i) {
            best = nearest_in_row(deal, search, n, i, best);
        }
    }
    best
}

/// The gains after each reached row has given up `by` of its own.
fn lowered(deal: &Deal, search: &Search, n: usize, by: u64) -> [u64; PLACES]
    requires rows { n < 32 }
    requires columns { AreColumns deal.now n }
    requires enough { (i : ℕ) → i ≤ n → IsReached deal.now search.now n i → by ≤ gain_of deal.now i }
    ensures reached { (i : ℕ) → i ≤ n → IsReached deal.now search.now n i
        → slice_index result i + by ≡ gain_of deal.now i }
    ensures rest { (i : ℕ) → i < n → rank_of search.now (mate_of deal.now i) ≡ 0
        → slice_index result i ≡ gain_of deal.now i }
{
    let mut gains = deal.gains;
    for i in 0..n + 1 {
        if is_reached(deal, search, n, i) {
            gains[i] -= by;
        }
    }
    gains
}

/// The prices after those of the reached columns have risen by `by`.
fn raised(deal: &Deal, search: &Search, by: u64) -> [u64; PLACES]
    requires small { (k : ℕ) → k ≤ 32 → price_of deal.now k + by < 2 ^ 64 }
    ensures reached { (k : ℕ) → k ≤ 32 → 1 ≤ rank_of search.now k
        → slice_index result k ≡ price_of deal.now k + by }
    ensures rest { (k : ℕ) → k ≤ 32 → rank_of search.now k ≡ 0
        → slice_index result k ≡ price_of deal.now k }
{
    let mut prices = deal.prices;
    for k in 0..PLACES {
        if search.ranks[k] > 0 {
            prices[k] += by;
        }
    }
    prices
}

/// Whether one of the rows below `n` has column `k`; many may have none.
fn is_held(deal: &Deal, n: usize, k: usize) -> bool
    requires rows { n < 32 }
    requires column { k ≤ 32 }
    ensures held { result ≡ true → (k < 32) × ((i : ℕ) × (i < n) × (mate_of deal.now i ≡ k)) }
    ensures free { result ≡ false → (i : ℕ) → i < n → mate_of deal.now i ≡ k → k < 32 → ⊥ }
{
    if k == place_of(None) {
        return false;
    }
    for i in 0..n {
        if deal.mate(i) == k {
            return true;
        }
    }
    false
}

/// Lets prices rise until a column that isn't reached is tight with a row that is, and gives this row and this column.
fn approach(deal: &mut Deal, search: &Search, n: usize) -> (usize, usize)
    requires rows { n < 32 }
    requires offers { AreDealOffers deal.old }
    requires search { IsSearch deal.old search.now n }
    ensures table { deal.new.table ≡ deal.old.table }
    ensures search { IsSearch deal.new search.now n }
    ensures row { IsReached deal.new search.now n result.0 }
    ensures column { result.1 ≤ 32 }
    ensures unreached { rank_of search.now result.1 ≡ 0 }
    ensures tight { IsTight deal.new result.0 result.1 }
{
    let (i, k) = nearest(deal, search, n);
    let by = deal.slack(n, i, k);
    let gains = lowered(deal, search, n, by);
    deal.prices = raised(deal, search, by);
    deal.gains = gains;
    (i, k)
}

/// The columns after a free one is handed to its parent, which gives up its own to the parent of that, until row `n`
/// has one.
fn hand_over(deal: &Deal, search: &Search, n: usize, last: usize) -> [Option<usize>; PLACES]
    requires rows { n < 32 }
    requires open { IsOpen deal.now search.now n last }
    ensures { IsFair (with_columns deal.now result) (n + 1) }
{
    let mut columns = deal.columns;
    let mut k = last;
    loop {
        let i = search.parents[k];
        if i == n {
            columns[n] = column_at(k);
            return columns;
        }
        let freed = place_of(columns[i]);
        columns[i] = column_at(k);
        k = freed;
    }
}

/// Reaches one column more. Returns true if it was free: then row `n` has a column now.
fn advance(deal: &mut Deal, search: &mut Search, n: usize) -> bool
    requires rows { n < 32 }
    requires offers { AreDealOffers deal.old }
    requires search { IsSearch deal.old search.old n }
    ensures table { deal.new.table ≡ deal.old.table }
    ensures found { result ≡ true → IsFair deal.new (n + 1) }
    ensures more { result ≡ false → IsSearch deal.new search.new n }
    ensures fewer { unreached search.new.ranks < unreached search.old.ranks }
{
    let (i, k) = approach(deal, search, n);
    search.mark(k, i);
    if is_held(deal, n, k) {
        return false;
    }
    deal.columns = hand_over(deal, search, n, k);
    true
}

/// Gives row `n` a column too.
pub(crate) fn add_row(deal: &mut Deal, n: usize)
    requires rows { n < 32 }
    requires offers { AreDealOffers deal.old }
    requires fair { IsFair deal.old n }
    ensures table { deal.new.table ≡ deal.old.table }
    ensures fair { IsFair deal.new (n + 1) }
{
    deal.gains[n] = 1 << 40;
    let mut search = Search::new();
    while !advance(deal, &mut search, n) {}
}
