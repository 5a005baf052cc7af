//! The steps of a part: columns enter the basis until none improves the objective, each by the lexicographic ratio test
//! (Dantzig, Orden and Wolfe 1955).
//!
//! Among the positions k with y_k > 0, a column replaces the one whose row T_k / y_k is lexicographically least; T_k is
//! the tracked row. The row of k is less than that of p if y_p·T_k - y_k·T_p is negative at the first place that isn't
//! 0. Two rows are never equal in all places, since a reference basis is in them.
//!
//! With z(t) = c·T(t), the costs of the basis times its weights of t, a step that puts s in at position p gives
//!
//!     d·z'(t) = d'·z(t) + (d·c_s - z(s))·T_p(t)
//!
//! for the right-hand sides and each reference column t. The factor is positive, since s costs more than its value: any
//! such column may enter. The row T_p is lexicographically positive, so the vector z/d grows lexicographically. Its
//! numbers are bounded and their denominators are at most 2^58: so a natural number, `objective_room`, goes down at
//! each step, and the steps end.

ghost use Rattle.std.specs.Prelude.{◌<◌, ◌≤◌, ◌+◌, suc, MatchBool, ◌≡◌, MatchOption};
ghost use Rattle.definitions.specs.Programs.{Bounds};
ghost use Rattle.determinants.specs.Lexicographic.{IsLexPositive, IsLexNonnegative};
ghost use Rattle.determinants.specs.Matrix.{limit};
ghost use Rattle.simplex.specs.Improving.{AreMultipliersOf, HasDirection, IsImproving, counts_costs};
ghost use Rattle.simplex.specs.Matrix.{AreSmall, IsSmall};
ghost use Rattle.simplex.specs.Program.{priced};
ghost use Rattle.simplex.specs.Ratio.{IsChoice, ratio_gap};

use crate::columns::{Columns, Part, improving_in, load_column, price_of};
use crate::multipliers::{Multipliers, multipliers_of, weights_of};
use crate::state::{Matrix, Numbers, STRIDE, State};
use determinants::product;

/// Whether the ratio of row `k` is less than that of row `p`.
fn goes_before(tracked: &Matrix, weights: &Numbers, n: usize, k: usize, p: usize) -> bool
    requires rows { n ≤ 31 }
    requires place { k < n }
    requires other { p < n }
    requires small { AreSmall tracked.now n (suc n) }
    requires weights_small { IsSmall weights.now n limit }
    ensures { MatchBool result
        (IsLexPositive (suc n) (ratio_gap tracked.now weights.now p k))
        (IsLexNonnegative (suc n) (ratio_gap tracked.now weights.now k p)) }
{
    for j in 0..n + 1 {
        let here = product(weights[p], tracked[STRIDE * k + j]);
        let there = product(weights[k], tracked[STRIDE * p + j]);
        if here < there {
            return true;
        }
        if there < here {
            return false;
        }
    }
    false
}

/// The better of `best` and position `k`.
fn chosen(
    tracked: &Matrix,
    weights: &Numbers,
    n: usize,
    best: Option<usize>,
    k: usize,
) -> Option<usize>
    requires rows { n ≤ 31 }
    requires place { k < n }
    requires small { AreSmall tracked.now n (suc n) }
    requires weights_small { IsSmall weights.now n limit }
    requires best { IsChoice tracked.now weights.now n k best }
    ensures { IsChoice tracked.now weights.now n (k + 1) result }
{
    if weights[k] <= 0 {
        return best;
    }
    let Some(p) = best else {
        return Some(k);
    };
    if goes_before(tracked, weights, n, k, p) {
        Some(k)
    } else {
        Some(p)
    }
}

/// The position with a positive weight and the least ratio, if a weight is positive.
pub(crate) fn least_ratio(tracked: &Matrix, weights: &Numbers, n: usize) -> Option<usize>
    requires rows { n ≤ 31 }
    requires small { AreSmall tracked.now n (suc n) }
    requires weights_small { IsSmall weights.now n limit }
    ensures { IsChoice tracked.now weights.now n n result }
{
    let mut best = None;
    for k in 0..n {
        best = chosen(tracked, weights, n, best, k);
    }
    best
}

/// Pivots until no column improves the objective, and gives the multipliers that show it; None if a column improves
/// it without end.
pub(crate) fn improve<C: Columns>(
    work: &mut State,
    columns: &mut C,
    part: Part,
) -> Option<Multipliers>
    requires { IsImproving (C.program columns.old) part work.old }
    ensures same { C.program columns.new ≡ C.program columns.old }
    ensures same_players { C.players columns.new ≡ C.players columns.old }
    ensures state { IsImproving (C.program columns.new) part work.new }
    ensures answer { MatchOption result
        (HasDirection (C.program columns.new) part work.new)
        (λ m. AreMultipliersOf work.new m.num.items m.den
        × Bounds (priced (C.program columns.new) (counts_costs part)) m.num.items m.den) }
{
    loop {
        let m = multipliers_of(&work.inverse, &work.costs, work.rows, work.den);
        let Some(id) = improving_in(columns, &m, part) else {
            return Some(m);
        };
        let column = load_column(columns, id, work.rows);
        let weights = weights_of(&work.inverse, &column, work.rows);
        let Some(p) = least_ratio(&work.tracked, &weights, work.rows) else {
            return None;
        };
        let cost = price_of(columns, id, part);
        work.replace(&weights, p, id, cost);
    }
}
