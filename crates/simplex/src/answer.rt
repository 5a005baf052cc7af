//! The answer: the weights of the last basis in lowest terms, beside its multipliers.

ghost use Rattle.std.specs.Prelude.{◌≡◌, ◌<◌, ◌≤◌, ◌*ℤ◌, ◌<ℤ◌, ℕ, pos, unsigned_abs};
ghost use Rattle.arrayvec.specs.ArrayVec.{array_vec_len};
ghost use Rattle.determinants.specs.Matrix.{limit, entry_at, weight_at};
ghost use Rattle.simplex.specs.Reduced.{AreReduced, IsCommon, IsMultiple, listed, with_weight};

use crate::columns::ColumnId;
use crate::multipliers::Multipliers;
use crate::state::{Matrix, Numbers, STRIDE, State};
use arrayvec::ArrayVec;
use fractions::gcd;

/// Optimal weights and optimal multipliers.
///
/// Each weight stands beside the number of its column, as a whole number over `weight_den`. The weights are positive
/// and the columns distinct, and there are at most as many as the program has rows. All weights and `weight_den`, which
/// is at least 1, are less than 2^62 and have no common divisor but 1.
#[derive(Drop)]
pub struct Optimal {
    pub weights: ArrayVec<(u64, i128), 31>,
    pub weight_den: i128,
    pub multipliers: Multipliers,
}

/// The greatest common divisor of the denominator and the weights of the right-hand sides.
fn common_of(tracked: &Matrix, n: usize, den: i128) -> i128
    requires rows { n ≤ 31 }
    requires positive { pos 0 <ℤ den }
    requires small { unsigned_abs den ≤ limit }
    ensures { IsCommon tracked.now n den result }
{
    let mut common = den.unsigned_abs();
    for k in 0..n {
        common = gcd(common, tracked[STRIDE * k].unsigned_abs());
    }
    common as i128
}

/// A number over a divisor of it.
fn reduced_number(number: i128, common: i128) -> i128
    requires positive { pos 0 <ℤ common }
    requires divides { IsMultiple common number }
    ensures { common *ℤ result ≡ number }
{
    number / common
}

/// The reduced weights of the right-hand sides: over their common divisor with the denominator.
fn reduced_weights(tracked: &Matrix, n: usize, den: i128, common: i128) -> Numbers
    requires rows { n ≤ 31 }
    requires common { IsCommon tracked.now n den common }
    ensures { (k : ℕ) → k < n → common *ℤ weight_at result k ≡ entry_at 32 tracked.now k 0 }
{
    let mut weights = [0; STRIDE];
    for k in 0..n {
        weights[k] = reduced_number(tracked[STRIDE * k], common);
    }
    weights
}

/// Adds the column at a position, if there is one and its weight is positive.
fn add_weight(weights: &mut ArrayVec<(u64, i128), 31>, id: Option<ColumnId>, weight: i128)
    requires { array_vec_len weights.old < 31 }
    ensures { weights.new.items ≡ with_weight id weight weights.old.items }
{
    if let Some(id) = id {
        if weight > 0 {
            weights.push((id, weight));
        }
    }
}

/// The columns that have a positive weight, by their reduced weights.
fn weights_from(
    ids: &[Option<ColumnId>; STRIDE],
    reduced: &Numbers,
    n: usize,
) -> ArrayVec<(u64, i128), 31>
    requires { n ≤ 31 }
    ensures { result.items ≡ listed ids.now (weight_at reduced.now) n }
{
    let mut weights = ArrayVec::new();
    for k in 0..n {
        add_weight(&mut weights, ids[k], reduced[k]);
    }
    weights
}

/// The weights of the basis in lowest terms, beside the multipliers.
pub(crate) fn answer_of(work: &State, multipliers: Multipliers) -> Optimal
    requires rows { work.now.rows ≤ 31 }
    requires positive { pos 0 <ℤ work.now.den }
    requires small { unsigned_abs work.now.den ≤ limit }
    ensures weights { AreReduced work.now result.weights.items result.weight_den }
    ensures multipliers { result.multipliers ≡ multipliers }
{
    let common = common_of(&work.tracked, work.rows, work.den);
    let reduced = reduced_weights(&work.tracked, work.rows, work.den, common);
    Optimal {
        weights: weights_from(&work.ids, &reduced, work.rows),
        weight_den: reduced_number(work.den, common),
        multipliers,
    }
}
