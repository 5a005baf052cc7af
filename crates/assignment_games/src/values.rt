//! The values of optimal matchings (Shapley and Shubik 1971), for all coalitions in mask order.
ghost use Rattle.std.specs.Prelude.{◌≡◌, IsTrue, false, IfOk, MatchOption, map};
ghost use Rattle.std.specs.Prelude.{ℕ, ◌+◌, ◌^◌, ◌<◌, ◌≤◌};
ghost use Rattle.definitions.specs.Coalitions.{has_player};
ghost use Rattle.matrices.specs.Rows.{entries_of};
ghost use Rattle.assignment_games.specs.Values.{IsOptimalAmong};
ghost use Rattle.assignment_games.specs.Assignments.{HasSides, IsFilled};

use coalitions::Coalition;
use matrices::entry;
use std::alloc::{AllocError, Global};

/// The value of an optimal matching within each coalition.
pub(crate) fn all_values(
    alloc: Global,
    matrix: &[Vec<i64>],
    buyers: u32,
    sellers: u32,
) -> Result<Vec<u64>, AllocError>
    requires { HasSides (map (λ row. row.items) matrix.now) buyers sellers }
    ensures { IfOk result
        (λ v. IsFilled (entries_of (map (λ row. row.items) matrix.now)) buyers v.items (2 ^ (buyers + sellers))) }
{
    let mut values = Vec::new(alloc);
    for s in 0..1u64 << (buyers + sellers) {
        let value = best(matrix, buyers, sellers, &values, Coalition(s));
        values.push(value)?;
    }
    Ok(values)
}

/// The value of an optimal matching within `s`. The values of all lesser masks are given.
fn best(matrix: &[Vec<i64>], buyers: u32, sellers: u32, values: &[u64], s: Coalition) -> u64
    requires sides { HasSides (map (λ row. row.items) matrix.now) buyers sellers }
    requires filled { IsFilled (entries_of (map (λ row. row.items) matrix.now)) buyers values.now s }
    requires within { s < 2 ^ (buyers + sellers) }
    ensures { IsOptimalAmong (entries_of (map (λ row. row.items) matrix.now)) buyers (has_player s) result }
{
    match first_buyer(s, buyers) {
        Some(b) => best_with(matrix, buyers, sellers, values, s, b),
        None => 0,
    }
}

/// The least buyer among the members.
fn first_buyer(s: Coalition, buyers: u32) -> Option<u32>
    requires { buyers ≤ 16 }
    ensures { MatchOption result
        ((b : ℕ) → b < buyers → has_player s b ≡ false)
        (λ b. (b < buyers) × IsTrue (has_player s b)) }
{
    (0..buyers).find(|b| s.contains(*b))
}

/// Returns the value of an optimal matching within `s`, by the best choice for buyer `b`: no seller, or one of those in
/// `s`.
fn best_with(
    matrix: &[Vec<i64>],
    buyers: u32,
    sellers: u32,
    values: &[u64],
    s: Coalition,
    b: u32,
) -> u64
    requires sides { HasSides (map (λ row. row.items) matrix.now) buyers sellers }
    requires filled { IsFilled (entries_of (map (λ row. row.items) matrix.now)) buyers values.now s }
    requires within { s < 2 ^ (buyers + sellers) }
    requires row { b < buyers }
    requires member { IsTrue (has_player s b) }
    ensures { IsOptimalAmong (entries_of (map (λ row. row.items) matrix.now)) buyers (has_player s) result }
{
    let rest = s.without(b);
    let mut value = values[rest.0 as usize];
    for j in 0..sellers {
        if s.contains(buyers + j) {
            let others = rest.without(buyers + j);
            let pair = together(matrix, buyers, sellers, b, j) + values[others.0 as usize];
            if value < pair {
                value = pair;
            }
        }
    }
    value
}

/// What buyer `i` and seller `j`, counted from 0, are worth together.
fn together(matrix: &[Vec<i64>], buyers: u32, sellers: u32, i: u32, j: u32) -> u64
    requires sides { HasSides (map (λ row. row.items) matrix.now) buyers sellers }
    requires row { i < buyers }
    requires column { j < sellers }
    ensures value { result ≡ entries_of (map (λ row. row.items) matrix.now) i j }
    ensures small { result < 2 ^ 40 }
{
    entry(matrix, i as usize, j as usize)
}
