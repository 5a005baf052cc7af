//! A table of worths from the draws.
ghost use Rattle.std.specs.Prelude.{◌≡◌, ◌^◌, ◌<◌, ◌≤◌, IfOk};
ghost use Rattle.drawn_games.specs.Numbers.{is_single, table_numbers};

use crate::draws::Draws;
use coalitions::Coalition;
use std::alloc::{AllocError, Global};

/// The number of each coalition of `n` players in mask order from 1: nothing for one player alone, and else the next
/// number below 2^20.
pub(crate) fn table_numbers(alloc: Global, n: u32, seed: u32) -> Result<Vec<i64>, AllocError>
    requires some { 1 ≤ n }
    requires few { n ≤ 16 }
    requires seed { seed < 2 ^ 31 }
    ensures { IfOk result (λ v. v.items ≡ table_numbers seed n) }
{
    let mut draws = Draws::new(seed);
    let mut numbers = Vec::new(alloc);
    for s in 1..1u64 << n {
        if is_single(Coalition(s)) {
            numbers.push(0)?;
        } else {
            numbers.push(i64::from(draws.long()))?;
        }
    }
    Ok(numbers)
}

/// Whether the coalition has one member.
fn is_single(s: Coalition) -> bool
    ensures { result ≡ is_single s }
{
    s.len() == 1
}
