//! The programs of the nucleolus and of the core as columns, from which the simplex picks.
#![tactic(auto)]

mod block_bounds;
mod column;
mod front;
mod lazy;
mod listed;
mod pricing;
mod scan;
mod stage;
mod sums;
mod tables;

ghost use Rattle.std.specs.Prelude.{◌≤◌, length, IfOk};
ghost use Rattle.separation.specs.Shares.{IsReadFrom};

use fractions::OutOfMemory;
pub use lazy::Lazy;
pub use listed::Listed;
use simplex::Multipliers;
use std::alloc::Global;
use worth_core::Shares;

// For the crates above.
pub use block_bounds::block_bounds_of;
pub use front::coalition_count;

/// Returns the multipliers of the rows of `n` players, 1 to 16, as shares of a worth over the multipliers' denominator.
/// Fails only if memory runs out.
pub fn shares_of(alloc: Global, multipliers: &Multipliers, n: u32) -> Result<Shares, OutOfMemory>
    requires some { 1 ≤ n }
    requires few { n ≤ 16 }
    requires rows { n ≤ length multipliers.now.num.items }
    ensures { IfOk result (IsReadFrom n multipliers.now.num.items multipliers.now.den) }
{
    let mut num = Vec::new(alloc);
    for i in 0..n as usize {
        num.push(multipliers.num[i])?;
    }
    Ok(Shares::new(num, multipliers.den).unwrap())
}
