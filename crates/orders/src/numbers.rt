//! The numbers that games are described by: from 0 to below 2^40.
ghost use Rattle.std.specs.Prelude.{◌≡◌, ◌↔◌, ◌^◌, ◌<◌, map, pos, All, IfOk, IsTrue};
ghost use Rattle.orders.specs.Numbers.{IsNumber};

use std::alloc::{AllocError, Global};

/// Returns whether a number is from 0 to below 2^40.
pub fn is_number(z: i64) -> bool
    ensures { IsTrue result ↔ IsNumber z }
{
    0 <= z && z < 1 << 40
}

/// Returns whether each number of a list is from 0 to below 2^40.
pub fn are_numbers(numbers: &[i64]) -> bool
    ensures { IsTrue result ↔ All IsNumber numbers.now }
{
    numbers.iter().all(|z| is_number(*z))
}

/// Returns the numbers as natural numbers.
///
/// Fails only if memory runs out.
pub fn naturals(alloc: Global, numbers: &[i64]) -> Result<Vec<u64>, AllocError>
    requires { All IsNumber numbers.now }
    ensures { IfOk result (λ v. (map pos v.items ≡ numbers.now) × All (λ c. c < 2 ^ 40) v.items) }
{
    let mut kept = Vec::new(alloc);
    for z in numbers {
        kept.push(*z as u64)?;
    }
    Ok(kept)
}
