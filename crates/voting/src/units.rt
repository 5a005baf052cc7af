//! What a coalition in front of a player gives of the least common multiple of 1 to 32.
ghost use Rattle.std.specs.Prelude.{◌≡◌, ◌*◌, ◌^◌, ◌<◌, ◌≤◌};
ghost use Rattle.voting.specs.Counts.{share_unit};

use shapley::COMMON;

/// What a coalition of `k` players in front of a player gives of the least common multiple, in a game of `n` players:
/// the orders in which it stands so, of all orders.
pub(crate) fn share_unit(n: u32, k: u32) -> u64
    requires few { n ≤ 32 }
    requires size { k < n }
    ensures value { result ≡ share_unit n k }
    ensures small { result < 2 ^ 48 }
{
    let mut unit = COMMON / n as u64;
    for j in 0..k {
        unit = unit * (j as u64 + 1) / (n - 1 - j) as u64;
    }
    unit
}

/// A unit, as often as it comes.
pub(crate) fn product(unit: u64, count: u64) -> u128
    requires unit { unit < 2 ^ 48 }
    requires count { count < 2 ^ 42 }
    ensures value { result ≡ unit * count }
    ensures small { result < 2 ^ 90 }
{
    unit as u128 * count as u128
}
