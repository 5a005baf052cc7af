//! What the players of a deal get.
ghost use Rattle.std.specs.Prelude.{◌≡◌, ℕ, ◌+◌, ◌*◌, ◌^◌, ◌<◌, ◌≤◌, slice_index};
ghost use Rattle.big_assignment.specs.Mates.{payoff, total_below};

use crate::deal::PLACES;

/// What player `k` gets: the rows come first.
pub(crate) fn payoff_of(rows: u32, gains: &[u64; PLACES], prices: &[u64; PLACES], k: u32) -> u64
    requires rows { rows ≤ 32 }
    requires player { k < rows + 32 }
    ensures { result ≡ payoff rows (slice_index gains.now) (slice_index prices.now) k }
{
    if k < rows {
        gains[k as usize]
    } else {
        prices[(k - rows) as usize]
    }
}

/// What all players get.
pub(crate) fn total(rows: u32, players: u32, gains: &[u64; PLACES], prices: &[u64; PLACES]) -> u64
    requires rows { rows ≤ 32 }
    requires players { players ≤ rows + 32 }
    requires small { (k : ℕ) → k < players → payoff rows (slice_index gains.now) (slice_index prices.now) k ≤ 2 ^ 40 }
    ensures value { result ≡ total_below players (payoff rows (slice_index gains.now) (slice_index prices.now)) }
    ensures size { result ≤ players * 2 ^ 40 }
{
    let mut sum = 0;
    for k in 0..players {
        sum += payoff_of(rows, gains, prices, k);
    }
    sum
}
