//! Tables of the sums of multipliers over coalitions of eight players.

ghost use Rattle.std.specs.Prelude.{◌≡◌, ◌⊎◌, ℕ, ◌<◌, ◌≤◌, ◌≤ℤ◌, ◌^◌, pos, unsigned_abs, slice_index_or};
ghost use Rattle.separation.specs.BlockBounds.{IsLeast, AreLeast};

/// The sums over each coalition of the first eight players, and over each coalition of the next eight.
#[derive(Drop)]
pub(crate) struct WideSums {
    pub(crate) low: [i128; 256],
    pub(crate) high: [i128; 256],
    ghost low_small: { (k : ℕ) → k < 256 → unsigned_abs (slice_index_or low k (pos 0)) ≤ 2 ^ 113 },
    ghost high_small: { (k : ℕ) → k < 256 → unsigned_abs (slice_index_or high k (pos 0)) ≤ 2 ^ 113 },
}

/// These sums in 64 bits, if the multipliers leave room there, as nearly all do; and of each 64 coalitions of the
/// first eight players a number that isn't above their sums.
#[derive(Clone, Copy)]
pub(crate) struct NarrowSums<'a> {
    pub(crate) low: &'a [i64; 256],
    pub(crate) high: &'a [i64; 256],
    pub(crate) least: [i64; 4],
    ghost least_is: { AreLeast low.now least },
}

/// The sums in 64 bits or in 128. The tables stand elsewhere, so that none is moved.
#[derive(Clone, Copy)]
pub(crate) enum Sums<'a> {
    Narrow(NarrowSums<'a>),
    Wide(&'a WideSums),
}

/// The lesser of two numbers.
fn lesser(a: i64, b: i64) -> i64
    ensures first { result ≤ℤ a }
    ensures second { result ≤ℤ b }
    ensures either { (result ≡ a) ⊎ (result ≡ b) }
{
    if a < b { a } else { b }
}

/// The least of the 64 numbers from 64 * `quarter` on.
fn least_of(low: &[i64; 256], quarter: usize) -> i64
    requires { quarter < 4 }
    ensures { IsLeast low.now quarter result }
{
    let mut least = low[64 * quarter];
    for k in 64 * quarter..64 * quarter + 64 {
        least = lesser(least, low[k]);
    }
    least
}

/// The least of the 64 numbers from 64 * `quarter` on, for each quarter.
fn leasts_of(low: &[i64; 256]) -> [i64; 4]
    ensures { AreLeast low.now result }
{
    let mut leasts = [0; 4];
    for quarter in 0..4 {
        leasts[quarter] = least_of(low, quarter);
    }
    leasts
}

impl<'a> NarrowSums<'a> {
    /// Sums of which the tables are given.
    pub(crate) fn new(low: &'a [i64; 256], high: &'a [i64; 256]) -> NarrowSums<'a>
        ensures low { result.low.now ≡ low.now }
        ensures high { result.high.now ≡ high.now }
    {
        NarrowSums {
            low,
            high,
            least: leasts_of(low),
        }
    }
}
