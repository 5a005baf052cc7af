//! What multipliers make of columns. The multipliers of a coalition's members are added by two tables, one for the
//! members among the first eight players and one for those among the next eight, so that a coalition costs one
//! addition.

ghost use Rattle.std.specs.Prelude.{◌≡◌, ℕ, ◌<◌, ◌≤◌, ◌^◌, pos, unsigned_abs, slice_index_or, ◌↔◌, IsTrue};
ghost use Rattle.std.specs.Prelude.{IfSome, ◌+◌, ◌%◌, ℤ, ◌+ℤ◌, ◌*ℤ◌, ◌<ℤ◌, length, List};
ghost use Rattle.std.specs.Option.{ForSome};
ghost use Rattle.definitions.specs.Coalitions.{sum_over};
ghost use Rattle.definitions.specs.Measures.{divisor};
ghost use Rattle.separation.specs.Values.{multiplier_at, player_multiplier, IsEight, IsTable, AreSums, low_of, high_of};
ghost use Rattle.separation.specs.Values.{AreNarrow, level_multiplier, column_value, counted, Improves};

use crate::column::{Column, level_entry};
use crate::tables::{Sums, WideSums};
use coalitions::Coalition;
use definitions::Measure;
use simplex::Multipliers;

/// The multiplier of player `i`, and 0 past `n` players.
fn player_multiplier(m: &Multipliers, n: u32, i: u32) -> i128
    requires { n ≤ length m.now.num.items }
    ensures value { result ≡ player_multiplier m.now.num.items n i }
    ensures small { unsigned_abs result < 2 ^ 110 }
{
    if i < n { m.num[i as usize] } else { 0 }
}

/// The multipliers of the members of a coalition of the eight players from `first` on, added: those of the coalition
/// without its last player, which is listed before, and the multiplier of that player.
fn next_eight(sums: &[i128; 256], m: &Multipliers, n: u32, first: u32, s: usize) -> i128
    requires count { n ≤ length m.now.num.items }
    requires first { first ≤ 8 }
    requires some { 0 < s }
    requires few { s < 256 }
    requires before { (k : ℕ) → k < s → IsEight m.now.num.items n first k (slice_index_or sums.now k (pos 0)) }
    ensures { IsEight m.now.num.items n first s result }
{
    let last = s.ilog2();
    sums[s - (1 << last)] + player_multiplier(m, n, first + last)
}

/// The multipliers of each coalition of the eight players from `first` on.
fn table(m: &Multipliers, n: u32, first: u32) -> [i128; 256]
    requires count { n ≤ length m.now.num.items }
    requires first { first ≤ 8 }
    ensures { IsTable m.now.num.items n first result }
{
    let mut sums = [0; 256];
    for s in 1..256 {
        sums[s] = next_eight(&sums, m, n, first, s);
    }
    sums
}

/// The multipliers of the players in 64 bits, and 0 past `n` players, if each is at most 2^56 in size.
pub(crate) fn narrow(m: &Multipliers, n: u32) -> Option<[i64; 16]>
    requires count { n ≤ length m.now.num.items }
    requires few { n ≤ 16 }
    ensures { IfSome result (AreNarrow m.now.num.items n) }
{
    let mut numbers = [0; 16];
    for i in 0..16u32 {
        let multiplier = player_multiplier(m, n, i);
        if multiplier.unsigned_abs() > 1 << 56 {
            return None;
        }
        numbers[i as usize] = multiplier as i64;
    }
    Some(numbers)
}

/// The sums in 128 bits.
pub(crate) fn wide(m: &Multipliers, n: u32) -> WideSums
    requires { n ≤ length m.now.num.items }
    ensures low { IsTable m.now.num.items n 0 result.low }
    ensures high { IsTable m.now.num.items n 8 result.high }
{
    WideSums {
        low: table(m, n, 0),
        high: table(m, n, 8),
    }
}

impl Sums<'_> {
    /// The sum over a coalition of the first eight players.
    fn low_at(&self, s: usize) -> i128
        requires { s < 256 }
        ensures value { result ≡ slice_index_or (low_of self.now) s (pos 0) }
        ensures small { unsigned_abs result ≤ 2 ^ 113 }
    {
        match self {
            Sums::Narrow(sums) => i128::from(sums.low[s]),
            Sums::Wide(sums) => sums.low[s],
        }
    }

    /// The sum over a coalition of the next eight players.
    fn high_at(&self, s: usize) -> i128
        requires { s < 256 }
        ensures value { result ≡ slice_index_or (high_of self.now) s (pos 0) }
        ensures small { unsigned_abs result ≤ 2 ^ 113 }
    {
        match self {
            Sums::Narrow(sums) => i128::from(sums.high[s]),
            Sums::Wide(sums) => sums.high[s],
        }
    }

    /// The multipliers of a coalition's members, added.
    fn of(&self, s: Coalition) -> i128
        ensures value { (num : List ℤ) (n : ℕ) → AreSums num n self.now → result ≡ sum_over n (multiplier_at num) s }
        ensures small { unsigned_abs result ≤ 2 ^ 114 }
    {
        self.low_at((s.0 % 256) as usize) + self.high_at((s.0 / 256 % 256) as usize)
    }

    /// What the 256 coalitions from 256 * `block` on have in common with plain excess: the multipliers of the members
    /// past the first eight players, and that of a level row.
    pub(crate) fn base(&self, m: &Multipliers, n: u32, level: Option<u32>, block: u64) -> i128
        requires block { block < 256 }
        requires few { n ≤ 16 }
        requires within { ForSome level (λ l. n + l < length m.now.num.items) }
        ensures value { result ≡ slice_index_or (high_of self.now) block (pos 0)
            +ℤ level_multiplier m.now.num.items n level }
        ensures small { unsigned_abs result ≤ 2 ^ 114 }
    {
        self.high_at(block as usize) + level_multiplier(m, n, level)
    }

    /// The value of a coalition's column with plain excess, from what its block has in common.
    pub(crate) fn behind(&self, base: i128, s: Coalition) -> i128
        requires { unsigned_abs base ≤ 2 ^ 114 }
        ensures value { result ≡ base +ℤ slice_index_or (low_of self.now) (s % 256) (pos 0) }
        ensures small { unsigned_abs result ≤ 2 ^ 115 }
    {
        base + self.low_at((s.0 % 256) as usize)
    }
}

/// The multiplier of a column's level row, and 0 without one.
fn level_multiplier(m: &Multipliers, n: u32, level: Option<u32>) -> i128
    requires few { n ≤ 16 }
    requires within { ForSome level (λ l. n + l < length m.now.num.items) }
    ensures value { result ≡ level_multiplier m.now.num.items n level }
    ensures small { unsigned_abs result < 2 ^ 110 }
{
    match level {
        Some(l) => m.num[(n + l) as usize],
        None => 0,
    }
}

/// The multiplier of a column's level row times its entry there, and 0 without such a row.
fn level_value(m: &Multipliers, n: u32, measure: Measure, level: Option<u32>, s: Coalition) -> i128
    requires few { n ≤ 16 }
    requires within { ForSome level (λ l. n + l < length m.now.num.items) }
    ensures value { result ≡ pos (divisor measure s) *ℤ level_multiplier m.now.num.items n level }
    ensures small { unsigned_abs result ≤ 2 ^ 116 }
{
    i128::from(level_entry(measure, s)) * level_multiplier(m, n, level)
}

/// The sum of multiplier times entry of a column.
pub(crate) fn value(
    column: Column,
    m: &Multipliers,
    measure: Measure,
    n: u32,
    sums: &Sums<'_>,
) -> i128
    requires within { ForSome column.level (λ l. n + l < length m.now.num.items) }
    requires players { n ≤ length m.now.num.items }
    requires sums { AreSums m.now.num.items n sums.now }
    ensures value { result ≡ column_value measure m.now.num.items n column }
    ensures small { unsigned_abs result ≤ 2 ^ 117 }
{
    let plain = sums.of(column.coalition)
        + level_value(m, n, measure, column.level, column.coalition);
    if column.negated { -plain } else { plain }
}

/// A cost over the multipliers' denominator, or 0 if costs don't count.
pub(crate) fn bar(m: &Multipliers, cost: i64, with_costs: bool) -> i128
    requires { unsigned_abs cost < 2 ^ 46 }
    ensures { result ≡ m.now.den *ℤ counted with_costs cost }
{
    if with_costs {
        m.den * i128::from(cost)
    } else {
        0
    }
}

/// Whether a value is below a cost, or below 0 if costs don't count.
pub(crate) fn is_below(value: i128, m: &Multipliers, cost: i64, with_costs: bool) -> bool
    requires { unsigned_abs cost < 2 ^ 46 }
    ensures { IsTrue result ↔ (value <ℤ (m.now.den *ℤ counted with_costs cost)) }
{
    value < bar(m, cost, with_costs)
}

/// Whether there is a column and its cost is above its value.
pub(crate) fn improves(
    column: Option<Column>,
    m: &Multipliers,
    measure: Measure,
    n: u32,
    sums: &Sums<'_>,
    with_costs: bool,
) -> bool
    requires within { ForSome column (λ c. ForSome c.level (λ l. n + l < length m.now.num.items)) }
    requires small { ForSome column (λ c. unsigned_abs c.cost < 2 ^ 46) }
    requires players { n ≤ length m.now.num.items }
    requires sums { AreSums m.now.num.items n sums.now }
    ensures { IsTrue result ↔ Improves measure m.now.num.items m.now.den n with_costs column }
{
    match column {
        Some(column) => {
            let cost = column.cost;
            is_below(value(column, m, measure, n, sums), m, cost, with_costs)
        }
        None => false,
    }
}
