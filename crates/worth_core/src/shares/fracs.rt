//! Shares from fractions, and as fractions in lowest terms.
ghost use Rattle.std.specs.Prelude.{◌≡◌, IfOk, MatchOption, length};
ghost use Rattle.std.specs.Prelude.{ℕ, ◌^◌, ◌<◌, ◌≤◌, pos, ◌≤ℤ◌, unsigned_abs};
ghost use Rattle.std.specs.Option.{SomeIff};
ghost use Rattle.definitions.specs.Coalitions.{grand_coalition};
ghost use Rattle.definitions.specs.Games.{IsShares, share, amount};
ghost use Rattle.fractions.specs.Fraction.{IsRatio};
ghost use Rattle.worth_core.specs.LeastDenominators.{IsLeastDenominator, as_fractions};
ghost use Rattle.worth_core.specs.LeastDenominators.{numerator_over, over, AreTooFine};
ghost use Rattle.worth_core.specs.Multiples.{IsLeastMultiple};

use super::Shares;
use crate::limits::{GREATEST_DEN, NUMERATOR_LIMIT};
use coalitions::Coalition;
use fractions::{Frac, gcd};
use std::alloc::Global;

/// Why fractions aren't shares.
#[derive(Clone, Copy, Debug, PartialEq, Eq)]
pub enum SharesFault {
    /// Over their least common denominator a limit of `Shares` fails.
    TooFine,
    /// Memory was not found.
    Memory,
}

impl Shares {
    /// Makes shares of these fractions, over their least common denominator. Fails with `TooFine` exactly if that is
    /// more than 2^63, or some numerator over it isn't below 2^110 in size.
    pub fn from_fracs(alloc: Global, shares: &[Frac]) -> Result<Shares, SharesFault>
        requires some { 1 ≤ length shares.now }
        requires few { length shares.now ≤ 64 }
        ensures value { IfOk result
            (λ x. IsLeastDenominator shares.now x.den × (x ≡ over x.den shares.now) × IsShares x) }
        ensures too_fine { result ≡ Err SharesFault.TooFine → AreTooFine shares.now }
    {
        let den = least_common_denominator(shares).ok_or(SharesFault::TooFine)?;
        let mut num = Vec::new(alloc);
        for f in shares {
            let z = numerator_over(f, den).ok_or(SharesFault::TooFine)?;
            if num.push(z).is_err() {
                return Err(SharesFault::Memory);
            }
        }
        Ok(Shares { num, den })
    }

    /// Returns the share of player `i` in lowest terms.
    pub fn share(&self, i: u32) -> Frac
        requires { i < length self.now.shares }
        ensures { IsRatio result (share self.now i) self.now.den }
    {
        Frac::new(self.num(i), self.den()).unwrap()
    }

    /// Returns what all players get together, in lowest terms.
    pub fn sum(&self) -> Frac
        ensures { IsRatio result (amount self.now (grand_coalition (length self.now.shares))) self.now.den }
    {
        Frac::new(self.sum_of(Coalition::all(self.players())), self.den()).unwrap()
    }

    /// Returns the least common denominator of the shares.
    pub fn least_den(&self) -> i128
        ensures { IsLeastDenominator (as_fractions self.now) result }
    {
        let mut common = self.den.unsigned_abs();
        for z in &self.num {
            common = gcd(common, z.unsigned_abs());
        }
        self.den / common as i128
    }
}

/// The least common denominator, if it is at most 2^63.
fn least_common_denominator(fractions: &[Frac]) -> Option<i128>
    ensures { MatchOption result
        ((d : ℕ) → IsLeastDenominator fractions.now (pos d) → 2 ^ 63 < d)
        (λ d. IsLeastDenominator fractions.now d × (d ≤ℤ pos (2 ^ 63))) }
{
    let mut den: u128 = 1;
    for f in fractions {
        den = common_multiple(den, f.den().unsigned_abs())?;
    }
    Some(den as i128)
}

/// The least common multiple of two positive numbers, if it is at most 2^63.
fn common_multiple(a: u128, b: u128) -> Option<u128>
    requires a_positive { 0 < a }
    requires b_positive { 0 < b }
    ensures { MatchOption result
        ((m : ℕ) → IsLeastMultiple a b m → 2 ^ 63 < m)
        (λ m. IsLeastMultiple a b m × (m ≤ 2 ^ 63)) }
{
    let multiple = a.checked_mul(b / gcd(a, b))?;
    if multiple > GREATEST_DEN as u128 {
        return None;
    }
    Some(multiple)
}

/// The numerator over a multiple of the fraction's denominator, if it is below 2^110 in size.
fn numerator_over(f: &Frac, den: i128) -> Option<i128>
    requires { pos 1 ≤ℤ den }
    ensures { SomeIff result (unsigned_abs (numerator_over den f.now) < 2 ^ 110) (numerator_over den f.now) }
{
    let num = f.num().checked_mul(den / f.den())?;
    if num.unsigned_abs() >= NUMERATOR_LIMIT {
        return None;
    }
    Some(num)
}
