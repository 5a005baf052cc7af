//! Exact fractions in lowest terms, with a numerator and a denominator of 128 bits.

ghost use Rattle.std.specs.Prelude.{◌≡◌, ◌≢◌, ◌↔◌, if◌then◌else◌, IsSome, IsOk, IfOk, MatchOption, MatchResult};
ghost use Rattle.std.specs.Prelude.{pos, neg_ℤ, ◌+ℤ◌, ◌-ℤ◌, ◌*ℤ◌, ◌≤ℤ◌, int_div, FitsSigned};
ghost use Rattle.std.specs.Int.{w128};
ghost use Rattle.std.specs.Result.{OkIff};
ghost use Rattle.std.specs.Option.{SomeIff};
ghost use Rattle.std.specs.Ordering.{int_cmp};
ghost use Rattle.fractions.specs.Fraction.{IsReduced, IsRatio, HasNoForm, HasCommonForm, HasSum};
ghost use Rattle.fractions.specs.Fraction.{HasDifference, HasCombined, combined, common_divisor};

mod text;

use crate::OutOfRange;
use crate::euclid::{gcd, positive_gcd};
use crate::order::order;
use std::cmp::Ordering;
use std::marker::Model;

/// A fraction in lowest terms: a numerator over a denominator of at least 1, without a common divisor above 1.
///
/// So equal values are equal in both numbers.
#[derive(Clone, Copy, Debug, PartialEq, Eq)]
pub struct Frac {
    num: i128,
    den: i128,
}

impl Model for Frac {
    ghost use Rattle.fractions.specs.Fraction.{Fraction, IsReduced};

    ghost Value = { Fraction };

    ghost view = { λ f. record { num = f.num; den = f.den } };

    ghost invariant = { λ f. IsReduced (record { num = f.num; den = f.den }) };

    ghost inverse = { λ v. record { num = v.num; den = v.den } };
}

impl Frac {
    /// Returns the value of `num` over `den`, in lowest terms. Returns none exactly if `den` is 0 or a number in lowest
    /// terms is out of the range of `i128`, which never happens over a positive `den`.
    pub fn new(num: i128, den: i128) -> Option<Frac>
        ensures value { MatchOption result (HasNoForm num den) (λ f. IsRatio f num den) }
        ensures succeeds { pos 1 ≤ℤ den → IsSome result }
    {
        if den == 0 {
            return None;
        }
        let common = gcd(num.unsigned_abs(), den.unsigned_abs());
        let num = signed((num < 0) != (den < 0), num.unsigned_abs() / common)?;
        let den = signed(false, den.unsigned_abs() / common)?;
        Some(Frac { num, den })
    }

    /// Returns the fraction of a whole number.
    pub fn from_int(value: i128) -> Frac
        ensures { result ≡ record { num = value; den = pos 1 } }
    {
        Frac { num: value, den: 1 }
    }

    /// Returns the numerator, with the fraction's sign.
    pub fn num(&self) -> i128
        ensures { result ≡ self.now.num }
    {
        self.num
    }

    /// Returns the denominator, at least 1.
    pub fn den(&self) -> i128
        ensures value { result ≡ self.now.den }
        ensures positive { pos 1 ≤ℤ result }
        ensures reduced { IsReduced self.now }
    {
        self.den
    }

    /// Returns the sum. Fails with `OutOfRange` exactly if, over the least common denominator of the two, a numerator,
    /// the sum of the numerators or the denominator itself is out of the range of `i128`.
    pub fn add(&self, other: &Frac) -> Result<Frac, OutOfRange>
        ensures value { IfOk result
            (λ f. IsRatio f (self.now.num *ℤ other.now.den +ℤ other.now.num *ℤ self.now.den)
            (self.now.den *ℤ other.now.den)) }
        ensures succeeds { IsOk result ↔ HasSum self.now other.now }
    {
        self.combined(false, other)
    }

    /// Returns the difference. Fails with `OutOfRange` exactly if, over the least common denominator of the two, a
    /// numerator, the difference of the numerators or the denominator itself is out of the range of `i128`.
    pub fn sub(&self, other: &Frac) -> Result<Frac, OutOfRange>
        ensures value { IfOk result
            (λ f. IsRatio f (self.now.num *ℤ other.now.den -ℤ other.now.num *ℤ self.now.den)
            (self.now.den *ℤ other.now.den)) }
        ensures succeeds { IsOk result ↔ HasDifference self.now other.now }
    {
        self.combined(true, other)
    }

    /// Returns the product. Fails with `OutOfRange` exactly if the product in lowest terms is out of the range of
    /// `i128`.
    pub fn mul(&self, other: &Frac) -> Result<Frac, OutOfRange>
        ensures { let n = self.now.num *ℤ other.now.num in
            let d = self.now.den *ℤ other.now.den in
            MatchResult result (λ f. IsRatio f n d) (λ _. HasNoForm n d) }
    {
        let left = ratio(self.num, other.den);
        let right = ratio(other.num, self.den);
        let num = product(left.num, right.num)?;
        let den = product(left.den, right.den)?;
        Ok(Frac { num, den })
    }

    /// Returns the quotient by a fraction other than 0. Fails with `OutOfRange` exactly if the quotient in lowest terms
    /// is out of the range of `i128`.
    pub fn div(&self, other: &Frac) -> Result<Frac, OutOfRange>
        requires { other.now.num ≢ pos 0 }
        ensures { let n = self.now.num *ℤ other.now.den in
            let d = other.now.num *ℤ self.now.den in
            MatchResult result (λ f. IsRatio f n d) (λ _. HasNoForm n d) }
    {
        let left = Frac::new(self.num, other.num).ok_or(OutOfRange)?;
        left.mul(&ratio(other.den, self.den))
    }

    /// Returns the order of the two values.
    pub fn compare(&self, other: &Frac) -> Ordering
        ensures { result ≡ int_cmp (self.now.num *ℤ other.now.den) (other.now.num *ℤ self.now.den) }
    {
        order(self.num, self.den, other.num, other.den)
    }

    /// The difference if `subtracts`, else the sum.
    fn combined(&self, subtracts: bool, other: &Frac) -> Result<Frac, OutOfRange>
        ensures value { IfOk result
            (λ f. IsRatio f (combined subtracts (self.now.num *ℤ other.now.den) (other.now.num *ℤ self.now.den))
            (self.now.den *ℤ other.now.den)) }
        ensures succeeds { IsOk result ↔ HasCombined subtracts self.now other.now }
    {
        let (left, right, den) = self.over_common(other)?;
        let num = numerator(subtracts, left, right)?;
        Ok(ratio(num, den))
    }

    /// Both numerators over the least common denominator, and that denominator.
    fn over_common(&self, other: &Frac) -> Result<(i128, i128, i128), OutOfRange>
        ensures value { let g = common_divisor self.now other.now in
            OkIff result (HasCommonForm self.now other.now) (
              self.now.num *ℤ int_div other.now.den g,
              other.now.num *ℤ int_div self.now.den g,
              self.now.den *ℤ int_div other.now.den g,
            ) }
        ensures self_positive { pos 1 ≤ℤ self.now.den }
        ensures other_positive { pos 1 ≤ℤ other.now.den }
    {
        let common = positive_gcd(self.den, other.den);
        let self_part = self.den / common;
        let other_part = other.den / common;
        let left = product(self.num, other_part)?;
        let right = product(other.num, self_part)?;
        let den = product(self.den, other_part)?;
        Ok((left, right, den))
    }
}

/// The difference if `subtracts`, else the sum. Fails if that is out of the range of `i128`.
fn numerator(subtracts: bool, left: i128, right: i128) -> Result<i128, OutOfRange>
    ensures { let z = combined subtracts left right in OkIff result (FitsSigned w128 z) z }
{
    if subtracts {
        left.checked_sub(right).ok_or(OutOfRange)
    } else {
        left.checked_add(right).ok_or(OutOfRange)
    }
}

/// The product, if it is in the range of `i128`.
fn product(a: i128, b: i128) -> Result<i128, OutOfRange>
    ensures { OkIff result (FitsSigned w128 (a *ℤ b)) (a *ℤ b) }
{
    a.checked_mul(b).ok_or(OutOfRange)
}

/// The value of `num` over a positive denominator.
fn ratio(num: i128, den: i128) -> Frac
    requires { pos 1 ≤ℤ den }
    ensures { IsRatio result num den }
{
    Frac::new(num, den).unwrap()
}

/// The number of that size and sign, if it is in the range of `i128`.
fn signed(negative: bool, size: u128) -> Option<i128>
    ensures { let z = if negative then neg_ℤ (pos size) else pos size in SomeIff result (FitsSigned w128 z) z }
{
    if negative {
        0i128.checked_sub_unsigned(size)
    } else {
        i128::try_from(size).ok()
    }
}
