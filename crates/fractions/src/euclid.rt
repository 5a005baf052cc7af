//! The greatest common divisor (Euclid, Elements VII.2).

ghost use Rattle.std.specs.Prelude.{◌≡◌, pos, ◌≤ℤ◌, unsigned_abs};
ghost use Rattle.std.specs.Int.{IsGcd};
ghost use Rattle.fractions.specs.Divisors.{gcd};

/// Returns the greatest common divisor of `a` and `b`: it divides both, and every number that divides both divides it.
pub fn gcd(a: u128, b: u128) -> u128
    ensures value { result ≡ gcd a b }
    ensures greatest { IsGcd a b result }
{
    let mut x = a;
    let mut y = b;
    while y != 0 {
        let rest = x % y;
        x = y;
        y = rest;
    }
    x
}

/// The greatest common divisor of two positive numbers.
pub(crate) fn positive_gcd(a: i128, b: i128) -> i128
    requires a_positive { pos 1 ≤ℤ a }
    requires b_positive { pos 1 ≤ℤ b }
    ensures { result ≡ pos (gcd (unsigned_abs a) (unsigned_abs b)) }
{
    gcd(a.unsigned_abs(), b.unsigned_abs()) as i128
}
