//! Values of fractions over a positive denominator.
ghost use Rattle.std.specs.Prelude.{pos, ◌≤ℤ◌};
ghost use Rattle.fractions.specs.Fraction.{IsRatio};

use fractions::Frac;

/// Returns the value of `num` over a positive denominator, in lowest terms.
pub fn ratio(num: i128, den: i128) -> Frac
    requires { pos 1 ≤ℤ den }
    ensures { IsRatio result num den }
{
    Frac::new(num, den).unwrap()
}
