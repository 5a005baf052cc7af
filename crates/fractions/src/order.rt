//! The order of two fractions, without a product.

ghost use Rattle.std.specs.Prelude.{◌≡◌, ◌<◌, ◌*◌, pos, ◌*ℤ◌, ◌≤ℤ◌};
ghost use Rattle.std.specs.Ordering.{nat_cmp, int_cmp};

use std::cmp::Ordering;

/// The order of a/b and c/d.
pub(crate) fn order(a: i128, b: i128, c: i128, d: i128) -> Ordering
    requires b_positive { pos 1 ≤ℤ b }
    requires d_positive { pos 1 ≤ℤ d }
    ensures { result ≡ int_cmp (a *ℤ d) (c *ℤ b) }
{
    if a < 0 {
        if c < 0 {
            order_of_sizes(c.unsigned_abs(), d as u128, a.unsigned_abs(), b as u128)
        } else {
            Ordering::Less
        }
    } else if c < 0 {
        Ordering::Greater
    } else {
        order_of_sizes(a as u128, b as u128, c as u128, d as u128)
    }
}

/// The order of a/b and c/d: by whole parts, and, if these agree, by the remainders, turned upside down.
fn order_of_sizes(mut a: u128, mut b: u128, mut c: u128, mut d: u128) -> Ordering
    requires b_positive { 0 < b }
    requires d_positive { 0 < d }
    ensures { result ≡ nat_cmp (a * d) (c * b) }
{
    loop {
        let whole = a / b;
        let other = c / d;
        if whole < other {
            return Ordering::Less;
        }
        if other < whole {
            return Ordering::Greater;
        }
        let rest = a % b;
        let over = c % d;
        if rest == 0 || over == 0 {
            return rest.cmp(&over);
        }
        a = d;
        c = b;
        b = over;
        d = rest;
    }
}
