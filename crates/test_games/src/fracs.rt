//! Two fractions from their parts.
use fractions::Frac;
use std::test::Fail;

/// The fractions a/b and c/d.
pub(crate) fn fracs_of(a: i128, b: i128, c: i128, d: i128) -> Result<(Frac, Frac), Fail> {
    let left = Frac::new(a, b).ok_or("left")?;
    let right = Frac::new(c, d).ok_or("right")?;
    Ok((left, right))
}
