//! Fractions at the limits of `i128`. The wanted values are those of Python's `fractions`.
use crate::fracs::fracs_of;
use fractions::{Frac, OutOfRange};
use std::cmp::Ordering;
use std::test::Fail;

const LEAST: i128 = i128::MIN;

const MOST: i128 = i128::MAX;
/// 2^63
const HALF: i128 = 9223372036854775808;
/// 2^110 - 1
const LARGE: i128 = 1298074214633706907132624082305023;

/// The parts of a fraction, and none if there is no such fraction.
type Parts = Option<(i128, i128)>;

fn parts(answer: Result<Frac, OutOfRange>) -> Parts {
    answer.ok().map(|f| (f.num(), f.den()))
}

/// The parts of two fractions, and those of their sum, difference, product and quotient.
const ROWS: [((i128, i128, i128, i128), (Parts, Parts, Parts, Parts)); 11] = [
    (
        (1, 3, 1, 6),
        (Some((1, 2)), Some((1, 6)), Some((1, 18)), Some((2, 1))),
    ),
    (
        (-7, 4, 7, 4),
        (Some((0, 1)), Some((-7, 2)), Some((-49, 16)), Some((-1, 1))),
    ),
    (
        (LEAST, 1, 1, 1),
        (
            Some((LEAST + 1, 1)),
            None,
            Some((LEAST, 1)),
            Some((LEAST, 1)),
        ),
    ),
    ((LEAST, 1, -1, 1), (None, Some((LEAST + 1, 1)), None, None)),
    (
        (LEAST, 1, LEAST, 1),
        (None, Some((0, 1)), None, Some((1, 1))),
    ),
    (
        (MOST, 1, -1, 1),
        (
            Some((MOST - 1, 1)),
            None,
            Some((-MOST, 1)),
            Some((-MOST, 1)),
        ),
    ),
    (
        (LARGE, HALF, -LARGE, HALF),
        (Some((0, 1)), Some((LARGE, HALF / 2)), None, Some((-1, 1))),
    ),
    (
        (LARGE, HALF, 1, 3),
        (
            Some((3894222643901129944769909101690877, 27670116110564327424)),
            Some((3894222643901111498025835392139261, 27670116110564327424)),
            Some((432691404877902302377541360768341, HALF)),
            Some((3894222643901120721397872246915069, HALF)),
        ),
    ),
    (
        (1, HALF, 1, HALF - 1),
        (
            Some((18446744073709551615, 85070591730234615856620279821087277056)),
            Some((-1, 85070591730234615856620279821087277056)),
            Some((1, 85070591730234615856620279821087277056)),
            Some((HALF - 1, HALF)),
        ),
    ),
    (
        (1, 18446744073709551617, 1, 18446744073709551615),
        (
            None,
            None,
            None,
            Some((18446744073709551615, 18446744073709551617)),
        ),
    ),
    (
        (LEAST, 3, 2, 3),
        (
            Some((-56713727820156410577229101238628035242, 1)),
            None,
            None,
            Some((-85070591730234615865843651857942052864, 1)),
        ),
    ),
];

#[test]
fn sums_and_products_at_the_limits(rt: HostRuntime) -> Result<(), Fail> {
    for &((a, b, c, d), wanted) in &ROWS {
        let (x, y) = fracs_of(a, b, c, d)?;
        assert_ne!(rt; y.num(), 0);
        let found = (
            parts(x.add(&y)),
            parts(x.sub(&y)),
            parts(x.mul(&y)),
            parts(x.div(&y)),
        );
        assert_eq!(rt; found, wanted, "{a}/{b} and {c}/{d}");
    }
    Ok(())
}

#[test]
fn values_are_ordered_and_reduced_at_the_limits(rt: HostRuntime) -> Result<(), Fail> {
    for &(a, b, c, d, order) in &[
        (LARGE, HALF, 1, 3, Ordering::Greater),
        (1, HALF, 1, HALF - 1, Ordering::Less),
        (LEAST, MOST, -1, 1, Ordering::Less),
        (MOST - 1, MOST, MOST - 2, MOST - 1, Ordering::Greater),
        (-2, 4, 3, -6, Ordering::Equal),
    ] {
        let (x, y) = fracs_of(a, b, c, d)?;
        assert_eq!(rt; x.compare(&y), order, "{a}/{b} and {c}/{d}");
    }
    assert_eq!(rt;
        (
            Frac::new(1, 0),
            Frac::new(LEAST, -1),
            Frac::new(1, LEAST),
            Frac::new(LEAST, LEAST)
        ),
        (None, None, None, Some(Frac::from_int(1)))
    );
    Ok(())
}

/// Texts of no fraction.
const OTHER_TEXTS: [&str; 19] = [
    "",
    "-",
    "+1",
    " 1",
    "-0",
    "01",
    "1/1",
    "0/5",
    "2/4",
    "1/",
    "1/0",
    "/2",
    "1/02",
    "1/2/3",
    "1/-2",
    "170141183460469231731687303715884105728",
    "-170141183460469231731687303715884105729",
    "1/170141183460469231731687303715884105728",
    "340282366920938463463374607431768211457",
];

#[test]
fn texts_are_read_and_written(rt: HostRuntime) -> Result<(), Fail> {
    for &(text, num, den) in &[
        ("0", 0, 1),
        ("-7/4", -7, 4),
        ("1/9223372036854775809", 1, HALF + 1),
        ("-170141183460469231731687303715884105728", LEAST, 1),
        (
            "170141183460469231731687303715884105726/170141183460469231731687303715884105727",
            MOST - 1,
            MOST,
        ),
    ] {
        let f = Frac::parse(text.as_bytes()).ok_or("no fraction")?;
        let mut out = Vec::new(rt.alloc());
        f.write_to(&mut out)?;
        let is_same = out.as_slice() == text.as_bytes();
        assert_eq!(rt; (f.num(), f.den(), is_same), (num, den, true), "{text}");
    }
    for &text in &OTHER_TEXTS {
        assert_eq!(rt; Frac::parse(text.as_bytes()), None, "{text}");
    }
    Ok(())
}
