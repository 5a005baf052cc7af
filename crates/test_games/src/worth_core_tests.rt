//! Blockers and bounds of small games, the limits of shares, shares from fractions at their limits, and sums over the
//! sets that split others. The wanted values of fractions are those of Python's `fractions`.

use crate::asked::{blocker_of, bound_of, excess_of, has_two};
use crate::fracs::fracs_of;
use crate::shares::shares_of;
use crate::tables::table_of;
use coalitions::Coalition;
use definitions::Measure;
use fractions::Frac;
use std::alloc::Global;
use std::process::Abort;
use std::test::Fail;
use worth_core::{Divisor, Shares, SharesFault, SplitSums, Worth, measured_bound};
use worth_tables::TableGame;

const PAIR: Coalition = Coalition(3);

const ALL: Coalition = Coalition(7);

/// Two of three players are a majority.
const MAJORITY: [i64; 7] = [0, 0, 1, 0, 1, 1, 1];

/// All three players have to agree.
const UNANIMITY: [i64; 7] = [0, 0, 0, 0, 0, 0, 1];

#[test]
fn blockers_have_the_greatest_excess_and_the_least_mask(rt: HostRuntime) -> Result<(), Fail> {
    let majority = table_of(rt.alloc(), 3, &MAJORITY)?;
    let unanimity = table_of(rt.alloc(), 3, &UNANIMITY)?;
    for &(num, den, in_majority, in_unanimity) in &[
        ([1, 0, 0], 1, Some(Coalition(6)), None),
        ([1, 1, 1], 3, Some(Coalition(3)), None),
        ([2, 1, 1], 4, Some(Coalition(6)), None),
        ([0, 1, 0], 2, Some(Coalition(5)), Some(Coalition(7))),
    ] {
        let x = shares_of(rt.alloc(), &num, den)?;
        let found = (
            blocker_of(&rt, &majority, &x),
            blocker_of(&rt, &unanimity, &x),
        );
        assert_eq!(rt; found, (in_majority, in_unanimity), "{num:?} over {den}");
    }
    Ok(())
}

/// The greatest excesses, plain and per head, over the coalitions that split all three players.
fn measured_bounds(rt: &impl Abort, game: &TableGame, x: &Shares) -> (Option<Frac>, Option<Frac>) {
    let all = Coalition(7);
    assert!(rt; game.players() == 3 && x.players() == 3);
    assert!(rt; has_two(3, all));
    (
        Some(measured_bound(game, x, all, Measure::Plain)),
        Some(measured_bound(game, x, all, Measure::PerHead)),
    )
}

#[test]
fn bounds_pass_over_sets_that_hold_all_or_none(rt: HostRuntime) -> Result<(), Fail> {
    let majority = table_of(rt.alloc(), 3, &MAJORITY)?;
    let unanimity = table_of(rt.alloc(), 3, &UNANIMITY)?;
    for &(num, den, of_all, of_two, in_unanimity, by_head, of_pair) in &[
        ([1, 0, 0], 1, 1, 1, 0, (1, 2), 0),
        ([1, 1, 1], 3, 1, 1, -1, (1, 6), 1),
        ([0, 0, -5], 2, 7, 7, 5, (5, 2), 2),
    ] {
        let x = shares_of(rt.alloc(), &num, den)?;
        let bounds = (
            bound_of(&rt, &majority, &x, ALL),
            bound_of(&rt, &majority, &x, PAIR),
            bound_of(&rt, &unanimity, &x, ALL),
            excess_of(&rt, &majority, &x, PAIR),
        );
        assert_eq!(rt;
            bounds,
            (of_all, of_two, in_unanimity, of_pair),
            "{num:?} over {den}"
        );
        let wanted = (Frac::new(of_all, den), Frac::new(by_head.0, by_head.1));
        assert_eq!(rt;
            measured_bounds(&rt, &majority, &x),
            wanted,
            "{num:?} over {den}"
        );
    }
    let pair = Coalition(6);
    assert!(rt; Measure::Plain.divisor(pair) == 1 && Measure::PerHead.divisor(pair) == 2);
    Ok(())
}

#[test]
fn shares_keep_their_limits(rt: HostRuntime) -> Result<(), Fail> {
    const LIMIT: i128 = 1 << 110;
    for &(count, numerator, den, accepted) in &[
        (0, 0, 1, false),
        (1, 0, 1, true),
        (64, 7, 12, true),
        (65, 7, 12, false),
        (2, 1, 0, false),
        (2, 1, -1, false),
        (2, 1, 1 << 63, true),
        (2, 1, (1 << 63) + 1, false),
        (2, LIMIT - 1, 1, true),
        (2, LIMIT, 1, false),
        (2, 1 - LIMIT, 1, true),
        (2, -LIMIT, 1, false),
    ] {
        let num = vec![in rt.alloc(); numerator; count]?;
        let is_made = Shares::new(num, den).is_some();
        assert_eq!(rt; is_made, accepted, "{count} of {numerator} over {den}");
    }
    Ok(())
}

/// The numerators and the denominator of the shares that are these fractions.
fn parts_of(
    rt: &impl Abort,
    alloc: Global,
    left: Frac,
    right: Frac,
) -> Result<(i128, i128, i128), SharesFault> {
    let x = Shares::from_fracs(alloc, &[left, right])?;
    assert_eq!(rt; x.players(), 2);
    assert_eq!(rt; x.share(1), right);
    Ok((x.num(0), x.num(1), x.den()))
}

#[test]
fn fractions_stand_over_their_least_common_denominator(rt: HostRuntime) -> Result<(), Fail> {
    const HALF: i128 = 1 << 63;
    const LARGE: i128 = (1 << 110) - 1;
    for &(a, b, c, d, wanted) in &[
        (1, 2, -1, 3, Ok((3, -2, 6))),
        (1, 4, 1, 6, Ok((3, 2, 12))),
        (0, 1, 5, 1, Ok((0, 5, 1))),
        (1, HALF, 1, 2, Ok((1, HALF / 2, HALF))),
        (1, HALF + 1, 1, 1, Err(SharesFault::TooFine)),
        (1, HALF / 2, 1, 3, Err(SharesFault::TooFine)),
        (LARGE, 1, -LARGE, 1, Ok((LARGE, -LARGE, 1))),
        (LARGE, 1, 1, 2, Err(SharesFault::TooFine)),
        (-LARGE - 1, 1, 0, 1, Err(SharesFault::TooFine)),
        (1, i128::MAX, 1, i128::MAX - 1, Err(SharesFault::TooFine)),
    ] {
        let (left, right) = fracs_of(a, b, c, d)?;
        let answer = parts_of(&rt, rt.alloc(), left, right);
        assert_eq!(rt; answer, wanted, "{a}/{b} and {c}/{d}");
    }
    Ok(())
}

// The shares 1/6, 1/3 and a third one.
#[test]
fn shares_are_read_and_reduced(rt: HostRuntime) -> Result<(), Fail> {
    for &(third, sum, least_den) in &[(-9, (-1, 4), 12), (-6, (0, 1), 6)] {
        let x = shares_of(rt.alloc(), &[2, 4, third], 12)?;
        assert_eq!(rt; x.players(), 3);
        assert_eq!(rt;
            (
                x.num(0),
                x.num(2),
                x.den(),
                x.sum_of(PAIR),
                x.excess_over(10, Coalition(1))
            ),
            (2, third, 12, 6, 118)
        );
        let reduced = (Some(x.share(1)), Some(x.sum()), x.least_den());
        let wanted = (Frac::new(1, 3), Frac::new(sum.0, sum.1), least_den);
        assert_eq!(rt; reduced, wanted, "{third}");
    }
    Ok(())
}

// The greatest sums over the sets that split the players of `F` who are seen, and over those that hold some of them.
#[test]
fn the_greatest_splitting_sums_are_those_found_by_hand(rt: HostRuntime) {
    let mut sums = SplitSums::new();
    assert_eq!(rt; sums.best(true), None);
    sums.add(true, 5);
    sums.add(false, -3);
    assert_eq!(rt; (sums.best(false), sums.best(true)), (None, Some(5)));
    sums.add(true, 2);
    sums.add(false, 4);
    assert_eq!(rt; (sums.best(false), sums.best(true)), (Some(9), Some(11)));
    sums.add(true, -1);
    assert_eq!(rt; (sums.best(false), sums.best(true)), (Some(11), Some(11)));
}
