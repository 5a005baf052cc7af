//! Verdicts on worked certificates.

use crate::levels::{Row, certificate_of};
use crate::tables::{ASSIGNMENT, table};
use checker::{Reason, Verdict, check};
use coalitions::Coalition;
use definitions::{Family, Measure, Mode};
use fractions::Frac;
use std::alloc::Global;
use std::process::Abort;
use std::test::Fail;
use worth_core::{Shares, Worth};
use worth_tables::TableGame;

/// The mask of these players, who count from 1.
macro_rules! of {
    ($($player:literal),+) => {
        $(1 << ($player - 1))|+
    };
}

/// A family, a measure, shares over a denominator, and the levels of their certificate.
type Case<'a> = (Family, Measure, (&'a [i128], i128), &'a [Row<'a>]);

/// The verdict on a case.
fn verdict(alloc: Global, game: &TableGame, mode: Mode, case: &Case<'_>) -> Result<Verdict, Fail> {
    let &(family, measure, (num, den), levels) = case;
    let x = Shares::new(num.to_vec(alloc)?, den).ok_or("not shares")?;
    let players = game.players();
    let certificate = certificate_of(alloc, players, mode, levels)?.ok_or("malformed")?;
    if players > 16 || x.players() != players || certificate.players() != players {
        Err("another number of players")?;
    }
    Ok(check(game, family, measure, &x, &certificate))
}

/// Compares the verdicts on cases with those that are wanted.
fn compare(
    rt: &impl Abort,
    alloc: Global,
    game: &TableGame,
    mode: Mode,
    cases: &[Case<'_>],
    wanted: &[Verdict],
) -> Result<(), Fail> {
    assert_eq!(rt; cases.len(), wanted.len());
    for i in 0..cases.len() {
        let found = verdict(alloc, game, mode, &cases[i])?;
        assert_eq!(rt; found, wanted[i]);
    }
    Ok(())
}

/// What each buyer and its seller are worth together.
const MATCHED: Row<'static> = ((0, 1), &[(of![2, 3], 1), (of![1, 4], 1)], &[], &[], 1);

const UNMATCHED: Row<'static> = ((-2, 1), &[(of![1, 3], 1), (of![2, 4], 1)], &[], &[], 1);

const ALONE: Row<'static> = (
    (-7, 2),
    &[(of![1], 1), (of![3], 1)],
    &[(of![1, 3], -1)],
    &[],
    0,
);

const ON_ASSIGNMENT: [Case<'static>; 3] = [
    (
        Family::Imputations,
        Measure::Plain,
        (&[7, 7, 7, 9], 2),
        &[MATCHED, UNMATCHED, ALONE],
    ),
    (
        Family::Imputations,
        Measure::Plain,
        (&[2, 2, 5, 6], 1),
        &[MATCHED, UNMATCHED],
    ),
    (
        Family::Imputations,
        Measure::Plain,
        (&[7, 7, 7, 9], 2),
        &[UNMATCHED],
    ),
];

#[test]
fn spans_certify_an_assignment_game(rt: HostRuntime) -> Result<(), Fail> {
    let game = table(&rt, 4, &ASSIGNMENT)?;
    let wanted = [
        Verdict::Yes,
        Verdict::No(Reason::NotAll { player: 0 }),
        Verdict::No(Reason::OutsideAbove {
            level: 1,
            excess: Frac::from_int(0),
        }),
    ];
    compare(&rt, rt.alloc(), &game, Mode::Span, &ON_ASSIGNMENT, &wanted)
}

/// The levels of the prenucleolus 1, 1, -2 if only the first two are worth something, 4 together.
const BELOW: [Row<'static>; 2] = [
    ((2, 1), &[(of![1, 2], 1), (of![3], 1)], &[], &[], 1),
    (
        (1, 1),
        &[(of![1, 3], 1), (of![2, 3], 1)],
        &[(of![3], -1)],
        &[],
        1,
    ),
];

const BELOW_ALONE: [Case<'static>; 2] = [
    (
        Family::Preimputations,
        Measure::Plain,
        (&[1, 1, -2], 1),
        &BELOW,
    ),
    (
        Family::Imputations,
        Measure::Plain,
        (&[1, 1, -2], 1),
        &BELOW,
    ),
];

#[test]
fn a_prenucleolus_may_be_below_a_worth_alone(rt: HostRuntime) -> Result<(), Fail> {
    let game = table(&rt, 3, &[0, 0, 4, 0, 0, 0, 0])?;
    let wanted = [
        Verdict::Yes,
        Verdict::No(Reason::NotIndividual { player: 2 }),
    ];
    compare(&rt, rt.alloc(), &game, Mode::Span, &BELOW_ALONE, &wanted)
}

/// The levels of the nucleolus of the same game, with the bound of the third player.
const BOUNDED: [Row<'static>; 2] = [
    ((4, 1), &[(of![1, 2], 1)], &[], &[(2, 1)], 1),
    ((0, 1), &[(of![1], 1), (of![2], 1)], &[], &[(2, 1)], 1),
];

const WITH_BOUNDS: [Case<'static>; 2] = [
    (
        Family::Imputations,
        Measure::Plain,
        (&[0, 0, 0], 1),
        &BOUNDED,
    ),
    (
        Family::Preimputations,
        Measure::Plain,
        (&[0, 0, 0], 1),
        &BOUNDED,
    ),
];

#[test]
fn bounds_stand_for_imputations_alone(rt: HostRuntime) -> Result<(), Fail> {
    const WANTED: [Verdict; 2] = [
        Verdict::Yes,
        Verdict::No(Reason::BoundNotTight {
            level: 1,
            player: 2,
        }),
    ];
    let game = table(&rt, 3, &[0, 0, 4, 0, 0, 0, 0])?;
    for &mode in &[Mode::Players, Mode::Span] {
        compare(&rt, rt.alloc(), &game, mode, &WITH_BOUNDS, &WANTED)?;
    }
    Ok(())
}

const FIRST_TO_LAND: Row<'static> = ((-1, 1), &[(of![1], 1), (of![2, 3], 1)], &[], &[], 1);

const SECOND_TO_LAND: Row<'static> = (
    (-3, 2),
    &[(of![1, 2], 1), (of![1, 3], 1)],
    &[(of![1], -1)],
    &[],
    1,
);

const UNBALANCED: Row<'static> = (
    (-3, 2),
    &[(of![1, 2], 2), (of![1, 3], 1)],
    &[(of![1], -1)],
    &[],
    1,
);

const ON_AIRPORT: [Case<'static>; 3] = [
    (
        Family::Imputations,
        Measure::Plain,
        (&[-2, -3, -7], 2),
        &[FIRST_TO_LAND, SECOND_TO_LAND],
    ),
    (
        Family::Imputations,
        Measure::Plain,
        (&[-2, -3, -7], 2),
        &[FIRST_TO_LAND, UNBALANCED],
    ),
    (
        Family::Imputations,
        Measure::Plain,
        (&[-2, -3, -9], 2),
        &[FIRST_TO_LAND, SECOND_TO_LAND],
    ),
];

// The costs of an airport are 2, 4 and 6: a worth is what a coalition pays by itself, and a share what a player pays.
#[test]
fn players_certify_an_airport_game(rt: HostRuntime) -> Result<(), Fail> {
    let worths = [-2, -4, -4, -6, -6, -6, -6];
    let game = table(&rt, 3, &worths)?;
    let wanted = [
        Verdict::Yes,
        Verdict::No(Reason::Unbalanced {
            level: 2,
            player: 0,
        }),
        Verdict::No(Reason::NotEfficient),
    ];
    compare(&rt, rt.alloc(), &game, Mode::Players, &ON_AIRPORT, &wanted)
}

/// The levels of the nucleolus per head if the first two are worth 6 together, and all three 12.
const BY_HEAD: [Row<'static>; 2] = [
    ((-2, 1), &[(of![1, 2], 1), (of![3], 1)], &[], &[], 1),
    (
        (-7, 2),
        &[(of![1, 3], 1), (of![2, 3], 1)],
        &[(of![3], -1)],
        &[],
        1,
    ),
];

const PER_HEAD: [Case<'static>; 3] = [
    (
        Family::Imputations,
        Measure::PerHead,
        (&[5, 5, 2], 1),
        &BY_HEAD,
    ),
    (
        Family::Imputations,
        Measure::PerHead,
        (&[9, 9, 6], 2),
        &BY_HEAD,
    ),
    (
        Family::Imputations,
        Measure::Plain,
        (&[5, 5, 2], 1),
        &BY_HEAD,
    ),
];

#[test]
fn excess_per_head_is_certified_in_both_modes(rt: HostRuntime) -> Result<(), Fail> {
    const WRONG: Verdict = Verdict::No(Reason::WrongExcess {
        level: 1,
        coalition: Coalition(of![1, 2]),
    });
    const WANTED: [Verdict; 3] = [Verdict::Yes, WRONG, WRONG];
    let game = table(&rt, 3, &[0, 0, 6, 0, 0, 0, 12])?;
    for &mode in &[Mode::Players, Mode::Span] {
        compare(&rt, rt.alloc(), &game, mode, &PER_HEAD, &WANTED)?;
    }
    Ok(())
}

const SINGLES: Row<'static> = (
    (-1, 1),
    &[(of![1], 1), (of![2], 1), (of![3], 1)],
    &[],
    &[],
    1,
);

const BY_SINGLES: [Case<'static>; 1] = [(
    Family::Preimputations,
    Measure::PerHead,
    (&[1, 1, 1], 1),
    &[SINGLES],
)];

#[test]
fn the_greatest_excess_outside_is_per_head(rt: HostRuntime) -> Result<(), Fail> {
    let wanted = Verdict::No(Reason::OutsideAbove {
        level: 1,
        excess: Frac::new(-1, 2).ok_or("not a fraction")?,
    });
    let game = table(&rt, 3, &[0, 0, 1, 0, 1, 1, 3])?;
    for &mode in &[Mode::Players, Mode::Span] {
        compare(&rt, rt.alloc(), &game, mode, &BY_SINGLES, &[wanted])?;
    }
    Ok(())
}
