//! Shares of small games, and the verdicts of the checker on their certificates.
ghost use Rattle.std.specs.Prelude.{◌≤◌, IfOk};
ghost use Rattle.nested_programs.specs.Answer.{IsPoint};

use crate::shares::are;
use airport::AirportGame;
use checker::{Verdict, check};
use coalitions::Coalition;
use definitions::{Family, Measure};
use fractions::Frac;
use kohlberg::{Certificate, Level};
use nested_programs::{Found, NestedFault, solve};
use std::alloc::Global;
use std::test::Fail;
use worth_core::{Shares, Worth};
use worth_tables::TableGame;

/// A game, and what is found for one of the families.
#[derive(Drop)]
struct Solved {
    family: Family,
    measure: Measure,
    game: TableGame,
    shares: Shares,
    certificate: Certificate,
}

/// What is found for a game of these worths.
fn point_by(
    alloc: Global,
    family: Family,
    measure: Measure,
    players: u32,
    worths: &[i64],
) -> Result<Solved, Fail>
    ensures point { IfOk result
        (λ s. IsPoint s.family s.measure (⟦<TableGame as Worth>⟧.game s.game) s.shares s.certificate) }
    ensures few { IfOk result (λ s. (⟦<TableGame as Worth>⟧.game s.game).players ≤ 16) }
{
    let game = TableGame::new(alloc, players, worths.to_vec(alloc)?)
        .ok()
        .ok_or("no game")?;
    if measure == Measure::PerHead && game.players() > 8 {
        Err("too many players")?;
    }
    match solve(alloc, &game, family, measure) {
        Ok(Found::Point(shares, certificate)) => Ok(Solved {
            family,
            measure,
            game,
            shares,
            certificate,
        }),
        _ => Err("no point")?,
    }
}

/// Whether the checker says Yes to the certificate.
fn is_certified(s: &Solved) -> bool
    requires point { IsPoint s.now.family s.now.measure (⟦<TableGame as Worth>⟧.game s.now.game) s.now.shares
        s.now.certificate }
    requires few { (⟦<TableGame as Worth>⟧.game s.now.game).players ≤ 16 }
{
    check(&s.game, s.family, s.measure, &s.shares, &s.certificate) == Verdict::Yes
}

/// Whether these are the coalitions of the pairs.
fn are_masks(pairs: &[(Coalition, i128)], masks: &[u64]) -> bool {
    if pairs.len() != masks.len() {
        return false;
    }
    for i in 0..pairs.len() {
        if pairs[i].0 != Coalition(masks[i]) {
            return false;
        }
    }
    true
}

/// A level's excess over a denominator, its coalitions, and its total if that is wanted.
type Masks<'a> = ((i128, i128), &'a [u64], Option<i128>);

/// Whether a level has these numbers, and no bounds.
fn is_level(level: &Level, wanted: &Masks<'_>) -> bool {
    let &((num, den), masks, total) = wanted;
    Some(level.excess) == Frac::new(num, den)
        && are_masks(&level.coalitions, masks)
        && level.bounds.is_empty()
        && (total.is_none() || total == Some(level.total))
}

/// Whether levels have these numbers, one after the other.
fn are_levels(levels: &[Level], wanted: &[Masks<'_>]) -> bool {
    if levels.len() != wanted.len() {
        return false;
    }
    for i in 0..levels.len() {
        if !is_level(&levels[i], &wanted[i]) {
            return false;
        }
    }
    true
}

/// A family, a measure, a number of players, worths, the shares and the levels.
type Case<'a> = (
    Family,
    Measure,
    u32,
    &'a [i64],
    &'a [(i128, i128)],
    &'a [Masks<'a>],
);

// Two share what is left, and one gets all; a share below the own worth; a pair per head.
const CASES: [Case<'static>; 4] = [
    (
        Family::Imputations,
        Measure::Plain,
        2,
        &[1, 2, 7],
        &[(3, 1), (4, 1)],
        &[((-2, 1), &[1, 2], Some(1))],
    ),
    (Family::Imputations, Measure::Plain, 1, &[5], &[(5, 1)], &[]),
    (
        Family::Preimputations,
        Measure::Plain,
        3,
        &[0, 0, 4, 0, 0, 0, 0],
        &[(1, 1), (1, 1), (-2, 1)],
        &[((2, 1), &[3, 4], Some(1)), ((1, 1), &[5, 6], None)],
    ),
    (
        Family::Imputations,
        Measure::PerHead,
        3,
        &[0, 0, 6, 0, 0, 0, 12],
        &[(5, 1), (5, 1), (2, 1)],
        &[((-2, 1), &[3, 4], Some(1)), ((-7, 2), &[5, 6], None)],
    ),
];

/// Whether the shares and the levels of a game are these, and the checker says Yes.
fn is_found(alloc: Global, case: &Case<'_>) -> Result<(bool, bool, bool), Fail> {
    let &(family, measure, players, worths, shares, levels) = case;
    let s = point_by(alloc, family, measure, players, worths)?;
    Ok((
        are(&s.shares, shares),
        are_levels(s.certificate.levels(), levels),
        is_certified(&s),
    ))
}

#[test]
fn points_have_their_levels_and_are_certified(rt: HostRuntime) -> Result<(), Fail> {
    for case in &CASES {
        assert_eq!(&rt; is_found(rt.alloc(), case)?, (true, true, true), "{case:?}");
    }
    Ok(())
}

/// What the imputations of two add to by what they are worth alone, and what they have.
fn no_imputation(alloc: Global) -> Result<(i64, i64), Fail> {
    let game = TableGame::new(alloc, 2, [3, 3, 5].to_vec(alloc)?)
        .ok()
        .ok_or("no game")?;
    match solve(alloc, &game, Family::Imputations, Measure::Plain) {
        Ok(Found::NoImputation { singles, total }) => Ok((singles, total)),
        _ => Err("a point")?,
    }
}

#[test]
fn two_worth_more_alone_have_no_imputation(rt: HostRuntime) -> Result<(), Fail> {
    assert_eq!(&rt; no_imputation(rt.alloc())?, (6, 5));
    Ok(())
}

/// Why so many players have no answer; none if they have one.
fn fault_of(alloc: Global, players: usize) -> Result<Option<NestedFault>, Fail> {
    let costs = vec![in alloc; 1; players]?;
    let game = AirportGame::new(alloc, costs).ok().ok_or("no game")?;
    Ok(solve(alloc, &game, Family::Imputations, Measure::Plain).err())
}

#[test]
fn seventeen_are_too_many(rt: HostRuntime) -> Result<(), Fail> {
    assert_eq!(&rt; fault_of(rt.alloc(), 17)?, Some(NestedFault::TooMany));
    Ok(())
}
