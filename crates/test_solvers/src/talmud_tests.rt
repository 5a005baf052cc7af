//! Levels from the sources, and shares of the greatest number of players.

use crate::shares::are;
use bankruptcy::BankruptcyGame;
use coalitions::Coalition;
use fractions::Frac;
use kohlberg::{Certificate, Level};
use std::alloc::Global;
use std::test::Fail;
use talmud::solve;
use worth_core::Shares;

/// The shares and the certificate of the game of an estate and claims.
fn solved(alloc: Global, estate: i64, claims: &[i64]) -> Result<(Shares, Certificate), Fail> {
    let game = BankruptcyGame::new(alloc, estate, claims.to_vec(alloc)?)
        .ok()
        .ok_or("no game")?;
    Ok(solve(alloc, &game).ok().ok_or("no memory")?)
}

/// A level's excess over a denominator, its coalitions and earlier ones, all of weight 1, and its total.
type Masks<'a> = ((i128, i128), &'a [u64], &'a [u64], i128);

/// Whether a level has these numbers, and no bounds.
fn is_level(level: &Level, wanted: &Masks<'_>) -> bool {
    let &((num, den), coalitions, earlier, total) = wanted;
    Some(level.excess) == Frac::new(num, den)
        && are_masks(&level.coalitions, coalitions)
        && are_masks(&level.earlier, earlier)
        && level.bounds.is_empty()
        && level.total == total
}

/// Whether pairs are these masks, each with weight 1.
fn are_masks(pairs: &[(Coalition, i128)], masks: &[u64]) -> bool {
    if pairs.len() != masks.len() {
        return false;
    }
    for i in 0..pairs.len() {
        if pairs[i] != (Coalition(masks[i]), 1) {
            return false;
        }
    }
    true
}

/// Whether levels have these numbers, one after the other, and no bounds.
fn are_levels(levels: &[Level], wanted: &[Masks<'_>]) -> bool {
    if levels.len() != wanted.len() {
        return false;
    }
    for i in 0..levels.len() {
        if !is_level(&levels[i], &wanted[i]) {
            return false;
        }
    }
    true
}

/// An estate, claims, and the levels of its certificate.
type Case<'a> = (i64, &'a [i64], &'a [Masks<'a>]);

// Below half of the claims, half of them, and above; nothing; one player, and two.
const CASES: [Case<'static>; 7] = [
    (
        200,
        &[200, 100, 300],
        &[
            ((-50, 1), &[0b010, 0b101], &[], 1),
            ((-75, 1), &[0b001, 0b100], &[0b010], 1),
        ],
    ),
    (
        300,
        &[200, 100, 200, 100],
        &[
            ((-50, 1), &[0b0010, 0b0111, 0b1000, 0b1101], &[], 2),
            ((-100, 1), &[0b0001, 0b0100, 0b1011, 0b1110], &[], 2),
        ],
    ),
    (
        400,
        &[100, 200, 300],
        &[
            ((-50, 1), &[0b001, 0b110], &[], 1),
            ((-75, 1), &[0b011, 0b101], &[0b110], 2),
        ],
    ),
    (
        0,
        &[100, 200, 300],
        &[((0, 1), &[1, 2, 3, 4, 5, 6], &[], 3)],
    ),
    (5, &[7], &[]),
    (3, &[4, 4], &[((-3, 2), &[0b01, 0b10], &[], 1)]),
    (6, &[6, 2], &[((-1, 1), &[0b01, 0b10], &[], 1)]),
];

#[test]
fn each_estate_has_its_levels(rt: HostRuntime) -> Result<(), Fail> {
    for &(estate, claims, levels) in &CASES {
        let (_, certificate) = solved(rt.alloc(), estate, claims)?;
        assert!(rt; are_levels(certificate.levels(), levels), "estate {estate}");
    }
    Ok(())
}

#[test]
fn equal_claims_of_64_players_are_shared_equally(rt: HostRuntime) -> Result<(), Fail> {
    for &estate in &[1, 1600, 6399] {
        let (x, _) = solved(rt.alloc(), estate, &[100; 64])?;
        assert!(rt; are(&x, &[(estate as i128, 64); 64]), "estate {estate}");
    }
    Ok(())
}
