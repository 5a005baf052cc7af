//! Games of the greatest size of these calls: want of memory is left open by every contract, so that a body which gives
//! up on great games would be seen by these tests alone.

use crate::shares::are;
use balanced::{CoreAnswer, core_of};
use bankruptcy::BankruptcyGame;
use coalitions::Coalition;
use convexity::{ConvexAnswer, answer, marginal};
use shapley::shapley;
use std::alloc::Global;
use std::test::Fail;
use talmud::solve;
use worth_core::{Shares, Worth};
use worth_tables::TableGame;

/// The game of 16 players in which a coalition is worth the square of its size. It is convex.
fn squares(alloc: Global) -> Result<TableGame, Fail> {
    let mut worths = Vec::new(alloc);
    for mask in 1..65536u64 {
        let size = i64::from(mask.count_ones().min(16));
        worths.push(size * size)?;
    }
    Ok(TableGame::new(alloc, 16, worths).ok().ok_or("no game")?)
}

/// What each player adds to the square of the number of those in front, in ascending order.
const ODD: [(i128, i128); 16] = [
    (1, 1),
    (3, 1),
    (5, 1),
    (7, 1),
    (9, 1),
    (11, 1),
    (13, 1),
    (15, 1),
    (17, 1),
    (19, 1),
    (21, 1),
    (23, 1),
    (25, 1),
    (27, 1),
    (29, 1),
    (31, 1),
];

/// Whether the answer is that the game is convex, with 16 for each player, and with the odd numbers in their order.
fn is_convex(alloc: Global, game: &TableGame) -> Result<bool, Fail> {
    if game.players() > 16 {
        Err("too many players")?;
    }
    Ok(match answer(alloc, game)? {
        ConvexAnswer::Convex { shapley, marginal } => {
            are(&shapley, &[(16, 1); 16]) && are(&marginal, &ODD)
        }
        ConvexAnswer::Not { .. } => false,
    })
}

#[test]
fn squares_of_the_size_are_convex_with_16_players(rt: HostRuntime) -> Result<(), Fail> {
    let game = squares(rt.alloc())?;
    assert!(rt; is_convex(rt.alloc(), &game)?);
    let shares = shapley(rt.alloc(), &game).ok().ok_or("no shares")?;
    assert!(rt; are(&shares, &[(16, 1); 16]));
    Ok(())
}

#[test]
fn the_last_of_16_players_adds_the_most(rt: HostRuntime) -> Result<(), Fail> {
    let game = squares(rt.alloc())?;
    if game.players() != 16 {
        Err("another number of players")?;
    }
    let backwards = [15, 14, 13, 12, 11, 10, 9, 8, 7, 6, 5, 4, 3, 2, 1, 0];
    let shares = marginal(rt.alloc(), &game, &backwards)?;
    let mut wanted = ODD;
    wanted.reverse();
    assert!(rt; are(&shares, &wanted));
    Ok(())
}

/// The game in which player `i` of 16 brings `i + 1` to each coalition. Its core is one point.
fn sums(alloc: Global) -> Result<TableGame, Fail> {
    let mut worths = Vec::new(alloc);
    for mask in 1..65536u64 {
        let mut worth: u32 = 0;
        for i in 0..16u32 {
            if Coalition(mask).contains(i) {
                worth = worth.saturating_add(i + 1);
            }
        }
        worths.push(i64::from(worth))?;
    }
    Ok(TableGame::new(alloc, 16, worths).ok().ok_or("no game")?)
}

/// The point of the core of a game.
fn core_point(alloc: Global, game: &TableGame) -> Result<Shares, Fail> {
    match core_of(alloc, game) {
        Ok(CoreAnswer::Point(shares)) => Ok(shares),
        _ => Err("no point")?,
    }
}

#[test]
fn the_one_core_point_of_16_players_is_found(rt: HostRuntime) -> Result<(), Fail> {
    let game = sums(rt.alloc())?;
    let mut wanted = [(0, 1); 16];
    for i in 0..16usize {
        wanted[i] = (i as i128 + 1, 1);
    }
    let point = core_point(rt.alloc(), &game)?;
    assert!(rt; are(&point, &wanted));
    Ok(())
}

// The estate is half of the claims, so that each gets half of its claim, and each claim has a level.
#[test]
fn sixty_four_claims_are_halved_with_a_level_for_each_but_the_last(
    rt: HostRuntime,
) -> Result<(), Fail> {
    let mut claims = [0i64; 64];
    let mut wanted = [(0, 1); 64];
    for i in 0..64usize {
        claims[i] = i as i64 + 1;
        wanted[i] = (i as i128 + 1, 2);
    }
    let game = BankruptcyGame::new(rt.alloc(), 1040, claims.to_vec(rt.alloc())?)
        .ok()
        .ok_or("no game")?;
    let (shares, certificate) = solve(rt.alloc(), &game)?;
    assert!(rt; are(&shares, &wanted));
    assert_eq!(rt; certificate.levels().len(), 63);
    Ok(())
}
