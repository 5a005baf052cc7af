//! Games that are convex and games that aren't, and their shares worked by hand.

use crate::shares::are;
use crate::tables::table;
use airport::AirportGame;
use coalitions::Coalition;
use convexity::{ConvexAnswer, Convexity, answer, marginal, test};
use std::alloc::Global;
use std::test::Fail;
use worth_core::Worth;

/// What the test says, and whether the answer says the same, with these shares if it is convex.
fn told<W: Worth>(
    alloc: Global,
    game: &W,
    shapley: &[(i128, i128)],
    marginal: &[(i128, i128)],
) -> Result<(Convexity, bool), Fail> {
    if game.players() > 16 {
        Err("too many players")?;
    }
    let tested = test(game);
    let agrees = match answer(alloc, game).ok().ok_or("no memory")? {
        ConvexAnswer::Convex {
            shapley: x,
            marginal: y,
        } => tested == Convexity::Convex && are(&x, shapley) && are(&y, marginal),
        ConvexAnswer::Not { s, i, j, deficit } => tested == Convexity::Not { s, i, j, deficit },
    };
    Ok((tested, agrees))
}

#[test]
fn a_majority_of_three_is_not_convex(rt: HostRuntime) -> Result<(), Fail> {
    let game = table(&rt, 3, &[0, 0, 1, 0, 1, 1, 1])?;
    let first = Convexity::Not {
        s: Coalition(1),
        i: 1,
        j: 2,
        deficit: 1,
    };
    assert_eq!(rt; told(rt.alloc(), &game, &[], &[])?, (first, true));
    Ok(())
}

/// The game of three airlines with the costs 2, 4 and 6.
fn airlines(alloc: Global) -> Result<AirportGame, Fail> {
    Ok(
        AirportGame::new(alloc, [2, 4, 6].to_vec(alloc)?)
            .ok()
            .ok_or("no game")?,
    )
}

#[test]
fn three_airlines_are_convex(rt: HostRuntime) -> Result<(), Fail> {
    let game = airlines(rt.alloc())?;
    let shapley = [(-2, 3), (-5, 3), (-11, 3)];
    let marginal = [(-2, 1), (-2, 1), (-2, 1)];
    assert_eq!(rt;
        told(rt.alloc(), &game, &shapley, &marginal)?,
        (Convexity::Convex, true)
    );
    Ok(())
}

/// Whether the marginal shares are these, in the order that puts the greatest cost between the others and in the one
/// that puts it first.
fn are_marginal(
    alloc: Global,
    game: &AirportGame,
    first_two: &[(i128, i128)],
    greatest: &[(i128, i128)],
) -> Result<(bool, bool), Fail> {
    if game.len() != 3 {
        Err("another number of players")?;
    }
    let x = marginal(alloc, game, &[0, 2, 1]).ok().ok_or("no memory")?;
    let y = marginal(alloc, game, &[2, 0, 1]).ok().ok_or("no memory")?;
    Ok((are(&x, first_two), are(&y, greatest)))
}

#[test]
fn who_comes_first_pays_its_cost(rt: HostRuntime) -> Result<(), Fail> {
    let game = airlines(rt.alloc())?;
    let first_two = [(-2, 1), (0, 1), (-4, 1)];
    let greatest = [(0, 1), (0, 1), (-6, 1)];
    let found = are_marginal(rt.alloc(), &game, &first_two, &greatest)?;
    assert_eq!(rt; found, (true, true));
    Ok(())
}
