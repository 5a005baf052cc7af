//! Shares worked by hand, in both forms.

use crate::shares::are;
use airport::AirportGame;
use shapley::{ShapleyFault, airport_shapley, shapley};
use std::alloc::Global;
use std::test::Fail;
use worth_core::Worth;

/// Whether the Shapley shares are these.
fn is_shapley<W: Worth>(alloc: Global, game: &W, wanted: &[(i128, i128)]) -> Result<bool, Fail> {
    let shares = shapley(alloc, game).ok().ok_or("no shares")?;
    Ok(are(&shares, wanted))
}

/// The game of these costs.
fn airport(alloc: Global, costs: &[i64]) -> Result<AirportGame, Fail> {
    Ok(
        AirportGame::new(alloc, costs.to_vec(alloc)?)
            .ok()
            .ok_or("no game")?,
    )
}

/// Whether the Shapley shares of an airport game, by the form for airports, are the wanted ones.
fn is_airport_shapley(
    alloc: Global,
    game: &AirportGame,
    wanted: &[(i128, i128)],
) -> Result<bool, Fail> {
    let shares = airport_shapley(alloc, game).ok().ok_or("no shares")?;
    Ok(are(&shares, wanted))
}

/// Whether the shares of the game of these costs are these in the form for airports.
fn is_shapley_by_steps(
    alloc: Global,
    costs: &[i64],
    wanted: &[(i128, i128)],
) -> Result<bool, Fail> {
    let game = airport(alloc, costs)?;
    is_airport_shapley(alloc, &game, wanted)
}

/// Whether the shares of the game of these costs are these in both forms.
fn is_shapley_of_both(alloc: Global, costs: &[i64], wanted: &[(i128, i128)]) -> Result<bool, Fail> {
    let game = airport(alloc, costs)?;
    Ok(is_shapley(alloc, &game, wanted)? && is_airport_shapley(alloc, &game, wanted)?)
}

#[test]
fn three_airlines_share_the_steps_of_their_costs(rt: HostRuntime) -> Result<(), Fail> {
    let wanted = [(-2, 3), (-5, 3), (-11, 3)];
    assert!(rt; is_shapley_of_both(rt.alloc(), &[2, 4, 6], &wanted)?);
    Ok(())
}

/// Why the Shapley value of so many players of cost 32 isn't found, by orders and by steps.
fn faults(
    alloc: Global,
    count: usize,
) -> Result<(Option<ShapleyFault>, Option<ShapleyFault>), Fail> {
    let costs = vec![in alloc; 32i64; count]?;
    let game = AirportGame::new(alloc, costs).ok().ok_or("no game")?;
    Ok((
        shapley(alloc, &game).err(),
        airport_shapley(alloc, &game).err(),
    ))
}

#[test]
fn airports_of_17_players_have_steps_alone(rt: HostRuntime) -> Result<(), Fail> {
    for &(count, by_orders, by_steps) in &[
        (16, None, None),
        (17, Some(ShapleyFault::TooMany), None),
        (33, Some(ShapleyFault::TooMany), Some(ShapleyFault::TooMany)),
    ] {
        assert_eq!(rt; faults(rt.alloc(), count)?, (by_orders, by_steps));
    }
    assert!(rt; is_shapley_by_steps(rt.alloc(), &[32; 32], &[(-1, 1); 32])?);
    Ok(())
}
