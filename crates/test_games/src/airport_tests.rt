//! Costs that make games and costs that don't, and blockers and bounds worked by hand.

use crate::asked::{blocker_of, bound_of, worths_are};
use crate::shares::shares_of;
use airport::{AirportFault, AirportGame};
use coalitions::Coalition;
use std::test::Fail;
use worth_core::Shares;

#[test]
fn costs_are_refused_by_the_first_cause(rt: HostRuntime) -> Result<(), Fail> {
    const LIMIT: i64 = 1 << 40;
    for &(count, cost, fault) in &[
        (0, 0, Some(AirportFault::Players)),
        (1, 0, None),
        (1, LIMIT - 1, None),
        (1, LIMIT, Some(AirportFault::Number)),
        (1, -1, Some(AirportFault::Number)),
        (64, 7, None),
        (65, 7, Some(AirportFault::Players)),
        (65, LIMIT, Some(AirportFault::Players)),
    ] {
        let costs = vec![in rt.alloc(); cost; count]?;
        let made = AirportGame::new(rt.alloc(), costs).err();
        assert_eq!(rt; made, fault, "{count} costs of {cost}");
    }
    Ok(())
}

// Of the two who cost 2 the lesser player stands first. Who pays more than its cost blocks; if player 2 pays all, the
// others gain nothing from it.
#[test]
fn players_stand_by_cost_and_block_if_they_pay_more(rt: HostRuntime) -> Result<(), Fail> {
    let costs = [4, 2, 6, 2].to_vec(rt.alloc())?;
    let game = AirportGame::new(rt.alloc(), costs).ok().ok_or("no game")?;
    assert_eq!(rt; game.len(), 4);
    let order = (game.place(0), game.place(1), game.place(2), game.place(3));
    assert_eq!(rt; (order, game.cost(2)), ((1, 3, 0, 2), 6));
    worths_are(&rt, &game, &[0, -4, -2, -4, -6, -6, -6, -6, -2, -4, -2]);
    for &(num, blocker, bound) in &[
        ([-1, -3, -2, 0], Some(Coalition(2)), 1),
        ([0, 0, -6, 0], None, 0),
    ] {
        let x = shares_of(rt.alloc(), &num, 1)?;
        let found = (
            blocker_of(&rt, &game, &x),
            bound_of(&rt, &game, &x, Coalition(15)),
        );
        assert_eq!(rt; found, (blocker, bound), "{num:?}");
    }
    Ok(())
}

#[test]
fn nobody_blocks_if_all_pay_an_equal_part_of_one_cost(rt: HostRuntime) -> Result<(), Fail> {
    let costs = vec![in rt.alloc(); 64; 64]?;
    let game = AirportGame::new(rt.alloc(), costs).ok().ok_or("no game")?;
    let num = vec![in rt.alloc(); -1; 64]?;
    let x = Shares::new(num, 1).ok_or("not shares")?;
    assert_eq!(rt; blocker_of(&rt, &game, &x), None);
    Ok(())
}
