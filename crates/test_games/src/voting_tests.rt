//! Voting games that are made and refused, their blockers and bounds, and their Shapley values.

use crate::asked::{blocker_of, bound_of, worths_are};
use crate::shares::{are_numbers, shares_of};
use coalitions::Coalition;
use std::test::Fail;
use voting::{VotingFault, VotingGame, voting_shapley};
use worth_core::Shares;

#[test]
fn games_are_refused_by_the_first_cause(rt: HostRuntime) -> Result<(), Fail> {
    const LIMIT: i64 = 1 << 40;
    for &(count, weight, quota, fault) in &[
        (0, 0, 0, Some(VotingFault::Players)),
        (1, 1, 1, None),
        (1, 1, 0, Some(VotingFault::Quota)),
        (1, 0, 0, Some(VotingFault::Quota)),
        (1, 1, 2, Some(VotingFault::Quota)),
        (1, 1000, 1000, None),
        (1, 1001, 1, Some(VotingFault::Quota)),
        (20, 50, 1000, None),
        (20, 51, 1000, Some(VotingFault::Quota)),
        (32, 1, 32, None),
        (33, 1, 33, Some(VotingFault::Players)),
        (33, -1, 33, Some(VotingFault::Players)),
        (2, -1, 1, Some(VotingFault::Number)),
        (2, 1, -1, Some(VotingFault::Number)),
        (2, LIMIT, 1, Some(VotingFault::Number)),
        (2, LIMIT - 1, 1, Some(VotingFault::Quota)),
        (2, 1, LIMIT, Some(VotingFault::Number)),
        (2, 1, LIMIT - 1, Some(VotingFault::Quota)),
        (2, 1001, -1, Some(VotingFault::Number)),
    ] {
        let weights = vec![in rt.alloc(); weight; count]?;
        let made = VotingGame::new(rt.alloc(), quota, weights).err();
        assert_eq!(rt; made, fault, "{count} weights of {weight}, quota {quota}");
    }
    Ok(())
}

#[test]
fn the_great_player_and_the_middle_one_block(rt: HostRuntime) -> Result<(), Fail> {
    let weights = [4, 2, 1].to_vec(rt.alloc())?;
    let game = VotingGame::new(rt.alloc(), 5, weights)
        .ok()
        .ok_or("no game")?;
    assert_eq!(rt; game.len(), 3);
    assert_eq!(rt; (game.quota(), game.weight(1)), (5, 2));
    worths_are(&rt, &game, &[0, 0, 0, 1, 0, 1, 0, 1]);
    for &(num, den, blocker) in &[
        ([0, 1, 1], 2, Some(Coalition(3))),
        ([1, 0, 0], 1, None),
        ([2, -1, -1], 1, Some(Coalition(6))),
        ([0, 0, 0], 1, Some(Coalition(3))),
    ] {
        let x = shares_of(rt.alloc(), &num, den)?;
        assert_eq!(rt; blocker_of(&rt, &game, &x), blocker, "{num:?} over {den}");
    }
    Ok(())
}

// The game of 32 players of weight 31, at shares of 1/32, except for player 5.
#[test]
fn thirty_two_players_need_no_list_of_coalitions(rt: HostRuntime) -> Result<(), Fail> {
    const EVERYONE: Coalition = Coalition((1 << 32) - 1);
    const SEVENTEEN: Coalition = Coalition((1 << 17) - 1);
    const EIGHTEEN_BUT_THE_SIXTH: Coalition = Coalition((1 << 18) - 1 - 32);
    let weights = vec![in rt.alloc(); 31; 32]?;
    let game = VotingGame::new(rt.alloc(), 17 * 31, weights)
        .ok()
        .ok_or("no game")?;
    for &(numerator, blocker, bound) in &[
        (1, Some(SEVENTEEN), 15),
        (3, Some(EIGHTEEN_BUT_THE_SIXTH), 15),
        (-1, Some(SEVENTEEN), 17),
    ] {
        let mut num = vec![in rt.alloc(); 1; 32]?;
        num[5] = numerator;
        let x = Shares::new(num, 32).ok_or("not shares")?;
        let found = (
            blocker_of(&rt, &game, &x),
            bound_of(&rt, &game, &x, EVERYONE),
        );
        assert_eq!(rt; found, (blocker, bound), "{numerator}");
    }
    Ok(())
}

/// The least common multiple of 1 to 32.
const UNIT: i128 = 144_403_552_893_600;

const TWO_THIRDS: i128 = UNIT / 3 * 2;

const SIXTH: i128 = UNIT / 6;

const VETO: i128 = UNIT / 2145 * 421;

const OTHER: i128 = UNIT / 2145 * 4;

/// A quota, weights and what each player has.
const VALUES: [(i64, &[i64], &[i128]); 3] = [
    (5, &[4, 2, 1], &[TWO_THIRDS, SIXTH, SIXTH]),
    // The Security Council: five members with a veto and ten without, of whom four have to join.
    (
        39,
        &[7, 7, 7, 7, 7, 1, 1, 1, 1, 1, 1, 1, 1, 1, 1],
        &[
            VETO, VETO, VETO, VETO, VETO, OTHER, OTHER, OTHER, OTHER, OTHER, OTHER, OTHER, OTHER,
            OTHER, OTHER,
        ],
    ),
    (17, &[1; 32], &[UNIT / 32; 32]),
];

#[test]
fn shapley_values_are_those_known(rt: HostRuntime) -> Result<(), Fail> {
    for &(quota, weights, values) in &VALUES {
        let weights = weights.to_vec(rt.alloc())?;
        let game = VotingGame::new(rt.alloc(), quota, weights)
            .ok()
            .ok_or("no game")?;
        let x = voting_shapley(rt.alloc(), &game)?;
        assert_eq!(rt;
            (x.den(), are_numbers(&x, values)),
            (UNIT, true),
            "quota {quota}"
        );
    }
    Ok(())
}
