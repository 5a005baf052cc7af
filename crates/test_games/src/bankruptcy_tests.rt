//! Bankruptcy games that are made and refused, and their blockers and bounds.

use crate::asked::{blocker_of, bound_of, worths_are};
use crate::shares::shares_of;
use bankruptcy::{BankruptcyFault, BankruptcyGame};
use coalitions::Coalition;
use std::test::Fail;
use worth_core::{Shares, Worth};

#[test]
fn games_are_refused_by_the_first_cause(rt: HostRuntime) -> Result<(), Fail> {
    const LIMIT: i64 = 1 << 40;
    for &(count, claim, estate, fault) in &[
        (0, 0, 0, Some(BankruptcyFault::Players)),
        (1, 0, 0, None),
        (3, 200, 600, None),
        (3, 200, 601, Some(BankruptcyFault::Estate)),
        (64, 1, 64, None),
        (65, 1, 64, Some(BankruptcyFault::Players)),
        (65, -1, 64, Some(BankruptcyFault::Players)),
        (2, -1, 0, Some(BankruptcyFault::Number)),
        (2, 1, -1, Some(BankruptcyFault::Number)),
        (2, LIMIT - 1, LIMIT - 1, None),
        (2, LIMIT, 5, Some(BankruptcyFault::Number)),
        (2, LIMIT - 1, LIMIT, Some(BankruptcyFault::Number)),
        (2, 1, LIMIT, Some(BankruptcyFault::Number)),
        (2, 1, LIMIT - 1, Some(BankruptcyFault::Estate)),
    ] {
        let claims = vec![in rt.alloc(); claim; count]?;
        let made = BankruptcyGame::new(rt.alloc(), estate, claims).err();
        assert_eq!(rt; made, fault, "{count} claims of {claim} to {estate}");
    }
    Ok(())
}

#[test]
fn what_the_others_leave_blocks(rt: HostRuntime) -> Result<(), Fail> {
    let claims = [100, 200, 300].to_vec(rt.alloc())?;
    let game = BankruptcyGame::new(rt.alloc(), 200, claims)
        .ok()
        .ok_or("no game")?;
    assert_eq!(rt; game.players(), 3);
    assert_eq!(rt; (game.estate(), game.claim(1)), (200, 200));
    worths_are(&rt, &game, &[0, 0, 0, 0, 0, 0, 100, 200]);
    let x = shares_of(rt.alloc(), &[110, 45, 45], 1)?;
    assert_eq!(rt; blocker_of(&rt, &game, &x), Some(Coalition(6)));
    Ok(())
}

// The game of an estate of 32 and 64 claims of 1, at halves, except for player 5.
#[test]
fn sixty_four_players_need_no_list_of_coalitions(rt: HostRuntime) -> Result<(), Fail> {
    const EVERYONE: Coalition = Coalition(u64::MAX);
    let claims = vec![in rt.alloc(); 1; 64]?;
    let game = BankruptcyGame::new(rt.alloc(), 32, claims)
        .ok()
        .ok_or("no game")?;
    for &(numerator, blocker, bound) in &[
        (1, None, -1),
        (5, None, -1),
        (-1, Some(EVERYONE), 1),
        (-3, Some(EVERYONE), 3),
    ] {
        let mut num = vec![in rt.alloc(); 1; 64]?;
        num[5] = numerator;
        let x = Shares::new(num, 2).ok_or("not shares")?;
        let found = (
            blocker_of(&rt, &game, &x),
            bound_of(&rt, &game, &x, EVERYONE),
        );
        assert_eq!(rt; found, (blocker, bound), "{numerator}");
    }
    Ok(())
}
