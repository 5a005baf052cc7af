//! Games and shares of the greatest size of these calls: want of memory is left open by every contract, so that a body
//! which gives up on great games would be seen by these tests alone.
use crate::asked::blocker_of;
use crate::fracs::fracs_of;
use crate::rows::diagonal;
use crate::shares::are_numbers;
use coalitions::Coalition;
use std::alloc::Global;
use std::process::Abort;
use std::test::Fail;
use tree_games::TreeGame;
use worth_core::{Shares, Worth};
use worth_tables::{KeptWorths, TableGame};

/// The links of 16 players to the source.
const LINKS: [(u32, u32, i64); 16] = [
    (0, 1, 3),
    (0, 2, 3),
    (0, 3, 3),
    (0, 4, 3),
    (0, 5, 3),
    (0, 6, 3),
    (0, 7, 3),
    (0, 8, 3),
    (0, 9, 3),
    (0, 10, 3),
    (0, 11, 3),
    (0, 12, 3),
    (0, 13, 3),
    (0, 14, 3),
    (0, 15, 3),
    (0, 16, 3),
];

// Each link costs 3, and of equal links those from the source come first.
#[test]
fn sixteen_players_are_linked_to_the_source(rt: HostRuntime) -> Result<(), Fail> {
    let matrix = diagonal(rt.alloc(), 17, 17, 0, 3)?;
    let game = TreeGame::new(rt.alloc(), matrix).ok().ok_or("no game")?;
    let (shares, tree) = game.bird(rt.alloc())?;
    assert!(rt; are_numbers(&shares, &[-3; 16]) && shares.den() == 1);
    assert!(rt; tree.edges.as_slice() == LINKS.as_slice());
    Ok(())
}

/// The game of 16 players in which a coalition is worth the square of its size.
fn squares(alloc: Global) -> Result<TableGame, Fail> {
    let mut worths = Vec::new(alloc);
    for mask in 1..65536u64 {
        let size = i64::from(mask.count_ones());
        worths.push(size.wrapping_mul(size))?;
    }
    Ok(TableGame::new(alloc, 16, worths).ok().ok_or("no game")?)
}

/// The worths of 8 players and of all 16, as they are kept, and who blocks if nobody gets anything.
fn kept(
    rt: &impl Abort,
    alloc: Global,
    game: &TableGame,
) -> Result<(i64, i64, Option<Coalition>), Fail> {
    assert_eq!(rt; game.players(), 16);
    let kept = KeptWorths::new(alloc, game)?;
    assert_eq!(rt; kept.players(), 16);
    let nothing = Shares::new(vec![in alloc; 0i128; 16]?, 1).ok_or("not shares")?;
    Ok((
        kept.worth(Coalition(0xf0f)),
        kept.worth(Coalition(0xffff)),
        blocker_of(rt, &kept, &nothing),
    ))
}

#[test]
fn the_worths_of_65536_coalitions_are_kept(rt: HostRuntime) -> Result<(), Fail> {
    let game = squares(rt.alloc())?;
    assert_eq!(rt;
        kept(&rt, rt.alloc(), &game)?,
        (64, 256, Some(Coalition(0xffff)))
    );
    Ok(())
}

/// 32 halves and thirds in turn, in sixths.
const HALVES_AND_THIRDS: [i128; 64] = [
    3, 2, 3, 2, 3, 2, 3, 2, 3, 2, 3, 2, 3, 2, 3, 2, 3, 2, 3, 2, 3, 2, 3, 2, 3, 2, 3, 2, 3, 2, 3, 2,
    3, 2, 3, 2, 3, 2, 3, 2, 3, 2, 3, 2, 3, 2, 3, 2, 3, 2, 3, 2, 3, 2, 3, 2, 3, 2, 3, 2, 3, 2, 3, 2,
];

#[test]
fn sixty_four_fractions_have_one_denominator(rt: HostRuntime) -> Result<(), Fail> {
    let (half, third) = fracs_of(1, 2, 1, 3)?;
    let mut fracs = [half; 64];
    for i in 0..32usize {
        fracs[2 * i + 1] = third;
    }
    let x = Shares::from_fracs(rt.alloc(), &fracs)
        .ok()
        .ok_or("no shares")?;
    assert!(rt; are_numbers(&x, &HALVES_AND_THIRDS) && x.den() == 6);
    Ok(())
}
