//! Core points and collections of small games.

use crate::tables::table;
use airport::AirportGame;
use balanced::{Collection, CoreAnswer, CoreFault, core_of};
use coalitions::Coalition;
use std::alloc::Global;
use std::test::Fail;
use worth_core::{Shares, Worth};

/// The point of the core of a game.
fn point_of<W: Worth>(rt: &HostRuntime, game: &W) -> Result<Shares, Fail> {
    match core_of(rt.alloc(), game) {
        Ok(CoreAnswer::Point(shares)) => Ok(shares),
        _ => Err("no point")?,
    }
}

/// The collection that shows that the core of a game is empty.
fn shown_by<W: Worth>(rt: &HostRuntime, game: &W) -> Result<Collection, Fail> {
    match core_of(rt.alloc(), game) {
        Ok(CoreAnswer::Empty(collection)) => Ok(collection),
        _ => Err("no collection")?,
    }
}

/// The collection that shows that the core of the game of these worths is empty.
fn shown_by_table(rt: &HostRuntime, players: u32, worths: &[i64]) -> Result<Collection, Fail> {
    shown_by(rt, &table(rt, players, worths)?)
}

#[test]
fn three_pairs_of_a_majority_leave_no_core(rt: HostRuntime) -> Result<(), Fail> {
    let collection = shown_by_table(&rt, 3, &[0, 0, 1, 0, 1, 1, 1])?;
    let pairs = [(Coalition(3), 1), (Coalition(5), 1), (Coalition(6), 1)];
    assert_eq!(&rt;
        (collection.k, collection.weights.as_slice()),
        (2, pairs.as_slice())
    );
    Ok(())
}

/// The point of the core of the game of these worths.
fn point_of_table(rt: &HostRuntime, players: u32, worths: &[i64]) -> Result<Shares, Fail> {
    point_of(rt, &table(rt, players, worths)?)
}

#[test]
fn sixteen_who_win_together_have_a_core(rt: HostRuntime) -> Result<(), Fail> {
    let mut worths = vec![in rt.alloc(); 0; 65535]?;
    worths[65534] = 16;
    let shares = point_of_table(&rt, 16, &worths)?;
    assert_eq!(&rt; shares.players(), 16);
    let total = shares.sum_of(Coalition(65535));
    assert!(&rt; total == shares.den().wrapping_mul(16));
    for i in 0..16u32 {
        assert!(&rt; shares.num(i) >= 0);
    }
    Ok(())
}

/// Why so many players have no answer; none if they have one.
fn fault_of(alloc: Global, players: usize) -> Result<Option<CoreFault>, Fail> {
    let costs = vec![in alloc; 1; players]?;
    let game = AirportGame::new(alloc, costs).ok().ok_or("no game")?;
    Ok(core_of(alloc, &game).err())
}

#[test]
fn seventeen_are_too_many(rt: HostRuntime) -> Result<(), Fail> {
    assert_eq!(&rt; fault_of(rt.alloc(), 17)?, Some(CoreFault::TooMany));
    Ok(())
}
