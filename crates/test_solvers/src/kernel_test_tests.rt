//! Worked surpluses, and points in and outside of prekernels.

ghost use Rattle.std.specs.Prelude.{◌≡◌, ◌≢◌, ◌<◌, ◌≤◌, length};
ghost use Rattle.kernel_test.specs.Answers.{IsSurplusFraction};

use crate::tables::{ASSIGNMENT, table};
use fractions::Frac;
use kernel_test::{KernelAnswer, prekernel, surplus};
use std::alloc::Global;
use std::process::Abort;
use std::test::Fail;
use worth_core::{Shares, Worth};
use worth_tables::TableGame;

/// The answer on shares over a denominator, in the game of these worths.
fn answer(
    rt: &HostRuntime,
    players: u32,
    worths: &[i64],
    num: &[i128],
    den: i128,
) -> Result<KernelAnswer, Fail> {
    let game = table(rt, players, worths)?;
    let x = Shares::new(num.to_vec(rt.alloc())?, den).ok_or("not shares")?;
    if players > 16 || x.players() != players || game.players() != players {
        Err("another number of shares")?;
    }
    Ok(prekernel(&game, &x))
}

/// Three players, of whom two win 1 together.
const MAJORITY: [i64; 7] = [0, 0, 1, 0, 1, 1, 1];

/// Three players, of whom the first two are worth 4 together and all are worth nothing.
const ONE_PAIR: [i64; 7] = [0, 0, 4, 0, 0, 0, 0];

/// The answer of two players with these surpluses.
fn differs(i: u32, j: u32, ij: (i128, i128), ji: (i128, i128)) -> Result<KernelAnswer, Fail> {
    let ij = Frac::new(ij.0, ij.1).ok_or("not a fraction")?;
    let ji = Frac::new(ji.0, ji.1).ok_or("not a fraction")?;
    Ok(KernelAnswer::Differs { i, j, ij, ji })
}

#[test]
fn the_first_pair_that_differs_is_told_with_both_surpluses(rt: HostRuntime) -> Result<(), Fail> {
    for &(worths, num, den, i, j, ij, ji) in &[
        (MAJORITY, [1, 0, 0], 1, 0, 1, (0, 1), (1, 1)),
        (ONE_PAIR, [0, 0, 0], 1, 0, 2, (4, 1), (0, 1)),
        (MAJORITY, [1, 1, 2], 4, 0, 2, (1, 2), (1, 4)),
        (MAJORITY, [2, 1, 1], 4, 0, 1, (1, 4), (1, 2)),
    ] {
        let wanted = differs(i, j, ij, ji)?;
        assert_eq!(rt; answer(&rt, 3, &worths, &num, den)?, wanted);
    }
    Ok(())
}

/// The surplus, by the bound alone.
fn surplus_of<W: Worth>(game: &W, x: &Shares, i: u32, j: u32) -> Frac
    requires few { (W.game game.now).players ≤ 16 }
    requires shares { length x.now.shares ≡ (W.game game.now).players }
    requires player { i < (W.game game.now).players }
    requires other { j < (W.game game.now).players }
    requires different { i ≢ j }
    ensures { IsSurplusFraction (W.game game.now) x.now i j result }
{
    surplus(game, x, i, j)
}

/// Compares the surpluses of three players with those found by hand, in halves.
fn compare_surpluses(rt: &impl Abort, game: &TableGame, x: &Shares) {
    assert!(rt; x.players() == 3 && game.players() == 3);
    for &(i, j, num) in &[
        (0, 1, 1),
        (1, 0, -1),
        (0, 2, 4),
        (2, 0, 2),
        (1, 2, 4),
        (2, 1, 2),
    ] {
        assert_eq!(rt;
            Some(surplus_of(game, x, i, j)),
            Frac::new(num, 2),
            "{i} against {j}"
        );
    }
}

#[test]
fn surpluses_are_the_greatest_excesses_found_by_hand(rt: HostRuntime) -> Result<(), Fail> {
    let game = table(&rt, 3, &ONE_PAIR)?;
    let x = Shares::new([1, 3, -2].to_vec(rt.alloc())?, 2).ok_or("not shares")?;
    compare_surpluses(&rt, &game, &x);
    Ok(())
}
