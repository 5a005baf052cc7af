//! The balanced programs of small games, and what the simplex makes of them.

use crate::shares::are;
use crate::slow_games::{Slow, game_of};
use crate::tables::table;
use separation::{Listed, block_bounds_of, shares_of};
use simplex::{Optimal, Workspace, solve};
use std::test::Fail;
use worth_core::Worth;

/// The best weights of the balanced program of a table.
fn balanced(rt: &HostRuntime, players: u32, worths: &[i64]) -> Result<Optimal, Fail> {
    let game = table(rt, players, worths)?;
    let rows = game.players();
    if rows > 16 {
        Err("too many players")?;
    }
    let mut program = Listed::balanced(rt.alloc(), &game).ok().ok_or("no memory")?;
    let mut work = Workspace::new(rt.alloc(), rows).ok().ok_or("no memory")?;
    Ok(solve(&mut work, &mut program).ok().ok_or("no optimum")?)
}

/// The denominator and number of the weights, whether each is 1 and of a pair, and whether each multiplier is a
/// half.
fn parts(best: &Optimal) -> (i128, usize, bool, bool) {
    let mut are_pairs = true;
    for &(id, weight) in best.weights.as_slice() {
        are_pairs = are_pairs && [3, 5, 6].contains(&id) && weight == 1;
    }
    let mut are_halves = true;
    for num in best.multipliers.num.as_slice() {
        are_halves = are_halves && num.wrapping_mul(2) == best.multipliers.den;
    }
    (best.weight_den, best.weights.len(), are_pairs, are_halves)
}

#[test]
fn pairs_balance_a_majority_of_three(rt: HostRuntime) -> Result<(), Fail> {
    let best = balanced(&rt, 3, &[0, 0, 1, 0, 1, 1, 1])?;
    assert_eq!(&rt; parts(&best), (2, 3, true, true));
    if best.multipliers.num.len() != 3 {
        Err("other rows")?;
    }
    let shares = shares_of(rt.alloc(), &best.multipliers, 3)
        .ok()
        .ok_or("no memory")?;
    assert!(&rt; are(&shares, &[(1, 2); 3]));
    Ok(())
}

#[test]
fn sixteen_who_win_together_share_16(rt: HostRuntime) -> Result<(), Fail> {
    let mut worths = vec![in rt.alloc(); 0; 65535]?;
    worths[65534] = 16;
    let best = balanced(&rt, 16, &worths)?;
    assert_eq!(&rt;
        (best.weight_den, best.weights.as_slice()),
        (1, [(65535, 1)].as_slice())
    );
    Ok(())
}

// Squares of masks are greatest at the last of each 256 coalitions, and costs are never above 0.
#[test]
fn block_bounds_are_the_greatest_worths_of_256_coalitions(rt: HostRuntime) -> Result<(), Fail> {
    for &(family, base) in &[(Slow::Square, 255), (Slow::Line, 0)] {
        let game = game_of(rt.alloc(), family, 10)?;
        assert!(&rt; game.players() == 10);
        let block_bounds = block_bounds_of(&game);
        for k in 0..256usize {
            let last = if base > 0 && k < 4 {
                256 * k as i64 + base
            } else {
                0
            };
            assert_eq!(&rt;
                block_bounds[k],
                last.wrapping_mul(last),
                "{family:?} at {k}"
            );
        }
    }
    Ok(())
}
