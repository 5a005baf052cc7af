//! Markets that are refused and markets that are solved, with prices and worths worked by hand, and a market of
//! scattered numbers.

use crate::asked::worths_are;
use crate::rows::{diagonal, matrix_of};
use crate::shares::are_numbers;
use big_assignment::{MarketFault, MarketGame};
use std::alloc::{AllocError, Global};
use std::test::Fail;
use worth_core::Shares;

const LIMIT: i64 = 1 << 40;

const ONE: &[i64] = &[0];

const SIDE: &[i64] = &[0; 32];

/// Rows, and why they make no market.
const FAULTS: [(&[&[i64]], Option<MarketFault>); 10] = [
    (&[SIDE; 32], None),
    (&[&[LIMIT - 1]], None),
    (&[], Some(MarketFault::Players)),
    (&[&[], &[-1]], Some(MarketFault::Players)),
    (&[ONE; 33], Some(MarketFault::Players)),
    (&[&[-1; 33]], Some(MarketFault::Players)),
    (&[&[LIMIT]], Some(MarketFault::Number)),
    (&[&[0, 0], &[0, -1]], Some(MarketFault::Number)),
    (&[&[0, 0], &[-1]], Some(MarketFault::Number)),
    (&[&[0, 0], &[0]], Some(MarketFault::Matrix)),
];

#[test]
fn rows_are_refused_by_the_first_cause(rt: HostRuntime) -> Result<(), Fail> {
    for &(rows, fault) in &FAULTS {
        let matrix = matrix_of(rt.alloc(), rows)?;
        let made = MarketGame::new(rt.alloc(), matrix).err();
        assert_eq!(rt; made, fault, "{rows:?}");
    }
    Ok(())
}

/// Rows, the worths in mask order, the pairs and their value, and the shares that are best for the buyers and for the
/// sellers.
const MARKETS: [(&[&[i64]], &[i64], &[(u32, u32)], i64, &[i128], &[i128]); 2] = [
    // Two buyers of one good leave the lesser with nothing.
    (
        &[&[5], &[3]],
        &[0, 0, 0, 0, 0, 5, 3, 5],
        &[(0, 2)],
        5,
        &[2, 0, 3],
        &[0, 0, 5],
    ),
    // The greatest entry, 8, stands in the one optimal matching beside 7, and not beside 6.
    (
        &[&[5, 8], &[7, 6]],
        &[0, 0, 0, 0, 0, 5, 7, 7, 0, 8, 6, 8, 0, 8, 7, 15],
        &[(0, 3), (1, 2)],
        15,
        &[8, 7, 0, 0],
        &[0, 0, 7, 8],
    ),
];

#[test]
fn markets_are_solved_as_by_hand(rt: HostRuntime) -> Result<(), Fail> {
    for &(rows, worths, pairs, value, of_buyers, of_sellers) in &MARKETS {
        let matrix = matrix_of(rt.alloc(), rows)?;
        let game = MarketGame::new(rt.alloc(), matrix).ok().ok_or("no market")?;
        worths_are(&rt, &game, worths);
        let solution = game.solve(rt.alloc())?;
        assert_eq!(rt;
            (
                solution.pairs.as_slice(),
                solution.value,
                are_numbers(&solution.buyers_best, of_buyers),
                are_numbers(&solution.sellers_best, of_sellers)
            ),
            (pairs, value, true, true)
        );
    }
    Ok(())
}

const ALL: i64 = LIMIT - 1;

/// What 32 buyers get at their best who have a seller each, and what the sellers get.
const BUYERS_GAIN: [i128; 64] = [
    1, 1, 1, 1, 1, 1, 1, 1, 1, 1, 1, 1, 1, 1, 1, 1, 1, 1, 1, 1, 1, 1, 1, 1, 1, 1, 1, 1, 1, 1, 1, 1,
    0, 0, 0, 0, 0, 0, 0, 0, 0, 0, 0, 0, 0, 0, 0, 0, 0, 0, 0, 0, 0, 0, 0, 0, 0, 0, 0, 0, 0, 0, 0, 0,
];

const TOP: i128 = (1 << 40) - 1;

/// The same of 32 buyers and 31 goods that each of them would pay the greatest number for.
const SELLERS_GAIN: [i128; 63] = [
    0, 0, 0, 0, 0, 0, 0, 0, 0, 0, 0, 0, 0, 0, 0, 0, 0, 0, 0, 0, 0, 0, 0, 0, 0, 0, 0, 0, 0, 0, 0, 0,
    TOP, TOP, TOP, TOP, TOP, TOP, TOP, TOP, TOP, TOP, TOP, TOP, TOP, TOP, TOP, TOP, TOP, TOP, TOP,
    TOP, TOP, TOP, TOP, TOP, TOP, TOP, TOP, TOP, TOP, TOP, TOP,
];

/// The value of a market of 32 buyers, and the shares that are best for them.
fn best_of(alloc: Global, columns: usize, on: i64, off: i64) -> Result<(i64, Shares), Fail> {
    let matrix = diagonal(alloc, 32, columns, on, off)?;
    let game = MarketGame::new(alloc, matrix).ok().ok_or("no market")?;
    let solution = game.solve(alloc)?;
    Ok((solution.value, solution.buyers_best))
}

#[test]
fn the_greatest_markets_are_solved(rt: HostRuntime) -> Result<(), Fail> {
    const MARKETS: [(usize, i64, i64, i64, &[i128]); 2] = [
        (32, 1, 0, 32, &BUYERS_GAIN),
        (31, ALL, ALL, 31 * ALL, &SELLERS_GAIN),
    ];
    for &(columns, on, off, value, shares) in &MARKETS {
        let (found, x) = best_of(rt.alloc(), columns, on, off)?;
        let is_best = are_numbers(&x, shares);
        assert_eq!(rt; (found, is_best), (value, true), "{columns} columns");
    }
    Ok(())
}

/// What 32 buyers and 32 sellers are worth together: 2^33 for the same number, 2^j more if the buyer's is greater than
/// the seller's, j, and else 0.
fn steps(alloc: Global) -> Result<Vec<Vec<i64>>, AllocError> {
    const SAME: i64 = 1 << 33;
    let mut matrix = Vec::new(alloc);
    for i in 0..32u32 {
        let mut row = Vec::new(alloc);
        for j in 0..32u32 {
            let more = if j < i { i64::from(1u32 << j) } else { 0 };
            row.push(if i < j { 0 } else { SAME + more })?;
        }
        matrix.push(row)?;
    }
    Ok(matrix)
}

// Buyer i has seller i, and would rather have each seller of a lesser number, until it costs 2^j more. If the buyer
// of least number is always asked first, prices rise 2^31 - 1 times.
#[test]
fn buyers_who_take_turns_raise_few_prices(rt: HostRuntime) -> Result<(), Fail> {
    let mut low = [0; 64];
    let mut high = [0; 64];
    for k in 0..32usize {
        let power: i128 = 1 << k;
        low[k] = (3 << 31) + power;
        low[32 + k] = (1 << 31) - power;
        high[k] = power - 1;
        high[32 + k] = (1 << 33) + 1 - power;
    }
    let game = MarketGame::new(rt.alloc(), steps(rt.alloc())?)
        .ok()
        .ok_or("no market")?;
    let solution = game.solve(rt.alloc())?;
    assert_eq!(rt;
        (
            solution.value,
            are_numbers(&solution.buyers_best, &low),
            are_numbers(&solution.sellers_best, &high)
        ),
        (1 << 38, true, true)
    );
    Ok(())
}
