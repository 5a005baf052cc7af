//! Costs whose shares and levels were worked by hand.

use crate::levels::{Row, are_levels};
use airport::AirportGame;
use airport_scheme::solve;
use fractions::Frac;
use kohlberg::Certificate;
use std::alloc::Global;
use std::test::Fail;
use worth_core::{Shares, ratio};

/// The shares and the certificate of the game of these costs.
fn solved(alloc: Global, costs: &[i64]) -> Result<(Shares, Certificate), Fail> {
    let game = AirportGame::new(alloc, costs.to_vec(alloc)?)
        .ok()
        .ok_or("no game")?;
    Ok(solve(alloc, &game).ok().ok_or("no memory")?)
}

/// Whether player `i` pays so much.
fn pays(shares: &Shares, i: usize, payment: (i128, i128)) -> bool {
    i < shares.players() as usize
        && Some(ratio(-shares.num(i as u32), shares.den())) == Frac::new(payment.0, payment.1)
}

/// Whether the first players pay so much.
fn pay_first(shares: &Shares, payments: &[(i128, i128)]) -> bool {
    for i in 0..payments.len() {
        if !pays(shares, i, payments[i]) {
            return false;
        }
    }
    true
}

/// Whether players pay so much, in their order.
fn pay(shares: &Shares, payments: &[(i128, i128)]) -> bool {
    shares.players() as usize == payments.len() && pay_first(shares, payments)
}

/// Whether players of these costs pay so much, and their certificate has these levels.
fn is_solution(
    alloc: Global,
    costs: &[i64],
    payments: &[(i128, i128)],
    levels: &[Row<'_>],
) -> Result<(bool, bool), Fail> {
    let (shares, certificate) = solved(alloc, costs)?;
    Ok((
        pay(&shares, payments),
        are_levels(certificate.levels(), levels),
    ))
}

#[test]
fn costs_of_2_and_4_and_6_have_two_levels(rt: HostRuntime) -> Result<(), Fail> {
    const LEVELS: [Row<'static>; 2] = [
        ((-1, 1), &[(0b001, 1), (0b110, 1)], &[], &[], 1),
        ((-3, 2), &[(0b011, 1), (0b101, 1)], &[(0b001, -1)], &[], 1),
    ];
    let payments = [(1, 1), (3, 2), (7, 2)];
    let found = is_solution(rt.alloc(), &[2, 4, 6], &payments, &LEVELS)?;
    assert_eq!(rt; found, (true, true));
    Ok(())
}

/// What players of these costs pay.
fn shares_of(alloc: Global, costs: &[i64]) -> Result<Shares, Fail> {
    let (shares, _) = solved(alloc, costs)?;
    Ok(shares)
}

#[test]
fn the_squares_to_64_reach_the_greatest_denominator(rt: HostRuntime) -> Result<(), Fail> {
    let mut costs = [0; 64];
    for i in 0..64 {
        costs[i] = (i as i64 + 1) * (i as i64 + 1);
    }
    let shares = shares_of(rt.alloc(), &costs)?;
    assert_eq!(rt;
        (
            shares.players(),
            shares.den(),
            pay_first(&shares, &[(1, 2), (7, 4), (27, 8)])
        ),
        (64, 1 << 63, true)
    );
    Ok(())
}
