//! How the estate is divided: who gets half of its claim, and what the others get or lose.
//!
//! With the cut claims `d` in ascending order, of `n` players, and with `S` the estate or, if that is more than half
//! of the claims, what they are above it: the player at place `m` gets (or loses) `d_m / 2` as long as `(n - m) d_m` is
//! at most `2 S - (d_0 + .. + d_(m-1))`. The others get (or lose) `(2 S - (d_0 + .. + d_(m-1))) / (2 (n - m))`.
ghost use Rattle.std.specs.Prelude.{◌≡◌, IfOk};
ghost use Rattle.std.specs.Prelude.{◌-◌, ◌*◌, ◌^◌, ◌<◌, ◌≤◌, pos, ◌≤ℤ◌};
ghost use Rattle.std.specs.Prelude.{length, map, All};
ghost use Rattle.orders.specs.Ordered.{number_at};
ghost use Rattle.talmud.specs.Division.{IsSplit, IsSide, IsDivision, claim_sum, divided, award, is_gain};

use crate::cut_claims::CutClaims;
use std::alloc::{AllocError, Global};

/// What is divided by halves, and so what the bound is on.
#[derive(Clone, Copy)]
pub(crate) enum Side {
    /// What players get: the estate, if it is at most half of the claims.
    Gain,
    /// What players lose: what the claims are above the estate, if that is more than half of them.
    Loss,
}

/// How many players get half of their claims, and what is left of twice the sum that is divided.
#[derive(Clone, Copy)]
struct Split {
    half: u32,
    left: u64,
}

/// The division of an estate among claims.
#[derive(Clone, Copy)]
pub(crate) struct Division {
    /// Whether the bound is on what players get or on what they lose.
    pub(crate) side: Side,
    /// How many players, in the order of the claims, get half of them.
    pub(crate) half: u32,
    /// Half the denominator.
    pub(crate) half_den: u64,
    /// What each of the other players gets or loses, over the denominator.
    pub(crate) bound: u64,
    ghost some: { 1 ≤ half_den },
    ghost few: { half_den ≤ 64 },
    ghost small: { bound < 2 ^ 48 },
}

impl Division {
    /// The division of an estate among claims of at most the estate.
    pub(crate) fn new(estate: u64, claims: &CutClaims) -> Division
        requires small { estate < 2 ^ 40 }
        requires cut { All (λ c. c ≤ estate) claims.now.numbers }
        requires enough { pos estate ≤ℤ claim_sum claims.now }
        ensures { IsDivision estate claims.now (is_gain result.side) result.half result.half_den result.bound }
    {
        let total = claims.total();
        if 2 * estate <= total {
            Division::of_side(estate, claims, Side::Gain, estate)
        } else {
            Division::of_side(estate, claims, Side::Loss, total - estate)
        }
    }

    /// The division if `amount` is got or lost by halves.
    fn of_side(estate: u64, claims: &CutClaims, side: Side, amount: u64) -> Division
        requires small { estate < 2 ^ 40 }
        requires cut { All (λ c. c ≤ estate) claims.now.numbers }
        requires side { IsSide estate claims.now (is_gain side) }
        requires divided { pos amount ≡ divided estate claims.now (is_gain side) }
        requires amount { amount < 2 ^ 46 }
        ensures { IsDivision estate claims.now (is_gain result.side) result.half result.half_den result.bound }
    {
        let n = claims.len();
        let split = half_players(claims, 2 * amount);
        if split.half < n {
            Division {
                side,
                half: split.half,
                half_den: (n - split.half) as u64,
                bound: split.left,
            }
        } else {
            Division {
                side,
                half: n,
                half_den: 1,
                bound: estate,
            }
        }
    }

    /// The denominator of the shares.
    pub(crate) fn den(self) -> i128
        ensures { result ≡ pos (2 * self.half_den) }
    {
        2 * self.half_den as i128
    }

    /// The share of each player, over the denominator.
    pub(crate) fn awards(self, alloc: Global, claims: &CutClaims) -> Result<Vec<i128>, AllocError>
        ensures { IfOk result
            (λ v. v.items ≡ map (λ c. pos (award (is_gain self.side) self.half_den self.bound c)) claims.now.numbers) }
    {
        let mut num = Vec::new(alloc);
        for i in 0..claims.len() {
            num.push(self.award(claims.cut(i)) as i128)?;
        }
        Ok(num)
    }

    /// The share of a claim, over the denominator.
    fn award(self, claim: u64) -> u64
        requires { claim < 2 ^ 40 }
        ensures value { result ≡ award (is_gain self.side) self.half_den self.bound claim }
        ensures small { result < 2 ^ 48 }
    {
        let half = claim * self.half_den;
        let part = half.min(self.bound);
        match self.side {
            Side::Gain => part,
            Side::Loss => 2 * half - part,
        }
    }
}

/// Players get half of their claims as long as the next claim, for each of those behind, is at most what is left.
fn half_players(claims: &CutClaims, double: u64) -> Split
    requires { double < 2 ^ 47 }
    ensures split { IsSplit (length claims.now.numbers) (number_at claims.now) double result.half result.left }
    ensures stop { result.half < length claims.now.numbers
        → result.left < number_at claims.now result.half * (length claims.now.numbers - result.half) }
{
    let n = claims.len();
    let mut half = 0;
    let mut left = double;
    while half < n && claims.cut(claims.place(half)) * (n - half) as u64 <= left {
        left -= claims.cut(claims.place(half));
        half += 1;
    }
    Split { half, left }
}
