//! The excess as the greater of two linear functions of the coalition, its arms.
//!
//! With the estate `E`, the claims `d`, the shares `x` over `q` and all players `N`, what the others leave to `S` is
//! `E - d(N) + d(S)`, or 0 if that is negative. So the excess of `S` is the greater of
//! `f (E - d(N) + d(S)) - x(S)` at the factors `f = 0` and `f = q`.
ghost use Rattle.std.specs.Prelude.{◌≡◌, Some, None, length};
ghost use Rattle.std.specs.Prelude.{ℕ, ◌^◌, ◌<◌, pos, ℤ, ◌*ℤ◌, ◌<ℤ◌, ◌≤ℤ◌, unsigned_abs};
ghost use Rattle.std.specs.Int.{int_max};
ghost use Rattle.definitions.specs.Games.{HasTwo};
ghost use Rattle.bankruptcy.specs.Arms.{arm_number, arm_base, arm_at, IsLeastGreatest, IsSplitGreatest};

use crate::BankruptcyGame;
use coalitions::Coalition;
use worth_core::{Shares, SplitSums, Worth};

/// One of the two linear functions: a number without members, and a number that each member adds.
#[derive(Clone, Copy)]
pub(crate) struct Arm {
    factor: i128,
    ghost low: { pos 0 ≤ℤ factor },
    ghost high: { factor ≤ℤ pos (2 ^ 63) },
}

impl Arm {
    /// The arm that is the greater one if the others leave nothing.
    pub(crate) fn nothing() -> Arm
        ensures { result.factor ≡ pos 0 }
    {
        Arm { factor: 0 }
    }

    /// The arm that is the greater one if the others leave something.
    pub(crate) fn rest(x: &Shares) -> Arm
        ensures factor { result.factor ≡ x.now.den }
        ensures positive { pos 1 ≤ℤ x.now.den }
    {
        Arm { factor: x.den() }
    }

    /// The coalition at which the arm is greatest, with the least mask: the players who add a positive number.
    pub(crate) fn greatest(self, game: &BankruptcyGame, x: &Shares) -> Candidate
        requires { length x.now.shares ≡ length game.now.claims }
        ensures { IsLeastGreatest (arm_at self.factor game.now x.now) (2 ^ length game.now.claims) result.coalition
            result.excess }
    {
        let mut coalition = Coalition::empty();
        let mut excess = self.base(game);
        for i in 0..game.players() {
            let number = self.number(game, x, i);
            if number > 0 {
                coalition = coalition.with(i);
                excess += number;
            }
        }
        Candidate { coalition, excess }
    }

    /// The greatest value of the arm at a coalition that holds some but not all of the players of `free`.
    pub(crate) fn split_bound(self, game: &BankruptcyGame, x: &Shares, free: Coalition) -> i128
        requires shares { length x.now.shares ≡ length game.now.claims }
        requires two { HasTwo (length game.now.claims) free }
        ensures { IsSplitGreatest (arm_at self.factor game.now x.now) (length game.now.claims) free result }
    {
        let mut sums = SplitSums::new();
        for i in 0..game.players() {
            sums.add(free.contains(i), self.number(game, x, i));
        }
        self.base(game) + sums.best(false).unwrap()
    }

    /// What the arm has without members.
    fn base(self, game: &BankruptcyGame) -> i128
        ensures value { result ≡ arm_base self.factor game.now }
        ensures small { unsigned_abs result < 2 ^ 110 }
    {
        self.times(game.estate_less_claims())
    }

    /// What player `i` adds to the arm as a member.
    fn number(self, game: &BankruptcyGame, x: &Shares, i: u32) -> i128
        requires shares { length x.now.shares ≡ length game.now.claims }
        requires player { i < length game.now.claims }
        ensures value { result ≡ arm_number self.factor game.now x.now i }
        ensures small { unsigned_abs result < 2 ^ 111 }
    {
        self.times(game.claim(i)) - x.num(i)
    }

    /// A worth by the factor.
    fn times(self, worth: i64) -> i128
        requires { unsigned_abs worth < 2 ^ 46 }
        ensures value { result ≡ self.factor *ℤ worth }
        ensures small { unsigned_abs result < 2 ^ 110 }
    {
        self.factor * worth as i128
    }
}

/// A coalition of greatest excess in one arm or in both.
#[derive(Clone, Copy)]
pub(crate) struct Candidate {
    pub(crate) coalition: Coalition,
    pub(crate) excess: i128,
}

impl Candidate {
    /// The candidate of greater excess, and of two with the same the one with the lesser mask.
    pub(crate) fn or(self, other: Candidate) -> Candidate
        ensures { (v w : ℕ → ℤ) (top : ℕ)
            → IsLeastGreatest v top self.coalition self.excess
            → IsLeastGreatest w top other.coalition other.excess
            → IsLeastGreatest (λ s. int_max (v s) (w s)) top result.coalition result.excess }
    {
        if other.excess > self.excess {
            return other;
        }
        if other.excess == self.excess && other.coalition < self.coalition {
            return other;
        }
        self
    }

    /// Its coalition if that blocks, and none if the excess isn't positive.
    pub(crate) fn blocking(self) -> Option<Coalition>
        ensures blocks { pos 0 <ℤ self.excess → result ≡ Some self.coalition }
        ensures none { self.excess ≤ℤ pos 0 → result ≡ None }
    {
        if self.excess > 0 {
            Some(self.coalition)
        } else {
            None
        }
    }
}
