//! The game of an estate and the claims to it.
ghost use Rattle.std.specs.Prelude.{◌≡◌, ◌↔◌, IsTrue, MatchResult};
ghost use Rattle.std.specs.Prelude.{◌^◌, ◌<◌, pos, ◌<ℤ◌, unsigned_abs};
ghost use Rattle.std.specs.Prelude.{length, map, slice_index};
ghost use Rattle.bankruptcy.specs.Bankruptcy.{AreNumbers};

use crate::arms::Arm;
use coalitions::Coalition;
use std::alloc::Global;
use std::marker::Model;
use worth_core::{Shares, Worth};

/// Why an estate and claims make no game. If several causes apply, the first of them is returned.
#[derive(Clone, Copy, Debug, PartialEq, Eq)]
pub enum BankruptcyFault {
    /// There aren't 1 to 64 claims.
    Players,
    /// The estate or a claim is negative, or 2^40 or more.
    Number,
    /// The estate is above the sum of the claims.
    Estate,
    /// There was no memory.
    Memory,
}

/// An estate, and the claim of each player. A coalition is worth what the claims of the others leave of the estate.
#[derive(Debug, Drop)]
pub struct BankruptcyGame {
    estate: u64,
    claims: Vec<u64>,
}

impl Model for BankruptcyGame {
    ghost use Rattle.bankruptcy.specs.Bankruptcy.{Bankruptcy, IsBankruptcy, bankruptcy};

    ghost Value = { Bankruptcy };

    ghost view = { λ b. bankruptcy b.estate b.claims.items };

    ghost invariant = { λ b. IsBankruptcy (bankruptcy b.estate b.claims.items) };
}

impl BankruptcyGame {
    ghost use Rattle.bankruptcy.specs.Bankruptcy.{IsBankruptcy, IsRefused};
    ghost use Rattle.bankruptcy.specs.Arms.{estate_less_claims};

    /// Makes the game of an estate and 1 to 64 claims, each from 0 to below 2^40 as worth; the estate is at most the
    /// sum of the claims. Otherwise returns the first cause in the order of `BankruptcyFault`.
    pub fn new(
        alloc: Global,
        estate: i64,
        claims: Vec<i64>,
    ) -> Result<BankruptcyGame, BankruptcyFault>
        ensures { MatchResult result (λ b. (pos b.estate ≡ estate) × (map pos b.claims ≡ claims.items))
            (IsRefused estate claims.items) }
    {
        if claims.is_empty() || claims.len() > 64 {
            return Err(BankruptcyFault::Players);
        }
        if !are_numbers(estate, &claims) {
            return Err(BankruptcyFault::Number);
        }
        if orders::total(&claims) < estate as u64 {
            return Err(BankruptcyFault::Estate);
        }
        let Ok(claims) = orders::naturals(alloc, &claims) else {
            return Err(BankruptcyFault::Memory);
        };
        Ok(BankruptcyGame {
            estate: estate as u64,
            claims,
        })
    }

    /// Returns the estate, as worth.
    pub fn estate(&self) -> i64
        ensures value { result ≡ pos self.now.estate }
        ensures small { result <ℤ pos (2 ^ 40) }
        ensures laws { IsBankruptcy self.now }
    {
        self.estate as i64
    }

    /// Returns the claim of player `i`, as worth.
    pub fn claim(&self, i: u32) -> i64
        requires { i < length self.now.claims }
        ensures value { result ≡ pos (slice_index self.now.claims i) }
        ensures small { result <ℤ pos (2 ^ 40) }
    {
        self.claims[i as usize] as i64
    }

    /// The estate less all claims, which isn't positive.
    pub(crate) fn estate_less_claims(&self) -> i64
        ensures value { result ≡ estate_less_claims self.now }
        ensures small { unsigned_abs result < 2 ^ 46 }
    {
        let everyone = Coalition::all(self.claims.len() as u32);
        self.estate as i64 - orders::sum_of(&self.claims, everyone) as i64
    }
}

/// Whether the estate and each claim are from 0 to below 2^40.
fn are_numbers(estate: i64, claims: &[i64]) -> bool
    ensures { IsTrue result ↔ AreNumbers estate claims.now }
{
    orders::is_number(estate) && orders::are_numbers(claims)
}

impl Worth for BankruptcyGame {
    ghost use Rattle.bankruptcy.specs.Bankruptcy.{bankruptcy_game};

    ghost game = { bankruptcy_game };

    #[tactic(auto, using(crate::proofs::Laws::game_laws))]
    fn players(&self) -> u32 {
        self.claims.len() as u32
    }

    fn worth(&self, s: Coalition) -> i64 {
        let others = s.complement(self.claims.len() as u32);
        let taken = orders::sum_of(&self.claims, others);
        if taken < self.estate {
            (self.estate - taken) as i64
        } else {
            0
        }
    }

    fn blocker(&self, x: &Shares) -> Option<Coalition> {
        let nothing = Arm::nothing().greatest(self, x);
        let rest = Arm::rest(x).greatest(self, x);
        nothing.or(rest).blocking()
    }

    fn split_bound(&self, x: &Shares, free: Coalition) -> i128 {
        let nothing = Arm::nothing().split_bound(self, x, free);
        let rest = Arm::rest(x).split_bound(self, x, free);
        nothing.max(rest)
    }
}
