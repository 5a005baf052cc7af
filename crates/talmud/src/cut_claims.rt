//! The claims, cut to the estate, and the players in the order of these.
ghost use Rattle.std.specs.Prelude.{◌≡◌, ◌^◌, ◌<◌, length, pos, slice_index, IfOk};
ghost use Rattle.definitions.specs.Sums.{sum_below};
ghost use Rattle.bankruptcy.specs.Bankruptcy.{IsBankruptcy};
ghost use Rattle.talmud.specs.Rule.{cut_claims};

use bankruptcy::BankruptcyGame;
use orders::Ordered;
use std::alloc::{AllocError, Global};
use std::marker::Model;
use worth_core::Worth;

/// The claims, cut to the estate, and the players in the order of these.
#[derive(Drop)]
pub(crate) struct CutClaims {
    claims: Ordered,
}

impl Model for CutClaims {
    ghost use Rattle.orders.specs.Ordered.{OrderedNumbers};

    ghost Value = { OrderedNumbers };

    ghost view = { λ c. c.claims };
}

impl CutClaims {
    ghost use Rattle.orders.specs.Ordered.{IsOrdered, place};

    /// The claims of a game, each cut to its estate.
    pub(crate) fn new(alloc: Global, game: &BankruptcyGame) -> Result<CutClaims, AllocError>
        ensures cuts { IfOk result (λ c. c.numbers ≡ cut_claims game.now.estate game.now.claims) }
        ensures ordered { IfOk result IsOrdered }
        ensures laws { IsBankruptcy game.now }
    {
        let claims = Ordered::new(alloc, cuts(alloc, game)?)?;
        Ok(CutClaims { claims })
    }

    /// The number of claims, and so of places.
    pub(crate) fn len(&self) -> u32
        ensures count { result ≡ length self.now.numbers }
        ensures laws { IsOrdered self.now }
    {
        self.claims.len()
    }

    /// The cut claim of player `i`.
    pub(crate) fn cut(&self, i: u32) -> u64
        requires { i < length self.now.numbers }
        ensures value { result ≡ slice_index self.now.numbers i }
        ensures small { result < 2 ^ 40 }
    {
        self.claims.number(i)
    }

    /// The player at place `k` from the least cut claim; of equal ones the lesser player stands first.
    pub(crate) fn place(&self, k: u32) -> u32
        requires { k < length self.now.numbers }
        ensures value { result ≡ place self.now k }
        ensures player { result < length self.now.numbers }
    {
        self.claims.place(k)
    }

    /// The sum of the cut claims.
    pub(crate) fn total(&self) -> u64
        ensures value { pos result ≡ sum_below (length self.now.numbers) (λ i. pos (slice_index self.now.numbers i)) }
        ensures small { result < 2 ^ 46 }
    {
        let mut total: u64 = 0;
        for i in 0..self.len() {
            total += self.cut(i);
        }
        total
    }
}

/// The claims, each cut to the estate.
fn cuts(alloc: Global, game: &BankruptcyGame) -> Result<Vec<u64>, AllocError>
    ensures cuts { IfOk result (λ v. v.items ≡ cut_claims game.now.estate game.now.claims) }
    ensures laws { IsBankruptcy game.now }
{
    let estate = game.estate() as u64;
    let mut cuts = Vec::new(alloc);
    for i in 0..game.players() {
        let claim = game.claim(i) as u64;
        cuts.push(claim.min(estate))?;
    }
    Ok(cuts)
}
