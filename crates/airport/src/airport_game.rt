//! The game of the players' costs.
ghost use Rattle.std.specs.Prelude.{◌≡◌, ◌^◌, ◌<◌, length, map, pos, slice_index, ◌<ℤ◌, ◌≤ℤ◌, MatchResult};

use crate::costs::greatest;
use coalitions::Coalition;
use orders::{Ordered, are_numbers, naturals};
use std::alloc::Global;
use std::marker::Model;
use worth_core::{Best, Shares, SplitSums, Worth, raised, scaled};

/// Why costs make no game. If several causes apply, the first of them is returned.
#[derive(Clone, Copy, Debug, PartialEq, Eq)]
pub enum AirportFault {
    /// There aren't 1 to 64 costs.
    Players,
    /// A cost is negative, or 2^40 or more.
    Number,
    /// There was no memory for the game of these costs.
    Memory,
}

/// The cost of each player, and the players sorted by cost and then by number.
#[derive(Debug, Drop)]
pub struct AirportGame {
    costs: Ordered,
}

impl Model for AirportGame {
    ghost use Rattle.airport.specs.Airport.{Airport, IsAirport, airport};

    ghost Value = { Airport };

    ghost view = { λ a. airport a.costs.numbers a.costs.order };

    ghost invariant = { λ a. IsAirport (airport a.costs.numbers a.costs.order) };
}

impl AirportGame {
    ghost use Rattle.airport.specs.Airport.{IsAirport, IsRefused, place};

    /// Makes the game of 1 to 64 costs, each from 0 to below 2^40. Otherwise returns the first cause in the order of
    /// `AirportFault`.
    pub fn new(alloc: Global, costs: Vec<i64>) -> Result<AirportGame, AirportFault>
        ensures { MatchResult result (λ game. map pos game.costs ≡ costs.items) (IsRefused costs.items) }
    {
        if costs.is_empty() || costs.len() > 64 {
            return Err(AirportFault::Players);
        }
        if !are_numbers(&costs) {
            return Err(AirportFault::Number);
        }
        let Ok(costs) = naturals(alloc, &costs) else {
            return Err(AirportFault::Memory);
        };
        let Ok(costs) = Ordered::new(alloc, costs) else {
            return Err(AirportFault::Memory);
        };
        Ok(AirportGame { costs })
    }

    /// Returns the number of players, and so of places.
    pub fn len(&self) -> u32
        ensures count { result ≡ length self.now.costs }
        ensures laws { IsAirport self.now }
    {
        self.costs.len()
    }

    /// Returns the cost of player `i`.
    pub fn cost(&self, i: u32) -> i64
        requires { i < length self.now.costs }
        ensures value { result ≡ pos (slice_index self.now.costs i) }
        ensures positive { pos 0 ≤ℤ result }
        ensures small { result <ℤ pos (2 ^ 40) }
    {
        self.costs.number(i) as i64
    }

    /// Returns the player at place `k` from the least cost. Of equal costs, that of the lesser player comes first.
    pub fn place(&self, k: u32) -> u32
        requires { k < length self.now.costs }
        ensures value { result ≡ place self.now k }
        ensures player { result < length self.now.costs }
    {
        self.costs.place(k)
    }
}

impl Worth for AirportGame {
    ghost use Rattle.airport.specs.Airport.{airport_game};

    ghost game = { airport_game };

    #[tactic(auto, using(crate::proofs::GreatestCosts::game_laws))]
    fn players(&self) -> u32 {
        self.costs.len()
    }

    fn worth(&self, s: Coalition) -> i64 {
        -(greatest(&self.costs, s) as i64)
    }

    /// Found in one pass over the places: only the players who pay, up to some place, can be the one.
    fn blocker(&self, x: &Shares) -> Option<Coalition> {
        let den = x.den();
        let mut payers = Coalition::empty();
        let mut payment: i128 = 0;
        let mut best = Best::none();
        for k in 0..self.len() {
            let player = self.place(k);
            let share = x.num(player);
            if share < 0 {
                payers = payers.with(player);
                payment -= share;
                best = best.or(payers, payment - scaled(den, self.cost(player)));
            }
        }
        best.coalition
    }

    /// Found in one pass over the places: a coalition whose last player stands at some place pays that player's cost,
    /// and the others up to there are chosen by what they pay.
    fn split_bound(&self, x: &Shares, free: Coalition) -> i128 {
        let den = x.den();
        let mut sums = SplitSums::new();
        let mut unseen = free;
        let mut most = None;
        for k in 0..self.len() {
            let player = self.place(k);
            sums.add(free.contains(player), -x.num(player));
            unseen = unseen.without(player);
            if let Some(payment) = sums.best(unseen != Coalition::empty()) {
                most = raised(most, payment - scaled(den, self.cost(player)));
            }
        }
        most.unwrap()
    }
}
