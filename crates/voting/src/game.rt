//! The game of a quota and weights.
ghost use Rattle.std.specs.Prelude.{◌≡◌, ◌↔◌, IsTrue, MatchResult};
ghost use Rattle.std.specs.Prelude.{◌^◌, ◌<◌, pos, neg_ℤ, ◌<ℤ◌, unsigned_abs};
ghost use Rattle.std.specs.Prelude.{length, map, slice_index};
ghost use Rattle.definitions.specs.Games.{share};
ghost use Rattle.voting.specs.Voting.{AreNumbers};

use crate::candidate::{chosen, sum_of};
use crate::counts::Table;
use crate::layer::{HEAVIEST, Layer};
use crate::split_layers::SplitLayers;
use crate::units::{product, share_unit};
use coalitions::Coalition;
use fractions::OutOfMemory;
use std::alloc::Global;
use std::marker::Model;
use worth_core::{Shares, Worth};

/// Why a quota and weights make no game. If several causes apply, the first of them is returned.
#[derive(Clone, Copy, Debug, PartialEq, Eq)]
pub enum VotingFault {
    /// There aren't 1 to 32 weights.
    Players,
    /// The quota or a weight is negative, or 2^40 or more.
    Number,
    /// The quota is 0 or above the sum of the weights, or that sum is above 1,000.
    Quota,
    /// There was no memory.
    Memory,
}

/// A quota, and the weight of each player. A coalition is worth 1 if its weights sum to at least the quota, and 0
/// otherwise.
#[derive(Debug, Drop)]
pub struct VotingGame {
    quota: u64,
    weights: Vec<u64>,
}

impl Model for VotingGame {
    ghost use Rattle.voting.specs.Voting.{Voting, IsVoting, voting};

    ghost Value = { Voting };

    ghost view = { λ g. voting g.quota g.weights.items };

    ghost invariant = { λ g. IsVoting (voting g.quota g.weights.items) };
}

impl VotingGame {
    ghost use Rattle.voting.specs.Voting.{IsVoting, IsRefused};

    /// Makes the game of a quota and 1 to 32 weights. The weights are from 0 and add to at most 1,000, and the quota is
    /// from 1 to their sum. Otherwise returns the first cause in the order of `VotingFault`.
    pub fn new(alloc: Global, quota: i64, weights: Vec<i64>) -> Result<VotingGame, VotingFault>
        ensures { MatchResult result (λ g. (pos g.quota ≡ quota) × (map pos g.weights ≡ weights.items))
            (IsRefused quota weights.items) }
    {
        if weights.is_empty() || weights.len() > 32 {
            return Err(VotingFault::Players);
        }
        if !are_numbers(quota, &weights) {
            return Err(VotingFault::Number);
        }
        let total = orders::total(&weights);
        if total > HEAVIEST as u64 || quota < 1 || total < quota as u64 {
            return Err(VotingFault::Quota);
        }
        let Ok(weights) = orders::naturals(alloc, &weights) else {
            return Err(VotingFault::Memory);
        };
        Ok(VotingGame {
            quota: quota as u64,
            weights,
        })
    }

    /// Returns the number of players, 1 to 32.
    pub fn len(&self) -> u32
        ensures value { result ≡ length self.now.weights }
        ensures laws { IsVoting self.now }
    {
        self.weights.len() as u32
    }

    /// Returns the sum of weights that a coalition needs to be worth 1.
    pub fn quota(&self) -> i64
        ensures value { result ≡ pos self.now.quota }
        ensures laws { IsVoting self.now }
    {
        self.quota as i64
    }

    /// Returns the weight of player `i`.
    pub fn weight(&self, i: u32) -> i64
        requires { i < length self.now.weights }
        ensures value { result ≡ pos (slice_index self.now.weights i) }
        ensures small { result <ℤ pos (2 ^ 40) }
    {
        self.weights[i as usize] as i64
    }
}

impl VotingGame {
    ghost use Rattle.std.specs.Prelude.{◌-◌, ◌≤◌, IfOk};
    ghost use Rattle.voting.specs.Counts.{IsTable, HasRows, numerator};

    /// How many coalitions without player `i` there are of each size and weight.
    fn counts_without(&self, alloc: Global, i: u32) -> Result<Table, OutOfMemory>
        requires { i < length self.now.weights }
        ensures { IfOk result (λ t. HasRows t × IsTable (slice_index self.now.weights) i (length self.now.weights) t) }
    {
        let mut table = Table::of_nobody(alloc)?;
        for j in 0..self.players() {
            if j != i {
                table.add_player(self.weights[j as usize] as usize);
            }
        }
        Ok(table)
    }

    /// The Shapley share of player `i` over the least common multiple of 1 to 32: each coalition that the player makes
    /// winning gives what its size is worth.
    pub(crate) fn numerator(&self, alloc: Global, i: u32) -> Result<i128, OutOfMemory>
        requires { i < length self.now.weights }
        ensures value { IfOk result (λ n. n ≡ numerator (slice_index self.now.weights) i (length self.now.weights)
            (self.now.quota - slice_index self.now.weights i) self.now.quota) }
        ensures small { IfOk result (λ n. unsigned_abs n < 2 ^ 110) }
    {
        let table = self.counts_without(alloc, i)?;
        let players = self.players();
        let low = self.quota.saturating_sub(self.weights[i as usize]) as usize;
        let mut total: u128 = 0;
        for k in 0..players {
            total += product(
                share_unit(players, k),
                table.row(k as usize).total(low, self.quota as usize),
            );
        }
        Ok(total as i128)
    }
}

/// Whether the quota and each weight are from 0 to below 2^40.
fn are_numbers(quota: i64, weights: &[i64]) -> bool
    ensures { IsTrue result ↔ AreNumbers quota weights.now }
{
    orders::is_number(quota) && orders::are_numbers(weights)
}

impl Worth for VotingGame {
    ghost use Rattle.voting.specs.Voting.{voting_game};

    ghost game = { voting_game };

    #[tactic(auto, using(crate::proofs::Laws::game_laws))]
    fn players(&self) -> u32 {
        self.weights.len() as u32
    }

    fn worth(&self, s: Coalition) -> i64 {
        if orders::sum_of(&self.weights, s) >= self.quota {
            1
        } else {
            0
        }
    }

    #[inline(never)]
    fn blocker(&self, x: &Shares) -> Option<Coalition> {
        let mut layer = Layer::of_nobody();
        for i in 0..self.players() {
            layer.add_player(i, self.weights[i as usize] as usize, owed(x, i));
        }
        chosen(layer.best(self.quota as usize, x.den()))
    }

    #[inline(never)]
    fn split_bound(&self, x: &Shares, free: Coalition) -> i128 {
        let mut layers = SplitLayers::of_nobody();
        for i in 0..self.players() {
            layers.add_player(
                free.contains(i),
                i,
                self.weights[i as usize] as usize,
                owed(x, i),
            );
        }
        sum_of(layers.both.best(self.quota as usize, x.den()))
    }
}

/// Minus the share of player `i`, over the denominator.
fn owed(x: &Shares, i: u32) -> i128
    requires { i < length x.now.shares }
    ensures value { result ≡ neg_ℤ (share x.now i) }
    ensures small { unsigned_abs result < 2 ^ 110 }
{
    -x.num(i)
}
