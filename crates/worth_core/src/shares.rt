//! Shares of a worth over a common denominator.
ghost use Rattle.std.specs.Prelude.{◌≡◌, ◌↔◌, IsTrue, MatchOption, length, All};
ghost use Rattle.std.specs.Prelude.{◌-◌, ◌^◌, ◌<◌, unsigned_abs, pos, ◌-ℤ◌, ◌*ℤ◌, ◌≤ℤ◌};
ghost use Rattle.definitions.specs.Games.{IsShares, share, amount};
ghost use Rattle.worth_core.specs.Allocations.{allocation};

mod fracs;

use crate::limits::{GREATEST_DEN, MOST_PLAYERS, NUMERATOR_LIMIT};
use coalitions::Coalition;
pub use fracs::SharesFault;
use std::marker::Model;

/// The share of each player, as worth: a numerator over the common denominator.
///
/// A game has 1 to 64 players, so as many shares. The denominator is at least 1 and at most 2^63, and no numerator
/// reaches 2^110 in size.
#[derive(Debug, Drop)]
pub struct Shares {
    num: Vec<i128>,
    den: i128,
}

impl Model for Shares {
    ghost use Rattle.definitions.specs.Games.{Allocation, IsShares};
    ghost use Rattle.worth_core.specs.Allocations.{allocation};

    ghost Value = { Allocation };

    ghost view = { λ s. allocation s.num.items s.den };

    ghost invariant = { λ s. IsShares (allocation s.num.items s.den) };
}

impl Shares {
    /// Makes the shares with these numerators over this denominator. Returns none exactly if a number is beyond its
    /// limit.
    pub fn new(num: Vec<i128>, den: i128) -> Option<Shares>
        ensures { let x = allocation num.items den in MatchOption result (¬ IsShares x) (λ y. (y ≡ x) × IsShares x) }
    {
        if num.is_empty() || num.len() > MOST_PLAYERS {
            return None;
        }
        if den < 1 || den > GREATEST_DEN {
            return None;
        }
        if !all_small(&num) {
            return None;
        }
        Some(Shares { num, den })
    }

    /// Returns the number of shares.
    pub fn players(&self) -> u32
        ensures count { result ≡ length self.now.shares }
        ensures shares { IsShares self.now }
    {
        self.num.len() as u32
    }

    /// Returns the numerator of player `i`'s share.
    pub fn num(&self, i: u32) -> i128
        requires { i < length self.now.shares }
        ensures value { result ≡ share self.now i }
        ensures small { unsigned_abs result < 2 ^ 110 }
    {
        self.num[i as usize]
    }

    /// Returns the common denominator.
    pub fn den(&self) -> i128
        ensures value { result ≡ self.now.den }
        ensures positive { pos 1 ≤ℤ result }
        ensures common { result ≤ℤ pos (2 ^ 63) }
    {
        self.den
    }

    /// Returns what the members of a coalition get together, over the denominator.
    pub fn sum_of(&self, s: Coalition) -> i128
        ensures value { result ≡ amount self.now s }
        ensures small { unsigned_abs result < 2 ^ 117 }
    {
        let mut sum: i128 = 0;
        for i in 0..self.players() {
            if s.contains(i) {
                sum += self.num(i);
            }
        }
        sum
    }

    /// Returns what the members of a coalition get together, from what those of the coalition with the mask before get:
    /// its first member comes, and the players before that member go. Nothing changes at the empty coalition.
    ///
    /// Over all masks in ascending order that is two players a coalition at most, on average.
    pub fn sum_after(&self, before: i128, s: Coalition) -> i128
        requires within { s < 2 ^ length self.now.shares }
        requires before { before ≡ amount self.now (s - 1) }
        ensures value { result ≡ amount self.now s }
        ensures small { unsigned_abs result < 2 ^ 117 }
    {
        self.players(); // Brings the laws of shares.
        if s == Coalition::empty() {
            return before;
        }
        let mut sum = before;
        let mut i: u32 = 0;
        'front: while !s.contains(i) {
            sum -= self.num(i);
            i += 1;
        }
        sum + self.num(i)
    }

    /// Returns what a coalition of that worth, whose members get `paid` together over the denominator, could do better
    /// by itself, over the denominator.
    pub fn excess_from(&self, worth: i64, paid: i128) -> i128
        requires worth { unsigned_abs worth < 2 ^ 46 }
        requires paid { unsigned_abs paid < 2 ^ 117 }
        ensures value { result ≡ self.now.den *ℤ worth -ℤ paid }
        ensures small { unsigned_abs result < 2 ^ 118 }
    {
        scaled(self.den(), worth) - paid
    }

    /// Returns what a coalition of that worth could do better by itself, over the denominator.
    pub fn excess_over(&self, worth: i64, s: Coalition) -> i128
        requires { unsigned_abs worth < 2 ^ 46 }
        ensures value { result ≡ self.now.den *ℤ worth -ℤ amount self.now s }
        ensures small { unsigned_abs result < 2 ^ 118 }
    {
        self.excess_from(worth, self.sum_of(s))
    }
}

/// Whether each numerator is below 2^110 in size.
fn all_small(num: &[i128]) -> bool
    ensures { IsTrue result ↔ All (λ z. unsigned_abs z < 2 ^ 110) num.now }
{
    num.iter().all(|z| z.unsigned_abs() < NUMERATOR_LIMIT)
}

/// Returns a worth over a denominator.
pub fn scaled(den: i128, worth: i64) -> i128
    requires positive { pos 1 ≤ℤ den }
    requires common { den ≤ℤ pos (2 ^ 63) }
    requires small { unsigned_abs worth < 2 ^ 46 }
    ensures value { result ≡ den *ℤ worth }
    ensures small { unsigned_abs result < 2 ^ 110 }
{
    den * worth as i128
}
