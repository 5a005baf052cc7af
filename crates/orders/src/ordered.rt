//! The numbers of a game's players, and the players in the order of these.
ghost use Rattle.std.specs.Prelude.{◌≡◌, ◌^◌, ◌<◌, ◌≤◌, length, slice_index, All, IfOk};

use crate::sort::sorted_players;
use std::alloc::{AllocError, Global};
use std::marker::Model;

/// The numbers of 1 to 64 players, each below 2^40, and the players from the least number, of equal numbers the lesser
/// player first.
#[derive(Debug, Drop)]
pub struct Ordered {
    numbers: Vec<u64>,
    order: Vec<u32>,
}

impl Model for Ordered {
    ghost use Rattle.orders.specs.Ordered.{OrderedNumbers, IsOrdered, ordered_numbers};

    ghost Value = { OrderedNumbers };

    ghost view = { λ o. ordered_numbers o.numbers.items o.order.items };

    ghost invariant = { λ o. IsOrdered (ordered_numbers o.numbers.items o.order.items) };
}

impl Ordered {
    ghost use Rattle.orders.specs.Ordered.{IsOrdered, place};

    /// Sorts the players by their numbers.
    ///
    /// Fails only if memory runs out.
    pub fn new(alloc: Global, numbers: Vec<u64>) -> Result<Ordered, AllocError>
        requires some { 1 ≤ length numbers.items }
        requires few { length numbers.items ≤ 64 }
        requires small { All (λ c. c < 2 ^ 40) numbers.items }
        ensures numbers { IfOk result (λ o. o.numbers ≡ numbers.items) }
        ensures laws { IfOk result IsOrdered }
    {
        let order = sorted_players(alloc, &numbers)?;
        Ok(Ordered { numbers, order })
    }

    /// Returns the number of players, and so of places.
    pub fn len(&self) -> u32
        ensures count { result ≡ length self.now.numbers }
        ensures laws { IsOrdered self.now }
    {
        self.numbers.len() as u32
    }

    /// Returns the number of player `i`.
    pub fn number(&self, i: u32) -> u64
        requires { i < length self.now.numbers }
        ensures value { result ≡ slice_index self.now.numbers i }
        ensures small { result < 2 ^ 40 }
    {
        self.numbers[i as usize]
    }

    /// Returns the player at place `k` from the least number. Of equal numbers, that of the lesser player comes first.
    pub fn place(&self, k: u32) -> u32
        requires { k < length self.now.numbers }
        ensures value { result ≡ place self.now k }
        ensures player { result < length self.now.numbers }
    {
        self.order[k as usize]
    }
}
