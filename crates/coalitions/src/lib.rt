//! Coalitions, the sets of players of a cooperative game, as masks of 64 bits.
#![tactic(auto)]

mod gray;
mod subsets;

ghost use Rattle.std.specs.Prelude.{◌≡◌, MatchOption, not, ◌||◌, ◌&&◌, length};
ghost use Rattle.std.specs.Prelude.{ℕ, ◌+◌, ◌-◌, ◌^◌, ◌<◌, ◌≤◌, nat_eq};
ghost use Rattle.std.specs.Iterator.{YieldsFirst};
ghost use Rattle.std.specs.Iterator.Runs.{YieldsInOrder};
ghost use Rattle.definitions.specs.Coalitions.{has_player, singleton, grand_coalition, members};
ghost use Rattle.coalitions.specs.Masks.{all_masks};
ghost use Rattle.coalitions.specs.GrayOrder.{gray_mask, gray_steps, IsFlip, IsOnce};

use arrayvec::ArrayVec;
pub use gray::{Gray, GrayStep};
use std::marker::Model;
pub use subsets::Subsets;

/// A set of players: player i, from 0, is a member if the bit of value 2^i is set.
#[derive(Clone, Copy, Debug, PartialEq, Eq, PartialOrd, Ord)]
pub struct Coalition(pub u64);

impl Model for Coalition {
    ghost use Rattle.std.specs.Prelude.{ℕ, ◌<◌, ◌^◌};

    ghost Value = { ℕ };

    ghost view = { λ c. c.0 };

    ghost invariant = { λ c. c.0 < 2 ^ 64 };

    ghost inverse = { λ n. record { 0 = n } };
}

impl Coalition {
    /// Returns the coalition without members.
    pub fn empty() -> Coalition
        ensures { result ≡ 0 }
    {
        Coalition(0)
    }

    /// Returns the coalition of player `i` alone.
    pub fn single(i: u32) -> Coalition
        requires { i < 64 }
        ensures { result ≡ singleton i }
    {
        Coalition(1 << i)
    }

    /// Returns the coalition of all of `n` players.
    pub fn all(n: u32) -> Coalition
        requires { n ≤ 64 }
        ensures { result ≡ grand_coalition n }
    {
        if n == 64 {
            Coalition(u64::MAX)
        } else {
            Coalition((1 << n) - 1)
        }
    }

    /// Returns the coalition of its members and player `i`.
    #[tactic(auto, using(crate::proofs::Bits::has_player_with, crate::proofs::Bits::with_fits))]
    pub fn with(self, i: u32) -> Coalition
        requires { i < 64 }
        ensures { (j : ℕ) → has_player result j ≡ (nat_eq j i || has_player self j) }
    {
        Coalition(self.0 | 1 << i)
    }

    /// Returns the coalition of its members except player `i`.
    #[tactic(auto, using(crate::proofs::Bits::has_player_without))]
    pub fn without(self, i: u32) -> Coalition
        requires { i < 64 }
        ensures { (j : ℕ) → has_player result j ≡ (not (nat_eq j i) && has_player self j) }
    {
        Coalition(self.0 & !(1 << i))
    }

    /// Returns whether player `i` is a member.
    pub fn contains(self, i: u32) -> bool
        requires { i < 64 }
        ensures { result ≡ has_player self i }
    {
        (self.0 >> i) & 1 == 1
    }

    /// Returns the coalition of the players of `n` that are not members.
    pub fn complement(self, n: u32) -> Coalition
        requires players { n ≤ 64 }
        requires within { self < 2 ^ n }
        ensures { result ≡ grand_coalition n - self }
    {
        Coalition(Coalition::all(n).0 - self.0)
    }

    /// Returns the number of members.
    #[tactic(auto, using(crate::proofs::Count::length_members))]
    pub fn len(self) -> u32
        ensures { result ≡ length (members 64 self) }
    {
        self.0.count_ones()
    }

    /// Returns the members, in ascending order.
    pub fn members(self) -> ArrayVec<u32, 64>
        ensures { result.items ≡ members 64 self }
    {
        let mut found = ArrayVec::new();
        for i in 0..64u32 {
            if self.contains(i) {
                found.push(i);
            }
        }
        found
    }

    /// Returns the coalition of `n` players with the next greater mask; none after that of all.
    pub fn next_mask(self, n: u32) -> Option<Coalition>
        requires players { n ≤ 64 }
        requires within { self < 2 ^ n }
        ensures { MatchOption result (self ≡ grand_coalition n) (λ s. (s ≡ self + 1) × (s < 2 ^ n)) }
    {
        if self == Coalition::all(n) {
            None
        } else {
            Some(Coalition(self.0 + 1))
        }
    }

    /// Returns every coalition of `n` players, in ascending order of the masks, from 0 to 2^n - 1.
    pub fn subsets(n: u32) -> Subsets
        requires { n ≤ 64 }
        ensures masks { result ≡ all_masks n }
        ensures count { length result ≡ 2 ^ n }
        ensures runs { YieldsInOrder (YieldsFirst {A = ℕ} (λ rest. rest)) (λ rest. rest) }
    {
        Subsets::from_empty(n)
    }

    /// Returns every coalition of `n` players once, in Gray order (Gray 1953), each with the player in which it differs
    /// from the one before.
    pub fn gray(n: u32) -> Gray
        requires { n ≤ 16 }
        ensures steps { result ≡ gray_steps n }
        ensures count { length result ≡ 2 ^ n }
        ensures within { (k : ℕ) → k < 2 ^ n → gray_mask k < 2 ^ n }
        ensures flips { (k : ℕ) → k < 2 ^ n → IsFlip n k }
        ensures once { (s : ℕ) → s < 2 ^ n → IsOnce n s }
        ensures runs { YieldsInOrder (YieldsFirst {A = GrayStep} (λ rest. rest)) (λ rest. rest) }
    {
        Gray::from_empty(n)
    }
}
