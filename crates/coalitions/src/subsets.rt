//! The coalitions of some players, one after the other.
ghost use Rattle.std.specs.Prelude.{◌≡◌, ◌≤◌};
ghost use Rattle.std.specs.Iterator.{YieldsFirst, item_count};
ghost use Rattle.coalitions.specs.Masks.{all_masks};

use crate::Coalition;
use std::marker::Model;

/// An iterator over coalitions in ascending order of the masks, seen as the list of those that are left.
#[derive(Debug, Drop)]
pub struct Subsets {
    upcoming: Option<Coalition>,
    players: u32,
}

impl Model for Subsets {
    ghost use Rattle.std.specs.Prelude.{ℕ, ◌^◌, ◌<◌, ◌≤◌, List, IfSome};
    ghost use Rattle.coalitions.specs.Masks.{masks_from};

    ghost Value = { List ℕ };

    ghost view = { λ s. masks_from s.players s.upcoming };

    ghost invariant = { λ s. (s.players ≤ 64) × IfSome s.upcoming (λ m. m < 2 ^ s.players) };
}

impl Subsets {
    /// All coalitions of `n` players, the empty one first.
    pub(crate) fn from_empty(n: u32) -> Subsets
        requires { n ≤ 64 }
        ensures { result ≡ all_masks n }
    {
        Subsets {
            upcoming: Some(Coalition::empty()),
            players: n,
        }
    }
}

impl Iterator for Subsets {
    type Item = Coalition;

    ghost next_gives = { YieldsFirst (λ rest. rest) };

    ghost remaining = { item_count (λ rest. rest) };

    fn next(&mut self) -> Option<Coalition> {
        let mask = self.upcoming?;
        self.upcoming = mask.next_mask(self.players);
        Some(mask)
    }
}
