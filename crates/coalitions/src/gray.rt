//! The coalitions of some players in Gray order (Gray 1953): from each to the next, one player comes or goes.
ghost use Rattle.std.specs.Prelude.{◌≡◌, ◌≤◌, ◌<◌, ◌^◌};
ghost use Rattle.std.specs.Iterator.{YieldsFirst, item_count};
ghost use Rattle.coalitions.specs.GrayOrder.{gray_step, gray_steps};

use crate::Coalition;
use std::marker::Model;

/// A coalition in Gray order, and the one player in which it differs from the coalition before; none at the first.
#[derive(Clone, Copy, Debug, PartialEq, Eq, Drop)]
pub struct GrayStep {
    pub mask: Coalition,
    pub flipped: Option<u32>,
}

/// The player in which the coalition of step `k` differs from the one before: the place of the lowest bit of `k`.
fn flipped(k: u64) -> Option<u32>
    ensures { result ≡ (gray_step k).flipped }
{
    if k == 0 {
        None
    } else {
        Some(k.trailing_zeros())
    }
}

impl GrayStep {
    /// Step `k`.
    fn at(k: u64) -> GrayStep
        ensures { result ≡ gray_step k }
    {
        GrayStep {
            mask: Coalition(k ^ k / 2),
            flipped: flipped(k),
        }
    }
}

/// An iterator over coalitions in Gray order, seen as the list of the steps that are left.
#[derive(Debug, Drop)]
pub struct Gray {
    upcoming: u64,
    players: u32,
}

impl Model for Gray {
    ghost use Rattle.std.specs.Prelude.{ℕ, ◌^◌, ◌<◌, ◌≤◌, List};
    ghost use Rattle.coalitions.specs.GrayOrder.{steps_from};
    ghost use Rattle.coalitions.specs.declared.gray.GrayStep.{GrayStep};

    ghost Value = { List GrayStep };

    ghost view = { λ g. steps_from g.players g.upcoming };

    ghost invariant = { λ g. (g.players ≤ 16) × (g.upcoming ≤ 2 ^ g.players) };
}

impl Gray {
    /// All steps of `n` players.
    pub(crate) fn from_empty(n: u32) -> Gray
        requires { n ≤ 16 }
        ensures { result ≡ gray_steps n }
    {
        Gray {
            upcoming: 0,
            players: n,
        }
    }
}

impl Iterator for Gray {
    type Item = GrayStep;

    ghost next_gives = { YieldsFirst (λ rest. rest) };

    ghost remaining = { item_count (λ rest. rest) };

    fn next(&mut self) -> Option<GrayStep> {
        if self.upcoming == 1 << self.players {
            return None;
        }
        let step = GrayStep::at(self.upcoming);
        self.upcoming += 1;
        Some(step)
    }
}
