//! What a class of games offers.
ghost use Rattle.std.specs.Prelude.{◌≡◌, ◌↔◌, ℕ, ◌^◌, ◌<◌, length, IsTrue, MatchOption};
ghost use Rattle.definitions.specs.Games.{Game, IsGame, Blocks, IsChosenBlocker, IsSplitMaximum, HasTwo, excess};
ghost use Rattle.definitions.specs.Games.{IsEfficient};

use crate::best::Best;
use crate::splitting::{raised, splits};
use crate::{Shares, scaled};
use coalitions::Coalition;

/// A game with transferable worth.
///
/// A class may have a faster body of its own for `blocker` and `split_bound`. It takes the clauses as they are, and
/// they leave one answer: so no test compares it with the default body, but tries it at shares worked by hand and at
/// its greatest size.
pub trait Worth {
    /// The game that is meant.
    ghost game: { Self → Game };

    /// Returns the number of players, 1 to 64.
    fn players(&self) -> u32
        ensures count { result ≡ (game self.now).players }
        ensures laws { IsGame (game self.now) };

    /// Returns the worth of a coalition: 0 for the empty one, and below 2^46 in size.
    fn worth(&self, s: Coalition) -> i64
        requires { s < 2 ^ (game self.now).players }
        ensures { result ≡ (game self.now).worth s };

    /// Returns the coalition that blocks the shares most: it is worth more than its members get, no coalition has a
    /// greater excess, and no lesser mask has as great a one. Returns none exactly if no coalition blocks, as at a
    /// point of the core (Gillies 1959).
    fn blocker(&self, x: &Shares) -> Option<Coalition>
        requires { length x.now.shares ≡ (game self.now).players }
        ensures { MatchOption result
            ((s : ℕ) → s < 2 ^ (game self.now).players → ¬ Blocks (game self.now) x.now s)
            (IsChosenBlocker (game self.now) x.now) }
    {
        let mut best = Best::none();
        let mut paid = 0;
        for s in Coalition::subsets(self.players()) {
            paid = x.sum_after(paid, s);
            best = best.or(s, x.excess_from(self.worth(s), paid));
        }
        best.coalition
    }

    /// Returns the greatest excess over the coalitions that hold some but not all of the players of `free`, over the
    /// denominator of the shares.
    fn split_bound(&self, x: &Shares, free: Coalition) -> i128
        requires shares { length x.now.shares ≡ (game self.now).players }
        requires within { free < 2 ^ (game self.now).players }
        requires two { HasTwo (game self.now).players free }
        ensures { IsSplitMaximum (game self.now) x.now free result }
    {
        let players = self.players();
        let mut most = None;
        let mut paid = 0;
        for s in Coalition::subsets(players) {
            paid = x.sum_after(paid, s);
            if splits(s, free, players) {
                most = raised(most, x.excess_from(self.worth(s), paid));
            }
        }
        most.unwrap()
    }
}

/// Returns what a coalition could do better by itself, over the denominator of the shares.
pub fn scaled_excess<W: Worth>(game: &W, x: &Shares, s: Coalition) -> i128
    requires shares { length x.now.shares ≡ (W.game game.now).players }
    requires within { s < 2 ^ (W.game game.now).players }
    ensures { result ≡ excess (W.game game.now) x.now s }
{
    game.players(); // Brings the laws of the game.
    x.excess_over(game.worth(s), s)
}

/// Returns whether shares are efficient: they add to the worth of all.
pub fn is_efficient<W: Worth>(game: &W, x: &Shares) -> bool
    ensures { IsTrue result ↔ IsEfficient (W.game game.now) x.now }
{
    let everyone = Coalition::all(game.players());
    x.sum_of(everyone) == scaled(x.den(), game.worth(everyone))
}
