//! Balanced collections: the evidence that a core is empty (Bondareva 1963, Shapley 1967), and the two numbers that it
//! sets against each other.
//!
//! They are below the program that finds them: so lines, which print them, don't wait for the simplex to be proved.
#![tactic(auto)]

ghost use Rattle.std.specs.Prelude.{◌≡◌, ◌≤◌, ◌<◌, ◌^◌, ◌≤ℤ◌, ◌*ℤ◌, pos, length, unsigned_abs};
ghost use Rattle.std.specs.List.{AllByRecursion};
ghost use Rattle.definitions.specs.Sums.{weighted_sum};
ghost use Rattle.definitions.specs.Coalitions.{grand_coalition};
ghost use Rattle.balanced_collections.specs.Collections.{CollectionData, ShowsEmpty};

use coalitions::Coalition;
use std::marker::Model;
use worth_core::{Worth, scaled};

/// Coalitions with weights that add to `k` at each player.
#[derive(Debug, Drop)]
pub struct Collection {
    /// The coalitions and their weights, in ascending order of the masks.
    pub weights: Vec<(Coalition, i128)>,
    /// What the weights of the coalitions that hold a player add to.
    pub k: i128,
}

impl Model for Collection {
    ghost use Rattle.balanced_collections.specs.Collections.{CollectionData};

    ghost Value = { CollectionData };

    ghost view = { λ c. record { weights = c.weights.items; k = c.k } };
}

impl Collection {
    /// Returns what its coalitions are worth together, by their weights.
    pub fn value<W: Worth>(&self, game: &W) -> i128
        requires { ShowsEmpty (W.game game.now) self.now }
        ensures value { result ≡ weighted_sum (W.game game.now).worth self.now.weights }
        ensures small { unsigned_abs result < 2 ^ 117 }
    {
        game.players();
        weighted_worth(game, &self.weights)
    }

    /// Returns `k` times the worth of all players together.
    pub fn against<W: Worth>(&self, game: &W) -> i128
        requires { ShowsEmpty (W.game game.now) self.now }
        ensures value { let g = W.game game.now in result ≡ self.now.k *ℤ g.worth (grand_coalition g.players) }
        ensures small { unsigned_abs result < 2 ^ 117 }
    {
        scaled(self.k, game.worth(Coalition::all(game.players())))
    }
}

/// The worths of coalitions by their weights, added.
fn weighted_worth<W: Worth>(game: &W, weights: &[(Coalition, i128)]) -> i128
    requires few { length weights.now ≤ 64 }
    requires within { AllByRecursion (λ p. p.0 < 2 ^ (W.game game.now).players) weights.now }
    requires positive { AllByRecursion (λ p. pos 1 ≤ℤ p.1) weights.now }
    requires small { AllByRecursion (λ p. unsigned_abs p.1 < 2 ^ 62) weights.now }
    ensures value { result ≡ weighted_sum (W.game game.now).worth weights.now }
    ensures small { unsigned_abs result < 2 ^ 117 }
{
    game.players();
    let mut sum = 0;
    for (coalition, weight) in weights {
        sum += scaled(*weight, game.worth(*coalition));
    }
    sum
}
