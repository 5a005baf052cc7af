//! The core of any game of at most 16 players: a point of it, or the evidence that it is empty (Bondareva 1963,
//! Shapley 1967).
//!
//! The balanced program asks for the greatest worth that coalitions have by weights that hold each player once. Its
//! optimal multipliers are shares that no coalition blocks. If they add to the worth of all, they are a point of the
//! core. If they add to more, the optimal weights are a balanced collection of excess worth, which shows that the core
//! is empty.
#![tactic(auto)]

mod collection;
mod optimum;

ghost use Rattle.std.specs.Prelude.{◌↔◌, ◌<◌, ◌≤◌, IfOk, IsErrOf, MatchResult};
ghost use Rattle.balanced.specs.Answer.{IsFound, IsFault};

use crate::collection::collection_of;
use crate::optimum::best_of;
pub use balanced_collections::Collection;
use fractions::OutOfMemory;
use separation::{Lazy, shares_of};
use std::alloc::Global;
use worth_core::{Shares, Worth, is_efficient};

/// What is said of the core of a game.
#[derive(Debug, Drop)]
pub enum CoreAnswer {
    /// A point of the core, as worth.
    Point(Shares),
    /// The core is empty, since this balanced collection is worth more than all players times its `k`.
    Empty(Collection),
}

/// Why nothing is said.
#[derive(Clone, Copy, Debug, PartialEq, Eq)]
pub enum CoreFault {
    /// There are more than 16 players.
    TooMany,
    /// There isn't enough memory.
    Memory,
}

/// Returns a point of the core of a game of at most 16 players, or a balanced collection that shows that the core is
/// empty: `Empty` exactly if it is.
///
/// The collection has no more coalitions than there are players. Its weights and its `k` are positive, below 2^62, and
/// have no common divisor but 1. Fails with `TooMany` exactly if there are more than 16 players, and with `Memory` if
/// memory runs out.
pub fn core_of<W: Worth>(alloc: Global, game: &W) -> Result<CoreAnswer, CoreFault>
    ensures answer { MatchResult result (IsFound (W.game game.now)) (IsFault (W.game game.now)) }
    ensures few { IfOk result (λ _. (W.game game.now).players ≤ 16) }
    ensures too_many { IsErrOf result CoreFault.TooMany ↔ (16 < (W.game game.now).players) }
{
    if game.players() > 16 {
        return Err(CoreFault::TooMany);
    }
    match core_of_few(alloc, game) {
        Ok(answer) => Ok(answer),
        Err(_) => Err(CoreFault::Memory),
    }
}

// For the crates above.

/// Returns what `core_of` returns, for a game of at most 16 players, as the caller has tested. Fails only if memory
/// runs out.
pub fn core_of_few<W: Worth>(alloc: Global, game: &W) -> Result<CoreAnswer, OutOfMemory>
    requires { (W.game game.now).players ≤ 16 }
    ensures { IfOk result (IsFound (W.game game.now)) }
{
    let mut program = Lazy::balanced(alloc, game)?;
    let best = best_of(alloc, game, &mut program)?;
    let shares = shares_of(alloc, &best.multipliers, game.players())?;
    if is_efficient(game, &shares) {
        Ok(CoreAnswer::Point(shares))
    } else {
        Ok(CoreAnswer::Empty(collection_of(alloc, &best)?))
    }
}
