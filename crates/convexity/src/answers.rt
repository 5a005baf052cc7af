//! What is said of a game: that it is convex, with two points of its core, or where it isn't.
ghost use Rattle.std.specs.Prelude.{◌≡◌, ◌≤◌, IfOk};
ghost use Rattle.std.specs.List.{range_with_len};
ghost use Rattle.convexity.specs.Shares.{AreShares};
ghost use Rattle.convexity.specs.Answers.{IsAnswer};

use crate::failures::{Convexity, test};
use crate::marginals::marginal;
use coalitions::Coalition;
use fractions::OutOfMemory;
use shapley::shapley;
use std::alloc::{AllocError, Global};
use worth_core::{Shares, Worth};

/// A convex game's shares, or where the game isn't convex.
#[derive(Debug, Drop)]
pub enum ConvexAnswer {
    /// The game is convex: its Shapley shares, and the marginal shares of the order of its players. Both lie in its
    /// core.
    Convex {
        shapley: Shares,
        marginal: Shares,
    },
    /// It isn't, as in `Convexity::Not`.
    Not {
        s: Coalition,
        i: u32,
        j: u32,
        deficit: i64,
    },
}

/// The players in ascending order.
fn players_in_order(alloc: Global, n: u32) -> Result<Vec<u32>, AllocError>
    ensures { IfOk result (λ order. order.items ≡ range_with_len 0 n) }
{
    let mut order = Vec::new(alloc);
    for i in 0..n {
        order.push(i)?;
    }
    Ok(order)
}

/// The shares of a convex game of at most 16 players.
fn shares_of<W: Worth>(alloc: Global, game: &W) -> Result<(Shares, Shares), OutOfMemory>
    requires { (W.game game.now).players ≤ 16 }
    ensures { IfOk result (λ shares. AreShares (W.game game.now) shares.0 shares.1) }
{
    let order = players_in_order(alloc, game.players())?;
    let marginal = marginal(alloc, game, &order)?;
    match shapley(alloc, game) {
        Ok(shapley) => Ok((shapley, marginal)),
        Err(_) => Err(OutOfMemory),
    }
}

/// Returns `Convex` exactly if a game of at most 16 players is convex, with its Shapley shares and the marginal shares
/// of the players in ascending order; both lie in its core (Shapley 1971). Otherwise returns the first coalition and
/// players at which it isn't convex.
///
/// Fails only if memory runs out.
pub fn answer<W: Worth>(alloc: Global, game: &W) -> Result<ConvexAnswer, OutOfMemory>
    requires { (W.game game.now).players ≤ 16 }
    ensures { IfOk result (IsAnswer (W.game game.now)) }
{
    match test(game) {
        Convexity::Convex => {
            let (shapley, marginal) = shares_of(alloc, game)?;
            Ok(ConvexAnswer::Convex { shapley, marginal })
        }
        Convexity::Not { s, i, j, deficit } => Ok(ConvexAnswer::Not { s, i, j, deficit }),
    }
}
