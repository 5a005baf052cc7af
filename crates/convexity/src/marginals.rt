//! The marginal shares of an order of the players.
ghost use Rattle.std.specs.Prelude.{◌≡◌, IfOk};
ghost use Rattle.definitions.specs.Games.{InCore};
ghost use Rattle.definitions.specs.Shapley.{IsOrder};
ghost use Rattle.definitions.specs.Convexity.{IsConvex, IsMarginal};

use coalitions::Coalition;
use fractions::OutOfMemory;
use std::alloc::Global;
use worth_core::{Shares, Worth};

/// Returns the marginal shares of an order that holds each player once: each player gets what it adds to the worth of
/// those before it. They lie in the core if the game is convex (Shapley 1971).
///
/// Fails only if memory runs out.
pub fn marginal<W: Worth>(alloc: Global, game: &W, order: &[u32]) -> Result<Shares, OutOfMemory>
    requires { IsOrder (W.game game.now).players order.now }
    ensures marginal { IfOk result (IsMarginal (W.game game.now) order.now) }
    ensures core { IfOk result (λ x. IsConvex (W.game game.now) → InCore (W.game game.now) x) }
{
    let n = game.players();
    let mut num = vec![in alloc; 0i128; n as usize]?;
    let mut front = Coalition::empty();
    let mut before: i64 = 0;
    for k in 0..order.len() {
        front = front.with(order[k]);
        let after = game.worth(front);
        num[order[k] as usize] = i128::from(after - before);
        before = after;
    }
    Ok(Shares::new(num, 1).unwrap())
}
