//! The Shapley value of a voting game (Shapley and Shubik 1954).
ghost use Rattle.std.specs.Prelude.{◌≡◌, pos, IfOk};
ghost use Rattle.definitions.specs.Shapley.{IsShapley};
ghost use Rattle.shapley.specs.Layers.{common};
ghost use Rattle.voting.specs.Voting.{voting_game};

use crate::VotingGame;
use fractions::OutOfMemory;
use shapley::COMMON;
use std::alloc::Global;
use worth_core::Shares;

/// Returns the Shapley value of a voting game, over the least common multiple of 1 to 32. It goes over sizes and sums
/// of weights, not over orders. Fails only if memory runs out.
#[inline(never)]
pub fn voting_shapley(alloc: Global, game: &VotingGame) -> Result<Shares, OutOfMemory>
    ensures value { IfOk result (IsShapley (voting_game game.now)) }
    ensures den { IfOk result (λ x. x.den ≡ pos common) }
{
    let mut num = Vec::new(alloc);
    for i in 0..game.len() {
        num.push(game.numerator(alloc, i)?)?;
    }
    Ok(Shares::new(num, COMMON as i128).unwrap())
}
