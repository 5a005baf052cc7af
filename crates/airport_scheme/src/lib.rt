//! Littlechild's scheme for airport games: the nucleolus from the costs alone, with its certificate (Littlechild 1974).
#![tactic(auto)]

mod blocks;
mod payments;
mod rates;

ghost use Rattle.std.specs.Prelude.{IfOk};
ghost use Rattle.definitions.specs.Games.{InCore};
ghost use Rattle.definitions.specs.declared.Family.{Family};
ghost use Rattle.definitions.specs.declared.Measure.TheVariants.{Plain};
ghost use Rattle.definitions.specs.declared.Mode.TheVariants.{Players};
ghost use Rattle.airport.specs.Airport.{airport_game, place};
ghost use Rattle.kohlberg.specs.Solved.{IsSolved};
ghost use Rattle.airport_scheme.specs.Levels.{AreSchemeLevels};

use crate::blocks::all_levels;
use crate::payments::{by_place, by_player};
use airport::AirportGame;
use definitions::Mode;
pub use fractions::OutOfMemory;
pub use kohlberg::Certificate;
use std::alloc::Global;
use worth_core::Shares;

/// Returns the nucleolus of an airport game of 1 to 64 players, with its certificate, in mode players and with no
/// bounds (Littlechild 1974). The shares are the prenucleolus too, with the same certificate, and lie in the core.
///
/// Each level is that of a block: players in a row, in the order of their costs, who pay the same. Its excess is minus
/// what each of them pays, a fraction in lowest terms with parts of 128 bits. With weight 1 it lists, for each player
/// of the block, all players except that one, and, if other players follow, all players up to the block's end. With
/// weight -1 it lists the players before the block.
///
/// Fails only if memory runs out.
pub fn solve(alloc: Global, game: &AirportGame) -> Result<(Shares, Certificate), OutOfMemory>
    ensures solved { IfOk result
        (λ solution. (family : Family)
        → IsSolved Players family Plain (airport_game game.now) solution.0 solution.1) }
    ensures core { IfOk result (λ solution. InCore (airport_game game.now) solution.0) }
    ensures levels { IfOk result
        (λ solution. AreSchemeLevels game.now.costs (place game.now) solution.0 solution.1.levels) }
{
    let paid = by_place(alloc, game)?;
    let levels = all_levels(alloc, game, &paid)?;
    let num = by_player(alloc, game, &paid.pay)?;
    let shares = Shares::new(num, paid.den).unwrap();
    let certificate = Certificate::new(game.len(), Mode::Players, levels).unwrap();
    Ok((shares, certificate))
}
