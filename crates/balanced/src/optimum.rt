//! The optimum of a balanced program.

ghost use Rattle.std.specs.Prelude.{◌≤◌, IfOk};
ghost use Rattle.separation.specs.Balanced.{balanced_program};
ghost use Rattle.separation.specs.Same.{IsSame};
ghost use Rattle.simplex.specs.Answer.{IsAnswer};

use fractions::OutOfMemory;
use simplex::{Columns, Optimal, Workspace, solve};
use std::alloc::Global;
use worth_core::Worth;

/// The optimum of the balanced program of a game, however its columns are kept. There is one: the grand coalition alone
/// solves the program, and no worth is endless.
pub(crate) fn best_of<W: Worth, C: Columns>(
    alloc: Global,
    game: &W,
    columns: &mut C,
) -> Result<Optimal, OutOfMemory>
    requires few { (W.game game.now).players ≤ 16 }
    requires same { IsSame (C.program columns.old) (balanced_program (W.game game.now)) }
    ensures { IfOk result (λ best. IsAnswer (balanced_program (W.game game.now))
        best.weights.items best.weight_den best.multipliers.num.items best.multipliers.den) }
{
    let mut work = Workspace::new(alloc, game.players())?;
    let Ok(best) = solve(&mut work, columns) else {
        unreachable!();
    };
    Ok(best)
}
