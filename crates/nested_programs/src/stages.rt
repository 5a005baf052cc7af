//! The stages, each behind the levels of those in front.
ghost use Rattle.std.specs.Prelude.{◌≡◌, ◌≤◌, ◌+◌, [], length, IfOk};
ghost use Rattle.definitions.specs.Certificates.{LevelsForm};
ghost use Rattle.definitions.specs.declared.Measure.{Measure};
ghost use Rattle.kohlberg.specs.Extends.{SpansFixed};
ghost use Rattle.separation.specs.BlockBounds.{AreBlockBounds};
ghost use Rattle.nested_programs.specs.Stage.{stage_of};
ghost use Rattle.nested_programs.specs.Stages.{AreDone, IsBest, IsLeft, IsBounded};
ghost use Rattle.nested_programs.specs.Answer.{HasMember};

use crate::level::level_of;
use definitions::{Family, Measure};
use fractions::OutOfMemory;
use kohlberg::{Level, add_levels, first_unspanned};
use separation::{Lazy, block_bounds_of};
use simplex::{Multipliers, Optimal, Workspace};
use spans::Span;
use std::alloc::Global;
use worth_core::Worth;

/// The optimum of the stage behind these levels, which the span holds.
fn best_of<W: Worth>(
    alloc: Global,
    game: &W,
    block_bounds: &[i64; 256],
    family: Family,
    measure: Measure,
    levels: &[Level],
    span: &Span,
) -> Result<Optimal, OutOfMemory>
    requires few { (W.game game.now).players ≤ 16 }
    requires block_bounds { AreBlockBounds (W.game game.now) block_bounds.now }
    requires heads { measure ≡ Measure.PerHead → (W.game game.now).players ≤ 8 }
    requires levels { length levels.now + 2 ≤ (W.game game.now).players }
    requires form { LevelsForm (W.game game.now).players [] levels.now }
    requires players { span.now.players ≡ (W.game game.now).players }
    requires spans { SpansFixed (W.game game.now).players span.now.kept levels.now }
    requires left { IsLeft (W.game game.now).players levels.now }
    requires bounded { IsBounded (stage_of family measure (W.game game.now) levels.now) }
    ensures { IfOk result (IsBest (stage_of family measure (W.game game.now) levels.now)) }
{
    let mut program = Lazy::stage_with(game, block_bounds, family, measure, levels, span);
    let mut work = Workspace::new(alloc, game.players() + levels.len() as u32 + 1)?;
    let Ok(best) = simplex::solve(&mut work, &mut program) else {
        unreachable!();
    };
    Ok(best)
}

/// The levels of all stages, until they fix everything, and the multipliers of the last, if there is one.
pub(crate) fn all_stages<W: Worth>(
    alloc: Global,
    game: &W,
    family: Family,
    measure: Measure,
) -> Result<(Vec<Level>, Option<Multipliers>), OutOfMemory>
    requires few { (W.game game.now).players ≤ 16 }
    requires heads { measure ≡ Measure.PerHead → (W.game game.now).players ≤ 8 }
    requires member { HasMember family (W.game game.now) }
    ensures { IfOk result (λ all. AreDone (stage_of family measure (W.game game.now) all.0.items) all.1) }
{
    let n = game.players();
    let block_bounds = block_bounds_of(game);
    let mut levels = Vec::new(alloc);
    let mut span = Span::new(n);
    let mut last = None;
    while first_unspanned(&span, n).is_some() {
        let best = best_of(alloc, game, &block_bounds, family, measure, &levels, &span)?;
        let k = levels.len();
        levels.push(level_of(alloc, n, &levels, &best)?)?;
        add_levels(&mut span, &levels[k..]);
        last = Some(best.multipliers);
    }
    Ok((levels, last))
}
