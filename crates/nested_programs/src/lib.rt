//! The nucleolus and the prenucleolus of any game of at most 16 players, by nested linear programs (Kopelowitz 1967,
//! Maschler, Peleg and Shapley 1979).
//!
//! Each stage looks for the least greatest measured excess of the coalitions that the levels in front don't fix. Its
//! optimal weights are the next level of the certificate, and its optimal multipliers are shares, and excesses of the
//! levels so far. After at most one stage less than there are players everything is fixed, and the shares of the last
//! stage are the answer.
#![tactic(auto)]

mod found;
mod level;
mod stages;

ghost use Rattle.std.specs.Prelude.{◌≡◌, ◌↔◌, ◌<◌, ◌≤◌, IfOk, IsErrOf, MatchResult};
ghost use Rattle.definitions.specs.declared.Measure.{Measure};
ghost use Rattle.nested_programs.specs.Answer.{IsFound, IsFault};

use definitions::{Family, Measure};
pub use found::{Found, NestedFault, solve_few};
use std::alloc::Global;
use worth_core::Worth;

/// Returns the nucleolus of a game of at most 16 players for the imputations, or its prenucleolus for the
/// preimputations, with a certificate in mode span (Schmeidler 1969, Kohlberg 1971). Excesses are as they are or per
/// head (Grotte 1970); per head there must be at most 8 players. Each level has fewer entries in its three lists than
/// twice the number of players, and its excess is a fraction in lowest terms with parts of 128 bits. It has at least
/// one coalition, and none that earlier levels fix, so each level settles more than the earlier ones.
///
/// Returns `NoImputation` exactly if the family is the imputations and the worths of the players alone add to more than
/// the worth of all; it carries both. Fails with `TooMany` exactly if there are more than 16 players, and with `Memory`
/// if memory runs out.
pub fn solve<W: Worth>(
    alloc: Global,
    game: &W,
    family: Family,
    measure: Measure,
) -> Result<Found, NestedFault>
    requires heads { measure ≡ Measure.PerHead → (W.game game.now).players ≤ 8 }
    ensures answer { MatchResult result (IsFound family measure (W.game game.now)) (IsFault (W.game game.now)) }
    ensures few { IfOk result (λ _. (W.game game.now).players ≤ 16) }
    ensures too_many { IsErrOf result NestedFault.TooMany ↔ (16 < (W.game game.now).players) }
{
    if game.players() > 16 {
        return Err(NestedFault::TooMany);
    }
    match solve_few(alloc, game, family, measure) {
        Ok(found) => Ok(found),
        Err(_) => Err(NestedFault::Memory),
    }
}
