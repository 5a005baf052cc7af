//! The Talmud rule for an estate and the claims to it: the nucleolus of a bankruptcy game from the claims alone, with
//! its certificate (O'Neill 1982, Aumann and Maschler 1985).
#![tactic(auto)]

mod cut_claims;
mod division;
mod levels;

ghost use Rattle.std.specs.Prelude.{IfOk};
ghost use Rattle.definitions.specs.Games.{InCore};
ghost use Rattle.definitions.specs.declared.Family.{Family};
ghost use Rattle.definitions.specs.declared.Measure.TheVariants.{Plain};
ghost use Rattle.definitions.specs.declared.Mode.TheVariants.{Players};
ghost use Rattle.bankruptcy.specs.Bankruptcy.{bankruptcy_game};
ghost use Rattle.kohlberg.specs.Solved.{IsSolved};
ghost use Rattle.talmud.specs.Rule.{IsTalmud};
ghost use Rattle.talmud.specs.Levels.{AreRuleLevels};

use crate::cut_claims::CutClaims;
use crate::division::Division;
use crate::levels::all_levels;
use bankruptcy::BankruptcyGame;
use definitions::Mode;
pub use fractions::OutOfMemory;
pub use kohlberg::Certificate;
use std::alloc::Global;
use worth_core::{Shares, Worth};

/// Returns the shares of the Talmud rule for an estate and 1 to 64 claims, with the certificate that they are the
/// nucleolus of the bankruptcy game, in mode players and with no bounds (O'Neill 1982, Aumann and Maschler 1985). The
/// shares are the prenucleolus too, and lie in the core.
///
/// Each claim is first cut to the estate. If the estate is at most half of the claims, each player gets half of its
/// claim or an amount that is the same for all, whichever is less. Otherwise each loses such a part of its claim.
///
/// The excess of each level is a fraction in lowest terms with parts of 128 bits.
///
/// Fails only if memory runs out.
pub fn solve(alloc: Global, game: &BankruptcyGame) -> Result<(Shares, Certificate), OutOfMemory>
    ensures solved { IfOk result
        (λ solution. (family : Family)
        → IsSolved Players family Plain (bankruptcy_game game.now) solution.0 solution.1) }
    ensures core { IfOk result (λ solution. InCore (bankruptcy_game game.now) solution.0) }
    ensures rule { IfOk result (λ solution. IsTalmud game.now.estate game.now.claims solution.0) }
    ensures levels { IfOk result
        (λ solution. AreRuleLevels game.now.estate game.now.claims solution.0 solution.1.levels) }
{
    let claims = CutClaims::new(alloc, game)?;
    let division = Division::new(game.estate() as u64, &claims);
    let levels = all_levels(alloc, &claims, division)?;
    let num = division.awards(alloc, &claims)?;
    let shares = Shares::new(num, division.den()).unwrap();
    let certificate = Certificate::new(game.players(), Mode::Players, levels).unwrap();
    Ok((shares, certificate))
}
