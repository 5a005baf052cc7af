//! `matching`: the matching of the market of a document.
ghost use Rattle.std.specs.Prelude.{◌≡◌, true, IfOk};
ghost use Rattle.game_text.specs.Classes.{description_in};
ghost use Rattle.game_text.specs.Readings.{contents_in};
ghost use Rattle.report.specs.Limits.{IsPrintable};
ghost use Rattle.coop.specs.Classes.{is_market};
ghost use Rattle.coop.specs.MatchingClaims.{SaysOfMatching};
ghost use Rattle.coop.specs.ReadBack.{IsNoNucleolus};

use fractions::OutOfMemory;
use game_text::{Document, Game};
use report::Answer;
use std::alloc::Global;

/// An optimal matching of the market of a document with its value, and the core points that are best for every buyer
/// and for every seller.
#[inline(never)]
pub(crate) fn matching_document(alloc: Global, document: &Document) -> Result<Answer, OutOfMemory>
    requires { is_market (description_in document.now.game) ≡ true }
    ensures says { IfOk result (SaysOfMatching (contents_in document.now)) }
    ensures printable { IfOk result IsPrintable }
    ensures readable { IfOk result IsNoNucleolus }
{
    let Game::Market(game) = &document.game else {
        unreachable!()
    };
    let solution = game.solve(alloc)?;
    Ok(Answer::Matching(solution))
}
