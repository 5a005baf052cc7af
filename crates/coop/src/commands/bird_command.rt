//! `bird`: Bird's shares of the game of a document.
ghost use Rattle.std.specs.Prelude.{◌≡◌, true, IfOk};
ghost use Rattle.game_text.specs.Classes.{description_in};
ghost use Rattle.game_text.specs.Readings.{contents_in};
ghost use Rattle.report.specs.Limits.{IsPrintable};
ghost use Rattle.coop.specs.ReadBack.{IsNoNucleolus};
ghost use Rattle.coop.specs.BirdClaims.{SaysOfBird};
ghost use Rattle.coop.specs.Classes.{is_tree};

use fractions::OutOfMemory;
use game_text::{Document, Game};
use report::Answer;
use std::alloc::Global;

/// What each player of the tree game of a document pays in Bird's plan, with the plan.
#[inline(never)]
pub(crate) fn bird_document(alloc: Global, document: &Document) -> Result<Answer, OutOfMemory>
    requires { is_tree (description_in document.now.game) ≡ true }
    ensures says { IfOk result (SaysOfBird (contents_in document.now)) }
    ensures printable { IfOk result IsPrintable }
    ensures readable { IfOk result IsNoNucleolus }
{
    let Game::Tree(game) = &document.game else {
        unreachable!()
    };
    let (shares, tree) = game.bird(alloc)?;
    Ok(Answer::Bird { shares, tree })
}
