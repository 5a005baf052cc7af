//! `convex`: whether the game of a document is convex, and its shares if it is.
ghost use Rattle.std.specs.Prelude.{◌≤◌, IfOk};
ghost use Rattle.convexity.specs.Answers.{IsAnswer};
ghost use Rattle.game_text.specs.Classes.{game_of, description_in};
ghost use Rattle.game_text.specs.Readings.{contents_in};
ghost use Rattle.report.specs.Limits.{IsPrintable};
ghost use Rattle.coop.specs.ConvexClaims.{SaysOfConvex};
ghost use Rattle.coop.specs.ReadBack.{IsNoNucleolus};

use crate::classes::FEW_PLAYERS;
use convexity::{ConvexAnswer, answer};
use fractions::OutOfMemory;
use game_text::{Document, Game};
use report::{Answer, UsageKind};
use std::alloc::Global;
use worth_core::Worth;
use worth_tables::KeptWorths;

/// Whether the game of a document is convex, with its Shapley and marginal shares, or where it first isn't; or that it
/// has more than 16 players.
#[inline(never)]
pub(crate) fn convex_document(alloc: Global, document: &Document) -> Result<Answer, OutOfMemory>
    ensures says { IfOk result (SaysOfConvex (contents_in document.now)) }
    ensures printable { IfOk result IsPrintable }
    ensures readable { IfOk result IsNoNucleolus }
{
    if document.game.players() > FEW_PLAYERS {
        return Ok(Answer::Usage(UsageKind::Players));
    }
    let is_cost = document.game.is_cost();
    let answer = answer_for(alloc, &document.game)?;
    Ok(Answer::Convex { is_cost, answer })
}

// The answer for a game of few players, whose worths are kept, since each is asked for many times.
fn answer_for(alloc: Global, game: &Game) -> Result<ConvexAnswer, OutOfMemory>
    requires { (game_of (description_in game.now)).players ≤ FEW_PLAYERS }
    ensures { IfOk result (IsAnswer (game_of (description_in game.now))) }
{
    answer(alloc, &KeptWorths::new(alloc, game)?)
}
