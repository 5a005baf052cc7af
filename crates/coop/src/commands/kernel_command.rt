//! `kernel`: whether the shares of a document are in the prekernel.
ghost use Rattle.std.specs.Prelude.{◌≡◌, ◌≤◌, length};
ghost use Rattle.definitions.specs.Games.{IsNucleolus};
ghost use Rattle.game_text.specs.Readings.{contents_in};
ghost use Rattle.report.specs.Limits.{IsPrintable};
ghost use Rattle.coop.specs.Judgement.{HasShares};
ghost use Rattle.coop.specs.KernelClaims.{Balances, SaysOfKernel};
ghost use Rattle.coop.specs.ReadBack.{IsNoNucleolus};

use crate::classes::FEW_PLAYERS;
use crate::commands::propose_command::judge;
use definitions::{Family, Measure};
use game_text::Document;
use kernel_test::{KernelAnswer, prekernel};
use report::{Answer, UsageKind};
use worth_core::{Shares, Worth};

/// Whether the shares of a document are in the prekernel of its game, or the first two players that aren't balanced; or
/// that the game has more than 16 players.
#[inline(never)]
pub(crate) fn kernel_document(document: &Document) -> Answer
    requires { HasShares (contents_in document.now) }
    ensures says { SaysOfKernel (contents_in document.now) result }
    ensures printable { IsPrintable result }
    ensures readable { IsNoNucleolus result }
{
    if document.game.players() > FEW_PLAYERS {
        return Answer::Usage(UsageKind::Players);
    }
    let shares = document.shares.as_ref().unwrap();
    balance(&document.game, shares, document.game.is_cost())
}

// Whether the shares are in the prekernel. Of those that aren't efficient the judgement says both sums.
fn balance<W: Worth>(game: &W, shares: &Shares, are_costs: bool) -> Answer
    requires few { (W.game game.now).players ≤ FEW_PLAYERS }
    requires each { length shares.now.shares ≡ (W.game game.now).players }
    ensures balances { Balances are_costs (W.game game.now) shares.now result }
    ensures prenucleolus { IsNucleolus Family.Preimputations Measure.Plain (W.game game.now) shares.now
        → result ≡ Answer.Prekernel }
    ensures printable { IsPrintable result }
    ensures readable { IsNoNucleolus result }
{
    // Its limit is kept by its type, and this call says so.
    shares.den();
    match prekernel(game, shares) {
        KernelAnswer::Balanced => Answer::Prekernel,
        KernelAnswer::NotEfficient => judge(game, shares, are_costs),
        KernelAnswer::Differs { i, j, ij, ji } => Answer::NotPrekernel { i, j, ij, ji },
    }
}
