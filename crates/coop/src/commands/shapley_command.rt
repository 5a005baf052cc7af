//! `shapley`: the Shapley shares of the game of a document.
ghost use Rattle.std.specs.Prelude.{IfOk};
ghost use Rattle.game_text.specs.Readings.{contents_in};
ghost use Rattle.coop.specs.ReadBack.{IsNoNucleolus};
ghost use Rattle.coop.specs.ShapleyClaims.{SaysOfShapley};
ghost use Rattle.report.specs.Limits.{IsPrintable};

use crate::classes::shares_of;
use fractions::OutOfMemory;
use game_text::Document;
use report::{Answer, UsageKind};
use shapley::ShapleyFault;
use std::alloc::Global;

/// The Shapley shares of the game of a document, or that it has more players than are answered: 32 for an airport or
/// voting game, and 16 for another.
#[inline(never)]
pub(crate) fn shapley_document(alloc: Global, document: &Document) -> Result<Answer, OutOfMemory>
    ensures says { IfOk result (SaysOfShapley (contents_in document.now)) }
    ensures printable { IfOk result IsPrintable }
    ensures readable { IfOk result IsNoNucleolus }
{
    let is_cost = document.game.is_cost();
    match shares_of(alloc, &document.game) {
        Ok(shares) => Ok(Answer::Shapley { is_cost, shares }),
        Err(ShapleyFault::TooMany) => Ok(Answer::Usage(UsageKind::Players)),
        Err(ShapleyFault::Memory) => Err(OutOfMemory),
    }
}
