//! `nucleolus` and `prenucleolus`: the nucleolus of the game of a document.
ghost use Rattle.std.specs.Prelude.{◌≡◌, ◌≤◌, true, IfOk};
ghost use Rattle.game_text.specs.Classes.{game_of, description_in};
ghost use Rattle.game_text.specs.Readings.{contents_in};
ghost use Rattle.coop.specs.Needs.{IsAccepted};
ghost use Rattle.coop.specs.ReadBack.{CanBeRead};
ghost use Rattle.coop.specs.Classes.{is_no_market, nucleolus_limit};
ghost use Rattle.coop.specs.Finding.{IsFoundFor, IsChosenFound};
ghost use Rattle.coop.specs.Headline.{Solves};
ghost use Rattle.report.specs.Limits.{IsPrintable};

use crate::classes::{nucleolus_limit, solve_plain};
use crate::commands::{printed_worth, recall_limits};
use definitions::{Family, Measure};
use fractions::OutOfMemory;
use game_text::{Document, Game};
use nested_programs::{Found, solve_few};
use report::{Answer, UsageKind};
use std::alloc::Global;
use worth_core::Worth;

/// Finds the document's nucleolus or prenucleolus by its measure, with its certificate. Takes the document's tree.
/// Otherwise reports that there is no imputation, or too many players.
///
/// With plain excess airport and bankruptcy games have schemes of their own. The others, and all games with excess per
/// head, are solved by nested linear programs.
pub(crate) fn nucleolus_document(
    alloc: Global,
    document: &mut Document,
    family: Family,
) -> Result<Answer, OutOfMemory>
    requires accepted { IsAccepted (contents_in document.old) }
    requires class { is_no_market (description_in document.old.game) ≡ true }
    ensures solves { IfOk result (Solves family (contents_in document.old)) }
    ensures printable { IfOk result IsPrintable }
    ensures readable { IfOk result (CanBeRead document.old.scale) }
{
    let is_cost = document.game.is_cost();
    if document.game.players() > nucleolus_limit(document.measure, &document.game) {
        return Ok(Answer::Usage(UsageKind::Players));
    }
    match found_for(alloc, &document.game, family, document.measure)? {
        Found::Point(shares, certificate) => {
            recall_limits(&shares, &certificate);
            Ok(Answer::Nucleolus {
                family,
                tree: document.tree.take(),
                is_cost,
                shares,
                certificate,
            })
        }
        Found::NoImputation { singles, total } => Ok(Answer::NoImputation {
            singles: printed_worth(singles, is_cost),
            total: printed_worth(total, is_cost),
        }),
    }
}

// Finds the nucleolus or prenucleolus of a game by the measure.
fn found_for(
    alloc: Global,
    game: &Game,
    family: Family,
    measure: Measure,
) -> Result<Found, OutOfMemory>
    requires class { is_no_market (description_in game.now) ≡ true }
    requires few { (game_of (description_in game.now)).players ≤ nucleolus_limit measure (description_in game.now) }
    ensures found { IfOk result (IsFoundFor family measure (game_of (description_in game.now))) }
    ensures chosen { IfOk result (IsChosenFound measure (description_in game.now)) }
{
    match measure {
        Measure::Plain => solve_plain(alloc, game, family),
        Measure::PerHead => solve_few(alloc, game, family, measure),
    }
}
