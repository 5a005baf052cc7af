//! `core`: the core of the game of a document.
ghost use Rattle.std.specs.Prelude.{◌≡◌, ◌≤◌, true, IfOk};
ghost use Rattle.game_text.specs.Classes.{game_of, description_in};
ghost use Rattle.game_text.specs.Readings.{contents_in};
ghost use Rattle.coop.specs.Classes.{is_no_market, core_limit};
ghost use Rattle.coop.specs.CoreClaims.{IsShown, FindsCore, SaysOfCore};
ghost use Rattle.coop.specs.Needs.{IsAccepted};
ghost use Rattle.coop.specs.ReadBack.{IsNoNucleolus};
ghost use Rattle.balanced_collections.specs.Collections.{ShowsEmpty};
ghost use Rattle.report.specs.Limits.{IsPrintable};

use crate::classes::{core_answer, core_limit};
use crate::commands::printed_amount;
use balanced::{Collection, CoreAnswer};
use fractions::OutOfMemory;
use game_text::Document;
use report::{Answer, UsageKind};
use std::alloc::Global;
use worth_core::Worth;

/// Answers `core`: returns a point of the core of a document's game, or a collection that shows that the core is empty,
/// or that the game has more players than `core_limit` allows.
///
/// The point of an airport or bankruptcy game is its nucleolus, and that of a tree game Bird's shares. The balanced
/// program answers the others.
#[inline(never)]
pub(crate) fn core_document(alloc: Global, document: &Document) -> Result<Answer, OutOfMemory>
    requires accepted { IsAccepted (contents_in document.now) }
    requires class { is_no_market (description_in document.now.game) ≡ true }
    ensures says { IfOk result (SaysOfCore (contents_in document.now)) }
    ensures printable { IfOk result IsPrintable }
    ensures readable { IfOk result IsNoNucleolus }
{
    if document.game.players() > core_limit(&document.game) {
        return Ok(Answer::Usage(UsageKind::Players));
    }
    core_of_few(alloc, document)
}

// Answers `core` for a game within `core_limit`.
fn core_of_few(alloc: Global, document: &Document) -> Result<Answer, OutOfMemory>
    requires accepted { IsAccepted (contents_in document.now) }
    requires class { is_no_market (description_in document.now.game) ≡ true }
    requires taken { (game_of (description_in document.now.game)).players
        ≤ core_limit (description_in document.now.game) }
    ensures finds { IfOk result (FindsCore (contents_in document.now)) }
    ensures printable { IfOk result IsPrintable }
    ensures readable { IfOk result IsNoNucleolus }
{
    let is_cost = document.game.is_cost();
    match core_answer(alloc, &document.game)? {
        CoreAnswer::Point(shares) => Ok(Answer::CorePoint { is_cost, shares }),
        CoreAnswer::Empty(collection) => Ok(shown(&document.game, collection, is_cost)),
    }
}

// The collection beside both numbers that it sets against each other, as they are printed.
fn shown<W: Worth>(game: &W, collection: Collection, are_costs: bool) -> Answer
    requires { ShowsEmpty (W.game game.now) collection }
    ensures shown { IsShown are_costs (W.game game.now) result }
    ensures printable { IsPrintable result }
    ensures readable { IsNoNucleolus result }
{
    let value = printed_amount(collection.value(game), are_costs);
    let against = printed_amount(collection.against(game), are_costs);
    Answer::EmptyCore {
        collection,
        value,
        against,
    }
}
