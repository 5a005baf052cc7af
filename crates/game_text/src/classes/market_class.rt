//! Markets: what each buyer and each seller are worth together, for up to 32 buyers and 32 sellers.
ghost use Rattle.std.specs.Prelude.{◌≡◌, MatchResult, Some, None, if◌then◌else◌};
ghost use Rattle.serde_json.specs.View.{view};
ghost use Rattle.game_text.specs.Classes.{class_of, own_numbers};
ghost use Rattle.game_text.specs.Classes.AssignmentClass.{assignment_players};
ghost use Rattle.game_text.specs.Classes.MarketClass.{has_market_players};
ghost use Rattle.game_text.specs.Readings.{HasSizes, IsBuilt, IsBuildFault};
ghost use Rattle.game_text.specs.declared.classes.Class.TheVariants.{Market};

use crate::classes::Game;
use crate::classes::assignment_class::sellers_at;
pub(crate) use crate::classes::matrix_class::{is_shaped, numbers};
use crate::document::TextFault;
use big_assignment::{MarketFault, MarketGame};
use document_parts::{in_rows, is_short_list_size};
use json_trees::parts_at;
use kinds::Refusal;
use serde_json::Value;
use std::alloc::Global;

/// The number of players, if there are 1 to 32 buyers, and 1 to 32 sellers.
pub(crate) fn players(game: &Value) -> Option<usize>
    ensures { result
        ≡ (if has_market_players (view game.now) then Some (assignment_players (view game.now)) else None) }
{
    let buyers = parts_at(game, "matrix").len();
    let sellers = sellers_at(game);
    if is_short_list_size(buyers) && is_short_list_size(sellers) {
        Some(buyers + sellers)
    } else {
        None
    }
}

/// The market that is described, by its entries. It is refused if the rows differ in length.
pub(crate) fn market_of(alloc: Global, game: &Value, entries: Vec<i64>) -> Result<Game, TextFault>
    requires class { class_of (view game.now) ≡ Some Market }
    requires sizes { HasSizes (view game.now) }
    requires numbers { entries.items ≡ own_numbers (view game.now) }
    ensures { MatchResult result (IsBuilt (view game.now)) (IsBuildFault (view game.now)) }
{
    let rows = in_rows(alloc, parts_at(game, "matrix"), &entries)?;
    match MarketGame::new(alloc, rows) {
        Ok(market) => Ok(Game::Market(market)),
        Err(MarketFault::Players) => Err(TextFault::Refused(Refusal::Players)),
        Err(MarketFault::Number) => Err(TextFault::Refused(Refusal::Number)),
        Err(MarketFault::Matrix) => Err(TextFault::Refused(Refusal::Matrix)),
        Err(MarketFault::Memory) => Err(TextFault::Memory),
    }
}
