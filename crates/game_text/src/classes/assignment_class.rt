//! Assignment games: what each buyer and each seller are worth together.
ghost use Rattle.std.specs.Prelude.{◌≡◌, ◌<◌, ◌^◌, MatchResult, Some, None, if◌then◌else◌};
ghost use Rattle.serde_json.specs.View.{view};
ghost use Rattle.game_text.specs.Classes.{class_of, own_numbers};
ghost use Rattle.game_text.specs.Classes.AssignmentClass.{sellers_at, assignment_players, has_assignment_players};
ghost use Rattle.game_text.specs.Readings.{HasSizes, IsBuilt, IsBuildFault};
ghost use Rattle.game_text.specs.declared.classes.Class.TheVariants.{Assignment};

use crate::classes::Game;
pub(crate) use crate::classes::matrix_class::{is_shaped, numbers};
use crate::document::TextFault;
use assignment_games::{AssignmentFault, AssignmentGame};
use document_parts::in_rows;
use json_trees::{parts, parts_at};
use kinds::Refusal;
use serde_json::Value;
use std::alloc::Global;

/// The number of sellers: one for each item of the first row.
pub(crate) fn sellers_at(game: &Value) -> usize
    ensures value { result ≡ sellers_at (view game.now) }
    ensures small { result < 2 ^ 63 }
{
    match parts_at(game, "matrix") {
        [first, ..] => parts(first).len(),
        [] => 0,
    }
}

/// The number of players, one for each row and one for each item of the first row, if there are buyers and sellers,
/// at most 16 together.
pub(crate) fn players(game: &Value) -> Option<usize>
    ensures { result
        ≡ (if has_assignment_players (view game.now) then Some (assignment_players (view game.now)) else None) }
{
    let buyers = parts_at(game, "matrix").len();
    let sellers = sellers_at(game);
    if 1 <= buyers && 1 <= sellers && buyers + sellers <= 16 {
        Some(buyers + sellers)
    } else {
        None
    }
}

/// The game that is described, by its entries. It is refused if the rows differ in length.
pub(crate) fn assignment_of(
    alloc: Global,
    game: &Value,
    entries: Vec<i64>,
) -> Result<Game, TextFault>
    requires class { class_of (view game.now) ≡ Some Assignment }
    requires sizes { HasSizes (view game.now) }
    requires numbers { entries.items ≡ own_numbers (view game.now) }
    ensures { MatchResult result (IsBuilt (view game.now)) (IsBuildFault (view game.now)) }
{
    let rows = in_rows(alloc, parts_at(game, "matrix"), &entries)?;
    match AssignmentGame::new(alloc, rows) {
        Ok(values) => Ok(Game::Assignment(values)),
        Err(AssignmentFault::Players) => Err(TextFault::Refused(Refusal::Players)),
        Err(AssignmentFault::Number) => Err(TextFault::Refused(Refusal::Number)),
        Err(AssignmentFault::Matrix) => Err(TextFault::Refused(Refusal::Matrix)),
        Err(AssignmentFault::Memory) => Err(TextFault::Memory),
    }
}
