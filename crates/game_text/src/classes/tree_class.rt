//! Tree games: the cost of the link between each two of the source and the players.
ghost use Rattle.std.specs.Prelude.{◌≡◌, MatchResult, Some, None, if◌then◌else◌};
ghost use Rattle.serde_json.specs.View.{view};
ghost use Rattle.game_text.specs.Classes.{class_of, own_numbers};
ghost use Rattle.game_text.specs.Classes.TreeClass.{tree_players, has_tree_players};
ghost use Rattle.game_text.specs.Readings.{HasSizes, IsBuilt, IsBuildFault};
ghost use Rattle.game_text.specs.declared.classes.Class.TheVariants.{Tree};

use crate::classes::Game;
pub(crate) use crate::classes::matrix_class::{is_shaped, numbers};
use crate::document::TextFault;
use document_parts::in_rows;
use json_trees::parts_at;
use kinds::Refusal;
use serde_json::Value;
use std::alloc::Global;
use tree_games::{TreeFault, TreeGame};

/// The number of players, one for each row but that of the source, if there are 1 to 16.
pub(crate) fn players(game: &Value) -> Option<usize>
    ensures { result ≡ (if has_tree_players (view game.now) then Some (tree_players (view game.now)) else None) }
{
    let rows = parts_at(game, "matrix").len();
    if 2 <= rows && rows <= 17 {
        Some(rows - 1)
    } else {
        None
    }
}

/// The game that is described, by its entries. It is refused if the rows aren't those of links.
pub(crate) fn tree_of(alloc: Global, game: &Value, entries: Vec<i64>) -> Result<Game, TextFault>
    requires class { class_of (view game.now) ≡ Some Tree }
    requires sizes { HasSizes (view game.now) }
    requires numbers { entries.items ≡ own_numbers (view game.now) }
    ensures { MatchResult result (IsBuilt (view game.now)) (IsBuildFault (view game.now)) }
{
    let rows = in_rows(alloc, parts_at(game, "matrix"), &entries)?;
    match TreeGame::new(alloc, rows) {
        Ok(links) => Ok(Game::Tree(links)),
        Err(TreeFault::Players) => Err(TextFault::Refused(Refusal::Players)),
        Err(TreeFault::Number) => Err(TextFault::Refused(Refusal::Number)),
        Err(TreeFault::Matrix) => Err(TextFault::Refused(Refusal::Matrix)),
        Err(TreeFault::Memory) => Err(TextFault::Memory),
    }
}
