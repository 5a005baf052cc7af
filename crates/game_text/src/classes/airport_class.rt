//! Airport games: a cost for each player.
ghost use Rattle.std.specs.Prelude.{◌≡◌, true, false, MatchResult, IfOk, IfSome, IfNone, Some, None, if◌then◌else◌};
ghost use Rattle.serde_json.specs.View.{view};
ghost use Rattle.document_parts.specs.Version.{has_texts};
ghost use Rattle.document_parts.specs.Numbers.{are_costs, AreWorths};
ghost use Rattle.document_parts.specs.Sizes.{is_list_size};
ghost use Rattle.game_text.specs.Classes.{class_of, own_numbers};
ghost use Rattle.game_text.specs.Classes.AirportClass.{is_airport_shaped, airport_players, airport_values};
ghost use Rattle.game_text.specs.Readings.{HasSizes, IsBuilt, IsBuildFault};
ghost use Rattle.game_text.specs.declared.classes.Class.TheVariants.{Airport};

use crate::classes::Game;
use crate::document::TextFault;
use airport::{AirportFault, AirportGame};
use document_parts::{Numbers, add_values, is_list_size, read_costs};
use fractions::OutOfMemory;
use json_trees::{ArrayOf, Numeric, has, has_only_keys, parts_at};
use kinds::Refusal;
use serde_json::Value;
use std::alloc::Global;

/// Whether it has the keys and kinds of an airport game.
pub(crate) fn is_shaped(game: &Value, texts: bool) -> bool
    requires { texts ≡ has_texts (view game.now) }
    ensures { result ≡ is_airport_shaped (view game.now) }
{
    has_only_keys(&["class", "costs", "excess", "names", "version"], game)
        && has(game, "costs", &ArrayOf(Numeric { texts }))
}

/// The number of players, one for each cost, if there are 1 to 64.
pub(crate) fn players(game: &Value) -> Option<usize>
    ensures { let n = airport_players (view game.now) in result ≡ (if is_list_size n then Some n else None) }
{
    let n = parts_at(game, "costs").len();
    if is_list_size(n) { Some(n) } else { None }
}

/// The costs times their scale, if the scale and each of them are within their limits.
pub(crate) fn numbers(alloc: Global, game: &Value) -> Result<Option<Numbers>, OutOfMemory>
    ensures none { IfOk result (λ o. IfNone o (are_costs (airport_values (view game.now)) ≡ false)) }
    ensures within { IfOk result (λ o. IfSome o (λ n. are_costs (airport_values (view game.now)) ≡ true)) }
    ensures numbers { IfOk result
        (λ o. IfSome o (λ n. AreWorths (airport_values (view game.now)) n.scale n.items.items)) }
{
    let mut costs = Vec::new(alloc);
    add_values(&mut costs, parts_at(game, "costs"))?;
    read_costs(alloc, &costs)
}

/// The game that is described, by its costs.
pub(crate) fn airport_of(alloc: Global, game: &Value, costs: Vec<i64>) -> Result<Game, TextFault>
    requires class { class_of (view game.now) ≡ Some Airport }
    requires sizes { HasSizes (view game.now) }
    requires numbers { costs.items ≡ own_numbers (view game.now) }
    ensures { MatchResult result (IsBuilt (view game.now)) (IsBuildFault (view game.now)) }
{
    match AirportGame::new(alloc, costs) {
        Ok(costs) => Ok(Game::Airport(costs)),
        Err(AirportFault::Players) => Err(TextFault::Refused(Refusal::Players)),
        Err(AirportFault::Number) => Err(TextFault::Refused(Refusal::Number)),
        Err(AirportFault::Memory) => Err(TextFault::Memory),
    }
}
