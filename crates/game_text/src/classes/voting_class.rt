//! Weighted voting games: a quota, and a weight for each player. They are integers in both versions, so the scale is 1.
ghost use Rattle.std.specs.Prelude.{◌≡◌, true, false, MatchResult, IfOk, IfSome, IfNone, Some, None, if◌then◌else◌};
ghost use Rattle.serde_json.specs.View.{view};
ghost use Rattle.document_parts.specs.Numbers.{are_costs, AreWorths};
ghost use Rattle.document_parts.specs.Sizes.{is_short_list_size};
ghost use Rattle.game_text.specs.Classes.{class_of, own_numbers};
ghost use Rattle.game_text.specs.Classes.VotingClass.{is_voting_shaped, voting_players, voting_values};
ghost use Rattle.game_text.specs.Readings.{HasSizes, IsBuilt, IsBuildFault};
ghost use Rattle.game_text.specs.declared.classes.Class.TheVariants.{Voting};

use crate::classes::Game;
use crate::document::TextFault;
use document_parts::{Numbers, add_at, add_values, is_short_list_size, read_costs};
use fractions::OutOfMemory;
use json_trees::{ArrayOf, Number, has, has_only_keys, parts_at};
use kinds::Refusal;
use serde_json::Value;
use std::alloc::Global;
use voting::{VotingFault, VotingGame};

/// Whether it has the keys and kinds of a voting game, whose numbers are no texts in any version.
pub(crate) fn is_shaped(game: &Value, _texts: bool) -> bool
    ensures { result ≡ is_voting_shaped (view game.now) }
{
    has_only_keys(
        &["class", "excess", "names", "quota", "version", "weights"],
        game,
    ) && has(game, "quota", &Number)
        && has(game, "weights", &ArrayOf(Number))
}

/// The number of players, one for each weight, if there are 1 to 32.
pub(crate) fn players(game: &Value) -> Option<usize>
    ensures { let n = voting_players (view game.now) in result ≡ (if is_short_list_size n then Some n else None) }
{
    let n = parts_at(game, "weights").len();
    if is_short_list_size(n) { Some(n) } else { None }
}

/// The quota and then the weights, if they are integers within their limits.
pub(crate) fn numbers(alloc: Global, game: &Value) -> Result<Option<Numbers>, OutOfMemory>
    ensures none { IfOk result (λ o. IfNone o (are_costs (voting_values (view game.now)) ≡ false)) }
    ensures within { IfOk result (λ o. IfSome o (λ n. are_costs (voting_values (view game.now)) ≡ true)) }
    ensures numbers { IfOk result
        (λ o. IfSome o (λ n. AreWorths (voting_values (view game.now)) n.scale n.items.items)) }
{
    let mut values = Vec::new(alloc);
    add_at(&mut values, game, "quota")?;
    add_values(&mut values, parts_at(game, "weights"))?;
    read_costs(alloc, &values)
}

/// The game that is described, by its quota and the weights behind it. It is refused for weights of above 1,000 in all,
/// and for a quota below 1 or above their sum.
pub(crate) fn voting_of(alloc: Global, game: &Value, numbers: Vec<i64>) -> Result<Game, TextFault>
    requires class { class_of (view game.now) ≡ Some Voting }
    requires sizes { HasSizes (view game.now) }
    requires numbers { numbers.items ≡ own_numbers (view game.now) }
    ensures { MatchResult result (IsBuilt (view game.now)) (IsBuildFault (view game.now)) }
{
    let mut weights = numbers;
    let quota = weights.remove(0);
    match VotingGame::new(alloc, quota, weights) {
        Ok(game) => {
            // Its laws say that the weights reach the quota, and are few enough together.
            game.quota();
            Ok(Game::Voting(game))
        }
        Err(VotingFault::Players) => Err(TextFault::Refused(Refusal::Players)),
        Err(VotingFault::Number) => Err(TextFault::Refused(Refusal::Number)),
        Err(VotingFault::Quota) => Err(TextFault::Refused(Refusal::Quota)),
        Err(VotingFault::Memory) => Err(TextFault::Memory),
    }
}
