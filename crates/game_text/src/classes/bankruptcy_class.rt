//! Bankruptcy games: an estate, and a claim for each player.
ghost use Rattle.std.specs.Prelude.{◌≡◌, true, false, MatchResult, IfOk, IfSome, IfNone, Some, None, if◌then◌else◌};
ghost use Rattle.serde_json.specs.View.{view};
ghost use Rattle.document_parts.specs.Version.{has_texts};
ghost use Rattle.document_parts.specs.Numbers.{are_costs, AreWorths};
ghost use Rattle.document_parts.specs.Sizes.{is_list_size};
ghost use Rattle.game_text.specs.Classes.{class_of, own_numbers};
ghost use Rattle.game_text.specs.Classes.BankruptcyClass.{is_bankruptcy_shaped, bankruptcy_players};
ghost use Rattle.game_text.specs.Classes.BankruptcyClass.{bankruptcy_values};
ghost use Rattle.game_text.specs.Readings.{HasSizes, IsBuilt, IsBuildFault};
ghost use Rattle.game_text.specs.declared.classes.Class.TheVariants.{Bankruptcy};

use crate::classes::Game;
use crate::document::TextFault;
use bankruptcy::{BankruptcyFault, BankruptcyGame};
use document_parts::{Numbers, add_at, add_values, is_list_size, read_costs};
use fractions::OutOfMemory;
use json_trees::{ArrayOf, Numeric, has, has_only_keys, parts_at};
use kinds::Refusal;
use serde_json::Value;
use std::alloc::Global;

/// Whether it has the keys and kinds of a bankruptcy game.
pub(crate) fn is_shaped(game: &Value, texts: bool) -> bool
    requires { texts ≡ has_texts (view game.now) }
    ensures { result ≡ is_bankruptcy_shaped (view game.now) }
{
    has_only_keys(
        &["class", "claims", "estate", "excess", "names", "version"],
        game,
    ) && has(game, "estate", &Numeric { texts })
        && has(game, "claims", &ArrayOf(Numeric { texts }))
}

/// The number of players, one for each claim, if there are 1 to 64.
pub(crate) fn players(game: &Value) -> Option<usize>
    ensures { let n = bankruptcy_players (view game.now) in result ≡ (if is_list_size n then Some n else None) }
{
    let n = parts_at(game, "claims").len();
    if is_list_size(n) { Some(n) } else { None }
}

/// The estate and then the claims, times their scale, if the scale and each of them are within their limits.
pub(crate) fn numbers(alloc: Global, game: &Value) -> Result<Option<Numbers>, OutOfMemory>
    ensures none { IfOk result (λ o. IfNone o (are_costs (bankruptcy_values (view game.now)) ≡ false)) }
    ensures within { IfOk result (λ o. IfSome o (λ n. are_costs (bankruptcy_values (view game.now)) ≡ true)) }
    ensures numbers { IfOk result
        (λ o. IfSome o (λ n. AreWorths (bankruptcy_values (view game.now)) n.scale n.items.items)) }
{
    let mut values = Vec::new(alloc);
    add_at(&mut values, game, "estate")?;
    add_values(&mut values, parts_at(game, "claims"))?;
    read_costs(alloc, &values)
}

/// The game that is described, by its estate and the claims behind it. It is refused if the estate is above the sum
/// of the claims.
pub(crate) fn bankruptcy_of(
    alloc: Global,
    game: &Value,
    numbers: Vec<i64>,
) -> Result<Game, TextFault>
    requires class { class_of (view game.now) ≡ Some Bankruptcy }
    requires sizes { HasSizes (view game.now) }
    requires numbers { numbers.items ≡ own_numbers (view game.now) }
    ensures { MatchResult result (IsBuilt (view game.now)) (IsBuildFault (view game.now)) }
{
    let mut claims = numbers;
    let estate = claims.remove(0);
    match BankruptcyGame::new(alloc, estate, claims) {
        Ok(game) => {
            // Its laws say that the claims cover the estate.
            game.estate();
            Ok(Game::Bankruptcy(game))
        }
        Err(BankruptcyFault::Players) => Err(TextFault::Refused(Refusal::Players)),
        Err(BankruptcyFault::Number) => Err(TextFault::Refused(Refusal::Number)),
        Err(BankruptcyFault::Estate) => Err(TextFault::Refused(Refusal::Estate)),
        Err(BankruptcyFault::Memory) => Err(TextFault::Memory),
    }
}
