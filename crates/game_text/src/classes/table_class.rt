//! Tables of worths and of costs: a number for each coalition, all listed or some in pairs.
ghost use Rattle.std.specs.Prelude.{◌≡◌, true, false, Some, None, MatchResult, IfOk, IfSome, IfNone, if◌then◌else◌};
ghost use Rattle.std.specs.Prelude.{◌^◌, ◌<◌, ◌≤◌, codes, length, map, option_map, unwrap_or};
ghost use Rattle.serde_json.specs.Find.{get};
ghost use Rattle.serde_json.specs.View.{view};
ghost use Rattle.json_trees.specs.Trees.{passes, is_array_of};
ghost use Rattle.worth_tables.specs.Tables.{table};
ghost use Rattle.document_parts.specs.Version.{has_texts};
ghost use Rattle.document_parts.specs.Numbers.{are_worths, AreWorths};
ghost use Rattle.document_parts.specs.Scales.{scale_of, table_numbers_in};
ghost use Rattle.document_parts.specs.ScaledNumbers.{number_or_zero};
ghost use Rattle.document_parts.specs.TableNumbers.{masks_by, numbers_by};
ghost use Rattle.game_text.specs.Classes.{class_of, players, masks, table_numbers, own_numbers};
ghost use Rattle.document_parts.specs.Names.{names_of};
ghost use Rattle.document_parts.specs.Members.{are_coalitions};
ghost use Rattle.game_text.specs.Readings.{HasSizes, IsTableClass, IsBuilt, IsBuildFault};
ghost use Rattle.game_text.specs.Classes.TableClass.{is_table_shaped, is_sparse_pair, lists_worths, lists_coalitions};
ghost use Rattle.game_text.specs.Classes.TableClass.{players_at, table_players, has_items, has_worths_for};
ghost use Rattle.game_text.specs.Classes.TableClass.{has_table_players};
ghost use Rattle.game_text.specs.declared.classes.Class.TheVariants.{Table, Cost};
ghost use Rattle.game_text.specs.declared.document.TextFault.TheVariants.{Memory};

use crate::classes::Game;
use crate::document::TextFault;
use document_parts::{
    Names, Numbers, add_at, add_seconds, add_values, read_worths, sparse_numbers,
};
use fractions::OutOfMemory;
use json_trees::{
    ArrayOf, Member, Number, Numeric, PairOf, has, has_if_there, has_only_keys, integer, parts,
    parts_at,
};
use kinds::Refusal;
use serde_json::Value;
use std::alloc::Global;
use worth_tables::{CostGame, TableFault, TableGame};

fn lists_worths(game: &Value, texts: bool) -> bool
    requires { texts ≡ has_texts (view game.now) }
    ensures { result ≡ lists_worths (view game.now) }
{
    has(game, "worths", &ArrayOf(Numeric { texts }))
        && game.get("sparse").is_none()
        && game.get("default").is_none()
}

// Whether there are pairs of a coalition and a number, which may be a text if texts are allowed.
fn lists_pairs(game: &Value, texts: bool) -> bool
    ensures { result ≡ passes (is_array_of (is_sparse_pair texts)) (get (codes "sparse") (view game.now)) }
{
    has(
        game,
        "sparse",
        &ArrayOf(PairOf(ArrayOf(Member), Numeric { texts })),
    )
}

fn lists_coalitions(game: &Value, texts: bool) -> bool
    requires { texts ≡ has_texts (view game.now) }
    ensures { result ≡ lists_coalitions (view game.now) }
{
    lists_pairs(game, texts)
        && game.get("worths").is_none()
        && has_if_there(game, "default", &Numeric { texts })
}

/// Whether it has the keys and kinds of a table.
pub(crate) fn is_shaped(game: &Value, texts: bool) -> bool
    requires { texts ≡ has_texts (view game.now) }
    ensures { result ≡ is_table_shaped (view game.now) }
{
    has_only_keys(
        &[
            "class", "default", "excess", "names", "players", "sparse", "version", "worths",
        ],
        game,
    ) && has(game, "players", &Number)
        && (lists_worths(game, texts) || lists_coalitions(game, texts))
}

/// The number of players of a table, from 1 to 16.
fn table_players(n: i64) -> Option<u32>
    ensures value { result ≡ table_players n }
    ensures range { IfSome result (λ n. (0 < n) × (n ≤ 16)) }
{
    if 0 < n && n <= 16 {
        Some(n as u32)
    } else {
        None
    }
}

/// The number of players that a table says it has, if it is 1 to 16.
fn players_at(game: &Value) -> Option<u32>
    ensures value { result ≡ players_at (view game.now) }
    ensures range { IfSome result (λ n. (0 < n) × (n ≤ 16)) }
{
    let n = game.get("players").and_then(|v| integer(v))?;
    table_players(n)
}

fn has_items(value: &Value, n: usize) -> bool
    requires { n < 2 ^ 20 }
    ensures { result ≡ has_items n (view value.now) }
{
    parts(value).len() + 1 == n
}

/// Whether there is a number for each coalition of `n` players, unless only some are listed.
fn has_worths_for(game: &Value, n: u32) -> bool
    requires { n ≤ 16 }
    ensures { result ≡ has_worths_for (view game.now) (Some n) }
{
    match game.get("worths") {
        Some(worths) => has_items(worths, 1 << n),
        None => true,
    }
}

/// The number of players. None unless there are 1 to 16, and a number for each coalition or some in pairs.
pub(crate) fn players(game: &Value) -> Option<usize>
    ensures { result
        ≡ (if has_table_players (view game.now) then Some (unwrap_or (players_at (view game.now)) 0) else None) }
{
    let n = players_at(game)?;
    if has_worths_for(game, n) {
        Some(n as usize)
    } else {
        None
    }
}

/// The numbers of all coalitions, or those of the pairs and then that of all others, times their scale. None unless
/// the scale and each number are within their limits.
pub(crate) fn numbers(alloc: Global, game: &Value) -> Result<Option<Numbers>, OutOfMemory>
    ensures none { IfOk result (λ o. IfNone o (are_worths (table_numbers_in (view game.now)) ≡ false)) }
    ensures within { IfOk result (λ o. IfSome o (λ n. are_worths (table_numbers_in (view game.now)) ≡ true)) }
    ensures numbers { IfOk result
        (λ o. IfSome o (λ n. AreWorths (table_numbers_in (view game.now)) n.scale n.items.items)) }
{
    let mut values = Vec::new(alloc);
    add_values(&mut values, parts_at(game, "worths"))?;
    add_seconds(&mut values, parts_at(game, "sparse"))?;
    add_at(&mut values, game, "default")?;
    read_worths(alloc, &values)
}

/// The number of each coalition. None if a pair of a sparse table has no coalition, or two have the same.
fn table_numbers(
    alloc: Global,
    game: &Value,
    count: u32,
    names: &Names,
    numbers: Vec<i64>,
) -> Result<Option<Vec<i64>>, OutOfMemory>
    requires few { count ≤ 16 }
    requires named { length names.now ≤ count }
    requires shaped { is_table_shaped (view game.now) ≡ true }
    requires numbers { numbers.items
        ≡ map (number_or_zero (scale_of (view game.now))) (table_numbers_in (view game.now)) }
    ensures { let tree = view game.now in IfOk result
        (λ o. option_map (λ v. v.items) o ≡ (if are_coalitions (masks_by count names.now tree)
        then Some (numbers_by (scale_of tree) (get (codes "sparse") tree) count names.now tree) else None)) }
{
    match game.get("sparse") {
        Some(pairs) => sparse_numbers(alloc, count, names, parts(pairs), &numbers),
        None => Ok(Some(numbers)),
    }
}

/// The table, by its numbers. None if a pair of a sparse table has no coalition, or two have the same.
fn table_of(
    alloc: Global,
    game: &Value,
    count: usize,
    names: &Names,
    numbers: Vec<i64>,
) -> Result<Option<TableGame>, TextFault>
    requires class { IsTableClass (class_of (view game.now)) }
    requires sizes { HasSizes (view game.now) }
    requires count { count ≡ players (view game.now) }
    requires named { length names.now ≤ players (view game.now) }
    requires names { names.now ≡ names_of (view game.now) }
    requires numbers { numbers.items ≡ own_numbers (view game.now) }
    ensures { let tree = view game.now in MatchResult result
        (λ o. o ≡ (if are_coalitions (masks tree)
        then Some (table (players tree) (table_numbers (scale_of tree) tree)) else None))
        (λ e. e ≡ Memory) }
{
    let count = count as u32;
    let Some(worths) = table_numbers(alloc, game, count, names, numbers)? else {
        return Ok(None);
    };
    match TableGame::new(alloc, count, worths) {
        Ok(table) => Ok(Some(table)),
        Err(TableFault::Players) => Err(TextFault::Refused(Refusal::Players)),
        Err(TableFault::Number) => Err(TextFault::Refused(Refusal::Number)),
        Err(TableFault::Memory) => Err(TextFault::Memory),
    }
}

/// The game of a table of worths. It is refused if a pair of a sparse table has no coalition, or two have the same.
pub(crate) fn worths_of(
    alloc: Global,
    game: &Value,
    count: usize,
    names: &Names,
    numbers: Vec<i64>,
) -> Result<Game, TextFault>
    requires class { class_of (view game.now) ≡ Some Table }
    requires sizes { HasSizes (view game.now) }
    requires count { count ≡ players (view game.now) }
    requires named { length names.now ≤ players (view game.now) }
    requires names { names.now ≡ names_of (view game.now) }
    requires numbers { numbers.items ≡ own_numbers (view game.now) }
    ensures { MatchResult result (IsBuilt (view game.now)) (IsBuildFault (view game.now)) }
{
    let Some(worths) = table_of(alloc, game, count, names, numbers)? else {
        return Err(TextFault::Refused(Refusal::Coalition));
    };
    Ok(Game::Table(worths))
}

/// The game of a table of costs. It is refused if a pair of a sparse table has no coalition, or two have the same.
pub(crate) fn costs_of(
    alloc: Global,
    game: &Value,
    count: usize,
    names: &Names,
    numbers: Vec<i64>,
) -> Result<Game, TextFault>
    requires class { class_of (view game.now) ≡ Some Cost }
    requires sizes { HasSizes (view game.now) }
    requires count { count ≡ players (view game.now) }
    requires named { length names.now ≤ players (view game.now) }
    requires names { names.now ≡ names_of (view game.now) }
    requires numbers { numbers.items ≡ own_numbers (view game.now) }
    ensures { MatchResult result (IsBuilt (view game.now)) (IsBuildFault (view game.now)) }
{
    let Some(costs) = table_of(alloc, game, count, names, numbers)? else {
        return Err(TextFault::Refused(Refusal::Coalition));
    };
    Ok(Game::Cost(CostGame::new(costs)))
}
