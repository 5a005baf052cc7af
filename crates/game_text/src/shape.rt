//! The first tests of a document: the kinds, keys and words of it, and the players and numbers of its game.
ghost use Rattle.std.specs.Prelude.{◌≡◌, ◌≤◌, codes, true, false, Some, None, IfSome, IfNone, MatchResult};
ghost use Rattle.serde_json.specs.View.{view};
ghost use Rattle.document_parts.specs.Scales.{scale_of};
ghost use Rattle.game_text.specs.Classes.{class_of, players, own_numbers, class_named, is_shaped_as};
ghost use Rattle.game_text.specs.Shape.{is_game_shaped, has_shares, has_needed, is_shaped};
ghost use Rattle.game_text.specs.Readings.{HasSizes, IsSizeFault};
ghost use Rattle.serde_json.specs.Find.{get};
ghost use Rattle.game_text.specs.Documents.{game_tree};

use crate::classes::{Class, class_named, is_shaped_as, numbers, players};
use crate::command::Command;
use crate::document::TextFault;
use certificate_texts::{CertificateShape, family_of};
use document_parts::{MeasureWord, has_texts};
use json_trees::{ArrayOf, Member, Text, has, has_if_there, has_only_keys};
use kinds::Refusal;
use serde_json::Value;
use std::alloc::Global;

/// A game with the keys and kinds of its class.
#[derive(Clone, Copy, Debug)]
pub(crate) struct ShapedGame<'a> {
    /// Its class.
    pub(crate) class: Class,
    /// Its tree.
    pub(crate) tree: &'a Value,
    ghost named: { class_of (view tree.now) ≡ Some class },
    ghost shaped: { is_game_shaped (view tree.now) ≡ true },
}

/// The class that a game names.
fn class_of(game: &Value) -> Option<Class>
    ensures { result ≡ class_of (view game.now) }
{
    let word = game.get("class").and_then(Value::as_str)?;
    class_named(word)
}

/// Whether a game that names the class has the keys and kinds of it.
fn is_game_shaped(class: Class, game: &Value) -> bool
    requires { class_of (view game.now) ≡ Some class }
    ensures { result ≡ is_game_shaped (view game.now) }
{
    let Some(texts) = has_texts(game) else {
        return false;
    };
    has_if_there(game, "names", &ArrayOf(Text))
        && has_if_there(game, "excess", &MeasureWord)
        && is_shaped_as(class, game, texts)
}

fn has_shares(tree: &Value) -> bool
    ensures { result ≡ has_shares (view tree.now) }
{
    has(tree, "shares", &ArrayOf(Member))
}

fn has_needed(command: Command, tree: &Value) -> bool
    ensures { result ≡ has_needed command (view tree.now) }
{
    let needs = command.needs();
    (!needs.shares || has_shares(tree))
        && (!needs.answer || family_of(tree).is_some())
        && (!needs.certificate || has(tree, "certificate", &CertificateShape))
}

/// Whether a document has the kinds, keys and words that the command needs. Its game names the class.
fn is_shaped(command: Command, tree: &Value, class: Class, game: &Value) -> bool
    requires there { get (codes "game") (view tree.now) ≡ Some (view game.now) }
    requires class { class_of (view game.now) ≡ Some class }
    ensures { result ≡ is_shaped command (view tree.now) }
{
    has_only_keys(&["answer", "certificate", "game", "shares"], tree)
        && is_game_shaped(class, game)
        && has_needed(command, tree)
}

/// The game of a document that has the kinds, keys and words that the command needs.
pub(crate) fn shaped_game(command: Command, tree: &Value) -> Option<ShapedGame<'_>>
    ensures none { IfNone result (is_shaped command (view tree.now) ≡ false) }
    ensures some { IfSome result
        (λ g. (is_shaped command (view tree.now) ≡ true) × (view g.tree.now ≡ game_tree (view tree.now))) }
{
    let Some(game) = tree.get("game") else {
        return None;
    };
    let Some(class) = class_of(game) else {
        return None;
    };
    if is_shaped(command, tree, class, game) {
        Some(ShapedGame { class, tree: game })
    } else {
        None
    }
}

/// A game with the keys and kinds of its class, as many players as it allows, and numbers within its limits.
#[derive(Clone, Copy, Debug)]
pub(crate) struct SizedGame<'a> {
    /// Its class.
    pub(crate) class: Class,
    /// Its tree.
    pub(crate) tree: &'a Value,
    pub(crate) count: usize,
    pub(crate) scale: u32,
    ghost named: { class_of (view tree.now) ≡ Some class },
    ghost sizes: { HasSizes (view tree.now) },
    ghost count_is: { count ≡ players (view tree.now) },
    ghost scale_is: { scale ≡ scale_of (view tree.now) },
}

/// The game and its numbers times their scale. It is refused if its class doesn't allow as many players, or
/// such numbers.
pub(crate) fn sized_game<'a>(
    alloc: Global,
    game: &ShapedGame<'a>,
) -> Result<(SizedGame<'a>, Vec<i64>), TextFault>
    ensures { let tree = view game.now.tree.now in MatchResult result
        (λ p. (view p.0.tree.now ≡ tree) × (p.1.items ≡ own_numbers tree)) (IsSizeFault tree) }
{
    let Some(count) = players(game) else {
        return Err(TextFault::Refused(Refusal::Players));
    };
    let Some(numbers) = numbers(alloc, game)? else {
        return Err(TextFault::Refused(Refusal::Number));
    };
    let sized = SizedGame {
        class: game.class,
        tree: game.tree,
        count,
        scale: numbers.scale,
    };
    Ok((sized, numbers.items))
}

impl SizedGame<'_> {
    /// The number of players.
    pub(crate) fn players(&self) -> usize
        ensures value { result ≡ players (view self.now.tree.now) }
        ensures some { 1 ≤ result }
        ensures few { result ≤ 64 }
    {
        self.count
    }

    /// The scale.
    pub(crate) fn scale(&self) -> u32
        ensures { result ≡ scale_of (view self.now.tree.now) }
    {
        self.scale
    }
}
