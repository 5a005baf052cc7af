//! The names of the players.
ghost use Rattle.std.specs.Prelude.{◌≡◌, ◌<◌, ◌≤◌, Some, None, IfOk, IfSome};
ghost use Rattle.std.specs.Prelude.{true, not, ◌&&◌, if◌then◌else◌};
ghost use Rattle.std.specs.Prelude.{[], ◌∷◌, ◌++◌, codes, length, map, position};
ghost use Rattle.std.specs.Str.{bytes_eq};
ghost use Rattle.serde_json.specs.View.{view};
ghost use Rattle.std.specs.List.{list_all};
ghost use Rattle.serde_json.specs.Find.{get, as_str};
ghost use Rattle.json_trees.specs.Trees.{parts_at, pair_members, text_of};
ghost use Rattle.document_parts.specs.Names.{texts, is_name, good_names, are_names, names_of, is_known, are_known};
ghost use Rattle.json_trees.specs.Keys.{is_among};

use fractions::OutOfMemory;
use indexmap::IndexSet;
use json_trees::{pair_members, parts, parts_at, text};
use serde_json::Value;
use std::alloc::Global;
use std::marker::Model;

/// The names of the players, in the order of the players.
#[derive(Drop)]
pub struct Names<'a> {
    set: IndexSet<&'a str>,
}

impl<'a> Model for Names<'a> {
    ghost use Rattle.std.specs.Prelude.{ℕ, List, map};

    ghost Value = { List (List ℕ) };

    ghost view = { λ n. map (λ k. k.now) n.set.keys };
}

impl<'a> Names<'a> {
    /// No names.
    pub(crate) fn new(alloc: Global) -> Names<'a>
        ensures { result ≡ [] }
    {
        Names {
            set: IndexSet::new(alloc),
        }
    }

    /// Adds the name, and says whether it is a new one.
    pub(crate) fn insert(&mut self, name: &'a str) -> Result<bool, OutOfMemory>
        ensures added { IfOk result (λ b. b ≡ not (is_among self.old name.now)) }
        ensures names { IfOk result (λ b. self.new ≡ (if b then self.old ++ name.now ∷ [] else self.old)) }
    {
        let added = self.set.insert(name)?;
        Ok(added)
    }

    /// The place of the name, from 0.
    pub(crate) fn place(&self, name: &str) -> Option<usize>
        ensures place { result ≡ position (bytes_eq name.now) self.now }
        ensures within { IfSome result (λ i. i < length self.now) }
    {
        self.set.get_index_of(name)
    }

    /// Whether it is one of the names.
    pub(crate) fn contains(&self, name: &str) -> bool
        ensures { result ≡ is_among self.now name.now }
    {
        self.set.contains(name)
    }
}

/// Whether it has 1 to 64 bytes.
fn is_name(name: &str) -> bool
    ensures { result ≡ is_name name.now }
{
    !name.is_empty() && name.len() <= 64
}

/// Adds the text of the value if it is a name and a new one. Returns whether it is.
fn add_name<'a>(names: &mut Names<'a>, value: &'a Value) -> Result<bool, OutOfMemory>
    ensures added { IfOk result
        (λ b. b ≡ (is_name (text_of (view value.now)) && not (is_among names.old (text_of (view value.now))))) }
    ensures names { IfOk result
        (λ b. names.new ≡ (if b then names.old ++ text_of (view value.now) ∷ [] else names.old)) }
{
    let name = text(value);
    if !is_name(name) {
        return Ok(false);
    }
    names.insert(name)
}

/// Adds the texts up to the first that is no name or no new one, and says whether all are added.
fn add_names<'a>(names: &mut Names<'a>, values: &'a [Value]) -> Result<bool, OutOfMemory>
    requires { names.old ≡ [] }
    ensures good { IfOk result (λ b. b ≡ good_names (texts values.now)) }
    ensures names { IfOk result (λ b. b ≡ true → names.new ≡ texts values.now) }
{
    for value in values {
        if !add_name(names, value)? {
            return Ok(false);
        }
    }
    Ok(true)
}

/// The texts as names, if each is a name and no two are alike.
fn read_names<'a>(alloc: Global, values: &'a [Value]) -> Result<Option<Names<'a>>, OutOfMemory>
    ensures { IfOk result (λ o. o ≡ (if good_names (texts values.now) then Some (texts values.now) else None)) }
{
    let mut names = Names::new(alloc);
    if !add_names(&mut names, values)? {
        return Ok(None);
    }
    Ok(Some(names))
}

/// Returns the names of a game of `players` players, and no names if the game gives none. Returns none if there isn't
/// one name for each player.
///
/// # Errors
///
/// If memory runs out.
pub fn names_of<'a>(
    alloc: Global,
    game: &'a Value,
    players: usize,
) -> Result<Option<Names<'a>>, OutOfMemory>
    ensures few { IfOk result (λ o. IfSome o (λ names. length names ≤ players)) }
    ensures names { IfOk result
        (λ o. o ≡ (if are_names players (get (codes "names") (view game.now)) (names_of (view game.now))
        then Some (names_of (view game.now)) else None)) }
{
    let Some(value) = game.get("names") else {
        return Ok(Some(Names::new(alloc)));
    };
    let values = parts(value);
    if values.len() != players {
        return Ok(None);
    }
    read_names(alloc, values)
}

fn is_known(names: &Names, member: &Value) -> bool
    ensures { result ≡ is_known names.now (as_str (view member.now)) }
{
    match member.as_str() {
        Some(name) => names.contains(name),
        None => true,
    }
}

fn know_members(names: &Names, members: &[Value]) -> bool
    ensures { result ≡ list_all (λ v. is_known names.now (as_str (view v))) members.now }
{
    members.iter().all(|v| is_known(names, v))
}

#[tactic(auto, using(json_trees::proofs::Values::all_views))]
fn are_known(names: &Names, pair: &Value) -> bool
    ensures { result ≡ are_known names.now (view pair.now) }
{
    know_members(names, pair_members(pair))
}

fn know_pairs(names: &Names, pairs: &[Value]) -> bool
    ensures { result ≡ list_all (λ v. are_known names.now (view v)) pairs.now }
{
    pairs.iter().all(|v| are_known(names, v))
}

/// Returns whether each member of a sparse coalition that is a text is among the names.
#[tactic(auto, using(json_trees::proofs::Values::all_views))]
pub fn know_sparse(names: &Names, game: &Value) -> bool
    ensures { result ≡ list_all (are_known names.now) (parts_at (codes "sparse") (view game.now)) }
{
    know_pairs(names, parts_at(game, "sparse"))
}
