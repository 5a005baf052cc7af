//! JSON objects, member by member; pairs, and lists of what has weights.
ghost use Rattle.std.specs.Prelude.{◌≡◌, codes, IfOk, map};
ghost use Rattle.serde_json.specs.Data.{put as with_member, string, array, item, no_items, member, no_members, Data};
ghost use Rattle.serde_json.specs.View.{view, members_view, items_of};
ghost use Rattle.report.specs.Limits.{IsFine};
ghost use Rattle.report.specs.ShareLists.{share_list};
ghost use Rattle.report.specs.Values.{scaled_data, integer_data, player_numbers};
ghost use Rattle.std.specs.List.{AllByRecursion};
ghost use Rattle.definitions.specs.Certificates.{IsSmall};
ghost use Rattle.report.specs.Certificates.{weight_data, weight_pair};

use crate::values::{Scale, integer_value, player_numbers, player_value, share_texts, value_over};
use coalitions::Coalition;
use fractions::{Frac, OutOfMemory};
use serde_json::{Map, Value, put};
use std::alloc::Global;
use worth_core::Shares;

/// The first member of most answers, the word for what is answered.
pub(crate) fn with_answer(alloc: Global, word: &str) -> Result<Map<String, Value>, OutOfMemory>
    ensures { IfOk result (λ m. members_view m.entries ≡ member (codes "answer") (string word.now) no_members) }
{
    with_text(alloc, Map::new(alloc), "answer", word)
}

/// The members, with this one at its key.
pub(crate) fn with(
    alloc: Global,
    members: Map<String, Value>,
    key: &str,
    value: Value,
) -> Result<Map<String, Value>, OutOfMemory>
    ensures { IfOk result
        (λ m. members_view m.entries ≡ with_member key.now (view value) (members_view members.entries)) }
{
    let mut members = members;
    put(&mut members, alloc, key, value)?;
    Ok(members)
}

/// The members, with this text at its key.
pub(crate) fn with_text(
    alloc: Global,
    members: Map<String, Value>,
    key: &str,
    text: &str,
) -> Result<Map<String, Value>, OutOfMemory>
    ensures { IfOk result
        (λ m. members_view m.entries ≡ with_member key.now (string text.now) (members_view members.entries)) }
{
    let value = Value::try_from_str(alloc, text)?;
    with(alloc, members, key, value)
}

/// The members, with the text of a number over the scale at its key.
pub(crate) fn with_value(
    alloc: Global,
    members: Map<String, Value>,
    key: &str,
    value: &Frac,
    scale: Scale,
) -> Result<Map<String, Value>, OutOfMemory>
    requires { IsFine value.now.den }
    ensures { IfOk result
        (λ m. members_view m.entries
        ≡ with_member key.now (scaled_data scale value.now) (members_view members.entries)) }
{
    let value = value_over(alloc, value, scale)?;
    with(alloc, members, key, value)
}

/// The members, with the text of an integer over the scale at its key.
pub(crate) fn with_integer(
    alloc: Global,
    members: Map<String, Value>,
    key: &str,
    value: i128,
    scale: Scale,
) -> Result<Map<String, Value>, OutOfMemory>
    ensures { IfOk result
        (λ m. members_view m.entries
        ≡ with_member key.now (integer_data scale value) (members_view members.entries)) }
{
    let value = integer_value(alloc, value, scale)?;
    with(alloc, members, key, value)
}

/// The members, with the list of shares over the scale at its key, or of payments if the game is one of costs.
pub(crate) fn with_shares(
    alloc: Global,
    members: Map<String, Value>,
    key: &str,
    shares: &Shares,
    is_cost: bool,
    scale: Scale,
) -> Result<Map<String, Value>, OutOfMemory>
    ensures { IfOk result
        (λ m. members_view m.entries
        ≡ with_member key.now (share_list scale is_cost shares.now) (members_view members.entries)) }
{
    let texts = share_texts(alloc, shares, is_cost, scale)?;
    with(alloc, members, key, Value::Array(texts))
}

/// The members, with the list of a coalition's players at its key.
pub(crate) fn with_coalition(
    alloc: Global,
    members: Map<String, Value>,
    key: &str,
    coalition: Coalition,
) -> Result<Map<String, Value>, OutOfMemory>
    ensures { IfOk result
        (λ m. members_view m.entries
        ≡ with_member key.now (player_numbers coalition) (members_view members.entries)) }
{
    let players = player_numbers(alloc, coalition)?;
    with(alloc, members, key, Value::Array(players))
}

/// The members, with the list of what has weights, each with its weight, at its key.
pub(crate) fn with_weights<K: Weighted>(
    alloc: Global,
    members: Map<String, Value>,
    key: &str,
    pairs: &[(K, i128)],
) -> Result<Map<String, Value>, OutOfMemory>
    requires { AllByRecursion (λ p. IsSmall p.1) pairs.now }
    ensures { IfOk result (λ m. members_view m.entries ≡
        with_member key.now (array (items_of (map (weight_pair K.tree) pairs.now))) (members_view members.entries)) }
{
    let list = weight_list(alloc, pairs)?;
    with(alloc, members, key, list)
}

/// What has weights, each with its weight, as one value.
fn weight_list<K: Weighted>(alloc: Global, pairs: &[(K, i128)]) -> Result<Value, OutOfMemory>
    requires { AllByRecursion (λ p. IsSmall p.1) pairs.now }
    ensures { IfOk result (λ v. view v ≡ array (items_of (map (weight_pair K.tree) pairs.now))) }
{
    let trees = weight_pairs(alloc, pairs)?;
    Ok(Value::Array(trees))
}

/// What has weights, each with its weight.
fn weight_pairs<K: Weighted>(alloc: Global, pairs: &[(K, i128)]) -> Result<Vec<Value>, OutOfMemory>
    requires { AllByRecursion (λ p. IsSmall p.1) pairs.now }
    ensures { IfOk result (λ v. map view v.items ≡ map (weight_pair K.tree) pairs.now) }
{
    let mut trees = Vec::new(alloc);
    for (key, weight) in pairs {
        trees.push(weight_pair(alloc, key, *weight)?)?;
    }
    Ok(trees)
}

fn weight_pair<K: Weighted>(alloc: Global, key: &K, weight: i128) -> Result<Value, OutOfMemory>
    requires { IsSmall weight }
    ensures { IfOk result (λ v. view v ≡ weight_pair K.tree (key.now, weight)) }
{
    let key = key.value(alloc)?;
    pair(alloc, key, weight_value(weight))
}

/// A weight, or a total.
pub(crate) fn weight_value(weight: i128) -> Value
    requires { IsSmall weight }
    ensures { view result ≡ weight_data weight }
{
    Value::from(weight as i64)
}

/// What has a weight: a coalition, or a player for its bound.
pub(crate) trait Weighted {
    /// Its JSON.
    ghost tree: { Self → Data };

    /// Its JSON.
    fn value(&self, alloc: Global) -> Result<Value, OutOfMemory>
        ensures { IfOk result (λ v. view v ≡ Self.tree self.now) };
}

impl Weighted for Coalition {
    ghost use Rattle.report.specs.Values.{player_numbers};

    ghost tree = { player_numbers };

    fn value(&self, alloc: Global) -> Result<Value, OutOfMemory> {
        let players = player_numbers(alloc, *self)?;
        Ok(Value::Array(players))
    }
}

impl Weighted for u32 {
    ghost use Rattle.report.specs.Values.{player_data};

    ghost tree = { player_data };

    fn value(&self, _alloc: Global) -> Result<Value, OutOfMemory> {
        Ok(player_value(*self))
    }
}

/// The list of two values.
pub(crate) fn pair(alloc: Global, first: Value, second: Value) -> Result<Value, OutOfMemory>
    ensures { IfOk result (λ v. view v ≡ array (item (view first) (item (view second) no_items))) }
{
    let items = vec![in alloc; first, second]?;
    Ok(Value::Array(items))
}
