//! The parts of a JSON tree, and the keys of an object.

ghost use Rattle.std.specs.Prelude.{◌≡◌, map, string_bytes};
ghost use Rattle.std.specs.List.{list_all, list_any};
ghost use Rattle.std.specs.Str.{bytes_eq};
ghost use Rattle.std.specs.Map.{keys_of};
ghost use Rattle.serde_json.specs.View.{view};
ghost use Rattle.json_trees.specs.Keys.{is_among, has_only_keys, nows};
ghost use Rattle.json_trees.specs.Trees.{parts, parts_at, pair_members, text_of};

use serde_json::{Map, Value};

/// Returns the items of an array, and no items of any other value.
pub fn parts(value: &Value) -> &[Value]
    ensures { map view result.now ≡ parts (view value.now) }
{
    match value.as_array() {
        Some(items) => items,
        None => &[],
    }
}

/// Returns the items of the array at a key, and no items if it is absent.
pub fn parts_at<'a>(value: &'a Value, key: &str) -> &'a [Value]
    ensures { map view result.now ≡ parts_at key.now (view value.now) }
{
    match value.get(key) {
        Some(part) => parts(part),
        None => &[],
    }
}

/// Returns the members of the coalition of a pair of a coalition and a number.
pub fn pair_members(pair: &Value) -> &[Value]
    ensures { map view result.now ≡ pair_members (view pair.now) }
{
    match parts(pair) {
        [coalition, ..] => parts(coalition),
        [] => &[],
    }
}

/// Returns the text of a value, and none if it is no text.
pub fn text(value: &Value) -> &str
    ensures { result.now ≡ text_of (view value.now) }
{
    match value.as_str() {
        Some(text) => text,
        None => "",
    }
}

fn is_one_of(words: &[&str], text: &str) -> bool
    ensures { result ≡ list_any (λ w. bytes_eq text.now w.now) words.now }
{
    for word in words {
        if text == *word {
            return true;
        }
    }
    false
}

/// Whether the text is one of the words.
fn is_among(words: &[&str], text: &str) -> bool
    ensures { result ≡ is_among (nows words.now) text.now }
{
    is_one_of(words, text)
}

fn are_among(words: &[&str], members: &Map<String, Value>) -> bool
    ensures { result ≡ list_all (λ k. is_among (nows words.now) (string_bytes k)) (keys_of members.now.entries) }
{
    members.keys().all(|k| is_among(words, k.as_str()))
}

/// Returns whether each key of an object is one of the words. A value that is no object has no keys.
#[tactic(auto, using(crate::proofs::Values::all_keys))]
pub fn has_only_keys(words: &[&str], value: &Value) -> bool
    ensures { result ≡ has_only_keys (nows words.now) (view value.now) }
{
    match value.as_object() {
        Some(members) => are_among(words, members),
        None => true,
    }
}
