//! The version of a game. In version 2 a number may be written as a fraction text.
ghost use Rattle.std.specs.Prelude.{◌≡◌, codes, Some, None, if◌then◌else◌};
ghost use Rattle.serde_json.specs.View.{view};
ghost use Rattle.serde_json.specs.Find.{get};
ghost use Rattle.json_trees.specs.Trees.{passes_if_there};
ghost use Rattle.document_parts.specs.Version.{is_version, is_second_version, has_texts};

use json_trees::integer;
use serde_json::Value;

/// Whether numbers may be texts in this version. None if it is neither the integer 1 nor 2.
fn version_has_texts(version: &Value) -> Option<bool>
    ensures { result
        ≡ (if is_version (view version.now) then Some (is_second_version (view version.now)) else None) }
{
    let number = integer(version)?;
    if number == 1 || number == 2 {
        Some(number == 2)
    } else {
        None
    }
}

/// Returns whether a number of the game may be a text, as in version 2; a game without a version is of version 1.
/// Returns none if the version is neither the integer 1 nor 2.
pub fn has_texts(game: &Value) -> Option<bool>
    ensures { result ≡ (if passes_if_there is_version (get (codes "version") (view game.now))
        then Some (has_texts (view game.now)) else None) }
{
    match game.get("version") {
        Some(version) => version_has_texts(version),
        None => Some(false),
    }
}
