//! Games by a matrix: rows of numbers.
ghost use Rattle.std.specs.Prelude.{◌≡◌, codes, true, false, IfOk, IfSome, IfNone};
ghost use Rattle.serde_json.specs.Find.{get};
ghost use Rattle.serde_json.specs.View.{view};
ghost use Rattle.json_trees.specs.Trees.{passes, is_array_of, is_numeric};
ghost use Rattle.document_parts.specs.Version.{has_texts};
ghost use Rattle.document_parts.specs.Scales.{matrix_numbers_in};
ghost use Rattle.document_parts.specs.Numbers.{are_costs, AreWorths};
ghost use Rattle.game_text.specs.Classes.MatrixClass.{is_matrix_shaped};

use document_parts::{Numbers, add_rows, read_costs};
use fractions::OutOfMemory;
use json_trees::{ArrayOf, Numeric, has, has_only_keys, parts_at};
use serde_json::Value;
use std::alloc::Global;

// Whether there are rows of numbers, which may be texts if texts are allowed.
fn has_rows(game: &Value, texts: bool) -> bool
    ensures { result ≡ passes (is_array_of (is_array_of (is_numeric texts))) (get (codes "matrix") (view game.now)) }
{
    has(game, "matrix", &ArrayOf(ArrayOf(Numeric { texts })))
}

/// Whether it has the keys and kinds of a game by its matrix.
pub(crate) fn is_shaped(game: &Value, texts: bool) -> bool
    requires { texts ≡ has_texts (view game.now) }
    ensures { result ≡ is_matrix_shaped (view game.now) }
{
    has_only_keys(&["class", "excess", "matrix", "names", "version"], game) && has_rows(game, texts)
}

/// The entries, row by row, times their scale, if the scale and each of them are within their limits.
pub(crate) fn numbers(alloc: Global, game: &Value) -> Result<Option<Numbers>, OutOfMemory>
    ensures none { IfOk result (λ o. IfNone o (are_costs (matrix_numbers_in (view game.now)) ≡ false)) }
    ensures within { IfOk result (λ o. IfSome o (λ n. are_costs (matrix_numbers_in (view game.now)) ≡ true)) }
    ensures numbers { IfOk result
        (λ o. IfSome o (λ n. AreWorths (matrix_numbers_in (view game.now)) n.scale n.items.items)) }
{
    let mut entries = Vec::new(alloc);
    add_rows(&mut entries, parts_at(game, "matrix"))?;
    read_costs(alloc, &entries)
}
