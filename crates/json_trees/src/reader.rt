//! What JSON trees of a form describe: of one tree, and of a list.
ghost use Rattle.std.specs.Prelude.{◌≡◌, Bool, IfOk, Some, None, map, option_map, if◌then◌else◌};
ghost use Rattle.std.specs.List.{list_all};
ghost use Rattle.serde_json.specs.Data.{Data};
ghost use Rattle.serde_json.specs.View.{view};
ghost use Rattle.json_trees.specs.Trees.{parts_at};

use crate::looking::parts_at;
use fractions::OutOfMemory;
use serde_json::Value;
use std::alloc::Global;

/// Reads what a JSON tree of a form describes.
pub trait Reader {
    /// What is described.
    type Item: Drop;

    /// The form.
    ghost form: { Self → Data → Bool };

    /// What a tree of that form describes.
    ghost described: { Self → Data → Self.Item };

    /// Returns what the tree describes, and none exactly if it doesn't have the form.
    ///
    /// # Errors
    ///
    /// If memory runs out.
    fn read(&self, alloc: Global, tree: &Value) -> Result<Option<Self::Item>, OutOfMemory>
        ensures { IfOk result (λ o. o ≡
            (if form self.now (view tree.now) then Some (described self.now (view tree.now)) else None)) };
}

/// What all these trees describe. None exactly when one of them doesn't have the form.
fn read_all<R: Reader>(
    alloc: Global,
    reader: &R,
    trees: &[Value],
) -> Result<Option<Vec<R::Item>>, OutOfMemory>
    ensures { IfOk result (λ o. option_map (λ v. v.items) o ≡
        (if list_all (R.form reader.now) (map view trees.now)
        then Some (map (R.described reader.now) (map view trees.now)) else None)) }
{
    let mut found = Vec::new(alloc);
    for tree in trees {
        let Some(item) = reader.read(alloc, tree)? else {
            return Ok(None);
        };
        found.push(item)?;
    }
    Ok(Some(found))
}

/// Returns what the items of the array at a key describe. Returns none exactly if one of them doesn't have the form.
///
/// # Errors
///
/// If memory runs out.
pub fn read_at<R: Reader>(
    alloc: Global,
    reader: &R,
    tree: &Value,
    key: &str,
) -> Result<Option<Vec<R::Item>>, OutOfMemory>
    ensures { IfOk result (λ o. option_map (λ v. v.items) o ≡
        (if list_all (R.form reader.now) (parts_at key.now (view tree.now))
        then Some (map (R.described reader.now) (parts_at key.now (view tree.now))) else None)) }
{
    read_all(alloc, reader, parts_at(tree, key))
}
