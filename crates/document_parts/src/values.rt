//! The values of a game that are its numbers, one after another, as they stand in its tree; and numbers in rows again.
ghost use Rattle.std.specs.Prelude.{◌≡◌, ◌++◌, map, IfOk, ◌≤◌, length};
ghost use Rattle.serde_json.specs.View.{view};
ghost use Rattle.serde_json.specs.Find.{get};
ghost use Rattle.json_trees.specs.Trees.{parts};
ghost use Rattle.document_parts.specs.Scales.{if_there, pair_number, all_parts};
ghost use Rattle.document_parts.specs.Numbers.{seen, in_rows};

use fractions::OutOfMemory;
use json_trees::parts;
use serde_json::Value;
use std::alloc::Global;

/// Adds the value at a key, if there is one.
///
/// # Errors
///
/// If memory runs out.
pub fn add_at<'a>(
    values: &mut Vec<&'a Value>,
    game: &'a Value,
    key: &str,
) -> Result<(), OutOfMemory>
    ensures { IfOk result
        (λ _. seen values.new.items ≡ seen values.old.items ++ if_there (get key.now (view game.now))) }
{
    if let Some(value) = game.get(key) {
        values.push(value)?;
    }
    Ok(())
}

/// Adds each of the values.
///
/// # Errors
///
/// If memory runs out.
pub fn add_values<'a>(values: &mut Vec<&'a Value>, more: &'a [Value]) -> Result<(), OutOfMemory>
    ensures { IfOk result (λ _. seen values.new.items ≡ seen values.old.items ++ map view more.now) }
{
    for value in more {
        values.push(value)?;
    }
    Ok(())
}

/// Adds the second item of a pair.
fn add_second<'a>(values: &mut Vec<&'a Value>, pair: &'a Value) -> Result<(), OutOfMemory>
    ensures { IfOk result
        (λ _. seen values.new.items ≡ seen values.old.items ++ pair_number (view pair.now)) }
{
    if let [_, number] = parts(pair) {
        values.push(number)?;
    }
    Ok(())
}

/// Adds the number of each pair of a coalition and a number.
///
/// # Errors
///
/// If memory runs out.
pub fn add_seconds<'a>(values: &mut Vec<&'a Value>, pairs: &'a [Value]) -> Result<(), OutOfMemory>
    ensures { IfOk result
        (λ _. seen values.new.items ≡ seen values.old.items ++ all_parts pair_number (map view pairs.now)) }
{
    for pair in pairs {
        add_second(values, pair)?;
    }
    Ok(())
}

/// Adds the items of each row.
///
/// # Errors
///
/// If memory runs out.
pub fn add_rows<'a>(values: &mut Vec<&'a Value>, rows: &'a [Value]) -> Result<(), OutOfMemory>
    ensures { IfOk result
        (λ _. seen values.new.items ≡ seen values.old.items ++ all_parts parts (map view rows.now)) }
{
    for row in rows {
        add_values(values, parts(row))?;
    }
    Ok(())
}

/// Returns numbers that are listed row by row as rows, each as long as its array.
///
/// # Errors
///
/// If memory runs out.
pub fn in_rows(
    alloc: Global,
    arrays: &[Value],
    numbers: &[i64],
) -> Result<Vec<Vec<i64>>, OutOfMemory>
    requires enough { length (all_parts parts (map view arrays.now)) ≤ length numbers.now }
    ensures { IfOk result (λ v. map (λ row. row.items) v.items ≡ in_rows (map view arrays.now) numbers.now) }
{
    let mut rows = Vec::new(alloc);
    let mut from = 0;
    for array in arrays {
        let to = from + parts(array).len();
        rows.push(Vec::from_slice(alloc, &numbers[from..to])?)?;
        from = to;
    }
    Ok(rows)
}
