//! The numbers of a game, each read once, times the scale: the least common denominator of all.
ghost use Rattle.std.specs.Prelude.{◌≡◌, ◌<◌, ◌≤◌, pos, ◌≤ℤ◌, unsigned_abs, IfSome, ◌*ℤ◌, Some, option_map};
ghost use Rattle.std.specs.Prelude.{option_and_then, true, false, map, IfOk, IfNone};
ghost use Rattle.document_parts.specs.CommonMultiples.{lcm};
ghost use Rattle.document_parts.specs.Scales.{if_scale};
ghost use Rattle.serde_json.specs.View.{view};
ghost use Rattle.fractions.specs.FractionTexts.{parsed};
ghost use Rattle.json_trees.specs.Fractions.{fraction_of};
ghost use Rattle.json_trees.specs.Trees.{integer};
ghost use Rattle.worth_core.specs.LeastDenominators.{numerator_over};
ghost use Rattle.document_parts.specs.ScaledNumbers.{if_small, is_small};
ghost use Rattle.document_parts.specs.Numbers.{with_fraction, seen, are_worths, are_costs, AreWorths};
ghost use Rattle.std.specs.List.{list_all};
ghost use Rattle.document_parts.specs.Signs.{is_from_zero};

use fractions::{Frac, OutOfMemory, gcd};
use json_trees::integer;
use serde_json::Value;
use std::alloc::Global;

/// The most that the scale of a game may be.
const GREATEST: u128 = 65_536;

/// The least common multiple of a scale and a denominator, if it is within the limit.
fn common_scale(scale: u32, den: i128) -> Option<u32>
    requires some { 0 < scale }
    requires few { scale ≤ 65536 }
    requires positive { pos 1 ≤ℤ den }
    ensures value { result ≡ if_scale (lcm scale (unsigned_abs den)) }
    ensures range { IfSome result (λ k. (0 < k) × (k ≤ 65536)) }
{
    let den = den.unsigned_abs();
    if den > GREATEST {
        return None;
    }
    // Most denominators divide the scale that those before them made.
    if scale % (den as u32) == 0 {
        return Some(scale);
    }
    let scale = u128::from(scale);
    let multiple = scale * (den / gcd(scale, den));
    if multiple > GREATEST {
        return None;
    }
    Some(multiple as u32)
}

fn times_scale(number: &Frac, scale: u32) -> Option<i64>
    ensures { result ≡ if_small (Some (numerator_over (pos scale) number.now)) }
{
    let num = number.num().checked_mul(i128::from(scale) / number.den())?;
    if num.unsigned_abs() >= 1 << 40 {
        return None;
    }
    Some(num as i64)
}

/// A number times a scale or a factor, if it is below 2^40 in size.
fn whole_times_scale(number: i64, scale: u32) -> Option<i64>
    ensures { result ≡ if_small (Some (number *ℤ pos scale)) }
{
    let product = number.checked_mul(i64::from(scale))?;
    if product.unsigned_abs() >= 1 << 40 {
        return None;
    }
    Some(product)
}

/// The least common multiple of the scale and the denominator of the number that a text writes, and the number times
/// it. It stands apart from the integers, which are many in a table.
#[inline(never)]
fn text_with_scale(text: &str, scale: u32) -> Option<(u32, i64)>
    requires some { 0 < scale }
    requires few { scale ≤ 65536 }
    ensures value { result ≡ option_and_then (with_fraction scale) (parsed text.now) }
    ensures range { IfSome result (λ r. (0 < r.0) × (r.0 ≤ 65536)) }
{
    let number = Frac::parse(text.as_bytes())?;
    let common = common_scale(scale, number.den())?;
    let product = times_scale(&number, common)?;
    Some((common, product))
}

/// The scale, into which the denominator of an integer goes, and the integer times it.
fn whole_with_scale(value: &Value, scale: u32) -> Option<(u32, i64)>
    ensures value { result ≡ option_map (λ y. (scale, y))
        (option_and_then (λ z. if_small (Some (z *ℤ pos scale))) (integer (view value.now))) }
    ensures same { IfSome result (λ r. r.0 ≡ scale) }
{
    let number = integer(value)?;
    let product = whole_times_scale(number, scale)?;
    Some((scale, product))
}

/// The least common multiple of the scale and the denominator of a number, and the number times it. None unless the
/// multiple is at most 65,536 and the product is below 2^40 in size.
fn with_scale(value: &Value, scale: u32) -> Option<(u32, i64)>
    requires some { 0 < scale }
    requires few { scale ≤ 65536 }
    ensures value { result ≡ option_and_then (with_fraction scale) (fraction_of (view value.now)) }
    ensures range { IfSome result (λ r. (0 < r.0) × (r.0 ≤ 65536)) }
{
    match value.as_str() {
        Some(text) => text_with_scale(text, scale),
        None => whole_with_scale(value, scale),
    }
}

/// Numbers times their scale.
#[derive(Debug, Drop)]
pub struct Numbers {
    /// Their scale, the least common denominator.
    pub scale: u32,
    /// Each number times the scale.
    pub items: Vec<i64>,
}

/// Multiplies each number by the factor, and says whether all of them stay below 2^40 in size.
fn raise(numbers: &mut Vec<i64>, factor: u32) -> bool
    requires { list_all is_small numbers.old.items ≡ true }
    ensures kept { result ≡ list_all (λ z. is_small (z *ℤ pos factor)) numbers.old.items }
    ensures numbers { result ≡ true → numbers.new.items ≡ map (λ z. z *ℤ pos factor) numbers.old.items }
{
    if factor == 1 {
        return true;
    }
    for i in 0..numbers.len() {
        let Some(product) = whole_times_scale(numbers[i], factor) else {
            return false;
        };
        numbers[i] = product;
    }
    true
}

/// Returns the numbers that the values write, times their scale. Returns none if the scale is above 65,536, or a number
/// times it reaches 2^40 in size.
///
/// Each text is parsed once: the numbers before it are over their own scale, and are multiplied when a denominator
/// makes the scale grow, at most 16 times.
/// So no list of fractions is kept beside that of the numbers, and integers, of which a table has up to 65,535, take
/// one pass.
///
/// # Errors
///
/// If memory runs out.
pub fn read_worths(alloc: Global, values: &[&Value]) -> Result<Option<Numbers>, OutOfMemory>
    ensures none { IfOk result (λ o. IfNone o (are_worths (seen values.now) ≡ false)) }
    ensures within { IfOk result (λ o. IfSome o (λ n. are_worths (seen values.now) ≡ true)) }
    ensures numbers { IfOk result (λ o. IfSome o (λ n. AreWorths (seen values.now) n.scale n.items.items)) }
{
    let mut scale = 1;
    let mut items = Vec::with_capacity(alloc, values.len())?;
    for value in values {
        let Some((common, number)) = with_scale(value, scale) else {
            return Ok(None);
        };
        if !raise(&mut items, common / scale) {
            return Ok(None);
        }
        items.push(number)?;
        scale = common;
    }
    Ok(Some(Numbers { scale, items }))
}

fn are_from_zero(numbers: &[i64]) -> bool
    ensures { result ≡ list_all is_from_zero numbers.now }
{
    numbers.iter().all(|z| *z >= 0)
}

/// Returns the numbers that the values write, times their scale. Returns none if the scale is above 65,536, or a number
/// times it is negative or reaches 2^40.
///
/// # Errors
///
/// If memory runs out.
pub fn read_costs(alloc: Global, values: &[&Value]) -> Result<Option<Numbers>, OutOfMemory>
    ensures none { IfOk result (λ o. IfNone o (are_costs (seen values.now) ≡ false)) }
    ensures within { IfOk result (λ o. IfSome o (λ n. are_costs (seen values.now) ≡ true)) }
    ensures numbers { IfOk result (λ o. IfSome o (λ n. AreWorths (seen values.now) n.scale n.items.items)) }
{
    let Some(numbers) = read_worths(alloc, values)? else {
        return Ok(None);
    };
    if !are_from_zero(&numbers.items) {
        return Ok(None);
    }
    Ok(Some(numbers))
}
