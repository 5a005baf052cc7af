//! Numbers over the scale, shares and players, as JSON.
ghost use Rattle.std.specs.Prelude.{◌≡◌, pos, unsigned_abs, ◌*ℤ◌, IfOk, ◌^◌, ◌≤ℤ◌, map};
ghost use Rattle.report.specs.Limits.{IsScale, IsFine};
ghost use Rattle.serde_json.specs.View.{view};
ghost use Rattle.json_trees.specs.LowestTerms.{in_lowest_terms};
ghost use Rattle.report.specs.Values.{fraction_data, scaled_data, integer_data, player_data};
ghost use Rattle.report.specs.ShareLists.{IsNumerator, as_printed, share_data};
ghost use Rattle.definitions.specs.Coalitions.{members};

use coalitions::Coalition;
use fractions::{Frac, OutOfMemory};
use serde_json::Value;
use std::alloc::Global;
use std::marker::Model;
use worth_core::{Shares, ratio};

/// A scale, from 1 to 65,536.
#[derive(Clone, Copy)]
pub(crate) struct Scale(u32);

impl Model for Scale {
    ghost use Rattle.std.specs.Prelude.{ℕ, pos};
    ghost use Rattle.report.specs.Limits.{IsScale};

    ghost Value = { ℕ };

    ghost view = { λ s. s.0 };

    ghost invariant = { λ s. IsScale (pos s.0) };

    ghost inverse = { λ n. record { 0 = n } };
}

impl Scale {
    /// The scale of this number.
    pub(crate) fn new(number: i64) -> Scale
        requires { IsScale number }
        ensures { result ≡ unsigned_abs number }
    {
        Scale(number as u32)
    }

    /// The number, 1 to 65,536.
    pub(crate) fn number(self) -> u32
        ensures value { result ≡ self }
        ensures within { IsScale (pos result) }
    {
        self.0
    }
}

/// The text of a fraction, as JSON.
fn fraction_value(alloc: Global, value: &Frac) -> Result<Value, OutOfMemory>
    ensures { IfOk result (λ v. view v ≡ fraction_data value.now) }
{
    let mut text = Vec::new(alloc);
    value.write_to(&mut text)?;
    let Ok(text) = String::from_utf8(text) else {
        // Digits, a minus and a slash are UTF-8.
        unreachable!()
    };
    Ok(Value::String(text))
}

/// The fraction num/den over the scale, in lowest terms.
fn over(num: i128, den: i128, scale: Scale) -> Frac
    requires { IsFine den }
    ensures { result ≡ in_lowest_terms num (den *ℤ pos scale) }
{
    ratio(num, den * i128::from(scale.number()))
}

/// The text of a fraction over the scale, as JSON.
#[tactic(auto, unfolding(json_trees::specs::LowestTerms::over_scale))]
pub(crate) fn value_over(alloc: Global, value: &Frac, scale: Scale) -> Result<Value, OutOfMemory>
    requires { IsFine value.now.den }
    ensures { IfOk result (λ v. view v ≡ scaled_data scale value.now) }
{
    fraction_value(alloc, &over(value.num(), value.den(), scale))
}

/// The text of an integer over the scale, as JSON.
pub(crate) fn integer_value(alloc: Global, value: i128, scale: Scale) -> Result<Value, OutOfMemory>
    ensures { IfOk result (λ v. view v ≡ integer_data scale value) }
{
    value_over(alloc, &Frac::from_int(value), scale)
}

/// The texts of the shares, or of the payments if the game is one of costs, over the scale and in lowest terms.
pub(crate) fn share_texts(
    alloc: Global,
    shares: &Shares,
    is_cost: bool,
    scale: Scale,
) -> Result<Vec<Value>, OutOfMemory>
    ensures { IfOk result (λ v. map view v.items ≡ map (share_data scale is_cost shares.now.den) shares.now.shares) }
{
    let mut texts = Vec::new(alloc);
    for i in 0..shares.players() {
        let text = share_text(alloc, shares.num(i), shares.den(), is_cost, scale)?;
        texts.push(text)?;
    }
    Ok(texts)
}

/// The text of the share num/den, or of the payment if the game is one of costs, over the scale and in lowest terms.
pub(crate) fn share_text(
    alloc: Global,
    num: i128,
    den: i128,
    is_cost: bool,
    scale: Scale,
) -> Result<Value, OutOfMemory>
    requires positive { pos 1 ≤ℤ den }
    requires common { den ≤ℤ pos (2 ^ 63) }
    requires small { IsNumerator num }
    ensures { IfOk result (λ v. view v ≡ share_data scale is_cost den num) }
{
    let share = over(as_printed(num, is_cost), den, scale);
    fraction_value(alloc, &share)
}

fn as_printed(num: i128, is_cost: bool) -> i128
    requires { IsNumerator num }
    ensures value { result ≡ as_printed is_cost num }
    ensures small { IsNumerator result }
{
    if is_cost { -num } else { num }
}

/// The members of a coalition, from 1 and ascending.
pub(crate) fn player_numbers(alloc: Global, coalition: Coalition) -> Result<Vec<Value>, OutOfMemory>
    ensures { IfOk result (λ v. map view v.items ≡ map player_data (members 64 coalition)) }
{
    let members = coalition.members();
    let mut numbers = Vec::new(alloc);
    for i in members.as_slice() {
        numbers.push(player_value(*i))?;
    }
    Ok(numbers)
}

/// A player, from 1.
pub(crate) fn player_value(player: u32) -> Value
    ensures { view result ≡ player_data player }
{
    Value::from(u64::from(player) + 1)
}
