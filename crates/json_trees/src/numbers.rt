//! Integers and fractions that are written in a JSON tree, fractions times a scale, and players by their numbers.

ghost use Rattle.std.specs.Prelude.{◌≡◌, ◌<◌, IfSome, FitsSigned, MatchOption};
ghost use Rattle.std.specs.Int.{w128};
ghost use Rattle.serde_json.specs.View.{view};
ghost use Rattle.json_trees.specs.Fractions.{whole_fraction, fraction_of};
ghost use Rattle.json_trees.specs.LowestTerms.{times_scale, if_scaled};
ghost use Rattle.json_trees.specs.Players.{numbered_player};
ghost use Rattle.json_trees.specs.ScaledFractions.{scaled_of};
ghost use Rattle.json_trees.specs.Trees.{integer};

use crate::reader::Reader;
use fractions::{Frac, OutOfMemory};
use serde_json::Value;
use std::alloc::Global;

/// Returns the integer that a number is.
pub fn integer(value: &Value) -> Option<i64>
    ensures { result ≡ integer (view value.now) }
{
    value.as_i64()
}

/// Returns the player that a number from 1 to `players` names.
pub fn numbered_player(players: u32, number: i64) -> Option<u32>
    ensures player { result ≡ numbered_player players number }
    ensures within { IfSome result (λ i. i < players) }
{
    if 0 < number && number <= i64::from(players) {
        Some(number as u32 - 1)
    } else {
        None
    }
}

fn whole_fraction(value: &Value) -> Option<Frac>
    ensures { result ≡ whole_fraction (integer (view value.now)) }
{
    let z = integer(value)?;
    Some(Frac::from_int(i128::from(z)))
}

/// Returns the fraction that is written: an integer, or a fraction text.
pub fn fraction_of(value: &Value) -> Option<Frac>
    ensures { result ≡ fraction_of (view value.now) }
{
    match value.as_str() {
        Some(text) => Frac::parse(text.as_bytes()),
        None => whole_fraction(value),
    }
}

/// Reads the fraction that an integer is, or that a text writes.
#[derive(Clone, Copy, Debug)]
pub struct WrittenFractions;

impl Reader for WrittenFractions {
    ghost use Rattle.json_trees.specs.Fractions.{is_fraction, fraction_or_zero};

    type Item = Frac;

    ghost form = { λ _. is_fraction };

    ghost described = { λ _. fraction_or_zero };

    #[tactic(auto, using(crate::proofs::Readings::of_some))]
    fn read(&self, _alloc: Global, value: &Value) -> Result<Option<Frac>, OutOfMemory> {
        Ok(fraction_of(value))
    }
}

/// Returns the fraction times the scale, in lowest terms. Returns none if its numerator is out of the range of `i128`.
pub fn scaled(number: &Frac, scale: u32) -> Option<Frac>
    ensures value { MatchOption result (¬ FitsSigned w128 (times_scale scale number.now).num)
        (λ f. f ≡ times_scale scale number.now) }
    ensures chosen { result ≡ if_scaled scale number.now }
{
    // Its laws say that the denominator is at least 1.
    number.den();
    match number.mul(&Frac::from_int(i128::from(scale))) {
        Ok(product) => Some(product),
        Err(_) => None,
    }
}

/// Returns the fraction that is written, times the scale. Returns none if no fraction is written, or its numerator is
/// out of the range of `i128` then.
pub fn scaled_of(value: &Value, scale: u32) -> Option<Frac>
    ensures { result ≡ scaled_of scale (view value.now) }
{
    let number = fraction_of(value)?;
    scaled(&number, scale)
}
