//! The shares of a document.
ghost use Rattle.std.specs.Prelude.{◌≡◌, false, Some, None, MatchOption, IfOk, if◌then◌else◌};
ghost use Rattle.std.specs.Prelude.{◌≤◌, length, option_map, All};
ghost use Rattle.serde_json.specs.View.{view};
ghost use Rattle.fractions.specs.Fraction.{IsReduced};
ghost use Rattle.document_parts.specs.Denominators.{keep_limits, over_least};
ghost use Rattle.document_parts.specs.Shares.{has_share_numbers, written_shares, scaled_fractions};
ghost use Rattle.document_parts.specs.Shares.{negated, as_worth};

use fractions::{Frac, OutOfMemory};
use json_trees::{WrittenFractions, read_at, scaled};
use serde_json::Value;
use std::alloc::Global;
use worth_core::{Shares, SharesFault};

/// Returns the fractions that the shares write, and no fractions if there are no shares. Returns none exactly if a
/// share is neither an integer nor a fraction text.
///
/// # Errors
///
/// If memory runs out.
pub fn written_shares(alloc: Global, tree: &Value) -> Result<Option<Vec<Frac>>, OutOfMemory>
    ensures { IfOk result (λ o. option_map (λ v. v.items) o
        ≡ (if has_share_numbers (view tree.now) then Some (written_shares (view tree.now)) else None)) }
{
    read_at(alloc, &WrittenFractions, tree, "shares")
}

/// The fractions times the scale. None only if a numerator has no form in 128 bits, and then they break a limit of
/// `Shares`.
fn scaled_fractions(
    alloc: Global,
    written: &[Frac],
    scale: u32,
) -> Result<Option<Vec<Frac>>, OutOfMemory>
    requires reduced { All IsReduced written.now }
    ensures { IfOk result (λ o. MatchOption o (keep_limits (scaled_fractions scale written.now) ≡ false)
        (λ v. v.items ≡ scaled_fractions scale written.now)) }
{
    let mut found = Vec::new(alloc);
    for number in written {
        let Some(product) = scaled(number, scale) else {
            return Ok(None);
        };
        found.push(product)?;
    }
    Ok(Some(found))
}

/// The fractions over their least common denominator, and none if they break a limit of `Shares` there.
fn over_least(alloc: Global, written: &[Frac]) -> Result<Option<Shares>, OutOfMemory>
    requires some { 1 ≤ length written.now }
    requires few { length written.now ≤ 64 }
    requires reduced { All IsReduced written.now }
    ensures { IfOk result (λ o. o ≡ (if keep_limits written.now then Some (over_least written.now) else None)) }
{
    match Shares::from_fracs(alloc, written) {
        Ok(shares) => Ok(Some(shares)),
        Err(SharesFault::TooFine) => Ok(None),
        Err(SharesFault::Memory) => Err(OutOfMemory),
    }
}

/// Returns the written shares times the scale, over their least common denominator, as worth: payments are negated.
/// Returns none if the denominator is above 2^63, or a numerator reaches 2^110 in size.
///
/// # Errors
///
/// If memory runs out.
pub fn shares_as_worth(
    alloc: Global,
    written: &[Frac],
    scale: u32,
    are_payments: bool,
) -> Result<Option<Shares>, OutOfMemory>
    requires some { 1 ≤ length written.now }
    requires few { length written.now ≤ 64 }
    requires reduced { All IsReduced written.now }
    ensures { IfOk result (λ o. o ≡ (if keep_limits (scaled_fractions scale written.now)
        then Some (as_worth are_payments (over_least (scaled_fractions scale written.now))) else None)) }
{
    let Some(numbers) = scaled_fractions(alloc, written, scale)? else {
        return Ok(None);
    };
    signed_shares(alloc, &numbers, are_payments)
}

/// The fractions over their least common denominator, as worth, and none if they break a limit of `Shares` there.
///
/// Payments are negated only over their denominator: one of the least number of 128 bits has a form, and its negation
/// doesn't.
fn signed_shares(
    alloc: Global,
    written: &[Frac],
    are_payments: bool,
) -> Result<Option<Shares>, OutOfMemory>
    requires some { 1 ≤ length written.now }
    requires few { length written.now ≤ 64 }
    requires reduced { All IsReduced written.now }
    ensures { IfOk result
        (λ o. o ≡ (if keep_limits written.now then Some (as_worth are_payments (over_least written.now)) else None)) }
{
    match over_least(alloc, written) {
        Ok(Some(shares)) if are_payments => negated(alloc, &shares),
        found => found,
    }
}

/// The shares with their signs turned, which keep within the limits of `Shares` as well.
fn negated(alloc: Global, shares: &Shares) -> Result<Option<Shares>, OutOfMemory>
    ensures { IfOk result (λ o. o ≡ Some (negated shares.now)) }
{
    let mut num = Vec::new(alloc);
    for i in 0..shares.players() {
        num.push(-shares.num(i))?;
    }
    Ok(Shares::new(num, shares.den()))
}
