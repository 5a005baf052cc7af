//! Fractions as texts: a minus for a value below 0, the numerator, and for a denominator above 1 a slash and it.

ghost use Rattle.std.specs.Prelude.{◌≡◌, IsTrue, IfSome, OnOk, OnErr, Some};
ghost use Rattle.std.specs.Prelude.{◌^◌, ◌<◌};
ghost use Rattle.std.specs.Prelude.{◌++◌, length, take};
ghost use Rattle.std.specs.Option.{SomeIff};
ghost use Rattle.fractions.specs.FractionTexts.{before_slash, has_minus, without_minus, is_unsigned_fraction};
ghost use Rattle.fractions.specs.FractionTexts.{has_denominator, numerator, denominator, parsed, fraction_text};

use super::{Frac, signed};
use crate::OutOfMemory;
use crate::euclid::gcd;
use crate::numerals::{numeral, slash_or_len};
use itoa::Buffer;
use std::alloc::AllocError;

impl Frac {
    /// Returns the fraction that a text writes. Returns none exactly if it is no fraction's text, or its numerator or
    /// its denominator is out of the range of `i128`.
    ///
    /// A fraction's text is an optional `-`, decimal digits without a leading zero (except `0` itself), and perhaps a
    /// `/` and the digits of a number above 1 that has no divisor in common with the first. `-0` is none.
    pub fn parse(text: &[u8]) -> Option<Frac>
        ensures value { result ≡ parsed text.now }
        ensures unique { IfSome result (λ f. fraction_text f ≡ text.now) }
    {
        let (negative, unsigned) = split_sign(text);
        let (size, den) = unsigned_parts(unsigned)?;
        if negative && size == 0 {
            return None;
        }
        let num = signed(negative, size)?;
        let den = signed(false, den)?;
        Some(Frac { num, den })
    }

    /// Appends the text of the fraction. If memory runs out, `out` is as before.
    pub fn write_to(&self, out: &mut Vec<u8>) -> Result<(), OutOfMemory>
        ensures written { OnOk result (out.new.items ≡ out.old.items ++ fraction_text self.now) }
        ensures read_back { parsed (fraction_text self.now) ≡ Some self.now }
        ensures unchanged { OnErr result (out.new.items ≡ out.old.items) }
    {
        let start = out.len();
        match append_text(self.num, self.den, out) {
            Ok(()) => Ok(()),
            Err(_) => {
                out.truncate(start);
                Err(OutOfMemory)
            }
        }
    }
}

/// Appends the text of a fraction, or a part of it if memory runs out.
fn append_text(num: i128, den: i128, out: &mut Vec<u8>) -> Result<(), AllocError>
    ensures written { OnOk result (out.new.items ≡ out.old.items ++ fraction_text (record { num = num; den = den })) }
    ensures kept { OnErr result (take (length out.old.items) out.new.items ≡ out.old.items) }
{
    let mut buffer = Buffer::new();
    out.extend_from_slice(buffer.format(num).as_bytes())?;
    if den != 1 {
        out.extend_from_slice(b"/")?;
        out.extend_from_slice(buffer.format(den).as_bytes())?;
    }
    Ok(())
}

/// Whether a minus stands first, and what follows it.
fn split_sign(text: &[u8]) -> (bool, &[u8])
    ensures minus { result.0 ≡ has_minus text.now }
    ensures rest { result.1.now ≡ without_minus text.now }
{
    match text {
        [b'-', rest @ ..] => (true, rest),
        _ => (false, text),
    }
}

/// The numerator's size and the denominator of a text without a sign. None if it is no such text in lowest terms, or
/// one of the numbers needs more than 128 bits.
fn unsigned_parts(text: &[u8]) -> Option<(u128, u128)>
    ensures { SomeIff result
        (IsTrue (is_unsigned_fraction text.now) × (numerator text.now < 2 ^ 128) × (denominator text.now < 2 ^ 128))
        (numerator text.now, denominator text.now) }
{
    let slash = slash_or_len(text);
    let num = numeral(&text[..slash])?;
    let den = denominator_from(text, slash)?;
    if gcd(num, den) != 1 {
        return None;
    }
    Some((num, den))
}

/// The denominator: 1 without a slash, and else the numeral behind it, which is above 1.
fn denominator_from(text: &[u8], slash: usize) -> Option<u128>
    requires { slash ≡ before_slash text.now }
    ensures { SomeIff result
        (IsTrue (has_denominator text.now) × (denominator text.now < 2 ^ 128))
        (denominator text.now) }
{
    if slash >= text.len() {
        return Some(1);
    }
    let den = numeral(&text[slash + 1..])?;
    if den < 2 {
        return None;
    }
    Some(den)
}
