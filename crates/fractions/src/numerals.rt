//! Decimal numerals without a leading zero.

ghost use Rattle.std.specs.Prelude.{◌≡◌, ◌^◌, ◌<◌, IsTrue, if◌then◌else◌, Some, None};
ghost use Rattle.std.specs.Option.{SomeIff};
ghost use Rattle.std.specs.Str.Parse.{digits_value};
ghost use Rattle.fractions.specs.FractionTexts.{is_numeral, before_slash};
ghost use Rattle.fractions.specs.Digits.{is_number};

/// The number that digits write. None if another byte stands among them, or the number needs more than 128 bits.
fn digits_number(digits: &[u8]) -> Option<u128>
    ensures { result ≡ (if is_number digits.now then Some (digits_value 10 digits.now) else None) }
{
    if digits.is_empty() {
        return None;
    }
    let mut n: u128 = 0;
    for b in digits {
        if !b.is_ascii_digit() {
            return None;
        }
        n = n.checked_mul(10)?.checked_add(u128::from(*b - b'0'))?;
    }
    Some(n)
}

/// The number of a numeral. None if the text isn't a numeral, or the number needs more than 128 bits.
pub(crate) fn numeral(text: &[u8]) -> Option<u128>
    ensures { SomeIff result (IsTrue (is_numeral text.now) × (digits_value 10 text.now < 2 ^ 128))
        (digits_value 10 text.now) }
{
    let n = digits_number(text)?;
    if text.len() > 1 && text[0] == b'0' {
        return None;
    }
    Some(n)
}

/// The place of the first slash, or else the length.
pub(crate) fn slash_or_len(text: &[u8]) -> usize
    ensures { result ≡ before_slash text.now }
{
    let mut i = 0;
    while i < text.len() && text[i] != b'/' {
        i += 1;
    }
    i
}
