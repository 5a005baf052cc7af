//! The marks outside of a span, and sums by players.

ghost use Rattle.std.specs.Prelude.{◌≡◌, ℕ, ◌<◌, ◌≤◌, ◌^◌, length, unsigned_abs};
ghost use Rattle.definitions.specs.declared.Mode.{Mode};
ghost use Rattle.spans.specs.Sums.{number_at};

use crate::fronts::{certificate_of, first_levels, span_of};
use crate::slow_games::{Slow, game_of};
use coalitions::Coalition;
use definitions::{Family, Measure};
use kohlberg::{Certificate, first_unspanned};
use spans::{Outside, PlayerSums, Span, fill_sums};
use std::process::Abort;
use std::test::Fail;
use worth_core::Worth;

/// The first coalition of 16 players of which the marks and the span say different things.
fn first_unlike(outside: &Outside, span: &Span) -> Option<Coalition>
    requires { span.now.players ≡ 16 }
{
    for mask in 1..65535 {
        let s = Coalition(mask);
        if outside.contains(s) == span.holds(s) {
            return Some(s);
        }
    }
    None
}

/// The first coalition of which the word and the mark say different things.
fn first_apart(outside: &Outside) -> Option<u64> {
    for s in 0..65536u64 {
        let word = Coalition(outside.word((s / 64) as usize));
        if word.contains((s % 64) as u32) != outside.contains(Coalition(s)) {
            return Some(s);
        }
    }
    None
}

#[test]
fn words_have_the_marks_of_64_coalitions_each(rt: HostRuntime) {
    let all = Outside::all(8);
    assert_eq!(rt;
        (all.word(0), all.word(1), all.word(3), all.word(4)),
        (u64::MAX - 1, u64::MAX, u64::MAX >> 1, 0)
    );
    assert_eq!(rt; first_apart(&Outside::all(16)), None);
}

/// Compares the marks behind the first levels of a certificate of 16 players with the span of these, which holds each
/// player alone behind all of them and no earlier.
fn compare_marks(rt: &impl Abort, certificate: &Certificate, count: usize)
    requires mode { certificate.now.mode ≡ Mode.Span }
    requires players { certificate.now.players ≡ 16 }
    requires count { count ≤ length certificate.now.levels }
{
    let span = span_of(16, first_levels(certificate, count));
    let mut outside = Outside::all(16);
    outside.clear(&span);
    assert_eq!(rt;
        (first_unlike(&outside, &span), first_apart(&outside)),
        (None, None),
        "{count}"
    );
    let is_all = count == certificate.levels().len();
    assert_eq!(rt; first_unspanned(&span, 16).is_none(), is_all, "{count}");
}

#[test]
fn marks_agree_with_the_span_of_each_level(rt: HostRuntime) -> Result<(), Fail> {
    let game = game_of(rt.alloc(), Slow::Square, 16)?;
    let found = certificate_of(rt.alloc(), &game, Family::Imputations, Measure::Plain)?;
    let certificate = found.ok_or("no certificate")?;
    assert!(rt; game.players() == 16 && certificate.levels().len() == 15);
    for count in 0..16usize {
        compare_marks(&rt, &certificate, count);
    }
    Ok(())
}

/// The powers of 2.
fn powers() -> [i64; 16]
    ensures { (i : ℕ) → unsigned_abs (number_at result i) ≤ 2 ^ 58 }
{
    let mut powers = [0; 16];
    for i in 0..16usize {
        powers[i] = i64::from(1u32 << i);
    }
    powers
}

#[test]
fn sums_of_powers_of_2_are_the_masks(rt: HostRuntime) {
    let powers = powers();
    let sums = PlayerSums::of(&powers);
    let mut of_middle = [0; 256];
    fill_sums(&mut of_middle, &powers, 5);
    for s in 0..256usize {
        let mask = s as i64;
        assert_eq!(rt;
            (sums.low[s], sums.high[s], of_middle[s]),
            (mask, mask << 8, mask << 5)
        );
    }
}
