//! What is outside of what levels fix.

ghost use Rattle.std.specs.Prelude.{◌≡◌, ◌↔◌, false, IsTrue, MatchOption, List, length};
ghost use Rattle.std.specs.Prelude.{ℕ, ◌^◌, ◌<◌, ◌≤◌, unsigned_abs};
ghost use Rattle.std.specs.Option.{ForSome};
ghost use Rattle.definitions.specs.Coalitions.{has_player};
ghost use Rattle.definitions.specs.Measures.{IsMeasurable};
ghost use Rattle.definitions.specs.Games.{HasTwo};
ghost use Rattle.definitions.specs.Certificates.{Level as LevelData, IsAllFixed};
ghost use Rattle.definitions.specs.Failures.{IsLeastUnfixed};
ghost use Rattle.kohlberg.specs.Marking.{IsMarking};
ghost use Rattle.checker.specs.Fixed.{IsFreeSet, AreOfPlayers, mode_of, IsOver, Fixes};
ghost use Rattle.checker.specs.Meaning.{IsGreatestOutside};
ghost use Rattle.checker.specs.Paid.{paid_after};

use crate::fixed::Fixed;
use coalitions::{Coalition, GrayStep};
use definitions::{Measure, Mode};
use fractions::Frac;
use kohlberg::first_unspanned;
use spans::Outside;
use worth_core::{Divided, Shares, Worth, is_more, measured_bound, replaced_if};

/// The least member from one number on.
fn first_member(s: Coalition, from: u32, n: u32) -> Option<u32>
    requires { n ≤ 64 }
    ensures { MatchOption result
        ((i : ℕ) → from ≤ i → i < n → has_player s i ≡ false)
        (λ i. (from ≤ i) × (i < n) × IsTrue (has_player s i) × ((j : ℕ) → from ≤ j → j < i → has_player s j ≡ false)) }
{
    for i in from..n {
        if s.contains(i) {
            return Some(i);
        }
    }
    None
}

/// Whether a coalition has two members.
fn has_two(s: Coalition, n: u32) -> bool
    requires { n ≤ 64 }
    ensures { IsTrue result ↔ HasTwo n s }
{
    match first_member(s, 0, n) {
        None => false,
        Some(i) => first_member(s, i + 1, n).is_some(),
    }
}

/// The greatest measured excess of a coalition that holds some but not all of the free players.
fn greatest_split<W: Worth>(
    game: &W,
    measure: Measure,
    shares: &Shares,
    free: Coalition,
) -> Option<Frac>
    requires shares { length shares.now.shares ≡ (W.game game.now).players }
    requires measurable { IsMeasurable measure (W.game game.now).players }
    requires within { free < 2 ^ (W.game game.now).players }
    ensures { (levels : List LevelData) → IsFreeSet (W.game game.now).players levels free
        → IsGreatestOutside Mode.Players measure (W.game game.now) shares.now levels result }
{
    if has_two(free, game.players()) {
        Some(measured_bound(game, shares, free, measure))
    } else {
        None
    }
}

/// The least free player, if at least two are free.
fn first_free(free: Coalition, n: u32) -> Option<u32>
    requires { n ≤ 64 }
    ensures { (levels : List LevelData) → IsFreeSet n levels free → MatchOption result
        (IsAllFixed Mode.Players n levels)
        (λ i. (¬ IsAllFixed Mode.Players n levels) × IsLeastUnfixed Mode.Players n levels i) }
{
    if has_two(free, n) {
        first_member(free, 0, n)
    } else {
        None
    }
}

/// What the members of a coalition get, from what those of the one before it in Gray order got: the share of the one
/// player who comes is added, and that of the one who goes is taken off.
fn paid_after(shares: &Shares, paid: i128, s: Coalition, flipped: Option<u32>) -> i128
    requires player { ForSome flipped (λ i. i < length shares.now.shares) }
    requires small { unsigned_abs paid < 2 ^ 117 }
    ensures { result ≡ paid_after shares.now paid s flipped }
{
    shares.players();
    match flipped {
        None => paid,
        Some(i) => {
            if s.contains(i) {
                paid + shares.num(i)
            } else {
                paid - shares.num(i)
            }
        }
    }
}

/// The greatest measured excess of some coalitions, by one pass in Gray order.
fn greatest_unspanned<W: Worth>(
    game: &W,
    measure: Measure,
    shares: &Shares,
    outside: &Outside,
) -> Option<Frac>
    requires shares { length shares.now.shares ≡ (W.game game.now).players }
    requires measurable { IsMeasurable measure (W.game game.now).players }
    requires few { (W.game game.now).players ≤ 16 }
    requires of_players { AreOfPlayers (W.game game.now).players outside.now }
    ensures { (levels : List LevelData) → IsMarking (W.game game.now).players levels outside.now
        → IsGreatestOutside Mode.Span measure (W.game game.now) shares.now levels result }
{
    shares.players();
    let mut most: Option<Divided> = None;
    let mut paid: i128 = 0;
    for GrayStep { mask, flipped } in Coalition::gray(game.players()) {
        paid = paid_after(shares, paid, mask, flipped);
        if outside.contains(mask) {
            let here = Divided::of_paid(game, shares, measure, mask, paid);
            let is_greatest = is_more(&most, &here);
            most = replaced_if(most, here, is_greatest);
        }
    }
    Some(most?.over(shares.den()))
}

/// The greatest measured excess of a coalition outside, if there is one.
pub(crate) fn greatest_outside<W: Worth>(
    game: &W,
    measure: Measure,
    shares: &Shares,
    fixed: &Fixed,
) -> Option<Frac>
    requires shares { length shares.now.shares ≡ (W.game game.now).players }
    requires measurable { IsMeasurable measure (W.game game.now).players }
    requires over { IsOver (W.game game.now).players fixed.now }
    ensures { (levels : List LevelData) → Fixes (W.game game.now).players levels fixed.now
        → IsGreatestOutside (mode_of fixed.now) measure (W.game game.now) shares.now levels result }
{
    match fixed {
        Fixed::FreePlayers(free) => greatest_split(game, measure, shares, *free),
        Fixed::Vectors(_, outside) => greatest_unspanned(game, measure, shares, outside),
    }
}

/// The least player that isn't fixed, unless everything is fixed.
pub(crate) fn first_unfixed(fixed: &Fixed, n: u32) -> Option<u32>
    requires small { n ≤ 64 }
    requires over { IsOver n fixed.now }
    ensures { (levels : List LevelData) → Fixes n levels fixed.now → MatchOption result
        (IsAllFixed (mode_of fixed.now) n levels)
        (λ i. (¬ IsAllFixed (mode_of fixed.now) n levels) × IsLeastUnfixed (mode_of fixed.now) n levels i) }
{
    match fixed {
        Fixed::FreePlayers(free) => first_free(*free, n),
        Fixed::Vectors(span, _) => first_unspanned(span, n),
    }
}
