//! Spans of what levels fix. The checker and the nested programs call the same bodies, so they agree on what is fixed
//! and on the least player that isn't.

ghost use Rattle.std.specs.Prelude.{◌≡◌, List, ◌^◌, ◌<◌, ◌≤◌, pos, int_le, length, MatchOption, ⊤};
ghost use Rattle.std.specs.List.{AllByRecursion};
ghost use Rattle.definitions.specs.Certificates.{Level as LevelData, IsAllFixed};
ghost use Rattle.definitions.specs.Failures.{IsLeastUnfixed};
ghost use Rattle.kohlberg.specs.Extends.{Extends, IsPaired, IsBoundVector, IsLevelVector, SpansFixed, IsOf};

use crate::levels::Level;
use coalitions::Coalition;
use definitions::Mode;
use spans::Span;

/// Adds each coalition of pairs.
fn add_coalitions(span: &mut Span, pairs: &[(Coalition, i128)])
    requires { AllByRecursion (λ c. c.0 < 2 ^ span.old.players) pairs.now }
    ensures players { span.new.players ≡ span.old.players }
    ensures extends { Extends span.old.players span.old.kept span.new.kept (IsPaired pairs.now) }
{
    for (s, _) in pairs {
        span.add(*s);
    }
}

/// Whether a weight is at least 1.
fn is_weighty(weight: &i128) -> bool
    ensures { result ≡ int_le (pos 1) weight.now }
{
    1 <= *weight
}

/// Adds each player alone that has a weight of at least 1.
fn add_bounds(span: &mut Span, bounds: &[(u32, i128)])
    requires few { span.old.players ≤ 16 }
    requires players { AllByRecursion (λ b. b.0 < span.old.players) bounds.now }
    ensures players { span.new.players ≡ span.old.players }
    ensures extends { Extends span.old.players span.old.kept span.new.kept (IsBoundVector span.old.players bounds.now) }
{
    for (i, w) in bounds {
        if is_weighty(w) {
            span.add(Coalition::single(*i));
        }
    }
}

/// Adds what levels of a certificate in mode span fix: their coalitions, and each player alone that has a weight of at
/// least 1 there. It always answers.
pub fn add_levels(span: &mut Span, levels: &[Level])
    requires few { span.old.players ≤ 16 }
    requires within { AllByRecursion (IsOf span.old.players) levels.now }
    ensures players { span.new.players ≡ span.old.players }
    ensures extends { Extends span.old.players span.old.kept span.new.kept (IsLevelVector span.old.players levels.now) }
{
    for level in levels {
        add_coalitions(span, &level.coalitions);
        add_bounds(span, &level.bounds);
    }
}

/// Returns the least of `n` players, at most 64, of whose vector no nonzero multiple is an integer sum of the kept
/// vectors. It always answers. If there is such a player, fewer coalitions are kept than there are players.
pub fn first_unspanned(span: &Span, n: u32) -> Option<u32>
    requires few { n ≤ 64 }
    requires players { span.now.players ≡ n }
    ensures least { (levels : List LevelData) → SpansFixed n span.now.kept levels → MatchOption result
        (IsAllFixed Mode.Span n levels)
        (λ i. (¬ IsAllFixed Mode.Span n levels) × IsLeastUnfixed Mode.Span n levels i) }
    ensures room { MatchOption result ⊤ (λ _. length span.now.kept < n) }
{
    for i in 0..n {
        if !span.holds(Coalition::single(i)) {
            return Some(i);
        }
    }
    None
}
