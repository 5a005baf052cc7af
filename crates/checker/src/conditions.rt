//! The conditions on shares and on one level, each by the first place that fails.

ghost use Rattle.std.specs.Prelude.{◌≡◌, ◌⊎◌, ◌↔◌, IsTrue, MatchOption, length};
ghost use Rattle.std.specs.Prelude.{ℕ, ◌^◌, ◌<◌, ◌≤◌, pos, ◌-ℤ◌, ◌*ℤ◌, ◌≤ℤ◌};
ghost use Rattle.std.specs.List.{AllByRecursion};
ghost use Rattle.definitions.specs.Coalitions.{singleton};
ghost use Rattle.definitions.specs.Measures.{IsMeasurable};
ghost use Rattle.definitions.specs.Games.{share, IsIndividuallyRational};
ghost use Rattle.definitions.specs.Certificates.{IsSmall, HasExcess, has_bound};
ghost use Rattle.definitions.specs.Failures.{IsLeastFailing, IsFirstFailing, BoundWeighs, Balances, IsTight, Excesses};

use coalitions::Coalition;
use definitions::{Family, Measure};
use fractions::Frac;
use kohlberg::{Level, bounds_at, weights_at};
use std::cmp::Ordering;
use worth_core::{Divided, Shares, Worth, scaled_excess};

/// What a player's worth alone exceeds its share by, over the denominator.
pub(crate) fn excess_alone<W: Worth>(game: &W, shares: &Shares, i: u32) -> i128
    requires shares { length shares.now.shares ≡ (W.game game.now).players }
    requires player { i < (W.game game.now).players }
    ensures { result ≡ shares.now.den *ℤ (W.game game.now).worth (singleton i) -ℤ share shares.now i }
{
    game.players();
    scaled_excess(game, shares, Coalition::single(i))
}

/// The least player whose share is below its worth alone.
pub(crate) fn first_short<W: Worth>(game: &W, shares: &Shares) -> Option<u32>
    requires { length shares.now.shares ≡ (W.game game.now).players }
    ensures { MatchOption result
        (IsIndividuallyRational (W.game game.now) shares.now)
        (IsLeastFailing (W.game game.now).players
        (λ i. (shares.now.den *ℤ (W.game game.now).worth (singleton i)) ≤ℤ share shares.now i)) }
{
    for i in 0..game.players() {
        if excess_alone(game, shares, i) > 0 {
            return Some(i);
        }
    }
    None
}

/// Whether a coalition has the level's excess.
fn has_excess<W: Worth>(
    game: &W,
    measure: Measure,
    shares: &Shares,
    level: &Level,
    s: Coalition,
) -> bool
    requires shares { length shares.now.shares ≡ (W.game game.now).players }
    requires measurable { IsMeasurable measure (W.game game.now).players }
    requires some { 0 < s }
    requires within { s < 2 ^ (W.game game.now).players }
    ensures { IsTrue result ↔ HasExcess measure (W.game game.now) shares.now level.now s }
{
    let excess = Divided::of(game, shares, measure, s).over(shares.den());
    is_excess_of(level, &excess)
}

/// Whether a fraction is the level's excess.
fn is_excess_of(level: &Level, excess: &Frac) -> bool
    ensures { IsTrue result ↔ (excess.now.num *ℤ level.now.excess_den ≡ level.now.excess_num *ℤ excess.now.den) }
{
    level.order_of(excess) == Ordering::Equal
}

/// The first coalition of a level that does not have its excess.
pub(crate) fn first_wrong_excess<W: Worth>(
    game: &W,
    measure: Measure,
    shares: &Shares,
    level: &Level,
) -> Option<Coalition>
    requires shares { length shares.now.shares ≡ (W.game game.now).players }
    requires measurable { IsMeasurable measure (W.game game.now).players }
    requires proper { AllByRecursion (λ c. (0 < c.0) × (c.0 < 2 ^ (W.game game.now).players)) level.now.coalitions }
    ensures { MatchOption result
        (Excesses measure (W.game game.now) shares.now level.now)
        (IsFirstFailing (λ c. HasExcess measure (W.game game.now) shares.now level.now c.0) level.now.coalitions) }
{
    for (s, _) in &level.coalitions {
        if !has_excess(game, measure, shares, level, *s) {
            return Some(*s);
        }
    }
    None
}

/// The first coalition whose weight is below 1.
pub(crate) fn first_weightless(pairs: &[(Coalition, i128)]) -> Option<Coalition>
    ensures { MatchOption result
        (AllByRecursion (λ c. pos 1 ≤ℤ c.1) pairs.now)
        (IsFirstFailing (λ c. pos 1 ≤ℤ c.1) pairs.now) }
{
    for (s, w) in pairs {
        if *w < 1 {
            return Some(*s);
        }
    }
    None
}

/// Whether the bound's weight is at least 1, or an earlier level already gave this player such a weight.
fn has_bound_weight(front: &[Level], i: u32, weight: i128) -> bool
    ensures { IsTrue result ↔ ((pos 1 ≤ℤ weight) ⊎ IsTrue (has_bound front.now i)) }
{
    weight >= 1 || Level::has_bound(front, i)
}

/// The first player whose bound has a weight below 1, and had none of at least 1 before.
pub(crate) fn first_weightless_bound(front: &[Level], bounds: &[(u32, i128)]) -> Option<u32>
    ensures { MatchOption result
        (AllByRecursion (BoundWeighs front.now) bounds.now)
        (IsFirstFailing (BoundWeighs front.now) bounds.now) }
{
    for (i, w) in bounds {
        if !has_bound_weight(front, *i, *w) {
            return Some(*i);
        }
    }
    None
}

/// Whether the weights of a level add to its total at a player.
fn balances(level: &Level, i: u32) -> bool
    requires player { i < 64 }
    requires few { length level.now.coalitions ≤ 65536 }
    requires few_earlier { length level.now.earlier ≤ 65536 }
    requires few_bounds { length level.now.bounds ≤ 65536 }
    requires small { AllByRecursion (λ p. IsSmall p.1) level.now.coalitions }
    requires small_earlier { AllByRecursion (λ p. IsSmall p.1) level.now.earlier }
    requires small_bounds { AllByRecursion (λ p. IsSmall p.1) level.now.bounds }
    ensures { IsTrue result ↔ Balances level.now i }
{
    let coalitions = weights_at(&level.coalitions, i);
    let earlier = weights_at(&level.earlier, i);
    let bounds = bounds_at(&level.bounds, i);
    coalitions + earlier + bounds == level.total
}

/// The least player at which the weights of a level do not add to its total.
pub(crate) fn first_unbalanced(n: u32, level: &Level) -> Option<u32>
    requires players { n ≤ 64 }
    requires few { length level.now.coalitions ≤ 65536 }
    requires few_earlier { length level.now.earlier ≤ 65536 }
    requires few_bounds { length level.now.bounds ≤ 65536 }
    requires small { AllByRecursion (λ p. IsSmall p.1) level.now.coalitions }
    requires small_earlier { AllByRecursion (λ p. IsSmall p.1) level.now.earlier }
    requires small_bounds { AllByRecursion (λ p. IsSmall p.1) level.now.bounds }
    ensures { MatchOption result
        ((i : ℕ) → i < n → Balances level.now i)
        (IsLeastFailing n (Balances level.now)) }
{
    for i in 0..n {
        if !balances(level, i) {
            return Some(i);
        }
    }
    None
}

/// Whether a player is at its bound, and the family has bounds.
fn is_tight<W: Worth>(game: &W, shares: &Shares, family: Family, i: u32) -> bool
    requires shares { length shares.now.shares ≡ (W.game game.now).players }
    requires player { i < (W.game game.now).players }
    ensures { IsTrue result
        ↔ ((share shares.now i ≡ shares.now.den *ℤ (W.game game.now).worth (singleton i))
        × (family ≡ Family.Imputations)) }
{
    family == Family::Imputations && excess_alone(game, shares, i) == 0
}

/// The first player in bounds that isn't at its bound.
pub(crate) fn first_not_at_bound<W: Worth>(
    game: &W,
    shares: &Shares,
    family: Family,
    bounds: &[(u32, i128)],
) -> Option<u32>
    requires shares { length shares.now.shares ≡ (W.game game.now).players }
    requires players { AllByRecursion (λ b. b.0 < (W.game game.now).players) bounds.now }
    ensures { MatchOption result
        (AllByRecursion (IsTight family (W.game game.now) shares.now) bounds.now)
        (IsFirstFailing (IsTight family (W.game game.now) shares.now) bounds.now) }
{
    for (i, _) in bounds {
        if !is_tight(game, shares, family, *i) {
            return Some(*i);
        }
    }
    None
}
