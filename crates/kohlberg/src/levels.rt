//! Levels of a certificate.

ghost use Rattle.std.specs.Prelude.{◌≡◌, ◌↔◌, ◌&&◌, IsTrue, if◌then◌else◌, length};
ghost use Rattle.std.specs.Prelude.{◌^◌, ◌<◌, ◌≤◌, pos, ◌*ℤ◌, unsigned_abs, nat_eq, nat_lt, int_le};
ghost use Rattle.std.specs.Ordering.{int_cmp};
ghost use Rattle.std.specs.List.{AllByRecursion, list_any, list_all};
ghost use Rattle.definitions.specs.Coalitions.{weight_at, grand_coalition};
ghost use Rattle.definitions.specs.Certificates.{IsSmall, number_at, is_listed, has_bound};
ghost use Rattle.kohlberg.specs.Form.{is_small, ascends};

use crate::halving::is_found_in;
use coalitions::Coalition;
use fractions::Frac;
use std::cmp::Ordering;
use std::marker::Model;

/// The most coalitions of a level, and the most earlier ones.
const MOST_COALITIONS: usize = 65536;

/// What weights and totals stay below in size.
const WEIGHT_LIMIT: u128 = 1 << 63;

/// A level of a certificate: the coalitions of one excess, and weights that balance them.
///
/// At each player the weights of the coalitions that hold it, and of its bound, add to the total.
#[derive(Debug, Drop)]
pub struct Level {
    /// The measured excess that the coalitions have in common, as worth.
    pub excess: Frac,
    /// The coalitions and their weights, in ascending order of the masks.
    pub coalitions: Vec<(Coalition, i128)>,
    /// Coalitions of the levels in front and their weights, in ascending order of the masks.
    pub earlier: Vec<(Coalition, i128)>,
    /// Players whose share is their worth alone, and the weights of that bound, in ascending order.
    pub bounds: Vec<(u32, i128)>,
    /// What the weights add to at each player.
    pub total: i128,
}

impl Model for Level {
    ghost use Rattle.definitions.specs.Certificates.{Level as LevelData};

    ghost Value = { LevelData };

    ghost view = { λ l. record {
      excess_num = l.excess.num;
      excess_den = l.excess.den;
      coalitions = l.coalitions.items;
      earlier = l.earlier.items;
      bounds = l.bounds.items;
      total = l.total;
    } };
}

impl Level {
    /// Whether the level has the coalition.
    fn has_coalition(&self, s: Coalition) -> bool
        ensures { result ≡ list_any (λ c. nat_eq c.0 s) self.now.coalitions }
    {
        for (t, _) in &self.coalitions {
            if *t == s {
                return true;
            }
        }
        false
    }

    /// Returns whether some level lists the coalition.
    pub fn is_listed(levels: &[Level], s: Coalition) -> bool
        ensures { result ≡ is_listed levels.now s }
    {
        for l in levels {
            if l.has_coalition(s) {
                return true;
            }
        }
        false
    }

    /// Whether the level has a weight of at least 1 on the player's bound.
    fn weighs_bound(&self, i: u32) -> bool
        ensures { result ≡ list_any (λ b. nat_eq b.0 i && int_le (pos 1) b.1) self.now.bounds }
    {
        for (j, w) in &self.bounds {
            if *j == i && 1 <= *w {
                return true;
            }
        }
        false
    }

    /// Returns whether some level has a weight of at least 1 on the player's bound.
    pub fn has_bound(levels: &[Level], i: u32) -> bool
        ensures { result ≡ has_bound levels.now i }
    {
        for l in levels {
            if l.weighs_bound(i) {
                return true;
            }
        }
        false
    }

    /// Returns the order of a fraction and the level's excess.
    pub fn order_of(&self, excess: &Frac) -> Ordering
        ensures { result ≡ int_cmp (excess.now.num *ℤ self.now.excess_den) (self.now.excess_num *ℤ excess.now.den) }
    {
        excess.compare(&self.excess)
    }
}

impl Level {
    ghost use Rattle.definitions.specs.Certificates.{LevelForm};
    ghost use Rattle.kohlberg.specs.LevelTests.{has_sizes, has_keys, has_order, has_weights, level_form};

    /// Whether the level has 1 to 65536 coalitions, and at most 65536 earlier ones.
    fn has_sizes(&self) -> bool
        ensures { result ≡ has_sizes self.now }
    {
        !self.coalitions.is_empty()
            && self.coalitions.len() <= MOST_COALITIONS
            && self.earlier.len() <= MOST_COALITIONS
    }

    /// Whether coalitions are neither empty nor all, earlier ones are listed in front, and players are of the game.
    fn has_keys(&self, n: u32, front: &[Level]) -> bool
        requires { n ≤ 64 }
        ensures { result ≡ has_keys n front.now self.now }
    {
        are_proper(&self.coalitions, n)
            && are_listed(&self.earlier, front)
            && are_players(&self.bounds, n)
    }

    /// Whether coalitions and players ascend.
    fn has_order(&self) -> bool
        ensures { result ≡ has_order self.now }
    {
        coalitions_ascend(&self.coalitions)
            && coalitions_ascend(&self.earlier)
            && bounds_ascend(&self.bounds)
    }

    /// Whether weights and the total are below 2^63 in size.
    fn has_weights(&self) -> bool
        ensures { result ≡ has_weights self.now }
    {
        coalition_weights_small(&self.coalitions)
            && coalition_weights_small(&self.earlier)
            && bound_weights_small(&self.bounds)
            && is_small(self.total)
    }

    /// Returns whether the level has its form for `n` players, given the levels before it.
    pub fn has_form(&self, n: u32, front: &[Level]) -> bool
        requires { n ≤ 64 }
        ensures { IsTrue result ↔ LevelForm n front.now self.now }
    {
        self.excess.den();
        self.passes(n, front)
    }

    /// Whether the level passes each test of its form.
    fn passes(&self, n: u32, front: &[Level]) -> bool
        requires { n ≤ 64 }
        ensures { result ≡ level_form n front.now self.now }
    {
        self.has_sizes() && self.has_keys(n, front) && self.has_order() && self.has_weights()
    }
}

/// Returns the sum of the weights of the coalitions that hold a player.
pub fn weights_at(pairs: &[(Coalition, i128)], i: u32) -> i128
    requires player { i < 64 }
    requires few { length pairs.now ≤ 65536 }
    requires small { AllByRecursion (λ p. IsSmall p.1) pairs.now }
    ensures value { result ≡ weight_at pairs.now i }
    ensures small { unsigned_abs result ≤ 2 ^ 79 }
{
    let mut sum: i128 = 0;
    for (s, w) in pairs {
        if s.contains(i) {
            sum += *w;
        }
    }
    sum
}

/// Returns the sum of the weights of the player's bounds.
pub fn bounds_at(bounds: &[(u32, i128)], i: u32) -> i128
    requires few { length bounds.now ≤ 65536 }
    requires small { AllByRecursion (λ p. IsSmall p.1) bounds.now }
    ensures value { result ≡ number_at bounds.now i }
    ensures small { unsigned_abs result ≤ 2 ^ 79 }
{
    let mut sum: i128 = 0;
    for (j, w) in bounds {
        sum += weight_if_same(*j, i, *w);
    }
    sum
}

/// The weight if the players are the same, and otherwise 0.
fn weight_if_same(j: u32, i: u32, weight: i128) -> i128
    requires { IsSmall weight }
    ensures value { result ≡ (if nat_eq j i then weight else pos 0) }
    ensures small { IsSmall result }
{
    if j == i { weight } else { 0 }
}

/// Whether a weight is below 2^63 in size.
fn is_small(weight: i128) -> bool
    ensures { result ≡ is_small weight }
{
    weight.unsigned_abs() < WEIGHT_LIMIT
}

/// Whether each coalition's weight is below 2^63 in size.
fn coalition_weights_small(pairs: &[(Coalition, i128)]) -> bool
    ensures { result ≡ list_all (λ p. is_small p.1) pairs.now }
{
    for (_, w) in pairs {
        if !is_small(*w) {
            return false;
        }
    }
    true
}

/// Whether each bound's weight is below 2^63 in size.
fn bound_weights_small(bounds: &[(u32, i128)]) -> bool
    ensures { result ≡ list_all (λ p. is_small p.1) bounds.now }
{
    for (_, w) in bounds {
        if !is_small(*w) {
            return false;
        }
    }
    true
}

/// Whether the masks ascend strictly.
fn coalitions_ascend(pairs: &[(Coalition, i128)]) -> bool
    ensures { result ≡ ascends 0 pairs.now }
{
    let mut low: u128 = 0;
    for (s, _) in pairs {
        if (s.0 as u128) < low {
            return false;
        }
        low = s.0 as u128 + 1;
    }
    true
}

/// Whether the players ascend strictly.
fn bounds_ascend(bounds: &[(u32, i128)]) -> bool
    ensures { result ≡ ascends 0 bounds.now }
{
    let mut low: u64 = 0;
    for (i, _) in bounds {
        if (*i as u64) < low {
            return false;
        }
        low = *i as u64 + 1;
    }
    true
}

/// Whether each coalition is one of `n` players, neither empty nor all.
fn are_proper(pairs: &[(Coalition, i128)], n: u32) -> bool
    requires { n ≤ 64 }
    ensures { result ≡ list_all (λ c. nat_lt 0 c.0 && nat_lt c.0 (grand_coalition n)) pairs.now }
{
    let all = Coalition::all(n);
    for (s, _) in pairs {
        if s.0 == 0 || s.0 >= all.0 {
            return false;
        }
    }
    true
}

/// Whether each player is one of `n`.
fn are_players(bounds: &[(u32, i128)], n: u32) -> bool
    ensures { result ≡ list_all (λ b. nat_lt b.0 n) bounds.now }
{
    for (i, _) in bounds {
        if *i >= n {
            return false;
        }
    }
    true
}

/// Whether each coalition stands in a level in front.
///
/// If the masks of those levels ascend, halving finds all that are there, and no level is gone through except for the
/// first coalition that isn't.
/// So no order of theirs has to be known, and a certificate of the right form is read quickly.
fn are_listed(pairs: &[(Coalition, i128)], front: &[Level]) -> bool
    ensures { result ≡ list_all (λ c. is_listed front.now c.0) pairs.now }
{
    for (s, _) in pairs {
        if !is_found_in(front, *s) && !Level::is_listed(front, *s) {
            return false;
        }
    }
    true
}
