//! The best sets of each weight.
ghost use Rattle.std.specs.Prelude.{◌≡◌, None, Some, IfSome, if◌then◌else◌, slice_index_or};
ghost use Rattle.std.specs.Prelude.{ℕ, ◌^◌, ◌<◌, ◌≤◌, ◌+◌, ◌-◌, pos, unsigned_abs, nat_le};
ghost use Rattle.voting.specs.Candidates.{at_weight, given_or, with_at, joined_at, raised, best_below};
ghost use Rattle.voting.specs.Candidates.{AreSmall, IsSmallCandidate};

use crate::candidate::{Candidate, better_of, plus, with_player};
use coalitions::Coalition;

/// The most that all players weigh.
pub(crate) const HEAVIEST: usize = 1000;

/// Each weight from 0 to the most.
pub(crate) const WEIGHTS: usize = HEAVIEST + 1;

/// A candidate for each weight from 0 to 1,000, and none if no set of that weight is of the kind.
#[derive(Clone, Copy)]
pub(crate) struct Layer {
    entries: [Option<Candidate>; WEIGHTS],
}

impl Layer {
    /// No candidates.
    pub(crate) fn none() -> Layer
        ensures entries { (w : ℕ) → at_weight result w ≡ None }
        ensures small { AreSmall 0 result }
    {
        Layer {
            entries: [None; WEIGHTS],
        }
    }

    /// The candidate of nobody, at weight 0.
    pub(crate) fn of_nobody() -> Layer
        ensures nobody { at_weight result 0 ≡ Some (record { sum = pos 0; coalition = 0 }) }
        ensures others { (w : ℕ) → 0 < w → at_weight result w ≡ None }
        ensures small { AreSmall 0 result }
    {
        let mut layer = Layer::none();
        layer.entries[0] = Some(Candidate {
            sum: 0,
            coalition: Coalition::empty(),
        });
        layer
    }

    /// Player `i` of this weight and number joins: of each set without the player and with it the better one.
    pub(crate) fn add_player(&mut self, i: u32, weight: usize, number: i128)
        requires player { i < 32 }
        requires number { unsigned_abs number < 2 ^ 110 }
        requires small { AreSmall i self.old }
        ensures entries { (w : ℕ) → w < 1001 → at_weight self.new w ≡ joined_at self.old self.old i weight number w }
        ensures small { AreSmall (i + 1) self.new }
    {
        self.join(None, None, i, weight, number);
    }

    /// Of each set of `without` as it is, and of each set of `with` joined by player `i`, the better one. In the place
    /// of a layer that isn't given stands this one.
    pub(crate) fn join(
        &mut self,
        without: Option<&Layer>,
        with: Option<&Layer>,
        i: u32,
        weight: usize,
        number: i128,
    )
        requires player { i < 32 }
        requires number { unsigned_abs number < 2 ^ 110 }
        requires without { AreSmall i (given_or without self.old) }
        requires with { AreSmall i (given_or with self.old) }
        ensures entries { (w : ℕ) → w < 1001
            → at_weight self.new w
            ≡ joined_at (given_or without.entry self.old) (given_or with.entry self.old) i weight number w }
        ensures small { AreSmall (i + 1) self.new }
    {
        for fewer in 0..WEIGHTS {
            let w = HEAVIEST - fewer;
            let with = self.given_or_own(with).with_at(i, weight, number, w);
            self.entries[w] = better_of(self.given_or_own(without).at(w), with);
        }
    }

    /// The layer that is given, or this one.
    fn given_or_own<'a>(&'a self, given: Option<&'a Layer>) -> &'a Layer
        ensures { result.now ≡ given_or given.entry self.now }
    {
        given.unwrap_or(self)
    }

    /// The candidate of weight `w`.
    fn at(&self, w: usize) -> Option<Candidate>
        requires { w < 1001 }
        ensures { result ≡ at_weight self.now w }
    {
        self.entries[w]
    }

    /// The candidate of weight `w` that player `i` of this weight and number makes of a lighter one.
    fn with_at(&self, i: u32, weight: usize, number: i128, w: usize) -> Option<Candidate>
        requires player { i < 32 }
        requires number { unsigned_abs number < 2 ^ 110 }
        requires few { w < 1001 }
        requires small { weight ≤ w → IfSome (at_weight self.now (w - weight)) (IsSmallCandidate i) }
        ensures value { result ≡ with_at self.now i weight number w }
        ensures small { IfSome result (IsSmallCandidate (i + 1)) }
    {
        if weight <= w {
            with_player(self.at(w - weight), i, number)
        } else {
            None
        }
    }

    /// The candidate of greatest sum, after `more` is added to the sums of those from the quota on.
    pub(crate) fn best(&self, quota: usize, more: i128) -> Option<Candidate>
        requires number { unsigned_abs more < 2 ^ 110 }
        requires small { AreSmall 32 self.now }
        ensures { result ≡ best_below more quota self.now 1001 }
    {
        let mut best = None;
        for w in 0..WEIGHTS {
            best = better_of(best, self.excess_at(quota, w, more));
        }
        best
    }

    /// The candidate of weight `w`, with `more` added to its sum if `w` is at least the quota.
    fn excess_at(&self, quota: usize, w: usize, more: i128) -> Option<Candidate>
        requires few { w < 1001 }
        requires number { unsigned_abs more < 2 ^ 110 }
        requires small { AreSmall 32 self.now }
        ensures { result ≡ raised (at_weight self.now w) (if nat_le quota w then more else pos 0) }
    {
        plus(self.at(w), from_quota(quota, w, more))
    }
}

/// The number if the weight is at least the quota, otherwise 0.
fn from_quota(quota: usize, weight: usize, number: i128) -> i128
    ensures { result ≡ (if nat_le quota weight then number else pos 0) }
{
    if quota <= weight { number } else { 0 }
}
