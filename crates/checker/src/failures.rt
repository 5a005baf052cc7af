//! The first condition that fails, in the order in which they are tested.

ghost use Rattle.std.specs.Prelude.{◌≡◌, ◌↔◌, pos, ◌*ℤ◌, ◌<ℤ◌, ◌≤ℤ◌, IsTrue, MatchOption, length};
ghost use Rattle.definitions.specs.Certificates.{Weights, BoundWeights};
ghost use Rattle.checker.specs.Meaning.{IsWrongSign};

use crate::conditions::{
    first_not_at_bound, first_short, first_unbalanced, first_weightless, first_weightless_bound,
    first_wrong_excess,
};
use crate::fixed::Fixed;
use crate::outside::{first_unfixed, greatest_outside};
use definitions::{Family, Measure, Mode};
use fractions::Frac;
use kohlberg::{Level, Place, Reason};
use std::cmp::Ordering;
use worth_core::{Shares, Worth, is_efficient};

/// Whether a fraction is above the level's excess.
fn is_above(level: &Level, excess: &Frac) -> bool
    ensures above { IsTrue result
        ↔ ((level.now.excess_num *ℤ excess.now.den) <ℤ (excess.now.num *ℤ level.now.excess_den)) }
    ensures positive { pos 1 ≤ℤ excess.now.den }
{
    excess.den();
    level.order_of(excess) == Ordering::Greater
}

/// The first weight of a level that is below 1, of its coalitions and then of its bounds.
fn first_wrong_sign(front: &[Level], level: &Level) -> Option<Place>
    ensures { MatchOption result
        (Weights level.now × BoundWeights front.now level.now)
        (IsWrongSign front.now level.now) }
{
    if let Some(coalition) = first_weightless(&level.coalitions) {
        return Some(Place::Coalition(coalition));
    }
    let player = first_weightless_bound(front, &level.bounds)?;
    Some(Place::Player(player))
}

/// What a certificate is to show: that these shares, one for each player, are the nucleolus of a game, over a family of
/// allocations and by a measure.
#[derive(Drop)]
pub(crate) struct Claim<'a, W: Worth> {
    pub(crate) game: &'a W,
    pub(crate) family: Family,
    pub(crate) measure: Measure,
    pub(crate) shares: &'a Shares,
    ghost count: { length shares.now.shares ≡ (W.game game.now).players },
}

impl<W: Worth> Claim<'_, W> {
    ghost use Rattle.std.specs.Prelude.{◌⊎◌, ◌≤◌, Some, List, []};
    ghost use Rattle.definitions.specs.Measures.{IsMeasurable};
    ghost use Rattle.definitions.specs.Games.{InFamily};
    ghost use Rattle.definitions.specs.Certificates.{Level as LevelData, LevelForm, LevelsForm, OutsideIsLow};
    ghost use Rattle.definitions.specs.Certificates.{LevelHolds, LevelsHold, Certifies};
    ghost use Rattle.definitions.specs.Failures.{LevelFails, LevelsFail, IsFirstFailure};
    ghost use Rattle.checker.specs.Fixed.{mode_of, IsOver, Fixes};
    ghost use Rattle.checker.specs.Meaning.{Means, IsGreatestOutside};

    /// The first condition that a certificate fails: of the shares, of a level, or of what all levels fix.
    pub(crate) fn first_failure(&self, mode: Mode, levels: &[Level]) -> Option<Reason>
        requires measurable { IsMeasurable self.now.measure (W.game self.now.game.now).players }
        requires few { (mode ≡ Mode.Players) ⊎ ((W.game self.now.game.now).players ≤ 16) }
        requires form { LevelsForm (W.game self.now.game.now).players [] levels.now }
        requires count { length levels.now ≤ 64 }
        ensures { let game = W.game self.now.game.now in
            let shares = self.now.shares.now in
            MatchOption result
            (Certifies mode self.now.family self.now.measure game shares levels.now)
            (Means self.now.measure shares
            (IsFirstFailure mode self.now.family self.now.measure game shares levels.now)) }
    {
        let failure = self.family_failure();
        if failure.is_some() {
            return failure;
        }
        self.levels_failure(mode, levels)
    }

    /// The first condition of a member of the family that the shares fail.
    fn family_failure(&self) -> Option<Reason>
        ensures { let game = W.game self.now.game.now in
            let shares = self.now.shares.now in
            MatchOption result
            (InFamily self.now.family game shares)
            (λ r. (mode : Mode) (measure : Measure) (levels : List LevelData)
            → Means measure shares (IsFirstFailure mode self.now.family measure game shares levels) r) }
    {
        self.shares.den();
        if !is_efficient(self.game, self.shares) {
            return Some(Reason::NotEfficient);
        }
        match self.family {
            Family::Preimputations => None,
            Family::Imputations => {
                let player = first_short(self.game, self.shares)?;
                Some(Reason::NotIndividual { player })
            }
        }
    }

    /// The first condition that levels fail, or that they don't fix everything.
    fn levels_failure(&self, mode: Mode, levels: &[Level]) -> Option<Reason>
        requires measurable { IsMeasurable self.now.measure (W.game self.now.game.now).players }
        requires few { (mode ≡ Mode.Players) ⊎ ((W.game self.now.game.now).players ≤ 16) }
        requires form { LevelsForm (W.game self.now.game.now).players [] levels.now }
        requires count { length levels.now ≤ 64 }
        ensures { let game = W.game self.now.game.now in
            let shares = self.now.shares.now in
            MatchOption result
            (LevelsHold mode self.now.family self.now.measure game shares [] levels.now)
            (Means self.now.measure shares
            (LevelsFail mode self.now.family self.now.measure game shares 1 [] levels.now)) }
    {
        let players = self.game.players();
        let mut fixed = Fixed::nothing_fixed(mode, players);
        for i in 0..levels.len() {
            let failure = self.level_failure(&fixed, i as u32 + 1, &levels[..i], &levels[i]);
            if failure.is_some() {
                return failure;
            }
            fixed.fix(players, &levels[i..i + 1]);
        }
        let player = first_unfixed(&fixed, players)?;
        Some(Reason::NotAll { player })
    }

    /// Returns the first condition that `tested` fails, given the levels before it. `level` is its number, from 1.
    fn level_failure(
        &self,
        fixed: &Fixed,
        level: u32,
        front: &[Level],
        tested: &Level,
    ) -> Option<Reason>
        requires measurable { IsMeasurable self.now.measure (W.game self.now.game.now).players }
        requires over { IsOver (W.game self.now.game.now).players fixed.now }
        requires fixes { Fixes (W.game self.now.game.now).players front.now fixed.now }
        requires form { LevelForm (W.game self.now.game.now).players front.now tested.now }
        ensures { let game = W.game self.now.game.now in
            let shares = self.now.shares.now in
            let mode = mode_of fixed.now in
            MatchOption result
            (LevelHolds mode self.now.family self.now.measure game shares front.now tested.now)
            (Means self.now.measure shares
            (LevelFails mode self.now.family self.now.measure game shares level front.now tested.now)) }
    {
        if let Some(coalition) = first_wrong_excess(self.game, self.measure, self.shares, tested) {
            return Some(Reason::WrongExcess { level, coalition });
        }
        if let Some(place) = first_wrong_sign(front, tested) {
            return Some(Reason::WeightSign { level, place });
        }
        if let Some(player) = first_unbalanced(self.game.players(), tested) {
            return Some(Reason::Unbalanced { level, player });
        }
        if let Some(player) = first_not_at_bound(
            self.game,
            self.shares,
            self.family,
            &tested.bounds,
        ) {
            return Some(Reason::BoundNotTight { level, player });
        }
        let excess = self.outside_above(fixed, tested)?;
        Some(Reason::OutsideAbove { level, excess })
    }

    /// The greatest measured excess of a coalition outside, if it is above the level's.
    fn outside_above(&self, fixed: &Fixed, level: &Level) -> Option<Frac>
        requires measurable { IsMeasurable self.now.measure (W.game self.now.game.now).players }
        requires over { IsOver (W.game self.now.game.now).players fixed.now }
        requires fraction { pos 1 ≤ℤ level.now.excess_den }
        ensures { let game = W.game self.now.game.now in
            let shares = self.now.shares.now in
            let mode = mode_of fixed.now in
            (front : List LevelData) → Fixes game.players front fixed.now → MatchOption result
            (OutsideIsLow mode self.now.measure game shares front level.now)
            (λ e. (¬ OutsideIsLow mode self.now.measure game shares front level.now)
            × IsGreatestOutside mode self.now.measure game shares front (Some e)) }
    {
        self.shares.den();
        let excess = greatest_outside(self.game, self.measure, self.shares, fixed)?;
        if is_above(level, &excess) {
            Some(excess)
        } else {
            None
        }
    }
}
