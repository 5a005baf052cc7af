//! Excesses by a measure: as they are, or over the number of members (Grotte 1970).
ghost use Rattle.std.specs.Prelude.{◌≡◌, true, false, Some, IsTrue, MatchOption, length};
ghost use Rattle.std.specs.Prelude.{◌^◌, ◌<◌, ◌≤◌, unsigned_abs, pos, ◌*ℤ◌, ◌≤ℤ◌};
ghost use Rattle.fractions.specs.Fraction.{IsRatio};
ghost use Rattle.definitions.specs.Coalitions.{has_player, splits};
ghost use Rattle.definitions.specs.Measures.{divisor, IsMeasurable};
ghost use Rattle.definitions.specs.Games.{amount, HasTwo};
ghost use Rattle.worth_core.specs.Measured.{IsDivided, IsGreatestDivided, is_below, IsMeasuredBound};

use crate::ratios::ratio;
use crate::splitting::splits;
use crate::{Shares, Worth};
use coalitions::Coalition;
use definitions::Measure;
use fractions::Frac;
use std::marker::Model;

/// What a measure divides the excess of a coalition by.
///
/// It is a trait, since a type of another crate takes no methods of its own, and `Coalition` is above `definitions`.
pub trait Divisor {
    /// Returns 1, or the number of members of a coalition that isn't empty.
    fn divisor(self, s: Coalition) -> u32
        requires { 0 < s };
}

impl Divisor for Measure {
    fn divisor(self, s: Coalition) -> u32
        requires { 0 < s }
        ensures { result ≡ divisor self s }
    {
        match self {
            Measure::Plain => 1,
            Measure::PerHead => s.len(),
        }
    }
}

/// The excess of a coalition, over the denominator of shares, and what a measure divides it by.
#[derive(Clone, Copy, Debug)]
pub struct Divided {
    excess: i128,
    divisor: u32,
}

impl Model for Divided {
    ghost use Rattle.worth_core.specs.Measured.{Divided, IsSmallDivided};

    ghost Value = { Divided };

    ghost view = { λ d. record { excess = d.excess; divisor = d.divisor } };

    ghost invariant = { λ d. IsSmallDivided (record { excess = d.excess; divisor = d.divisor }) };

    ghost inverse = { λ d. record { excess = d.excess; divisor = d.divisor } };
}

impl Divided {
    /// Makes the measured excess of an excess, over the denominator of shares, and what it is divided by.
    pub fn new(excess: i128, divisor: u32) -> Divided
        requires small { unsigned_abs excess < 2 ^ 118 }
        requires some { 1 ≤ divisor }
        requires few { divisor ≤ 64 }
        ensures { result ≡ record { excess = excess; divisor = divisor } }
    {
        Divided { excess, divisor }
    }

    /// Returns the excess of a coalition that isn't empty, and what the measure divides it by.
    pub fn of<W: Worth>(game: &W, x: &Shares, measure: Measure, s: Coalition) -> Divided
        requires shares { length x.now.shares ≡ (W.game game.now).players }
        requires some { 0 < s }
        requires within { s < 2 ^ (W.game game.now).players }
        ensures { IsDivided measure (W.game game.now) x.now s result }
    {
        Divided::of_paid(game, x, measure, s, x.sum_of(s))
    }

    /// Returns the excess of a coalition that isn't empty, and what the measure divides it by, if it is known what the
    /// members get together, over the denominator.
    pub fn of_paid<W: Worth>(
        game: &W,
        x: &Shares,
        measure: Measure,
        s: Coalition,
        paid: i128,
    ) -> Divided
        requires shares { length x.now.shares ≡ (W.game game.now).players }
        requires some { 0 < s }
        requires within { s < 2 ^ (W.game game.now).players }
        requires paid { paid ≡ amount x.now s }
        ensures { IsDivided measure (W.game game.now) x.now s result }
    {
        game.players(); // Brings the laws of the game,
        x.players(); // and of the shares.
        Divided {
            excess: x.excess_from(game.worth(s), paid),
            divisor: measure.divisor(s),
        }
    }

    /// Returns whether the excess over its divisor is less than another over its own.
    pub fn is_below(&self, other: &Divided) -> bool
        ensures { result ≡ is_below self.now other.now }
    {
        self.excess * (other.divisor as i128) < other.excess * (self.divisor as i128)
    }

    /// Returns the measured excess in lowest terms. `den` is the denominator of the shares.
    pub fn over(self, den: i128) -> Frac
        requires positive { pos 1 ≤ℤ den }
        requires common { den ≤ℤ pos (2 ^ 63) }
        ensures { IsRatio result self.excess (den *ℤ pos self.divisor) }
    {
        ratio(self.excess, den * (self.divisor as i128))
    }
}

/// Returns whether a measured excess is more than the greatest so far, or the first.
pub fn is_more(most: &Option<Divided>, here: &Divided) -> bool
    ensures { MatchOption most.now (result ≡ true) (λ m. result ≡ is_below m here.now) }
{
    match most {
        None => true,
        Some(most) => most.is_below(here),
    }
}

/// Returns the new excess if it is taken, and otherwise the one before.
pub fn replaced_if(most: Option<Divided>, here: Divided, is_taken: bool) -> Option<Divided>
    ensures taken { is_taken ≡ true → result ≡ Some here }
    ensures kept { is_taken ≡ false → result ≡ most }
{
    if is_taken { Some(here) } else { most }
}

/// Returns the greatest measured excess over the coalitions that hold some but not all of the players of `free`: over
/// the denominator of the shares, and per head over the number of members too.
pub fn measured_bound<W: Worth>(game: &W, x: &Shares, free: Coalition, measure: Measure) -> Frac
    requires shares { length x.now.shares ≡ (W.game game.now).players }
    requires within { free < 2 ^ (W.game game.now).players }
    requires two { HasTwo (W.game game.now).players free }
    requires measurable { IsMeasurable measure (W.game game.now).players }
    ensures { IsMeasuredBound measure (W.game game.now) x.now free result }
{
    match measure {
        Measure::Plain => ratio(game.split_bound(x, free), x.den()),
        Measure::PerHead => greatest_split(game, x, free, measure).over(x.den()),
    }
}

/// The greatest of these measured excesses, by a scan of all coalitions.
fn greatest_split<W: Worth>(game: &W, x: &Shares, free: Coalition, measure: Measure) -> Divided
    requires shares { length x.now.shares ≡ (W.game game.now).players }
    requires within { free < 2 ^ (W.game game.now).players }
    requires two { HasTwo (W.game game.now).players free }
    requires measurable { IsMeasurable measure (W.game game.now).players }
    ensures { IsGreatestDivided measure (W.game game.now) x.now
        (λ t. IsTrue (splits (W.game game.now).players (has_player free) t)) result }
{
    let players = game.players();
    let mut most: Option<Divided> = None;
    let mut s = Coalition::empty();
    let mut paid = 0;
    while let Some(next) = s.next_mask(players) {
        s = next;
        paid = x.sum_after(paid, s);
        let here = Divided::of_paid(game, x, measure, s, paid);
        let is_greatest = is_more(&most, &here) && splits(s, free, players);
        most = replaced_if(most, here, is_greatest);
    }
    most.unwrap()
}
