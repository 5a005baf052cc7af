//! `propose`: the judgement on the shares of a document.
ghost use Rattle.std.specs.Prelude.{◌≡◌, length, pos, ◌≤ℤ◌};
ghost use Rattle.fractions.specs.Fraction.{IsRatio};
ghost use Rattle.game_text.specs.Readings.{contents_in};
ghost use Rattle.report.specs.Limits.{IsPrintable};
ghost use Rattle.coop.specs.Judgement.{Judges, JudgesAll, HasShares};
ghost use Rattle.coop.specs.ReadBack.{IsNoNucleolus};

use crate::commands::{printed_amount, printed_worth};
use coalitions::Coalition;
use fractions::Frac;
use game_text::Document;
use report::Answer;
use worth_core::{Shares, Worth, scaled, scaled_excess};

/// The judgement on what a document proposes.
#[inline(never)]
pub(crate) fn propose_document(document: &Document) -> Answer
    requires { HasShares (contents_in document.now) }
    ensures judges { JudgesAll (contents_in document.now) result }
    ensures printable { IsPrintable result }
    ensures readable { IsNoNucleolus result }
{
    let shares = document.shares.as_ref().unwrap();
    judge(&document.game, shares, document.game.is_cost())
}

/// Whether the shares add to the worth of all, and whether a coalition blocks them.
pub(crate) fn judge<W: Worth>(game: &W, shares: &Shares, are_costs: bool) -> Answer
    requires { length shares.now.shares ≡ (W.game game.now).players }
    ensures judges { Judges are_costs (W.game game.now) shares.now result }
    ensures printable { IsPrintable result }
    ensures readable { IsNoNucleolus result }
{
    let everyone = Coalition::all(game.players());
    let sum = shares.sum_of(everyone);
    let total = game.worth(everyone);
    // `is_efficient` isn't asked, since a sum that differs is printed.
    if sum != scaled(shares.den(), total) {
        return Answer::NotEfficient {
            sum: over(printed_amount(sum, are_costs), shares.den()),
            total: printed_worth(total, are_costs),
        };
    }
    match game.blocker(shares) {
        Some(coalition) => Answer::Blocked {
            coalition,
            excess: over(scaled_excess(game, shares, coalition), shares.den()),
        },
        None => Answer::InCore,
    }
}

// The fraction in lowest terms.
fn over(num: i128, den: i128) -> Frac
    requires { pos 1 ≤ℤ den }
    ensures { IsRatio result num den }
{
    Frac::new(num, den).unwrap()
}
