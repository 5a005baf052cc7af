//! The surpluses of players against each other, and whether shares are in the prekernel.
#![tactic(auto)]

mod surpluses;

ghost use Rattle.std.specs.Prelude.{◌≡◌, ◌≢◌, ◌↔◌, ◌<◌, ◌≤◌, length};
ghost use Rattle.definitions.specs.Games.{IsEfficient, IsNucleolus};
ghost use Rattle.definitions.specs.Prekernel.{IsSurplus, InPrekernel, holds_without};
ghost use Rattle.kernel_test.specs.Answers.{IsSurplusFraction, IsKernelAnswer};

use crate::surpluses::Surpluses;
use coalitions::Coalition;
use definitions::{Family, Measure};
use fractions::Frac;
use worth_core::{Shares, Worth, is_efficient, raised, ratio};

/// Whether shares are in the prekernel (Maschler, Peleg and Shapley 1972). Players count from 0.
#[derive(Clone, Copy, Debug, PartialEq, Eq)]
pub enum KernelAnswer {
    /// They are: efficient, and each two players have one surplus against each other.
    Balanced,
    /// They do not add to the worth of all.
    NotEfficient,
    /// They are efficient, and `i` and `j` are the first players, `i` before `j`, of different surpluses: `ij` is that
    /// of `i` against `j` and `ji` that of `j` against `i`, both as worth.
    Differs { i: u32, j: u32, ij: Frac, ji: Frac },
}

/// Returns the surplus of one player against another, as worth: the greatest excess over the coalitions that hold `i`
/// and lack `j` (Davis and Maschler 1965). There are at most 16 players.
///
/// It takes no memory and always answers.
pub fn surplus<W: Worth>(game: &W, x: &Shares, i: u32, j: u32) -> Frac
    requires few { (W.game game.now).players ≤ 16 }
    requires shares { length x.now.shares ≡ (W.game game.now).players }
    requires player { i < (W.game game.now).players }
    requires other { j < (W.game game.now).players }
    requires different { i ≢ j }
    ensures { IsSurplusFraction (W.game game.now) x.now i j result }
{
    ratio(scaled_surplus(game, x, i, j), x.den())
}

/// Returns `Balanced` exactly if shares are in the prekernel of a game of at most 16 players. Otherwise returns that
/// they aren't efficient, or the first two players whose surpluses against each other differ. The prenucleolus is in
/// the prekernel (Schmeidler 1969; Maschler, Peleg and Shapley 1979).
///
/// It takes no memory and always answers.
pub fn prekernel<W: Worth>(game: &W, x: &Shares) -> KernelAnswer
    requires few { (W.game game.now).players ≤ 16 }
    requires shares { length x.now.shares ≡ (W.game game.now).players }
    ensures answer { IsKernelAnswer (W.game game.now) x.now result }
    ensures balanced { (result ≡ KernelAnswer.Balanced) ↔ InPrekernel (W.game game.now) x.now }
    ensures not_efficient { (result ≡ KernelAnswer.NotEfficient) ↔ (¬ IsEfficient (W.game game.now) x.now) }
    ensures prenucleolus_is_balanced { IsNucleolus Family.Preimputations Measure.Plain (W.game game.now) x.now
        → result ≡ KernelAnswer.Balanced }
{
    if !is_efficient(game, x) {
        return KernelAnswer::NotEfficient;
    }
    let den = x.den();
    let surpluses = Surpluses::of(game, x);
    match surpluses.first_unbalanced(game.players()) {
        None => KernelAnswer::Balanced,
        Some((i, j)) => KernelAnswer::Differs {
            i,
            j,
            ij: ratio(surpluses.against(i, j), den),
            ji: ratio(surpluses.against(j, i), den),
        },
    }
}

/// The surplus of one player against another, over the denominator of the shares.
fn scaled_surplus<W: Worth>(game: &W, x: &Shares, i: u32, j: u32) -> i128
    requires shares { length x.now.shares ≡ (W.game game.now).players }
    requires player { i < (W.game game.now).players }
    requires other { j < (W.game game.now).players }
    requires different { i ≢ j }
    ensures { IsSurplus (W.game game.now) x.now i j result }
{
    let mut most = None;
    let mut paid = 0;
    for s in Coalition::subsets(game.players()) {
        paid = x.sum_after(paid, s);
        if holds_without(s, i, j) {
            most = raised(most, x.excess_from(game.worth(s), paid));
        }
    }
    most.unwrap()
}

/// Whether a coalition holds one player and lacks another.
fn holds_without(s: Coalition, i: u32, j: u32) -> bool
    requires player { i < 64 }
    requires other { j < 64 }
    ensures { result ≡ holds_without i j s }
{
    s.contains(i) && !s.contains(j)
}
