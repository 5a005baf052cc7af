//! What is found: the shares of the last stage, and their certificate; or that there is no imputation.
ghost use Rattle.std.specs.Prelude.{◌≡◌, ◌≤◌, [], ◌∷◌, length, pos, IfOk, IfSome, MatchOption};
ghost use Rattle.definitions.specs.Coalitions.{grand_coalition};
ghost use Rattle.definitions.specs.declared.Measure.{Measure};
ghost use Rattle.worth_core.specs.Allocations.{allocation};
ghost use Rattle.nested_programs.specs.Answer.{IsFound, singles, HasMember, LacksImputation};
ghost use Rattle.separation.specs.Shares.{IsReadFrom};

use crate::stages::all_stages;
use coalitions::Coalition;
use definitions::{Family, Measure, Mode};
use fractions::OutOfMemory;
use kohlberg::Certificate;
use simplex::Multipliers;
use std::alloc::Global;
use worth_core::{Shares, Worth};

/// What is found for a game of at most 16 players.
#[derive(Debug, Drop)]
pub enum Found {
    /// The shares of the nucleolus or the prenucleolus, as worth, and their certificate in mode span.
    Point(Shares, Certificate),
    /// There is no imputation: the worths of the players alone add to `singles`, and all are worth `total`, which is
    /// less.
    NoImputation { singles: i64, total: i64 },
}

/// Why nothing is found.
#[derive(Clone, Copy, Debug, PartialEq, Eq)]
pub enum NestedFault {
    /// There are more than 16 players.
    TooMany,
    /// There isn't enough memory.
    Memory,
}

/// The worths of the players alone, added.
fn singles<W: Worth>(game: &W) -> i64
    requires { (W.game game.now).players ≤ 16 }
    ensures { result ≡ singles (W.game game.now) }
{
    let mut sum: i64 = 0;
    for i in 0..game.players() {
        sum += game.worth(Coalition::single(i));
    }
    sum
}

/// The worths of the players alone, added, and the worth of all, if the first is more and the family is the
/// imputations.
pub(crate) fn lacks_imputation<W: Worth>(game: &W, family: Family) -> Option<(i64, i64)>
    requires { (W.game game.now).players ≤ 16 }
    ensures { MatchOption result (HasMember family (W.game game.now))
        (λ found. LacksImputation family (W.game game.now) found.0 found.1) }
{
    let sum = singles(game);
    let total = game.worth(Coalition::all(game.players()));
    if family == Family::Imputations && sum > total {
        Some((sum, total))
    } else {
        None
    }
}

/// The shares that are the multipliers of the players' rows, over their denominator. Without multipliers it is one
/// share, the worth of all.
///
/// The denominator isn't always the least common one; what is printed are fraction texts, which have one form.
fn shares_of<W: Worth>(
    alloc: Global,
    game: &W,
    last: &Option<Multipliers>,
) -> Result<Shares, OutOfMemory>
    requires few { (W.game game.now).players ≤ 16 }
    requires wide { IfSome last.now (λ m. (W.game game.now).players ≤ length m.num.items) }
    ensures { let g = W.game game.now in IfOk result (λ x. MatchOption last.now
        (x ≡ allocation (g.worth (grand_coalition g.players) ∷ []) (pos 1))
        (λ m. IsReadFrom g.players m.num.items m.den x)) }
{
    let n = game.players();
    match last {
        None => {
            let mut num = Vec::new(alloc);
            num.push(i128::from(game.worth(Coalition::all(n))))?;
            Ok(Shares::new(num, 1).unwrap())
        }
        Some(multipliers) => separation::shares_of(alloc, multipliers, n),
    }
}

// For the crates above.

/// Returns what `solve` finds, for a game of at most 16 players, per head at most 8, as the caller has tested. Fails
/// only if memory runs out. It isn't inlined: a caller that calls it twice on one path would take its large frame
/// twice.
#[inline(never)]
pub fn solve_few<W: Worth>(
    alloc: Global,
    game: &W,
    family: Family,
    measure: Measure,
) -> Result<Found, OutOfMemory>
    requires few { (W.game game.now).players ≤ 16 }
    requires heads { measure ≡ Measure.PerHead → (W.game game.now).players ≤ 8 }
    ensures { IfOk result (IsFound family measure (W.game game.now)) }
{
    if let Some((singles, total)) = lacks_imputation(game, family) {
        return Ok(Found::NoImputation { singles, total });
    }
    let (levels, last) = all_stages(alloc, game, family, measure)?;
    let shares = shares_of(alloc, game, &last)?;
    let certificate = Certificate::new(game.players(), Mode::Span, levels).unwrap();
    Ok(Found::Point(shares, certificate))
}
