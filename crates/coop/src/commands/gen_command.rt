//! `gen`: the nucleolus of a generated game.
ghost use Rattle.std.specs.Prelude.{◌≡◌, ◌^◌, ◌<◌, length, IfOk, MatchOption};
ghost use Rattle.definitions.specs.Games.{IsNucleolus};
ghost use Rattle.definitions.specs.Certificates.{Certifies};
ghost use Rattle.definitions.specs.declared.Family.TheVariants.{Imputations};
ghost use Rattle.definitions.specs.declared.Measure.TheVariants.{Plain};
ghost use Rattle.game_text.specs.Classes.{game_of, description_in};
ghost use Rattle.coop_gen.specs.Generated.{HasKindSize};
ghost use Rattle.coop.specs.Classes.{HasFewPlayers};
ghost use Rattle.coop.specs.Finding.{IsFoundFor};
ghost use Rattle.coop.specs.GeneratorClaims.{IsGreatestExcess, IsSummaryOf};
ghost use Rattle.drawn_games.specs.Imputations.{HasImputations};
ghost use Rattle.report.specs.Limits.{IsFineIfThere};

use crate::classes::{kept_where_slow, solve_plain};
use checker::{Verdict, check};
use coalitions::Coalition;
use coop_gen::generate;
use definitions::{Family, Measure};
use fractions::{Frac, OutOfMemory};
use game_text::{Game, Kind};
use kohlberg::Certificate;
use nested_programs::{Found, solve_few};
use report::Summary;
use std::alloc::Global;
use worth_core::{Shares, Worth, measured_bound};

/// What is said of the nucleolus of a generated game, after the checker has said yes to its certificate.
pub(crate) fn summary_of(
    alloc: Global,
    kind: Kind,
    players: u32,
    seed: u32,
) -> Result<Summary, OutOfMemory>
    requires size { HasKindSize kind players }
    requires seed { seed < 2 ^ 31 }
    ensures summary { IfOk result (IsSummaryOf kind players seed) }
    ensures fine { IfOk result (λ s. IsFineIfThere s.greatest) }
{
    let game = generate(alloc, kind, players, seed)?;
    let (shares, greatest) = solved(alloc, &game)?;
    Ok(Summary {
        kind,
        players,
        seed,
        is_cost: game.is_cost(),
        shares,
        greatest,
    })
}

// The nucleolus of a game that has imputations, and its greatest excess. If the game computes each worth
// anew, the worths are kept for the programs and the checker.
fn solved(alloc: Global, game: &Game) -> Result<(Shares, Option<Frac>), OutOfMemory>
    requires few { HasFewPlayers (description_in game.now) }
    requires imputations { HasImputations (game_of (description_in game.now)) }
    ensures nucleolus { IfOk result (λ s. IsNucleolus Imputations Plain (game_of (description_in game.now)) s.0) }
    ensures greatest { IfOk result (λ s. IsGreatestExcess (game_of (description_in game.now)) s.0 s.1) }
    ensures fine { IfOk result (λ s. IsFineIfThere s.1) }
{
    if let Some(kept) = kept_where_slow(alloc, game)? {
        let found = solve_few(alloc, &kept, Family::Imputations, Measure::Plain)?;
        return Ok(checked(&kept, found));
    }
    let found = solve_plain(alloc, game, Family::Imputations)?;
    Ok(checked(game, found))
}

// The shares that were found, whose certificate the checker says yes to, and their greatest excess.
fn checked<W: Worth>(game: &W, found: Found) -> (Shares, Option<Frac>)
    requires found { IsFoundFor Imputations Plain (W.game game.now) found }
    requires imputations { HasImputations (W.game game.now) }
    ensures nucleolus { IsNucleolus Imputations Plain (W.game game.now) result.0 }
    ensures greatest { IsGreatestExcess (W.game game.now) result.0 result.1 }
    ensures fine { IsFineIfThere result.1 }
{
    let (shares, certificate) = match found {
        Found::Point(shares, certificate) => (shares, certificate),
        // The game has imputations.
        Found::NoImputation { .. } => unreachable!(),
    };
    match approved(game, shares, &certificate) {
        Some(shares) => {
            let greatest = greatest_excess(game, &shares);
            (shares, greatest)
        }
        // What was found meets all conditions.
        None => unreachable!(),
    }
}

// The shares, if the checker says yes to their certificate.
fn approved<W: Worth>(game: &W, shares: Shares, certificate: &Certificate) -> Option<Shares>
    requires shares { length shares.shares ≡ (W.game game.now).players }
    requires certificate { certificate.now.players ≡ (W.game game.now).players }
    ensures { MatchOption result
        (¬ Certifies certificate.now.mode Imputations Plain (W.game game.now) shares certificate.now.levels)
        (IsNucleolus Imputations Plain (W.game game.now)) }
{
    let verdict = check(
        game,
        Family::Imputations,
        Measure::Plain,
        &shares,
        certificate,
    );
    match verdict {
        Verdict::Yes => Some(shares),
        Verdict::No(_) => None,
    }
}

// The greatest excess of a coalition that is neither empty nor all, and none for one player.
fn greatest_excess<W: Worth>(game: &W, shares: &Shares) -> Option<Frac>
    requires { length shares.now.shares ≡ (W.game game.now).players }
    ensures greatest { IsGreatestExcess (W.game game.now) shares.now result }
    ensures fine { IsFineIfThere result }
{
    let players = game.players();
    if players == 1 {
        return None;
    }
    let all = Coalition::all(players);
    let greatest = measured_bound(game, shares, all, Measure::Plain);
    // It is in lowest terms by its type, and the denominator of shares is within its limit; these calls say so.
    greatest.den();
    shares.den();
    Some(greatest)
}
