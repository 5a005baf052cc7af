//! What three airlines pay, judged and checked.
#![tactic(auto)]

ghost use Rattle.std.specs.Prelude.{◌≡◌, ◌↔◌, ◌<◌, ◌^◌, ℕ, true, length, MatchOption};
ghost use Rattle.definitions.specs.Games.{Blocks, IsChosenBlocker, IsNucleolus};
ghost use Rattle.definitions.specs.Certificates.{Certifies};
ghost use Rattle.definitions.specs.declared.Family.TheVariants.{Imputations};
ghost use Rattle.definitions.specs.declared.Measure.TheVariants.{Plain};
ghost use Rattle.airport.specs.Airport.{airport_game};

use airport::AirportGame;
use checker::{Verdict, check};
use coalitions::Coalition;
use definitions::{Family, Measure};
use kohlberg::Certificate;
use worth_core::{Shares, Worth};

/// Returns the coalition that blocks the shares most. Returns none exactly if no coalition blocks, or the shares are
/// for another number of players.
pub fn judged(game: &AirportGame, shares: &Shares) -> Option<Coalition>
    ensures { let g = airport_game game.now in MatchOption result
        (length shares.now.shares ≡ g.players → (s : ℕ) → s < 2 ^ g.players → ¬ Blocks g shares.now s)
        (λ s. (length shares.now.shares ≡ g.players) × IsChosenBlocker g shares.now s) }
{
    if shares.players() != game.players() {
        return None;
    }
    game.blocker(shares)
}

/// Returns whether the certificate shows that the shares are the nucleolus: both are for the game's players, and the
/// certificate meets all conditions.
pub fn is_shown(game: &AirportGame, shares: &Shares, certificate: &Certificate) -> bool
    ensures exact { let g = airport_game game.now in (result ≡ true) ↔ ((length shares.now.shares ≡ g.players)
        × (certificate.now.players ≡ g.players)
        × Certifies certificate.now.mode Imputations Plain g shares.now certificate.now.levels) }
    ensures nucleolus { result ≡ true → IsNucleolus Imputations Plain (airport_game game.now) shares.now }
{
    if shares.players() != game.players() || certificate.players() != game.players() {
        return false;
    }
    check(
        game,
        Family::Imputations,
        Measure::Plain,
        shares,
        certificate,
    ) == Verdict::Yes
}
