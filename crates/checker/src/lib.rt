//! Whether a certificate shows that shares are the nucleolus or the prenucleolus of a game (Kohlberg 1971).
#![tactic(auto)]

mod conditions;
mod failures;
mod fixed;
mod outside;

ghost use Rattle.std.specs.Prelude.{◌≡◌, ◌↔◌, length};
ghost use Rattle.definitions.specs.Measures.{IsMeasurable};
ghost use Rattle.definitions.specs.Games.{IsNucleolus};
ghost use Rattle.definitions.specs.Certificates.{Certifies};
ghost use Rattle.checker.specs.Meaning.{IsVerdict};

use crate::failures::Claim;
use definitions::{Family, Measure};
use kohlberg::Certificate;
pub use kohlberg::{Place, Reason, Verdict};
use worth_core::{Shares, Worth};

/// Returns `Yes` exactly if the certificate meets all conditions for these shares by the measure, and otherwise `No`
/// with the first condition that fails. After `Yes` the shares are the nucleolus of the game, or the prenucleolus for
/// preimputations (Schmeidler 1969; per head Grotte 1970). There are at most 16 players if excess is per head.
///
/// The conditions, in the order in which they are tested: the shares add to the worth of all; for imputations no share
/// is below the worth alone. Then level by level: its coalitions have its excess; their weights are at least 1, and so
/// are those of its bounds, except for players whose bound has such a weight at an earlier level; at each player the
/// weights, with those of earlier coalitions, add to its total; the players in its bounds get their worth alone, and
/// only imputations have bounds; no coalition that earlier levels don't fix has a greater excess. At the end the levels
/// fix everything.
///
/// It takes no memory and always answers.
pub fn check<W: Worth>(
    game: &W,
    family: Family,
    measure: Measure,
    shares: &Shares,
    certificate: &Certificate,
) -> Verdict
    requires shares { length shares.now.shares ≡ (W.game game.now).players }
    requires measurable { IsMeasurable measure (W.game game.now).players }
    requires certificate { certificate.now.players ≡ (W.game game.now).players }
    ensures verdict { IsVerdict certificate.now.mode family measure (W.game game.now) shares.now
        certificate.now.levels result }
    ensures nucleolus { result ≡ Verdict.Yes → IsNucleolus family measure (W.game game.now) shares.now }
    ensures exact { (result ≡ Verdict.Yes)
        ↔ Certifies certificate.now.mode family measure (W.game game.now) shares.now certificate.now.levels }
{
    certificate.players();
    let claim = Claim {
        game,
        family,
        measure,
        shares,
    };
    match claim.first_failure(certificate.mode(), certificate.levels()) {
        None => Verdict::Yes,
        Some(reason) => Verdict::No(reason),
    }
}
