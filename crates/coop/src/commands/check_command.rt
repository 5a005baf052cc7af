//! `check`: the verdict on the certificate of a document.
ghost use Rattle.std.specs.Prelude.{◌≡◌, length, IfOk};
ghost use Rattle.definitions.specs.Measures.{IsMeasurable};
ghost use Rattle.game_text.specs.Classes.{game_of, description_in};
ghost use Rattle.game_text.specs.Readings.{contents_in};
ghost use Rattle.coop.specs.Checks.{Checks, HasLowestExcess, IsCheckable};
ghost use Rattle.coop.specs.ReadBack.{IsNoNucleolus};
ghost use Rattle.checker.specs.Meaning.{IsVerdict};
ghost use Rattle.report.specs.Limits.{IsPrintable};

use crate::classes::{check_limit, kept_where_slow};
use crate::commands::recall_limits;
use checker::{Reason, Verdict, check};
use definitions::{Family, Measure};
use fractions::OutOfMemory;
use game_text::{Document, Game};
use kohlberg::Certificate;
use report::{Answer, UsageKind};
use std::alloc::Global;
use worth_core::{Shares, Worth};

/// The verdict on what a document says is the nucleolus of its game, or the prenucleolus, by the measure that it says;
/// or that the game has more players than are checked by it.
#[inline(never)]
pub(crate) fn check_document(alloc: Global, document: &Document) -> Result<Answer, OutOfMemory>
    requires { IsCheckable (contents_in document.now) }
    ensures checks { IfOk result (Checks (contents_in document.now)) }
    ensures printable { IfOk result IsPrintable }
    ensures readable { IfOk result IsNoNucleolus }
{
    let family = document.family.unwrap();
    let shares = document.shares.as_ref().unwrap();
    let certificate = document.certificate.as_ref().unwrap();
    if document.game.players() > check_limit(document.measure) {
        return Ok(Answer::Usage(UsageKind::Players));
    }
    let measure = document.measure;
    let verdict = verdict_on(alloc, &document.game, family, measure, shares, certificate)?;
    keep_lowest(&verdict);
    recall_limits(shares, certificate);
    Ok(Answer::Verdict(verdict))
}

// The checker's verdict.
fn verdict_on(
    alloc: Global,
    game: &Game,
    family: Family,
    measure: Measure,
    shares: &Shares,
    certificate: &Certificate,
) -> Result<Verdict, OutOfMemory>
    requires shares { length shares.now.shares ≡ (game_of (description_in game.now)).players }
    requires measurable { IsMeasurable measure (game_of (description_in game.now)).players }
    requires certificate { certificate.now.players ≡ (game_of (description_in game.now)).players }
    ensures { IfOk result (IsVerdict certificate.now.mode family measure (game_of (description_in game.now))
        shares.now certificate.now.levels) }
{
    match kept_where_slow(alloc, game)? {
        Some(kept) => Ok(check(&kept, family, measure, shares, certificate)),
        None => Ok(check(game, family, measure, shares, certificate)),
    }
}

// The excess that a verdict carries is in lowest terms by its type; this call says so.
fn keep_lowest(verdict: &Verdict)
    ensures { HasLowestExcess verdict.now }
{
    if let Verdict::No(Reason::OutsideAbove { excess, .. }) = verdict {
        excess.den();
    }
}
