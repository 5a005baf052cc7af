//! The levels in front of a stage, and what they fix.

ghost use Rattle.std.specs.Prelude.{◌≡◌, ◌+◌, ◌<◌, ◌≤◌, length, IfOk, IfSome};
ghost use Rattle.definitions.specs.Certificates.{HasForm};
ghost use Rattle.definitions.specs.declared.Measure.{Measure};
ghost use Rattle.definitions.specs.declared.Mode.{Mode};
ghost use Rattle.separation.specs.Same.{IsSpanOf};

use definitions::{Family, Measure, Mode};
use kohlberg::{Certificate, Level, add_levels};
use nested_programs::{Found, solve};
use spans::Span;
use std::alloc::Global;
use std::test::Fail;
use worth_core::Worth;

/// The certificate of the nucleolus, or of the prenucleolus, of a game; none if it has no imputation.
pub(crate) fn certificate_of<W: Worth>(
    alloc: Global,
    game: &W,
    family: Family,
    measure: Measure,
) -> Result<Option<Certificate>, Fail>
    requires heads { measure ≡ Measure.PerHead → (W.game game.now).players ≤ 8 }
    ensures mode { IfOk result (λ o. IfSome o (λ c. c.mode ≡ Mode.Span)) }
    ensures players { IfOk result (λ o. IfSome o (λ c. c.players ≡ (W.game game.now).players)) }
{
    match solve(alloc, game, family, measure) {
        Ok(Found::Point(_, certificate)) => {
            if certificate.mode() != Mode::Span || certificate.players() != game.players() {
                Err("the certificate of another game")?;
            }
            Ok(Some(certificate))
        }
        Ok(Found::NoImputation { .. }) => Ok(None),
        Err(_) => Err("no answer")?,
    }
}

/// The first levels of a certificate.
pub(crate) fn first_levels(certificate: &Certificate, count: usize) -> &[Level]
    requires { count ≤ length certificate.now.levels }
    ensures form { HasForm certificate.now.mode certificate.now.players result.now }
    ensures count { length result.now ≡ count }
    ensures room { count < length certificate.now.levels → count + 2 ≤ certificate.now.players }
{
    &certificate.levels()[..count]
}

/// The span of what levels fix.
pub(crate) fn span_of(players: u32, levels: &[Level]) -> Span
    requires { HasForm Mode.Span players levels.now }
    ensures players { result.players ≡ players }
    ensures spans { IsSpanOf players result.kept levels.now }
{
    let mut span = Span::new(players);
    add_levels(&mut span, levels);
    span
}
