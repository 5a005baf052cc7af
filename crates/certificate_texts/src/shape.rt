//! The kinds and keys of a certificate, and the words of the families and of the modes.
ghost use Rattle.std.specs.Prelude.{◌≡◌};
ghost use Rattle.serde_json.specs.View.{view};
ghost use Rattle.certificate_texts.specs.Shape.{family_named, family_of, mode_named, mode_of};

use definitions::{Family, Mode};
use json_trees::{ArrayOf, Form, Number, PairOf, Text, has, has_only_keys};
use serde_json::Value;

fn family_named(word: &str) -> Option<Family>
    ensures { result ≡ family_named word.now }
{
    if word == "nucleolus" {
        Some(Family::Imputations)
    } else if word == "prenucleolus" {
        Some(Family::Preimputations)
    } else {
        None
    }
}

/// Returns the family that the answer of a document names.
pub fn family_of(tree: &Value) -> Option<Family>
    ensures { result ≡ family_of (view tree.now) }
{
    let word = tree.get("answer").and_then(Value::as_str)?;
    family_named(word)
}

fn mode_named(word: &str) -> Option<Mode>
    ensures { result ≡ mode_named word.now }
{
    if word == "players" {
        Some(Mode::Players)
    } else if word == "span" {
        Some(Mode::Span)
    } else {
        None
    }
}

/// The mode that a certificate names.
pub(crate) fn mode_of(certificate: &Value) -> Option<Mode>
    ensures { result ≡ mode_of (view certificate.now) }
{
    let word = certificate.get("mode").and_then(Value::as_str)?;
    mode_named(word)
}

/// The numbers of the players of a coalition, and a weight.
const WEIGHTED_COALITION: PairOf<ArrayOf<Number>, Number> = PairOf(ArrayOf(Number), Number);

/// The number of a player, and a weight.
const WEIGHTED_PLAYER: PairOf<Number, Number> = PairOf(Number, Number);

/// The keys and kinds of a level.
#[derive(Clone, Copy, Debug)]
struct LevelShape;

impl Form for LevelShape {
    ghost use Rattle.certificate_texts.specs.Shape.{is_level};

    ghost form = { λ _. is_level };

    fn fits(&self, level: &Value) -> bool {
        has_only_keys(
            &["bounds", "coalitions", "earlier", "excess", "total"],
            level,
        ) && has(level, "bounds", &ArrayOf(WEIGHTED_PLAYER))
            && has(level, "coalitions", &ArrayOf(WEIGHTED_COALITION))
            && has(level, "earlier", &ArrayOf(WEIGHTED_COALITION))
            && has(level, "excess", &Text)
            && has(level, "total", &Number)
    }
}

/// The keys, kinds and words of a certificate.
#[derive(Clone, Copy, Debug)]
pub struct CertificateShape;

impl Form for CertificateShape {
    ghost use Rattle.certificate_texts.specs.Shape.{is_certificate};

    ghost form = { λ _. is_certificate };

    fn fits(&self, certificate: &Value) -> bool {
        has_only_keys(&["levels", "mode"], certificate)
            && has(certificate, "levels", &ArrayOf(LevelShape))
            && mode_of(certificate).is_some()
    }
}
