//! The excess by which the coalitions of a game are to be compared.
ghost use Rattle.std.specs.Prelude.{◌≡◌};
ghost use Rattle.serde_json.specs.View.{view};
ghost use Rattle.document_parts.specs.Excess.{measure_named, measure_in, measure_of};

use definitions::Measure;
use json_trees::Form;
use serde_json::Value;

fn measure_named(word: &str) -> Option<Measure>
    ensures { result ≡ measure_named word.now }
{
    if word == "plain" {
        Some(Measure::Plain)
    } else if word == "per-head" {
        Some(Measure::PerHead)
    } else {
        None
    }
}

fn measure_in(text: &Value) -> Option<Measure>
    ensures { result ≡ measure_in (view text.now) }
{
    let word = text.as_str()?;
    measure_named(word)
}

/// A text that names a measure.
#[derive(Clone, Copy, Debug)]
pub struct MeasureWord;

impl Form for MeasureWord {
    ghost use Rattle.document_parts.specs.Excess.{is_measure};

    ghost form = { λ _. is_measure };

    fn fits(&self, text: &Value) -> bool {
        measure_in(text).is_some()
    }
}

/// Returns the measure of a game: plain excess if the game names none.
pub fn measure_of(game: &Value) -> Measure
    ensures { result ≡ measure_of (view game.now) }
{
    game.get("excess")
        .and_then(measure_in)
        .unwrap_or(Measure::Plain)
}
