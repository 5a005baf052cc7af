//! A document that isn't refused, and why bytes give none.
use crate::classes::Game;
use definitions::{Family, Measure};
use fractions::OutOfMemory;
use kinds::Refusal;
use kohlberg::Certificate;
use serde_json::Value;
use thiserror::Error;
use worth_core::Shares;

/// A game and what is said of it.
#[derive(Debug, Drop)]
pub struct Document {
    /// The game that is described.
    pub game: Game,
    /// The JSON tree of the game, as it was read.
    pub tree: Value,
    /// How the excesses of coalitions are measured: plain, or per head if the game says so. The nucleolus, the
    /// prenucleolus and certificates go by it.
    pub measure: Measure,
    /// The least common denominator of the numbers that the game is written in, from 1 to 65,536. The game, the shares
    /// and the certificate are those of the document times this scale.
    pub scale: i64,
    /// The family that the answer names; there for every command that needs it.
    pub family: Option<Family>,
    /// The proposed shares, as worth over their least common denominator; there for every command that needs them.
    pub shares: Option<Shares>,
    /// The certificate that the shares are best in the family; there for every command that needs it.
    pub certificate: Option<Certificate>,
}

/// Why bytes give no document.
#[derive(Clone, Copy, Debug, PartialEq, Eq, Error)]
pub enum TextFault {
    /// The first refusal that applies.
    #[error("the document is refused: {0:?}")]
    Refused(Refusal),
    /// Memory was not found.
    #[error("memory was not found")]
    Memory,
}

impl From<OutOfMemory> for TextFault {
    ghost use Rattle.std.specs.Prelude.{◌≡◌};
    ghost use Rattle.game_text.specs.declared.document.TextFault.TheVariants.{Memory};

    ghost from_gives = { λ _ e. e ≡ Memory };

    fn from(_: OutOfMemory) -> TextFault {
        TextFault::Memory
    }
}
