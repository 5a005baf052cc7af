//! A game of costs.
use coalitions::Coalition;
use std::marker::Model;
use worth_core::Worth;

/// A game whose worths are minus those of another game, for example if the other game's worths are costs.
#[derive(Debug, Drop)]
pub struct CostGame<W: Worth> {
    inner: W,
}

impl<W: Worth> Model for CostGame<W> {
    ghost Value = { W };

    ghost view = { λ c. c.inner };
}

impl<W: Worth> CostGame<W> {
    ghost use Rattle.std.specs.Prelude.{◌≡◌};

    /// Makes the game of minus the worths of that game.
    pub fn new(inner: W) -> CostGame<W>
        ensures { result ≡ inner }
    {
        CostGame { inner }
    }
}

impl<W: Worth> Worth for CostGame<W> {
    ghost use Rattle.worth_tables.specs.Tables.{cost_game};

    ghost game = { λ inner. cost_game (W.game inner) };

    fn players(&self) -> u32 {
        self.inner.players()
    }

    fn worth(&self, s: Coalition) -> i64 {
        self.inner.players(); // Brings the laws of the game.
        -self.inner.worth(s)
    }
}
