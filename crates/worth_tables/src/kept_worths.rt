//! A game whose worths are kept in a table.
ghost use Rattle.std.specs.Prelude.{◌≡◌, ◌≤◌, IfOk};
ghost use Rattle.worth_tables.specs.Kept.{AreWorths};

use coalitions::Coalition;
use fractions::OutOfMemory;
use std::alloc::{AllocError, Global};
use std::marker::Model;
use worth_core::Worth;

/// Another game of at most 16 players, whose worth of each coalition was asked once, at the making, and is kept. For
/// games whose `worth` takes long and is wanted many times for each coalition.
#[derive(Drop)]
pub struct KeptWorths<'a, W: Worth> {
    inner: &'a W,
    worths: Vec<i64>,
}

impl<'a, W: Worth> Model for KeptWorths<'a, W> {
    ghost use Rattle.worth_tables.specs.Kept.{AreWorths};

    ghost Value = { W };

    ghost view = { λ k. k.inner.now };

    ghost invariant = { λ k. AreWorths (W.game k.inner.now) k.worths.items };
}

/// The worth of each coalition, in mask order from the empty one.
fn worths_of<W: Worth>(alloc: Global, game: &W) -> Result<Vec<i64>, AllocError>
    requires { (W.game game.now).players ≤ 16 }
    ensures { IfOk result (λ v. AreWorths (W.game game.now) v.items) }
{
    let mut worths = Vec::new(alloc);
    for s in 0..1u64 << game.players() {
        worths.push(game.worth(Coalition(s)))?;
    }
    Ok(worths)
}

impl<'a, W: Worth> KeptWorths<'a, W> {
    /// Keeps each worth of that game in a table; the game is the same. Fails only if memory runs out.
    pub fn new(alloc: Global, inner: &'a W) -> Result<KeptWorths<'a, W>, OutOfMemory>
        requires { (W.game inner.now).players ≤ 16 }
        ensures { IfOk result (λ k. k ≡ inner.now) }
    {
        match worths_of(alloc, inner) {
            Ok(worths) => Ok(KeptWorths { inner, worths }),
            Err(_) => Err(OutOfMemory),
        }
    }
}

impl<W: Worth> Worth for KeptWorths<'_, W> {
    ghost game = { λ inner. W.game inner };

    fn players(&self) -> u32 {
        self.inner.players()
    }

    fn worth(&self, s: Coalition) -> i64 {
        self.worths[s.0 as usize]
    }
}
