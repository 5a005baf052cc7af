//! The game of a kind, a number of players and a seed.
ghost use Rattle.std.specs.Prelude.{◌≡◌, ◌↔◌, ◌^◌, ◌<◌, IfOk, IsTrue};
ghost use Rattle.game_text.specs.Classes.{description_in};
ghost use Rattle.coop_gen.specs.Generated.{HasKindSize, generated};

use drawn_games::{airport, assignment, bankruptcy, table, tree};
use fractions::OutOfMemory;
use game_text::{Game, Kind};
use std::alloc::Global;

/// Returns the game of that kind, of `n` players, made from the seed. The kind has games of that number of players, and
/// the seed is below 2^31.
///
/// Fails only if memory runs out.
pub fn generate(alloc: Global, kind: Kind, n: u32, seed: u32) -> Result<Game, OutOfMemory>
    requires size { HasKindSize kind n }
    requires seed { seed < 2 ^ 31 }
    ensures { IfOk result (λ game. description_in game ≡ generated kind n seed) }
{
    Ok(match kind {
        Kind::Table => Game::Table(table(alloc, n, seed)?),
        Kind::Airport => Game::Airport(airport(alloc, n, seed)?),
        Kind::Bankruptcy => Game::Bankruptcy(bankruptcy(alloc, n, seed)?),
        Kind::Tree => Game::Tree(tree(alloc, n, seed)?),
        Kind::Assignment => Game::Assignment(assignment(alloc, n, seed)?),
    })
}

/// Returns whether the kind has games of `n` players.
pub fn has_size(kind: Kind, n: u32) -> bool
    ensures { IsTrue result ↔ HasKindSize kind n }
{
    match kind {
        Kind::Table | Kind::Tree => 1 <= n && n <= 16,
        Kind::Airport | Kind::Bankruptcy => 1 <= n && n <= 64,
        Kind::Assignment => 2 <= n && n <= 16,
    }
}
