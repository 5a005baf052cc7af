//! Games by their tables.

use std::test::Fail;
use worth_tables::TableGame;

/// The assignment game with the values 5, 8 of the first player for the others' goods, and 7, 6 of the second.
pub(crate) const ASSIGNMENT: [i64; 15] = [0, 0, 0, 0, 5, 7, 7, 0, 8, 6, 8, 0, 8, 7, 15];

/// The game of these worths.
pub(crate) fn table(rt: &HostRuntime, players: u32, worths: &[i64]) -> Result<TableGame, Fail> {
    Ok(
        TableGame::new(rt.alloc(), players, worths.to_vec(rt.alloc())?)
            .ok()
            .ok_or("no game")?,
    )
}
