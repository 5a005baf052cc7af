//! Tables from their worths.
use std::alloc::Global;
use std::test::Fail;
use worth_tables::TableGame;

/// The game of these worths.
pub(crate) fn table_of(alloc: Global, n: u32, worths: &[i64]) -> Result<TableGame, Fail> {
    Ok(
        TableGame::new(alloc, n, worths.to_vec(alloc)?)
            .ok()
            .ok_or("no game")?,
    )
}
