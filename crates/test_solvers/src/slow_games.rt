//! Games on which the simplex is slow if the column of least number enters.

ghost use Rattle.std.specs.Prelude.{◌≤◌};

use std::alloc::Global;
use std::test::Fail;
use worth_tables::TableGame;

/// A family of games.
#[derive(Clone, Copy, Debug)]
pub(crate) enum Slow {
    /// The square of the mask.
    Square,
    /// A tree game whose players stand on a line: minus the distance of the last member.
    Line,
}

/// The worth of a coalition of at least one member, below 2^40 in size.
fn worth_of(family: Slow, s: u64) -> i64 {
    match family {
        Slow::Square => (s.wrapping_mul(s) % (1 << 40)) as i64,
        Slow::Line => -i64::from(64u32.wrapping_sub(s.leading_zeros())),
    }
}

/// The game of a family of so many players.
pub(crate) fn game_of(alloc: Global, family: Slow, players: u32) -> Result<TableGame, Fail>
    requires { players ≤ 16 }
{
    let mut worths = Vec::new(alloc);
    for s in 1..1u64 << players {
        worths.push(worth_of(family, s))?;
    }
    Ok(
        TableGame::new(alloc, players, worths)
            .ok()
            .ok_or("no game")?,
    )
}
