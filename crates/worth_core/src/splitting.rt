//! Coalitions that hold some but not all of some players, and the greatest number among them.
ghost use Rattle.std.specs.Prelude.{◌≡◌, ◌≤◌, Some};
ghost use Rattle.definitions.specs.Coalitions.{has_player, splits};
ghost use Rattle.worth_core.specs.Greatest.{max_so_far};

use coalitions::Coalition;

/// Whether a coalition holds some but not all of the players of `free`.
pub(crate) fn splits(s: Coalition, free: Coalition, players: u32) -> bool
    requires { players ≤ 64 }
    ensures { result ≡ splits players (has_player free) s }
{
    let mut holds = false;
    let mut lacks = false;
    for i in 0..players {
        holds = free.contains(i) && s.contains(i) || holds;
        lacks = free.contains(i) && !s.contains(i) || lacks;
    }
    holds && lacks
}

/// Returns the greater of a number and the greatest so far, if there is one.
pub fn raised(most: Option<i128>, excess: i128) -> Option<i128>
    ensures { result ≡ Some (max_so_far most excess) }
{
    match most {
        None => Some(excess),
        Some(most) => Some(if most < excess { excess } else { most }),
    }
}
