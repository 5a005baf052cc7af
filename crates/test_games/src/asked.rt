//! What a game of any class answers, by the bound alone.
ghost use Rattle.std.specs.Prelude.{◌≤◌, IsTrue};
ghost use Rattle.definitions.specs.Games.{HasTwo};

use coalitions::Coalition;
use std::process::Abort;
use worth_core::{Shares, Worth, scaled_excess};

/// Compares the worths of the first coalitions in mask order, the empty one before all.
pub(crate) fn worths_are<W: Worth>(rt: &impl Abort, game: &W, wanted: &[i64]) {
    for mask in 0..wanted.len() {
        let s = Coalition(mask as u64);
        let n = game.players();
        assert!(rt; s <= Coalition::all(n));
        assert_eq!(rt; game.worth(s), wanted[mask], "mask {mask}");
    }
}

/// The blocker.
pub(crate) fn blocker_of<W: Worth>(rt: &impl Abort, game: &W, x: &Shares) -> Option<Coalition> {
    let n = game.players();
    assert!(rt; x.players() == n);
    game.blocker(x)
}

/// The greatest excess over the coalitions that split the players of `free`.
pub(crate) fn bound_of<W: Worth>(rt: &impl Abort, game: &W, x: &Shares, free: Coalition) -> i128 {
    let n = game.players();
    assert!(rt; x.players() == n && free <= Coalition::all(n));
    assert!(rt; has_two(n, free));
    game.split_bound(x, free)
}

/// The excess of a coalition.
pub(crate) fn excess_of<W: Worth>(rt: &impl Abort, game: &W, x: &Shares, s: Coalition) -> i128 {
    let n = game.players();
    assert!(rt; x.players() == n && s <= Coalition::all(n));
    scaled_excess(game, x, s)
}

/// Whether a coalition has two of so many players: the condition of a split bound, as a test.
pub(crate) fn has_two(players: u32, s: Coalition) -> bool
    requires { players ≤ 64 }
    ensures { IsTrue result → HasTwo players s }
{
    for i in 0..players {
        for j in i + 1..players {
            if s.contains(i) && s.contains(j) {
                return true;
            }
        }
    }
    false
}
