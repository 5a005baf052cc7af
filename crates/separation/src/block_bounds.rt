//! The best column of a block of 256 coalitions in 64 bits, for which nearly all multipliers leave room. A bound on the
//! worths of each block lets the search pass over coalitions that can't be better.

ghost use Rattle.std.specs.Prelude.{◌≡◌, ◌⊎◌, ◌≤◌, ◌<◌, ◌^◌, ◌≤ℤ◌, ℕ, ◌+◌, ◌*◌, ◌%◌};
ghost use Rattle.std.specs.Prelude.{MatchBool, MatchOption, pos, ◌-ℤ◌, ◌*ℤ◌, ◌<ℤ◌, unsigned_abs, slice_index_or};
ghost use Rattle.separation.specs.BlockBounds.{IsBlockBound, AreBlockBounds, IsLeast};
ghost use Rattle.separation.specs.Scanned.{NoneBetween, IsMostIn, IsHighestIn, AreValues, worth_in, IsSmallTable};

use crate::scan::{Scan, counted_worth};
use crate::tables::NarrowSums;
use coalitions::Coalition;
use worth_core::Worth;

/// The greater of two numbers.
fn greater(a: i64, b: i64) -> i64
    ensures first { a ≤ℤ result }
    ensures second { b ≤ℤ result }
    ensures either { (result ≡ a) ⊎ (result ≡ b) }
{
    if a < b { b } else { a }
}

/// The greatest worth of the 256 coalitions from 256 * `block` on, or 0 if that is more.
fn block_bound<W: Worth>(game: &W, players: u32, block: u64) -> i64
    requires players { players ≡ (W.game game.now).players }
    requires few { players ≤ 16 }
    requires block { block < 256 }
    ensures { IsBlockBound (W.game game.now) block result }
{
    let mut most: i64 = 0;
    let end = (256 * block + 256).min(1 << players);
    for s in 256 * block..end {
        let worth = counted_worth(game, Coalition(s), true);
        most = greater(most, worth);
    }
    most
}

/// Returns the greatest worth of each 256 coalitions of a game of at most 16 players, or 0 if that is more.
pub fn block_bounds_of<W: Worth>(game: &W) -> [i64; 256]
    requires { (W.game game.now).players ≤ 16 }
    ensures { AreBlockBounds (W.game game.now) result }
{
    let players = game.players();
    let mut block_bounds = [0; 256];
    for block in 0..256 {
        block_bounds[block] = block_bound(game, players, block as u64);
    }
    block_bounds
}

/// The greatest height above a base so far, and the coalition that has it; the base before there is one.
#[derive(Clone, Copy)]
pub(crate) struct Highest {
    base: i64,
    height: i64,
    coalition: Coalition,
}

impl Highest {
    /// Whether a height is greater.
    fn is_below(&self, height: i64) -> bool
        ensures { MatchBool result (self.now.height <ℤ height) (height ≤ℤ self.now.height) }
    {
        self.height < height
    }

    /// Another coalition, which is higher.
    fn raised(&self, coalition: Coalition, height: i64) -> Highest
        ensures { result ≡ record { base = self.now.base; height = height; coalition = coalition } }
    {
        Highest {
            base: self.base,
            height,
            coalition,
        }
    }
}

/// What the cost of a coalition's column over the multipliers' denominator is above the multipliers of the members
/// among the first eight players. If that is above what the block has in common, the column improves.
fn height_of<W: Worth>(scan: &Scan<'_, W>, low: &[i64; 256], s: Coalition) -> i64
    requires within { s < 2 ^ scan.now.program.now.players }
    requires den { unsigned_abs scan.now.m.now.den < 2 ^ 16 }
    requires low { unsigned_abs (slice_index_or low.now (s % 256) (pos 0)) ≤ 2 ^ 60 }
    ensures { result ≡ scan.now.m.now.den *ℤ worth_in scan.now s
        -ℤ slice_index_or low.now (s % 256) (pos 0) }
{
    let worth = scan.worth(s);
    scan.m.den as i64 * worth - low[(s.0 % 256) as usize]
}

/// The highest so far, or a higher one of the 64 coalitions from 64 * `place` on, each looked at.
fn highest_of_each<W: Worth>(
    scan: &Scan<'_, W>,
    low: &[i64; 256],
    place: u64,
    before: Highest,
) -> Highest
    requires place { place < 1024 }
    requires den { unsigned_abs scan.now.m.now.den < 2 ^ 16 }
    requires low { IsSmallTable low.now }
    requires values { AreValues scan.now before.base low.now (64 * place) (64 * place + 64) }
    ensures base { result.base ≡ before.base }
    ensures highest { (a : ℕ) → IsHighestIn scan.now a (64 * place) before
        → IsHighestIn scan.now a (64 * place + 64) result }
{
    let word = Coalition(scan.program.marked_word(place));
    let end = (1u64 << scan.program.players)
        .saturating_sub(64 * place)
        .min(64);
    let mut best = before;
    for j in 0..end {
        let s = Coalition(64 * place + j);
        let height = height_of(scan, low, s);
        // Few are higher, so the marks of few are looked at.
        if best.is_below(height) && word.contains(j as u32) {
            best = best.raised(s, height);
        }
    }
    best
}

/// What the worths of 256 coalitions count for at most.
fn counted_bound<W: Worth>(scan: &Scan<'_, W>, block: u64) -> i64
    requires { block < 256 }
    ensures greatest { (s : ℕ) → 256 * block ≤ s → s < 256 * block + 256 → s < 2 ^ scan.now.program.now.players
        → worth_in scan.now s ≤ℤ result }
    ensures small { unsigned_abs result < 2 ^ 46 }
{
    let program = scan.program;
    if scan.with_costs {
        program.block_bounds[block as usize]
    } else {
        0
    }
}

/// A number that none of the heights of 256 coalitions is above, if no sum is below `least`.
fn height_bound<W: Worth>(scan: &Scan<'_, W>, least: i64, block: u64) -> i64
    requires block { block < 256 }
    requires den { unsigned_abs scan.now.m.now.den < 2 ^ 16 }
    requires least { unsigned_abs least ≤ 2 ^ 60 }
    ensures { (s : ℕ) → 256 * block ≤ s → s < 256 * block + 256 → s < 2 ^ scan.now.program.now.players
        → ((scan.now.m.now.den *ℤ worth_in scan.now s) -ℤ least) ≤ℤ result }
{
    let most = counted_bound(scan, block);
    scan.m.den as i64 * most - least
}

/// The highest so far, or a higher one of the 64 coalitions from 64 * `place` on. If no height of these can be
/// higher, none is looked at.
fn highest_of_word<W: Worth>(
    scan: &Scan<'_, W>,
    low: &[i64; 256],
    least: i64,
    place: u64,
    before: Highest,
) -> Highest
    requires place { place < 1024 }
    requires den { unsigned_abs scan.now.m.now.den < 2 ^ 16 }
    requires low { IsSmallTable low.now }
    requires least { IsLeast low.now (place % 4) least }
    requires values { AreValues scan.now before.base low.now (64 * place) (64 * place + 64) }
    ensures base { result.base ≡ before.base }
    ensures highest { (a : ℕ) → IsHighestIn scan.now a (64 * place) before
        → IsHighestIn scan.now a (64 * place + 64) result }
{
    if height_bound(scan, least, place / 4) <= before.height {
        before
    } else {
        highest_of_each(scan, low, place, before)
    }
}

/// What `best_of_block` finds, in 64 bits: of the coalitions whose column improves, that of the greatest height.
pub(crate) fn best_of_block_narrow<W: Worth>(
    scan: &Scan<'_, W>,
    sums: &NarrowSums<'_>,
    base: i64,
    block: u64,
) -> Option<Coalition>
    requires block { block < 256 }
    requires den { unsigned_abs scan.now.m.now.den < 2 ^ 16 }
    requires low { IsSmallTable sums.now.low.now }
    requires values { AreValues scan.now base sums.now.low.now (256 * block) (256 * block + 256) }
    ensures { MatchOption result (NoneBetween scan.now (256 * block) (256 * (block + 1)))
        (IsMostIn scan.now (256 * block) (256 * (block + 1))) }
{
    let mut best = Highest {
        base,
        height: base,
        coalition: Coalition::empty(),
    };
    for place in 4 * block..4 * block + 4 {
        let least = sums.least[(place % 4) as usize];
        best = highest_of_word(scan, sums.low, least, place, best);
    }
    if best.base < best.height {
        Some(best.coalition)
    } else {
        None
    }
}
