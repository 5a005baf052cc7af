//! The levels: one for each claim of the players who get half of it, and one for the other players.
ghost use Rattle.std.specs.Prelude.{◌≡◌, ◌⊎◌, IfOk, if◌then◌else◌, length, slice_index};
ghost use Rattle.std.specs.Prelude.{ℕ, ◌+◌, ◌-◌, ◌*◌, ◌<◌, ◌≤◌, pos, ◌-ℤ◌};
ghost use Rattle.std.specs.List.{AllByRecursion};
ghost use Rattle.kohlberg.specs.Solved.{IsLowest};
ghost use Rattle.definitions.specs.Coalitions.{singleton, grand_coalition};
ghost use Rattle.orders.specs.Ordered.{place};
ghost use Rattle.talmud.specs.Levels.{with_keys, with_both, key_of, IsHalfEnd, IsHalfLevel};
ghost use Rattle.talmud.specs.Levels.{AreHalves, IsRestLevel, AreLevels};
ghost use Rattle.talmud.specs.Division.{is_gain};

use crate::cut_claims::CutClaims;
use crate::division::{Division, Side};
use coalitions::Coalition;
use kohlberg::{Level, put_pair};
use std::alloc::{AllocError, Global};
use worth_core::ratio;

/// A player alone if players gain, and all of `n` but that player if they lose.
fn key(player: u32, n: u32, side: Side) -> Coalition
    requires player { player < n }
    requires few { n ≤ 64 }
    ensures { result ≡ (if is_gain side then singleton player else grand_coalition n - singleton player) }
{
    let single = Coalition::single(player);
    match side {
        Side::Gain => single,
        Side::Loss => single.complement(n),
    }
}

/// One coalition of each place from `i` up to `k`: the player alone if players gain, and all but that player if
/// they lose.
fn keys(
    alloc: Global,
    claims: &CutClaims,
    side: Side,
    i: u32,
    k: u32,
) -> Result<Vec<(Coalition, i128)>, AllocError>
    requires from { i ≤ k }
    requires within { k ≤ length claims.now.numbers }
    ensures { IfOk result
        (λ v. v.items ≡ with_keys (key_of (length claims.now.numbers) (place claims.now) (is_gain side)) i (k - i)) }
{
    let n = claims.len();
    let mut pairs = Vec::new(alloc);
    for j in i..k {
        put_pair(&mut pairs, key(claims.place(j), n, side), 1)?;
    }
    Ok(pairs)
}

/// Both coalitions of each place from `i` up to `k`.
fn both(
    alloc: Global,
    claims: &CutClaims,
    i: u32,
    k: u32,
) -> Result<Vec<(Coalition, i128)>, AllocError>
    requires from { i ≤ k }
    requires within { k ≤ length claims.now.numbers }
    ensures { IfOk result (λ v. v.items ≡ with_both (length claims.now.numbers) (place claims.now) i (k - i)) }
{
    let n = claims.len();
    let mut pairs = Vec::new(alloc);
    for j in i..k {
        let single = Coalition::single(claims.place(j));
        put_pair(&mut pairs, single, 1)?;
        put_pair(&mut pairs, single.complement(n), 1)?;
    }
    Ok(pairs)
}

/// Where the half players with the claim of place `i` end, of whom there are `m` in all. Of two players the first
/// stands for both.
fn half_end(claims: &CutClaims, m: u32, i: u32) -> u32
    requires from { i < m }
    requires within { m ≤ length claims.now.numbers }
    ensures { IsHalfEnd (length claims.now.numbers) (slice_index claims.now.numbers) (place claims.now) m i result }
{
    let claim = claims.cut(claims.place(i));
    let mut k = i + 1;
    while claims.len() != 2 && k < m && claims.cut(claims.place(k)) == claim {
        k += 1;
    }
    k
}

/// The level of the half players from place `i` up to place `k`.
fn half_level(alloc: Global, claims: &CutClaims, i: u32, k: u32) -> Result<Level, AllocError>
    requires two { i + 2 ≤ length claims.now.numbers }
    requires some { i < k }
    requires within { k ≤ length claims.now.numbers }
    ensures level { IfOk result (λ l. (m : ℕ)
        → IsHalfEnd (length claims.now.numbers) (slice_index claims.now.numbers) (place claims.now) m i k
        → IsHalfLevel (length claims.now.numbers) (slice_index claims.now.numbers) (place claims.now) m i k l) }
    ensures lowest { IfOk result IsLowest }
{
    let claim = claims.cut(claims.place(i));
    let coalitions = both(alloc, claims, i, k)?;
    Ok(Level {
        excess: ratio(-(claim as i128), 2),
        coalitions,
        earlier: Vec::new(alloc),
        bounds: Vec::new(alloc),
        total: (k - i) as i128,
    })
}

/// What the weights of the last level add to: 1 if players gain, and all players but one if they lose.
fn rest_total(n: u32, side: Side) -> i128
    ensures { result ≡ (if is_gain side then pos 1 else pos n -ℤ pos 1) }
{
    match side {
        Side::Gain => 1,
        Side::Loss => n as i128 - 1,
    }
}

/// The level of the players who aren't half players.
fn rest_level(alloc: Global, claims: &CutClaims, division: Division) -> Result<Level, AllocError>
    requires { division.half + 2 ≤ length claims.now.numbers }
    ensures level { IfOk result (λ l. IsRestLevel (length claims.now.numbers) (place claims.now)
        division.half (is_gain division.side) (pos division.bound) (pos (2 * division.half_den)) l) }
    ensures lowest { IfOk result IsLowest }
{
    let n = claims.len();
    let coalitions = keys(alloc, claims, division.side, division.half, n)?;
    let earlier = keys(alloc, claims, division.side, 0, division.half)?;
    Ok(Level {
        excess: ratio(-(division.bound as i128), division.den()),
        coalitions,
        earlier,
        bounds: Vec::new(alloc),
        total: rest_total(n, division.side),
    })
}

/// The levels of the half players while two players are left.
fn half_levels(alloc: Global, claims: &CutClaims, m: u32) -> Result<Vec<Level>, AllocError>
    requires { m ≤ length claims.now.numbers }
    ensures levels { IfOk result (λ v. (k : ℕ)
        × AreHalves (length claims.now.numbers) (slice_index claims.now.numbers) (place claims.now) m 0 v.items k
        × ((k ≡ m) ⊎ (length claims.now.numbers ≤ k + 1))) }
    ensures lowest { IfOk result (λ v. AllByRecursion IsLowest v.items) }
{
    let n = claims.len();
    let mut levels = Vec::new(alloc);
    let mut i = 0;
    while i < m && i + 2 <= n {
        let k = half_end(claims, m, i);
        levels.push(half_level(alloc, claims, i, k)?)?;
        i = k;
    }
    Ok(levels)
}

/// All levels: those of the half players by ascending claims, and that of the others if they are two at least.
pub(crate) fn all_levels(
    alloc: Global,
    claims: &CutClaims,
    division: Division,
) -> Result<Vec<Level>, AllocError>
    requires { division.half ≤ length claims.now.numbers }
    ensures levels { IfOk result
        (λ v. AreLevels (length claims.now.numbers) (slice_index claims.now.numbers) (place claims.now)
        division.half (is_gain division.side) (pos division.bound) (pos (2 * division.half_den)) v.items) }
    ensures lowest { IfOk result (λ v. AllByRecursion IsLowest v.items) }
{
    let n = claims.len();
    let mut levels = half_levels(alloc, claims, division.half)?;
    if division.half + 2 <= n {
        levels.push(rest_level(alloc, claims, division)?)?;
    }
    Ok(levels)
}
