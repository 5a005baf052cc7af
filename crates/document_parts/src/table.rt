//! The numbers of a sparse table, each at the mask of its coalition.
ghost use Rattle.std.specs.Prelude.{◌≡◌, ◌<◌, ◌≤◌, ◌^◌, map, length, IfSome, position, false, Some, None, IfOk, IfNone};
ghost use Rattle.std.specs.Prelude.{option_map, unwrap_or, if◌then◌else◌, ◌-◌, pos, replicate, drop, get_or};
ghost use Rattle.std.specs.Str.{bytes_eq};
ghost use Rattle.serde_json.specs.View.{view};
ghost use Rattle.document_parts.specs.Members.{player_of, join, mask_of, are_coalitions};
ghost use Rattle.json_trees.specs.Players.{numbered_player};
ghost use Rattle.std.specs.List.{range_with_len};
ghost use Rattle.json_trees.specs.Trees.{pair_members};
ghost use Rattle.document_parts.specs.Numbers.{number_of_mask};
ghost use Rattle.document_parts.specs.Slots.{HasNumbers};

use crate::names::Names;
use coalitions::Coalition;
use fractions::OutOfMemory;
use json_trees::{integer, numbered_player, pair_members};
use serde_json::Value;
use std::alloc::Global;

fn named_player(names: &Names, name: &str) -> Option<u32>
    requires { length names.now ≤ 64 }
    ensures place { result ≡ position (bytes_eq name.now) names.now }
    ensures within { IfSome result (λ i. i < length names.now) }
{
    let place = names.place(name)?;
    Some(place as u32)
}

/// The player that a member names, by its number or by its name.
///
/// A text is looked up among the names only, so an unknown one is a fault of names and not of the coalition.
fn player_of(players: u32, names: &Names, member: &Value) -> Option<u32>
    requires few { players ≤ 64 }
    requires named { length names.now ≤ players }
    ensures player { result ≡ player_of players names.now (view member.now) }
    ensures within { IfSome result (λ i. i < players) }
{
    match member.as_str() {
        Some(name) => named_player(names, name),
        None => {
            let number = integer(member)?;
            numbered_player(players, number)
        }
    }
}

/// The coalition with the player, unless it has that player already.
fn join(s: Coalition, i: u32, players: u32) -> Option<Coalition>
    requires few { players ≤ 16 }
    requires player { i < players }
    requires within { s < 2 ^ players }
    ensures value { result ≡ join s i }
    ensures within { IfSome result (λ t. t < 2 ^ players) }
{
    if s.contains(i) {
        return None;
    }
    Some(Coalition(s.0 + (1 << i)))
}

/// The coalition of members: at least one, and none twice.
fn mask_of(players: u32, names: &Names, members: &[Value]) -> Option<Coalition>
    requires few { players ≤ 16 }
    requires named { length names.now ≤ players }
    ensures mask { result ≡ mask_of players names.now (map view members.now) }
    ensures within { IfSome result (λ s. s < 2 ^ players) }
{
    if members.is_empty() {
        return None;
    }
    let mut s = Coalition::empty();
    for member in members {
        let Some(i) = player_of(players, names, member) else {
            return None;
        };
        let Some(t) = join(s, i, players) else {
            return None;
        };
        s = t;
    }
    Some(s)
}

fn empty_slots(alloc: Global, count: usize) -> Result<Vec<Option<i64>>, OutOfMemory>
    ensures { IfOk result (λ v. v.items ≡ replicate count None) }
{
    let mut slots = Vec::with_capacity(alloc, count)?;
    for i in 0..count {
        slots.push(None)?;
    }
    Ok(slots)
}

/// The slots with the number beside each pair at the mask of its coalition. None if a pair has no coalition, or two
/// have the same.
fn filled(
    players: u32,
    names: &Names,
    pairs: &[Value],
    numbers: &[i64],
    mut slots: Vec<Option<i64>>,
) -> Option<Vec<Option<i64>>>
    requires few { players ≤ 16 }
    requires named { length names.now ≤ players }
    requires each { length pairs.now ≤ length numbers.now }
    requires empty { slots.items ≡ replicate (2 ^ players) None }
    ensures none { IfNone result
        (are_coalitions (map (λ pair. mask_of players names.now (pair_members pair)) (map view pairs.now)) ≡ false) }
    ensures some { IfSome result
        (λ v. HasNumbers players (map (λ pair. mask_of players names.now (pair_members pair)) (map view pairs.now))
        numbers.now v.items) }
{
    for i in 0..pairs.len() {
        let Some(s) = mask_of(players, names, pair_members(&pairs[i])) else {
            return None;
        };
        let at = s.0 as usize;
        if slots[at].is_some() {
            return None;
        }
        slots[at] = Some(numbers[i]);
    }
    Some(slots)
}

/// The numbers of the slots, with `other` for the empty ones.
fn numbers(alloc: Global, slots: &[Option<i64>], other: i64) -> Result<Vec<i64>, OutOfMemory>
    ensures { IfOk result (λ v. v.items ≡ map (λ o. unwrap_or o other) slots.now) }
{
    let mut found = Vec::with_capacity(alloc, slots.len())?;
    for slot in slots {
        found.push(slot.unwrap_or(other))?;
    }
    Ok(found)
}

#[tactic(auto, using(crate::proofs::Filling::whole_tail))]
fn later_numbers(alloc: Global, slots: &[Option<i64>], other: i64) -> Result<Vec<i64>, OutOfMemory>
    requires { 0 < length slots.now }
    ensures { IfOk result (λ v. v.items ≡ map (λ o. unwrap_or o other) (drop 1 slots.now)) }
{
    let rest = &slots[1..];
    numbers(alloc, rest, other)
}

/// The number that stands behind those of `pairs` pairs, that of the coalitions that are in none; it is 0 if none
/// stands there.
fn other_number(pairs: usize, numbers: &[i64]) -> i64
    ensures { result ≡ get_or numbers.now pairs (pos 0) }
{
    match numbers.get(pairs) {
        Some(other) => *other,
        None => 0,
    }
}

/// Returns the number of each mask from 1. `numbers` has that of each pair of a coalition and a number, and then the
/// default of all other coalitions, if it isn't 0. Returns none if a pair has no coalition, or two pairs have the same.
///
/// # Errors
///
/// If memory runs out.
pub fn sparse_numbers(
    alloc: Global,
    players: u32,
    names: &Names,
    pairs: &[Value],
    numbers: &[i64],
) -> Result<Option<Vec<i64>>, OutOfMemory>
    requires few { players ≤ 16 }
    requires named { length names.now ≤ players }
    requires each { length pairs.now ≤ length numbers.now }
    ensures { let masks = map (λ pair. mask_of players names.now (pair_members pair)) (map view pairs.now) in
        IfOk result (λ o. option_map (λ v. v.items) o
        ≡ (if are_coalitions masks
        then Some
        (map (number_of_mask masks numbers.now (get_or numbers.now (length pairs.now) (pos 0)))
        (range_with_len 1 (2 ^ players - 1)))
        else None)) }
{
    let slots = empty_slots(alloc, 1 << players)?;
    let Some(slots) = filled(players, names, pairs, numbers, slots) else {
        return Ok(None);
    };
    let found = later_numbers(alloc, &slots, other_number(pairs.len(), numbers))?;
    Ok(Some(found))
}
