//! The pairs of a level: a coalition, whose players are listed by ascending numbers, or a player; and its weight.
ghost use Rattle.std.specs.Prelude.{◌≡◌, ◌+◌, ◌-◌, ◌<◌, ◌≤◌, ◌^◌, map, IfSome, Some, None, if◌then◌else◌};
ghost use Rattle.serde_json.specs.View.{view};
ghost use Rattle.certificate_texts.specs.Levels.{number_between, number_above, coalition_of, weighted_coalition};
ghost use Rattle.certificate_texts.specs.Levels.{weighted_player};
ghost use Rattle.certificate_texts.specs.Certificates.{lists_coalition, lists_player};

use coalitions::Coalition;
use fractions::OutOfMemory;
use json_trees::{Reader, integer, numbered_player, parts};
use serde_json::Value;
use std::alloc::Global;

/// The number, if it is above `low` and at most `n`.
fn number_between(low: u32, n: u32, number: i64) -> Option<u32>
    ensures number { result ≡ number_between low n number }
    ensures within { IfSome result (λ k. (low < k) × (k ≤ n)) }
{
    if i64::from(low) < number && number <= i64::from(n) {
        Some(number as u32)
    } else {
        None
    }
}

fn number_above(low: u32, n: u32, value: &Value) -> Option<u32>
    ensures number { result ≡ number_above low n (view value.now) }
    ensures within { IfSome result (λ k. (low < k) × (k ≤ n)) }
{
    let number = integer(value)?;
    number_between(low, n, number)
}

/// The mask with the player of a number above all that are there.
fn with_number(mask: u64, low: u32, number: u32) -> u64
    requires above { low < number }
    requires few { number ≤ 64 }
    requires small { mask < 2 ^ low }
    ensures value { result ≡ mask + 2 ^ (number - 1) }
    ensures small { result < 2 ^ number }
{
    mask + (1 << (number - 1))
}

/// The coalition of players from 1 to `n`, listed by ascending numbers.
fn coalition_of(n: u32, members: &[Value]) -> Option<Coalition>
    requires { n ≤ 64 }
    ensures { result ≡ coalition_of n (map view members.now) }
{
    let mut mask = 0u64;
    let mut low = 0u32;
    for member in members {
        let Some(number) = number_above(low, n, member) else {
            return None;
        };
        mask = with_number(mask, low, number);
        low = number;
    }
    Some(Coalition(mask))
}

/// The coalition and the weight of a pair.
fn weighted_coalition(n: u32, pair: &Value) -> Option<(Coalition, i128)>
    requires { n ≤ 64 }
    ensures { result ≡
        (if lists_coalition n (view pair.now) then Some (weighted_coalition n (view pair.now)) else None) }
{
    let [members, weight] = parts(pair) else {
        return None;
    };
    let s = coalition_of(n, parts(members))?;
    let weight = integer(weight)?;
    Some((s, i128::from(weight)))
}

/// The player and the weight of a pair.
fn weighted_player(n: u32, pair: &Value) -> Option<(u32, i128)>
    ensures { result ≡ (if lists_player n (view pair.now) then Some (weighted_player n (view pair.now)) else None) }
{
    let [player, weight] = parts(pair) else {
        return None;
    };
    let number = integer(player)?;
    let i = numbered_player(n, number)?;
    let weight = integer(weight)?;
    Some((i, i128::from(weight)))
}

/// Reads coalitions of so many players, with their weights.
#[derive(Clone, Copy)]
pub(crate) struct WeightedCoalitions {
    pub(crate) players: u32,
    ghost few: { players ≤ 64 },
}

impl Reader for WeightedCoalitions {
    type Item = (Coalition, i128);

    ghost form = { λ r. lists_coalition r.players };

    ghost described = { λ r. weighted_coalition r.players };

    fn read(&self, _alloc: Global, pair: &Value) -> Result<Option<(Coalition, i128)>, OutOfMemory> {
        Ok(weighted_coalition(self.players, pair))
    }
}

/// Reads players, one of so many each, with their weights.
#[derive(Clone, Copy)]
pub(crate) struct WeightedPlayers {
    pub(crate) players: u32,
}

impl Reader for WeightedPlayers {
    type Item = (u32, i128);

    ghost form = { λ r. lists_player r.players };

    ghost described = { λ r. weighted_player r.players };

    fn read(&self, _alloc: Global, pair: &Value) -> Result<Option<(u32, i128)>, OutOfMemory> {
        Ok(weighted_player(self.players, pair))
    }
}
