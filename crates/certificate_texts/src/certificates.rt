//! The certificate that a tree describes, and its levels, if the tree has the form of one.
ghost use Rattle.std.specs.Prelude.{◌≡◌, ◌≤◌, Some, None, codes, IfOk, option_and_then, if◌then◌else◌};
ghost use Rattle.serde_json.specs.View.{view};
ghost use Rattle.serde_json.specs.Find.{get};
ghost use Rattle.json_trees.specs.Trees.{integer};
ghost use Rattle.json_trees.specs.ScaledFractions.{scaled_of};
ghost use Rattle.certificate_texts.specs.Levels.{level_of};
ghost use Rattle.certificate_texts.specs.Certificates.{is_written, has_form, certificate_of};

use crate::pairs::{WeightedCoalitions, WeightedPlayers};
use crate::shape::mode_of;
use fractions::{Frac, OutOfMemory};
use json_trees::{Reader, integer, read_at, scaled_of};
use kohlberg::{Certificate, Level};
use serde_json::Value;
use std::alloc::Global;

/// The excess of a level, times the scale.
fn excess_of(level: &Value, scale: u32) -> Option<Frac>
    ensures { result ≡ option_and_then (scaled_of scale) (get (codes "excess") (view level.now)) }
{
    let excess = level.get("excess")?;
    scaled_of(excess, scale)
}

/// What the weights of a level add to at each player.
fn total_of(level: &Value) -> Option<i64>
    ensures { result ≡ option_and_then integer (get (codes "total") (view level.now)) }
{
    let total = level.get("total")?;
    integer(total)
}

fn level_of(alloc: Global, n: u32, level: &Value, scale: u32) -> Result<Option<Level>, OutOfMemory>
    requires { n ≤ 64 }
    ensures { IfOk result (λ o. o ≡
        (if is_written scale n (view level.now) then Some (level_of scale n (view level.now)) else None)) }
{
    let Some(excess) = excess_of(level, scale) else {
        return Ok(None);
    };
    let Some(total) = total_of(level) else {
        return Ok(None);
    };
    let pairs = WeightedCoalitions { players: n };
    let Some(coalitions) = read_at(alloc, &pairs, level, "coalitions")? else {
        return Ok(None);
    };
    let Some(earlier) = read_at(alloc, &pairs, level, "earlier")? else {
        return Ok(None);
    };
    let Some(bounds) = read_at(alloc, &WeightedPlayers { players: n }, level, "bounds")? else {
        return Ok(None);
    };
    Ok(Some(Level {
        excess,
        coalitions,
        earlier,
        bounds,
        total: i128::from(total),
    }))
}

/// Reads levels of a certificate for so many players, their excesses times the scale.
#[derive(Clone, Copy)]
pub(crate) struct Levels {
    pub(crate) players: u32,
    pub(crate) scale: u32,
    ghost few: { players ≤ 64 },
}

impl Reader for Levels {
    type Item = Level;

    ghost form = { λ r. is_written r.scale r.players };

    ghost described = { λ r. level_of r.scale r.players };

    fn read(&self, alloc: Global, level: &Value) -> Result<Option<Level>, OutOfMemory> {
        level_of(alloc, self.players, level, self.scale)
    }
}

/// Returns the certificate for `n` players that a tree describes, its excesses times the scale. Returns none exactly if
/// the tree doesn't have its form.
pub fn certificate_of(
    alloc: Global,
    n: u32,
    tree: &Value,
    scale: u32,
) -> Result<Option<Certificate>, OutOfMemory>
    requires some { 1 ≤ n }
    requires few { n ≤ 64 }
    ensures { IfOk result
        (λ o. o
        ≡ (if has_form scale n (view tree.now) then Some (certificate_of scale n (view tree.now)) else None)) }
{
    let Some(mode) = mode_of(tree) else {
        return Ok(None);
    };
    let reader = Levels { players: n, scale };
    let Some(levels) = read_at(alloc, &reader, tree, "levels")? else {
        return Ok(None);
    };
    match Certificate::new(n, mode, levels) {
        Ok(certificate) => Ok(Some(certificate)),
        Err(_) => Ok(None),
    }
}
