//! What is said of a generated game, as JSON.
ghost use Rattle.std.specs.Prelude.{◌≡◌, ◌<◌, ◌-◌, length, IfOk};
ghost use Rattle.serde_json.specs.Data.{object};
ghost use Rattle.serde_json.specs.View.{view, members_view};
ghost use Rattle.report.specs.Limits.{IsFineIfThere};
ghost use Rattle.report.specs.SummaryTrees.{least_denominator, player_share, share_members};
ghost use Rattle.report.specs.SummaryTrees.{greatest_data, summary_tree};
ghost use Rattle.report.specs.Values.{integer_data};
ghost use Rattle.report.specs.Words.{kind_word};

use crate::objects::{with, with_text};
use crate::values::{Scale, integer_value, share_text, value_over};
use fractions::{Frac, OutOfMemory};
use kinds::Kind;
use serde_json::{Map, Value};
use std::alloc::Global;
use worth_core::Shares;

/// What is said of a generated game, whose certificate the checker has said yes to.
#[derive(Drop)]
pub struct Summary {
    /// The kind of the game.
    pub kind: Kind,
    /// The number of its players.
    pub players: u32,
    /// The number that it was made from.
    pub seed: u32,
    /// Whether its numbers are costs, so that shares are printed as payments.
    pub is_cost: bool,
    /// The shares of its nucleolus, as worth.
    pub shares: Shares,
    /// The greatest excess over the coalitions but the empty one and that of all, and none for one player.
    pub greatest: Option<Frac>,
}

/// The members of the tree of a summary.
pub(crate) fn summary_members(
    alloc: Global,
    summary: &Summary,
    scale: Scale,
) -> Result<Map<String, Value>, OutOfMemory>
    requires { IsFineIfThere summary.now.greatest }
    ensures { IfOk result (λ m. object (members_view m.entries) ≡ summary_tree scale summary.now) }
{
    let members = share_members(alloc, summary, scale)?;
    let greatest = greatest_value(alloc, &summary.greatest, scale)?;
    let members = with(alloc, members, "greatest", greatest)?;
    let members = with_text(alloc, members, "class", kind_word(summary.kind))?;
    let members = with(alloc, members, "players", Value::from(summary.players))?;
    let members = with(alloc, members, "seed", Value::from(summary.seed))?;
    with_text(alloc, members, "verdict", "yes")
}

/// What a summary says of its shares.
fn share_members(
    alloc: Global,
    summary: &Summary,
    scale: Scale,
) -> Result<Map<String, Value>, OutOfMemory>
    ensures { IfOk result (λ m. members_view m.entries ≡ share_members scale summary.now) }
{
    let players = summary.shares.players();
    let common = common_value(alloc, &summary.shares, scale)?;
    let members = with(alloc, Map::new(alloc), "common", common)?;
    let first = player_value(alloc, summary, 0, scale)?;
    let members = with(alloc, members, "first", first)?;
    let last = player_value(alloc, summary, players - 1, scale)?;
    with(alloc, members, "last", last)
}

/// The least common denominator of shares.
fn common_value(alloc: Global, shares: &Shares, scale: Scale) -> Result<Value, OutOfMemory>
    ensures { IfOk result (λ v. view v ≡ integer_data scale (least_denominator shares.now)) }
{
    let common = shares.least_den();
    shares.den(); // It is at most 2^63, by its type.
    integer_value(alloc, common, scale)
}

/// The share of a player, or what it pays.
fn player_value(
    alloc: Global,
    summary: &Summary,
    i: u32,
    scale: Scale,
) -> Result<Value, OutOfMemory>
    requires { i < length summary.now.shares.shares }
    ensures { IfOk result (λ v. view v ≡ player_share scale summary.now i) }
{
    let shares = &summary.shares;
    share_text(alloc, shares.num(i), shares.den(), summary.is_cost, scale)
}

/// The greatest excess, or that there is none.
fn greatest_value(
    alloc: Global,
    greatest: &Option<Frac>,
    scale: Scale,
) -> Result<Value, OutOfMemory>
    requires { IsFineIfThere greatest.now }
    ensures { IfOk result (λ v. view v ≡ greatest_data scale greatest.now) }
{
    match greatest {
        Some(excess) => value_over(alloc, excess, scale),
        None => Ok(Value::try_from_str(alloc, "none")?),
    }
}

/// The word for a kind of generated games.
fn kind_word(kind: Kind) -> &'static str
    ensures { result.now ≡ kind_word kind }
{
    match kind {
        Kind::Table => "table",
        Kind::Airport => "airport",
        Kind::Bankruptcy => "bankruptcy",
        Kind::Tree => "tree",
        Kind::Assignment => "assignment",
    }
}
