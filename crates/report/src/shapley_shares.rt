//! The Shapley shares, as JSON, and what is said of a game's convexity, with both shares of a convex game.
ghost use Rattle.std.specs.Prelude.{◌≡◌, IfOk, false};
ghost use Rattle.serde_json.specs.Data.{object};
ghost use Rattle.serde_json.specs.View.{members_view};
ghost use Rattle.report.specs.ShapleyTrees.{shapley_tree};
ghost use Rattle.report.specs.ConvexTrees.{convex_tree};

use crate::objects::{with, with_answer, with_coalition, with_integer, with_shares};
use crate::values::{Scale, player_value};
use coalitions::Coalition;
use convexity::ConvexAnswer;
use fractions::OutOfMemory;
use serde_json::{Map, Value};
use std::alloc::Global;
use worth_core::Shares;

/// The members of the tree of the Shapley shares.
pub(crate) fn shapley_members(
    alloc: Global,
    is_cost: bool,
    shares: &Shares,
    scale: Scale,
) -> Result<Map<String, Value>, OutOfMemory>
    ensures { IfOk result (λ m. object (members_view m.entries) ≡ shapley_tree scale is_cost shares.now) }
{
    let members = with_answer(alloc, "shapley")?;
    with_shares(alloc, members, "shares", shares, is_cost, scale)
}

/// The members of the tree of what is said of a game's convexity.
pub(crate) fn convex_members(
    alloc: Global,
    is_cost: bool,
    answer: &ConvexAnswer,
    scale: Scale,
) -> Result<Map<String, Value>, OutOfMemory>
    ensures { IfOk result (λ m. object (members_view m.entries) ≡ convex_tree scale is_cost answer.now) }
{
    match answer {
        ConvexAnswer::Convex { shapley, marginal } => {
            both_shares_members(alloc, is_cost, shapley, marginal, scale)
        }
        ConvexAnswer::Not { s, i, j, deficit } => failure_members(
            alloc, *s, *i, *j, *deficit, scale,
        ),
    }
}

// Both lists of shares of a convex game.
fn both_shares_members(
    alloc: Global,
    is_cost: bool,
    shapley: &Shares,
    marginal: &Shares,
    scale: Scale,
) -> Result<Map<String, Value>, OutOfMemory>
    ensures { IfOk result
        (λ m. object (members_view m.entries)
        ≡ convex_tree scale is_cost (ConvexAnswer.Convex shapley.now marginal.now)) }
{
    let members = with_answer(alloc, "convex")?;
    let members = with_shares(alloc, members, "marginal", marginal, is_cost, scale)?;
    with_shares(alloc, members, "shapley", shapley, is_cost, scale)
}

// The coalition and the players at which a game isn't convex, and by how much.
fn failure_members(
    alloc: Global,
    s: Coalition,
    i: u32,
    j: u32,
    deficit: i64,
    scale: Scale,
) -> Result<Map<String, Value>, OutOfMemory>
    ensures { IfOk result
        (λ m. object (members_view m.entries) ≡ convex_tree scale false (ConvexAnswer.Not s i j deficit)) }
{
    let members = with_answer(alloc, "not convex")?;
    let members = with_integer(alloc, members, "deficit", i128::from(deficit), scale)?;
    let members = with(alloc, members, "i", player_value(i))?;
    let members = with(alloc, members, "j", player_value(j))?;
    with_coalition(alloc, members, "set", s)
}
