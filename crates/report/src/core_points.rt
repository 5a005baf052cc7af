//! Points of the core, as JSON: any of a game, Bird's with its plan, and the best for either side of a market.
ghost use Rattle.std.specs.Prelude.{◌≡◌, IfOk, map};
ghost use Rattle.std.specs.List.{AllByRecursion};
ghost use Rattle.serde_json.specs.Data.{object};
ghost use Rattle.serde_json.specs.View.{members_view, view};
ghost use Rattle.definitions.specs.Certificates.{IsSmall};
ghost use Rattle.report.specs.CoreTrees.{core_point_tree, empty_core_tree};
ghost use Rattle.report.specs.BirdTrees.{edge_cost, edge_tree, bird_tree};
ghost use Rattle.report.specs.MatchingTrees.{pair_tree, matching_tree};

use crate::objects::{
    pair, weight_value, with, with_answer, with_integer, with_shares, with_text, with_weights,
};
use crate::values::{Scale, integer_value, player_value};
use balanced_collections::Collection;
use big_assignment::Solution;
use fractions::OutOfMemory;
use serde_json::{Map, Value};
use std::alloc::Global;
use tree_games::Tree;
use worth_core::Shares;

/// The members of the tree of a point of the core.
pub(crate) fn core_point_members(
    alloc: Global,
    is_cost: bool,
    shares: &Shares,
    scale: Scale,
) -> Result<Map<String, Value>, OutOfMemory>
    ensures { IfOk result (λ m. object (members_view m.entries) ≡ core_point_tree scale is_cost shares.now) }
{
    let members = with_answer(alloc, "core point")?;
    with_shares(alloc, members, "shares", shares, is_cost, scale)
}

/// The members of the tree of a collection that shows that the core is empty, beside the two numbers that it sets
/// against each other.
pub(crate) fn empty_core_members(
    alloc: Global,
    collection: &Collection,
    value: i128,
    against: i128,
    scale: Scale,
) -> Result<Map<String, Value>, OutOfMemory>
    requires weights { AllByRecursion (λ p. IsSmall p.1) collection.now.weights }
    requires k { IsSmall collection.now.k }
    ensures { IfOk result (λ m. object (members_view m.entries) ≡ empty_core_tree scale collection.now value against) }
{
    let members = with_integer(alloc, Map::new(alloc), "against", against, scale)?;
    let members = with_text(alloc, members, "answer", "empty core")?;
    let members = with_weights(alloc, members, "collection", &collection.weights)?;
    let members = with(alloc, members, "k", weight_value(collection.k))?;
    with_integer(alloc, members, "value", value, scale)
}

/// The members of the tree of what each player pays in Bird's plan, beside the edges of the plan.
pub(crate) fn bird_members(
    alloc: Global,
    shares: &Shares,
    tree: &Tree,
    scale: Scale,
) -> Result<Map<String, Value>, OutOfMemory>
    ensures { IfOk result (λ m. object (members_view m.entries) ≡ bird_tree scale shares.now tree.now) }
{
    let members = with_answer(alloc, "bird")?;
    let members = with_shares(alloc, members, "shares", shares, true, scale)?;
    let edges = edge_trees(alloc, &tree.edges, scale)?;
    with(alloc, members, "tree", Value::Array(edges))
}

fn edge_trees(
    alloc: Global,
    edges: &[(u32, u32, i64)],
    scale: Scale,
) -> Result<Vec<Value>, OutOfMemory>
    ensures { IfOk result (λ v. map view v.items ≡ map (edge_tree scale) edges.now) }
{
    let mut trees = Vec::new(alloc);
    for (end, player, cost) in edges {
        trees.push(edge_tree(alloc, *end, *player, *cost, scale)?)?;
    }
    Ok(trees)
}

/// What a link costs, over the scale: an integer if the scale is 1, otherwise a text.
fn cost_value(alloc: Global, cost: i64, scale: Scale) -> Result<Value, OutOfMemory>
    ensures { IfOk result (λ v. view v ≡ edge_cost scale cost) }
{
    if scale.number() == 1 {
        return Ok(Value::from(cost));
    }
    integer_value(alloc, i128::from(cost), scale)
}

fn edge_tree(
    alloc: Global,
    end: u32,
    player: u32,
    cost: i64,
    scale: Scale,
) -> Result<Value, OutOfMemory>
    ensures { IfOk result (λ v. view v ≡ edge_tree scale (end, player, cost)) }
{
    let cost = cost_value(alloc, cost, scale)?;
    let items = vec![in alloc; Value::from(end), Value::from(player), cost]?;
    Ok(Value::Array(items))
}

/// The members of the tree of the pairs of a market with their value, beside the core points that are best for either
/// side.
pub(crate) fn matching_members(
    alloc: Global,
    solution: &Solution,
    scale: Scale,
) -> Result<Map<String, Value>, OutOfMemory>
    ensures { IfOk result (λ m. object (members_view m.entries) ≡ matching_tree scale solution.now) }
{
    let buyers_best = &solution.buyers_best;
    let sellers_best = &solution.sellers_best;
    let members = with_answer(alloc, "matching")?;
    let members = with_shares(alloc, members, "buyers best", buyers_best, false, scale)?;
    let pairs = pair_trees(alloc, &solution.pairs)?;
    let members = with(alloc, members, "pairs", Value::Array(pairs))?;
    let members = with_shares(alloc, members, "sellers best", sellers_best, false, scale)?;
    with_integer(alloc, members, "value", i128::from(solution.value), scale)
}

fn pair_trees(alloc: Global, pairs: &[(u32, u32)]) -> Result<Vec<Value>, OutOfMemory>
    ensures { IfOk result (λ v. map view v.items ≡ map pair_tree pairs.now) }
{
    let mut trees = Vec::new(alloc);
    for (buyer, seller) in pairs {
        trees.push(pair_tree(alloc, *buyer, *seller)?)?;
    }
    Ok(trees)
}

fn pair_tree(alloc: Global, buyer: u32, seller: u32) -> Result<Value, OutOfMemory>
    ensures { IfOk result (λ v. view v ≡ pair_tree (buyer, seller)) }
{
    pair(alloc, player_value(buyer), player_value(seller))
}
