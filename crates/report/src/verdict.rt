//! Verdicts as JSON.
ghost use Rattle.std.specs.Prelude.{◌≡◌, IfOk};
ghost use Rattle.serde_json.specs.Data.{object};
ghost use Rattle.serde_json.specs.View.{members_view};
ghost use Rattle.report.specs.Limits.{IsFine, IsFineVerdict};
ghost use Rattle.report.specs.Verdicts.{no_alone, no_at_player, no_at_coalition, no_at_level};
ghost use Rattle.kohlberg.specs.Reasons.{reason_number};
ghost use Rattle.report.specs.Verdicts.{no_above, reason_tree, verdict_tree};

use crate::objects::{with, with_answer, with_coalition, with_value};
use crate::values::{Scale, player_value};
use coalitions::Coalition;
use fractions::{Frac, OutOfMemory};
use kohlberg::{Place, Reason, Verdict};
use serde_json::{Map, Value};
use std::alloc::Global;

/// The members of the tree of a verdict.
pub(crate) fn verdict_members(
    alloc: Global,
    verdict: Verdict,
    scale: Scale,
) -> Result<Map<String, Value>, OutOfMemory>
    requires { IsFineVerdict verdict }
    ensures { IfOk result (λ m. object (members_view m.entries) ≡ verdict_tree scale verdict) }
{
    match verdict {
        Verdict::Yes => with_answer(alloc, "yes"),
        Verdict::No(reason) => reason_members(alloc, reason, scale),
    }
}

fn reason_members(
    alloc: Global,
    reason: Reason,
    scale: Scale,
) -> Result<Map<String, Value>, OutOfMemory>
    requires { IsFineVerdict (Verdict.No reason) }
    ensures { IfOk result (λ m. object (members_view m.entries) ≡ reason_tree scale reason) }
{
    let number = reason.number();
    match reason {
        Reason::NotEfficient => no_alone(alloc, number),
        Reason::NotIndividual { player } => no_at_player(alloc, number, player),
        Reason::WrongExcess { level, coalition } => no_at_coalition(
            alloc, number, level, coalition,
        ),
        Reason::WeightSign { level, place } => weight_members(alloc, number, level, place),
        Reason::Unbalanced { level, player } => no_at_level(alloc, number, level, player),
        Reason::BoundNotTight { level, player } => no_at_level(alloc, number, level, player),
        Reason::OutsideAbove { level, excess } => no_above(alloc, number, level, excess, scale),
        Reason::NotAll { player } => no_at_player(alloc, number, player),
    }
}

fn weight_members(
    alloc: Global,
    number: u32,
    level: u32,
    place: Place,
) -> Result<Map<String, Value>, OutOfMemory>
    requires { number ≡ reason_number (Reason.WeightSign level place) }
    ensures { IfOk result (λ m. object (members_view m.entries) ≡ reason_tree 1 (Reason.WeightSign level place)) }
{
    match place {
        Place::Coalition(coalition) => no_at_coalition(alloc, number, level, coalition),
        Place::Player(player) => no_at_level(alloc, number, level, player),
    }
}

fn no_alone(alloc: Global, reason: u32) -> Result<Map<String, Value>, OutOfMemory>
    ensures { IfOk result (λ m. object (members_view m.entries) ≡ no_alone reason) }
{
    let members = with_answer(alloc, "no")?;
    with(alloc, members, "reason", Value::from(reason))
}

fn no_at_player(alloc: Global, reason: u32, player: u32) -> Result<Map<String, Value>, OutOfMemory>
    ensures { IfOk result (λ m. object (members_view m.entries) ≡ no_at_player reason player) }
{
    let members = with_answer(alloc, "no")?;
    let members = with(alloc, members, "player", player_value(player))?;
    with(alloc, members, "reason", Value::from(reason))
}

fn no_at_coalition(
    alloc: Global,
    reason: u32,
    level: u32,
    coalition: Coalition,
) -> Result<Map<String, Value>, OutOfMemory>
    ensures { IfOk result (λ m. object (members_view m.entries) ≡ no_at_coalition reason level coalition) }
{
    let members = with_answer(alloc, "no")?;
    let members = with_coalition(alloc, members, "coalition", coalition)?;
    let members = with(alloc, members, "level", Value::from(level))?;
    with(alloc, members, "reason", Value::from(reason))
}

fn no_at_level(
    alloc: Global,
    reason: u32,
    level: u32,
    player: u32,
) -> Result<Map<String, Value>, OutOfMemory>
    ensures { IfOk result (λ m. object (members_view m.entries) ≡ no_at_level reason level player) }
{
    let members = with_answer(alloc, "no")?;
    let members = with(alloc, members, "level", Value::from(level))?;
    let members = with(alloc, members, "player", player_value(player))?;
    with(alloc, members, "reason", Value::from(reason))
}

fn no_above(
    alloc: Global,
    reason: u32,
    level: u32,
    excess: Frac,
    scale: Scale,
) -> Result<Map<String, Value>, OutOfMemory>
    requires { IsFine excess.den }
    ensures { IfOk result (λ m. object (members_view m.entries) ≡ no_above scale reason level excess) }
{
    let members = with_answer(alloc, "no")?;
    let members = with_value(alloc, members, "excess", &excess, scale)?;
    let members = with(alloc, members, "level", Value::from(level))?;
    with(alloc, members, "reason", Value::from(reason))
}
