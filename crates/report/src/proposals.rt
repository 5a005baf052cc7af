//! What is said of proposed shares, as JSON: of the core by `propose`, and of the prekernel by `kernel`.
ghost use Rattle.std.specs.Prelude.{◌≡◌, IfOk};
ghost use Rattle.serde_json.specs.Data.{object};
ghost use Rattle.serde_json.specs.View.{members_view};
ghost use Rattle.report.specs.Limits.{IsFine};
ghost use Rattle.report.specs.Lines.{answer_tree};
ghost use Rattle.report.specs.KernelTrees.{not_prekernel_tree};

use crate::answer::Answer;
use crate::objects::{with, with_answer, with_coalition, with_integer, with_value};
use crate::values::{Scale, player_value};
use coalitions::Coalition;
use fractions::{Frac, OutOfMemory};
use serde_json::{Map, Value};
use std::alloc::Global;

/// The members of the tree of the sum of shares that differs from what all are worth.
pub(crate) fn not_efficient_members(
    alloc: Global,
    sum: &Frac,
    total: i64,
    scale: Scale,
) -> Result<Map<String, Value>, OutOfMemory>
    requires { IsFine sum.now.den }
    ensures { IfOk result
        (λ m. object (members_view m.entries) ≡ answer_tree scale (Answer.NotEfficient sum.now total)) }
{
    let members = with_answer(alloc, "not efficient")?;
    let members = with_value(alloc, members, "sum", sum, scale)?;
    with_integer(alloc, members, "total", i128::from(total), scale)
}

/// The members of the tree of a coalition that could do better by itself.
pub(crate) fn blocked_members(
    alloc: Global,
    coalition: Coalition,
    excess: &Frac,
    scale: Scale,
) -> Result<Map<String, Value>, OutOfMemory>
    requires { IsFine excess.now.den }
    ensures { IfOk result
        (λ m. object (members_view m.entries) ≡ answer_tree scale (Answer.Blocked coalition excess.now)) }
{
    let members = with_answer(alloc, "blocked")?;
    let members = with_coalition(alloc, members, "coalition", coalition)?;
    with_value(alloc, members, "excess", excess, scale)
}

/// The members of the tree of two players whose surpluses differ.
pub(crate) fn not_prekernel_members(
    alloc: Global,
    i: u32,
    j: u32,
    ij: &Frac,
    ji: &Frac,
    scale: Scale,
) -> Result<Map<String, Value>, OutOfMemory>
    requires ij { IsFine ij.now.den }
    requires ji { IsFine ji.now.den }
    ensures { IfOk result (λ m. object (members_view m.entries) ≡ not_prekernel_tree scale i j ij.now ji.now) }
{
    let members = with_answer(alloc, "not prekernel")?;
    let members = with(alloc, members, "i", player_value(i))?;
    let members = with_value(alloc, members, "ij", ij, scale)?;
    let members = with(alloc, members, "j", player_value(j))?;
    with_value(alloc, members, "ji", ji, scale)
}
