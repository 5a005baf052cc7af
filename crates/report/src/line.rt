//! The line of an answer.
ghost use Rattle.std.specs.Prelude.{◌≡◌, unsigned_abs, IfOk, IsUtf8, Some};
ghost use Rattle.serde_json.specs.Read.{read};
ghost use Rattle.serde_json.specs.Data.{object};
ghost use Rattle.serde_json.specs.View.{members_view};
ghost use Rattle.json_texts.specs.Newlines.{without_newline};
ghost use Rattle.report.specs.Limits.{IsScale, IsPrintable};
ghost use Rattle.report.specs.Lines.{answer_tree, line};
ghost use Rattle.report.specs.Words.{refusal_name, usage_word};

use crate::answer::{Answer, UsageKind};
use crate::core_points::{bird_members, core_point_members, empty_core_members, matching_members};
use crate::nucleolus::{no_imputation_members, nucleolus_members};
use crate::objects::{with, with_answer, with_text};
use crate::proposals::{blocked_members, not_efficient_members, not_prekernel_members};
use crate::shapley_shares::{convex_members, shapley_members};
use crate::summary::summary_members;
use crate::values::Scale;
use crate::verdict::verdict_members;
use fractions::OutOfMemory;
use kinds::Refusal;
use serde_json::{Map, Value};
use std::alloc::Global;

/// Returns the line of an answer: compact JSON with ascending keys, and a newline. Its fractions and shares are printed
/// over the scale, which is from 1 to 65,536.
pub fn write_report(alloc: Global, answer: Answer, scale: i64) -> Result<Vec<u8>, OutOfMemory>
    requires scale { IsScale scale }
    requires printable { IsPrintable answer }
    ensures text { IfOk result (λ v. v.items ≡ line scale answer) }
    // What stands in front of the newline is JSON, and reads as the tree that was written.
    ensures utf8 { IfOk result (λ v. IsUtf8 (without_newline v.items)) }
    ensures reads_back { IfOk result
        (λ v. read (without_newline v.items) ≡ Some (answer_tree (unsigned_abs scale) answer)) }
{
    let members = members_of(alloc, answer, Scale::new(scale))?;
    let mut text = Value::Object(members).to_vec(alloc)?;
    text.push(b'\n')?;
    Ok(text)
}

/// The members of the tree of an answer over the scale.
fn members_of(
    alloc: Global,
    answer: Answer,
    scale: Scale,
) -> Result<Map<String, Value>, OutOfMemory>
    requires { IsPrintable answer }
    ensures { IfOk result (λ m. object (members_view m.entries) ≡ answer_tree scale answer) }
{
    match answer {
        Answer::Nucleolus {
            family,
            tree,
            is_cost,
            shares,
            certificate,
        } => nucleolus_members(alloc, family, tree, is_cost, &shares, &certificate, scale),
        Answer::NoImputation { singles, total } => no_imputation_members(
            alloc, singles, total, scale,
        ),
        Answer::InCore => with_answer(alloc, "core"),
        Answer::NotEfficient { sum, total } => not_efficient_members(alloc, &sum, total, scale),
        Answer::Blocked { coalition, excess } => blocked_members(alloc, coalition, &excess, scale),
        Answer::CorePoint { is_cost, shares } => core_point_members(alloc, is_cost, &shares, scale),
        Answer::EmptyCore {
            collection,
            value,
            against,
        } => empty_core_members(alloc, &collection, value, against, scale),
        Answer::Shapley { is_cost, shares } => shapley_members(alloc, is_cost, &shares, scale),
        Answer::Bird { shares, tree } => bird_members(alloc, &shares, &tree, scale),
        Answer::Convex { is_cost, answer } => convex_members(alloc, is_cost, &answer, scale),
        Answer::Prekernel => with_answer(alloc, "prekernel"),
        Answer::NotPrekernel { i, j, ij, ji } => not_prekernel_members(
            alloc, i, j, &ij, &ji, scale,
        ),
        Answer::Matching(solution) => matching_members(alloc, &solution, scale),
        Answer::Verdict(verdict) => verdict_members(alloc, verdict, scale),
        Answer::Usage(kind) => usage_members(alloc, kind),
        Answer::Refused(refusal) => refused_members(alloc, refusal),
        Answer::Summary(summary) => summary_members(alloc, &summary, scale),
    }
}

fn usage_members(alloc: Global, kind: UsageKind) -> Result<Map<String, Value>, OutOfMemory>
    ensures { IfOk result (λ m. object (members_view m.entries) ≡ answer_tree 1 (Answer.Usage kind)) }
{
    with_text(alloc, Map::new(alloc), "usage", usage_word(kind))
}

fn refused_members(alloc: Global, refusal: Refusal) -> Result<Map<String, Value>, OutOfMemory>
    ensures { IfOk result (λ m. object (members_view m.entries) ≡ answer_tree 1 (Answer.Refused refusal)) }
{
    let members = with(
        alloc,
        Map::new(alloc),
        "number",
        Value::from(refusal.number()),
    )?;
    with_text(alloc, members, "refused", refusal_name(refusal))
}

/// The word for what is wrong with the words of a command line.
fn usage_word(kind: UsageKind) -> &'static str
    ensures { result.now ≡ usage_word kind }
{
    match kind {
        UsageKind::Words => "words",
        UsageKind::Class => "class",
        UsageKind::Players => "players",
    }
}

/// The name of a refusal.
fn refusal_name(refusal: Refusal) -> &'static str
    ensures { result.now ≡ refusal_name refusal }
{
    match refusal {
        Refusal::TooLong => "TooLong",
        Refusal::NotJson => "NotJson",
        Refusal::Shape => "Shape",
        Refusal::Players => "Players",
        Refusal::Number => "Number",
        Refusal::Names => "Names",
        Refusal::Coalition => "Coalition",
        Refusal::Estate => "Estate",
        Refusal::Matrix => "Matrix",
        Refusal::Proposal => "Proposal",
        Refusal::TooFine => "TooFine",
        Refusal::Certificate => "Certificate",
        Refusal::Quota => "Quota",
    }
}
