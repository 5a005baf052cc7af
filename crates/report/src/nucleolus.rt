//! The nucleolus or the prenucleolus of a game with its certificate, as JSON, and what a reader of its line finds.
ghost use Rattle.std.specs.Prelude.{◌≡◌, IfOk, map};
ghost use Rattle.std.specs.List.{AllByRecursion};
ghost use Rattle.serde_json.specs.Data.{object};
ghost use Rattle.serde_json.specs.View.{view, members_view};
ghost use Rattle.report.specs.Limits.{IsFine, HasSmallWeights};
ghost use Rattle.report.specs.Lines.{nucleolus_tree, answer_tree};
ghost use Rattle.report.specs.Words.{family_word, mode_word};
ghost use Rattle.report.specs.Certificates.{level_tree, certificate_tree};
ghost use Rattle.report.specs.ReadingBack.{NucleoliAreReadBack, NucleoliAreShort, ScaledFractionsAreReadBack};

use crate::answer::Answer;
use crate::objects::{
    weight_value, with, with_answer, with_integer, with_shares, with_text, with_value, with_weights,
};
use crate::values::Scale;
use definitions::{Family, Mode};
use fractions::OutOfMemory;
use json_texts::written_is_read_back;
use kohlberg::{Certificate, Level};
use serde_json::{Map, Value};
use std::alloc::Global;
use worth_core::Shares;

/// The members of the tree of the nucleolus or the prenucleolus, beside the tree of the game.
pub(crate) fn nucleolus_members(
    alloc: Global,
    family: Family,
    game: Value,
    is_cost: bool,
    shares: &Shares,
    certificate: &Certificate,
    scale: Scale,
) -> Result<Map<String, Value>, OutOfMemory>
    requires { AllByRecursion (λ l. IsFine l.excess_den) certificate.now.levels }
    ensures { IfOk result
        (λ m. object (members_view m.entries)
        ≡ nucleolus_tree scale family (view game) is_cost shares.now certificate.now) }
{
    // The game first, since it is there already; keys ascend in the object in any case.
    let members = with(alloc, Map::new(alloc), "game", game)?;
    let members = with_text(alloc, members, "answer", family_word(family))?;
    let certificate = Value::Object(certificate_members(alloc, certificate, scale)?);
    let members = with(alloc, members, "certificate", certificate)?;
    with_shares(alloc, members, "shares", shares, is_cost, scale)
}

/// The word for the best of the imputations, or of the preimputations.
fn family_word(family: Family) -> &'static str
    ensures { result.now ≡ family_word family }
{
    match family {
        Family::Imputations => "nucleolus",
        Family::Preimputations => "prenucleolus",
    }
}

/// The members of the tree of a certificate, its excesses over the scale.
fn certificate_members(
    alloc: Global,
    certificate: &Certificate,
    scale: Scale,
) -> Result<Map<String, Value>, OutOfMemory>
    requires { AllByRecursion (λ l. IsFine l.excess_den) certificate.now.levels }
    ensures { IfOk result (λ m. object (members_view m.entries) ≡ certificate_tree scale certificate.now) }
{
    let levels = level_trees(alloc, certificate.levels(), scale)?;
    let members = with(alloc, Map::new(alloc), "levels", Value::Array(levels))?;
    with_text(alloc, members, "mode", mode_word(certificate.mode()))
}

/// The word for what the levels of a certificate fix.
fn mode_word(mode: Mode) -> &'static str
    ensures { result.now ≡ mode_word mode }
{
    match mode {
        Mode::Players => "players",
        Mode::Span => "span",
    }
}

fn level_trees(alloc: Global, levels: &[Level], scale: Scale) -> Result<Vec<Value>, OutOfMemory>
    requires small { AllByRecursion HasSmallWeights levels.now }
    requires fine { AllByRecursion (λ l. IsFine l.excess_den) levels.now }
    ensures { IfOk result (λ v. map view v.items ≡ map (level_tree scale) levels.now) }
{
    let mut trees = Vec::new(alloc);
    for level in levels {
        let members = level_members(alloc, level, scale)?;
        trees.push(Value::Object(members))?;
    }
    Ok(trees)
}

fn level_members(
    alloc: Global,
    level: &Level,
    scale: Scale,
) -> Result<Map<String, Value>, OutOfMemory>
    requires small { HasSmallWeights level.now }
    requires fine { IsFine level.now.excess_den }
    ensures { IfOk result (λ m. object (members_view m.entries) ≡ level_tree scale level.now) }
{
    let members = with_weights(alloc, Map::new(alloc), "bounds", &level.bounds)?;
    let members = with_weights(alloc, members, "coalitions", &level.coalitions)?;
    let members = with_weights(alloc, members, "earlier", &level.earlier)?;
    let members = with_value(alloc, members, "excess", &level.excess, scale)?;
    with(alloc, members, "total", weight_value(level.total))
}

/// The members of the tree of what the players alone are worth together, or pay, and all of them.
pub(crate) fn no_imputation_members(
    alloc: Global,
    singles: i64,
    total: i64,
    scale: Scale,
) -> Result<Map<String, Value>, OutOfMemory>
    ensures { IfOk result
        (λ m. object (members_view m.entries) ≡ answer_tree scale (Answer.NoImputation singles total)) }
{
    let members = with_answer(alloc, "no imputation")?;
    let members = with_integer(alloc, members, "singles", i128::from(singles), scale)?;
    with_integer(alloc, members, "total", i128::from(total), scale)
}

/// The tree of a nucleolus is read from its text, has its parts at their keys, and each of its shares is read from its
/// text.
pub fn nucleoli_are_read_back()
    ensures { NucleoliAreReadBack }
{
    written_is_read_back();
}

/// The text of a nucleolus is at most 2 MiB longer than that of its game, if each level has at most 128 entries and an
/// excess that is read from its text.
pub fn nucleoli_are_short()
    ensures { NucleoliAreShort }
{}

/// A fraction is read over the scale from its text, and times the scale it is as before.
pub fn scaled_fractions_are_read_back()
    ensures { ScaledFractionsAreReadBack }
{}
