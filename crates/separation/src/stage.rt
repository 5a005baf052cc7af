//! The stage programs of the nucleolus.

ghost use Rattle.std.specs.Prelude.{◌≡◌, ◌<◌, ◌≤◌, ◌^◌, ◌++◌, map, length, OnOk, OnErr, ℕ};
ghost use Rattle.std.specs.Prelude.{◌+◌, IfOk};
ghost use Rattle.std.specs.List.{AllByRecursion};
ghost use Rattle.definitions.specs.Certificates.{HasForm};
ghost use Rattle.definitions.specs.Coalitions.{grand_coalition};
ghost use Rattle.definitions.specs.declared.Measure.{Measure};
ghost use Rattle.definitions.specs.declared.Mode.{Mode};
ghost use Rattle.kohlberg.specs.Marking.{IsMarking};
ghost use Rattle.separation.specs.Making.{listed, plain, minus, earlier_columns, whole_columns, single, bound};
ghost use Rattle.separation.specs.Making.{AddsSome, AreWithin, IsOuter, EndsOuter, inner_columns};
ghost use Rattle.separation.specs.Same.{IsSpanOf, IsStage};
ghost use Rattle.separation.specs.Stage.{earlier_of};

use crate::column::{Column, bound, minus, plain, single};
use crate::lazy::outside_of;
use crate::listed::Listed;
use coalitions::Coalition;
use definitions::{Family, Measure};
use fractions::OutOfMemory;
use kohlberg::Level;
use simplex::Columns;
use spans::{Outside, Span};
use std::alloc::{AllocError, Global};
use worth_core::Worth;

/// Adds both columns of the coalition of all players. Fails only if memory runs out; then the first few are added.
pub(crate) fn push_whole<W: Worth>(
    columns: &mut Vec<Option<Column>>,
    game: &W,
) -> Result<(), AllocError>
    ensures ok { OnOk result (columns.new.items
        ≡ columns.old.items ++ whole_columns (W.game game.now) (grand_coalition (W.game game.now).players)) }
    ensures err { OnErr result (AddsSome columns.old.items
        (whole_columns (W.game game.now) (grand_coalition (W.game game.now).players)) columns.new.items) }
{
    let all = Coalition::all(game.players());
    columns.push(Some(plain(game, all, None)))?;
    columns.push(Some(minus(game, all, None)))?;
    Ok(())
}

/// Adds both columns of each coalition of level `k`. Fails only if memory runs out; then the first few are added.
fn push_level<W: Worth>(
    columns: &mut Vec<Option<Column>>,
    game: &W,
    k: u32,
    pairs: &[(Coalition, i128)],
) -> Result<(), AllocError>
    requires { AllByRecursion (λ c. c.0 < 2 ^ (W.game game.now).players) pairs.now }
    ensures ok { OnOk result (columns.new.items
        ≡ columns.old.items ++ earlier_columns (W.game game.now) (map (λ c. (c.0, k)) pairs.now)) }
    ensures err { OnErr result (AddsSome columns.old.items
        (earlier_columns (W.game game.now) (map (λ c. (c.0, k)) pairs.now)) columns.new.items) }
{
    for (s, _) in pairs {
        columns.push(Some(plain(game, *s, Some(k))))?;
        columns.push(Some(minus(game, *s, Some(k))))?;
    }
    Ok(())
}

/// Adds both columns of each coalition of the levels. Fails only if memory runs out; then the first few are added.
pub(crate) fn push_earlier<W: Worth>(
    columns: &mut Vec<Option<Column>>,
    game: &W,
    levels: &[Level],
) -> Result<(), AllocError>
    requires few { length levels.now ≤ 16 }
    requires within { AllByRecursion (AreWithin (W.game game.now).players) levels.now }
    ensures ok { OnOk result (columns.new.items
        ≡ columns.old.items ++ earlier_columns (W.game game.now) (earlier_of 0 levels.now)) }
    ensures err { OnErr result (AddsSome columns.old.items
        (earlier_columns (W.game game.now) (earlier_of 0 levels.now)) columns.new.items) }
{
    for k in 0..levels.len() {
        let level = &levels[k];
        push_level(columns, game, k as u32, &level.coalitions)?;
    }
    Ok(())
}

/// Adds the column of each player alone. Fails only if memory runs out; then the first few are added.
pub(crate) fn push_singles<W: Worth>(
    columns: &mut Vec<Option<Column>>,
    game: &W,
    family: Family,
) -> Result<(), AllocError>
    ensures ok { OnOk result (columns.new.items
        ≡ columns.old.items ++ listed (W.game game.now).players (single family (W.game game.now))) }
    ensures err { OnErr result (AddsSome columns.old.items
        (listed (W.game game.now).players (single family (W.game game.now))) columns.new.items) }
{
    for i in 0..game.players() {
        columns.push(single(game, family, i))?;
    }
    Ok(())
}

/// Adds the column of each player alone, negated. Fails only if memory runs out; then the first few are added.
pub(crate) fn push_bounds<W: Worth>(
    columns: &mut Vec<Option<Column>>,
    game: &W,
    family: Family,
    levels: &[Level],
) -> Result<(), AllocError>
    ensures ok { OnOk result (columns.new.items
        ≡ columns.old.items ++ listed (W.game game.now).players (bound family (W.game game.now) levels.now)) }
    ensures err { OnErr result (AddsSome columns.old.items
        (listed (W.game game.now).players (bound family (W.game game.now) levels.now)) columns.new.items) }
{
    for i in 0..game.players() {
        columns.push(bound(game, family, levels, i))?;
    }
    Ok(())
}

/// The column of a coalition, if it is outside.
fn outer<W: Worth>(game: &W, levels: &[Level], outside: &Outside, s: Coalition) -> Option<Column>
    requires few_players { (W.game game.now).players ≤ 16 }
    requires few { length levels.now ≤ 16 }
    requires within { s < 2 ^ (W.game game.now).players }
    requires marks { IsMarking (W.game game.now).players levels.now outside.now }
    ensures { IsOuter (W.game game.now) levels.now s result }
{
    if outside.contains(s) {
        Some(plain(game, s, Some(levels.len() as u32)))
    } else {
        None
    }
}

/// Adds the columns of the coalitions outside, each under its mask. Fails only if memory runs out; then those below
/// some mask are added.
fn push_outer<W: Worth>(
    columns: &mut Vec<Option<Column>>,
    game: &W,
    levels: &[Level],
    outside: &Outside,
) -> Result<(), AllocError>
    requires few_players { (W.game game.now).players ≤ 16 }
    requires few { length levels.now ≤ 16 }
    requires marks { IsMarking (W.game game.now).players levels.now outside.now }
    ensures ok { OnOk result (EndsOuter (W.game game.now) levels.now (2 ^ (W.game game.now).players)
        columns.old.items columns.new.items) }
    ensures err { OnErr result ((k : ℕ) × (k < 2 ^ (W.game game.now).players)
        × EndsOuter (W.game game.now) levels.now k columns.old.items columns.new.items) }
{
    for s in 0..1u64 << game.players() {
        columns.push(outer(game, levels, outside, Coalition(s)))?;
    }
    Ok(())
}

/// The columns of a stage, each under its number.
fn stage_columns<W: Worth>(
    alloc: Global,
    game: &W,
    family: Family,
    levels: &[Level],
    span: &Span,
) -> Result<Vec<Option<Column>>, AllocError>
    requires few_players { (W.game game.now).players ≤ 16 }
    requires few { length levels.now ≤ 16 }
    requires within { AllByRecursion (AreWithin (W.game game.now).players) levels.now }
    requires players { span.now.players ≡ (W.game game.now).players }
    requires spans { IsSpanOf (W.game game.now).players span.now.kept levels.now }
    ensures { IfOk result (λ v. EndsOuter (W.game game.now) levels.now (2 ^ (W.game game.now).players)
        (inner_columns family (W.game game.now) levels.now) v.items) }
{
    let mut columns = Vec::new(alloc);
    push_whole(&mut columns, game)?;
    push_earlier(&mut columns, game, levels)?;
    push_singles(&mut columns, game, family)?;
    push_bounds(&mut columns, game, family, levels)?;
    let outside = outside_of(span, game.players());
    push_outer(&mut columns, game, levels, &outside)?;
    Ok(columns)
}

impl Listed {
    /// Makes the stage program of a game of 2 to 16 players after some levels, with every column kept (Kopelowitz 1967;
    /// per head Grotte 1970): its weights are those of the next level, and its multipliers the shares and the measured
    /// excesses of the levels. Per head there are at most 8 players.
    ///
    /// There are at most n - 2 levels, in the form of a certificate. `span` holds exactly the coalitions that the
    /// levels fix in span mode. Fails only if memory runs out.
    pub fn stage<W: Worth>(
        alloc: Global,
        game: &W,
        family: Family,
        measure: Measure,
        levels: &[Level],
        span: &Span,
    ) -> Result<Listed, OutOfMemory>
        requires few { (W.game game.now).players ≤ 16 }
        requires heads { measure ≡ Measure.PerHead → (W.game game.now).players ≤ 8 }
        requires form { HasForm Mode.Span (W.game game.now).players levels.now }
        requires count { length levels.now + 2 ≤ (W.game game.now).players }
        requires players { span.now.players ≡ (W.game game.now).players }
        requires spans { IsSpanOf (W.game game.now).players span.now.kept levels.now }
        ensures { IfOk result (λ l. (⟦<Listed as Columns>⟧.players l ≡ (W.game game.now).players)
            × IsStage family measure (W.game game.now) levels.now (⟦<Listed as Columns>⟧.program l)) }
    {
        match stage_columns(alloc, game, family, levels, span) {
            Ok(columns) => {
                let players = game.players();
                Ok(Listed::of(measure, players, levels.len() as u32 + 1, columns))
            }
            Err(_) => Err(OutOfMemory),
        }
    }
}
