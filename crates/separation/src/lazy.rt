//! A program whose columns are found by their numbers, and not listed.

ghost use Rattle.std.specs.Prelude.{◌≡◌, ◌+◌, ◌<◌, ◌≤◌, ◌^◌, length, IsOk, IfOk, IfSome, List};
ghost use Rattle.std.specs.List.{AllByRecursion};
ghost use Rattle.std.proofs.Props.{props};
ghost use Rattle.definitions.specs.Certificates.{HasForm, Level};
ghost use Rattle.definitions.specs.Games.{IsGame};
ghost use Rattle.definitions.specs.declared.Measure.{Measure};
ghost use Rattle.definitions.specs.declared.Mode.{Mode};
ghost use Rattle.kohlberg.specs.Marking.{IsMarking};
ghost use Rattle.separation.specs.Fronts.{front_columns, front_rows, lazy_columns, IsSmallLevel};
ghost use Rattle.separation.specs.Kept.{kept_program, AreSmall, AreShort};
ghost use Rattle.separation.specs.BlockBounds.{AreBlockBounds};
ghost use Rattle.separation.specs.Same.{IsSpanOf};

use crate::block_bounds::block_bounds_of;
use crate::column::{Column, plain};
use crate::front::Front;
use crate::pricing::{block_of, first_found, some_found};
use coalitions::Coalition;
use definitions::{Family, Measure};
use fractions::OutOfMemory;
use kohlberg::Level;
use simplex::{ColumnId, Columns, Multipliers};
use spans::{Outside, Span};
use std::alloc::Global;
use worth_core::Worth;

/// A program that keeps a mark for each coalition and no columns. It finds each column by its number, and the one that
/// enters by going over the numbers.
#[derive(Drop)]
pub struct Lazy<'a, W: Worth> {
    pub(crate) game: &'a W,
    pub(crate) measure: Measure,
    pub(crate) players: u32,
    pub(crate) levels: u32,
    /// What stands in front of the coalitions' columns, in a stage.
    pub(crate) front: Option<Front<'a>>,
    /// The number of the first of the coalitions' columns, which is that of the empty one.
    pub(crate) first: ColumnId,
    /// The coalitions that have a column; without marks these are all but the empty one.
    pub(crate) marks: Option<Outside>,
    /// The greatest worth of each block of 256 coalitions, or 0 if that is more.
    pub(crate) block_bounds: [i64; 256],
    /// The block of 256 coalitions in which the last coalition was found, whose column entered; there the next search
    /// of coalitions begins, whatever entered since from the front.
    pub(crate) at: u8,
    ghost count: { players ≡ (W.game game.now).players },
    ghost few: { players ≤ 16 },
    ghost laws: { IsGame (W.game game.now) },
    ghost rows: { levels ≡ front_rows front },
    ghost few_rows: { levels ≤ 15 },
    ghost small_levels: { IfSome front
        (λ f. AllByRecursion (IsSmallLevel players) f.levels.now) } by { Prim.hlevel props },
    ghost first_is: { first ≡ length (front_columns (W.game game.now) front) },
    ghost first_small: { first ≤ 2 ^ 32 },
    ghost block_bounds_are: { AreBlockBounds (W.game game.now) block_bounds },
    ghost small: { AreSmall levels (lazy_columns (W.game game.now) front marks) },
    ghost short: { AreShort measure players levels (lazy_columns (W.game game.now) front marks) },
}

/// The coalitions of `n` players that a span doesn't hold, but for the empty one and that of all. These are the
/// coalitions outside behind any levels of which the span holds exactly what they fix.
pub(crate) fn outside_of(span: &Span, n: u32) -> Outside
    requires few { n ≤ 16 }
    requires players { span.now.players ≡ n }
    ensures { (levels : List Level) → IsSpanOf n span.now.kept levels → IsMarking n levels result }
{
    let mut outside = Outside::all(n);
    outside.clear(span);
    outside
}

impl<'a, W: Worth> Lazy<'a, W> {
    ghost use Rattle.separation.specs.Same.{IsSame, IsSpanOf, IsStage};
    ghost use Rattle.separation.specs.Balanced.{balanced_program};

    /// Makes the stage program of a game of 2 to 16 players after some levels (Kopelowitz 1967; per head Grotte 1970):
    /// its weights are those of the next level, and its multipliers the shares and the measured excesses of the levels.
    /// Per head there are at most 8 players. It keeps one bit for each coalition.
    ///
    /// There are at most n - 2 levels, in the form of a certificate. `span` holds exactly the coalitions that the
    /// levels fix in span mode. There is no error, since no memory is taken.
    pub fn stage(
        _alloc: Global,
        game: &'a W,
        family: Family,
        measure: Measure,
        levels: &'a [Level],
        span: &Span,
    ) -> Result<Lazy<'a, W>, OutOfMemory>
        requires few { (W.game game.now).players ≤ 16 }
        requires heads { measure ≡ Measure.PerHead → (W.game game.now).players ≤ 8 }
        requires form { HasForm Mode.Span (W.game game.now).players levels.now }
        requires count { length levels.now + 2 ≤ (W.game game.now).players }
        requires players { span.now.players ≡ (W.game game.now).players }
        requires spans { IsSpanOf (W.game game.now).players span.now.kept levels.now }
        ensures always { IsOk result }
        ensures program { IfOk result (λ l. (⟦<Lazy<'a, W> as Columns>⟧.players l ≡ (W.game game.now).players)
            × IsStage family measure (W.game game.now) levels.now (⟦<Lazy<'a, W> as Columns>⟧.program l)) }
    {
        let block_bounds = block_bounds_of(game);
        Ok(Lazy::stage_with(game, &block_bounds, family, measure, levels, span))
    }

    /// Makes the stage program that `stage` makes, when the greatest worths of the game are known from an earlier
    /// stage.
    pub fn stage_with(
        game: &'a W,
        block_bounds: &[i64; 256],
        family: Family,
        measure: Measure,
        levels: &'a [Level],
        span: &Span,
    ) -> Lazy<'a, W>
        requires few { (W.game game.now).players ≤ 16 }
        requires block_bounds { AreBlockBounds (W.game game.now) block_bounds.now }
        requires heads { measure ≡ Measure.PerHead → (W.game game.now).players ≤ 8 }
        requires form { HasForm Mode.Span (W.game game.now).players levels.now }
        requires count { length levels.now + 2 ≤ (W.game game.now).players }
        requires players { span.now.players ≡ (W.game game.now).players }
        requires spans { IsSpanOf (W.game game.now).players span.now.kept levels.now }
        ensures players { ⟦<Lazy<'a, W> as Columns>⟧.players result ≡ (W.game game.now).players }
        ensures program { IsStage family measure (W.game game.now) levels.now
            (⟦<Lazy<'a, W> as Columns>⟧.program result) }
    {
        let players = game.players();
        let front = Front { family, levels };
        Lazy {
            game,
            measure,
            players,
            levels: levels.len() as u32 + 1,
            front: Some(front),
            first: front.count(game),
            marks: Some(outside_of(span, players)),
            block_bounds: *block_bounds,
            at: 0,
        }
    }

    /// Makes the balanced program of a game of at most 16 players (Bondareva 1963, Shapley 1967): the greatest worth
    /// that coalitions have by weights that hold each player once. If that is the worth of all, the multipliers are a
    /// point of the core. If it is more, the weights show that there is none. It takes no memory and never fails.
    pub fn balanced(_alloc: Global, game: &'a W) -> Result<Lazy<'a, W>, OutOfMemory>
        requires { (W.game game.now).players ≤ 16 }
        ensures always { IsOk result }
        ensures program { IfOk result (λ l. (⟦<Lazy<'a, W> as Columns>⟧.players l ≡ (W.game game.now).players)
            × IsSame (⟦<Lazy<'a, W> as Columns>⟧.program l) (balanced_program (W.game game.now))) }
    {
        let players = game.players();
        Ok(Lazy {
            game,
            measure: Measure::Plain,
            players,
            levels: 0,
            front: None,
            first: 0,
            marks: None,
            block_bounds: block_bounds_of(game),
            at: 0,
        })
    }
}

impl<W: Worth> Lazy<'_, W> {
    ghost use Rattle.std.specs.Prelude.{◌*◌, ℕ};
    ghost use Rattle.definitions.specs.Coalitions.{has_player};
    ghost use Rattle.separation.specs.Kept.{column_at};
    ghost use Rattle.separation.specs.Fronts.{front_level, has_mark, marked_column};

    /// The level row of the coalitions' columns.
    pub(crate) fn level(&self) -> Option<u32>
        ensures { result ≡ front_level self.now.front }
    {
        let front = self.front?;
        Some(front.levels.len() as u32)
    }

    /// The column under a number in front of those of the coalitions.
    pub(crate) fn front_column(&self, id: ColumnId) -> Option<Column>
        ensures { result ≡ column_at (front_columns (W.game self.now.game.now) self.now.front) id }
    {
        self.front?.column(self.game, id)
    }

    /// Whether a coalition has a column.
    pub(crate) fn has_mark(&self, s: Coalition) -> bool
        requires { s < 2 ^ self.now.players }
        ensures { result ≡ has_mark self.now.marks s }
    {
        match &self.marks {
            Some(outside) => outside.contains(s),
            None => s.0 > 0,
        }
    }

    /// Which of the 64 coalitions from 64 * `place` on have a column, a bit for each.
    pub(crate) fn marked_word(&self, place: u64) -> u64
        requires { place < 1024 }
        ensures { (j : ℕ) → j < 64 → has_player result j ≡ has_mark self.now.marks (64 * place + j) }
    {
        match &self.marks {
            Some(outside) => outside.word(place as usize),
            None => {
                if place == 0 {
                    Coalition::all(64).without(0).0
                } else {
                    Coalition::all(64).0
                }
            }
        }
    }

    /// The column of a coalition, if it has one.
    pub(crate) fn marked_column(&self, s: Coalition) -> Option<Column>
        requires { s < 2 ^ self.now.players }
        ensures { result ≡ marked_column (W.game self.now.game.now) (front_level self.now.front) self.now.marks s }
    {
        if self.has_mark(s) {
            Some(plain(self.game, s, self.level()))
        } else {
            None
        }
    }

    /// The column under a number.
    pub(crate) fn column(&self, id: ColumnId) -> Option<Column>
        ensures { result ≡ column_at (lazy_columns (W.game self.now.game.now) self.now.front self.now.marks) id }
    {
        if id < self.first {
            self.front_column(id)
        } else if id - self.first < 1u64 << self.players {
            self.marked_column(Coalition(id - self.first))
        } else {
            None
        }
    }
}

impl<W: Worth> Columns for Lazy<'_, W> {
    ghost use Rattle.separation.specs.Lawful.{kept_lawful};

    ghost program = { λ l. kept_program l.measure l.players l.levels
        (lazy_columns (W.game l.game.now) l.front l.marks) };

    ghost players = { λ l. l.players };

    ghost lawful = { λ l. kept_lawful l.measure l.players l.levels
        (lazy_columns (W.game l.game.now) l.front l.marks) l.few l.few_rows l.small l.short };

    fn rows(&self) -> u32 {
        self.players + self.levels
    }

    fn right(&self, row: u32) -> i32 {
        if self.levels == 0 || row + 1 == self.players + self.levels {
            1
        } else {
            0
        }
    }

    fn has(&self, id: u64) -> bool {
        self.column(id).is_some()
    }

    fn entry(&self, id: u64, row: u32) -> i32 {
        match self.column(id) {
            Some(column) => column.entry(self.measure, self.players, row),
            None => 0,
        }
    }

    fn cost(&self, id: u64) -> i64 {
        match self.column(id) {
            Some(column) => column.cost,
            None => 0,
        }
    }

    fn entering(&mut self, m: &Multipliers, with_costs: bool) -> Option<u64> {
        first_found(self, m, with_costs)
    }

    fn improving(&mut self, m: &Multipliers, with_costs: bool) -> Option<u64> {
        let found = some_found(self, m, with_costs);
        self.at = block_of(found, self.first, self.at);
        found
    }
}
