//! Programs, as the simplex reads them, and the costs by which its two parts read them.

ghost use Rattle.std.specs.Prelude.{◌≡◌, ◌<◌, ℕ, IsTrue, MatchOption};
ghost use Rattle.arrayvec.specs.ArrayVec.{array_vec_len};
ghost use Rattle.definitions.specs.Programs.{Program, Bounds};
ghost use Rattle.determinants.specs.Matrix.{weight_at};
ghost use Rattle.simplex.specs.Entering.{IsEntering, IsImprovingColumn};
ghost use Rattle.simplex.specs.Improving.{counts_costs, part_cost};
ghost use Rattle.simplex.specs.Laws.{IsLawful};
ghost use Rattle.simplex.specs.Program.{column, price, priced, right_side};
ghost use Rattle.simplex.specs.Tableau.{IsId};

use crate::multipliers::Multipliers;
use crate::state::{Numbers, STRIDE};

/// The number of a column, as the calls of `Columns` have it.
pub type ColumnId = u64;

/// A linear program in standard form, known by its rows and columns. A row has a right-hand side; a column has a cost,
/// and an entry in each row. Sought are nonnegative weights of the columns that meet every right-hand side, at the
/// greatest total cost.
///
/// The first rows are those of at most 16 players, the others are level rows, and there are at most 31. No call changes
/// the program. Its right-hand sides are 0 or 1, and its costs are below 2^46 in size. It lies in one of two bands, so
/// that each minor of it is below 2^58 in size:
///
/// - entries of a column, and the right-hand sides, are all 0 or 1 or all 0 or -1, at most one of them in the level
///   rows isn't 0, and there are at most 15 level rows;
/// - there are at most 15 rows, and the sizes of a column's entries sum to at most 14.
pub trait Columns {
    ghost program: { Self → Program };

    ghost players: { Self → ℕ };

    /// Returns the number of rows.
    fn rows(&self) -> u32
        ensures { result ≡ (program self.now).rows };

    /// Returns the right-hand side of a row.
    fn right(&self, row: u32) -> i32
        requires { row < (program self.now).rows }
        ensures { result ≡ (program self.now).right row };

    /// Returns whether `id` is the number of a column.
    fn has(&self, id: u64) -> bool
        ensures { result ≡ (program self.now).is_column id };

    /// Returns the entry of a column in a row.
    fn entry(&self, id: u64, row: u32) -> i32
        requires column { IsTrue ((program self.now).is_column id) }
        requires row { row < (program self.now).rows }
        ensures { result ≡ (program self.now).entry id row };

    /// Returns the cost of a column.
    fn cost(&self, id: u64) -> i64
        requires { IsTrue ((program self.now).is_column id) }
        ensures { result ≡ (program self.now).cost id };

    /// Returns the column of least number that costs more than its value under the multipliers, and none exactly if no
    /// column does. Without costs each column counts as costing 0.
    fn entering(&mut self, m: &Multipliers, with_costs: bool) -> Option<u64>
        requires { array_vec_len m.now.num ≡ (program self.old).rows }
        ensures same { program self.new ≡ program self.old }
        ensures same_players { players self.new ≡ players self.old }
        ensures answer { MatchOption result
            (Bounds (priced (program self.old) with_costs) m.now.num.items m.now.den)
            (λ id. IsEntering (priced (program self.old) with_costs) m.now.num.items m.now.den id) };

    /// Returns a column that costs more than its value by the multipliers; none exactly if none does. Without costs
    /// each column counts as costing 0. Any such column serves: the choice makes `solve` take fewer steps or more.
    ///
    /// The proof that the simplex ends doesn't need the least one: `solve` calls `entering` only to drive out an
    /// artificial unit. An implementation need not write a body.
    fn improving(&mut self, m: &Multipliers, with_costs: bool) -> Option<u64>
        requires { array_vec_len m.now.num ≡ (program self.old).rows }
        ensures same { program self.new ≡ program self.old }
        ensures same_players { players self.new ≡ players self.old }
        ensures answer { MatchOption result
            (Bounds (priced (program self.old) with_costs) m.now.num.items m.now.den)
            (λ id. IsImprovingColumn (priced (program self.old) with_costs) m.now.num.items m.now.den id) }
    {
        self.entering(m, with_costs)
    }

    ghost lawful: { (s : Self) → IsLawful (players s) (program s) };
}

/// The first part looks for a solution: columns cost nothing, and artificial variables 1. The second looks for the best
/// one, by the columns' own costs.
#[derive(Clone, Copy)]
pub(crate) enum Part {
    First,
    Second,
}

/// A column of the program, from its last row: so the level rows come first.
pub(crate) fn load_column<C: Columns>(columns: &C, id: ColumnId, n: usize) -> Numbers
    requires column { IsTrue ((C.program columns.now).is_column id) }
    requires rows { n ≡ (C.program columns.now).rows }
    ensures { (i : ℕ) → i < n → weight_at result i ≡ column (C.program columns.now) id i }
{
    let mut entries = [0; STRIDE];
    for i in 0..n {
        entries[i] = i128::from(columns.entry(id, (n - 1 - i) as u32));
    }
    entries
}

/// The right-hand sides, from the last row.
pub(crate) fn load_right<C: Columns>(columns: &C, n: usize) -> Numbers
    requires { n ≡ (C.program columns.now).rows }
    ensures { (i : ℕ) → i < n → weight_at result i ≡ right_side (C.program columns.now) i }
{
    let mut entries = [0; STRIDE];
    for i in 0..n {
        entries[i] = i128::from(columns.right((n - 1 - i) as u32));
    }
    entries
}

/// A column that improves in a part.
pub(crate) fn improving_in<C: Columns>(
    columns: &mut C,
    m: &Multipliers,
    part: Part,
) -> Option<ColumnId>
    requires { array_vec_len m.now.num ≡ (C.program columns.old).rows }
    ensures same { C.program columns.new ≡ C.program columns.old }
    ensures same_players { C.players columns.new ≡ C.players columns.old }
    ensures answer { MatchOption result
        (Bounds (priced (C.program columns.old) (counts_costs part)) m.now.num.items m.now.den)
        (λ id. IsImprovingColumn (priced (C.program columns.old) (counts_costs part)) m.now.num.items m.now.den id) }
{
    match part {
        Part::First => columns.improving(m, false),
        Part::Second => columns.improving(m, true),
    }
}

/// The cost of a column in a part.
pub(crate) fn price_of<C: Columns>(columns: &C, id: ColumnId, part: Part) -> i128
    requires { IsTrue ((C.program columns.now).is_column id) }
    ensures { result ≡ price (C.program columns.now) (counts_costs part) id }
{
    match part {
        Part::First => 0,
        Part::Second => i128::from(columns.cost(id)),
    }
}

/// The cost of what stands at a position in the second part, in which an artificial variable costs nothing.
pub(crate) fn cost_at<C: Columns>(columns: &C, id: Option<ColumnId>) -> i128
    requires { IsId (C.program columns.now) id }
    ensures { result ≡ part_cost (C.program columns.now) Part.Second id }
{
    match id {
        Some(id) => i128::from(columns.cost(id)),
        None => 0,
    }
}
