//! What a search for a column that improves goes over.

ghost use Rattle.std.specs.Prelude.{◌≡◌, ◌+◌, ◌^◌, ◌<◌, length, unsigned_abs};
ghost use Rattle.separation.specs.Values.{AreSums, counted};

use crate::column::Column;
use crate::lazy::Lazy;
use crate::sums::{bar, improves, is_below, value};
use crate::tables::Sums;
use coalitions::Coalition;
use simplex::Multipliers;
use worth_core::Worth;

/// What a coalition's worth counts for: 0 if costs don't count, and then the game isn't asked.
pub(crate) fn counted_worth<W: Worth>(game: &W, s: Coalition, with_costs: bool) -> i64
    requires { s < 2 ^ (W.game game.now).players }
    ensures is { result ≡ counted with_costs ((W.game game.now).worth s) }
    ensures value { counted with_costs result ≡ counted with_costs ((W.game game.now).worth s) }
    ensures small { unsigned_abs result < 2 ^ 46 }
{
    game.players(); // Brings the laws of the game.
    if with_costs { game.worth(s) } else { 0 }
}

/// A search for a column whose cost is above its value: in a program, under multipliers, by their sums over coalitions,
/// and with costs or as if each were 0.
#[derive(Drop)]
pub(crate) struct Scan<'a, W: Worth> {
    pub(crate) program: &'a Lazy<'a, W>,
    pub(crate) m: &'a Multipliers,
    pub(crate) sums: Sums<'a>,
    pub(crate) with_costs: bool,
    ghost rows: { length m.now.num.items ≡ program.now.players + program.now.levels },
    ghost are_sums: { AreSums m.now.num.items program.now.players sums },
}

impl<W: Worth> Scan<'_, W> {
    ghost use Rattle.std.specs.Prelude.{◌*◌, ◌≤◌, ◌*ℤ◌, ◌↔◌, IsTrue};
    ghost use Rattle.std.specs.Option.{ForSome};
    ghost use Rattle.definitions.specs.declared.Measure.{Measure};
    ghost use Rattle.separation.specs.Values.{low_of, column_value};
    ghost use Rattle.separation.specs.Scanned.{AreValues, ImprovesIn, CoalitionImproves, value_in, worth_in};

    /// What the 256 coalitions from 256 * `block` on have in common with plain excess: the multipliers of the members
    /// past the first eight players, and that of their level row.
    pub(crate) fn base(&self, block: u64) -> i128
        requires block { block < 256 }
        requires plain { self.now.program.now.measure ≡ Measure.Plain }
        ensures values { AreValues self.now result (low_of self.now.sums) (256 * block) (256 * block + 256) }
        ensures small { unsigned_abs result ≤ 2 ^ 114 }
    {
        let program = self.program;
        self.sums
            .base(self.m, program.players, program.level(), block)
    }

    /// What the worth of a coalition counts for.
    pub(crate) fn worth(&self, s: Coalition) -> i64
        requires { s < 2 ^ self.now.program.now.players }
        ensures is { result ≡ worth_in self.now s }
        ensures value { counted self.now.with_costs result ≡ worth_in self.now s }
        ensures small { unsigned_abs result < 2 ^ 46 }
    {
        counted_worth(self.program.game, s, self.with_costs)
    }

    /// A cost over the multipliers' denominator, or 0 if costs don't count.
    pub(crate) fn bar(&self, cost: i64) -> i128
        requires { unsigned_abs cost < 2 ^ 46 }
        ensures { result ≡ self.now.m.now.den *ℤ counted self.now.with_costs cost }
    {
        bar(self.m, cost, self.with_costs)
    }

    /// The value of a column.
    pub(crate) fn value(&self, column: Column) -> i128
        requires { ForSome column.level (λ l. l < self.now.program.now.levels) }
        ensures { result ≡ column_value self.now.program.now.measure self.now.m.now.num.items
            self.now.program.now.players column }
    {
        let program = self.program;
        value(column, self.m, program.measure, program.players, &self.sums)
    }

    /// Whether there is a column and its cost is above its value.
    pub(crate) fn improves(&self, column: Option<Column>) -> bool
        requires within { ForSome column (λ c. ForSome c.level (λ l. l < self.now.program.now.levels)) }
        requires small { ForSome column (λ c. unsigned_abs c.cost < 2 ^ 46) }
        ensures { IsTrue result ↔ ImprovesIn self.now column }
    {
        let program = self.program;
        improves(
            column,
            self.m,
            program.measure,
            program.players,
            &self.sums,
            self.with_costs,
        )
    }

    /// Whether a coalition has a column and its cost is above the column's value.
    pub(crate) fn marked_improves(&self, value: i128, s: Coalition) -> bool
        requires within { s < 2 ^ self.now.program.now.players }
        requires value { value ≡ value_in self.now s }
        ensures { IsTrue result ↔ CoalitionImproves self.now s }
    {
        if self.program.has_mark(s) {
            let worth = self.worth(s);
            is_below(value, self.m, worth, self.with_costs)
        } else {
            false
        }
    }
}
