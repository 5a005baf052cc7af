//! Coalitions counted by size and weight.
ghost use Rattle.std.specs.Prelude.{◌≡◌, ◌&&◌, if◌then◌else◌, IfOk};
ghost use Rattle.std.specs.Prelude.{ℕ, ◌+◌, ◌*◌, ◌^◌, ◌<◌, ◌≤◌, pos, nat_eq};
ghost use Rattle.voting.specs.Counts.{way_at, row_at, ways_at, lighter, smaller, IsSmallRow};
ghost use Rattle.voting.specs.Counts.{IsSmallTable, HasRows, range_total};

use crate::layer::WEIGHTS;
use fractions::OutOfMemory;
use std::alloc::Global;

/// How many coalitions of one size there are of each weight from 0 to 1,000.
#[derive(Clone, Copy, Debug, Drop)]
pub(crate) struct Row {
    ways: [u64; WEIGHTS],
}

impl Row {
    /// No coalitions.
    fn none() -> Row
        ensures { (w : ℕ) → way_at result w ≡ 0 }
    {
        Row { ways: [0; WEIGHTS] }
    }

    /// The coalition of nobody.
    fn of_nobody() -> Row
        ensures nobody { way_at result 0 ≡ 1 }
        ensures others { (w : ℕ) → 0 < w → way_at result w ≡ 0 }
    {
        let mut row = Row::none();
        row.ways[0] = 1;
        row
    }

    /// Adds the coalitions of a row of one size less with one more player of this weight.
    fn add_with_player(&mut self, fewer: &Row, weight: usize)
        requires small { IsSmallRow self.old }
        requires fewer { IsSmallRow fewer.now }
        ensures { (w : ℕ) → w < 1001 → way_at self.new w ≡ way_at self.old w + lighter fewer.now weight w }
    {
        for w in weight..WEIGHTS {
            self.ways[w] += fewer.ways[w - weight];
        }
    }

    /// The counts of the weights from `low` to below `high`, added.
    pub(crate) fn total(&self, low: usize, high: usize) -> u64
        requires few { high ≤ 1001 }
        requires small { IsSmallRow self.now }
        ensures value { pos result ≡ range_total self.now low high }
        ensures small { result ≤ high * 2 ^ 32 }
    {
        let mut total: u64 = 0;
        for w in 0..high {
            if low <= w {
                total += self.ways[w];
            }
        }
        total
    }
}

/// A row for each size from 0 to 31.
#[derive(Debug, Drop)]
pub(crate) struct Table {
    rows: Vec<Row>,
}

impl Table {
    /// The coalition of nobody.
    pub(crate) fn of_nobody(alloc: Global) -> Result<Table, OutOfMemory>
        ensures { IfOk result
            (λ t. HasRows t
            × ((size w : ℕ) → size < 32 → ways_at t size w ≡ (if nat_eq size 0 && nat_eq w 0 then 1 else 0))) }
    {
        let mut rows = vec![in alloc; Row::none(); 32]?;
        rows[0] = Row::of_nobody();
        Ok(Table { rows })
    }

    /// Adds the coalitions of this table with one more player of this weight, from the greatest size down.
    pub(crate) fn add_player(&mut self, weight: usize)
        requires full { HasRows self.old }
        requires small { IsSmallTable self.old }
        ensures full { HasRows self.new }
        ensures ways { (size w : ℕ) → size < 32 → w < 1001
            → ways_at self.new size w ≡ ways_at self.old size w + smaller self.old size weight w }
    {
        for fewer in 0..31usize {
            let size = 31 - fewer;
            let smaller = self.rows[size - 1];
            self.rows[size].add_with_player(&smaller, weight);
        }
    }

    /// The row of a size.
    pub(crate) fn row(&self, size: usize) -> &Row
        requires full { HasRows self.now }
        requires size { size < 32 }
        ensures { result.now ≡ row_at self.now size }
    {
        &self.rows[size]
    }
}
