//! Prices over fixed arrays, and the columns that rows take at them.
ghost use Rattle.std.specs.Prelude.{◌≡◌, ℕ, ◌+◌, ◌<◌, ◌≤◌, slice_index, Option};
ghost use Rattle.big_assignment.specs.Deals.{offers, offer_of, gain_of, price_of, mate_of, place, IsCovered};
ghost use Rattle.big_assignment.specs.Searches.{IsPut, rank_of, parent_of, unreached};

/// The most rows, and the most columns.
pub(crate) const SIDE: usize = 32;

/// A place for each column, and the last for having none: nothing is offered for it, and it costs nothing.
pub(crate) const PLACES: usize = SIDE + 1;

/// An offer of each row for each place.
pub(crate) const OFFERS: usize = SIDE * PLACES;

/// The place of a column, or of none.
pub(crate) fn place_of(column: Option<usize>) -> usize
    ensures { result ≡ place column }
{
    column.unwrap_or(SIDE)
}

/// The column at place `k`.
pub(crate) fn column_at(k: usize) -> Option<usize>
    requires { k ≤ 32 }
    ensures { place result ≡ k }
{
    if k < SIDE { Some(k) } else { None }
}

/// At most 32 rows and columns, what each row offers for each column, what each row gains, what each column costs, and
/// the column that each row has.
#[derive(Clone, Copy, Debug, Drop)]
pub(crate) struct Deal {
    pub(crate) table: [u64; OFFERS],
    pub(crate) gains: [u64; PLACES],
    pub(crate) prices: [u64; PLACES],
    pub(crate) columns: [Option<usize>; PLACES],
}

/// The places that were reached: each with its rank in their order, from 1, and the row that it was reached from.
#[derive(Clone, Copy, Debug, Drop)]
pub(crate) struct Search {
    pub(crate) ranks: [u32; PLACES],
    pub(crate) parents: [usize; PLACES],
    pub(crate) count: u32,
}

impl Deal {
    /// No row has a column yet, and all columns are free.
    pub(crate) fn new(table: [u64; OFFERS]) -> Deal
        ensures table { result.table ≡ table }
        ensures free { (k : ℕ) → k ≤ 32 → price_of result k ≡ 0 }
    {
        Deal {
            table,
            gains: [0; PLACES],
            prices: [0; PLACES],
            columns: [None; PLACES],
        }
    }

    /// The place of the column that row `i` has.
    pub(crate) fn mate(&self, i: usize) -> usize
        requires { i ≤ 32 }
        ensures { result ≡ mate_of self.now i }
    {
        place_of(self.columns[i])
    }

    /// What row `i` offers for place `k`.
    pub(crate) fn offer(&self, i: usize, k: usize) -> u64
        requires row { i < 32 }
        requires column { k ≤ 32 }
        ensures { result ≡ offer_of self.now i k }
    {
        self.table[PLACES * i + k]
    }

    /// What row `i` would lose with place `k`.
    pub(crate) fn slack(&self, n: usize, i: usize, k: usize) -> u64
        requires rows { n < 32 }
        requires covered { IsCovered self.now n }
        requires row { i ≤ n }
        requires column { k ≤ 32 }
        ensures { result + offer_of self.now i k ≡ gain_of self.now i + price_of self.now k }
    {
        self.gains[i] + self.prices[k] - self.offer(i, k)
    }
}

impl Search {
    /// Nothing is reached.
    pub(crate) fn new() -> Search
        ensures ranks { (k : ℕ) → k ≤ 32 → rank_of result k ≡ 0 }
        ensures count { result.count ≡ 0 }
        ensures total { result.count + unreached result.ranks ≡ 33 }
    {
        Search {
            ranks: [0; PLACES],
            parents: [0; PLACES],
            count: 0,
        }
    }

    /// Place `k` is reached from row `i`.
    pub(crate) fn mark(&mut self, k: usize, i: usize)
        requires column { k ≤ 32 }
        requires unreached { rank_of self.old k ≡ 0 }
        requires total { self.old.count + unreached self.old.ranks ≡ 33 }
        ensures count { self.new.count ≡ self.old.count + 1 }
        ensures ranks { IsPut (rank_of self.old) (rank_of self.new) k (self.old.count + 1) }
        ensures parents { IsPut (parent_of self.old) (parent_of self.new) k i }
        ensures total { self.new.count + unreached self.new.ranks ≡ 33 }
    {
        self.count += 1;
        self.ranks[k] = self.count;
        self.parents[k] = i;
    }
}
