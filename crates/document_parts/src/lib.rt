//! What documents of every class of games share: names, numbers times their scale, the numbers of a sparse table, rows
//! of numbers, the version, the measure of excesses, and shares.
#![tactic(auto)]

mod excess;
mod names;
mod numbers;
mod shares;
mod sizes;
mod table;
mod values;
mod version;

pub use excess::{MeasureWord, measure_of};
pub use names::{Names, know_sparse, names_of};
pub use numbers::{Numbers, read_costs, read_worths};
pub use shares::{shares_as_worth, written_shares};
pub use sizes::{is_list_size, is_short_list_size};
pub use table::sparse_numbers;
pub use values::{add_at, add_rows, add_seconds, add_values, in_rows};
pub use version::has_texts;
