//! The Shapley value: for each player the mean, over all orders of the players, of what it adds to the worth of those
//! before it (Shapley 1953).
#![tactic(auto)]

mod airport_steps;
mod totals;

ghost use Rattle.shapley.specs.Theorems.{OrdersSumToSubsets, OrdersAreAll};

pub use airport_steps::airport_shapley;
pub use totals::shapley;

/// Why there are no Shapley shares.
#[derive(Clone, Copy, Debug, PartialEq, Eq)]
pub enum ShapleyFault {
    /// There are more players than the call takes.
    TooMany,
    /// There was no memory.
    Memory,
}

/// The sum over all orders of what a player adds is a sum over the coalitions without it (Shapley 1953).
pub fn orders_sum_to_subsets()
    ensures { OrdersSumToSubsets }
{}

/// The list of orders has orders alone, and each one exactly once.
pub fn orders_are_all()
    ensures { OrdersAreAll }
{}

// For the crates above.

/// The least common multiple of 1 to 32, over which the shares of classes with bodies of their own stand.
///
/// Other shares are kept over n!. A report prints each share in lowest terms.
pub const COMMON: u64 = 144403552893600;
