//! Markets of up to 32 buyers and 32 sellers: an optimal matching, and the core points that are best for either side
//! (Shapley and Shubik 1971).
#![tactic(auto)]

mod deal;
mod laws;
mod least;
mod market_game;
mod payoffs;
mod points;
mod search;
mod solution;
mod turned;

pub use fractions::OutOfMemory;
pub use laws::{shapley_shubik, sides_are_opposed};
pub use market_game::{MarketFault, MarketGame};
pub use solution::Solution;
