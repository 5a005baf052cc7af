//! Weighted voting games: a coalition is worth 1 if its weights sum to at least the quota, and 0 otherwise (Shapley and
//! Shubik 1954).
//!
//! The weights sum to at most 1,000, so the blocker and the bounds go over sums of weights and not over coalitions.
#![tactic(auto)]

mod candidate;
mod counts;
mod game;
mod layer;
mod shapley_value;
mod split_layers;
mod units;

pub use game::{VotingFault, VotingGame};
pub use shapley_value::voting_shapley;
