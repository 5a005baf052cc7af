//! Assignment games: a coalition of buyers and sellers is worth what its members make in an optimal matching (Shapley
//! and Shubik 1971).
#![tactic(auto)]

mod assignment_game;
mod laws;
mod values;

pub use assignment_game::{AssignmentFault, AssignmentGame};
pub use laws::worths_are_optimal;
