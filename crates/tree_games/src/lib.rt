//! Tree games: a coalition pays the least cost of connecting its members to a source, through members alone
//! (Bird 1976).
#![tactic(auto)]

mod bird;
mod laws;
mod links;
mod prim;
mod tree_game;

pub use bird::Tree;
pub use fractions::OutOfMemory;
pub use laws::{bird_is_core, prim_is_least, trees_are_games};
pub use tree_game::{TreeFault, TreeGame};
