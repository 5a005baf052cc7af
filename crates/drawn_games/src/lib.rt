//! Games drawn from a seed: a table, an airport, an estate, a network and an assignment game, each made of the numbers
//! of a generator. Each call fails only if memory runs out. It knows no documents, so it can be proved before their
//! crates are.
#![tactic(auto)]

mod draws;
mod games;
mod matrices_of_draws;
mod table_of_draws;

pub use games::{airport, assignment, bankruptcy, table, tree};
