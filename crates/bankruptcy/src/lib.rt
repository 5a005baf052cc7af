//! Bankruptcy games: a coalition gets what the claims of the others leave of the estate (O'Neill 1982).
#![tactic(auto)]

mod arms;
mod game;

pub use game::{BankruptcyFault, BankruptcyGame};
