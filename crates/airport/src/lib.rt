//! Airport games: a coalition pays for the greatest cost among its members (Littlechild 1974).
#![tactic(auto)]

mod airport_game;
mod costs;

pub use airport_game::{AirportFault, AirportGame};
