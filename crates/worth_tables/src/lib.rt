//! Games given by a table of worths, and games of costs.
#![tactic(auto)]

mod cost_game;
mod kept_worths;
mod table_game;

pub use cost_game::CostGame;
pub use kept_worths::KeptWorths;
pub use table_game::{TableFault, TableGame};
