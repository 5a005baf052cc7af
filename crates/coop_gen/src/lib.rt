//! Games made from a number, of every kind and size: the same number makes the same game.
#![tactic(auto)]

mod generating;
mod laws;

pub use fractions::OutOfMemory;
pub use game_text::{Game, Kind};
pub use generating::{generate, has_size};
pub use laws::{generated_games_are_of_their_class, generated_games_have_imputations};
