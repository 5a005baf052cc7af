//! Documents of cooperative games: the game and what a command needs beside it, or the first refusal that applies.
#![tactic(auto)]

mod classes;
mod command;
mod document;
mod reading;
mod shape;

pub use classes::Game;
pub use command::{Command, Inputs};
pub use document::{Document, TextFault};
pub use kinds::{Kind, Refusal};
pub use reading::{document_limit, read_document};
