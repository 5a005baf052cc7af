//! Solves cooperative games: a command from the words, a document from a source, a line to a sink.
#![tactic(auto)]

mod classes;
mod commands;
mod running;
mod status;
mod stream;
mod words;

pub use running::run;
pub use status::Status;
