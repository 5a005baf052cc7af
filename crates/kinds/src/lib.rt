//! What documents, commands and lines name alike: the kinds of games that can be made, and the refusals.
//!
//! Documents are read by them and lines name them: so lines don't wait for the reading of documents to be proved.
#![tactic(auto)]

mod kind;
mod refusal;

pub use kind::Kind;
pub use refusal::Refusal;
