//! More of airport games, for any number of players: that Littlechild's payments exist and are the nucleolus, and what
//! the Shapley value is. Each function's contract is a theorem, and its body is empty. No crate of the program needs
//! them.
#![tactic(auto)]

pub mod payments;
pub mod steps;
