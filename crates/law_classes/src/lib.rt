//! What rules promise in games of some kinds: votes and other simple games, estates, markets, constant-sum games; and
//! which games are convex. Each function's contract is a theorem, and its body is empty. No crate of the program needs
//! them.
#![tactic(auto)]

pub mod constant_sums;
pub mod convex_games;
pub mod estates;
pub mod markets;
pub mod vetoes;
