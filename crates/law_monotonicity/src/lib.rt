//! What players are promised if the game changes: if all together, or one coalition, are worth more and nothing else
//! changes, if a player adds more, and if all links of a network cost more. Each function's contract is a theorem, and
//! its body is empty. No crate of the program needs them.
#![tactic(auto)]

pub mod additions;
pub mod core_rules;
pub mod examples;
pub mod growth;
pub mod networks;
