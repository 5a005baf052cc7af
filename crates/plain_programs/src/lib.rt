//! Plain slow programs that compute what the definitions say.
#![tactic(auto)]

pub mod blockers;
pub mod excesses;
pub mod order;
pub mod table;
