//! Tests of the classes of games, and of what these rest on, by their public calls: a module for each crate.
#![tactic(auto)]

#[cfg(test)]
mod airport_tests;
#[cfg(test)]
mod asked;
#[cfg(test)]
mod assignment_games_tests;
#[cfg(test)]
mod bankruptcy_tests;
#[cfg(test)]
mod big_assignment_tests;
#[cfg(test)]
mod coalitions_tests;
#[cfg(test)]
mod definitions_tests;
#[cfg(test)]
mod fracs;
#[cfg(test)]
mod fractions_tests;
#[cfg(test)]
mod greatest_games_tests;
#[cfg(test)]
mod matrices_tests;
#[cfg(test)]
mod orders_tests;
#[cfg(test)]
mod rows;
#[cfg(test)]
mod shares;
#[cfg(test)]
mod tables;
#[cfg(test)]
mod tree_games_tests;
#[cfg(test)]
mod voting_tests;
#[cfg(test)]
mod worth_core_tests;
#[cfg(test)]
mod worth_tables_tests;
