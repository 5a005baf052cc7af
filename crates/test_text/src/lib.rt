//! Tests of documents, answers, generated games and ports by their public calls: a module for each crate.
#![tactic(auto)]

#[cfg(test)]
mod coop_gen_tests;
#[cfg(test)]
mod game_text_tests;
#[cfg(test)]
mod json_trees_tests;
#[cfg(test)]
mod ports_tests;
#[cfg(test)]
mod report_tests;
