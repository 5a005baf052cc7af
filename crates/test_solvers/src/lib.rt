//! Tests of the solvers and of what they stand on, by their public calls: modules for each crate.
#![tactic(auto)]

#[cfg(test)]
mod airport_scheme_tests;
#[cfg(test)]
mod balanced_tests;
#[cfg(test)]
mod checker_tests;
#[cfg(test)]
mod convexity_tests;
#[cfg(test)]
mod determinants_tests;
#[cfg(test)]
mod fronts;
#[cfg(test)]
mod greatest_games_tests;
#[cfg(test)]
mod kernel_test_tests;
#[cfg(test)]
mod kohlberg_tests;
#[cfg(test)]
mod levels;
#[cfg(test)]
mod nested_programs_tests;
#[cfg(test)]
mod separation_columns_tests;
#[cfg(test)]
mod separation_tests;
#[cfg(test)]
mod shapley_tests;
#[cfg(test)]
mod shares;
#[cfg(test)]
mod simplex_tests;
#[cfg(test)]
mod slow_games;
#[cfg(test)]
mod spans_tests;
#[cfg(test)]
mod tables;
#[cfg(test)]
mod talmud_tests;
