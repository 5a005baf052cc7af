//! What the textbook says of the answers, as laws: each function's contract is a theorem over the definitions that the
//! program's contracts speak of, and its body is empty. No crate of the program needs them, so its first build proves
//! none. What each says of a printed answer follows from the clauses of the call that gives it. All are of games whose
//! worths are whole numbers, and shares in fractions; games of fractional worths are such games over a scale
//! (`common_scales`).
#![tactic(auto)]

pub mod airports;
pub mod common_scales;
pub mod estates;
pub mod mixtures;
pub mod newcomers;
pub mod nucleolus;
pub mod reasonable;
pub mod renumbering;
pub mod shapley_equivalence;
pub mod shapley_value;
pub mod small_nucleoli;
pub mod sorted_lists;
pub mod strategic_equivalence;
pub mod talmud_rule;
pub mod votes;
