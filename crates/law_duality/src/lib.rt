//! Linear inequalities, linear programs, and what they imply of every game: core points or balanced collections, core
//! points in fractions if there are real ones, that the nucleolus exists, that it is what has a certificate, and
//! that the one in fractions is the one among real shares. Each function's contract is a theorem, and its body is
//! empty. No program stands behind the theorems, and no crate of the program needs them.
#![tactic(auto)]

pub mod certificates;
pub mod existence;
pub mod inequalities;
pub mod real_cores;
pub mod real_nucleoli;
