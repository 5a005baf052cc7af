//! The exact simplex on whole numbers (Dantzig 1951), by the lexicographic rule (Dantzig, Orden and Wolfe 1955).
//!
//! A program has rows with right-hand sides b, and columns with an entry per row and a cost. A basis B of as many
//! columns as there are rows is kept by its inverse M over the denominator d, the size of its determinant, in whole
//! numbers: B·M = d·I (Edmonds 1967, Bareiss 1968). The weights of a column s are y = M·s, those of the right-hand
//! sides are W = M·b, and the multipliers are m = c·M with the costs c of the basis, all over d.
//!
//! The first part begins with one artificial variable for each row, of cost -1 while every other column is free, and
//! looks for a solution. Then each artificial variable left in the basis is replaced by a column with a nonzero weight
//! at its position, if there is one, and the second part looks for the best solution with the program's own costs.
//! `improve` serves both parts.
#![tactic(auto)]

mod answer;
mod artificial;
mod columns;
mod improve;
mod multipliers;
mod solving;
mod state;

pub use answer::Optimal;
pub use columns::{ColumnId, Columns};
pub use multipliers::Multipliers;
pub use solving::{LpFault, Workspace, solve};
