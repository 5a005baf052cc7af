//! Answers, and the line that is printed for each.
#![tactic(auto)]

mod answer;
mod core_points;
mod line;
mod nucleolus;
mod objects;
mod proposals;
mod shapley_shares;
mod summary;
mod values;
mod verdict;

pub use answer::{Answer, UsageKind};
pub use line::write_report;
pub use nucleolus::{nucleoli_are_read_back, nucleoli_are_short, scaled_fractions_are_read_back};
pub use summary::Summary;
