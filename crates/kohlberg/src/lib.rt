//! Certificates of the nucleolus, level by level (Kohlberg 1971), verdicts on them, and spans of coalitions.
#![tactic(auto)]

mod certificates;
mod halving;
mod levels;
mod mask_order;
mod spanned;
mod verdicts;

pub use certificates::{Certificate, Malformed};
pub use definitions::Mode;
pub use levels::Level;
pub use spans::Span;
pub use verdicts::{Place, Reason, Verdict};

// For the crates above.
pub use levels::{bounds_at, weights_at};
pub use mask_order::put_pair;
pub use spanned::{add_levels, first_unspanned};
