//! What every class of games offers, and the shares that games are compared with.
#![tactic(auto)]

mod best;
mod limits;
mod measured;
mod ratios;
mod shares;
mod split_sums;
mod splitting;
mod worth;

pub use definitions::{Family, Measure};
pub use measured::{Divisor, measured_bound};
pub use shares::{Shares, SharesFault};
pub use worth::{Worth, scaled_excess};

// For the crates above.
pub use best::Best;
pub use measured::{Divided, is_more, replaced_if};
pub use ratios::ratio;
pub use shares::scaled;
pub use split_sums::SplitSums;
pub use splitting::raised;
pub use worth::is_efficient;
