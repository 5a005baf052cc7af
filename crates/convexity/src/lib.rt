//! Convex games: whether a game is convex, and its Shapley and marginal shares, which then lie in its core
//! (Shapley 1971).
#![tactic(auto)]

mod answers;
mod failures;
mod marginals;

pub use answers::{ConvexAnswer, answer};
pub use failures::{Convexity, test};
pub use fractions::OutOfMemory;
pub use marginals::marginal;
