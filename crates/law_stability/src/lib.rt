//! Sets of shares that players can defend against one another, beside the core: the kernel, the bargaining set and the
//! least core, in all of which the nucleolus or the prenucleolus lies; the core and the kernel of convex games, and the
//! core of estates. Each function's contract is a theorem, and its body is empty. No crate of the program needs them.
#![tactic(auto)]

pub mod convex_cores;
pub mod estates;
pub mod joining;
pub mod kernels;
pub mod least_cores;
pub mod majority;
pub mod objections;
pub mod reasonable;
pub mod subsidies;
pub mod transfers;
