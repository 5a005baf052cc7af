//! Exact fractions of 128 bits and their texts; and the two plain refusals that other crates use too.
#![tactic(auto)]

mod euclid;
mod frac;
mod numerals;
mod order;

pub use frac::Frac;
use std::alloc::{AllocError, AllocFailed};

// For the crates above.
pub use euclid::gcd;

/// Memory was not found.
#[derive(Clone, Copy, Debug, PartialEq, Eq)]
pub struct OutOfMemory;

/// A number left the range of `i128`.
#[derive(Clone, Copy, Debug, PartialEq, Eq)]
pub struct OutOfRange;

impl From<AllocError> for OutOfMemory {
    fn from(_: AllocError) -> OutOfMemory {
        OutOfMemory
    }
}

impl<T: Drop> From<AllocFailed<T>> for OutOfMemory {
    fn from(_: AllocFailed<T>) -> OutOfMemory {
        OutOfMemory
    }
}
