//! Where a program's bytes come from and go to, with each failure counted.
#![tactic(auto)]

mod failing_sink;
mod failing_source;
mod memory_sink;
mod memory_source;
mod sink;
mod source;

pub use failing_sink::FailingSink;
pub use failing_source::FailingSource;
pub use memory_sink::MemorySink;
pub use memory_source::MemorySource;
pub use sink::Sink;
pub use source::Source;

/// A read or a write that failed.
#[derive(Clone, Copy, Debug, PartialEq, Eq)]
pub struct Failed;
