//! Tests of `run`, over sources and sinks in memory.
#![tactic(auto)]

#[cfg(test)]
mod tests;
