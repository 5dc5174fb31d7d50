//! Worked pools: chunks of the roots of a cycle, which thieves of a pool take on one thread and on two.
//!
//! This crate has no code but its tests: `chunks.rt` cuts the chunks, `thieves.rt` has what the threads of a test do and what
//! is proved of them, and `pool_tests.rt` has the tests.
#![tactic(auto)]

#[cfg(test)]
mod chunks;
#[cfg(test)]
mod pool_tests;
#[cfg(test)]
mod thieves;
