//! Worked calls: calls on an open table, on one thread, on two and on four, and in cycles, whose answers and closed images are compared
//! with those that were expected.
//!
//! This crate has no code but its tests. `asked.rt` has the tags and words that they ask, `entries.rt` makes objects and entries,
//! `cycles.rt` begins and finishes cycles, and `asserts.rt` compares what was answered. Scripts stand in `first_tests.rt`, `segment_tests.rt`, `empty_tests.rt` and `cycle_tests.rt`;
//! each answer of each call in `access_tests.rt`, `graph_tests.rt`, `trusted_tests.rt` and `space_tests.rt`; threads in
//! `thread_tests.rt` and `crowd_tests.rt`.
#![tactic(auto)]

#[cfg(test)]
mod access_tests;
#[cfg(test)]
mod asked;
#[cfg(test)]
mod asserts;
#[cfg(test)]
mod crowd_tests;
#[cfg(test)]
mod cycle_tests;
#[cfg(test)]
mod cycles;
#[cfg(test)]
mod empty_tests;
#[cfg(test)]
mod entries;
#[cfg(test)]
mod first_tests;
#[cfg(test)]
mod graph_tests;
#[cfg(test)]
mod segment_tests;
#[cfg(test)]
mod space_tests;
#[cfg(test)]
mod thread_tests;
#[cfg(test)]
mod trusted_tests;
