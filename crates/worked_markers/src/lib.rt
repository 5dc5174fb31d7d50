//! Worked markers: calls of a marker on an open table in a cycle, on one thread and on two, and concurrently with a mutator, whose
//! answers and swept images are compared with those that were expected.
//!
//! This crate has no code but its tests. `asked.rt` has the shapes, tags and words that they ask, `entries.rt` makes objects and
//! cells, `many.rt` many of them, `cycles.rt` begins and finishes cycles, `scans.rt` scans an object call by call, and `asserts.rt` compares what was answered. Evacuations
//! stand in `area_tests.rt` and `moved_tests.rt`, each answer of each call in `answer_tests.rt`, runs of a marker in
//! `marker_tests.rt`, `split_tests.rt` and `thread_tests.rt`, and those by a pool of chunks in `steal_tests.rt`.
#![tactic(auto)]

#[cfg(test)]
mod answer_tests;
#[cfg(test)]
mod area_tests;
#[cfg(test)]
mod asked;
#[cfg(test)]
mod asserts;
#[cfg(test)]
mod cycles;
#[cfg(test)]
mod entries;
#[cfg(test)]
mod many;
#[cfg(test)]
mod marker_tests;
#[cfg(test)]
mod moved_tests;
#[cfg(test)]
mod scans;
#[cfg(test)]
mod split_tests;
#[cfg(test)]
mod steal_tests;
#[cfg(test)]
mod thread_tests;
