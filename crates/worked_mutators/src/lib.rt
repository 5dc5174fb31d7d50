//! Worked mutators: the calls of one mutator over an image, and what the image shows after them.
//!
//! This crate has no code but its tests: of objects and references (`object_tests.rt`), of external fields and words
//! (`cell_tests.rt`, `init_tests.rt`), of trusted entries (`trusted_tests.rt`), and of whole cycles (`cycle_tests.rt`); `asserts.rt`
//! compares what was answered.
#![tactic(auto)]

#[cfg(test)]
mod asserts;
#[cfg(test)]
mod cell_tests;
#[cfg(test)]
mod cycle_tests;
#[cfg(test)]
mod init_tests;
#[cfg(test)]
mod object_tests;
#[cfg(test)]
mod trusted_tests;
