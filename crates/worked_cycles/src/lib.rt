//! Worked cycles: phases of an open table in a cycle, whose steps are made one by one, on one thread and on two, and whose images are
//! compared with the words that were expected.
//!
//! This crate has no code but its tests, which stand on the tables of `worked_tables`. `cycles.rt` makes images in cycles with and
//! without an area, and opens them. `mark_tests.rt` loads what is in hands, `cell_mark_tests.rt` marks cells, `link_tests.rt` links
//! what was shaded, `scan_tests.rt` scans objects, `area_tests.rt` takes below the area, evacuates and aborts, and `thread_tests.rt`
//! marks one cell on two threads at once, and scans on one of two; `asserts.rt` compares what was answered.
#![tactic(auto)]

#[cfg(test)]
mod area_tests;
#[cfg(test)]
mod asserts;
#[cfg(test)]
mod cell_mark_tests;
#[cfg(test)]
mod cycles;
#[cfg(test)]
mod link_tests;
#[cfg(test)]
mod mark_tests;
#[cfg(test)]
mod scan_tests;
#[cfg(test)]
mod thread_tests;
