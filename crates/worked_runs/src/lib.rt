//! Worked runs: the top call over memory, with each answer that it gives and each form of its words.
//!
//! This crate has no code but its tests: `tests.rt` has whole runs and makes them, `run_tests.rt` runs scripts of one mutator,
//! `space_tests.rt` those of full spaces, `soak_tests.rt` generated ones, and `fault_tests.rt` lets reads and writes fail.
#![tactic(auto)]

#[cfg(test)]
mod asserts;
#[cfg(test)]
mod fault_tests;
#[cfg(test)]
mod run_tests;
#[cfg(test)]
mod soak_tests;
#[cfg(test)]
mod space_tests;
#[cfg(test)]
mod tests;
