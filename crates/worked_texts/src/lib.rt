//! Worked texts: scripts, their faults and canonical texts, the generated script, and the texts of reports and refusals.
//!
//! This crate has no code but its tests: `script_tests.rt` of `script_reader`, `report_tests.rt` of `report_text`, and
//! `generator_tests.rt` of `script_generator`.
#![tactic(auto)]

#[cfg(test)]
mod asserts;
#[cfg(test)]
mod generator_tests;
#[cfg(test)]
mod report_tests;
#[cfg(test)]
mod script_tests;
