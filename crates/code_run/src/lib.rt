//! A run of four threads on the entries of a code table: two write and two read.
//!
//! `workers.rt` has what one writer and one reader do, `run.rt` has `run_codes`, and `main_call.rt`
//! has `code_main`, which reads the one argument and writes the counts. `specs/Runs.antt` says what
//! a run tells: how its calls were answered (`specs/Calls.antt`), what its steps showed, and what
//! stands in the lists after it.
#![tactic(auto)]

#[cfg(test)]
mod asserts;
mod main_call;
mod run;
#[cfg(test)]
mod step_tests;
#[cfg(test)]
mod tests;
mod workers;

pub use main_call::{CodeStatus, code_main};
pub use run::{CodeReport, open_table, run_codes};
