//! Runs of scripts: their phases one after another on threads, and what happens at the meets between them.
//!
//! `run_script` runs every valid script: the outcome that it answers belongs to the script by a legal history of the plain table
//! (`Answers` of `specs/Run.antt`). `script.rt` has the run of a script, `work.rt` the calls and scans of a phase, `meets.rt` the
//! meets, and `puts.rt` counts the cells that were put. `specs/Meets.antt` says when a meet may come.
#![tactic(auto)]

mod meets;
mod puts;
mod script;
mod work;

pub use phase_calls::{Gate, Open, run_calls};
pub use phases::{PhaseOut, run_phase};
pub use script::run_script;
