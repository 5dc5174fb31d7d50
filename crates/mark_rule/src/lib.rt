//! Steps of marking on an open table, each by one session, one history.
//!
//! Each step keeps the rule of `entry_base`, adds its event with its reply to the history that its session has seen, and tells
//! the session what it may rely on from then on. `loads.rt` has a marker's loads of fields, references and entries; `marks.rt`
//! marks entries, shades objects and scans one all of whose fields and references were passed. What each step tells stands in
//! `specs/Marking.antt`.
#![tactic(auto)]

mod loads;
mod marks;

pub use loads::{load_entry, load_mark, load_reference, load_word};
pub use marks::{mark_step, scan_step, shade_seen};
