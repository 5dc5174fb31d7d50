//! A marker of an open table in a cycle: it scans objects of its session's hands, and those that they refer to.
//!
//! `Marker::run` says that each given object, and each that it shaded, has its scan in the history, by the scans of the model one
//! after another (`Runs` of `specs/Runs.antt`); `Marker::steal_run` the same of the objects of all chunks that its thief took
//! (`StealsAll` of `specs/Steals.antt`). `marker.rt` has the marker and its stack, `scans.rt` the scan of one object, `steals.rt`
//! the chunks.
#![tactic(auto)]

mod marker;
mod scans;
mod steals;

pub use marker::Marker;
pub use steals::Dealt;
