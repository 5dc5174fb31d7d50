//! A phase on threads: an image is opened as a shared table, mutators make their calls and markers scan, each on a thread of its
//! own, and the table is closed again.
//!
//! `run_phase` says that the phase has one history, whose events are the calls of the mutators with their replies and the scans of
//! the markers, that the new image shows the table after it, and what is then still to be scanned (`Ran` of `specs/Phases.antt`).
//! `phases.rt` has the phase, `work.rt` lets its workers work, `mutators.rt` and `markers.rt` have these, and `chunks.rt` deals the
//! objects to scan out.
#![tactic(auto)]

mod chunks;
mod markers;
mod mutators;
mod phases;
mod work;

pub use phases::{PhaseOut, run_phase};
