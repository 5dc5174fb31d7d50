//! Worked sweeps: whole cycles on images, from their start over the late marking to their sweep.
//!
//! This crate has no code but its tests (`tests.rt`): each makes an image, begins a cycle, marks late what it owes and
//! sweeps, and asks the area, the roots, the number of scans and the report.
#![tactic(auto)]

#[cfg(test)]
mod asserts;
#[cfg(test)]
mod tests;
