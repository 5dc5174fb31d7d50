//! Worked scripts: whole scripts of several mutators and of markers, as text, whose reports are compared with those that were expected.
//!
//! This crate has no code but its tests. `runs.rt` runs a script by `run_main` and by `run_script`, and `gates.rt` has gates that make
//! threads wait for one another. Scripts stand in `sharing_tests.rt`, `race_tests.rt`, `cycle_tests.rt`, `crowd_tests.rt`,
//! `range_tests.rt` and `example_tests.rt`; `gate_tests.rt` shows that mutators and markers run concurrently.
#![tactic(auto)]

#[cfg(test)]
mod crowd_tests;
#[cfg(test)]
mod cycle_tests;
#[cfg(test)]
mod example_tests;
#[cfg(test)]
mod gate_tests;
#[cfg(test)]
mod gates;
#[cfg(test)]
mod race_tests;
#[cfg(test)]
mod range_tests;
#[cfg(test)]
mod runs;
#[cfg(test)]
mod sharing_tests;
