//! Worked histories: short histories of tables, whose events the plain program makes with their replies and with no other.
//!
//! This crate has no code but its tests (`tests.rt`): each history (`tests/histories.rt`, made of the events of
//! `tests/made.rt`) is legal, and each of its events with another reply, and each wrong last event
//! (`tests/refusals.rt`), is refused.
#![tactic(auto)]

#[cfg(test)]
mod asserts;
#[cfg(test)]
mod tests;
