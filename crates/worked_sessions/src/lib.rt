//! Worked sessions: phases of an open table outside a cycle, whose steps are made one by one, and whose images are compared with the
//! words that were expected.
//!
//! This crate has no code but its tests, which stand on the tables of `worked_tables` and make each kind of step, both sides of each
//! exchange: `entry_tests.rt` takes, fills and looks at entries, `segment_tests.rt` commits a segment, `object_tests.rt` and
//! `field_tests.rt` make objects and bind, link and name their words, `trusted_tests.rt` binds and publishes trusted cells,
//! `counter_tests.rt` ticks a counter, `limit_tests.rt` comes to the limits, `session_tests.rt` splits and joins sessions, and `thread_tests.rt` makes the same try on two
//! threads at once; `asserts.rt` compares what was answered. Cycles stand in `worked_cycles`.
#![tactic(auto)]

#[cfg(test)]
mod asserts;
#[cfg(test)]
mod counter_tests;
#[cfg(test)]
mod entry_tests;
#[cfg(test)]
mod field_tests;
#[cfg(test)]
mod limit_tests;
#[cfg(test)]
mod object_tests;
#[cfg(test)]
mod segment_tests;
#[cfg(test)]
mod session_tests;
#[cfg(test)]
mod thread_tests;
#[cfg(test)]
mod trusted_tests;
