//! Worked words: entries, index words, tags, freelist words and evacuation areas that were worked out by hand.
//!
//! This crate has no code but its tests: `entry_tests.rt` of the words and images of `entry_word`, `tag_tests.rt` of `tag_set`,
//! `freelist_tests.rt` of `free_chain`, and `area_tests.rt` of `evac_area`; `asserts.rt` compares what was answered.
#![tactic(auto)]

#[cfg(test)]
mod area_tests;
#[cfg(test)]
mod asserts;
#[cfg(test)]
mod entry_tests;
#[cfg(test)]
mod freelist_tests;
#[cfg(test)]
mod tag_tests;
