//! Calls that take an index of an open table, commit a segment, or abort the compaction of a cycle.
//!
//! A take answers the least free index of a space, committing the next segment where the list is empty and one is left, and
//! answers full exactly where no index is free; it tries at most once more than others took an index of the space in the call.
//! `takes.rt` takes indexes, any or below the area, `pauses.rt` pauses after a lost exchange, `tickets.rt` has what a take answers,
//! `segments.rt` commits a segment, `areas.rt` aborts the compaction. What each call says of its caller's view stands in `specs/`.
#![tactic(auto)]

mod areas;
mod pauses;
mod segments;
mod takes;
mod tickets;

pub use areas::abort;
pub use segments::commit_segment;
pub use takes::{below, take};
pub use tickets::{Taken, Ticket};
