//! Steps on the entries of an open table, each by one session, one history.
//!
//! Each step keeps the rule of `entry_base`, adds its event with its reply to the history that its session has seen, and tells
//! the session what it may rely on from then on. `entries.rt` fills an entry that was taken, and aborts the compaction;
//! `looks.rt` looks at a cell, stores into it, exchanges its value and publishes it. What each step tells stands in `specs/`, in
//! the file of the same name.
#![tactic(auto)]

mod entries;
mod looks;

pub use entries::{abort_step, evacuate_step, load_area, put_external, put_trusted};
pub use looks::{exchange_step, look_beyond, look_step, publish_step, store_step};
