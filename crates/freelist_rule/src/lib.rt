//! Steps on the freelist words of an open table, and on segments that are not committed, each by one session, one history.
//!
//! Each step keeps the rule of `entry_base`, adds its event with its reply to the history that its session has seen, and tells
//! the session what it may rely on from then on. `freelists.rt` loads freelist words and links, and takes indexes;
//! `segments.rt` links the entries of the next segment and commits it. What each step tells stands in `specs/`, in the file
//! of the same name. `steps.rt` has a counter, which each try to take an index ticks once.
#![tactic(auto)]

mod freelists;
mod segments;
mod steps;

pub use freelists::{
    below_step, load_freelist, load_freelist_for_below, load_freelist_for_take, load_link,
    take_step,
};
pub use segments::{commit_step, link_entry};
pub use steps::Steps;
