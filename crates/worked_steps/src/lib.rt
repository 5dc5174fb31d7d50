//! Worked steps: short callers of the steps of an open table, each a few steps in the order in which they have to be made.
//!
//! What a step asks of its caller, the steps before it have taught: `entries.rt` takes an index, fills it, binds it, commits a
//! segment and aborts a compaction; `marking.rt` links a shaded object, marks the cell of a field, and scans an object. The edits
//! that must be refused leave a step out, or name another index, word or object in it.
#![tactic(auto)]

mod entries;
mod marking;

pub use entries::{abort_full, bind_new, commit_next, take_and_put};
pub use marking::{link_shaded, mark_field, scan_empty};
