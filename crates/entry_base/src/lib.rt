//! The shared table of a phase, under one rule: sessions on many threads step on its words with no lock, and every step adds
//! to one history, which is legal from each sound plain table that the image shows which the phase was opened with.
//!
//! `table.rt` opens and closes the table, `sessions.rt` has what one caller steps with, `chunks.rt` hands objects over, and
//! `view.rt` says what a session knows. `plays.rt` has the rule as the kit's `atomic_table` takes it, and the steps that change
//! two seats. `arrays.rt` keeps variables and tickets, and `closing.rt` closes segments. The rule stands in `specs/Rule.antt`,
//! one subject a file next to it; the kinds of step stand in the crates above, which use what `proofs/Steps.antt` and
//! `proofs/Changes.antt` show of every kind.
#![tactic(auto)]

mod arrays;
mod chunks;
mod closing;
mod images;
mod plays;
mod sessions;
mod table;
mod view;

pub use chunks::Chunk;
pub use images::{area_start, owed_objects};
pub use plays::{Learning, Learns, OneHistory};
pub use sessions::Session;
pub use table::{Shared, freelist_place};
pub use view::{Claim, Fact, Opening, View};
