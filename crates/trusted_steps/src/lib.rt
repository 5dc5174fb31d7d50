//! The calls of a mutator by trusted fields and by words of the trusted space, on an open table.
//!
//! The events of each call are the shape of its operation with its reply, added to the history that the caller's session has
//! seen, where others' events may stand between; and a call says why it answers what it does. `loads.rt` loads by a field and by any
//! word, `fills.rt` fills a new trusted entry that only its mutator can publish, `publishing.rt` publishes it, and `shares.rt` binds
//! a second field to the entry of a first one, which in a cycle is marked before.
#![tactic(auto)]

mod fills;
mod loads;
mod publishing;
mod shares;

pub use fills::tnew;
pub use loads::{tload, traw};
pub use publishing::publish;
pub use shares::share;
