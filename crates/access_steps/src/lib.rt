//! The calls of a mutator by external fields and by words of the external space, on an open table.
//!
//! The events of each call are the shape of its operation with its reply, added to the history that the caller's session has
//! seen, where others' events may stand between; and a call says when it answers Empty. `fields.rt` names, loads, stores,
//! swaps and forges by a field, `words.rt` loads and stores by any word, and `looks.rt` has the look that they share. `inits.rt`
//! puts new cells and binds fields to them.
#![tactic(auto)]

mod fields;
mod inits;
mod looks;
mod words;

pub use fields::{forge, load, name, store, swap};
pub use inits::{init, put};
pub use looks::{Looked, look, reply_of};
pub use words::{raw_load, raw_store};
