//! Entries of two numbers, a code and an entry point, that threads read and write together with no
//! lock. Each entry is a sequence lock with one claimer: a read gives a pair that one write stored,
//! and a write puts its pair after the others of its entry.
//!
//! `table.rt` has the table, `seat.rt` what a thread steps with, `calls.rt` `write` and `read`.
//! `view.rt` has what a seat knows, and `plays.rt` the kinds of step, which are private: only `read`
//! and `write` add to what was shown to a seat. The words of the contracts stand in `specs/`:
//! `Lists`, `Views` and `Calls`; the rule of the words stands in `Rule`.
#![tactic(auto)]

mod calls;
mod plays;
mod seat;
mod table;
mod view;

pub use calls::{CodeRead, Wrote, read, write};
pub use seat::CodeSeat;
pub use table::{CodeTable, OutOfMemory};
pub use view::{Store, View};
