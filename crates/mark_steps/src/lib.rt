//! Calls of a marker on the words of an object of its session's hands, in a cycle.
//!
//! `words.rt` reads a field or a reference, `marks.rt` marks the cell that a field's word names, `evacuations.rt` gives an external
//! field an evacuation entry where its cell has to move, and `scans.rt` scans an object all of whose fields and references were
//! passed; `answers.rt` has what they answer. Each call says its events with the cause of its answer, and which part of a scan it is (`ScanPart` of `call_base`). What
//! they speak of stands in `specs/`, in the file of the same name.
#![tactic(auto)]

mod answers;
mod evacuations;
mod marks;
mod scans;
mod words;

pub use answers::{Evacuated, Mark};
pub use evacuations::evacuate;
pub use marks::{mark, share_mark};
pub use scans::scanned;
pub use words::{ref_at, word_at};
