//! One mutator's calls over an image, in and outside a collection cycle, with no atomic step and no allocation.
//!
//! Each call makes events of its shape, legal after what was before, for every sound table that the image showed, and the
//! image shows the table after them (`Makes` of `specs/Calls.antt`). `heap.rt` has the mutator, `objects.rt` the calls of
//! objects, references and globals, `cells.rt` those by external fields and words, `trusted.rt` those of trusted entries,
//! `cycles.rt` the start and the finish of a cycle and the totals; `freelists.rt` takes indexes, `entries.rt` reads entries.
#![tactic(auto)]

mod cells;
mod cycles;
mod entries;
mod freelists;
mod heap;
mod inits;
mod objects;
mod places;
mod trusted;

pub use cycles::Totals;
pub use heap::Mutator;
