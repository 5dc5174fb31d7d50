//! The type tags of table entries, ranges of them, and the strip of an entry's word under a range.
//!
//! A tag is a byte other than 0; the 70 with exactly four set bits are the old ones (`tags.rt`). A range is all the tags
//! from a first one to a last one (`ranges.rt`). A load strips the word that it read: the strip answers the value exactly
//! where the word's tag lies in the asked range and no flag is set but the mark (`stripping.rt`). `specs/Tag.antt` says
//! what a tag is, `specs/Range.antt` what a range is, and `specs/Strip.antt` what the strip answers, with its laws.
#![tactic(auto)]

mod ranges;
mod stripping;
mod tags;

pub use ranges::Range;
pub use stripping::{strip, strip_tests_the_range};
pub use tags::{Tag, all};
