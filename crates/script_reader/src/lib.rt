//! The reader and the printer of scripts.
//!
//! `parse` gives the script of version 1 or 2 that a text spells, or the refusal of its first bad line, exactly by the
//! grammar of `specs/Grammar.antt` (with `Spelling`, `Forms`, `Lines` and `Header` next to it); `print` gives the
//! canonical text of `specs/Canonical.antt`; that text is read back as the script that was printed, and `upgrade` gives
//! a valid script of version 2 (`law.rt`). Words are read in `words.rt`, operations in `forms.rt`, lines in `lines.rt`,
//! the header in `header.rt`, and the whole in `draft.rt` and `reader.rt`; texts are written in `printer.rt` and
//! `digits.rt`, and `refusals.rt` holds what is answered.
#![tactic(auto)]

mod digits;
mod draft;
mod forms;
mod header;
mod law;
mod lines;
mod printer;
mod reader;
mod refusals;
mod words;

pub use digits::push_hex;
pub use law::{printed_is_read_back, upgrade, upgraded_is_valid};
pub use printer::print;
pub use reader::parse;
pub use refusals::{OutOfMemory, ScriptErr};
