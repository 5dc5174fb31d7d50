//! Tables for worked examples: opened on the image of a table before anything happened or on any lawful image, filled, and closed by
//! the first session and those that were split off it.
//!
//! `openings.rt` opens a table by its first session, whose view is then `first_view`; `fillings.rt` makes objects and cells, each
//! where a word that is expected is found, and `segments.rt` spends the first external segment of a table of `SHAPE` and commits the
//! second; `closings.rt` joins one, two or four sessions to the first one and closes the table, whose image is lawful, and `words.rt`
//! reads words of images. The tests of `worked_sessions`, `worked_cycles` and `worked_calls` stand on it.
#![tactic(auto)]

mod closings;
mod fillings;
mod openings;
mod segments;
mod words;

pub use closings::{close_both, close_five, close_three, close_whole};
pub use fillings::{make_next, put_hidden, put_next, take_head, take_two, try_new};
pub use openings::{open, open_fresh};
pub use segments::{SHAPE, commit_linked, link_two, take_three};
pub use words::{change_at, word_at};
