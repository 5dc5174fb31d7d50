//! The plain table: what a table of handles is to its users, with no word, bit or link of any representation.
//!
//! This crate holds the data of scripts (`scripts.rt`), of reports (`reports.rt`) and of events (`events.rt`), and in
//! `specs/` the definitions that every promise of the repository speaks of: the table (`Table.antt`) and its cycle
//! (`Cycle.antt`), the row of each event (`Rows.antt`), starts and finishes (`Finish.antt`), histories, the events of
//! calls and scans, outcomes (`Belongs.antt`), sound tables, and the words that show them (`Shows.antt`). Their laws are
//! those of `table_laws` and `word_laws`; `plain_program` computes them.
#![tactic(auto)]

mod events;
mod reports;
mod scripts;

pub use events::{Act, Cell, Event, Field, Space, Spot};
pub use reports::{Compaction, MeetReport, Outcome, PhaseReport, Reply, SweepReport};
pub use scripts::{Limits, Meet, Op, Phase, Policy, Script};

/// An allocation failed.
#[derive(Clone, Copy, Debug, PartialEq, Eq)]
pub struct OutOfMemory;
