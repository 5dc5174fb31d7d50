//! The text of reports and of refused scripts.
//!
//! `text` gives the report of an outcome as it is printed, `soak_text` the one line that sums it up, and `fault_text` the
//! text of a refused script, exactly by `report_of`, `soak_line_of` and `fault_text_of` of `specs/Report.antt`; want of
//! memory is their only error (`report.rt`).
#![tactic(auto)]

mod report;

pub use report::{fault_text, soak_text, text};
