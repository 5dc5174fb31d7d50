//! A mutator's calls in a phase: each operation by the session call of its name, one after another, with a gate before each.
//!
//! `run_calls` says that the session's own events are the shapes of the calls with the replies, each once and in order, and what it
//! links: an object that came into the hands was linked to a reference, and what was linked in a cycle is known as shaded
//! (`MakesInTurn` of `specs/Calls.antt`). `gates.rt` has the gate, `dispatch.rt` one call, `runs.rt` calls in turn and how many
//! external cells they put. `proofs/ShapeEvents.antt` and `CallRows.antt` have what the events of calls are, and
//! `HistoryEvents.antt` and `LinkedObjects.antt` what the events of each number make up in a history.
#![tactic(auto)]

mod dispatch;
mod gates;
mod runs;

pub use dispatch::make_call;
pub use gates::{Gate, Open};
pub use runs::{count_puts, run_calls};
