// The replay of a list of events from the opening of a table.
ghost use Rattle.std.specs.Prelude.{◌↔◌, IsTrue, IfOk};
ghost use Rattle.plain_table.specs.Ranges.{IsInRange};
ghost use Rattle.plain_table.specs.Table.{opening};
ghost use Rattle.plain_table.specs.History.{IsLegalHistory};

use crate::{Event, Limits, OutOfMemory, State, step};
use std::alloc::Global;

/// True exactly where the events are a legal history from the opening of a table with these limits, by
/// `IsLegalHistory` of `specs/History.antt`.
pub fn replay(alloc: Global, limits: Limits, events: &[Event]) -> Result<bool, OutOfMemory>
    requires { IsInRange limits }
    ensures { IfOk result (λ legal. IsTrue legal ↔ IsLegalHistory (opening limits) events.now) }
{
    let mut state = State::start(alloc, limits)?;
    for event in events {
        if !step(alloc, &mut state, event)? {
            return Ok(false);
        }
    }
    Ok(true)
}
