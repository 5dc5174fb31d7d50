// The steps of a state, each by its event's row in `specs/Rows.antt`: entries are stepped in `entry_steps.rt`, objects in
// `object_steps.rt`, cycles in `cycle_steps.rt`, and their starts and finishes in `meet_steps.rt`.
ghost use Rattle.std.specs.Prelude.{◌≡◌, ◌↔◌, true, false, IsTrue, IfOk, OnOk, OnErr, Ok};
ghost use Rattle.std.specs.Bool.{OnTrue, OnFalse};
ghost use Rattle.plain_table.specs.History.{next};
ghost use Rattle.plain_program.specs.Kept.{shown, IsLastPut};
ghost use Rattle.plain_program.specs.Steps.{Steps, CanStep};

use crate::state::State;
use crate::{Act, Event, OutOfMemory};
use std::alloc::Global;

/// Makes the event, if it is legal in the state's table with the reply that it says (`specs/Rows.antt`), and says
/// whether it was made (`CanStep` of `specs/Steps.antt`). A put that finds no further id than 2^64 - 1 is not made and
/// spends the state, and so does an allocation that fails: every later step then answers false.
pub fn step(alloc: Global, state: &mut State, event: &Event) -> Result<bool, OutOfMemory>
    ensures answer { IfOk result (λ done. IsTrue done ↔ CanStep state.old event.now) }
    ensures next { IfOk result (λ done. OnTrue done (shown state.new ≡ next (shown state.old) event.now)) }
    ensures unspent { IfOk result (λ done. OnTrue done (state.new.spent ≡ false)) }

    // A put that finds no further id spends the state, and any other event that is not made leaves it as it was.
    ensures last_put { IsLastPut state.old event.now.act →
        OnOk result (state.new ≡ record state.old { spent = true }) }
    ensures unchanged { IfOk result (λ done. OnFalse done
        ((IsLastPut state.old event.now.act → ⊥) → state.new ≡ state.old)) }
    ensures out_of_memory { OnErr result (state.new.spent ≡ true) }
    ensures spent { IsTrue state.old.spent → result ≡ Ok false }
{
    if state.spent() {
        return Ok(false);
    }
    if state.is_last_put(event.act) {
        state.spend();
        return Ok(false);
    }
    let made = state.make(alloc, event);
    if made.is_err() {
        state.spend();
    }
    made
}

impl State {
    /// A put finds no further id.
    fn is_last_put(&self, act: Act) -> bool
        ensures { IsTrue result ↔ IsLastPut self.now act }
    {
        match act {
            Act::Put { .. } => self.next() == u64::MAX,
            _ => false,
        }
    }

    /// Makes the event, if it is legal.
    fn make(&mut self, alloc: Global, event: &Event) -> Result<bool, OutOfMemory>
        requires { IsLastPut self.old event.now.act → ⊥ }
        ensures { IfOk result (λ done. Steps done self.old self.new event.now) }
    {
        let by = event.by;
        let said = event.said;
        match event.act {
            Act::New { var } => self.make_new(by, var, said),
            Act::Drop { var } => self.make_drop(by, var, said),
            Act::Get { var, spot } => self.make_get(by, var, spot, said),
            Act::Link { spot, var } => self.make_link(by, spot, var, said),
            Act::Take { space } => self.make_take(by, space, said),
            Act::Below { start } => self.make_below(by, start, said),
            Act::Abort => Ok(self.make_abort(by, said)),
            Act::Put {
                space,
                index,
                tag,
                value,
            } => self.make_put(by, space, index, tag, value, said),
            Act::Bind { field, word } => self.make_bind(by, field, word, said),
            Act::Name { field } => Ok(self.is_name(by, field, said)),
            Act::Look {
                space,
                word,
                first,
                last,
            } => Ok(said == self.look(space, word, first, last)),
            Act::Set {
                word,
                first,
                last,
                value,
            } => self.make_set(by, word, first, last, value, said),
            Act::Swap {
                word,
                first,
                last,
                value,
            } => self.make_swap(by, word, first, last, value, said),
            Act::Forge { number, word } => self.make_forge(by, number, word, said),
            Act::Publish { index } => self.make_publish(by, index, said),
            Act::Mark { space, index } => self.make_mark(by, space, index, said),
            Act::Evac { index, field } => self.make_evac(by, index, field, said),
            Act::Scan { object } => self.make_scan(by, object, said),
            Act::Start { policy } => self.make_start(alloc, by, policy, said),
            Act::Finish => self.make_finish(alloc, by, said),
        }
    }
}
