// Takes of the least free index: of a space, and below the evacuation area.
ghost use Rattle.std.specs.Prelude.{◌≡◌, ◌≢◌, ◌+◌, ◌*◌, ◌/◌, ◌%◌, ◌^◌, ◌<◌, ◌≤◌, ℕ, [], ◌∷◌, None, Some, IfSome};
ghost use Rattle.plain_table.specs.declared.events.Act.TheVariants as act;
ghost use Rattle.plain_table.specs.declared.events.Space.TheVariants.{External};
ghost use Rattle.plain_table.specs.declared.reports.Reply.TheVariants as reply;
ghost use Rattle.plain_table.specs.Table.{limit_in};
ghost use Rattle.free_chain.specs.Rank.{rank};
ghost use Rattle.entry_base.specs.declared.view.Fact.TheVariants as fact;
ghost use Rattle.entry_base.specs.Callers.{event_of};
ghost use Rattle.entry_base.specs.Lists.{Has};
ghost use Rattle.entry_base.specs.Openings.{sizes_in, start_of};
ghost use Rattle.entry_base.specs.Ranks.{takes_in};
ghost use Rattle.entry_base.specs.Sessions.{view, IsOf};
ghost use Rattle.freelist_rule.specs.Freelists.{IsFreelistIn, IsSpent};
ghost use Rattle.call_base.specs.Called.{Called, EndsWith, LeavesOwn};
ghost use Rattle.space_steps.specs.declared.tickets.Taken.TheVariants as taken;
ghost use Rattle.space_steps.specs.Segments.{HasRisen};
ghost use Rattle.space_steps.specs.Takes.{HasFewTries, MovedOn, TookIndex, taken_reply};
ghost use Rattle.space_steps.specs.Tickets.{TakenTo};

use crate::pauses::{FIRST_TURNS, pause};
use crate::segments::commit_at;
use crate::tickets::{Taken, Ticket};
use entry_base::{Session, Shared};
use freelist_rule::{
    Steps, below_step, load_freelist_for_below, load_freelist_for_take, load_link, take_step,
};
use plain_table::Space;
use std::sync::ledger::Ledger;

/// The first bit of the length in a freelist word, whose low half is the head.
const LENGTH: u64 = 1 << 32;

/// Takes the least free index of a space, and commits the next segment where the list is empty and a segment is left. The answer
/// is never `NoRoom`, and `Full` exactly where no index is free at the event. It counts a step for each exchange that tries to
/// take: at most one more than others took of the space in what the session came to see in the call.
pub fn take<L: Ledger>(
    shared: &Shared,
    s: &mut Session,
    space: Space,
    steps: &mut Steps<L>,
) -> Taken
    requires caller { IsOf shared.now s.old }
    ensures caller { IsOf shared.now s.new }
    ensures called { Called (view s.old) (event_of (view s.old) (act.Take space) (taken_reply result) ∷ []) (view s.new) }
    ensures ends { EndsWith (event_of (view s.old) (act.Take space) (taken_reply result) ∷ []) (view s.new).seen }
    ensures taken { TakenTo (view s.old) space result (view s.new) }
    ensures room { result ≢ taken.NoRoom }
    ensures few { HasFewTries (view s.old) space steps.old steps.new (view s.new) }
{
    let mut word = load_freelist_for_take(shared, s, space);
    let mut turns = FIRST_TURNS;
    loop {
        if word / LENGTH == 0 && word >= shared.limit(space) as u64 {
            return Taken::Full;
        }
        if let Some(ticket) = advance(shared, s, space, word, steps) {
            return Taken::At(ticket);
        }
        turns = pause(turns);
        word = load_freelist_for_take(shared, s, space);
    }
}

/// Tries to take the head of a freelist word that was loaded, or commits a segment where the list is empty. Where it takes no
/// index, the freelist word has risen.
fn advance<L: Ledger>(
    shared: &Shared,
    s: &mut Session,
    space: Space,
    word: u64,
    steps: &mut Steps<L>,
) -> Option<Ticket>
    requires caller { IsOf shared.now s.old }
    requires loaded { Has (view s.old).facts (fact.Freelist space word (takes_in space (view s.old).seen)) }
    requires within { IsFreelistIn (view s.old) space word }
    requires left { IsSpent (view s.old) space word → ⊥ }
    ensures caller { IsOf shared.now s.new }
    ensures took { IfSome result (λ t. TookIndex (view s.old) space (act.Take space) t (view s.new)) }
    ensures moved { result ≡ None → MovedOn (view s.old) space word (view s.new) }
    ensures bound { steps.new + takes_in space (view s.old).seen ≤ steps.old + takes_in space (view s.new).seen }
{
    if word / LENGTH != 0 {
        return try_take(shared, s, space, word, steps);
    }
    commit_at(shared, s, space, word as u32);
    None
}

/// Tries once to take the head of a freelist word that was loaded and is not empty.
fn try_take<L: Ledger>(
    shared: &Shared,
    s: &mut Session,
    space: Space,
    word: u64,
    steps: &mut Steps<L>,
) -> Option<Ticket>
    requires caller { IsOf shared.now s.old }
    requires loaded { Has (view s.old).facts (fact.Freelist space word (takes_in space (view s.old).seen)) }
    requires some { word / 2 ^ 32 ≢ 0 }
    requires inside { (word % 2 ^ 32 ≢ 0) × (word % 2 ^ 32 < limit_in (sizes_in (view s.old).opening) space) }
    ensures caller { IsOf shared.now s.new }
    ensures ticked { steps.new ≡ steps.old + 1 }
    ensures took { IfSome result (λ t. TookIndex (view s.old) space (act.Take space) t (view s.new)) }
    ensures moved { result ≡ None → MovedOn (view s.old) space word (view s.new) }
    ensures more { takes_in space (view s.old).seen < takes_in space (view s.new).seen }
{
    let next = (load_link(shared, s, space, word) % LENGTH) as u32;
    match take_step(shared, s, space, word, next, steps) {
        Ok(index) => Some(Ticket {
            number: s.number(),
            space,
            index,
        }),
        Err(_) => None,
    }
}

/// Takes the least free external index below the start of the area. The answer is never `Full`, and `NoRoom` exactly where no index
/// below the start is free at the event. It counts steps as `take` does.
pub fn below<L: Ledger>(shared: &Shared, s: &mut Session, start: u32, steps: &mut Steps<L>) -> Taken
    requires caller { IsOf shared.now s.old }
    requires area { start_of (view s.old).opening ≡ Some start }
    ensures caller { IsOf shared.now s.new }
    ensures called { Called (view s.old) (event_of (view s.old) (act.Below start) (taken_reply result) ∷ []) (view s.new) }
    ensures ends { EndsWith (event_of (view s.old) (act.Below start) (taken_reply result) ∷ []) (view s.new).seen }
    ensures taken { TakenTo (view s.old) External result (view s.new) }
    ensures below { (t : _) → result ≡ taken.At t → t.index < start }
    ensures full { result ≡ taken.NoRoom → Has (view s.new).facts (fact.Used External start) }
    ensures room { result ≢ taken.Full }
    ensures few { HasFewTries (view s.old) External steps.old steps.new (view s.new) }
{
    let mut word = load_freelist_for_below(shared, s, start);
    let mut turns = FIRST_TURNS;
    loop {
        if word / LENGTH == 0 || start as u64 <= word % LENGTH {
            return Taken::NoRoom;
        }
        if let Some(ticket) = try_below(shared, s, start, word, steps) {
            return Taken::At(ticket);
        }
        turns = pause(turns);
        word = load_freelist_for_below(shared, s, start);
    }
}

/// Tries once to take the head of an external freelist word that was loaded and is not empty, where it is below the start.
fn try_below<L: Ledger>(
    shared: &Shared,
    s: &mut Session,
    start: u32,
    word: u64,
    steps: &mut Steps<L>,
) -> Option<Ticket>
    requires caller { IsOf shared.now s.old }
    requires loaded { Has (view s.old).facts (fact.Freelist External word (takes_in External (view s.old).seen)) }
    requires some { word / 2 ^ 32 ≢ 0 }
    requires inside { (word % 2 ^ 32 ≢ 0) × (word % 2 ^ 32 < limit_in (sizes_in (view s.old).opening) External) }
    requires area { start_of (view s.old).opening ≡ Some start }
    requires below { word % 2 ^ 32 < start }
    ensures caller { IsOf shared.now s.new }
    ensures ticked { steps.new ≡ steps.old + 1 }
    ensures took { IfSome result (λ t. (t.index < start) × TookIndex (view s.old) External (act.Below start) t (view s.new)) }
    ensures moved { result ≡ None → MovedOn (view s.old) External word (view s.new) }
    ensures more { takes_in External (view s.old).seen < takes_in External (view s.new).seen }
{
    let next = (load_link(shared, s, Space::External, word) % LENGTH) as u32;
    match below_step(shared, s, start, word, next, steps) {
        Ok(index) => Some(Ticket {
            number: s.number(),
            space: Space::External,
            index,
        }),
        Err(_) => None,
    }
}
