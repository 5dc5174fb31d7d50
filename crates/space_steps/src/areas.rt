// The abort of a compaction.
ghost use Rattle.std.specs.Prelude.{◌≡◌, ◌≤◌, ℕ, [], ◌∷◌, Some};
ghost use Rattle.plain_table.specs.declared.events.Act.TheVariants as act;
ghost use Rattle.plain_table.specs.declared.events.Space.TheVariants.{External};
ghost use Rattle.plain_table.specs.declared.reports.Reply.TheVariants as reply;
ghost use Rattle.entry_base.specs.declared.view.Fact.TheVariants as fact;
ghost use Rattle.entry_base.specs.Callers.{event_of};
ghost use Rattle.entry_base.specs.Lists.{Has};
ghost use Rattle.entry_base.specs.Sessions.{view, IsOf};
ghost use Rattle.call_base.specs.Called.{Called, EndsWith, LeavesOwn};
ghost use Rattle.space_steps.specs.Areas.{IsAreaFull};

use entry_base::{Session, Shared};
use entry_rule::abort_step;

/// Aborts the compaction of the cycle, which has an area. The session knows that no index below the start of the area is free: by
/// a take below it that found no room, or by an external index at or above it that was taken.
pub fn abort(shared: &Shared, s: &mut Session)
    requires caller { IsOf shared.now s.old }
    requires full { IsAreaFull (view s.old) }
    ensures caller { IsOf shared.now s.new }
    ensures called { Called (view s.old) (event_of (view s.old) act.Abort reply.Ok ∷ []) (view s.new) }
    ensures ends { EndsWith (event_of (view s.old) act.Abort reply.Ok ∷ []) (view s.new).seen }
    ensures leaves { LeavesOwn (view s.old) (view s.new) }
    ensures aborted { Has (view s.new).facts fact.Aborted }
{
    if let Some(start) = s.area() {
        abort_step(shared, s, start);
    }
}
