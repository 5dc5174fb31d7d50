// Calls that make, drop and shade objects.
ghost use Rattle.std.specs.Prelude.{◌≡◌, ◌<◌, None, []};
ghost use Rattle.plain_table.specs.declared.scripts.Op.TheVariants as op;
ghost use Rattle.plain_table.specs.declared.reports.Reply.TheVariants as reply;
ghost use Rattle.entry_base.specs.Sessions.{view, IsOf};
ghost use Rattle.mark_rule.specs.Marking.{IsSeen};
ghost use Rattle.call_base.specs.Called.{Called, Made};
ghost use Rattle.graph_steps.specs.Graph.{HoldsReply, IsNewAtEvent, IsShadedNow, NowHolds};

use entry_base::{Session, Shared};
use mark_rule::shade_seen;
use object_rule::{drop_step, load_count_for_new, new_step};
use plain_table::Reply;

/// Makes an object, which the variable, below 16, then holds: the reply is its number. It is heap full exactly where the count of
/// objects equals the limit at the event, and the variable is then as before (`HoldsReply` and `IsNewAtEvent` of
/// `specs/Graph.antt`). An exchange that misses has found a greater count, so that the tries end.
pub fn new_object(shared: &Shared, s: &mut Session, var: u32) -> Reply
    requires caller { IsOf shared.now s.old }
    requires mutator { (view s.old).number < 8 }
    requires variable { var < 16 }
    ensures caller { IsOf shared.now s.new }
    ensures made { Made (view s.old) (op.New var) result (view s.new) }
    ensures holds { HoldsReply (view s.old) var result (view s.new) }
    ensures full { IsNewAtEvent (view s.new) result }
{
    let mut least = 0;
    loop {
        let count = load_count_for_new(shared, s, var);
        if count >= shared.objects as u64 {
            return Reply::HeapFull;
        }
        let found = new_step(shared, s, var, count as u32);
        if found == count {
            return Reply::Obj(count as u32);
        }
        least = found;
    }
}

/// Drops what a variable, below 16, holds: it then holds nothing. The reply is ok.
pub fn drop_var(shared: &Shared, s: &mut Session, var: u32) -> Reply
    requires caller { IsOf shared.now s.old }
    requires mutator { (view s.old).number < 8 }
    requires variable { var < 16 }
    ensures caller { IsOf shared.now s.new }
    ensures made { Made (view s.old) (op.Drop var) result (view s.new) }
    ensures ok { result ≡ reply.Ok }
    ensures holds { NowHolds (view s.old) var None (view s.new) }
{
    drop_step(shared, s, var);
    Reply::Ok
}

/// Shades an object that the caller saw in a cycle, in a variable or in a reference (`IsSeen` of `specs/Marking.antt` of
/// `mark_rule`). True exactly where it was white at its step; it then stands in the session's hands. This is no event.
pub fn shade(shared: &Shared, s: &mut Session, object: u32) -> bool
    requires caller { IsOf shared.now s.old }
    requires seen { IsSeen (view s.old) object }
    ensures caller { IsOf shared.now s.new }
    ensures called { Called (view s.old) [] (view s.new) }
    ensures shaded { IsShadedNow (view s.old) object result (view s.new) }
{
    shade_seen(shared, s, object) % 2 == 0
}
