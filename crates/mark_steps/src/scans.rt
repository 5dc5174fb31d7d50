// The scan of an object.
ghost use Rattle.std.specs.Prelude.{◌≡◌, [], ◌∷◌};
ghost use Rattle.plain_table.specs.declared.events.Act.TheVariants as act;
ghost use Rattle.plain_table.specs.declared.reports.Reply.TheVariants as reply;
ghost use Rattle.plain_table.specs.Scans.{Rest, Visit};
ghost use Rattle.entry_base.specs.Callers.{SameOwn, event_of};
ghost use Rattle.entry_base.specs.Lists.{without_one};
ghost use Rattle.entry_base.specs.Passed.{IsPassed};
ghost use Rattle.entry_base.specs.Sessions.{view, IsOf};
ghost use Rattle.call_base.specs.Called.{Called, EndsWith};
ghost use Rattle.call_base.specs.ScanParts.{ScanPart};

use entry_base::{Session, Shared};
use mark_rule::scan_step;

/// Scans an object of the hands, all of whose three fields and four references were passed (`IsPassed` of `specs/Passed.antt` of
/// `entry_base`): the event is its scan, and the object leaves the hands.
pub fn scanned(shared: &Shared, s: &mut Session, object: u32)
    requires caller { IsOf shared.now s.old }
    requires passed { IsPassed (view s.old) object }
    ensures caller { IsOf shared.now s.new }
    ensures called { Called (view s.old) (event_of (view s.old) (act.Scan object) reply.Ok ∷ []) (view s.new) }
    ensures ends { EndsWith (event_of (view s.old) (act.Scan object) reply.Ok ∷ []) (view s.new).seen }
    ensures own { SameOwn (view s.old) (view s.new) }
    ensures hands { (view s.new).hands ≡ without_one object (view s.old).hands }
    ensures part { ScanPart (view s.old) (Visit object []) (view s.new) Rest (object ∷ []) }
{
    scan_step(shared, s, object);
}
