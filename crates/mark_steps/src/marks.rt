// Marks of the cells that words of fields name.
ghost use Rattle.std.specs.Prelude.{◌≡◌, ◌≢◌, ◌<◌, ℕ, List, [], ◌∷◌};
ghost use Rattle.plain_table.specs.declared.events.Act.TheVariants as act;
ghost use Rattle.plain_table.specs.declared.events.Field.{Field};
ghost use Rattle.plain_table.specs.declared.events.Space.TheVariants.{Trusted};
ghost use Rattle.plain_table.specs.declared.reports.Reply.TheVariants as reply;
ghost use Rattle.plain_table.specs.Index.{index_of};
ghost use Rattle.plain_table.specs.Places.{space_of};
ghost use Rattle.plain_table.specs.Scans.{Visit, marked_at};
ghost use Rattle.plain_table.specs.Table.{limit_in};
ghost use Rattle.entry_base.specs.declared.view.Fact.TheVariants as fact;
ghost use Rattle.entry_base.specs.Callers.{event_of};
ghost use Rattle.entry_base.specs.Lists.{Has};
ghost use Rattle.entry_base.specs.Openings.{sizes_in};
ghost use Rattle.entry_base.specs.Passed.{field_of};
ghost use Rattle.entry_base.specs.Sessions.{view, IsOf};
ghost use Rattle.mark_rule.specs.Marking.{InHands, MayRead};
ghost use Rattle.call_base.specs.Called.{Called, EndsWith, LeavesOwn};
ghost use Rattle.call_base.specs.ScanParts.{ScanPart};
ghost use Rattle.mark_steps.specs.Words.{Saw, SawShared};
ghost use Rattle.mark_steps.specs.Marks.{IsMarkCause, IsMarkedAfter, mark_events};

use crate::answers::Mark;
use entry_base::{Session, Shared};
use mark_rule::{load_mark, mark_step};
use plain_table::Space;

/// The first bit of a tag, and the bit of a mark in an entry word.
const TAG: u64 = 1 << 48;

const MARK: u64 = 1 << 62;

/// Marks the cell that a word names which the session saw in field `f` of an object of its hands, 0 and 1 the external fields and
/// 2 the trusted one. The event is the mark, and there is none where the answer is `NoCell` (`IsMarkCause` of `specs/Marks.antt`).
/// Where a cell stands at the index it is marked then.
pub fn mark(shared: &Shared, s: &mut Session, object: u32, f: u32, word: u32) -> Mark
    requires caller { IsOf shared.now s.old }
    requires hands { InHands (view s.old) object }
    requires few { f < 3 }
    requires saw { Saw (view s.old) (field_of object f) word }
    ensures caller { IsOf shared.now s.new }
    ensures called { Called (view s.old) (mark_events (view s.old) (space_of (field_of object f)) (index_of word) result) (view s.new) }
    ensures ends { EndsWith (mark_events (view s.old) (space_of (field_of object f)) (index_of word) result) (view s.new).seen }
    ensures cause { IsMarkCause (view s.old) (space_of (field_of object f)) (index_of word) result (view s.new) }
    ensures leaves { LeavesOwn (view s.old) (view s.new) }
    ensures visited { Has (view s.new).facts (fact.Visited (space_of (field_of object f)) (index_of word)) }
    ensures part { (fields : List Field) → ScanPart (view s.old) (Visit object (field_of object f ∷ fields)) (view s.new) (marked_at object fields (field_of object f) word) [] }
{
    let space = field_space(object, f);
    let index = word >> 16;
    if index == 0 || index >= shared.limit(space) {
        return Mark::NoCell;
    }
    mark_entry(shared, s, space, object, f, word)
}

/// Marks the trusted cell whose word, which isn't 0, the session saw in the trusted field of an object. The event is the mark.
pub fn share_mark(shared: &Shared, s: &mut Session, object: u32, word: u32)
    requires caller { IsOf shared.now s.old }
    requires saw { SawShared (view s.old) object word }
    ensures caller { IsOf shared.now s.new }
    ensures called { Called (view s.old) (event_of (view s.old) (act.Mark Trusted (index_of word)) reply.Ok ∷ []) (view s.new) }
    ensures ends { EndsWith (event_of (view s.old) (act.Mark Trusted (index_of word)) reply.Ok ∷ []) (view s.new).seen }
    ensures leaves { LeavesOwn (view s.old) (view s.new) }
    ensures marked { Has (view s.new).facts (fact.Marked Trusted (index_of word)) }
{
    mark_entry(shared, s, Space::Trusted, object, 2, word);
}

/// The space of a field: 0 and 1 are external, 2 is trusted.
fn field_space(object: u32, f: u32) -> Space
    requires few { f < 3 }
    ensures space { space_of (field_of object f) ≡ result }
{
    let _named = object;
    if f < 2 {
        Space::External
    } else {
        Space::Trusted
    }
}

/// Marks the cell at the entry that a word names which stood in a field.
fn mark_entry(
    shared: &Shared,
    s: &mut Session,
    space: Space,
    object: u32,
    f: u32,
    word: u32,
) -> Mark
    requires caller { IsOf shared.now s.old }
    requires spaced { space_of (field_of object f) ≡ space }
    requires inside { index_of word < limit_in (sizes_in (view s.old).opening) space }
    requires touched { Has (view s.old).facts (fact.Touched (field_of object f) word) }
    requires may { MayRead (view s.old) (field_of object f) }
    ensures caller { IsOf shared.now s.new }
    ensures called { Called (view s.old) (mark_events (view s.old) (space_of (field_of object f)) (index_of word) result) (view s.new) }
    ensures ends { EndsWith (mark_events (view s.old) (space_of (field_of object f)) (index_of word) result) (view s.new).seen }
    ensures cause { IsMarkCause (view s.old) (space_of (field_of object f)) (index_of word) result (view s.new) }
    ensures leaves { LeavesOwn (view s.old) (view s.new) }
    ensures visited { Has (view s.new).facts (fact.Visited (space_of (field_of object f)) (index_of word)) }
    ensures marked { IsMarkedAfter (view s.new) (space_of (field_of object f)) (index_of word) result }
{
    let entry = load_mark(shared, s, space, object, f, word);
    if entry / TAG % 256 == 0 {
        return Mark::NoCell;
    }
    if entry / MARK % 2 == 1 {
        return Mark::Already;
    }
    if mark_step(shared, s, space, object, f, word, entry % MARK) == entry % MARK {
        Mark::Set
    } else {
        Mark::Already
    }
}
