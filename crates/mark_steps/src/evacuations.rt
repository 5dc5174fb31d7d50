// Evacuation entries of external fields.
ghost use Rattle.std.specs.Prelude.{◌≡◌, ◌<◌, ◌≤◌, ◌+◌, ◌*◌, ℕ, List, [], Some};
ghost use Rattle.plain_table.specs.declared.events.Field.{Field};
ghost use Rattle.plain_table.specs.declared.events.Field.TheVariants as field;
ghost use Rattle.plain_table.specs.Index.{index_of};
ghost use Rattle.plain_table.specs.Places.{object_of};
ghost use Rattle.plain_table.specs.Scans.{Move, Visit};
ghost use Rattle.entry_base.specs.Openings.{start_of};
ghost use Rattle.entry_base.specs.Passed.{WillNotMove, field_of};
ghost use Rattle.entry_base.specs.Sessions.{view, IsOf};
ghost use Rattle.mark_rule.specs.Marking.{InHands};
ghost use Rattle.call_base.specs.Called.{LeavesOwn};
ghost use Rattle.call_base.specs.ScanParts.{ScanPart};
ghost use Rattle.mark_steps.specs.Words.{Saw};
ghost use Rattle.mark_steps.specs.Evacuations.{IsEvacuatedBy, IsPlacedBy};

use crate::answers::Evacuated;
use entry_base::{Session, Shared};
use entry_rule::{evacuate_step, load_area};
use freelist_rule::Steps;
use mark_rule::load_entry;
use plain_table::Space;
use space_steps::{Taken, abort, below};
use std::marker::Brand;
use std::sync::ledger::{Blank, Ledger};

/// The first bit of a tag in an entry word, and the bit of the area word that says that the compaction is aborted.
const TAG: u64 = 1 << 48;

const ABORTED: u64 = 1 << 32;

/// Gives an external field, `f` below 2, of an object of the hands an evacuation entry, where the cell at a word that the session
/// saw in the field stands in the evacuation area: so that it does not move without the field. It aborts the compaction where no
/// index below the area is free. The events and the cause of each answer are those of `IsEvacuatedBy` of
/// `specs/Evacuations.antt`. It counts its steps by a counter of its own.
pub fn evacuate(shared: &Shared, s: &mut Session, object: u32, f: u32, word: u32) -> Evacuated
    requires caller { IsOf shared.now s.old }
    requires hands { InHands (view s.old) object }
    requires few { f < 2 }
    requires saw { Saw (view s.old) (field_of object f) word }
    ensures caller { IsOf shared.now s.new }
    ensures made { IsEvacuatedBy (view s.old) (2 * object + f) (index_of word) result (view s.new) }
    ensures leaves { LeavesOwn (view s.old) (view s.new) }
    ensures placed { WillNotMove (view s.new) (field_of object f) word }
    ensures part { (fields : List Field) → ScanPart (view s.old) (Move object fields (2 * object + f) word) (view s.new) (Visit object fields) [] }
{
    match s.area() {
        None => Evacuated::NotNeeded,
        Some(start) => evacuate_from(shared, s, start, object, f, word),
    }
}

/// An evacuation in a cycle whose area begins at `start`.
fn evacuate_from(
    shared: &Shared,
    s: &mut Session,
    start: u32,
    object: u32,
    f: u32,
    word: u32,
) -> Evacuated
    requires caller { IsOf shared.now s.old }
    requires hands { InHands (view s.old) object }
    requires few { f < 2 }
    requires saw { Saw (view s.old) (field_of object f) word }
    requires area { start_of (view s.old).opening ≡ Some start }
    ensures caller { IsOf shared.now s.new }
    ensures made { IsEvacuatedBy (view s.old) (2 * object + f) (index_of word) result (view s.new) }
    ensures leaves { LeavesOwn (view s.old) (view s.new) }
    ensures placed { WillNotMove (view s.new) (field_of object f) word }
    ensures part { (fields : List Field) → ScanPart (view s.old) (Move object fields (2 * object + f) word) (view s.new) (Visit object fields) [] }
{
    let index = word >> 16;
    if index < start || index >= shared.limit(Space::External) {
        return Evacuated::NotNeeded;
    }
    let entry = load_entry(shared, s, Space::External, object, f, word);
    if entry / TAG % 256 == 0 {
        return Evacuated::NotNeeded;
    }
    if load_area(shared, s) / ABORTED == 1 {
        return Evacuated::Aborted;
    }
    place::<Brand>(shared, s, start, 2 * object + f, word, Blank::new(1))
}

/// Takes an index below the area for the evacuation entry of an external field, by its number, or aborts the compaction.
fn place<L: Ledger>(
    shared: &Shared,
    s: &mut Session,
    start: u32,
    number: u32,
    word: u32,
    blank: Blank,
) -> Evacuated
    requires caller { IsOf shared.now s.old }
    requires hands { InHands (view s.old) (object_of (field.External number)) }
    requires area { start_of (view s.old).opening ≡ Some start }
    requires name { blank.name ≡ L.name }
    requires parts { blank.parts ≡ L.parts }
    requires one { blank.parts ≡ 1 }
    ensures caller { IsOf shared.now s.new }
    ensures placed { IsPlacedBy (view s.old) start number word result (view s.new) }
    ensures leaves { LeavesOwn (view s.old) (view s.new) }
{
    let mut steps = Steps::<L>::start(blank);
    match below(shared, s, start, &mut steps) {
        Taken::At(ticket) => {
            let index = ticket.index();
            evacuate_step(shared, s, index, number, word);
            Evacuated::Placed { index }
        }
        Taken::Full => Evacuated::NotNeeded,
        Taken::NoRoom => {
            abort(shared, s);
            Evacuated::Aborted
        }
    }
}
