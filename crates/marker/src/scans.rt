// The scan of one object: its fields, its references, and then the object.
ghost use Rattle.std.specs.Prelude.{◌≡◌, ◌+◌, ◌<◌, ◌≤◌, ℕ, List, [], ◌∷◌, vec_capacity};
ghost use Rattle.plain_table.specs.declared.events.Field.{Field};
ghost use Rattle.plain_table.specs.Scans.{Rest, Visit};
ghost use Rattle.entry_base.specs.Lists.{AreIn, count_in};
ghost use Rattle.entry_base.specs.Openings.{sizes_in};
ghost use Rattle.entry_base.specs.Passed.{PassedField, PassedReference, field_of};
ghost use Rattle.entry_base.specs.Sessions.{view, IsOf};
ghost use Rattle.mark_rule.specs.Marking.{InHands};
ghost use Rattle.call_base.specs.Called.{Called, LeavesOwn};
ghost use Rattle.call_base.specs.ScanParts.{ScanPart};
ghost use Rattle.marker.specs.Runs.{Brings, ScansObject};

use entry_base::{Session, Shared};
use graph_steps::shade;
use mark_steps::{evacuate, mark, ref_at, scanned, word_at};

/// Scans an object of the hands that is not on the stack, and puts the objects that its references shade onto the stack.
pub(crate) fn scan_object(shared: &Shared, s: &mut Session, stack: &mut Vec<u32>, object: u32)
    requires caller { IsOf shared.now s.old }
    requires hands { AreIn (object ∷ stack.old.items) (view s.old).hands }
    requires room { (sizes_in (view s.old).opening).objects ≤ vec_capacity stack.old }
    ensures caller { IsOf shared.now s.new }
    ensures scans { ScansObject (view s.old) stack.old.items object (view s.new) stack.new.items }
    ensures room { vec_capacity stack.new ≡ vec_capacity stack.old }
{
    pass_external(shared, s, object, 0);
    pass_external(shared, s, object, 1);
    pass_trusted(shared, s, object);
    pass_reference(shared, s, stack, object, 0);
    pass_reference(shared, s, stack, object, 1);
    pass_reference(shared, s, stack, object, 2);
    pass_reference(shared, s, stack, object, 3);
    scanned(shared, s, object);
}

/// Passes an external field of an object of the hands: marks the cell of its word, and gives it an evacuation entry where needed.
fn pass_external(shared: &Shared, s: &mut Session, object: u32, f: u32)
    requires caller { IsOf shared.now s.old }
    requires hands { InHands (view s.old) object }
    requires few { f < 2 }
    ensures caller { IsOf shared.now s.new }
    ensures leaves { LeavesOwn (view s.old) (view s.new) }
    ensures passed { PassedField (view s.new) (field_of object f) }
    ensures part { (fields : List Field) → ScanPart (view s.old) (Visit object (field_of object f ∷ fields)) (view s.new) (Visit object fields) [] }
{
    let word = word_at(shared, s, object, f);
    mark(shared, s, object, f, word);
    evacuate(shared, s, object, f, word);
}

/// Passes the trusted field of an object of the hands: marks the cell of its word.
fn pass_trusted(shared: &Shared, s: &mut Session, object: u32)
    requires caller { IsOf shared.now s.old }
    requires hands { InHands (view s.old) object }
    ensures caller { IsOf shared.now s.new }
    ensures leaves { LeavesOwn (view s.old) (view s.new) }
    ensures passed { PassedField (view s.new) (field_of object 2) }
    ensures part { (fields : List Field) → ScanPart (view s.old) (Visit object (field_of object 2 ∷ fields)) (view s.new) (Visit object fields) [] }
{
    let word = word_at(shared, s, object, 2);
    mark(shared, s, object, 2, word);
}

/// Passes a reference of an object of the hands that is not on the stack: shades what it holds, and puts it onto the stack where it
/// was white.
fn pass_reference(shared: &Shared, s: &mut Session, stack: &mut Vec<u32>, object: u32, k: u32)
    requires caller { IsOf shared.now s.old }
    requires hands { AreIn (object ∷ stack.old.items) (view s.old).hands }
    requires few { k < 4 }
    requires room { (sizes_in (view s.old).opening).objects ≤ vec_capacity stack.old }
    ensures caller { IsOf shared.now s.new }
    ensures called { Called (view s.old) [] (view s.new) }
    ensures passed { PassedReference (view s.new) object k }
    ensures brings { (came : List ℕ) × Brings (view s.old) stack.old.items (view s.new) stack.new.items came }
    ensures room { vec_capacity stack.new ≡ vec_capacity stack.old }
{
    if let Some(target) = ref_at(shared, s, object, k) {
        if shade(shared, s, target) {
            stack.push_reserved(target);
        }
    }
}
