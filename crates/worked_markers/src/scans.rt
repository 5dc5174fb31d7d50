// Marks and evacuations by known words, and the scan of an object call by call, with what its evacuations answer.
ghost use Rattle.std.specs.Prelude.{◌≡◌, ◌<◌};
ghost use Rattle.entry_base.specs.Callers.{SameCaller};
ghost use Rattle.entry_base.specs.Lists.{without_one};
ghost use Rattle.entry_base.specs.Passed.{PassedField, PassedReference, field_of};
ghost use Rattle.entry_base.specs.Sessions.{view, IsOf};
ghost use Rattle.mark_rule.specs.Marking.{InHands};

use crate::asserts::assert_is;
use entry_base::{Session, Shared};
use mark_steps::{Evacuated, Mark, evacuate, mark, ref_at, scanned, word_at};
use std::process::Abort;

/// Reads the word of a field of an object of the hands, which is a known one, and marks by it.
pub(crate) fn mark_by(
    rt: &impl Abort,
    shared: &Shared,
    s: &mut Session,
    object: u32,
    f: u32,
    known: u32,
) -> Mark
    requires caller { IsOf shared.now s.old }
    requires hands { InHands (view s.old) object }
    requires few { f < 3 }
    ensures caller { IsOf shared.now s.new }
    ensures same { SameCaller (view s.old) (view s.new) }
    ensures hands { (view s.new).hands ≡ (view s.old).hands }
{
    let word = word_at(shared, s, object, f);
    assert_is(rt, word, known);
    mark(shared, s, object, f, word)
}

/// Reads the word of an external field of an object of the hands, which is a known one, and evacuates by it.
pub(crate) fn evacuate_by(
    rt: &impl Abort,
    shared: &Shared,
    s: &mut Session,
    object: u32,
    f: u32,
    known: u32,
) -> Evacuated
    requires caller { IsOf shared.now s.old }
    requires hands { InHands (view s.old) object }
    requires few { f < 2 }
    ensures caller { IsOf shared.now s.new }
    ensures same { SameCaller (view s.old) (view s.new) }
    ensures hands { (view s.new).hands ≡ (view s.old).hands }
{
    let word = word_at(shared, s, object, f);
    assert_is(rt, word, known);
    evacuate(shared, s, object, f, word)
}

/// Passes an external field of an object of the hands. The answer is what the evacuation did.
fn pass_external(shared: &Shared, s: &mut Session, object: u32, f: u32) -> Evacuated
    requires caller { IsOf shared.now s.old }
    requires hands { InHands (view s.old) object }
    requires few { f < 2 }
    ensures caller { IsOf shared.now s.new }
    ensures same { SameCaller (view s.old) (view s.new) }
    ensures hands { (view s.new).hands ≡ (view s.old).hands }
    ensures passed { PassedField (view s.new) (field_of object f) }
{
    let word = word_at(shared, s, object, f);
    mark(shared, s, object, f, word);
    evacuate(shared, s, object, f, word)
}

/// Passes the trusted field of an object of the hands.
fn pass_trusted(shared: &Shared, s: &mut Session, object: u32)
    requires caller { IsOf shared.now s.old }
    requires hands { InHands (view s.old) object }
    ensures caller { IsOf shared.now s.new }
    ensures same { SameCaller (view s.old) (view s.new) }
    ensures hands { (view s.new).hands ≡ (view s.old).hands }
    ensures passed { PassedField (view s.new) (field_of object 2) }
{
    let word = word_at(shared, s, object, 2);
    mark(shared, s, object, 2, word);
}

/// Passes a reference of an object of the hands, which holds nothing.
fn pass_empty(rt: &impl Abort, shared: &Shared, s: &mut Session, object: u32, k: u32)
    requires caller { IsOf shared.now s.old }
    requires hands { InHands (view s.old) object }
    requires few { k < 4 }
    ensures caller { IsOf shared.now s.new }
    ensures same { SameCaller (view s.old) (view s.new) }
    ensures hands { (view s.new).hands ≡ (view s.old).hands }
    ensures passed { PassedReference (view s.new) object k }
{
    let held = ref_at(shared, s, object, k);
    assert_is(rt, held, None);
}

/// Scans an object of the hands that has no reference. The answer is what the evacuations of its two external fields did.
pub(crate) fn scan_lone(
    rt: &impl Abort,
    shared: &Shared,
    s: &mut Session,
    object: u32,
) -> (Evacuated, Evacuated)
    requires caller { IsOf shared.now s.old }
    requires hands { InHands (view s.old) object }
    ensures caller { IsOf shared.now s.new }
    ensures same { SameCaller (view s.old) (view s.new) }
    ensures hands { (view s.new).hands ≡ without_one object (view s.old).hands }
{
    let first = pass_external(shared, s, object, 0);
    let second = pass_external(shared, s, object, 1);
    pass_trusted(shared, s, object);
    pass_empty(rt, shared, s, object, 0);
    pass_empty(rt, shared, s, object, 1);
    pass_empty(rt, shared, s, object, 2);
    pass_empty(rt, shared, s, object, 3);
    scanned(shared, s, object);
    (first, second)
}
