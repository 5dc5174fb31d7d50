// Callers of the steps of marking.
ghost use Rattle.std.specs.Prelude.{◌≡◌, ◌<◌, IsTrue};
ghost use Rattle.entry_base.specs.Openings.{phase_of};
ghost use Rattle.entry_base.specs.Owns.{HoldsIn, IsHeld};
ghost use Rattle.entry_base.specs.Callers.{SameCaller};
ghost use Rattle.entry_base.specs.Passed.{field_of, PassedField, PassedReference};
ghost use Rattle.entry_base.specs.Sessions.{view, IsOf};
ghost use Rattle.mark_rule.specs.Marking.{InHands};

use entry_base::{Session, Shared};
use mark_rule::{load_entry, load_reference, load_word, mark_step, scan_step, shade_seen};
use object_rule::link_reference;
use plain_table::Space;

/// In a cycle, links reference `k` of an object that a variable holds to the object of another variable, which is shaded first.
pub fn link_shaded(shared: &Shared, s: &mut Session, object: u32, k: u32, var: u32, target: u32)
    requires caller { IsOf shared.now s.old }
    requires mutator { (view s.old).number < 8 }
    requires held { IsHeld (view s.old) object × HoldsIn (view s.old) var target }
    requires few { k < 4 }
    requires in_cycle { phase_of (view s.old).opening ≡ 1 }
    ensures caller { IsOf shared.now s.new }
{
    shade_seen(shared, s, target);
    link_reference(shared, s, object, k, Some(var), target + 1);
}

/// Marks the cell that the word of an external field of an object of the hands names: field 0 or 1. True where a cell stood there.
pub fn mark_field(shared: &Shared, s: &mut Session, object: u32, f: u32) -> bool
    requires caller { IsOf shared.now s.old }
    requires hands { InHands (view s.old) object }
    requires few { f < 2 }
    ensures caller { IsOf shared.now s.new }
{
    let word = load_word(shared, s, object, f) as u32;
    if word == 0 || word >> 16 >= shared.limit(Space::External) {
        return false;
    }
    let entry = load_entry(shared, s, Space::External, object, f, word);
    if entry >> 48 & 255 == 0 {
        return false;
    }
    mark_step(
        shared,
        s,
        Space::External,
        object,
        f,
        word,
        entry % (1 << 62),
    );
    true
}

/// Scans an object of the hands where all its fields and references are 0. True where they are.
pub fn scan_empty(shared: &Shared, s: &mut Session, object: u32) -> bool
    requires caller { IsOf shared.now s.old }
    requires hands { InHands (view s.old) object }
    ensures caller { IsOf shared.now s.new }
{
    if !pass_empty_field(shared, s, object, 0) {
        return false;
    }
    if !pass_empty_field(shared, s, object, 1) {
        return false;
    }
    if !pass_empty_field(shared, s, object, 2) {
        return false;
    }
    if !pass_empty_reference(shared, s, object, 0) {
        return false;
    }
    if !pass_empty_reference(shared, s, object, 1) {
        return false;
    }
    if !pass_empty_reference(shared, s, object, 2) {
        return false;
    }
    if !pass_empty_reference(shared, s, object, 3) {
        return false;
    }
    scan_step(shared, s, object);
    true
}

/// Passes a field of an object of the hands where it is 0: there is nothing to mark and nothing to move. True where it is 0.
fn pass_empty_field(shared: &Shared, s: &mut Session, object: u32, f: u32) -> bool
    requires caller { IsOf shared.now s.old }
    requires hands { InHands (view s.old) object }
    requires few { f < 3 }
    ensures caller { IsOf shared.now s.new }
    ensures same { SameCaller (view s.old) (view s.new) }
    ensures hands { (view s.new).hands ≡ (view s.old).hands }
    ensures passed { IsTrue result → PassedField (view s.new) (field_of object f) }
{
    load_word(shared, s, object, f) == 0
}

/// Passes a reference of an object of the hands where it holds nothing. True where it does.
fn pass_empty_reference(shared: &Shared, s: &mut Session, object: u32, k: u32) -> bool
    requires caller { IsOf shared.now s.old }
    requires hands { InHands (view s.old) object }
    requires few { k < 4 }
    ensures caller { IsOf shared.now s.new }
    ensures same { SameCaller (view s.old) (view s.new) }
    ensures hands { (view s.new).hands ≡ (view s.old).hands }
    ensures passed { IsTrue result → PassedReference (view s.new) object k }
{
    load_reference(shared, s, object, k) == 0
}
