// Reads of the fields and references of an object of the hands.
ghost use Rattle.std.specs.Prelude.{◌<◌, [], IfSome};
ghost use Rattle.plain_table.specs.Words.{object_word};
ghost use Rattle.entry_base.specs.declared.view.Fact.TheVariants as fact;
ghost use Rattle.entry_base.specs.Lists.{Has};
ghost use Rattle.entry_base.specs.Passed.{field_of};
ghost use Rattle.entry_base.specs.Sessions.{view, IsOf};
ghost use Rattle.mark_rule.specs.Marking.{InHands, IsSeen, StandsIn};
ghost use Rattle.call_base.specs.Called.{Called, LeavesOwn};
ghost use Rattle.mark_steps.specs.Words.{RefersTo, Saw};

use entry_base::{Session, Shared};
use mark_rule::{load_reference, load_word};

/// Reads the word of a field of an object of the hands: 0 and 1 are its external fields, 2 its trusted one. The word stood in the
/// field at this call's load, and the session may then mark and evacuate by it (`Saw`). This is no event.
pub fn word_at(shared: &Shared, s: &mut Session, object: u32, f: u32) -> u32
    requires caller { IsOf shared.now s.old }
    requires hands { InHands (view s.old) object }
    requires few { f < 3 }
    ensures caller { IsOf shared.now s.new }
    ensures called { Called (view s.old) [] (view s.new) }
    ensures leaves { LeavesOwn (view s.old) (view s.new) }
    ensures stands { StandsIn (view s.old).opening (view s.new).seen (field_of object f) result }
    ensures saw { Saw (view s.new) (field_of object f) result }
{
    load_word(shared, s, object, f) as u32
}

/// Reads reference `k`, below 4, of an object of the hands: none exactly where it held nothing at this call's load. An object that
/// it held may then be shaded. This is no event.
pub fn ref_at(shared: &Shared, s: &mut Session, object: u32, k: u32) -> Option<u32>
    requires caller { IsOf shared.now s.old }
    requires hands { InHands (view s.old) object }
    requires few { k < 4 }
    ensures caller { IsOf shared.now s.new }
    ensures called { Called (view s.old) [] (view s.new) }
    ensures leaves { LeavesOwn (view s.old) (view s.new) }
    ensures holds { RefersTo (view s.old).opening (view s.new).seen object k result }
    ensures read { Has (view s.new).facts (fact.Reference object k (object_word result)) }
    ensures seen { IfSome result (λ q. IsSeen (view s.new) q) }
{
    let word = load_reference(shared, s, object, k);
    if word == 0 {
        return None;
    }
    Some((word - 1) as u32)
}
