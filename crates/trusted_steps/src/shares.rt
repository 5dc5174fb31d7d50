// Sharing: a second trusted field is bound to the entry of a first one.
ghost use Rattle.std.specs.Prelude.{◌≡◌, ◌≢◌, ◌↔◌, ◌⊎◌, ◌<◌, ℕ, None, IfSome};
ghost use Rattle.plain_table.specs.declared.reports.Reply.TheVariants as reply;
ghost use Rattle.plain_table.specs.declared.scripts.Op.TheVariants as op;
ghost use Rattle.entry_base.specs.Openings.{phase_of};
ghost use Rattle.entry_base.specs.Owns.{IsHeld};
ghost use Rattle.entry_base.specs.Sessions.{view, held_in, IsOf};
ghost use Rattle.object_rule.specs.Fields.{IsMarkedInCycle};
ghost use Rattle.call_base.specs.Called.{Called, LeavesOwn, Made};
ghost use Rattle.mark_steps.specs.Words.{SawShared};
ghost use Rattle.trusted_steps.specs.Causes.{HeldWord, IsShareAtEvent};
ghost use Rattle.trusted_steps.specs.Shares.{SharesEntry, mark_for};

use entry_base::{Session, Shared};
use mark_steps::share_mark;
use object_rule::{bind_shared, name_trusted};
use plain_table::Reply;

/// Binds the trusted field of the object of one variable to the entry that another one's names, both below 16. It answers Empty
/// exactly where one of the variables holds nothing; else Null exactly where the first one's field is 0; else Taken exactly where
/// the bind finds a word in the second one's field, and Ok where that field has the word now. In a cycle the entry is marked before
/// the bind.
pub fn share(shared: &Shared, s: &mut Session, from: u32, to: u32) -> Reply
    requires caller { IsOf shared.now s.old }
    requires range { (from < 16) × (to < 16) }
    ensures caller { IsOf shared.now s.new }
    ensures made { Made (view s.old) (op.Share from to) result (view s.new) }
    ensures answer { IfSome (held_in (view s.old) from) (λ source. IfSome (held_in (view s.old) to) (λ target. (word : ℕ) × HeldWord (view s.old) source word (view s.new) × IsShareAtEvent (view s.new) target word result)) }
    ensures leaves { LeavesOwn (view s.old) (view s.new) }
    ensures empty { (result ≡ reply.Empty) ↔ ((held_in (view s.old) from ≡ None) ⊎ (held_in (view s.old) to ≡ None)) }
{
    match s.held(from) {
        None => Reply::Empty,
        Some(source) => match s.held(to) {
            None => Reply::Empty,
            Some(target) => share_entry(shared, s, source, target),
        },
    }
}

/// Binds the trusted field of a target object to the entry that a source object's field names. Variables hold both objects.
fn share_entry(shared: &Shared, s: &mut Session, source: u32, target: u32) -> Reply
    requires caller { IsOf shared.now s.old }
    requires held { IsHeld (view s.old) source × IsHeld (view s.old) target }
    ensures caller { IsOf shared.now s.new }
    ensures shares { SharesEntry (view s.old) source target result (view s.new) }
    ensures answer { (word : ℕ) × HeldWord (view s.old) source word (view s.new) × IsShareAtEvent (view s.new) target word result }
    ensures leaves { LeavesOwn (view s.old) (view s.new) }
    ensures some { result ≢ reply.Empty }
{
    let word = name_trusted(shared, s, source) as u32;
    if word == 0 {
        return Reply::Null;
    }
    mark_in_cycle(shared, s, source, word);
    let found = bind_shared(shared, s, target, word);
    if found == 0 {
        Reply::Ok
    } else {
        Reply::Taken(found as u32)
    }
}

/// In a cycle, marks the trusted cell that the word of an object's trusted field names.
fn mark_in_cycle(shared: &Shared, s: &mut Session, object: u32, word: u32)
    requires caller { IsOf shared.now s.old }
    requires saw { phase_of (view s.old).opening ≢ 0 → SawShared (view s.old) object word }
    ensures caller { IsOf shared.now s.new }
    ensures called { Called (view s.old) (mark_for (view s.old).number (phase_of (view s.old).opening) word) (view s.new) }
    ensures leaves { LeavesOwn (view s.old) (view s.new) }
    ensures marked { IsMarkedInCycle (view s.new) word }
{
    if s.in_cycle() {
        share_mark(shared, s, object, word);
    }
}
