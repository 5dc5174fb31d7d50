// Init: an external index is taken and filled with a new cell, and an external field is bound to it.
ghost use Rattle.std.specs.Prelude.{◌≡◌, ◌≢◌, ◌↔◌, ◌^◌, ◌<◌, ℕ, [], ◌∷◌, None, Some};
ghost use Rattle.plain_table.specs.declared.events.Act.TheVariants as act;
ghost use Rattle.plain_table.specs.declared.events.Field.TheVariants as field;
ghost use Rattle.plain_table.specs.declared.events.Space.TheVariants.{External};
ghost use Rattle.plain_table.specs.declared.reports.Reply.TheVariants as reply;
ghost use Rattle.plain_table.specs.declared.scripts.Op.TheVariants as op;
ghost use Rattle.plain_table.specs.Index.{word_of};
ghost use Rattle.plain_table.specs.Places.{object_of};
ghost use Rattle.entry_base.specs.declared.view.Fact.TheVariants as fact;
ghost use Rattle.entry_base.specs.Callers.{event_of};
ghost use Rattle.entry_base.specs.Lists.{Has};
ghost use Rattle.entry_base.specs.Openings.{start_of};
ghost use Rattle.entry_base.specs.Owns.{IsHeld};
ghost use Rattle.entry_base.specs.Sessions.{view, held_in, IsOf};
ghost use Rattle.entry_rule.specs.Entries.{MayPut, Put};
ghost use Rattle.call_base.specs.Called.{Called, EndsWith, LeavesOwn, Made};
ghost use Rattle.access_steps.specs.Accesses.{field_number};
ghost use Rattle.access_steps.specs.Inits.{abort_for, BindsNew, IsInitAtEvent, IsOwnTicket};

use crate::fields::field_number;
use entry_base::{Session, Shared};
use entry_rule::put_external;
use entry_word::word_of;
use freelist_rule::Steps;
use object_rule::bind_external;
use plain_table::{Reply, Space};
use space_steps::{Taken, Ticket, abort, take};
use std::marker::Brand;
use std::sync::ledger::{Blank, Ledger};
use tag_set::Tag;

/// Fills the external index of a ticket of the caller's own number with a new marked cell, value below 2^48. In a cycle with an
/// area the index is below its start, or the caller knows that the compaction is aborted (`MayPut`). The answer is the word of the
/// index, to which the caller then may bind a field.
pub fn put(shared: &Shared, s: &mut Session, ticket: Ticket, tag: Tag, value: u64) -> u32
    requires caller { IsOf shared.now s.old }
    requires ticket { IsOwnTicket (view s.old) ticket }
    requires small { value < 2 ^ 48 }
    requires may { MayPut (view s.old) External ticket.index }
    ensures caller { IsOf shared.now s.new }
    ensures called { Called (view s.old) (event_of (view s.old) (act.Put External ticket.index tag value) reply.Ok ∷ []) (view s.new) }
    ensures ends { EndsWith (event_of (view s.old) (act.Put External ticket.index tag value) reply.Ok ∷ []) (view s.new).seen }
    ensures put { Put (view s.old) External ticket.index tag value (view s.new) }
    ensures word { result ≡ word_of ticket.index }
{
    let index = ticket.index();
    put_external(shared, s, index, tag.byte(), value);
    word_of(index)
}

/// Puts a new cell of a tag and a value below 2^48 and binds external field `f` of the object that a variable holds to it. It
/// answers Empty exactly where the variable holds nothing, Full exactly where its take finds the space full, and Taken exactly
/// where its bind finds a word in the field: the new cell then stays unnamed. Before a put in the evacuation area of a cycle it
/// aborts the compaction.
pub fn init(shared: &Shared, s: &mut Session, var: u32, f: u32, tag: Tag, value: u64) -> Reply
    requires caller { IsOf shared.now s.old }
    requires range { (var < 16) × (f < 2) }
    requires small { value < 2 ^ 48 }
    ensures caller { IsOf shared.now s.new }
    ensures made { Made (view s.old) (op.Init var f tag value) result (view s.new) }
    ensures answer { (number : ℕ) → field_number (view s.old) var f ≡ Some number → IsInitAtEvent (view s.new) number result }
    ensures leaves { LeavesOwn (view s.old) (view s.new) }
    ensures empty { (result ≡ reply.Empty) ↔ (held_in (view s.old) var ≡ None) }
{
    match field_number(shared, s, var, f) {
        None => Reply::Empty,
        Some(number) => bind_new::<Brand>(shared, s, number, tag, value, Blank::new(1)),
    }
}

/// Takes an external index, fills it, and binds an external field, by its number, of an object that a variable holds.
fn bind_new<L: Ledger>(
    shared: &Shared,
    s: &mut Session,
    number: u32,
    tag: Tag,
    value: u64,
    blank: Blank,
) -> Reply
    requires caller { IsOf shared.now s.old }
    requires held { IsHeld (view s.old) (object_of (field.External number)) }
    requires small { value < 2 ^ 48 }
    requires name { blank.name ≡ L.name }
    requires parts { blank.parts ≡ L.parts }
    requires one { blank.parts ≡ 1 }
    ensures caller { IsOf shared.now s.new }
    ensures binds { BindsNew (view s.old) number tag value result (view s.new) }
    ensures answer { IsInitAtEvent (view s.new) number result }
    ensures leaves { LeavesOwn (view s.old) (view s.new) }
    ensures some { result ≢ reply.Empty }
{
    let mut steps = Steps::<L>::start(blank);
    let ticket = match take(shared, s, Space::External, &mut steps) {
        Taken::At(ticket) => ticket,
        Taken::Full => return Reply::Full,
        Taken::NoRoom => return Reply::Full,
    };
    clear_area(shared, s, ticket.index());
    let word = put(shared, s, ticket, tag, value);
    let found = bind_external(shared, s, number, word);
    if found == 0 {
        Reply::Ok
    } else {
        Reply::Taken(found as u32)
    }
}

/// Aborts the compaction of a cycle where an external index that was taken lies in the evacuation area.
fn clear_area(shared: &Shared, s: &mut Session, index: u32)
    requires caller { IsOf shared.now s.old }
    requires used { Has (view s.old).facts (fact.Used External index) }
    ensures caller { IsOf shared.now s.new }
    ensures called { Called (view s.old) (abort_for (view s.old).number (start_of (view s.old).opening) index) (view s.new) }
    ensures leaves { LeavesOwn (view s.old) (view s.new) }
    ensures may { MayPut (view s.new) External index }
{
    if let Some(start) = s.area() {
        if start <= index {
            abort(shared, s);
        }
    }
}
