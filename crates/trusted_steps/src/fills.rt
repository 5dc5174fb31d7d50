// A new trusted entry: an index is taken and filled, and a trusted field is bound to it.
ghost use Rattle.std.specs.Prelude.{◌≡◌, ◌≢◌, ◌↔◌, ◌^◌, ◌<◌, None, IfSome, IsSome};
ghost use Rattle.plain_table.specs.declared.events.Space.TheVariants.{Trusted};
ghost use Rattle.plain_table.specs.declared.reports.Reply.TheVariants as reply;
ghost use Rattle.plain_table.specs.declared.scripts.Op.TheVariants as op;
ghost use Rattle.plain_table.specs.Table.{limit_in};
ghost use Rattle.entry_base.specs.Lists.{Has};
ghost use Rattle.entry_base.specs.Openings.{sizes_in};
ghost use Rattle.entry_base.specs.Owns.{claim_of, IsHeld};
ghost use Rattle.entry_base.specs.Sessions.{view, held_in, ticket_in, IsOf};
ghost use Rattle.call_base.specs.Called.{Made};
ghost use Rattle.trusted_steps.specs.Causes.{IsBoundAtEvent, IsFillAtEvent};
ghost use Rattle.trusted_steps.specs.Fills.{BindsNew, FillsNew, HasTicketAfter, LeavesAllButTicket};

use entry_base::{Session, Shared};
use entry_rule::put_trusted;
use entry_word::word_of;
use freelist_rule::Steps;
use object_rule::bind_trusted;
use plain_table::{Reply, Space};
use space_steps::{Taken, Ticket, take};
use std::marker::Brand;
use std::sync::ledger::{Blank, Ledger};
use tag_set::Tag;

/// Fills a new trusted entry with a cell of a tag and a value below 2^48 that no look can see yet, and binds the trusted field of
/// the object that a variable, below 16, holds to it. It answers Empty exactly where the variable holds nothing; else Pending
/// exactly where the mutator has a ticket already; else Full exactly where its take finds the space full, Taken exactly where its
/// bind finds a word in the field, and Ok where the field has the new word: only then the mutator has the ticket of the new entry.
pub fn tnew(shared: &Shared, s: &mut Session, var: u32, tag: Tag, value: u64) -> Reply
    requires caller { IsOf shared.now s.old }
    requires range { var < 16 }
    requires small { value < 2 ^ 48 }
    ensures caller { IsOf shared.now s.new }
    ensures made { Made (view s.old) (op.TNew var tag value) result (view s.new) }
    ensures answer { IfSome (held_in (view s.old) var) (λ object. ticket_in (view s.old) ≡ None → IsFillAtEvent (view s.new) object result) }
    ensures leaves { LeavesAllButTicket (view s.old) (view s.new) }
    ensures ticket { HasTicketAfter (view s.old) tag value result (view s.new) }
    ensures empty { (result ≡ reply.Empty) ↔ (held_in (view s.old) var ≡ None) }
    ensures pending { (result ≡ reply.Pending) ↔ ((held_in (view s.old) var ≢ None) × IsSome (ticket_in (view s.old))) }
{
    match s.held(var) {
        None => Reply::Empty,
        Some(object) => match s.ticket() {
            Some(_) => Reply::Pending,
            None => fill_new::<Brand>(shared, s, object, tag, value, Blank::new(1)),
        },
    }
}

/// Takes a trusted index, fills it, and binds the trusted field of an object that a variable holds to it.
fn fill_new<L: Ledger>(
    shared: &Shared,
    s: &mut Session,
    object: u32,
    tag: Tag,
    value: u64,
    blank: Blank,
) -> Reply
    requires caller { IsOf shared.now s.old }
    requires held { IsHeld (view s.old) object }
    requires small { value < 2 ^ 48 }
    requires none { ticket_in (view s.old) ≡ None }
    requires name { blank.name ≡ L.name }
    requires parts { blank.parts ≡ L.parts }
    requires one { blank.parts ≡ 1 }
    ensures caller { IsOf shared.now s.new }
    ensures fills { FillsNew (view s.old) object tag value result (view s.new) }
    ensures answer { IsFillAtEvent (view s.new) object result }
    ensures leaves { LeavesAllButTicket (view s.old) (view s.new) }
    ensures ticket { HasTicketAfter (view s.old) tag value result (view s.new) }
    ensures some { (result ≢ reply.Empty) × (result ≢ reply.Pending) }
{
    let mut steps = Steps::<L>::start(blank);
    match take(shared, s, Space::Trusted, &mut steps) {
        Taken::At(ticket) => bind_new(shared, s, object, ticket, tag, value),
        Taken::Full => Reply::Full,
        Taken::NoRoom => Reply::Full,
    }
}

/// Fills a trusted index that the caller's own number took, and binds the trusted field of an object that a variable holds to it.
fn bind_new(
    shared: &Shared,
    s: &mut Session,
    object: u32,
    ticket: Ticket,
    tag: Tag,
    value: u64,
) -> Reply
    requires caller { IsOf shared.now s.old }
    requires held { IsHeld (view s.old) object }
    requires small { value < 2 ^ 48 }
    requires owed { Has (view s.old).owed (claim_of (view s.old) Trusted ticket.index) }
    requires inside { ticket.index < limit_in (sizes_in (view s.old).opening) Trusted }
    ensures caller { IsOf shared.now s.new }
    ensures binds { BindsNew (view s.old) object ticket.index tag value result (view s.new) }
    ensures answer { IsBoundAtEvent (view s.new) object result }
{
    let index = ticket.index();
    put_trusted(shared, s, index, tag.byte(), value);
    let found = bind_trusted(shared, s, object, word_of(index), tag.byte(), value);
    if found == 0 {
        Reply::Ok
    } else {
        Reply::Taken(found as u32)
    }
}
