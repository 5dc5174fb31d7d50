// The publishing of a trusted entry.
ghost use Rattle.std.specs.Prelude.{◌≡◌, ◌≢◌, ◌↔◌, ◌<◌, ℕ, None, Some, IfSome};
ghost use Rattle.plain_table.specs.declared.reports.Reply.TheVariants as reply;
ghost use Rattle.plain_table.specs.declared.scripts.Op.TheVariants as op;
ghost use Rattle.plain_table.specs.Index.{index_of};
ghost use Rattle.entry_base.specs.Sessions.{view, held_in, pending_in, ticket_in, IsOf};
ghost use Rattle.call_base.specs.Called.{Made};
ghost use Rattle.trusted_steps.specs.Causes.{HeldWord, IsPublishReply};
ghost use Rattle.trusted_steps.specs.Fills.{GivesTicketUp, LeavesAllButTicket};

use entry_base::{Session, Shared};
use entry_rule::publish_step;
use entry_word::{Pending, index_of};
use object_rule::name_trusted;
use plain_table::Reply;

/// Publishes the trusted entry that the trusted field of the object of a variable, below 16, names, so that looks can see it. It
/// answers Empty exactly where the variable holds nothing; else NotYours exactly where the index that the field names isn't the
/// mutator's ticket; else Ok, and the ticket is given up.
pub fn publish(shared: &Shared, s: &mut Session, var: u32) -> Reply
    requires caller { IsOf shared.now s.old }
    requires range { var < 16 }
    ensures caller { IsOf shared.now s.new }
    ensures made { Made (view s.old) (op.TPub var) result (view s.new) }
    ensures answer { IfSome (held_in (view s.old) var) (λ object. (word : ℕ) × HeldWord (view s.old) object word (view s.new) × IsPublishReply (view s.old) word result) }
    ensures leaves { LeavesAllButTicket (view s.old) (view s.new) }
    ensures ticket { GivesTicketUp (view s.old) result (view s.new) }
    ensures empty { (result ≡ reply.Empty) ↔ (held_in (view s.old) var ≡ None) }
{
    match s.held(var) {
        None => Reply::Empty,
        Some(object) => {
            let word = name_trusted(shared, s, object) as u32;
            match own_cell(s, word) {
                None => Reply::NotYours,
                Some(cell) => {
                    publish_step(shared, s, cell.index, cell.tag, cell.value);
                    Reply::Ok
                }
            }
        }
    }
}

/// The cell that the mutator may publish, where a word names its index.
fn own_cell(s: &Session, word: u32) -> Option<Pending>
    ensures own { IfSome result (λ cell. (pending_in (view s.now) ≡ Some cell) × (cell.index ≡ index_of word)) }
    ensures not_own { result ≡ None → ticket_in (view s.now) ≢ Some (index_of word) }
{
    match s.pending() {
        None => None,
        Some(cell) => {
            if cell.index == index_of(word) {
                Some(cell)
            } else {
                None
            }
        }
    }
}
