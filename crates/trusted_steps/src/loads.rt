// Loads by trusted fields and by words of the trusted space.
ghost use Rattle.std.specs.Prelude.{◌≡◌, ◌≢◌, ◌↔◌, ◌<◌, ℕ, None, IfSome};
ghost use Rattle.plain_table.specs.declared.events.Space.TheVariants.{Trusted};
ghost use Rattle.plain_table.specs.declared.reports.Reply.TheVariants as reply;
ghost use Rattle.plain_table.specs.declared.scripts.Op.TheVariants as op;
ghost use Rattle.entry_base.specs.Sessions.{view, held_in, IsOf};
ghost use Rattle.call_base.specs.Called.{LeavesOwn, Made};
ghost use Rattle.access_steps.specs.Accesses.{IsLookAtEvent};
ghost use Rattle.trusted_steps.specs.Causes.{HeldWord};

use access_steps::{look, reply_of};
use entry_base::{Session, Shared};
use object_rule::name_trusted;
use plain_table::{Reply, Space};
use tag_set::Range;

/// Loads by any word of the trusted space: the value of the cell at its index that can be seen and whose tag is in the range; Null
/// exactly where the index is 0, and Fault where no such cell stands there.
pub fn traw(shared: &Shared, s: &mut Session, word: u32, range: Range) -> Reply
    requires caller { IsOf shared.now s.old }
    ensures caller { IsOf shared.now s.new }
    ensures made { Made (view s.old) (op.TRaw word range.first range.last) result (view s.new) }
    ensures answer { IsLookAtEvent (view s.new) Trusted word range.first range.last result }
    ensures leaves { LeavesOwn (view s.old) (view s.new) }
    ensures some { result ≢ reply.Empty }
{
    reply_of(look(shared, s, Space::Trusted, word, range))
}

/// Loads by the trusted field of the object that a variable, below 16, holds: what a look at the field's word answers under a range
/// of tags, a value, Null or a fault; or Empty exactly where the variable holds nothing.
pub fn tload(shared: &Shared, s: &mut Session, var: u32, range: Range) -> Reply
    requires caller { IsOf shared.now s.old }
    requires range { var < 16 }
    ensures caller { IsOf shared.now s.new }
    ensures made { Made (view s.old) (op.TLoad var range.first range.last) result (view s.new) }
    ensures answer { IfSome (held_in (view s.old) var) (λ object. (word : ℕ) × HeldWord (view s.old) object word (view s.new) × IsLookAtEvent (view s.new) Trusted word range.first range.last result) }
    ensures leaves { LeavesOwn (view s.old) (view s.new) }
    ensures empty { (result ≡ reply.Empty) ↔ (held_in (view s.old) var ≡ None) }
{
    match s.held(var) {
        None => Reply::Empty,
        Some(object) => {
            let word = name_trusted(shared, s, object) as u32;
            reply_of(look(shared, s, Space::Trusted, word, range))
        }
    }
}
