// The calls by any word of the external space: loads and stores.
ghost use Rattle.std.specs.Prelude.{◌≡◌, ◌≢◌, ◌^◌, ◌<◌};
ghost use Rattle.plain_table.specs.declared.events.Act.TheVariants as act;
ghost use Rattle.plain_table.specs.declared.events.Space.TheVariants.{External};
ghost use Rattle.plain_table.specs.declared.reports.Reply.TheVariants as reply;
ghost use Rattle.plain_table.specs.declared.scripts.Op.TheVariants as op;
ghost use Rattle.entry_base.specs.Sessions.{view, IsOf};
ghost use Rattle.call_base.specs.Called.{LeavesOwn, Made};
ghost use Rattle.access_steps.specs.Accesses.{IsLookAtEvent, IsStoreAtEvent, IsSwapAtEvent, Writes};

use crate::looks::{Looked, look, reply_of};
use entry_base::{Session, Shared};
use entry_rule::{exchange_step, store_step};
use plain_table::{Reply, Space};
use tag_set::Range;

/// Loads by any word of the external space: the value of the cell at its index, whose tag is in the range; Null exactly where the
/// index is 0, and Fault where no such cell stands there.
pub fn raw_load(shared: &Shared, s: &mut Session, word: u32, range: Range) -> Reply
    requires caller { IsOf shared.now s.old }
    ensures caller { IsOf shared.now s.new }
    ensures made { Made (view s.old) (op.Raw word range.first range.last) result (view s.new) }
    ensures answer { IsLookAtEvent (view s.new) External word range.first range.last result }
    ensures leaves { LeavesOwn (view s.old) (view s.new) }
    ensures some { result ≢ reply.Empty }
{
    reply_of(look(shared, s, Space::External, word, range))
}

/// Stores a value below 2^48 by any word of the external space, where a look at it finds a value, and else answers as the look
/// does. The cell keeps its tag.
pub fn raw_store(shared: &Shared, s: &mut Session, word: u32, range: Range, value: u64) -> Reply
    requires caller { IsOf shared.now s.old }
    requires small { value < 2 ^ 48 }
    ensures caller { IsOf shared.now s.new }
    ensures made { Made (view s.old) (op.RawSet word range.first range.last value) result (view s.new) }
    ensures answer { IsStoreAtEvent (view s.new) word range.first range.last result }
    ensures leaves { LeavesOwn (view s.old) (view s.new) }
    ensures some { result ≢ reply.Empty }
{
    store_at(shared, s, word, range, value)
}

/// A look at a word of the external space, and where it finds a value, a store of another one. It answers Ok exactly there.
pub(crate) fn store_at(
    shared: &Shared,
    s: &mut Session,
    word: u32,
    range: Range,
    value: u64,
) -> Reply
    requires caller { IsOf shared.now s.old }
    requires small { value < 2 ^ 48 }
    ensures caller { IsOf shared.now s.new }
    ensures writes { Writes (view s.old) word range.first range.last (act.Set word range.first range.last value) result (view s.new) }
    ensures answer { IsStoreAtEvent (view s.new) word range.first range.last result }
    ensures leaves { LeavesOwn (view s.old) (view s.new) }
    ensures some { result ≢ reply.Empty }
{
    match look(shared, s, Space::External, word, range) {
        Looked::Null => Reply::Null,
        Looked::Fault => Reply::Fault,
        Looked::Found { tag, value: _ } => {
            let first = range.first().byte();
            let last = range.last().byte();
            store_step(shared, s, word, first, last, tag, value);
            Reply::Ok
        }
    }
}

/// A look at a word of the external space, and where it finds a value, an exchange of the value for another one. It then answers
/// the value that the exchange found.
pub(crate) fn swap_at(
    shared: &Shared,
    s: &mut Session,
    word: u32,
    range: Range,
    value: u64,
) -> Reply
    requires caller { IsOf shared.now s.old }
    requires small { value < 2 ^ 48 }
    ensures caller { IsOf shared.now s.new }
    ensures writes { Writes (view s.old) word range.first range.last (act.Swap word range.first range.last value) result (view s.new) }
    ensures answer { IsSwapAtEvent (view s.new) word range.first range.last result }
    ensures leaves { LeavesOwn (view s.old) (view s.new) }
    ensures some { result ≢ reply.Empty }
{
    match look(shared, s, Space::External, word, range) {
        Looked::Null => Reply::Null,
        Looked::Fault => Reply::Fault,
        Looked::Found { tag, value: _ } => {
            let first = range.first().byte();
            let last = range.last().byte();
            let entry = exchange_step(shared, s, word, first, last, tag, value);
            Reply::Value(entry % (1 << 48))
        }
    }
}
