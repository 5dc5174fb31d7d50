// Callers of the steps on freelists and entries.
ghost use Rattle.std.specs.Prelude.{◌≡◌, ◌≢◌, ◌*◌, ◌^◌, ◌<◌, ◌≤◌, ◌+◌, None, Some, IfSome, IsTrue};
ghost use Rattle.plain_table.specs.declared.events.Field.TheVariants as field;
ghost use Rattle.plain_table.specs.declared.events.Space.TheVariants.{External};
ghost use Rattle.plain_table.specs.Places.{object_of};
ghost use Rattle.plain_table.specs.Rows.{IsTag};
ghost use Rattle.plain_table.specs.Table.{limit_in};
ghost use Rattle.entry_base.specs.declared.view.Fact.TheVariants as fact;
ghost use Rattle.entry_base.specs.Callers.{SameCaller};
ghost use Rattle.entry_base.specs.Lists.{Has};
ghost use Rattle.entry_base.specs.Openings.{sizes_in, start_of};
ghost use Rattle.entry_base.specs.Owns.{claim_of, IsHeld};
ghost use Rattle.entry_base.specs.Sessions.{view, IsOf};
ghost use Rattle.freelist_rule.specs.Segments.{IsLinkedFrom};

use entry_base::{Session, Shared};
use entry_rule::{abort_step, put_external};
use freelist_rule::{
    Steps, commit_step, link_entry, load_freelist, load_freelist_for_below, load_link, take_step,
};
use object_rule::bind_external;
use plain_table::Space;
use std::sync::ledger::Ledger;

/// Tries once to take an external index of a table without an area, and fills it: tag from 1 on, value below 2^48. The answer is the
/// index, whose cell the caller may bind; none where the list is empty, or the try missed.
pub fn take_and_put<L: Ledger>(
    shared: &Shared,
    s: &mut Session,
    tag: u8,
    value: u64,
    steps: &mut Steps<L>,
) -> Option<u32>
    requires caller { IsOf shared.now s.old }
    requires no_area { start_of (view s.old).opening ≡ None }
    requires tagged { IsTag tag × (value < 2 ^ 48) }
    ensures caller { IsOf shared.now s.new }
    ensures same { SameCaller (view s.old) (view s.new) }
    ensures vars { (view s.new).vars ≡ (view s.old).vars }
    ensures filled { IfSome result (λ index. (index < 65536) × Has (view s.new).fresh (claim_of (view s.new) External index)) }
{
    let word = load_freelist(shared, s, Space::External);
    if word / 4294967296 == 0 {
        return None;
    }
    let entry = load_link(shared, s, Space::External, word);
    let next = (entry % 4294967296) as u32;
    match take_step(shared, s, Space::External, word, next, steps) {
        Ok(index) => {
            put_external(shared, s, index, tag, value);
            Some(index)
        }
        Err(_) => None,
    }
}

/// Takes and fills an external index, and binds it to an external field, by its number, of an object that a variable holds. True
/// where the field was 0 and has the word now.
pub fn bind_new<L: Ledger>(
    shared: &Shared,
    s: &mut Session,
    number: u32,
    tag: u8,
    value: u64,
    steps: &mut Steps<L>,
) -> bool
    requires caller { IsOf shared.now s.old }
    requires mutator { (view s.old).number < 8 }
    requires held { IsHeld (view s.old) (object_of (field.External number)) }
    requires no_area { start_of (view s.old).opening ≡ None }
    requires tagged { IsTag tag × (value < 2 ^ 48) }
    ensures caller { IsOf shared.now s.new }
{
    match take_and_put(shared, s, tag, value, steps) {
        Some(index) => bind_external(shared, s, number, 65536 * index) == 0,
        None => false,
    }
}

/// Commits the next segment of a space where its list is empty and a segment is left. True where this session's exchange did it.
pub fn commit_next(shared: &Shared, s: &mut Session, space: Space) -> bool
    requires caller { IsOf shared.now s.old }
    ensures caller { IsOf shared.now s.new }
{
    let word = load_freelist(shared, s, space);
    if word / 4294967296 != 0 || word >= shared.limit(space) as u64 {
        return false;
    }
    let head = word as u32;
    link_segment(shared, s, space, head);
    commit_step(shared, s, space, head) == word
}

/// Links each entry of the segment from an index on.
fn link_segment(shared: &Shared, s: &mut Session, space: Space, head: u32)
    requires caller { IsOf shared.now s.old }
    requires inside { head + (sizes_in (view s.old).opening).seg ≤ limit_in (sizes_in (view s.old).opening) space }
    ensures caller { IsOf shared.now s.new }
    ensures same { SameCaller (view s.old) (view s.new) }
    ensures linked { IsLinkedFrom (view s.new) space head }
{
    for index in head..head + shared.seg {
        link_entry(shared, s, space, index);
    }
}

/// Aborts the compaction of the cycle, whose area begins at `start`, where no index below the start is free. True where it did.
pub fn abort_full(shared: &Shared, s: &mut Session, start: u32) -> bool
    requires caller { IsOf shared.now s.old }
    requires area { start_of (view s.old).opening ≡ Some start }
    ensures caller { IsOf shared.now s.new }
{
    let word = load_freelist_for_below(shared, s, start);
    let full = word / 4294967296 == 0 || start as u64 <= word % 4294967296;
    if full {
        abort_step(shared, s, start);
    }
    full
}
