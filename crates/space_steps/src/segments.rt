// The commit of a segment.
ghost use Rattle.std.specs.Prelude.{◌≡◌, ◌+◌, ◌*◌, ◌%◌, ◌^◌, ◌<◌, ◌≤◌, ℕ, []};
ghost use Rattle.plain_table.specs.Table.{limit_in};
ghost use Rattle.entry_base.specs.declared.view.Fact.TheVariants as fact;
ghost use Rattle.entry_base.specs.Lists.{Has};
ghost use Rattle.entry_base.specs.Openings.{sizes_in};
ghost use Rattle.entry_base.specs.Sessions.{view, IsOf};
ghost use Rattle.freelist_rule.specs.Segments.{IsLinkedFrom};
ghost use Rattle.call_base.specs.Called.{Called, LeavesOwn};
ghost use Rattle.space_steps.specs.Segments.{HasRisen, IsCommitted};

use entry_base::{Session, Shared};
use freelist_rule::{commit_step, link_entry, load_freelist};
use plain_table::Space;

/// The first bit of the length in a freelist word, whose low half is the head.
const LENGTH: u64 = 1 << 32;

/// Links and commits the next segment of a space where the freelist is empty and a segment is left. This is no event.
pub fn commit_segment(shared: &Shared, s: &mut Session, space: Space)
    requires caller { IsOf shared.now s.old }
    ensures caller { IsOf shared.now s.new }
    ensures called { Called (view s.old) [] (view s.new) }
    ensures leaves { LeavesOwn (view s.old) (view s.new) }
    ensures committed { IsCommitted (view s.old) space (view s.new) }
{
    let word = load_freelist(shared, s, space);
    if word / LENGTH == 0 && word < shared.limit(space) as u64 {
        commit_at(shared, s, space, word as u32);
    }
}

/// Links and commits the segment at the head of an empty freelist word that was loaded. The freelist word has risen after it.
pub(crate) fn commit_at(shared: &Shared, s: &mut Session, space: Space, head: u32)
    requires caller { IsOf shared.now s.old }
    requires loaded { (takes : ℕ) × Has (view s.old).facts (fact.Freelist space head takes) }
    requires inside { head < limit_in (sizes_in (view s.old).opening) space }
    requires whole { head + (sizes_in (view s.old).opening).seg ≤ limit_in (sizes_in (view s.old).opening) space }
    ensures caller { IsOf shared.now s.new }
    ensures called { Called (view s.old) [] (view s.new) }
    ensures leaves { LeavesOwn (view s.old) (view s.new) }
    ensures risen { HasRisen space head (view s.new) }
{
    link_segment(shared, s, space, head);
    commit_step(shared, s, space, head);
}

/// Links each entry of the segment from an index on.
fn link_segment(shared: &Shared, s: &mut Session, space: Space, head: u32)
    requires caller { IsOf shared.now s.old }
    requires inside { head + (sizes_in (view s.old).opening).seg ≤ limit_in (sizes_in (view s.old).opening) space }
    ensures caller { IsOf shared.now s.new }
    ensures called { Called (view s.old) [] (view s.new) }
    ensures leaves { LeavesOwn (view s.old) (view s.new) }
    ensures linked { IsLinkedFrom (view s.new) space head }
{
    for index in head..head + shared.seg {
        link_entry(shared, s, space, index);
    }
}
