// Steps that commit a segment.
ghost use Rattle.std.specs.Prelude.{◌↔◌, ◌+◌, ◌*◌, ◌<◌, ℕ};
ghost use Rattle.plain_table.specs.Table.{limit_in};
ghost use Rattle.plain_table.specs.Words.{freelist_place};
ghost use Rattle.entry_base.specs.declared.view.Fact.TheVariants as fact;
ghost use Rattle.entry_base.specs.declared.view.View.{View as Known};
ghost use Rattle.entry_base.specs.Lists.{Has};
ghost use Rattle.entry_base.specs.Openings.{sizes_in};
ghost use Rattle.entry_base.specs.Sessions.{view, IsOf};
ghost use Rattle.freelist_rule.specs.Segments.{LinkedEntry, IsLinkedFrom, Committed};

use entry_base::{Learning, Learns, Session, Shared, freelist_place};
use plain_table::Space;
use std::marker::Brand;

/// The word of an entry with no access, and the bit of a free entry.
const NO_ACCESS: u64 = 1 << 57;

const FREE: u64 = 1 << 56;

fn link_entry_as<N: Learning>(shared: &Shared, s: &mut Session, space: Space, index: u32) -> u64
    requires caller { IsOf shared.now s.old }
    requires inside { index < limit_in (sizes_in (view s.old).opening) space }
    requires picked { (found : ℕ) (v w : Known) → N.learns found v w ↔ LinkedEntry v space index w }
    ensures caller { IsOf shared.now s.new }
    ensures learned { LinkedEntry (view s.old) space index (view s.new) }
{
    shared.table.shared.compare_exchange::<Learns<N>>(
        &mut s.seat,
        shared.entry_place(space, index),
        NO_ACCESS,
        FREE + index as u64 + 1,
    )
}

/// Links an entry of a segment that is not committed: exchanges no access for the free entry that links the next index. Either
/// way the entry can be used after it.
pub fn link_entry(shared: &Shared, s: &mut Session, space: Space, index: u32)
    requires caller { IsOf shared.now s.old }
    requires inside { index < limit_in (sizes_in (view s.old).opening) space }
    ensures caller { IsOf shared.now s.new }
    ensures learned { LinkedEntry (view s.old) space index (view s.new) }
{
    link_entry_as::<Brand>(shared, s, space, index);
}

fn commit_step_as<N: Learning>(shared: &Shared, s: &mut Session, space: Space, head: u32) -> u64
    requires caller { IsOf shared.now s.old }
    requires loaded { (takes : ℕ) × Has (view s.old).facts (fact.Freelist space head takes) }
    requires below { head < limit_in (sizes_in (view s.old).opening) space }
    requires linked { IsLinkedFrom (view s.old) space head }
    requires picked { (found : ℕ) (v w : Known) → N.learns found v w ↔ Committed v space head found w }
    ensures caller { IsOf shared.now s.new }
    ensures learned { Committed (view s.old) space head result (view s.new) }
{
    shared.table.shared.compare_exchange::<Learns<N>>(
        &mut s.seat,
        freelist_place(space),
        head as u64,
        head as u64 + 4294967296 * shared.seg as u64,
    )
}

/// Commits the segment at the head of an empty freelist word that was loaded, all of whose entries were linked. The answer is
/// the word that was found.
pub fn commit_step(shared: &Shared, s: &mut Session, space: Space, head: u32) -> u64
    requires caller { IsOf shared.now s.old }
    requires loaded { (takes : ℕ) × Has (view s.old).facts (fact.Freelist space head takes) }
    requires below { head < limit_in (sizes_in (view s.old).opening) space }
    requires linked { IsLinkedFrom (view s.old) space head }
    ensures caller { IsOf shared.now s.new }
    ensures learned { Committed (view s.old) space head result (view s.new) }
{
    commit_step_as::<Brand>(shared, s, space, head)
}
