// A segment that two sessions link at once, and one of them commits.
ghost use Rattle.std.specs.Prelude.{◌≡◌, ◌+◌, ◌<◌, ℕ};
ghost use Rattle.plain_table.specs.declared.events.Space.TheVariants.{External};
ghost use Rattle.entry_base.specs.declared.view.Fact.TheVariants as fact;
ghost use Rattle.entry_base.specs.Callers.{SameCaller};
ghost use Rattle.entry_base.specs.Lists.{Has};
ghost use Rattle.entry_base.specs.Sessions.{view, IsOf};

use crate::asserts::{assert_is, assert_words};
use entry_base::{Session, Shared};
use freelist_rule::{Steps, commit_step, link_entry, load_freelist};
use plain_table::{OutOfMemory, Space};
use std::alloc::Global;
use std::marker::Brand;
use std::process::Abort;
use std::sync::ledger::{Blank, Ledger};
use worked_tables::{SHAPE, close_both, commit_linked, link_two, open_fresh, take_three};

/// Both sessions link the segment and commit it. The second one comes first.
fn commit_twice(rt: &impl Abort, shared: &Shared, first: &mut Session, second: &mut Session)
    requires callers { IsOf shared.now first.old × IsOf shared.now second.old }
    requires seg { ((view first.old).opening.shape.seg ≡ 4) × ((view second.old).opening.shape.seg ≡ 4) }
    requires ext { ((view first.old).opening.shape.ext ≡ 2) × ((view second.old).opening.shape.ext ≡ 2) }
    ensures callers { IsOf shared.now first.new × IsOf shared.now second.new }
    ensures same { SameCaller (view first.old) (view first.new) × SameCaller (view second.old) (view second.new) }
{
    let empty = load_freelist(shared, first, Space::External);
    assert_is(rt, empty, 4);
    let empty = load_freelist(shared, second, Space::External);
    assert_is(rt, empty, 4);
    link_two(shared, first, 4);
    link_two(shared, second, 4);
    link_two(shared, second, 6);
    let won = commit_linked(shared, second);
    link_two(shared, first, 6);
    let lost = commit_linked(shared, first);
    assert_is(rt, (won, lost), (4, 0x4_0000_0004));
}

fn link_and_commit<L: Ledger>(
    rt: &impl Abort,
    alloc: Global,
    blank: Blank,
) -> Result<(), OutOfMemory>
    requires name { blank.name ≡ L.name }
    requires parts { blank.parts ≡ L.parts }
    requires one { blank.parts ≡ 1 }
{
    let (shared, mut first) = open_fresh(alloc, SHAPE)?;
    let mut second = first.split(&shared, 0, &[]);
    let mut steps = Steps::<L>::start(blank);
    let last = take_three(&shared, &mut first, &mut steps);
    assert_is(rt, last, Some(3));
    commit_twice(rt, &shared, &mut first, &mut second);
    let image = close_both(shared, first, second);
    assert_words(
        rt,
        &image,
        &[
            (0, 0x4_0000_0004),
            (69, 0x0100_0000_0000_0006),
            (70, 0x0100_0000_0000_0007),
        ],
    );
    Ok(())
}

#[test]
fn a_segment_is_linked_by_two_and_committed_once(rt: HostRuntime) -> Result<(), OutOfMemory> {
    link_and_commit::<Brand>(&rt, rt.alloc(), Blank::new(1))
}
