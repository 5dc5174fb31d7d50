// Marks of cells in a cycle: a marker and a mutator try to mark the same cell, which the mutator then shares.
ghost use Rattle.std.specs.Prelude.{◌≡◌, ◌<◌};
ghost use Rattle.plain_table.specs.declared.events.Act.TheVariants as act;
ghost use Rattle.plain_table.specs.declared.events.Field.TheVariants as field;
ghost use Rattle.plain_table.specs.declared.events.Space.TheVariants.{Trusted};
ghost use Rattle.plain_table.specs.declared.reports.Reply.TheVariants as reply;
ghost use Rattle.entry_base.specs.declared.view.Fact.TheVariants as fact;
ghost use Rattle.entry_base.specs.Callers.{SameCaller, Extends, event_of};
ghost use Rattle.entry_base.specs.Lists.{Has};
ghost use Rattle.entry_base.specs.Openings.{phase_of};
ghost use Rattle.entry_base.specs.Sessions.{view, IsOf};
ghost use Rattle.mark_rule.specs.Marking.{InHands};

use crate::asserts::{assert_is, assert_words};
use crate::cycles::{image_to_mark, open_with_roots};
use entry_base::{Session, Shared};
use mark_rule::{load_mark, load_word, mark_step};
use object_rule::{bind_shared, get_reference, name_trusted};
use plain_table::{OutOfMemory, Space};
use std::alloc::Global;
use std::marker::Brand;
use std::process::Abort;
use std::sync::ledger::{Blank, Ledger};
use worked_tables::{SHAPE, close_three};

/// The word of the trusted cell at index 1, unmarked.
pub(crate) const UNMARKED: u64 = 0x000f_0000_0000_00d0;

pub(crate) const MARKED: u64 = 0x400f_0000_0000_00d0;

/// A marker loads the trusted field of object 0, which is in its hands, and the entry that it names, which is not marked.
pub(crate) fn find_in_hands(rt: &impl Abort, shared: &Shared, s: &mut Session)
    requires caller { IsOf shared.now s.old }
    requires hands { InHands (view s.old) 0 }
    requires shape { (view s.old).opening.shape ≡ SHAPE }
    ensures caller { IsOf shared.now s.new }
    ensures same { SameCaller (view s.old) (view s.new) }
    ensures touched { Has (view s.new).facts (fact.Touched (field.Trusted 0) 65536) }
    ensures entry { Has (view s.new).facts (fact.Entry Trusted 1 UNMARKED) }
{
    let word = load_word(shared, s, 0, 2);
    assert_is(rt, word, 0x1_0000);
    let entry = load_mark(shared, s, Space::Trusted, 0, 2, 0x1_0000);
    assert_is(rt, entry, UNMARKED);
}

/// A mutator names the trusted field of object 0, which variable 0 holds, and loads the entry that it names, which is not marked.
pub(crate) fn find_held(rt: &impl Abort, shared: &Shared, s: &mut Session)
    requires caller { IsOf shared.now s.old }
    requires mutator { (view s.old).number < 8 }
    requires shape { (view s.old).opening.shape ≡ SHAPE }
    requires in_cycle { phase_of (view s.old).opening ≡ 1 }
    ensures caller { IsOf shared.now s.new }
    ensures same { SameCaller (view s.old) (view s.new) }
    ensures settled { Has (view s.new).facts (fact.Settled 1) }
    ensures touched { Has (view s.new).facts (fact.Touched (field.Trusted 0) 65536) }
    ensures entry { Has (view s.new).facts (fact.Entry Trusted 1 UNMARKED) }
{
    assert_is(rt, s.held(0), Some(0));
    let word = name_trusted(shared, s, 0);
    assert_is(rt, word, 0x1_0000);
    let entry = load_mark(shared, s, Space::Trusted, 0, 2, 0x1_0000);
    assert_is(rt, entry, UNMARKED);
}

/// Tries to mark the entry that was found. The answer is the word that the exchange finds.
pub(crate) fn mark_found(shared: &Shared, s: &mut Session) -> u64
    requires caller { IsOf shared.now s.old }
    requires shape { (view s.old).opening.shape ≡ SHAPE }
    requires touched { Has (view s.old).facts (fact.Touched (field.Trusted 0) 65536) }
    requires entry { Has (view s.old).facts (fact.Entry Trusted 1 UNMARKED) }
    ensures caller { IsOf shared.now s.new }
    ensures same { SameCaller (view s.old) (view s.new) }
    ensures marked { Has (view s.new).facts (fact.Marked Trusted 1) }
{
    mark_step(shared, s, Space::Trusted, 0, 2, 0x1_0000, UNMARKED)
}

/// A marker and a mutator find the same unmarked cell, and both mark it: the marker comes first.
fn mark_twice(rt: &impl Abort, shared: &Shared, marker: &mut Session, mutator: &mut Session)
    requires callers { IsOf shared.now marker.old × IsOf shared.now mutator.old }
    requires hands { InHands (view marker.old) 0 }
    requires mutator { (view mutator.old).number < 8 }
    requires shapes { ((view marker.old).opening.shape ≡ SHAPE) × ((view mutator.old).opening.shape ≡ SHAPE) }
    requires in_cycle { phase_of (view mutator.old).opening ≡ 1 }
    ensures callers { IsOf shared.now marker.new × IsOf shared.now mutator.new }
    ensures same { SameCaller (view marker.old) (view marker.new) × SameCaller (view mutator.old) (view mutator.new) }
    ensures touched { Has (view marker.new).facts (fact.Touched (field.Trusted 0) 65536) }
    ensures marked { Has (view mutator.new).facts (fact.Marked Trusted 1) }
    ensures settled { Has (view mutator.new).facts (fact.Settled 1) }
{
    find_in_hands(rt, shared, marker);
    find_held(rt, shared, mutator);
    let won = mark_found(shared, marker);
    let found = mark_found(shared, mutator);
    assert_is(rt, won, UNMARKED);
    assert_is(rt, found, MARKED);
}

/// Loads the entry at index 1 for a mark once more, which is marked now.
fn find_marked(rt: &impl Abort, shared: &Shared, s: &mut Session)
    requires caller { IsOf shared.now s.old }
    requires shape { (view s.old).opening.shape ≡ SHAPE }
    requires touched { Has (view s.old).facts (fact.Touched (field.Trusted 0) 65536) }
    ensures caller { IsOf shared.now s.new }
    ensures same { SameCaller (view s.old) (view s.new) }
    ensures marked { Extends (view s.old) (event_of (view s.old) (act.Mark Trusted 1) reply.Ok) (view s.new) }
{
    let entry = load_mark(shared, s, Space::Trusted, 0, 2, 0x1_0000);
    assert_is(rt, entry, MARKED);
}

/// Shares the marked cell with object 1, which reference 0 of object 0 has: the first of two tries wins.
fn share_marked(rt: &impl Abort, shared: &Shared, s: &mut Session)
    requires caller { IsOf shared.now s.old }
    requires mutator { (view s.old).number < 8 }
    requires marked { Has (view s.old).facts (fact.Marked Trusted 1) }
    requires settled { Has (view s.old).facts (fact.Settled 1) }
    ensures caller { IsOf shared.now s.new }
    ensures same { SameCaller (view s.old) (view s.new) }
{
    assert_is(rt, s.held(0), Some(0));
    let got = get_reference(shared, s, 1, 0, 0);
    assert_is(rt, got, 2);
    assert_is(rt, s.held(1), Some(1));
    let won = bind_shared(shared, s, 1, 0x1_0000);
    let taken = bind_shared(shared, s, 1, 0x1_0000);
    assert_is(rt, won, 0);
    assert_is(rt, taken, 0x1_0000);
}

fn mark_and_share<L: Ledger>(
    rt: &impl Abort,
    alloc: Global,
    blank: Blank,
) -> Result<(), OutOfMemory>
    requires name { blank.name ≡ L.name }
    requires parts { blank.parts ≡ L.parts }
    requires one { blank.parts ≡ 1 }
{
    let image = image_to_mark::<L>(rt, alloc, blank)?;
    assert_words(rt, &image, &[(73, UNMARKED), (47, 0)]);
    let (shared, mut first, roots) = open_with_roots(alloc, image)?;
    assert!(rt; roots.as_slice() == [0].as_slice());
    let mut mutator = first.split(&shared, 0, &[]);
    let mut marker = first.split(&shared, 8, roots.as_slice());
    assert_is(rt, mutator.in_cycle(), true);
    mark_twice(rt, &shared, &mut marker, &mut mutator);
    find_marked(rt, &shared, &mut marker);
    share_marked(rt, &shared, &mut mutator);
    let after = close_three(shared, first, mutator, marker);
    assert_words(rt, &after, &[(73, MARKED), (47, 0x1_0000)]);
    Ok(())
}

#[test]
fn of_a_marker_and_a_mutator_one_marks_the_cell_which_is_shared_then(
    rt: HostRuntime,
) -> Result<(), OutOfMemory> {
    mark_and_share::<Brand>(&rt, rt.alloc(), Blank::new(1))
}
