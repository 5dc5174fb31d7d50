// Limits on one thread: a word past the limit is no access, a spent space and a full heap give nothing, and a try with an old count
// misses.
ghost use Rattle.std.specs.Prelude.{◌≡◌, ◌≢◌, ◌+◌, ◌%◌, ◌^◌, ◌<◌, ◌≤◌, None, Some, [], ◌∷◌};
ghost use Rattle.plain_table.specs.declared.events.Act.TheVariants as act;
ghost use Rattle.plain_table.specs.declared.events.Space.TheVariants.{External, Trusted};
ghost use Rattle.plain_table.specs.declared.reports.Reply.TheVariants as reply;
ghost use Rattle.plain_table.specs.Table.{limit_in};
ghost use Rattle.entry_base.specs.declared.view.View.{View};
ghost use Rattle.entry_base.specs.Callers.{SameCaller, Extends, event_of};
ghost use Rattle.entry_base.specs.Learned.{Answered};
ghost use Rattle.entry_base.specs.Openings.{phase_of, sizes_in, start_of};
ghost use Rattle.entry_base.specs.Owns.{IsHeld};
ghost use Rattle.entry_base.specs.Sessions.{view, IsOf};

use crate::asserts::assert_is;
use entry_base::{Session, Shared};
use entry_rule::{look_beyond, look_step};
use entry_word::{Image, Shape};
use freelist_rule::{Steps, load_freelist_for_take};
use object_rule::{load_count_for_new, new_step};
use plain_table::{OutOfMemory, Space};
use std::alloc::Global;
use std::marker::Brand;
use std::process::Abort;
use std::sync::ledger::{Blank, Ledger};
use worked_tables::{SHAPE, close_both, close_whole, make_next, open_fresh, take_head, take_two};

/// Looks at the first index past the limit of each space, and at the last word: three faults.
fn look_past(shared: &Shared, s: &mut Session)
    requires caller { IsOf shared.now s.old }
    requires shape { (view s.old).opening.shape ≡ SHAPE }
    ensures caller { IsOf shared.now s.new }
    ensures same { SameCaller (view s.old) (view s.new) }
    ensures last { (v : View) × Answered v (event_of v (act.Look Trusted 4294967295 1 255) reply.Fault) (view s.new) }
{
    look_beyond(shared, s, Space::External, 0x8_0000, 1, 255);
    look_beyond(shared, s, Space::Trusted, 0x4_0000, 1, 255);
    look_beyond(shared, s, Space::Trusted, 0xffff_ffff, 1, 255);
}

/// Looks at a word of index 0, whatever its low bits: null.
fn look_at_null(rt: &impl Abort, shared: &Shared, s: &mut Session)
    requires caller { IsOf shared.now s.old }
    requires shape { (view s.old).opening.shape ≡ SHAPE }
    ensures caller { IsOf shared.now s.new }
    ensures answered { Answered (view s.old) (event_of (view s.old) (act.Look External 65535 1 255) reply.Null) (view s.new) }
    ensures same { SameCaller (view s.old) (view s.new) }
{
    let found = look_step(shared, s, Space::External, 0xffff, 1, 255);
    assert_is(rt, found >> 48 & 255, 0);
}

#[test]
fn a_look_past_the_limit_faults_and_changes_nothing(rt: HostRuntime) -> Result<(), OutOfMemory> {
    let before = Image::fresh(rt.alloc(), SHAPE)?;
    let (shared, mut session) = open_fresh(rt.alloc(), SHAPE)?;
    look_past(&shared, &mut session);
    look_at_null(&rt, &shared, &mut session);
    let after = close_whole(shared, session);
    assert_is(&rt, after.words.as_slice(), before.words.as_slice());
    Ok(())
}

/// Loads the trusted freelist word for a take, which is the event of a take that finds the space full.
fn find_full(rt: &impl Abort, shared: &Shared, s: &mut Session)
    requires caller { IsOf shared.now s.old }
    requires shape { (view s.old).opening.shape ≡ SHAPE }
    ensures caller { IsOf shared.now s.new }
    ensures same { SameCaller (view s.old) (view s.new) }
    ensures full { Extends (view s.old) (event_of (view s.old) (act.Take Trusted) reply.Full) (view s.new) }
{
    let spent = load_freelist_for_take(shared, s, Space::Trusted);
    assert_is(rt, spent, 4);
}

fn spend_trusted<L: Ledger>(rt: &impl Abort, alloc: Global, blank: Blank) -> Result<(), OutOfMemory>
    requires name { blank.name ≡ L.name }
    requires parts { blank.parts ≡ L.parts }
    requires one { blank.parts ≡ 1 }
{
    let (shared, mut session) = open_fresh(alloc, SHAPE)?;
    let mut steps = Steps::<L>::start(blank);
    let free = load_freelist_for_take(&shared, &mut session, Space::Trusted);
    let first = take_head(
        &shared,
        &mut session,
        Space::Trusted,
        0x3_0000_0001,
        2,
        &mut steps,
    );
    assert_is(rt, first, Some(1));
    let last = take_two(&shared, &mut session, Space::Trusted, &mut steps);
    assert_is(rt, last, Some(3));
    find_full(rt, &shared, &mut session);
    let left = load_freelist_for_take(&shared, &mut session, Space::External);
    let after = close_whole(shared, session);
    assert_is(
        rt,
        (free, left, after.words.as_slice()[2]),
        (0x3_0000_0001, 0x3_0000_0001, 4),
    );
    Ok(())
}

#[test]
fn a_take_finds_room_and_at_last_a_full_space(rt: HostRuntime) -> Result<(), OutOfMemory> {
    spend_trusted::<Brand>(&rt, rt.alloc(), Blank::new(1))
}

/// The sizes of a table with room for one object.
const ONE: Shape = Shape {
    seg: 4,
    ext: 1,
    tru: 1,
    objects: 1,
};

/// Loads the count for a new object, which is the event of a new object that finds the heap full.
fn find_heap_full(rt: &impl Abort, shared: &Shared, s: &mut Session)
    requires caller { IsOf shared.now s.old }
    requires mutator { (view s.old).number < 8 }
    requires shape { (view s.old).opening.shape ≡ ONE }
    ensures caller { IsOf shared.now s.new }
    ensures same { SameCaller (view s.old) (view s.new) }
    ensures full { Extends (view s.old) (event_of (view s.old) (act.New 1) reply.HeapFull) (view s.new) }
{
    let count = load_count_for_new(shared, s, 1);
    assert_is(rt, count, 1);
}

#[test]
fn a_second_object_finds_the_heap_full(rt: HostRuntime) -> Result<(), OutOfMemory> {
    let before = Image::fresh(rt.alloc(), ONE)?;
    let (shared, mut first) = open_fresh(rt.alloc(), ONE)?;
    let mut one = first.split(&shared, 0, &[]);
    assert!(rt; make_next(&shared, &mut one, 0, 0));
    find_heap_full(&rt, &shared, &mut one);
    assert_is(&rt, one.held(1), None);
    let after = close_both(shared, first, one);
    assert_is(
        &rt,
        (
            before.words.as_slice()[3],
            after.words.as_slice()[3],
            after.vars.as_slice()[1],
        ),
        (0, 1, 0),
    );
    Ok(())
}

/// Makes an object by the count, and tries to make another one by the same count.
fn new_twice(rt: &impl Abort, shared: &Shared, s: &mut Session)
    requires caller { IsOf shared.now s.old }
    requires mutator { (view s.old).number < 8 }
    requires shape { (view s.old).opening.shape ≡ SHAPE }
    ensures caller { IsOf shared.now s.new }
    ensures same { SameCaller (view s.old) (view s.new) }
{
    let count = load_count_for_new(shared, s, 0);
    assert_is(rt, count, 0);
    let won = new_step(shared, s, 0, 0);
    let missed = new_step(shared, s, 1, 0);
    assert_is(rt, (won, missed), (0, 1));
}

#[test]
fn a_new_object_by_an_old_count_misses(rt: HostRuntime) -> Result<(), OutOfMemory> {
    let (shared, mut first) = open_fresh(rt.alloc(), SHAPE)?;
    let mut one = first.split(&shared, 0, &[]);
    new_twice(&rt, &shared, &mut one);
    assert_is(&rt, (one.held(0), one.held(1)), (Some(0), None));
    let after = close_both(shared, first, one);
    assert_is(
        &rt,
        (
            after.words.as_slice()[3],
            after.vars.as_slice()[0],
            after.vars.as_slice()[1],
        ),
        (1, 1, 0),
    );
    Ok(())
}
