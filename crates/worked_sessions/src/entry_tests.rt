// Entries on one thread: an index is taken, filled with a cell, looked at, stored into and exchanged, in both spaces.
ghost use Rattle.std.specs.Prelude.{◌≡◌, ◌+◌, ◌%◌, ◌^◌, ◌<◌, List, [], ◌∷◌, slice_index};
ghost use Rattle.plain_table.specs.declared.events.Act.TheVariants as act;
ghost use Rattle.plain_table.specs.declared.events.Event.{Event};
ghost use Rattle.plain_table.specs.declared.events.Space.TheVariants.{External, Trusted};
ghost use Rattle.plain_table.specs.declared.reports.Reply.TheVariants as reply;
ghost use Rattle.plain_table.specs.Table.{limit_in};
ghost use Rattle.entry_base.specs.Callers.{SameCaller, IsClosed, event_of};
ghost use Rattle.entry_base.specs.Learned.{Answered};
ghost use Rattle.entry_base.specs.Lists.{Has, StartsWith, without_one};
ghost use Rattle.entry_base.specs.Openings.{sizes_in, opening_of};
ghost use Rattle.entry_base.specs.Owns.{claim_of};
ghost use Rattle.entry_base.specs.Sessions.{view, IsOf};
ghost use Rattle.entry_base.specs.Views.{numbers_below};

use crate::asserts::{assert_is, assert_words};
use entry_base::{Session, Shared};
use entry_rule::{exchange_step, look_step, put_external, put_trusted, store_step};
use freelist_rule::{Steps, load_freelist, load_freelist_for_take, load_link, take_step};
use plain_table::{OutOfMemory, Space};
use std::alloc::Global;
use std::marker::Brand;
use std::process::Abort;
use std::sync::ledger::{Blank, Ledger};
use worked_tables::{SHAPE, close_both, close_whole, open_fresh, take_head, take_two, word_at};

/// Looks at the external cell at index 1 under its tag, which answers its value.
fn look_under_tag(rt: &impl Abort, shared: &Shared, s: &mut Session)
    requires caller { IsOf shared.now s.old }
    requires inside { 1 < limit_in (sizes_in (view s.old).opening) External }
    ensures caller { IsOf shared.now s.new }
    ensures answered { Answered (view s.old) (event_of (view s.old) (act.Look External 65536 15 15) (reply.Value 192)) (view s.new) }
{
    let found = look_step(shared, s, Space::External, 0x1_0000, 0x0f, 0x0f);
    assert_is(rt, found, 0x400f_0000_0000_00c0);
}

/// Looks at it under other tags, which answers a fault.
fn look_under_others(rt: &impl Abort, shared: &Shared, s: &mut Session)
    requires caller { IsOf shared.now s.old }
    requires inside { 1 < limit_in (sizes_in (view s.old).opening) External }
    ensures caller { IsOf shared.now s.new }
    ensures answered { Answered (view s.old) (event_of (view s.old) (act.Look External 65536 16 255) reply.Fault) (view s.new) }
{
    let found = look_step(shared, s, Space::External, 0x1_0000, 0x10, 0xff);
    assert_is(rt, found, 0x400f_0000_0000_00c0);
}

/// Looks at the hidden trusted cell at index 1 under its tag, which answers a fault.
fn look_at_hidden(rt: &impl Abort, shared: &Shared, s: &mut Session)
    requires caller { IsOf shared.now s.old }
    requires inside { 1 < limit_in (sizes_in (view s.old).opening) Trusted }
    ensures caller { IsOf shared.now s.new }
    ensures answered { Answered (view s.old) (event_of (view s.old) (act.Look Trusted 65536 15 15) reply.Fault) (view s.new) }
{
    let found = look_step(shared, s, Space::Trusted, 0x1_0000, 0x0f, 0x0f);
    assert_is(rt, found, 0x480f_0000_0000_00c0);
}

fn put_and_store<L: Ledger>(rt: &impl Abort, alloc: Global, blank: Blank) -> Result<(), OutOfMemory>
    requires name { blank.name ≡ L.name }
    requires parts { blank.parts ≡ L.parts }
    requires one { blank.parts ≡ 1 }
{
    let (shared, mut session) = open_fresh(alloc, SHAPE)?;
    let mut steps = Steps::<L>::start(blank);
    let None = session.area() else {
        panic!(rt; "a fresh image has an area");
    };
    let taken = take_head(
        &shared,
        &mut session,
        Space::External,
        0x3_0000_0001,
        2,
        &mut steps,
    );
    assert_is(rt, taken, Some(1));
    put_external(&shared, &mut session, 1, 0x0f, 0xc0);
    look_under_tag(rt, &shared, &mut session);
    look_under_others(rt, &shared, &mut session);
    store_step(&shared, &mut session, 0x1_0000, 0x0f, 0x0f, 0x0f, 0xd0);
    let stored = exchange_step(&shared, &mut session, 0x1_0000, 0x0f, 0x0f, 0x0f, 0xe0);
    let exchanged = look_step(&shared, &mut session, Space::External, 0x1_0000, 0x0f, 0x0f);
    let image = close_whole(shared, session);
    assert_is(rt, stored, 0x400f_0000_0000_00d0);
    assert_is(rt, exchanged, 0x400f_0000_0000_00e0);
    assert_words(
        rt,
        &image,
        &[(0, 0x2_0000_0002), (65, 0x400f_0000_0000_00e0)],
    );
    Ok(())
}

/// Takes with a freelist word that another session's take made stale.
fn take_with_stale_word<L: Ledger>(
    rt: &impl Abort,
    shared: &Shared,
    first: &mut Session,
    other: &mut Session,
    steps: &mut Steps<L>,
)
    requires callers { IsOf shared.now first.old × IsOf shared.now other.old }
    ensures callers { IsOf shared.now first.new × IsOf shared.now other.new }
    ensures same { SameCaller (view first.old) (view first.new) × SameCaller (view other.old) (view other.new) }
    ensures ticked { steps.new ≡ steps.old + 2 }
{
    let stale = load_freelist(shared, other, Space::External);
    assert_is(rt, stale, 0x3_0000_0001);
    let link = load_link(shared, other, Space::External, stale);
    assert_is(rt, link, (1 << 56) + 2);
    let taken = take_head(shared, first, Space::External, 0x3_0000_0001, 2, steps);
    assert_is(rt, taken, Some(1));
    let missed = take_step(shared, other, Space::External, stale, 2, steps);
    assert_is(rt, missed, Err(0x2_0000_0002));
}

fn split_and_miss<L: Ledger>(
    rt: &impl Abort,
    alloc: Global,
    blank: Blank,
) -> Result<(), OutOfMemory>
    requires name { blank.name ≡ L.name }
    requires parts { blank.parts ≡ L.parts }
    requires one { blank.parts ≡ 1 }
{
    let (shared, mut first) = open_fresh(alloc, SHAPE)?;
    let mut other = first.split(&shared, 0, &[]);
    let mut steps = Steps::<L>::start(blank);
    take_with_stale_word(rt, &shared, &mut first, &mut other, &mut steps);
    let image = close_both(shared, first, other);
    assert_is(rt, word_at(&image, 0), Some(0x2_0000_0002));
    Ok(())
}

/// Takes an index of the trusted space, fills it with a cell, and looks at it.
fn put_trusted_and_look<L: Ledger>(
    rt: &impl Abort,
    shared: &Shared,
    s: &mut Session,
    steps: &mut Steps<L>,
)
    requires caller { IsOf shared.now s.old }
    requires shape { (view s.old).opening.shape ≡ SHAPE }
    ensures caller { IsOf shared.now s.new }
    ensures same { SameCaller (view s.old) (view s.new) }
    ensures ticked { steps.new ≡ steps.old + 1 }
{
    let taken = take_head(shared, s, Space::Trusted, 0x3_0000_0001, 2, steps);
    assert_is(rt, taken, Some(1));
    put_trusted(shared, s, 1, 0x0f, 0xc0);
    look_at_hidden(rt, shared, s);
}

fn fill_trusted<L: Ledger>(rt: &impl Abort, alloc: Global, blank: Blank) -> Result<(), OutOfMemory>
    requires name { blank.name ≡ L.name }
    requires parts { blank.parts ≡ L.parts }
    requires one { blank.parts ≡ 1 }
{
    let (shared, mut session) = open_fresh(alloc, SHAPE)?;
    let mut steps = Steps::<L>::start(blank);
    put_trusted_and_look(rt, &shared, &mut session, &mut steps);
    let last = take_two(&shared, &mut session, Space::Trusted, &mut steps);
    assert_is(rt, last, Some(3));
    let spent = load_freelist_for_take(&shared, &mut session, Space::Trusted);
    let image = close_whole(shared, session);
    assert_is(rt, spent, 4);
    assert_words(rt, &image, &[(2, 4), (73, 0x480f_0000_0000_00c0)]);
    Ok(())
}

#[test]
fn a_cell_is_put_looked_at_stored_into_and_exchanged(rt: HostRuntime) -> Result<(), OutOfMemory> {
    put_and_store::<Brand>(&rt, rt.alloc(), Blank::new(1))
}

#[test]
fn a_take_with_a_stale_word_answers_the_word_found(rt: HostRuntime) -> Result<(), OutOfMemory> {
    split_and_miss::<Brand>(&rt, rt.alloc(), Blank::new(1))
}

#[test]
fn a_trusted_cell_is_hidden_and_the_full_space_is_spent(
    rt: HostRuntime,
) -> Result<(), OutOfMemory> {
    fill_trusted::<Brand>(&rt, rt.alloc(), Blank::new(1))
}
