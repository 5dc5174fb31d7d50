// Scripts of one mutator over whole cycles: a ticket lives as long as its cell is named.
ghost use Rattle.std.specs.Prelude.{◌^◌, ◌<◌};
ghost use Rattle.entry_base.specs.Callers.{SameCaller};
ghost use Rattle.entry_base.specs.Sessions.{view, IsOf};

use crate::asked::{TWO, only, tag, word_at};
use crate::asserts::{assert_is, assert_words};
use crate::cycles::{begin_on, cycle_over, finish_with_one};
use crate::entries::make;
use entry_base::{Session, Shared};
use graph_steps::drop_var;
use plain_table::{OutOfMemory, Policy, Reply};
use std::process::Abort;
use trusted_steps::{publish, tload, tnew, traw};
use worked_tables::{close_both, open, open_fresh};

/// Makes an object in a variable and a trusted cell that its field names, which is not published.
fn make_hidden(
    rt: &impl Abort,
    shared: &Shared,
    s: &mut Session,
    object: (u32, u32),
    byte: u8,
    value: u64,
)
    requires caller { IsOf shared.now s.old }
    requires mutator { (view s.old).number < 8 }
    requires variable { object.0 < 16 }
    requires small { value < 2 ^ 48 }
    ensures caller { IsOf shared.now s.new }
    ensures same { SameCaller (view s.old) (view s.new) }
{
    make(rt, shared, s, object.0, object.1);
    let filled = tnew(shared, s, object.0, tag(rt, byte), value);
    assert_is(rt, filled, Reply::Ok);
}

/// Publishes the trusted cell of the object of variable 0 and loads it.
fn publish_and_load(rt: &impl Abort, shared: &Shared, s: &mut Session, value: u64)
    requires caller { IsOf shared.now s.old }
    ensures caller { IsOf shared.now s.new }
    ensures same { SameCaller (view s.old) (view s.new) }
{
    let published = publish(shared, s, 0);
    assert_is(rt, published, Reply::Ok);
    let loaded = tload(shared, s, 0, only(rt, 0x0f));
    assert_is(rt, loaded, Reply::Value(value));
}

/// Loads the published cell, drops its object and makes another one in variable 1.
fn load_and_drop(rt: &impl Abort, shared: &Shared, s: &mut Session)
    requires caller { IsOf shared.now s.old }
    requires mutator { (view s.old).number < 8 }
    ensures caller { IsOf shared.now s.new }
    ensures same { SameCaller (view s.old) (view s.new) }
{
    let loaded = tload(shared, s, 0, only(rt, 0x0f));
    assert_is(rt, loaded, Reply::Value(0xc0));
    let dropped = drop_var(shared, s, 0);
    assert_is(rt, dropped, Reply::Ok);
    make(rt, shared, s, 1, 1);
}

/// Fills a trusted cell of another tag at the index that was freed, and loads by its word and by one of index 0.
fn fill_again(rt: &impl Abort, shared: &Shared, s: &mut Session)
    requires caller { IsOf shared.now s.old }
    ensures caller { IsOf shared.now s.new }
    ensures same { SameCaller (view s.old) (view s.new) }
{
    let filled = tnew(shared, s, 1, tag(rt, 0x17), 0xc1);
    assert_is(rt, filled, Reply::Ok);
    let hidden = traw(shared, s, 0x0001_0000, only(rt, 0x17));
    assert_is(rt, hidden, Reply::Fault);
    let null = traw(shared, s, 0x0000_ffff, only(rt, 0x17));
    assert_is(rt, null, Reply::Null);
}

#[test]
fn a_ticket_is_published_in_a_cycle_and_the_next_one_frees_its_cell(
    rt: HostRuntime,
) -> Result<(), OutOfMemory> {
    let (shared, mut first) = open_fresh(rt.alloc(), TWO)?;
    let mut s = first.split(&shared, 0, &[]);
    make_hidden(&rt, &shared, &mut s, (0, 0), 0x0f, 0xc0);
    let image = close_both(shared, first, s);
    let (image, area) = begin_on(&rt, rt.alloc(), image, TWO, Policy::Never)?;
    let (shared, mut first) = open(rt.alloc(), image)?;
    let mut s = first.split(&shared, 0, &[]);
    let published = publish(&shared, &mut s, 0);
    let mut image = close_both(shared, first, s);
    let report = finish_with_one(&rt, &mut image, area, TWO);
    assert_is(&rt, published, Reply::Ok);
    assert!(rt; report.trusted == 1 && report.tfreed == 0);
    let (shared, mut first) = open(rt.alloc(), image)?;
    let mut s = first.split(&shared, 0, &[]);
    load_and_drop(&rt, &shared, &mut s);
    let image = close_both(shared, first, s);
    let (image, report) = cycle_over(&rt, rt.alloc(), image, TWO)?;
    assert!(rt; report.trusted == 0 && report.tfreed == 1);
    let (shared, mut first) = open(rt.alloc(), image)?;
    let mut s = first.split(&shared, 0, &[]);
    fill_again(&rt, &shared, &mut s);
    let image = close_both(shared, first, s);
    assert_words(
        &rt,
        &image,
        &[(47, 0x0001_0000), (53, 0x4817_0000_0000_00c1)],
    );
    Ok(())
}

#[test]
fn a_ticket_ends_with_its_cell_and_another_one_can_be_had(
    rt: HostRuntime,
) -> Result<(), OutOfMemory> {
    let (shared, mut first) = open_fresh(rt.alloc(), TWO)?;
    let mut s = first.split(&shared, 0, &[]);
    make_hidden(&rt, &shared, &mut s, (0, 0), 0x0f, 0xc0);
    assert_is(&rt, s.ticket(), Some(1));
    let dropped = drop_var(&shared, &mut s, 0);
    assert_is(&rt, dropped, Reply::Ok);
    let image = close_both(shared, first, s);
    let (image, report) = cycle_over(&rt, rt.alloc(), image, TWO)?;
    assert!(rt; report.trusted == 0 && report.tfreed == 1);
    let (shared, mut first) = open(rt.alloc(), image)?;
    let mut s = first.split(&shared, 0, &[]);
    assert_is(&rt, s.ticket(), None);
    make_hidden(&rt, &shared, &mut s, (0, 1), 0x0f, 0xc1);
    publish_and_load(&rt, &shared, &mut s, 0xc1);
    let image = close_both(shared, first, s);
    assert_is(&rt, word_at(&rt, &image, 53), 0x400f_0000_0000_00c1);
    Ok(())
}
