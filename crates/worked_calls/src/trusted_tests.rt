// Each answer of the calls by trusted fields and by words of the trusted space.
ghost use Rattle.std.specs.Prelude.{◌<◌};
ghost use Rattle.entry_base.specs.Callers.{SameCaller};
ghost use Rattle.entry_base.specs.Sessions.{view, IsOf};

use crate::asked::{FOUR, TWO, only, tag, word_at};
use crate::asserts::{assert_is, assert_words};
use crate::cycles::begin_on;
use crate::entries::make;
use entry_base::{Session, Shared};
use plain_table::{OutOfMemory, Policy, Reply};
use std::process::Abort;
use trusted_steps::{publish, share, tload, tnew, traw};
use worked_tables::{close_both, open, open_fresh};

/// Calls by the trusted field of object 0, which is not bound.
fn share_null(rt: &impl Abort, shared: &Shared, s: &mut Session)
    requires caller { IsOf shared.now s.old }
    ensures caller { IsOf shared.now s.new }
    ensures same { SameCaller (view s.old) (view s.new) }
{
    let loaded = tload(shared, s, 0, only(rt, 0x0f));
    assert_is(rt, loaded, Reply::Null);
    let published = publish(shared, s, 0);
    assert_is(rt, published, Reply::NotYours);
    let shared_null = share(shared, s, 0, 1);
    assert_is(rt, shared_null, Reply::Null);
}

/// Fills a cell that the field of object 0 names, which can't be seen before it is published, nor another one filled before.
fn fill_and_publish(rt: &impl Abort, shared: &Shared, s: &mut Session)
    requires caller { IsOf shared.now s.old }
    ensures caller { IsOf shared.now s.new }
    ensures same { SameCaller (view s.old) (view s.new) }
{
    let answers = [
        tnew(shared, s, 0, tag(rt, 0x0f), 0xc0),
        tload(shared, s, 0, only(rt, 0x0f)),
        tnew(shared, s, 1, tag(rt, 0x0f), 0xc1),
        publish(shared, s, 1),
        publish(shared, s, 0),
        publish(shared, s, 0),
    ];
    assert_is(
        rt,
        answers,
        [
            Reply::Ok,
            Reply::Fault,
            Reply::Pending,
            Reply::NotYours,
            Reply::Ok,
            Reply::NotYours,
        ],
    );
}

/// Loads the published cell, fills another one for the field that names it already, and shares it with object 1 once.
fn share_published(rt: &impl Abort, shared: &Shared, s: &mut Session)
    requires caller { IsOf shared.now s.old }
    ensures caller { IsOf shared.now s.new }
    ensures same { SameCaller (view s.old) (view s.new) }
{
    let answers = [
        tload(shared, s, 0, only(rt, 0x0f)),
        tnew(shared, s, 0, tag(rt, 0x17), 0xc1),
        share(shared, s, 0, 1),
        share(shared, s, 0, 1),
        tload(shared, s, 1, only(rt, 0x0f)),
    ];
    assert_is(
        rt,
        answers,
        [
            Reply::Value(0xc0),
            Reply::Taken(0x0001_0000),
            Reply::Ok,
            Reply::Taken(0x0001_0000),
            Reply::Value(0xc0),
        ],
    );
}

/// Fills the last index of the trusted space, after which it is full, and loads by words of the space.
fn fill_last(rt: &impl Abort, shared: &Shared, s: &mut Session)
    requires caller { IsOf shared.now s.old }
    ensures caller { IsOf shared.now s.new }
    ensures same { SameCaller (view s.old) (view s.new) }
{
    let answers = [
        tnew(shared, s, 2, tag(rt, 0x17), 0xc2),
        publish(shared, s, 2),
        tnew(shared, s, 3, tag(rt, 0x17), 0xc3),
        traw(shared, s, 0x0003_0000, only(rt, 0x17)),
        traw(shared, s, 0xffff_ffff, only(rt, 0x17)),
        traw(shared, s, 0xffff, only(rt, 0x17)),
    ];
    assert_is(
        rt,
        answers,
        [
            Reply::Ok,
            Reply::Ok,
            Reply::Full,
            Reply::Value(0xc2),
            Reply::Fault,
            Reply::Null,
        ],
    );
}

/// Makes objects 2 and 3 in variables 2 and 3.
fn make_rest(rt: &impl Abort, shared: &Shared, s: &mut Session)
    requires caller { IsOf shared.now s.old }
    requires mutator { (view s.old).number < 8 }
    ensures caller { IsOf shared.now s.new }
    ensures same { SameCaller (view s.old) (view s.new) }
{
    make(rt, shared, s, 2, 2);
    make(rt, shared, s, 3, 3);
}

#[test]
fn each_answer_of_the_calls_by_trusted_fields(rt: HostRuntime) -> Result<(), OutOfMemory> {
    let (shared, mut first) = open_fresh(rt.alloc(), FOUR)?;
    let mut s = first.split(&shared, 3, &[]);
    make(&rt, &shared, &mut s, 0, 0);
    make(&rt, &shared, &mut s, 1, 1);
    make_rest(&rt, &shared, &mut s);
    share_null(&rt, &shared, &mut s);
    fill_and_publish(&rt, &shared, &mut s);
    share_published(&rt, &shared, &mut s);
    fill_last(&rt, &shared, &mut s);
    let image = close_both(shared, first, s);
    assert_words(
        &rt,
        &image,
        &[
            (2, 4),
            (39, 0x0001_0000),
            (47, 0x0001_0000),
            (55, 0x0003_0000),
            (63, 0),
            (73, 0x400f_0000_0000_00c0),
            (74, 0x4817_0000_0000_00c1),
            (75, 0x4017_0000_0000_00c2),
        ],
    );
    Ok(())
}

/// Makes object 0 and object 1, and a published trusted cell that the field of object 0 names.
fn make_shown(rt: &impl Abort, shared: &Shared, s: &mut Session)
    requires caller { IsOf shared.now s.old }
    requires mutator { (view s.old).number < 8 }
    ensures caller { IsOf shared.now s.new }
    ensures same { SameCaller (view s.old) (view s.new) }
{
    make(rt, shared, s, 0, 0);
    make(rt, shared, s, 1, 1);
    let filled = tnew(shared, s, 0, tag(rt, 0x0f), 0xc0);
    assert_is(rt, filled, Reply::Ok);
    let published = publish(shared, s, 0);
    assert_is(rt, published, Reply::Ok);
}

#[test]
fn a_share_in_a_cycle_marks_the_cell(rt: HostRuntime) -> Result<(), OutOfMemory> {
    let (shared, mut first) = open_fresh(rt.alloc(), TWO)?;
    let mut s = first.split(&shared, 0, &[]);
    make_shown(&rt, &shared, &mut s);
    let image = close_both(shared, first, s);
    let (image, area) = begin_on(&rt, rt.alloc(), image, TWO, Policy::Never)?;
    assert!(rt; area.roots() == [0, 1].as_slice());
    assert_is(&rt, word_at(&rt, &image, 53), 0x000f_0000_0000_00c0);
    let (shared, mut first) = open(rt.alloc(), image)?;
    let mut s = first.split(&shared, 0, &[]);
    let won = share(&shared, &mut s, 0, 1);
    assert_is(&rt, won, Reply::Ok);
    let image = close_both(shared, first, s);
    assert_words(
        &rt,
        &image,
        &[(47, 0x0001_0000), (53, 0x400f_0000_0000_00c0)],
    );
    Ok(())
}
