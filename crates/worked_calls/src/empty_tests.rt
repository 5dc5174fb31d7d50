// Calls by a variable that holds nothing: each answers so, and changes nothing.
ghost use Rattle.entry_base.specs.Callers.{SameCaller};
ghost use Rattle.entry_base.specs.Sessions.{view, IsOf};

use crate::asked::{only, tag};
use crate::asserts::assert_is;
use crate::thread_tests::image_with_a_common_object;
use access_steps::{forge, init, load, name, store, swap};
use entry_base::{Session, Shared};
use graph_steps::{fetch, link, link_global};
use plain_table::{OutOfMemory, Reply};
use std::process::Abort;
use trusted_steps::{publish, share, tload, tnew};
use worked_tables::{close_both, open};

/// Calls by external fields of what variable 1 holds, which is nothing.
fn access_nothing(rt: &impl Abort, shared: &Shared, s: &mut Session)
    requires caller { IsOf shared.now s.old }
    ensures caller { IsOf shared.now s.new }
    ensures same { SameCaller (view s.old) (view s.new) }
{
    let answers = [
        name(shared, s, 1, 0),
        forge(shared, s, 1, 1, 0xffff_ffff),
        load(shared, s, 1, 0, only(rt, 0x0f)),
        store(shared, s, 1, 1, only(rt, 0x0f), 0xc1),
        swap(shared, s, 1, 0, only(rt, 0x0f), 0xc1),
        init(shared, s, 1, 1, tag(rt, 0x0f), 0xc1),
    ];
    assert_is(
        rt,
        answers,
        [
            Reply::Empty,
            Reply::Empty,
            Reply::Empty,
            Reply::Empty,
            Reply::Empty,
            Reply::Empty,
        ],
    );
}

/// Calls by references of what variable 1 holds, which is nothing, and links to it.
fn link_nothing(rt: &impl Abort, shared: &Shared, s: &mut Session)
    requires caller { IsOf shared.now s.old }
    ensures caller { IsOf shared.now s.new }
    ensures same { SameCaller (view s.old) (view s.new) }
{
    let from = link(shared, s, 1, 0, Some(0));
    assert_is(rt, from.reply, Reply::Empty);
    assert_is(rt, from.shaded, None);
    let to = link(shared, s, 0, 3, Some(1));
    assert_is(rt, to.reply, Reply::Empty);
    assert_is(rt, to.shaded, None);
    let global = link_global(shared, s, 1, Some(1));
    assert_is(rt, global, Reply::Empty);
    let fetched = fetch(shared, s, 0, 1, 0);
    assert_is(rt, fetched, Reply::Empty);
}

/// Calls by the trusted field of what variable 1 holds, which is nothing.
fn share_nothing(rt: &impl Abort, shared: &Shared, s: &mut Session)
    requires caller { IsOf shared.now s.old }
    ensures caller { IsOf shared.now s.new }
    ensures same { SameCaller (view s.old) (view s.new) }
{
    let answers = [
        tnew(shared, s, 1, tag(rt, 0x0f), 0xc1),
        publish(shared, s, 1),
        tload(shared, s, 1, only(rt, 0x0f)),
        share(shared, s, 1, 0),
        share(shared, s, 0, 1),
    ];
    assert_is(
        rt,
        answers,
        [
            Reply::Empty,
            Reply::Empty,
            Reply::Empty,
            Reply::Empty,
            Reply::Empty,
        ],
    );
}

#[test]
fn calls_by_a_variable_that_holds_nothing_change_nothing(
    rt: HostRuntime,
) -> Result<(), OutOfMemory> {
    let before = image_with_a_common_object(&rt, rt.alloc())?;
    let opened = image_with_a_common_object(&rt, rt.alloc())?;
    let (shared, mut first) = open(rt.alloc(), opened)?;
    let mut s = first.split(&shared, 0, &[]);
    assert_is(&rt, s.held(0), Some(0));
    assert_is(&rt, s.held(1), None);
    access_nothing(&rt, &shared, &mut s);
    link_nothing(&rt, &shared, &mut s);
    share_nothing(&rt, &shared, &mut s);
    assert_is(&rt, s.held(0), Some(0));
    let after = close_both(shared, first, s);
    assert_is(&rt, after.words.as_slice(), before.words.as_slice());
    assert_is(&rt, after.vars.as_slice(), before.vars.as_slice());
    assert_is(&rt, after.pending.as_slice(), before.pending.as_slice());
    Ok(())
}
