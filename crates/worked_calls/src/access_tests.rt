// Each answer of the calls by external fields and by words of the external space.
ghost use Rattle.entry_base.specs.Callers.{SameCaller};
ghost use Rattle.entry_base.specs.Sessions.{view, IsOf};

use crate::asked::{ONE, only, tag};
use crate::asserts::{assert_is, assert_words};
use crate::entries::{bind, make};
use access_steps::{forge, init, load, name, raw_load, raw_store, store, swap};
use entry_base::{Session, Shared};
use plain_table::{OutOfMemory, Reply};
use std::process::Abort;
use worked_tables::{close_both, open_fresh};

/// Calls by a field that is not bound, and by a word of index 0, which answer null.
fn access_null(rt: &impl Abort, shared: &Shared, s: &mut Session)
    requires caller { IsOf shared.now s.old }
    ensures caller { IsOf shared.now s.new }
    ensures same { SameCaller (view s.old) (view s.new) }
{
    let answers = [
        name(shared, s, 0, 0),
        load(shared, s, 0, 0, only(rt, 0x0f)),
        store(shared, s, 0, 0, only(rt, 0x0f), 0xc1),
        swap(shared, s, 0, 0, only(rt, 0x0f), 0xc1),
        raw_load(shared, s, 0xffff, only(rt, 0x0f)),
        raw_store(shared, s, 0, only(rt, 0x0f), 0xc1),
    ];
    assert_is(
        rt,
        answers,
        [
            Reply::Word(0),
            Reply::Null,
            Reply::Null,
            Reply::Null,
            Reply::Null,
            Reply::Null,
        ],
    );
}

/// Calls by field 0, whose cell has another tag than the one that they ask.
fn access_under_another_tag(rt: &impl Abort, shared: &Shared, s: &mut Session)
    requires caller { IsOf shared.now s.old }
    ensures caller { IsOf shared.now s.new }
    ensures same { SameCaller (view s.old) (view s.new) }
{
    let answers = [
        load(shared, s, 0, 0, only(rt, 0x17)),
        store(shared, s, 0, 0, only(rt, 0x17), 0xc1),
        swap(shared, s, 0, 0, only(rt, 0x17), 0xc1),
        raw_load(shared, s, 0x0001_0000, only(rt, 0x17)),
        raw_store(shared, s, 0x0001_0000, only(rt, 0x17), 0xc1),
        init(shared, s, 0, 0, tag(rt, 0x17), 0xc1),
    ];
    assert_is(
        rt,
        answers,
        [
            Reply::Fault,
            Reply::Fault,
            Reply::Fault,
            Reply::Fault,
            Reply::Fault,
            Reply::Taken(0x0001_0000),
        ],
    );
}

/// Calls by field 0 under the tag of its cell: each finds what the one before it left.
fn access_under_the_tag(rt: &impl Abort, shared: &Shared, s: &mut Session)
    requires caller { IsOf shared.now s.old }
    ensures caller { IsOf shared.now s.new }
    ensures same { SameCaller (view s.old) (view s.new) }
{
    let answers = [
        store(shared, s, 0, 0, only(rt, 0x0f), 0xc1),
        swap(shared, s, 0, 0, only(rt, 0x0f), 0xc2),
        load(shared, s, 0, 0, only(rt, 0x0f)),
        raw_store(shared, s, 0x0001_0000, only(rt, 0x0f), 0xffff_ffff_ffff),
        raw_load(shared, s, 0x0001_ffff, only(rt, 0x0f)),
    ];
    assert_is(
        rt,
        answers,
        [
            Reply::Ok,
            Reply::Value(0xc1),
            Reply::Value(0xc2),
            Reply::Ok,
            Reply::Value(0xffff_ffff_ffff),
        ],
    );
}

/// Forges words into field 0: a stranger's cell is met under its own tag alone, and a word past the limit meets none.
fn access_forged(rt: &impl Abort, shared: &Shared, s: &mut Session)
    requires caller { IsOf shared.now s.old }
    ensures caller { IsOf shared.now s.new }
    ensures same { SameCaller (view s.old) (view s.new) }
{
    let answers = [
        forge(shared, s, 0, 0, 0x0002_0000),
        load(shared, s, 0, 0, only(rt, 0x17)),
        forge(shared, s, 0, 0, 0xffff_ffff),
        name(shared, s, 0, 0),
        load(shared, s, 0, 0, only(rt, 0x0f)),
    ];
    assert_is(
        rt,
        answers,
        [
            Reply::Ok,
            Reply::Value(0xc1),
            Reply::Ok,
            Reply::Word(0xffff_ffff),
            Reply::Fault,
        ],
    );
}

#[test]
fn each_answer_of_the_calls_by_external_fields(rt: HostRuntime) -> Result<(), OutOfMemory> {
    let (shared, mut first) = open_fresh(rt.alloc(), ONE)?;
    let mut s = first.split(&shared, 7, &[]);
    make(&rt, &shared, &mut s, 0, 0);
    access_null(&rt, &shared, &mut s);
    bind(&rt, &shared, &mut s, (0, 0), 0x0f, 0xc0);
    access_under_another_tag(&rt, &shared, &mut s);
    access_under_the_tag(&rt, &shared, &mut s);
    access_forged(&rt, &shared, &mut s);
    let image = close_both(shared, first, s);
    assert_words(
        &rt,
        &image,
        &[
            (0, 0x1_0000_0003),
            (37, 0xffff_ffff),
            (41, 0x400f_ffff_ffff_ffff),
            (42, 0x4017_0000_0000_00c1),
        ],
    );
    Ok(())
}
