// Objects and cells that one session makes by calls.
ghost use Rattle.std.specs.Prelude.{◌≡◌, ◌^◌, ◌<◌};
ghost use Rattle.entry_base.specs.Callers.{SameCaller};
ghost use Rattle.entry_base.specs.Sessions.{view, IsOf};

use crate::asked::tag;
use crate::asserts::assert_is;
use access_steps::{forge, init};
use entry_base::{Session, Shared};
use graph_steps::{drop_var, link, new_object};
use plain_table::Reply;
use std::process::Abort;
use trusted_steps::{publish, tnew};

/// Makes object `count` in a variable.
pub(crate) fn make(rt: &impl Abort, shared: &Shared, s: &mut Session, var: u32, count: u32)
    requires caller { IsOf shared.now s.old }
    requires mutator { (view s.old).number < 8 }
    requires variable { var < 16 }
    ensures caller { IsOf shared.now s.new }
    ensures same { SameCaller (view s.old) (view s.new) }
{
    let made = new_object(shared, s, var);
    assert_is(rt, made, Reply::Obj(count));
}

/// Makes the objects 0 to 3 in the variables 0 to 3.
pub(crate) fn make_four(rt: &impl Abort, shared: &Shared, s: &mut Session)
    requires caller { IsOf shared.now s.old }
    requires mutator { (view s.old).number < 8 }
    ensures caller { IsOf shared.now s.new }
    ensures same { SameCaller (view s.old) (view s.new) }
{
    make(rt, shared, s, 0, 0);
    make(rt, shared, s, 1, 1);
    make(rt, shared, s, 2, 2);
    make(rt, shared, s, 3, 3);
}

/// Inits an external field, given by a variable and its number, with a cell of the tag 0f, and the field is bound then.
pub(crate) fn bind(rt: &impl Abort, shared: &Shared, s: &mut Session, var: u32, f: u32, value: u64)
    requires caller { IsOf shared.now s.old }
    requires mutator { (view s.old).number < 8 }
    requires range { (var < 16) × (f < 2) }
    requires small { value < 2 ^ 48 }
    ensures caller { IsOf shared.now s.new }
    ensures same { SameCaller (view s.old) (view s.new) }
{
    let said = init(shared, s, var, f, tag(rt, 0x0f), value);
    assert_is(rt, said, Reply::Ok);
}

/// Makes a published trusted cell of the tag 0f, which the trusted field of a variable's object names.
pub(crate) fn bind_published(
    rt: &impl Abort,
    shared: &Shared,
    s: &mut Session,
    var: u32,
    value: u64,
)
    requires caller { IsOf shared.now s.old }
    requires mutator { (view s.old).number < 8 }
    requires variable { var < 16 }
    requires small { value < 2 ^ 48 }
    ensures caller { IsOf shared.now s.new }
    ensures same { SameCaller (view s.old) (view s.new) }
{
    let filled = tnew(shared, s, var, tag(rt, 0x0f), value);
    assert_is(rt, filled, Reply::Ok);
    let published = publish(shared, s, var);
    assert_is(rt, published, Reply::Ok);
}

/// Writes a word into an external field of a variable's object.
pub(crate) fn forge_word(
    rt: &impl Abort,
    shared: &Shared,
    s: &mut Session,
    var: u32,
    f: u32,
    word: u32,
)
    requires caller { IsOf shared.now s.old }
    requires mutator { (view s.old).number < 8 }
    requires range { (var < 16) × (f < 2) }
    ensures caller { IsOf shared.now s.new }
    ensures same { SameCaller (view s.old) (view s.new) }
{
    let forged = forge(shared, s, var, f, word);
    assert_is(rt, forged, Reply::Ok);
}

/// Links reference `k` of one variable's object to another's, outside a cycle.
pub(crate) fn link_to(
    rt: &impl Abort,
    shared: &Shared,
    s: &mut Session,
    var: u32,
    k: u32,
    target: u32,
)
    requires caller { IsOf shared.now s.old }
    requires mutator { (view s.old).number < 8 }
    requires variables { (var < 16) × (target < 16) }
    requires few { k < 4 }
    ensures caller { IsOf shared.now s.new }
    ensures same { SameCaller (view s.old) (view s.new) }
{
    let linked = link(shared, s, var, k, Some(target));
    assert_is(rt, linked.reply, Reply::Ok);
    assert_is(rt, linked.shaded, None);
}

/// Drops what a variable holds.
pub(crate) fn forget(rt: &impl Abort, shared: &Shared, s: &mut Session, var: u32)
    requires caller { IsOf shared.now s.old }
    requires mutator { (view s.old).number < 8 }
    requires variable { var < 16 }
    ensures caller { IsOf shared.now s.new }
    ensures same { SameCaller (view s.old) (view s.new) }
{
    let dropped = drop_var(shared, s, var);
    assert_is(rt, dropped, Reply::Ok);
}
