// Objects and entries that one session makes by calls.
ghost use Rattle.std.specs.Prelude.{◌≡◌, ◌^◌, ◌<◌};
ghost use Rattle.entry_base.specs.Callers.{SameCaller};
ghost use Rattle.entry_base.specs.Sessions.{view, IsOf};

use crate::asked::tag;
use crate::asserts::assert_is;
use access_steps::{init, put};
use entry_base::{Session, Shared};
use freelist_rule::Steps;
use graph_steps::new_object;
use plain_table::{Reply, Space};
use space_steps::{Taken, take};
use std::marker::Brand;
use std::process::Abort;
use std::sync::ledger::{Blank, Ledger};

/// Makes object `count` in a variable.
pub(crate) fn make(rt: &impl Abort, shared: &Shared, s: &mut Session, var: u32, count: u32)
    requires caller { IsOf shared.now s.old }
    requires mutator { (view s.old).number < 8 }
    requires variable { var < 16 }
    ensures caller { IsOf shared.now s.new }
    ensures same { SameCaller (view s.old) (view s.new) }
{
    let made = new_object(shared, s, var);
    assert_is(rt, made, Reply::Obj(count));
}

/// Inits external field `f` of the object of a variable, which is bound then.
pub(crate) fn bind(
    rt: &impl Abort,
    shared: &Shared,
    s: &mut Session,
    place: (u32, u32),
    byte: u8,
    value: u64,
)
    requires caller { IsOf shared.now s.old }
    requires place { (place.0 < 16) × (place.1 < 2) }
    requires small { value < 2 ^ 48 }
    ensures caller { IsOf shared.now s.new }
    ensures same { SameCaller (view s.old) (view s.new) }
{
    let said = init(shared, s, place.0, place.1, tag(rt, byte), value);
    assert_is(rt, said, Reply::Ok);
}

/// Takes an external index of a table without an area and fills it, with no field bound to it. The answer is its word.
pub(crate) fn put_new(
    rt: &impl Abort,
    shared: &Shared,
    s: &mut Session,
    byte: u8,
    value: u64,
) -> u32
    requires caller { IsOf shared.now s.old }
    requires small { value < 2 ^ 48 }
    ensures caller { IsOf shared.now s.new }
    ensures same { SameCaller (view s.old) (view s.new) }
{
    put_counted::<Brand>(rt, shared, s, byte, value, Blank::new(1))
}

fn put_counted<L: Ledger>(
    rt: &impl Abort,
    shared: &Shared,
    s: &mut Session,
    byte: u8,
    value: u64,
    blank: Blank,
) -> u32
    requires caller { IsOf shared.now s.old }
    requires small { value < 2 ^ 48 }
    requires name { blank.name ≡ L.name }
    requires parts { blank.parts ≡ L.parts }
    requires one { blank.parts ≡ 1 }
    ensures caller { IsOf shared.now s.new }
    ensures same { SameCaller (view s.old) (view s.new) }
{
    assert_is(rt, s.area(), None);
    let mut steps = Steps::<L>::start(blank);
    let Taken::At(ticket) = take(shared, s, Space::External, &mut steps) else {
        panic!(rt; "no external index is free");
    };
    put(shared, s, ticket, tag(rt, byte), value)
}
