// Trusted cells on one thread: hidden as they are put, bound, published and shared, and the ticket between.
ghost use Rattle.std.specs.Prelude.{◌≡◌, ◌+◌, ◌%◌, ◌^◌, ◌<◌, None};
ghost use Rattle.plain_table.specs.declared.events.Space.TheVariants.{External, Trusted};
ghost use Rattle.plain_table.specs.Table.{limit_in};
ghost use Rattle.entry_base.specs.Callers.{SameCaller};
ghost use Rattle.entry_base.specs.Openings.{phase_of, sizes_in, start_of};
ghost use Rattle.entry_base.specs.Owns.{IsHeld};
ghost use Rattle.entry_base.specs.Sessions.{view, IsOf};

use crate::asserts::assert_is;
use entry_base::{Session, Shared};
use entry_rule::{look_step, publish_step};
use entry_word::{Image, Pending};
use freelist_rule::Steps;
use object_rule::{bind_shared, bind_trusted, name_trusted};
use plain_table::{OutOfMemory, Space};
use std::alloc::Global;
use std::marker::Brand;
use std::process::Abort;
use std::sync::ledger::{Blank, Ledger};
use worked_tables::{SHAPE, change_at, close_both, make_next, open_fresh, put_hidden};

/// Puts the next trusted cell, and tries to bind it to the trusted field of object 0, which variable 0 holds. The answer is the word
/// that was found.
fn bind_hidden<L: Ledger>(
    rt: &impl Abort,
    shared: &Shared,
    s: &mut Session,
    word: u64,
    next: u32,
    value: u64,
    steps: &mut Steps<L>,
) -> u64
    requires caller { IsOf shared.now s.old }
    requires mutator { (view s.old).number < 8 }
    requires small { value < 2 ^ 48 }
    ensures caller { IsOf shared.now s.new }
    ensures same { SameCaller (view s.old) (view s.new) }
    ensures ticked { steps.new ≡ steps.old + 1 }
{
    let Some(index) = put_hidden(shared, s, word, next, value, steps) else {
        panic!(rt; "the freelist word is not the one that was expected");
    };
    assert_is(rt, s.held(0), Some(0));
    bind_trusted(shared, s, 0, 65536 * index, 0x0f, value)
}

/// The word of the trusted field of the object that a variable holds, whose number is that of the variable.
fn trusted_word(rt: &impl Abort, shared: &Shared, s: &mut Session, var: u32) -> u64
    requires caller { IsOf shared.now s.old }
    requires mutator { (view s.old).number < 8 }
    requires variable { var < 16 }
    ensures caller { IsOf shared.now s.new }
    ensures same { SameCaller (view s.old) (view s.new) }
{
    assert_is(rt, s.held(var), Some(var));
    name_trusted(shared, s, var)
}

/// Looks at the trusted cell at index 1 under its tag. The answer is the word of its entry.
fn look_at_first(shared: &Shared, s: &mut Session) -> u64
    requires caller { IsOf shared.now s.old }
    requires shape { (view s.old).opening.shape ≡ SHAPE }
    ensures caller { IsOf shared.now s.new }
    ensures same { SameCaller (view s.old) (view s.new) }
{
    look_step(shared, s, Space::Trusted, 0x1_0000, 0x0f, 0x0f)
}

/// Publishes the cell at index 1, whose ticket the session has.
fn publish_first(rt: &impl Abort, shared: &Shared, s: &mut Session)
    requires caller { IsOf shared.now s.old }
    requires mutator { (view s.old).number < 8 }
    requires shape { (view s.old).opening.shape ≡ SHAPE }
    ensures caller { IsOf shared.now s.new }
    ensures same { SameCaller (view s.old) (view s.new) }
{
    assert_is(rt, s.pending(), Some(FIRST));
    publish_step(shared, s, 1, 0x0f, 0xc0);
    assert_is(rt, s.ticket(), None);
}

/// The first trusted cell, as it waits to be published.
const FIRST: Pending = Pending {
    index: 1,
    tag: 0x0f,
    value: 0xc0,
};

fn give_ticket<L: Ledger>(rt: &impl Abort, alloc: Global, blank: Blank) -> Result<(), OutOfMemory>
    requires name { blank.name ≡ L.name }
    requires parts { blank.parts ≡ L.parts }
    requires one { blank.parts ≡ 1 }
{
    let before = Image::fresh(alloc, SHAPE)?;
    let (shared, mut first) = open_fresh(alloc, SHAPE)?;
    let mut one = first.split(&shared, 0, &[]);
    let mut steps = Steps::<L>::start(blank);
    assert!(rt; make_next(&shared, &mut one, 0, 0));
    let none = one.ticket();
    let empty = trusted_word(rt, &shared, &mut one, 0);
    let won = bind_hidden(rt, &shared, &mut one, 0x3_0000_0001, 2, 0xc0, &mut steps);
    let given = one.ticket();
    let hidden = look_at_first(&shared, &mut one);
    let after = close_both(shared, first, one);
    assert_is(
        rt,
        (
            none,
            empty,
            won,
            given,
            hidden,
            after.pending.as_slice()[0],
            change_at(&before, &after, 39),
            change_at(&before, &after, 73),
        ),
        (
            None,
            0,
            0,
            Some(1),
            0x480f_0000_0000_00c0,
            Some(FIRST),
            Some((0, 0x1_0000)),
            Some(((1 << 56) + 2, 0x480f_0000_0000_00c0)),
        ),
    );
    Ok(())
}

fn publish_and_miss<L: Ledger>(
    rt: &impl Abort,
    alloc: Global,
    blank: Blank,
) -> Result<(), OutOfMemory>
    requires name { blank.name ≡ L.name }
    requires parts { blank.parts ≡ L.parts }
    requires one { blank.parts ≡ 1 }
{
    let before = Image::fresh(alloc, SHAPE)?;
    let (shared, mut first) = open_fresh(alloc, SHAPE)?;
    let mut one = first.split(&shared, 0, &[]);
    let mut steps = Steps::<L>::start(blank);
    assert!(rt; make_next(&shared, &mut one, 0, 0));
    let won = bind_hidden(rt, &shared, &mut one, 0x3_0000_0001, 2, 0xc0, &mut steps);
    publish_first(rt, &shared, &mut one);
    let shown = look_at_first(&shared, &mut one);
    let taken = bind_hidden(rt, &shared, &mut one, 0x2_0000_0002, 3, 0xd0, &mut steps);
    let none = one.ticket();
    let bound = trusted_word(rt, &shared, &mut one, 0);
    let after = close_both(shared, first, one);
    assert_is(
        rt,
        (
            won,
            shown,
            taken,
            none,
            bound,
            change_at(&before, &after, 73),
            change_at(&before, &after, 74),
        ),
        (
            0,
            0x400f_0000_0000_00c0,
            0x1_0000,
            None,
            0x1_0000,
            Some(((1 << 56) + 2, 0x400f_0000_0000_00c0)),
            Some(((1 << 56) + 3, 0x480f_0000_0000_00d0)),
        ),
    );
    Ok(())
}

/// Shares the cell of the trusted field of object 0 with object 1, which variables 0 and 1 hold. The answer is the word that was
/// found in the field of object 1.
fn share_first(rt: &impl Abort, shared: &Shared, s: &mut Session) -> u64
    requires caller { IsOf shared.now s.old }
    requires mutator { (view s.old).number < 8 }
    requires outside { phase_of (view s.old).opening ≡ 0 }
    ensures caller { IsOf shared.now s.new }
    ensures same { SameCaller (view s.old) (view s.new) }
{
    assert_is(rt, s.held(0), Some(0));
    assert_is(rt, s.held(1), Some(1));
    let word = name_trusted(shared, s, 0);
    assert_is(rt, word, 0x1_0000);
    bind_shared(shared, s, 1, 0x1_0000)
}

fn share_twice<L: Ledger>(rt: &impl Abort, alloc: Global, blank: Blank) -> Result<(), OutOfMemory>
    requires name { blank.name ≡ L.name }
    requires parts { blank.parts ≡ L.parts }
    requires one { blank.parts ≡ 1 }
{
    let before = Image::fresh(alloc, SHAPE)?;
    let (shared, mut first) = open_fresh(alloc, SHAPE)?;
    let mut one = first.split(&shared, 0, &[]);
    assert_is(rt, one.in_cycle(), false);
    let mut steps = Steps::<L>::start(blank);
    assert!(rt; make_next(&shared, &mut one, 0, 0));
    assert!(rt; make_next(&shared, &mut one, 1, 1));
    let won = bind_hidden(rt, &shared, &mut one, 0x3_0000_0001, 2, 0xc0, &mut steps);
    let empty = trusted_word(rt, &shared, &mut one, 1);
    let shared_now = share_first(rt, &shared, &mut one);
    let bound = trusted_word(rt, &shared, &mut one, 1);
    let taken = share_first(rt, &shared, &mut one);
    let after = close_both(shared, first, one);
    assert_is(
        rt,
        (
            won,
            empty,
            shared_now,
            bound,
            taken,
            change_at(&before, &after, 39),
            change_at(&before, &after, 47),
        ),
        (
            0,
            0,
            0,
            0x1_0000,
            0x1_0000,
            Some((0, 0x1_0000)),
            Some((0, 0x1_0000)),
        ),
    );
    Ok(())
}

#[test]
fn a_trusted_cell_that_is_bound_gives_a_ticket(rt: HostRuntime) -> Result<(), OutOfMemory> {
    give_ticket::<Brand>(&rt, rt.alloc(), Blank::new(1))
}

#[test]
fn a_trusted_cell_is_seen_once_it_is_published_and_its_field_is_taken(
    rt: HostRuntime,
) -> Result<(), OutOfMemory> {
    publish_and_miss::<Brand>(&rt, rt.alloc(), Blank::new(1))
}

#[test]
fn a_trusted_cell_is_shared_with_a_second_field_once(rt: HostRuntime) -> Result<(), OutOfMemory> {
    share_twice::<Brand>(&rt, rt.alloc(), Blank::new(1))
}
