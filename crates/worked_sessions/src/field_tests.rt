// Fields, references and globals on one thread: each is named or got before and after it is bound, forged or linked.
ghost use Rattle.std.specs.Prelude.{◌≡◌, ◌+◌, ◌%◌, ◌^◌, ◌<◌, None};
ghost use Rattle.plain_table.specs.declared.events.Space.TheVariants.{External, Trusted};
ghost use Rattle.plain_table.specs.Table.{limit_in};
ghost use Rattle.entry_base.specs.Callers.{SameCaller};
ghost use Rattle.entry_base.specs.Openings.{phase_of, sizes_in, start_of};
ghost use Rattle.entry_base.specs.Owns.{IsHeld};
ghost use Rattle.entry_base.specs.Sessions.{view, IsOf};

use crate::asserts::assert_is;
use entry_base::{Session, Shared};
use entry_word::Image;
use freelist_rule::Steps;
use object_rule::{
    bind_external, forge_step, get_global, get_reference, link_global, link_reference,
    name_external,
};
use plain_table::OutOfMemory;
use std::alloc::Global;
use std::marker::Brand;
use std::process::Abort;
use std::sync::ledger::{Blank, Ledger};
use worked_tables::{SHAPE, change_at, close_both, make_next, open_fresh, put_next};

/// Puts the next external cell, and tries to bind it to external field 0 of object 0, which variable 0 holds. The answer is the word
/// that was found.
fn bind_next<L: Ledger>(
    rt: &impl Abort,
    shared: &Shared,
    s: &mut Session,
    word: u64,
    next: u32,
    value: u64,
    steps: &mut Steps<L>,
) -> u64
    requires caller { IsOf shared.now s.old }
    requires mutator { (view s.old).number < 8 }
    requires no_area { start_of (view s.old).opening ≡ None }
    requires small { value < 2 ^ 48 }
    ensures caller { IsOf shared.now s.new }
    ensures same { SameCaller (view s.old) (view s.new) }
    ensures ticked { steps.new ≡ steps.old + 1 }
{
    let Some(index) = put_next(shared, s, word, next, value, steps) else {
        panic!(rt; "the freelist word is not the one that was expected");
    };
    assert_is(rt, s.held(0), Some(0));
    bind_external(shared, s, 0, 65536 * index)
}

/// The word of an external field of object 0, which variable 0 holds.
fn field_word(rt: &impl Abort, shared: &Shared, s: &mut Session, f: u32) -> u64
    requires caller { IsOf shared.now s.old }
    requires mutator { (view s.old).number < 8 }
    requires few { f < 2 }
    ensures caller { IsOf shared.now s.new }
    ensures same { SameCaller (view s.old) (view s.new) }
{
    assert_is(rt, s.held(0), Some(0));
    name_external(shared, s, f)
}

/// Binds two cells to the empty external field 0 of object 0, the second one in vain. The field is named before and between.
fn bind_both<L: Ledger>(rt: &impl Abort, shared: &Shared, s: &mut Session, steps: &mut Steps<L>)
    requires caller { IsOf shared.now s.old }
    requires mutator { (view s.old).number < 8 }
    requires no_area { start_of (view s.old).opening ≡ None }
    ensures caller { IsOf shared.now s.new }
    ensures same { SameCaller (view s.old) (view s.new) }
    ensures ticked { steps.new ≡ steps.old + 2 }
{
    let empty = field_word(rt, shared, s, 0);
    let won = bind_next(rt, shared, s, 0x3_0000_0001, 2, 0xc0, steps);
    let bound = field_word(rt, shared, s, 0);
    let taken = bind_next(rt, shared, s, 0x2_0000_0002, 3, 0xd0, steps);
    assert_is(rt, (empty, won, bound, taken), (0, 0, 0x1_0000, 0x1_0000));
}

fn bind_twice<L: Ledger>(rt: &impl Abort, alloc: Global, blank: Blank) -> Result<(), OutOfMemory>
    requires name { blank.name ≡ L.name }
    requires parts { blank.parts ≡ L.parts }
    requires one { blank.parts ≡ 1 }
{
    let before = Image::fresh(alloc, SHAPE)?;
    let (shared, mut first) = open_fresh(alloc, SHAPE)?;
    let mut one = first.split(&shared, 0, &[]);
    assert_is(rt, one.area(), None);
    let mut steps = Steps::<L>::start(blank);
    assert!(rt; make_next(&shared, &mut one, 0, 0));
    bind_both(rt, &shared, &mut one, &mut steps);
    let after = close_both(shared, first, one);
    assert_is(
        rt,
        (
            change_at(&before, &after, 37),
            change_at(&before, &after, 65),
            change_at(&before, &after, 66),
        ),
        (
            Some((0, 0x1_0000)),
            Some(((1 << 56) + 2, 0x400f_0000_0000_00c0)),
            Some(((1 << 56) + 3, 0x400f_0000_0000_00d0)),
        ),
    );
    Ok(())
}

#[test]
fn an_external_field_is_bound_once(rt: HostRuntime) -> Result<(), OutOfMemory> {
    bind_twice::<Brand>(&rt, rt.alloc(), Blank::new(1))
}

/// Forges a word into external field 1 of object 0, which variable 0 holds. The field is named before and after.
fn forge_second(rt: &impl Abort, shared: &Shared, s: &mut Session)
    requires caller { IsOf shared.now s.old }
    requires mutator { (view s.old).number < 8 }
    ensures caller { IsOf shared.now s.new }
    ensures same { SameCaller (view s.old) (view s.new) }
{
    let before = field_word(rt, shared, s, 1);
    assert_is(rt, before, 0);
    assert_is(rt, s.held(0), Some(0));
    forge_step(shared, s, 1, 0xffff_0007);
    let after = field_word(rt, shared, s, 1);
    assert_is(rt, after, 0xffff_0007);
}

#[test]
fn any_word_is_forged_into_an_external_field(rt: HostRuntime) -> Result<(), OutOfMemory> {
    let before = Image::fresh(rt.alloc(), SHAPE)?;
    let (shared, mut first) = open_fresh(rt.alloc(), SHAPE)?;
    let mut one = first.split(&shared, 0, &[]);
    assert!(rt; make_next(&shared, &mut one, 0, 0));
    forge_second(&rt, &shared, &mut one);
    let after = close_both(shared, first, one);
    assert_is(
        &rt,
        (
            change_at(&before, &after, 38),
            change_at(&before, &after, 37),
        ),
        (Some((0, 0xffff_0007)), Some((0, 0))),
    );
    Ok(())
}

/// Gets a global into a variable. The answer is the global's word.
fn global_word(shared: &Shared, s: &mut Session, into: u32, g: u32) -> u64
    requires caller { IsOf shared.now s.old }
    requires mutator { (view s.old).number < 8 }
    requires variable { into < 16 }
    requires few { g < 16 }
    ensures caller { IsOf shared.now s.new }
    ensures same { SameCaller (view s.old) (view s.new) }
{
    get_global(shared, s, into, g)
}

/// Links global 3 to object 0, which variable 0 holds, and global 4 too, which is then made to hold nothing.
fn link_globals(rt: &impl Abort, shared: &Shared, s: &mut Session)
    requires caller { IsOf shared.now s.old }
    requires mutator { (view s.old).number < 8 }
    ensures caller { IsOf shared.now s.new }
    ensures same { SameCaller (view s.old) (view s.new) }
{
    assert_is(rt, s.held(0), Some(0));
    link_global(shared, s, 3, Some(0), 1);
    link_global(shared, s, 4, Some(0), 1);
    link_global(shared, s, 4, None, 0);
}

#[test]
fn a_global_that_holds_nothing_is_got_linked_and_emptied(
    rt: HostRuntime,
) -> Result<(), OutOfMemory> {
    let before = Image::fresh(rt.alloc(), SHAPE)?;
    let (shared, mut first) = open_fresh(rt.alloc(), SHAPE)?;
    let mut one = first.split(&shared, 0, &[]);
    assert!(rt; make_next(&shared, &mut one, 0, 0));
    assert_is(&rt, global_word(&shared, &mut one, 1, 3), 0);
    assert_is(&rt, one.held(1), None);
    link_globals(&rt, &shared, &mut one);
    assert_is(&rt, global_word(&shared, &mut one, 1, 3), 1);
    assert_is(&rt, global_word(&shared, &mut one, 2, 4), 0);
    assert_is(&rt, (one.held(1), one.held(2)), (Some(0), None));
    let after = close_both(shared, first, one);
    assert_is(
        &rt,
        (
            change_at(&before, &after, 19),
            change_at(&before, &after, 20),
        ),
        (Some((0, 1)), Some((0, 0))),
    );
    Ok(())
}

/// Gets an empty reference of object 0, which variable 0 holds, links it and another one to the object, and empties that one.
fn link_references(rt: &impl Abort, shared: &Shared, s: &mut Session)
    requires caller { IsOf shared.now s.old }
    requires mutator { (view s.old).number < 8 }
    requires outside { phase_of (view s.old).opening ≡ 0 }
    ensures caller { IsOf shared.now s.new }
    ensures same { SameCaller (view s.old) (view s.new) }
{
    assert_is(rt, s.held(0), Some(0));
    let empty = get_reference(shared, s, 1, 0, 2);
    assert_is(rt, empty, 0);
    assert_is(rt, s.held(1), None);
    assert_is(rt, s.held(0), Some(0));
    link_reference(shared, s, 0, 2, Some(0), 1);
    link_reference(shared, s, 0, 3, Some(0), 1);
    link_reference(shared, s, 0, 3, None, 0);
}

#[test]
fn a_reference_that_holds_nothing_is_got_linked_and_emptied(
    rt: HostRuntime,
) -> Result<(), OutOfMemory> {
    let before = Image::fresh(rt.alloc(), SHAPE)?;
    let (shared, mut first) = open_fresh(rt.alloc(), SHAPE)?;
    let mut one = first.split(&shared, 0, &[]);
    assert_is(&rt, one.in_cycle(), false);
    assert!(rt; make_next(&shared, &mut one, 0, 0));
    link_references(&rt, &shared, &mut one);
    let after = close_both(shared, first, one);
    assert_is(
        &rt,
        (
            change_at(&before, &after, 35),
            change_at(&before, &after, 36),
        ),
        (Some((0, 1)), Some((0, 0))),
    );
    Ok(())
}
