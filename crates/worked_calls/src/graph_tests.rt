// Each answer of the calls on objects, references and globals, outside a cycle and in one, where a link shades its target.
ghost use Rattle.std.specs.Prelude.{◌≡◌, ◌<◌};
ghost use Rattle.entry_base.specs.Callers.{SameCaller};
ghost use Rattle.entry_base.specs.Openings.{phase_of};
ghost use Rattle.entry_base.specs.Sessions.{view, IsOf};

use crate::asked::{TWO, word_at};
use crate::asserts::{assert_is, assert_words};
use crate::cycles::begin_on;
use crate::entries::make;
use entry_base::{Session, Shared};
use graph_steps::{drop_var, fetch, fetch_global, link, link_global, shade};
use plain_table::{OutOfMemory, Policy, Reply};
use std::process::Abort;
use worked_tables::{close_both, open, open_fresh};

/// Links reference 3 of object 0 to object 1 and back to nothing, and fetches both. No link shades anything outside a cycle.
fn link_and_unlink(rt: &impl Abort, shared: &Shared, s: &mut Session)
    requires caller { IsOf shared.now s.old }
    ensures caller { IsOf shared.now s.new }
    ensures same { SameCaller (view s.old) (view s.new) }
{
    let linked = link(shared, s, 0, 3, Some(1));
    assert_is(rt, linked.reply, Reply::Ok);
    assert_is(rt, linked.shaded, None);
    let fetched = fetch(shared, s, 15, 0, 3);
    assert_is(rt, fetched, Reply::Obj(1));
    assert_is(rt, s.held(15), Some(1));
    let unlinked = link(shared, s, 0, 3, None);
    assert_is(rt, unlinked.reply, Reply::Ok);
    let fetched = fetch(shared, s, 15, 0, 3);
    assert_is(rt, fetched, Reply::Nothing);
    assert_is(rt, s.held(15), None);
}

/// Links a global to object 1 and to nothing, and fetches both.
fn link_a_global(rt: &impl Abort, shared: &Shared, s: &mut Session)
    requires caller { IsOf shared.now s.old }
    requires mutator { (view s.old).number < 8 }
    ensures caller { IsOf shared.now s.new }
    ensures same { SameCaller (view s.old) (view s.new) }
{
    let linked = link_global(shared, s, 15, Some(1));
    assert_is(rt, linked, Reply::Ok);
    let fetched = fetch_global(shared, s, 2, 15);
    assert_is(rt, fetched, Reply::Obj(1));
    let unlinked = link_global(shared, s, 15, None);
    assert_is(rt, unlinked, Reply::Ok);
    let fetched = fetch_global(shared, s, 2, 15);
    assert_is(rt, fetched, Reply::Nothing);
    assert_is(rt, s.held(2), None);
}

#[test]
fn each_answer_of_the_calls_on_objects_outside_a_cycle(rt: HostRuntime) -> Result<(), OutOfMemory> {
    let (shared, mut first) = open_fresh(rt.alloc(), TWO)?;
    let mut s = first.split(&shared, 0, &[]);
    make(&rt, &shared, &mut s, 0, 0);
    make(&rt, &shared, &mut s, 1, 1);
    link_and_unlink(&rt, &shared, &mut s);
    link_a_global(&rt, &shared, &mut s);
    let dropped = drop_var(&shared, &mut s, 0);
    assert_is(&rt, dropped, Reply::Ok);
    assert_is(&rt, s.held(0), None);
    let dropped = drop_var(&shared, &mut s, 0);
    assert_is(&rt, dropped, Reply::Ok);
    let image = close_both(shared, first, s);
    assert_words(&rt, &image, &[(3, 2), (31, 0), (36, 0)]);
    assert_is(&rt, image.vars.as_slice()[0], 0);
    assert_is(&rt, image.vars.as_slice()[1], 2);
    assert_is(&rt, image.vars.as_slice()[2], 0);
    Ok(())
}

/// Makes objects 0 and 1, of which reference 0 of object 0 alone holds object 1.
fn make_linked(rt: &impl Abort, shared: &Shared, s: &mut Session)
    requires caller { IsOf shared.now s.old }
    requires mutator { (view s.old).number < 8 }
    ensures caller { IsOf shared.now s.new }
    ensures same { SameCaller (view s.old) (view s.new) }
{
    make(rt, shared, s, 0, 0);
    make(rt, shared, s, 1, 1);
    let linked = link(shared, s, 0, 0, Some(1));
    assert_is(rt, linked.reply, Reply::Ok);
    let dropped = drop_var(shared, s, 1);
    assert_is(rt, dropped, Reply::Ok);
}

/// Fetches object 1 in a cycle, which is white, and links to it: the first link shades it, and the second one finds it shaded.
fn link_a_white_object(rt: &impl Abort, shared: &Shared, s: &mut Session)
    requires caller { IsOf shared.now s.old }
    ensures caller { IsOf shared.now s.new }
    ensures same { SameCaller (view s.old) (view s.new) }
{
    let fetched = fetch(shared, s, 1, 0, 0);
    assert_is(rt, fetched, Reply::Obj(1));
    let white = link(shared, s, 0, 1, Some(1));
    assert_is(rt, white.reply, Reply::Ok);
    assert_is(rt, white.shaded, Some(1));
    let grey = link(shared, s, 0, 2, Some(1));
    assert_is(rt, grey.reply, Reply::Ok);
    assert_is(rt, grey.shaded, None);
    let nothing = link(shared, s, 0, 2, None);
    assert_is(rt, nothing.reply, Reply::Ok);
    assert_is(rt, nothing.shaded, None);
}

/// Shades object 1, which variable 1 holds in a cycle: it was white at the first shading alone.
fn shade_twice(rt: &impl Abort, shared: &Shared, s: &mut Session)
    requires caller { IsOf shared.now s.old }
    requires cycle { phase_of (view s.old).opening ≡ 1 }
    ensures caller { IsOf shared.now s.new }
    ensures same { SameCaller (view s.old) (view s.new) }
{
    let fetched = fetch(shared, s, 1, 0, 0);
    assert_is(rt, fetched, Reply::Obj(1));
    assert_is(rt, s.held(1), Some(1));
    let white = shade(shared, s, 1);
    assert_is(rt, white, true);
    let again = shade(shared, s, 1);
    assert_is(rt, again, false);
}

#[test]
fn a_shading_says_whether_the_object_was_white(rt: HostRuntime) -> Result<(), OutOfMemory> {
    let (shared, mut first) = open_fresh(rt.alloc(), TWO)?;
    let mut s = first.split(&shared, 0, &[]);
    make_linked(&rt, &shared, &mut s);
    let image = close_both(shared, first, s);
    let (image, _) = begin_on(&rt, rt.alloc(), image, TWO, Policy::Never)?;
    let (shared, mut first) = open(rt.alloc(), image)?;
    let mut s = first.split(&shared, 0, &[]);
    assert_is(&rt, s.in_cycle(), true);
    shade_twice(&rt, &shared, &mut s);
    let image = close_both(shared, first, s);
    assert_is(&rt, word_at(&rt, &image, 40), 1);
    Ok(())
}

#[test]
fn a_link_in_a_cycle_says_what_it_shaded(rt: HostRuntime) -> Result<(), OutOfMemory> {
    let (shared, mut first) = open_fresh(rt.alloc(), TWO)?;
    let mut s = first.split(&shared, 0, &[]);
    make_linked(&rt, &shared, &mut s);
    let image = close_both(shared, first, s);
    let (image, area) = begin_on(&rt, rt.alloc(), image, TWO, Policy::Never)?;
    assert!(rt; area.roots() == [0].as_slice());
    assert_is(&rt, word_at(&rt, &image, 40), 0);
    let (shared, mut first) = open(rt.alloc(), image)?;
    let mut s = first.split(&shared, 0, &[]);
    assert_is(&rt, s.in_cycle(), true);
    link_a_white_object(&rt, &shared, &mut s);
    let image = close_both(shared, first, s);
    assert_words(&rt, &image, &[(34, 2), (35, 0), (40, 1)]);
    Ok(())
}
