// Links in a cycle: a mutator shades a white object before it links a reference to it.
ghost use Rattle.std.specs.Prelude.{◌≡◌, ◌<◌};
ghost use Rattle.entry_base.specs.Callers.{SameCaller};
ghost use Rattle.entry_base.specs.Openings.{phase_of};
ghost use Rattle.entry_base.specs.Sessions.{view, IsOf};

use crate::asserts::{assert_is, assert_words};
use crate::cycles::{image_to_mark, open_with_roots};
use entry_base::{Session, Shared};
use mark_rule::shade_seen;
use object_rule::{get_reference, link_reference};
use plain_table::OutOfMemory;
use std::alloc::Global;
use std::marker::Brand;
use std::process::Abort;
use std::sync::ledger::{Blank, Ledger};
use worked_tables::close_both;

/// Gets object 1 from reference 0 of object 0, which variable 0 holds, shades it, and links reference 1 of object 0 to it.
fn shade_and_link(rt: &impl Abort, shared: &Shared, s: &mut Session)
    requires caller { IsOf shared.now s.old }
    requires mutator { (view s.old).number < 8 }
    requires in_cycle { phase_of (view s.old).opening ≡ 1 }
    ensures caller { IsOf shared.now s.new }
    ensures same { SameCaller (view s.old) (view s.new) }
{
    assert_is(rt, s.held(0), Some(0));
    let got = get_reference(shared, s, 1, 0, 0);
    assert_is(rt, got, 2);
    assert_is(rt, s.held(1), Some(1));
    let white = shade_seen(shared, s, 1);
    assert_is(rt, white, 0);
    assert_is(rt, s.held(0), Some(0));
    assert_is(rt, s.held(1), Some(1));
    link_reference(shared, s, 0, 1, Some(1), 2);
}

fn link_in_cycle<L: Ledger>(rt: &impl Abort, alloc: Global, blank: Blank) -> Result<(), OutOfMemory>
    requires name { blank.name ≡ L.name }
    requires parts { blank.parts ≡ L.parts }
    requires one { blank.parts ≡ 1 }
{
    let image = image_to_mark::<L>(rt, alloc, blank)?;
    assert_words(rt, &image, &[(34, 0), (40, 0)]);
    let (shared, mut first, roots) = open_with_roots(alloc, image)?;
    assert!(rt; roots.as_slice() == [0].as_slice());
    let mut mutator = first.split(&shared, 0, &[]);
    assert_is(rt, mutator.in_cycle(), true);
    shade_and_link(rt, &shared, &mut mutator);
    let image = close_both(shared, first, mutator);
    assert_words(rt, &image, &[(34, 2), (40, 1)]);
    Ok(())
}

#[test]
fn a_reference_is_linked_in_a_cycle_to_an_object_that_was_shaded(
    rt: HostRuntime,
) -> Result<(), OutOfMemory> {
    link_in_cycle::<Brand>(&rt, rt.alloc(), Blank::new(1))
}
