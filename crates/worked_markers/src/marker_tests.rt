// A marker on one thread: it scans a chain of objects from the root, and leaves out the one that nothing reaches.
ghost use Rattle.std.specs.Prelude.{◌≡◌, ◌<◌, IfOk};
ghost use Rattle.plain_table.specs.Shows.{IsLawful};
ghost use Rattle.entry_word.specs.Image.{image_of};
ghost use Rattle.sweeper.specs.Begin.{HasRoom};
ghost use Rattle.entry_base.specs.Callers.{SameCaller};
ghost use Rattle.entry_base.specs.Sessions.{view, IsOf};

use crate::asked::{FOUR, headers};
use crate::asserts::{assert_is, assert_words};
use crate::cycles::{begin_on, finish_settled, finish_with_one, open_with_roots};
use crate::entries::{bind, bind_published, forget, link_to, make_four};
use entry_base::{Session, Shared};
use entry_word::Image;
use marker::Marker;
use plain_table::{OutOfMemory, Policy};
use std::alloc::Global;
use std::process::Abort;
use sweeper::Area;
use worked_tables::{close_both, open_fresh};

/// Makes a chain from object 0, which variable 0 holds, over 1 to 2, and object 3 apart. External field 0 of each object names a
/// cell, at 1 to 4 in order, and the trusted field of object 2 a published one at 1.
fn make_chain(rt: &impl Abort, shared: &Shared, s: &mut Session)
    requires caller { IsOf shared.now s.old }
    requires mutator { (view s.old).number < 8 }
    ensures caller { IsOf shared.now s.new }
    ensures same { SameCaller (view s.old) (view s.new) }
{
    make_four(rt, shared, s);
    bind(rt, shared, s, 0, 0, 0xc1);
    bind(rt, shared, s, 1, 0, 0xc2);
    bind(rt, shared, s, 2, 0, 0xc3);
    bind(rt, shared, s, 3, 0, 0xc4);
    bind_published(rt, shared, s, 2, 0xd1);
    link_to(rt, shared, s, 0, 0, 1);
    link_to(rt, shared, s, 1, 3, 2);
    forget(rt, shared, s, 1);
    forget(rt, shared, s, 2);
    forget(rt, shared, s, 3);
}

/// The chain in a cycle with no area.
fn chain(rt: &impl Abort, alloc: Global) -> Result<(Image, Area), OutOfMemory>
    ensures lawful { IfOk result (λ t. IsLawful (image_of t.0)) }
    ensures shape { IfOk result (λ t. t.0.shape ≡ FOUR) }
    ensures room { IfOk result (λ t. HasRoom t.1 FOUR.objects) }
{
    let (shared, mut first) = open_fresh(alloc, FOUR)?;
    let mut s = first.split(&shared, 0, &[]);
    make_chain(rt, &shared, &mut s);
    let image = close_both(shared, first, s);
    begin_on(rt, alloc, image, FOUR, Policy::Never)
}

/// Asserts that the cells of the chain are marked and the one of the object apart is not.
fn assert_marked(rt: &impl Abort, image: &Image) {
    assert_is(rt, headers(rt, image), [3, 3, 3, 0]);
    assert_words(
        rt,
        image,
        &[
            (65, 0x400f_0000_0000_00c1),
            (66, 0x400f_0000_0000_00c2),
            (67, 0x400f_0000_0000_00c3),
            (68, 0x000f_0000_0000_00c4),
            (73, 0x400f_0000_0000_00d1),
        ],
    );
}

#[test]
fn a_run_scans_each_object_that_the_root_reaches(rt: HostRuntime) -> Result<(), OutOfMemory> {
    let (image, area) = chain(&rt, rt.alloc())?;
    let (shared, mut first, roots) = open_with_roots(rt.alloc(), image)?;
    assert!(rt; roots.as_slice() == [0].as_slice());
    let mut s = first.split(&shared, 8, roots.as_slice());
    let mut marker = Marker::new(rt.alloc(), 4)?;
    let scans = marker.run(&shared, &mut s, roots.as_slice());
    let none = marker.run(&shared, &mut s, &[]);
    assert_is(&rt, scans, 3);
    assert_is(&rt, none, 0);
    let mut image = close_both(shared, first, s);
    assert_marked(&rt, &image);
    let report = finish_settled(&rt, &mut image, area, FOUR);
    assert!(rt; report.kept == 3 && report.freed == 1);
    assert!(rt; report.trusted == 1 && report.tfreed == 0);
    Ok(())
}

#[test]
fn a_run_over_no_object_leaves_the_root_to_late_marking(
    rt: HostRuntime,
) -> Result<(), OutOfMemory> {
    let (image, area) = chain(&rt, rt.alloc())?;
    let (shared, mut first, roots) = open_with_roots(rt.alloc(), image)?;
    let mut s = first.split(&shared, 8, roots.as_slice());
    let mut marker = Marker::new(rt.alloc(), 4)?;
    let none = marker.run(&shared, &mut s, &[]);
    assert_is(&rt, none, 0);
    let mut image = close_both(shared, first, s);
    assert_is(&rt, headers(&rt, &image), [1, 0, 0, 0]);
    let report = finish_with_one(&rt, &mut image, area, FOUR, 0);
    assert!(rt; report.kept == 3 && report.freed == 1);
    assert!(rt; report.trusted == 1 && report.tfreed == 0);
    Ok(())
}
