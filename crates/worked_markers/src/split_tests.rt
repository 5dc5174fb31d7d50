// Two markers on two threads: the hands are split between them, and each object is scanned once.
ghost use Rattle.std.specs.Prelude.{◌≡◌, ◌≤◌, ℕ, [], ◌∷◌, IfOk};
ghost use Rattle.plain_table.specs.Shows.{IsLawful};
ghost use Rattle.entry_word.specs.Image.{image_of};
ghost use Rattle.sweeper.specs.Begin.{HasRoom};
ghost use Rattle.entry_base.specs.Callers.{SameCaller};
ghost use Rattle.entry_base.specs.Lists.{AreIn, count_in};
ghost use Rattle.entry_base.specs.Openings.{sizes_in};
ghost use Rattle.entry_base.specs.Sessions.{view, IsOf};

use crate::asked::{FOUR, headers};
use crate::asserts::{assert_is, assert_words};
use crate::cycles::{begin_on, finish_settled, open_with_roots};
use crate::entries::{bind, forget, link_to, make_four};
use entry_base::{Session, Shared};
use entry_word::Image;
use marker::Marker;
use plain_table::{OutOfMemory, Policy};
use std::alloc::Global;
use std::process::Abort;
use std::thread::{Threads, join};
use sweeper::Area;
use worked_tables::{close_both, close_three, open_fresh};

/// An image in a cycle with no area, whose roots 0 and 1 both refer to object 2, which refers to object 3. External field 0 of each
/// object names a cell, at 1 to 4 in order.
fn diamond(rt: &impl Abort, alloc: Global) -> Result<(Image, Area), OutOfMemory>
    ensures lawful { IfOk result (λ t. IsLawful (image_of t.0)) }
    ensures shape { IfOk result (λ t. t.0.shape ≡ FOUR) }
    ensures room { IfOk result (λ t. HasRoom t.1 FOUR.objects) }
{
    let (shared, mut first) = open_fresh(alloc, FOUR)?;
    let mut s = first.split(&shared, 0, &[]);
    make_four(rt, &shared, &mut s);
    bind(rt, &shared, &mut s, 0, 0, 0xc1);
    bind(rt, &shared, &mut s, 1, 0, 0xc2);
    bind(rt, &shared, &mut s, 2, 0, 0xc3);
    bind(rt, &shared, &mut s, 3, 0, 0xc4);
    link_to(rt, &shared, &mut s, 0, 0, 2);
    link_to(rt, &shared, &mut s, 1, 3, 2);
    link_to(rt, &shared, &mut s, 2, 1, 3);
    forget(rt, &shared, &mut s, 2);
    forget(rt, &shared, &mut s, 3);
    let image = close_both(shared, first, s);
    begin_on(rt, alloc, image, FOUR, Policy::Never)
}

/// Runs a marker on a thread over objects of its session's hands. The answer is the number of scans.
pub(crate) fn run_on_thread(
    shared: &Shared,
    mut s: Session,
    mut marker: Marker,
    from: &[u32],
) -> (Session, u32)
    requires caller { IsOf shared.now s }
    requires hands { AreIn from.now (view s).hands }
    requires once { (q : ℕ) → count_in q from.now ≤ 1 }
    requires room { (sizes_in (view s).opening).objects ≤ marker }
    ensures caller { IsOf shared.now result.0 }
    ensures same { SameCaller (view s) (view result.0) }
{
    let scans = marker.run(shared, &mut s, from);
    (s, scans)
}

/// Two threads mark, one from object 0 and one from object 1.
fn both_mark<R: Threads + Sync + Abort>(
    rt: &R,
    shared: &Shared,
    sessions: (Session, Session),
    markers: (Marker, Marker),
) -> ((Session, u32), (Session, u32))
    requires callers { IsOf shared.now sessions.0 × IsOf shared.now sessions.1 }
    requires first_hands { (view sessions.0).hands ≡ 0 ∷ [] }
    requires second_hands { (view sessions.1).hands ≡ 1 ∷ [] }
    requires first_room { (sizes_in (view sessions.0).opening).objects ≤ markers.0 }
    requires second_room { (sizes_in (view sessions.1).opening).objects ≤ markers.1 }
    ensures callers { IsOf shared.now result.0.0 × IsOf shared.now result.1.0 }
    ensures first_same { SameCaller (view sessions.0) (view result.0.0) }
    ensures second_same { SameCaller (view sessions.1) (view result.1.0) }
{
    let (one, two) = sessions;
    let (here, there) = markers;
    join(
        rt,
        || run_on_thread(shared, one, here, &[0]),
        || run_on_thread(shared, two, there, &[1]),
    )
}

#[test]
fn two_markers_scan_each_object_once(rt: HostRuntime) -> Result<(), OutOfMemory> {
    let (image, area) = diamond(&rt, rt.alloc())?;
    let (shared, mut first, roots) = open_with_roots(rt.alloc(), image)?;
    assert!(rt; roots.as_slice() == [0, 1].as_slice());
    let one = first.split(&shared, 8, &[0]);
    let two = first.split(&shared, 9, &[1]);
    let markers = (Marker::new(rt.alloc(), 4)?, Marker::new(rt.alloc(), 4)?);
    let ((one, here), (two, there)) = both_mark(&rt, &shared, (one, two), markers);
    assert!(rt; 1 <= here && here <= 3);
    assert_is(&rt, here.saturating_add(there), 4);
    let mut image = close_three(shared, first, one, two);
    assert_is(&rt, headers(&rt, &image), [3, 3, 3, 3]);
    assert_words(
        &rt,
        &image,
        &[(67, 0x400f_0000_0000_00c3), (68, 0x400f_0000_0000_00c4)],
    );
    let report = finish_settled(&rt, &mut image, area, FOUR);
    assert!(rt; report.kept == 4 && report.freed == 0);
    Ok(())
}
