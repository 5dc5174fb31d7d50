// A marker concurrently with a mutator: the mutator inits, links and shades while the marker runs, and each live holder keeps its
// cell.
ghost use Rattle.std.specs.Prelude.{◌≡◌, ◌<◌, ◌≤◌, [], ◌∷◌, IfOk};
ghost use Rattle.plain_table.specs.Shows.{IsLawful};
ghost use Rattle.entry_word.specs.Image.{image_of};
ghost use Rattle.sweeper.specs.Begin.{HasRoom};
ghost use Rattle.entry_base.specs.Callers.{SameCaller};
ghost use Rattle.entry_base.specs.Openings.{phase_of, sizes_in};
ghost use Rattle.entry_base.specs.Sessions.{view, IsOf};

use crate::asked::{FOUR, headers, only};
use crate::asserts::assert_is;
use crate::cycles::{begin_on, finish_settled, finish_with_one, open_with_roots};
use crate::entries::{bind, forget, link_to, make};
use crate::split_tests::run_on_thread;
use access_steps::load;
use entry_base::{Session, Shared};
use entry_word::Image;
use graph_steps::{fetch, link, shade};
use marker::Marker;
use plain_table::{OutOfMemory, Policy, Reply, SweepReport};
use std::alloc::Global;
use std::process::Abort;
use std::thread::{Threads, join};
use sweeper::Area;
use worked_tables::{close_both, close_three, open, open_fresh};

/// An image in a cycle with no area. Object 0, which variable 0 holds, refers to object 1, which refers to object 2. External field
/// 0 of object 0 and of object 2 name the cells at 1 and 2.
fn short_chain(rt: &impl Abort, alloc: Global) -> Result<(Image, Area), OutOfMemory>
    ensures lawful { IfOk result (λ t. IsLawful (image_of t.0)) }
    ensures shape { IfOk result (λ t. t.0.shape ≡ FOUR) }
    ensures room { IfOk result (λ t. HasRoom t.1 FOUR.objects) }
{
    let (shared, mut first) = open_fresh(alloc, FOUR)?;
    let mut s = first.split(&shared, 0, &[]);
    make(rt, &shared, &mut s, 0, 0);
    make(rt, &shared, &mut s, 1, 1);
    make(rt, &shared, &mut s, 2, 2);
    bind(rt, &shared, &mut s, 0, 0, 0xc1);
    bind(rt, &shared, &mut s, 2, 0, 0xc2);
    link_to(rt, &shared, &mut s, 0, 0, 1);
    link_to(rt, &shared, &mut s, 1, 0, 2);
    forget(rt, &shared, &mut s, 1);
    forget(rt, &shared, &mut s, 2);
    let image = close_both(shared, first, s);
    begin_on(rt, alloc, image, FOUR, Policy::Never)
}

/// Fetches the objects 1 and 2 into the variables 1 and 2.
fn fetch_both(rt: &impl Abort, shared: &Shared, s: &mut Session)
    requires caller { IsOf shared.now s.old }
    requires mutator { (view s.old).number < 8 }
    ensures caller { IsOf shared.now s.new }
    ensures same { SameCaller (view s.old) (view s.new) }
{
    let one = fetch(shared, s, 1, 0, 0);
    assert_is(rt, one, Reply::Obj(1));
    let two = fetch(shared, s, 2, 1, 0);
    assert_is(rt, two, Reply::Obj(2));
}

/// Moves object 2 from object 1 to object 0: links it there, which shades it, and unlinks it here. The answer is object 2 where it
/// was white. It is shaded then, whoever shades it.
fn move_link(rt: &impl Abort, shared: &Shared, s: &mut Session) -> Option<u32>
    requires caller { IsOf shared.now s.old }
    requires mutator { (view s.old).number < 8 }
    requires in_cycle { phase_of (view s.old).opening ≡ 1 }
    ensures caller { IsOf shared.now s.new }
    ensures same { SameCaller (view s.old) (view s.new) }
{
    let linked = link(shared, s, 0, 1, Some(2));
    assert_is(rt, linked.reply, Reply::Ok);
    let unlinked = link(shared, s, 1, 0, None);
    assert_is(rt, unlinked.reply, Reply::Ok);
    assert_is(rt, s.held(2), Some(2));
    let white = shade(shared, s, 2);
    assert_is(rt, white, false);
    linked.shaded
}

/// The mutator's work: new cells in external field 1 of the objects 0 and 2, and of a new object, and the move of a link.
fn work(rt: &impl Abort, shared: &Shared, mut s: Session) -> (Session, Option<u32>)
    requires caller { IsOf shared.now s }
    requires mutator { (view s).number < 8 }
    requires in_cycle { phase_of (view s).opening ≡ 1 }
    ensures caller { IsOf shared.now result.0 }
    ensures same { SameCaller (view s) (view result.0) }
{
    fetch_both(rt, shared, &mut s);
    bind(rt, shared, &mut s, 0, 1, 0xc3);
    let shaded = move_link(rt, shared, &mut s);
    bind(rt, shared, &mut s, 2, 1, 0xc4);
    make(rt, shared, &mut s, 3, 3);
    bind(rt, shared, &mut s, 3, 1, 0xc5);
    forget(rt, shared, &mut s, 1);
    forget(rt, shared, &mut s, 2);
    (s, shaded)
}

/// A marker runs from object 0 on one thread, and a mutator works on another one.
fn mark_and_work<R: Threads + Sync + Abort>(
    rt: &R,
    shared: &Shared,
    one: Session,
    marker: Marker,
    two: Session,
) -> ((Session, u32), (Session, Option<u32>))
    requires callers { IsOf shared.now one × IsOf shared.now two }
    requires hands { (view one).hands ≡ 0 ∷ [] }
    requires room { (sizes_in (view one).opening).objects ≤ marker }
    requires mutator { (view two).number < 8 }
    requires in_cycle { phase_of (view two).opening ≡ 1 }
    ensures callers { IsOf shared.now result.0.0 × IsOf shared.now result.1.0 }
    ensures same { SameCaller (view one) (view result.0.0) × SameCaller (view two) (view result.1.0) }
{
    join(
        rt,
        || run_on_thread(shared, one, marker, &[0]),
        || work(rt, shared, two),
    )
}

/// Finishes the cycle with the object that the mutator shaded, where it did.
fn finish(rt: &impl Abort, image: &mut Image, area: Area, shaded: Option<u32>) -> SweepReport
    requires lawful { IsLawful (image_of image.old) }
    requires room { HasRoom area FOUR.objects }
    ensures lawful { IsLawful (image_of image.new) }
    ensures shape { image.new.shape ≡ FOUR }
{
    match shaded {
        None => finish_settled(rt, image, area, FOUR),
        Some(object) => finish_with_one(rt, image, area, FOUR, object),
    }
}

/// Loads by an external field of a variable's object.
fn load_value(rt: &impl Abort, shared: &Shared, s: &mut Session, var: u32, f: u32, value: u64)
    requires caller { IsOf shared.now s.old }
    requires mutator { (view s.old).number < 8 }
    requires range { (var < 16) × (f < 2) }
    ensures caller { IsOf shared.now s.new }
    ensures same { SameCaller (view s.old) (view s.new) }
{
    let loaded = load(shared, s, var, f, only(rt, 0x0f));
    assert_is(rt, loaded, Reply::Value(value));
}

/// Loads by the fields of all live objects: 0, 2 and 3.
fn load_all(rt: &impl Abort, shared: &Shared, s: &mut Session)
    requires caller { IsOf shared.now s.old }
    requires mutator { (view s.old).number < 8 }
    ensures caller { IsOf shared.now s.new }
    ensures same { SameCaller (view s.old) (view s.new) }
{
    let two = fetch(shared, s, 2, 0, 1);
    assert_is(rt, two, Reply::Obj(2));
    load_value(rt, shared, s, 0, 0, 0xc1);
    load_value(rt, shared, s, 0, 1, 0xc3);
    load_value(rt, shared, s, 2, 0, 0xc2);
    load_value(rt, shared, s, 2, 1, 0xc4);
    load_value(rt, shared, s, 3, 1, 0xc5);
}

/// Loads by the fields of all live objects of the swept image.
fn load_after(rt: &impl Abort, alloc: Global, image: Image) -> Result<(), OutOfMemory>
    requires lawful { IsLawful (image_of image) }
    requires shape { image.shape ≡ FOUR }
{
    let (shared, mut first) = open(alloc, image)?;
    let mut s = first.split(&shared, 0, &[]);
    load_all(rt, &shared, &mut s);
    close_both(shared, first, s);
    Ok(())
}

#[test]
fn a_mutator_works_while_a_marker_runs(rt: HostRuntime) -> Result<(), OutOfMemory> {
    let (image, area) = short_chain(&rt, rt.alloc())?;
    let (shared, mut first, roots) = open_with_roots(rt.alloc(), image)?;
    assert!(rt; roots.as_slice() == [0].as_slice());
    let one = first.split(&shared, 8, roots.as_slice());
    let two = first.split(&shared, 0, &[]);
    assert_is(&rt, two.in_cycle(), true);
    let marker = Marker::new(rt.alloc(), 4)?;
    let ((one, scans), (two, shaded)) = mark_and_work(&rt, &shared, one, marker, two);
    let mut image = close_three(shared, first, one, two);
    let left = headers(&rt, &image);
    assert!(rt; left[0] == 3 && left[1] == 3 && left[3] == 3);
    let own = if shaded == None { 3 } else { 2 };
    assert_is(&rt, scans, own);
    let report = finish(&rt, &mut image, area, shaded);
    assert!(rt; report.kept == 5 && report.freed == 0);
    load_after(&rt, rt.alloc(), image)
}
