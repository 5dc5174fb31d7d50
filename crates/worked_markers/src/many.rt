// Many objects: a chain of holders, each with an object of its own, and these in eight chunks.
ghost use Rattle.std.specs.Prelude.{◌≡◌, ◌<◌, ◌∷◌, All, IfOk, length};
ghost use Rattle.plain_table.specs.Shows.{IsLawful};
ghost use Rattle.entry_word.specs.Image.{image_of};
ghost use Rattle.entry_base.specs.Callers.{SameCaller};
ghost use Rattle.entry_base.specs.Openings.{phase_of};
ghost use Rattle.entry_base.specs.Sessions.{view, IsChunkOf, IsOf};

use crate::asserts::assert_is;
use crate::cycles::begin_on;
use crate::entries::{forget, link_to, make};
use entry_base::{Chunk, Session, Shared};
use entry_word::{Image, Shape};
use graph_steps::{fetch, fetch_global, link_global, shade};
use plain_table::{OutOfMemory, Policy, Reply};
use std::alloc::Global;
use std::process::Abort;
use worked_tables::{close_both, open_fresh};

/// An external segment of four entries and a trusted one, and 501 objects: 251 holders, and an own object of each but the last.
pub(crate) const MANY: Shape = Shape {
    seg: 4,
    ext: 1,
    tru: 1,
    objects: 501,
};

/// Gives the holder of variable 0 an own object and a next holder, the object `made` and the one after it, and goes on to that
/// holder.
fn add_holder(rt: &impl Abort, shared: &Shared, s: &mut Session, made: u32)
    requires caller { IsOf shared.now s.old }
    requires mutator { (view s.old).number < 8 }
    requires few { made < 1000 }
    ensures caller { IsOf shared.now s.new }
    ensures same { SameCaller (view s.old) (view s.new) }
{
    make(rt, shared, s, 1, made);
    link_to(rt, shared, s, 0, 1, 1);
    make(rt, shared, s, 2, made + 1);
    link_to(rt, shared, s, 0, 0, 2);
    let next = fetch(shared, s, 0, 0, 0);
    assert_is(rt, next, Reply::Obj(made + 1));
}

/// Makes the holders from object 0 on and their own objects, of which global 0 and variable 0 then hold the first holder.
fn make_holders(rt: &impl Abort, shared: &Shared, s: &mut Session)
    requires caller { IsOf shared.now s.old }
    requires mutator { (view s.old).number < 8 }
    ensures caller { IsOf shared.now s.new }
    ensures same { SameCaller (view s.old) (view s.new) }
{
    make(rt, shared, s, 0, 0);
    let linked = link_global(shared, s, 0, Some(0));
    assert_is(rt, linked, Reply::Ok);
    for number in 0..250u32 {
        add_holder(rt, shared, s, 2 * number + 1);
    }
    forget(rt, shared, s, 1);
    forget(rt, shared, s, 2);
    let fetched = fetch_global(shared, s, 0, 0);
    assert_is(rt, fetched, Reply::Obj(0));
}

/// The holders and their own objects in a cycle with no area, whose root is object 0.
pub(crate) fn image_of_many(rt: &impl Abort, alloc: Global) -> Result<Image, OutOfMemory>
    ensures lawful { IfOk result (λ image. IsLawful (image_of image)) }
    ensures shape { IfOk result (λ image. image.shape ≡ MANY) }
{
    let (shared, mut first) = open_fresh(alloc, MANY)?;
    let mut s = first.split(&shared, 0, &[]);
    make_holders(rt, &shared, &mut s);
    let image = close_both(shared, first, s);
    let (image, area) = begin_on(rt, alloc, image, MANY, Policy::Never)?;
    assert!(rt; area.roots() == [0].as_slice());
    Ok(image)
}

/// Shades the own object of the holder of variable 0, which was white, and goes on to the next holder. The object comes into the
/// hands.
fn shade_own(rt: &impl Abort, shared: &Shared, s: &mut Session) -> u32
    requires caller { IsOf shared.now s.old }
    requires mutator { (view s.old).number < 8 }
    requires in_cycle { phase_of (view s.old).opening ≡ 1 }
    ensures caller { IsOf shared.now s.new }
    ensures same { SameCaller (view s.old) (view s.new) }
    ensures hands { (view s.new).hands ≡ result ∷ (view s.old).hands }
{
    let Reply::Obj(object) = fetch(shared, s, 1, 0, 1) else {
        panic!(rt; "the holder has no own object");
    };
    assert_is(rt, s.held(1), Some(object));
    let white = shade(shared, s, object);
    assert!(rt; white);
    let Reply::Obj(_) = fetch(shared, s, 0, 0, 0) else {
        panic!(rt; "there is no next holder");
    };
    object
}

/// Shades the own objects of so many holders from that of variable 0 on, and cuts them off in a chunk.
fn cut_own(
    rt: &impl Abort,
    alloc: Global,
    shared: &Shared,
    s: &mut Session,
    count: u32,
) -> Result<Chunk, OutOfMemory>
    requires caller { IsOf shared.now s.old }
    requires mutator { (view s.old).number < 8 }
    requires in_cycle { phase_of (view s.old).opening ≡ 1 }
    ensures caller { IsOf shared.now s.new }
    ensures opening { (view s.new).opening ≡ (view s.old).opening }
    ensures number { (view s.new).number ≡ (view s.old).number }
    ensures numbers { (view s.new).numbers ≡ (view s.old).numbers }
    ensures chunk { IfOk result (λ chunk. IsChunkOf shared.now chunk) }
{
    let mut objects = Vec::new(alloc);
    for _ in 0..count {
        let object = shade_own(rt, shared, s);
        let Ok(()) = objects.push(object) else {
            return Err(OutOfMemory);
        };
    }
    Ok(s.cut(shared, objects))
}

/// Eight chunks of 31 or 32 own objects, 250 in all.
pub(crate) fn eight_chunks(
    rt: &impl Abort,
    alloc: Global,
    shared: &Shared,
    s: &mut Session,
) -> Result<Vec<Chunk>, OutOfMemory>
    requires caller { IsOf shared.now s.old }
    requires mutator { (view s.old).number < 8 }
    requires in_cycle { phase_of (view s.old).opening ≡ 1 }
    ensures caller { IsOf shared.now s.new }
    ensures opening { (view s.new).opening ≡ (view s.old).opening }
    ensures number { (view s.new).number ≡ (view s.old).number }
    ensures numbers { (view s.new).numbers ≡ (view s.old).numbers }
    ensures eight { IfOk result (λ chunks. length chunks.items ≡ 8) }
    ensures chunks { IfOk result (λ chunks. All (IsChunkOf shared.now) chunks.items) }
{
    let mut chunks = Vec::new(alloc);
    for number in 0..8u32 {
        let count = if number < 2 { 32 } else { 31 };
        let Ok(()) = chunks.push(cut_own(rt, alloc, shared, s, count)?) else {
            return Err(OutOfMemory);
        };
    }
    Ok(chunks)
}
