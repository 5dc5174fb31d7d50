// A cycle with an area and no room below it: an evacuation aborts the compaction.
ghost use Rattle.std.specs.Prelude.{◌≡◌, [], ◌∷◌, IfOk};
ghost use Rattle.plain_table.specs.Shows.{IsLawful};
ghost use Rattle.entry_word.specs.Image.{image_of};
ghost use Rattle.sweeper.specs.Begin.{HasRoom};
ghost use Rattle.entry_base.specs.Callers.{SameCaller};
ghost use Rattle.entry_base.specs.Sessions.{view, IsOf};

use crate::asked::TWO;
use crate::asserts::{assert_is, assert_words};
use crate::cycles::{begin_on, open_with_roots};
use crate::entries::{bind, forge_word, make};
use crate::scans::{evacuate_by, mark_by};
use entry_base::{Session, Shared};
use entry_word::Image;
use mark_steps::{Evacuated, Mark};
use plain_table::{OutOfMemory, Policy};
use std::alloc::Global;
use std::process::Abort;
use sweeper::Area;
use worked_tables::{close_both, close_three, open_fresh};

/// An image in a cycle whose area begins at 4, with objects 0 and 1, whose four external fields name the cells at 1 to 4: no index
/// below the area is free.
fn image_without_room(rt: &impl Abort, alloc: Global) -> Result<(Image, Area), OutOfMemory>
    ensures lawful { IfOk result (λ t. IsLawful (image_of t.0)) }
    ensures shape { IfOk result (λ t. t.0.shape ≡ TWO) }
    ensures room { IfOk result (λ t. HasRoom t.1 TWO.objects) }
{
    let (shared, mut first) = open_fresh(alloc, TWO)?;
    let mut s = first.split(&shared, 0, &[]);
    make(rt, &shared, &mut s, 0, 0);
    make(rt, &shared, &mut s, 1, 1);
    bind(rt, &shared, &mut s, 0, 0, 0xc1);
    bind(rt, &shared, &mut s, 0, 1, 0xc2);
    bind(rt, &shared, &mut s, 1, 0, 0xc3);
    bind(rt, &shared, &mut s, 1, 1, 0xc4);
    let image = close_both(shared, first, s);
    begin_on(rt, alloc, image, TWO, Policy::Always)
}

/// Evacuates field 1 of object 1, whose cell at index 4 has to move, and field 0 of object 0, whose cell at index 1 has not.
fn evacuate_both(rt: &impl Abort, shared: &Shared, s: &mut Session)
    requires caller { IsOf shared.now s.old }
    requires hands { (view s.old).hands ≡ 0 ∷ 1 ∷ [] }
    ensures caller { IsOf shared.now s.new }
    ensures same { SameCaller (view s.old) (view s.new) }
    ensures hands { (view s.new).hands ≡ (view s.old).hands }
{
    let aborted = evacuate_by(rt, shared, s, 1, 1, 0x0004_0000);
    assert_is(rt, aborted, Evacuated::Aborted);
    let again = evacuate_by(rt, shared, s, 1, 1, 0x0004_0000);
    assert_is(rt, again, Evacuated::Aborted);
    let stays = evacuate_by(rt, shared, s, 0, 0, 0x0001_0000);
    assert_is(rt, stays, Evacuated::NotNeeded);
}

/// Marks the cell at index 4 twice.
fn mark_twice(rt: &impl Abort, shared: &Shared, s: &mut Session)
    requires caller { IsOf shared.now s.old }
    requires hands { (view s.old).hands ≡ 0 ∷ 1 ∷ [] }
    ensures caller { IsOf shared.now s.new }
    ensures same { SameCaller (view s.old) (view s.new) }
    ensures hands { (view s.new).hands ≡ (view s.old).hands }
{
    let set = mark_by(rt, shared, s, 1, 1, 0x0004_0000);
    assert_is(rt, set, Mark::Set);
    let already = mark_by(rt, shared, s, 1, 1, 0x0004_0000);
    assert_is(rt, already, Mark::Already);
}

/// Marks by a forged word at whose index no cell stands.
fn mark_forged(rt: &impl Abort, shared: &Shared, s: &mut Session)
    requires caller { IsOf shared.now s.old }
    requires hands { (view s.old).hands ≡ 0 ∷ 1 ∷ [] }
    ensures caller { IsOf shared.now s.new }
    ensures same { SameCaller (view s.old) (view s.new) }
{
    let none = mark_by(rt, shared, s, 0, 0, 0x0005_0000);
    assert_is(rt, none, Mark::NoCell);
}

#[test]
fn an_evacuation_with_no_index_below_the_area_aborts_the_compaction(
    rt: HostRuntime,
) -> Result<(), OutOfMemory> {
    let (image, area) = image_without_room(&rt, rt.alloc())?;
    assert_is(&rt, area.start(), Some(4));
    let (shared, mut first, roots) = open_with_roots(rt.alloc(), image)?;
    assert!(rt; roots.as_slice() == [0, 1].as_slice());
    let mut marker = first.split(&shared, 8, roots.as_slice());
    let mut mutator = first.split(&shared, 0, &[]);
    evacuate_both(&rt, &shared, &mut marker);
    mark_twice(&rt, &shared, &mut marker);
    forge_word(&rt, &shared, &mut mutator, 0, 0, 0x0005_0000);
    mark_forged(&rt, &shared, &mut marker);
    let image = close_three(shared, first, marker, mutator);
    assert_words(
        &rt,
        &image,
        &[(52, 0x400f_0000_0000_00c4), (49, 0x000f_0000_0000_00c1)],
    );
    Ok(())
}
