// Each answer of the calls of a marker once, in a cycle with no area.
ghost use Rattle.std.specs.Prelude.{◌≡◌, ◌<◌, IfOk};
ghost use Rattle.plain_table.specs.Shows.{IsLawful};
ghost use Rattle.entry_word.specs.Image.{image_of};
ghost use Rattle.entry_base.specs.Callers.{SameCaller};
ghost use Rattle.entry_base.specs.Openings.{phase_of};
ghost use Rattle.entry_base.specs.Sessions.{view, IsOf};
ghost use Rattle.mark_rule.specs.Marking.{InHands};

use crate::asked::{FOUR, headers, word_at};
use crate::asserts::{assert_is, assert_words};
use crate::cycles::{begin_on, open_with_roots};
use crate::entries::{bind, bind_published, forge_word, forget, link_to, make};
use crate::scans::{evacuate_by, mark_by};
use entry_base::{Session, Shared};
use entry_word::Image;
use mark_steps::{Evacuated, Mark, ref_at, share_mark};
use object_rule::name_trusted;
use plain_table::{OutOfMemory, Policy};
use std::alloc::Global;
use std::process::Abort;
use worked_tables::{close_both, close_three, open_fresh};

/// An image in a cycle with no area. Object 0, the root, refers to object 1 by its reference 3. Its external field 0 and its
/// trusted field name cells at 1, its field 1 is forged to a word past the limit, and object 1 has a trusted cell at 2.
fn image_to_mark(rt: &impl Abort, alloc: Global) -> Result<Image, OutOfMemory>
    ensures lawful { IfOk result (λ image. IsLawful (image_of image)) }
    ensures shape { IfOk result (λ image. image.shape ≡ FOUR) }
{
    let (shared, mut first) = open_fresh(alloc, FOUR)?;
    let mut s = first.split(&shared, 0, &[]);
    make(rt, &shared, &mut s, 0, 0);
    make(rt, &shared, &mut s, 1, 1);
    bind(rt, &shared, &mut s, 0, 0, 0xc1);
    forge_word(rt, &shared, &mut s, 0, 1, 0xffff_0000);
    bind_published(rt, &shared, &mut s, 0, 0xd1);
    bind_published(rt, &shared, &mut s, 1, 0xd2);
    link_to(rt, &shared, &mut s, 0, 3, 1);
    forget(rt, &shared, &mut s, 1);
    let image = close_both(shared, first, s);
    let (image, area) = begin_on(rt, alloc, image, FOUR, Policy::Never)?;
    assert_is(rt, area.start(), None);
    Ok(image)
}

/// Reads the references 0 and 3 of object 0.
fn read_references(rt: &impl Abort, shared: &Shared, s: &mut Session)
    requires caller { IsOf shared.now s.old }
    requires hands { InHands (view s.old) 0 }
    ensures caller { IsOf shared.now s.new }
    ensures same { SameCaller (view s.old) (view s.new) }
    ensures hands { (view s.new).hands ≡ (view s.old).hands }
{
    let none = ref_at(shared, s, 0, 0);
    assert_is(rt, none, None);
    let some = ref_at(shared, s, 0, 3);
    assert_is(rt, some, Some(1));
}

/// Marks by the trusted field of object 0 twice.
fn mark_trusted(rt: &impl Abort, shared: &Shared, s: &mut Session)
    requires caller { IsOf shared.now s.old }
    requires hands { InHands (view s.old) 0 }
    ensures caller { IsOf shared.now s.new }
    ensures same { SameCaller (view s.old) (view s.new) }
    ensures hands { (view s.new).hands ≡ (view s.old).hands }
{
    let set = mark_by(rt, shared, s, 0, 2, 0x0001_0000);
    assert_is(rt, set, Mark::Set);
    let already = mark_by(rt, shared, s, 0, 2, 0x0001_0000);
    assert_is(rt, already, Mark::Already);
}

/// Marks and evacuates by the external fields of object 0: a cell, which has not to move, and a word past the limit.
fn mark_external(rt: &impl Abort, shared: &Shared, s: &mut Session)
    requires caller { IsOf shared.now s.old }
    requires hands { InHands (view s.old) 0 }
    ensures caller { IsOf shared.now s.new }
    ensures same { SameCaller (view s.old) (view s.new) }
    ensures hands { (view s.new).hands ≡ (view s.old).hands }
{
    let set = mark_by(rt, shared, s, 0, 0, 0x0001_0000);
    assert_is(rt, set, Mark::Set);
    let stays = evacuate_by(rt, shared, s, 0, 0, 0x0001_0000);
    assert_is(rt, stays, Evacuated::NotNeeded);
    let none = mark_by(rt, shared, s, 0, 1, 0xffff_0000);
    assert_is(rt, none, Mark::NoCell);
    let stays = evacuate_by(rt, shared, s, 0, 1, 0xffff_0000);
    assert_is(rt, stays, Evacuated::NotNeeded);
}

#[test]
fn each_answer_of_the_calls_on_an_object_of_the_hands(rt: HostRuntime) -> Result<(), OutOfMemory> {
    let image = image_to_mark(&rt, rt.alloc())?;
    let (shared, mut first, roots) = open_with_roots(rt.alloc(), image)?;
    assert!(rt; roots.as_slice() == [0].as_slice());
    let mut s = first.split(&shared, 8, roots.as_slice());
    read_references(&rt, &shared, &mut s);
    mark_trusted(&rt, &shared, &mut s);
    mark_external(&rt, &shared, &mut s);
    let image = close_both(shared, first, s);
    assert_is(&rt, headers(&rt, &image), [1, 0, 3, 3]);
    assert_words(
        &rt,
        &image,
        &[
            (65, 0x400f_0000_0000_00c1),
            (73, 0x400f_0000_0000_00d1),
            (74, 0x000f_0000_0000_00d2),
        ],
    );
    Ok(())
}

/// Marks the cell that the trusted field of object 0 names, which variable 0 holds, as a share does.
fn mark_to_share(rt: &impl Abort, shared: &Shared, s: &mut Session)
    requires caller { IsOf shared.now s.old }
    requires mutator { (view s.old).number < 8 }
    requires in_cycle { phase_of (view s.old).opening ≡ 1 }
    ensures caller { IsOf shared.now s.new }
    ensures same { SameCaller (view s.old) (view s.new) }
{
    assert_is(rt, s.held(0), Some(0));
    let word = name_trusted(shared, s, 0) as u32;
    if word == 0 {
        panic!(rt; "the field names no cell");
    }
    share_mark(shared, s, 0, word);
}

#[test]
fn a_cell_to_be_shared_is_marked_by_its_mutator(rt: HostRuntime) -> Result<(), OutOfMemory> {
    let image = image_to_mark(&rt, rt.alloc())?;
    let (shared, mut first, roots) = open_with_roots(rt.alloc(), image)?;
    assert!(rt; roots.as_slice() == [0].as_slice());
    let mut marker = first.split(&shared, 8, roots.as_slice());
    let mut mutator = first.split(&shared, 0, &[]);
    assert_is(&rt, mutator.in_cycle(), true);
    mark_to_share(&rt, &shared, &mut mutator);
    mark_to_share(&rt, &shared, &mut mutator);
    let already = mark_by(&rt, &shared, &mut marker, 0, 2, 0x0001_0000);
    assert_is(&rt, already, Mark::Already);
    let image = close_three(shared, first, mutator, marker);
    assert_is(&rt, word_at(&rt, &image, 73), 0x400f_0000_0000_00d1);
    Ok(())
}
