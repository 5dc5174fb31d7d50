// Cycles: a table that is opened on an image in a cycle, and a chunk whose object a marker loads the words of.
ghost use Rattle.std.specs.Prelude.{◌≡◌, ◌<◌, [], ◌∷◌, IfOk};
ghost use Rattle.plain_table.specs.Shows.{IsLawful};
ghost use Rattle.word_laws.specs.Small.{AreSmall};
ghost use Rattle.entry_word.specs.Image.{image_of, sizes_of};
ghost use Rattle.entry_base.specs.Callers.{SameCaller};
ghost use Rattle.entry_base.specs.Lists.{AreIn, without_one};
ghost use Rattle.entry_base.specs.Openings.{sizes_in};
ghost use Rattle.entry_base.specs.Sessions.{view, IsOf};
ghost use Rattle.entry_base.specs.Views.{numbers_below};
ghost use Rattle.mark_rule.specs.Marking.{InHands};

use crate::asserts::{assert_is, assert_words};
use crate::cycles::{image_in_a_cycle, open_with_roots};
use entry_base::{Session, Shared, owed_objects};
use mark_rule::{load_reference, load_word};
use plain_table::OutOfMemory;
use std::process::Abort;
use worked_tables::{close_both, close_whole, open};

#[test]
fn an_object_that_a_variable_holds_is_the_root_of_a_cycle(
    rt: HostRuntime,
) -> Result<(), OutOfMemory> {
    let image = image_in_a_cycle(&rt, rt.alloc())?;
    let roots = owed_objects(rt.alloc(), &image)?;
    assert_is(&rt, roots.as_slice(), [0].as_slice());
    assert_words(&rt, &image, &[(4, 1), (32, 1), (40, 3)]);
    Ok(())
}

#[test]
fn a_phase_in_a_cycle_without_a_step_leaves_the_image_as_it_was(
    rt: HostRuntime,
) -> Result<(), OutOfMemory> {
    let before = image_in_a_cycle(&rt, rt.alloc())?;
    let image = image_in_a_cycle(&rt, rt.alloc())?;
    let (shared, session) = open(rt.alloc(), image)?;
    assert_is(&rt, session.in_cycle(), true);
    assert_is(&rt, session.area(), None);
    let after = close_whole(shared, session);
    assert_is(&rt, after.words.as_slice(), before.words.as_slice());
    assert_is(&rt, after.vars.as_slice(), before.vars.as_slice());
    Ok(())
}

// Loads a field of object 0 of the hands, which is empty.
fn load_empty_field(rt: &impl Abort, shared: &Shared, s: &mut Session, f: u32)
    requires caller { IsOf shared.now s.old }
    requires hands { InHands (view s.old) 0 }
    requires few { f < 3 }
    ensures caller { IsOf shared.now s.new }
    ensures same { SameCaller (view s.old) (view s.new) }
    ensures hands { (view s.new).hands ≡ (view s.old).hands }
{
    let word = load_word(shared, s, 0, f);
    assert!(rt; word == 0);
}

// Loads a reference of object 0 of the hands, which is empty.
fn load_empty_reference(rt: &impl Abort, shared: &Shared, s: &mut Session, k: u32)
    requires caller { IsOf shared.now s.old }
    requires hands { InHands (view s.old) 0 }
    requires few { k < 4 }
    ensures caller { IsOf shared.now s.new }
    ensures same { SameCaller (view s.old) (view s.new) }
    ensures hands { (view s.new).hands ≡ (view s.old).hands }
{
    let word = load_reference(shared, s, 0, k);
    assert!(rt; word == 0);
}

// Loads the fields and the references of object 0 of the hands, which are empty.
fn load_empty_object(rt: &impl Abort, shared: &Shared, s: &mut Session)
    requires caller { IsOf shared.now s.old }
    requires hands { (view s.old).hands ≡ 0 ∷ [] }
    ensures caller { IsOf shared.now s.new }
    ensures same { SameCaller (view s.old) (view s.new) }
{
    load_empty_field(rt, shared, s, 0);
    load_empty_field(rt, shared, s, 1);
    load_empty_field(rt, shared, s, 2);
    load_empty_reference(rt, shared, s, 0);
    load_empty_reference(rt, shared, s, 1);
    load_empty_reference(rt, shared, s, 2);
    load_empty_reference(rt, shared, s, 3);
}

#[test]
fn a_marker_loads_the_words_of_an_object_of_a_chunk(rt: HostRuntime) -> Result<(), OutOfMemory> {
    let before = image_in_a_cycle(&rt, rt.alloc())?;
    let image = image_in_a_cycle(&rt, rt.alloc())?;
    let (shared, mut first, roots) = open_with_roots(rt.alloc(), image)?;
    let mut marker = first.split(&shared, 8, &[]);
    let chunk = first.cut(&shared, roots);
    let objects = marker.absorb(&shared, chunk);
    assert!(rt; objects.as_slice() == [0].as_slice());
    load_empty_object(&rt, &shared, &mut marker);
    let after = close_both(shared, first, marker);
    assert_is(&rt, after.words.as_slice(), before.words.as_slice());
    Ok(())
}
