// Images in a cycle, with and without an area, and tables that are opened on them.
ghost use Rattle.std.specs.Prelude.{◌≡◌, ◌+◌, ◌<◌, None, IfOk};
ghost use Rattle.plain_table.specs.Shows.{IsLawful};
ghost use Rattle.word_laws.specs.Small.{AreSmall};
ghost use Rattle.entry_word.specs.Image.{image_of, sizes_of};
ghost use Rattle.entry_base.specs.Callers.{SameCaller};
ghost use Rattle.entry_base.specs.Lists.{AreIn};
ghost use Rattle.entry_base.specs.Openings.{opening_of, start_of};
ghost use Rattle.entry_base.specs.Sessions.{view, IsOf};
ghost use Rattle.entry_base.specs.Views.{numbers_below};

use crate::asserts::assert_is;
use entry_base::{Session, Shared, area_start, owed_objects};
use entry_rule::publish_step;
use entry_word::Image;
use freelist_rule::{Steps, load_freelist};
use object_rule::{bind_external, bind_trusted, drop_step, link_reference};
use plain_table::{OutOfMemory, Policy, Space};
use std::alloc::Global;
use std::process::Abort;
use std::sync::ledger::{Blank, Ledger};
use sweeper::{begin, late_mark, sweep};
use worked_tables::{
    SHAPE, close_both, commit_linked, link_two, make_next, open_fresh, put_hidden, put_next,
    take_three,
};

/// An image outside a cycle in which object 0 is made, which variable 0 of session 0 holds.
fn image_with_an_object(rt: &impl Abort, alloc: Global) -> Result<Image, OutOfMemory>
    ensures lawful { IfOk result (λ image. IsLawful (image_of image)) }
    ensures small { IfOk result (λ image. AreSmall (sizes_of image.shape)) }
{
    let (shared, mut first) = open_fresh(alloc, SHAPE)?;
    let mut mutator = first.split(&shared, 0, &[]);
    assert!(rt; make_next(&shared, &mut mutator, 0, 0));
    Ok(close_both(shared, first, mutator))
}

/// Begins a cycle on an image of `SHAPE` outside a cycle.
fn begin_on(
    rt: &impl Abort,
    alloc: Global,
    mut image: Image,
    policy: Policy,
) -> Result<Image, OutOfMemory>
    requires lawful { IsLawful (image_of image) }
    requires small { AreSmall (sizes_of image.shape) }
    ensures lawful { IfOk result (λ image. IsLawful (image_of image)) }
    ensures small { IfOk result (λ image. AreSmall (sizes_of image.shape)) }
    ensures shape { IfOk result (λ image. image.shape ≡ SHAPE) }
{
    let shape = image.shape;
    assert!(rt; shape.seg == 4 && shape.ext == 2 && shape.tru == 1 && shape.objects == 4);
    assert!(rt; image.words.len() > 4);
    assert!(rt; image.words[4] == 0);
    begin(alloc, &mut image, policy)?;
    Ok(image)
}

/// The image with object 0 in a cycle with no area: the object is the root.
pub(crate) fn image_in_a_cycle(rt: &impl Abort, alloc: Global) -> Result<Image, OutOfMemory>
    ensures lawful { IfOk result (λ image. IsLawful (image_of image)) }
    ensures small { IfOk result (λ image. AreSmall (sizes_of image.shape)) }
    ensures shape { IfOk result (λ image. image.shape ≡ SHAPE) }
{
    let image = image_with_an_object(rt, alloc)?;
    begin_on(rt, alloc, image, Policy::Never)
}

/// Makes objects 0 and 1 in variables 0 and 1.
fn make_two(rt: &impl Abort, shared: &Shared, s: &mut Session)
    requires caller { IsOf shared.now s.old }
    requires mutator { (view s.old).number < 8 }
    requires shape { (view s.old).opening.shape ≡ SHAPE }
    ensures caller { IsOf shared.now s.new }
    ensures same { SameCaller (view s.old) (view s.new) }
{
    assert!(rt; make_next(shared, s, 0, 0));
    assert!(rt; make_next(shared, s, 1, 1));
}

/// Binds a new external cell at the next index to external field 0 of object 0, which variable 0 holds.
fn bind_first<L: Ledger>(
    rt: &impl Abort,
    shared: &Shared,
    s: &mut Session,
    word: u64,
    next: u32,
    steps: &mut Steps<L>,
)
    requires caller { IsOf shared.now s.old }
    requires mutator { (view s.old).number < 8 }
    requires no_area { start_of (view s.old).opening ≡ None }
    ensures caller { IsOf shared.now s.new }
    ensures same { SameCaller (view s.old) (view s.new) }
    ensures ticked { steps.new ≡ steps.old + 1 }
{
    let Some(index) = put_next(shared, s, word, next, 0xc0, steps) else {
        panic!(rt; "the freelist word is not the one that was expected");
    };
    assert_is(rt, s.held(0), Some(0));
    let found = bind_external(shared, s, 0, 65536 * index);
    assert_is(rt, found, 0);
}

/// Binds a new trusted cell at index 1 to the trusted field of object 0, which variable 0 holds, and publishes it.
fn bind_published<L: Ledger>(
    rt: &impl Abort,
    shared: &Shared,
    s: &mut Session,
    steps: &mut Steps<L>,
)
    requires caller { IsOf shared.now s.old }
    requires mutator { (view s.old).number < 8 }
    ensures caller { IsOf shared.now s.new }
    ensures same { SameCaller (view s.old) (view s.new) }
    ensures ticked { steps.new ≡ steps.old + 1 }
{
    let put = put_hidden(shared, s, 0x3_0000_0001, 2, 0xd0, steps);
    assert_is(rt, put, Some(1));
    assert_is(rt, s.held(0), Some(0));
    let found = bind_trusted(shared, s, 0, 0x1_0000, 0x0f, 0xd0);
    assert_is(rt, found, 0);
    publish_step(shared, s, 1, 0x0f, 0xd0);
}

/// Links reference 0 of object 0, which variable 0 holds, to object 1, which variable 1 holds, and drops variable 1.
fn link_second(rt: &impl Abort, shared: &Shared, s: &mut Session)
    requires caller { IsOf shared.now s.old }
    requires mutator { (view s.old).number < 8 }
    ensures caller { IsOf shared.now s.new }
    ensures same { SameCaller (view s.old) (view s.new) }
{
    assert_is(rt, s.in_cycle(), false);
    assert_is(rt, s.held(0), Some(0));
    assert_is(rt, s.held(1), Some(1));
    link_reference(shared, s, 0, 0, Some(1), 2);
    drop_step(shared, s, 1);
}

/// An image in a cycle with no area. Object 0 is the root, whose external field 0 and trusted field are bound to cells at index 1,
/// and whose reference 0 has object 1.
pub(crate) fn image_to_mark<L: Ledger>(
    rt: &impl Abort,
    alloc: Global,
    blank: Blank,
) -> Result<Image, OutOfMemory>
    requires name { blank.name ≡ L.name }
    requires parts { blank.parts ≡ L.parts }
    requires one { blank.parts ≡ 1 }
    ensures lawful { IfOk result (λ image. IsLawful (image_of image)) }
    ensures small { IfOk result (λ image. AreSmall (sizes_of image.shape)) }
    ensures shape { IfOk result (λ image. image.shape ≡ SHAPE) }
{
    let (shared, mut first) = open_fresh(alloc, SHAPE)?;
    let mut one = first.split(&shared, 0, &[]);
    assert_is(rt, one.area(), None);
    let mut steps = Steps::<L>::start(blank);
    make_two(rt, &shared, &mut one);
    bind_first(rt, &shared, &mut one, 0x3_0000_0001, 2, &mut steps);
    bind_published(rt, &shared, &mut one, &mut steps);
    link_second(rt, &shared, &mut one);
    let image = close_both(shared, first, one);
    begin_on(rt, alloc, image, Policy::Never)
}

/// Takes the three indexes of the first external segment, and commits the second segment.
fn take_and_commit<L: Ledger>(
    rt: &impl Abort,
    shared: &Shared,
    s: &mut Session,
    steps: &mut Steps<L>,
)
    requires caller { IsOf shared.now s.old }
    requires shape { (view s.old).opening.shape ≡ SHAPE }
    ensures caller { IsOf shared.now s.new }
    ensures same { SameCaller (view s.old) (view s.new) }
    ensures ticked { steps.new ≡ steps.old + 3 }
{
    assert_is(rt, take_three(shared, s, steps), Some(3));
    let empty = load_freelist(shared, s, Space::External);
    assert_is(rt, empty, 4);
    link_two(shared, s, 4);
    link_two(shared, s, 6);
    commit_linked(shared, s);
}

/// A whole cycle with no area on an image of `SHAPE` outside a cycle, which frees what was taken and not filled.
fn sweep_over(rt: &impl Abort, alloc: Global, mut image: Image) -> Result<Image, OutOfMemory>
    requires lawful { IsLawful (image_of image) }
    requires small { AreSmall (sizes_of image.shape) }
    ensures lawful { IfOk result (λ image. IsLawful (image_of image)) }
    ensures small { IfOk result (λ image. AreSmall (sizes_of image.shape)) }
{
    let shape = image.shape;
    assert!(rt; shape.seg == 4 && shape.ext == 2 && shape.tru == 1 && shape.objects == 4);
    assert!(rt; image.words.len() > 4);
    assert!(rt; image.words[4] == 0);
    let mut area = begin(alloc, &mut image, Policy::Never)?;
    let Ok(roots) = Vec::from_slice(alloc, area.roots()) else {
        return Err(OutOfMemory);
    };
    late_mark(&mut image, &mut area, &roots);
    sweep(&mut image, area);
    Ok(image)
}

/// An image in a cycle whose area begins at 4. Object 0 is the root, whose external field 0 is bound to the cell at index 4, and
/// the indexes from 1 to 3 are free.
pub(crate) fn image_to_move<L: Ledger>(
    rt: &impl Abort,
    alloc: Global,
    blank: Blank,
) -> Result<Image, OutOfMemory>
    requires name { blank.name ≡ L.name }
    requires parts { blank.parts ≡ L.parts }
    requires one { blank.parts ≡ 1 }
    ensures lawful { IfOk result (λ image. IsLawful (image_of image)) }
    ensures small { IfOk result (λ image. AreSmall (sizes_of image.shape)) }
    ensures shape { IfOk result (λ image. image.shape ≡ SHAPE) }
{
    let (shared, mut first) = open_fresh(alloc, SHAPE)?;
    let mut one = first.split(&shared, 0, &[]);
    assert_is(rt, one.area(), None);
    let mut steps = Steps::<L>::start(blank);
    assert!(rt; make_next(&shared, &mut one, 0, 0));
    take_and_commit(rt, &shared, &mut one, &mut steps);
    bind_first(rt, &shared, &mut one, 0x4_0000_0004, 5, &mut steps);
    let image = close_both(shared, first, one);
    let image = sweep_over(rt, alloc, image)?;
    begin_on(rt, alloc, image, Policy::Always)
}

/// Opens the table of an image, with the list of the objects that are in the hands of its session.
pub(crate) fn open_with_roots(
    alloc: Global,
    image: Image,
) -> Result<(Shared, Session, Vec<u32>), OutOfMemory>
    requires small { AreSmall (sizes_of image.shape) }
    requires lawful { IsLawful (image_of image) }
    ensures caller { IfOk result (λ t. IsOf t.0 t.1) }
    ensures opened { IfOk result (λ t. (view t.1).opening ≡ opening_of image) }
    ensures number { IfOk result (λ t. (view t.1).number ≡ 12) }
    ensures numbers { IfOk result (λ t. (view t.1).numbers ≡ numbers_below 13) }
    ensures roots { IfOk result (λ t. AreIn t.2.items (view t.1).hands) }
{
    let owed = owed_objects(alloc, &image)?;
    let area = area_start(&image);
    let (shared, session) = Shared::start(alloc, image, owed.as_slice(), area)?;
    Ok((shared, session, owed))
}
