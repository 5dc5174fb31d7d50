// Cycles: their start, the opening of a table with its roots, and their late marking and sweep.
ghost use Rattle.std.specs.Prelude.{◌≡◌, ◌≤◌, ◌<◌, ◌+◌, ◌*◌, ℕ, IfOk, slice_index};
ghost use Rattle.plain_table.specs.Shows.{IsLawful};
ghost use Rattle.word_laws.specs.Small.{AreSmall};
ghost use Rattle.entry_word.specs.Image.{IsValidShape, image_of, sizes_of};
ghost use Rattle.sweeper.specs.Begin.{HasRoom};
ghost use Rattle.sweeper.specs.Late.{AreOwed};
ghost use Rattle.entry_base.specs.Lists.{count_in};
ghost use Rattle.entry_base.specs.Openings.{opening_of};
ghost use Rattle.entry_base.specs.Sessions.{view, IsOf};
ghost use Rattle.entry_base.specs.Views.{numbers_below};
ghost use Rattle.worked_markers.specs.Left.{IsLeft};

use crate::asked::word_at;
use crate::asserts::assert_is;
use entry_base::{Session, Shared, area_start, owed_objects};
use entry_word::{Image, Shape};
use plain_table::{OutOfMemory, Policy, SweepReport};
use std::alloc::Global;
use std::process::Abort;
use sweeper::{Area, begin, late_mark, sweep};

/// Begins a cycle on an image of known sizes outside a cycle.
pub(crate) fn begin_on(
    rt: &impl Abort,
    alloc: Global,
    mut image: Image,
    shape: Shape,
    policy: Policy,
) -> Result<(Image, Area), OutOfMemory>
    requires valid { IsValidShape shape }
    requires lawful { IsLawful (image_of image) }
    ensures lawful { IfOk result (λ t. IsLawful (image_of t.0)) }
    ensures shape { IfOk result (λ t. t.0.shape ≡ shape) }
    ensures cycle { IfOk result (λ t. slice_index t.0.words.items 4 ≡ 1) }
    ensures room { IfOk result (λ t. HasRoom t.1 shape.objects) }
    ensures owed { IfOk result (λ t. AreOwed t.0.words.items t.1.roots.items) }
{
    assert_shape(rt, &image, shape);
    assert_is(rt, word_at(rt, &image, 4), 0);
    let area = begin(alloc, &mut image, policy)?;
    Ok((image, area))
}

/// Asserts the sizes of an image.
fn assert_shape(rt: &impl Abort, image: &Image, shape: Shape)
    ensures { image.now.shape ≡ shape }
{
    let found = image.shape;
    assert!(rt; found.seg == shape.seg && found.ext == shape.ext);
    assert!(rt; found.tru == shape.tru && found.objects == shape.objects);
}

/// Marks what is left, whose shaded objects that are not scanned are given, and sweeps.
fn finish(image: &mut Image, mut area: Area, shaded: &[u32]) -> SweepReport
    requires valid { IsValidShape image.old.shape }
    requires lawful { IsLawful (image_of image.old) }
    requires cycle { slice_index image.old.words.items 4 ≡ 1 }
    requires room { HasRoom area image.old.shape.objects }
    requires owed { AreOwed image.old.words.items shaded.now }
    ensures lawful { IsLawful (image_of image.new) }
    ensures shape { image.new.shape ≡ image.old.shape }
{
    late_mark(image, &mut area, shaded);
    sweep(image, area)
}

/// A whole cycle without an area over an image of known sizes outside a cycle, with no phase in it.
pub(crate) fn cycle_over(
    rt: &impl Abort,
    alloc: Global,
    image: Image,
    shape: Shape,
) -> Result<(Image, SweepReport), OutOfMemory>
    requires valid { IsValidShape shape }
    requires lawful { IsLawful (image_of image) }
    ensures lawful { IfOk result (λ t. IsLawful (image_of t.0)) }
    ensures shape { IfOk result (λ t. t.0.shape ≡ shape) }
{
    let (mut image, area) = begin_on(rt, alloc, image, shape, Policy::Never)?;
    let Ok(roots) = Vec::from_slice(alloc, area.roots()) else {
        return Err(OutOfMemory);
    };
    let report = finish(&mut image, area, roots.as_slice());
    Ok((image, report))
}

/// Opens the table of an image, with the list of the objects that are in the hands of its session.
pub(crate) fn open_with_roots(
    alloc: Global,
    image: Image,
) -> Result<(Shared, Session, Vec<u32>), OutOfMemory>
    requires small { AreSmall (sizes_of image.shape) }
    requires lawful { IsLawful (image_of image) }
    ensures caller { IfOk result (λ t. IsOf t.0 t.1) }
    ensures opened { IfOk result (λ t. (view t.1).opening ≡ opening_of image) }
    ensures number { IfOk result (λ t. (view t.1).number ≡ 12) }
    ensures numbers { IfOk result (λ t. (view t.1).numbers ≡ numbers_below 13) }
    ensures roots { IfOk result (λ t. (view t.1).hands ≡ t.2.items) }
    ensures once { IfOk result (λ t. (q : ℕ) → count_in q t.2.items ≤ 1) }
{
    let owed = owed_objects(alloc, &image)?;
    let area = area_start(&image);
    let (shared, session) = Shared::start(alloc, image, owed.as_slice(), area)?;
    Ok((shared, session, owed))
}

/// Asserts that each made object that is shaded is scanned, but for the one of `left`, where there is one.
fn assert_left(rt: &impl Abort, image: &Image, left: Option<u32>)
    ensures { IsLeft image.now.words.items left (slice_index image.now.words.items 3) }
{
    let count = word_at(rt, image, 3);
    assert!(rt; count < 65536);
    for object in 0..count as u32 {
        let header = word_at(rt, image, 32 + 8 * object as usize);
        assert!(rt; header % 2 == 0 || header / 2 % 2 == 1 || left == Some(object));
    }
}

/// Asserts that an object is made and shaded, and not scanned.
fn assert_shaded(rt: &impl Abort, image: &Image, object: u32)
    ensures made { object < slice_index image.now.words.items 3 }
    ensures header { slice_index image.now.words.items (32 + 8 * object) ≡ 1 }
{
    assert!(rt; u64::from(object) < word_at(rt, image, 3));
    let header = word_at(rt, image, 32 + 8 * object as usize);
    assert_is(rt, header, 1);
}

/// Finishes a cycle after a phase, on an image of known sizes in which each shaded object is scanned.
pub(crate) fn finish_settled(
    rt: &impl Abort,
    image: &mut Image,
    area: Area,
    shape: Shape,
) -> SweepReport
    requires valid { IsValidShape shape }
    requires lawful { IsLawful (image_of image.old) }
    requires room { HasRoom area shape.objects }
    ensures lawful { IsLawful (image_of image.new) }
    ensures shape { image.new.shape ≡ shape }
{
    assert_shape(rt, image, shape);
    assert_is(rt, word_at(rt, image, 4), 1);
    assert_left(rt, image, None);
    finish(image, area, &[])
}

/// Finishes a cycle after a phase, on an image of known sizes in which each shaded object but one is scanned.
pub(crate) fn finish_with_one(
    rt: &impl Abort,
    image: &mut Image,
    area: Area,
    shape: Shape,
    left: u32,
) -> SweepReport
    requires valid { IsValidShape shape }
    requires lawful { IsLawful (image_of image.old) }
    requires room { HasRoom area shape.objects }
    ensures lawful { IsLawful (image_of image.new) }
    ensures shape { image.new.shape ≡ shape }
{
    assert_shape(rt, image, shape);
    assert_is(rt, word_at(rt, image, 4), 1);
    assert_left(rt, image, Some(left));
    assert_shaded(rt, image, left);
    finish(image, area, &[left])
}
