// Cycles: their start, with or without an area, their late marking and their sweep.
ghost use Rattle.std.specs.Prelude.{◌≡◌, IfOk, slice_index};
ghost use Rattle.entry_word.specs.Image.{IsValidShape, image_of};
ghost use Rattle.plain_table.specs.Shows.{IsLawful};
ghost use Rattle.sweeper.specs.Begin.{HasRoom};
ghost use Rattle.sweeper.specs.Late.{AreOwed};

use crate::asked::word_at;
use crate::asserts::assert_is;
use entry_word::{Image, Shape};
use plain_table::{OutOfMemory, Policy, SweepReport};
use std::alloc::Global;
use std::process::Abort;
use sweeper::{Area, begin, late_mark, sweep};

/// Begins a cycle on an image of known sizes outside a cycle.
pub(crate) fn begin_on(
    rt: &impl Abort,
    alloc: Global,
    mut image: Image,
    shape: Shape,
    policy: Policy,
) -> Result<(Image, Area), OutOfMemory>
    requires valid { IsValidShape shape }
    requires lawful { IsLawful (image_of image) }
    ensures lawful { IfOk result (λ t. IsLawful (image_of t.0)) }
    ensures shape { IfOk result (λ t. t.0.shape ≡ shape) }
    ensures cycle { IfOk result (λ t. slice_index t.0.words.items 4 ≡ 1) }
    ensures room { IfOk result (λ t. HasRoom t.1 shape.objects) }
    ensures owed { IfOk result (λ t. AreOwed t.0.words.items t.1.roots.items) }
{
    assert_shape(rt, &image, shape);
    assert!(rt; image.words.len() > 4);
    assert!(rt; image.words[4] == 0);
    let area = begin(alloc, &mut image, policy)?;
    Ok((image, area))
}

/// Asserts the sizes of an image.
fn assert_shape(rt: &impl Abort, image: &Image, shape: Shape)
    ensures { image.now.shape ≡ shape }
{
    let found = image.shape;
    assert!(rt; found.seg == shape.seg && found.ext == shape.ext);
    assert!(rt; found.tru == shape.tru && found.objects == shape.objects);
}

/// Marks what is left, whose shaded objects that are not scanned are given, and sweeps.
fn finish(image: &mut Image, mut area: Area, shaded: &[u32]) -> SweepReport
    requires valid { IsValidShape image.old.shape }
    requires lawful { IsLawful (image_of image.old) }
    requires cycle { slice_index image.old.words.items 4 ≡ 1 }
    requires room { HasRoom area image.old.shape.objects }
    requires owed { AreOwed image.old.words.items shaded.now }
    ensures lawful { IsLawful (image_of image.new) }
    ensures shape { image.new.shape ≡ image.old.shape }
{
    late_mark(image, &mut area, shaded);
    sweep(image, area)
}

/// A whole cycle over an image of known sizes outside a cycle, with no phase in it.
pub(crate) fn cycle_over(
    rt: &impl Abort,
    alloc: Global,
    image: Image,
    shape: Shape,
) -> Result<(Image, SweepReport), OutOfMemory>
    requires valid { IsValidShape shape }
    requires lawful { IsLawful (image_of image) }
    ensures lawful { IfOk result (λ t. IsLawful (image_of t.0)) }
    ensures shape { IfOk result (λ t. t.0.shape ≡ shape) }
{
    let (mut image, area) = begin_on(rt, alloc, image, shape, Policy::Never)?;
    let Ok(roots) = Vec::from_slice(alloc, area.roots()) else {
        return Err(OutOfMemory);
    };
    let report = finish(&mut image, area, roots.as_slice());
    Ok((image, report))
}

/// Asserts that an image is in a cycle and has one object, which is shaded and not scanned.
fn assert_one_owed(rt: &impl Abort, image: &Image)
    ensures cycle { slice_index image.now.words.items 4 ≡ 1 }
    ensures count { slice_index image.now.words.items 3 ≡ 1 }
    ensures header { slice_index image.now.words.items 32 ≡ 1 }
{
    assert_is(rt, word_at(rt, image, 4), 1);
    assert_is(rt, word_at(rt, image, 3), 1);
    assert_is(rt, word_at(rt, image, 32), 1);
}

/// Finishes a cycle after a phase, on an image of known sizes, whose one object is shaded and not scanned.
pub(crate) fn finish_with_one(
    rt: &impl Abort,
    image: &mut Image,
    area: Area,
    shape: Shape,
) -> SweepReport
    requires valid { IsValidShape shape }
    requires lawful { IsLawful (image_of image.old) }
    requires room { HasRoom area shape.objects }
    ensures lawful { IsLawful (image_of image.new) }
    ensures shape { image.new.shape ≡ shape }
{
    assert_shape(rt, image, shape);
    assert_one_owed(rt, image);
    finish(image, area, &[0])
}
