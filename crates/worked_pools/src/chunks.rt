// Eight chunks of one object each, the roots of a cycle.
ghost use Rattle.std.specs.Prelude.{◌≡◌, IfOk, All, length};
ghost use Rattle.plain_table.specs.Shows.{IsLawful};
ghost use Rattle.word_laws.specs.Small.{AreSmall};
ghost use Rattle.entry_word.specs.Image.{image_of, sizes_of};
ghost use Rattle.entry_base.specs.Lists.{AreIn};
ghost use Rattle.entry_base.specs.Sessions.{view, IsChunkOf, IsOf};

use entry_base::{Chunk, Session, Shared, area_start, owed_objects};
use entry_word::{Image, Shape};
use mutator_calls::Mutator;
use plain_table::{OutOfMemory, Policy, Reply};
use std::alloc::Global;
use std::process::Abort;

const SHAPE: Shape = Shape {
    seg: 4,
    ext: 2,
    tru: 1,
    objects: 8,
};

/// An image in a cycle with the objects 0 to 7, which variables hold.
fn image_with_roots(rt: &impl Abort, alloc: Global) -> Result<Image, OutOfMemory>
    ensures lawful { IfOk result (λ image. IsLawful (image_of image)) }
    ensures small { IfOk result (λ image. AreSmall (sizes_of image.shape)) }
{
    let mut mutator = Mutator::fresh(alloc, SHAPE)?;
    for var in 0..8 {
        assert_eq!(rt; mutator.new_object(var), Reply::Obj(var));
    }
    assert!(rt; !mutator.in_cycle());
    mutator.start(alloc, Policy::Never)?;
    Ok(mutator.image)
}

/// Cuts a chunk of each of the objects, in order.
fn cut_each(
    alloc: Global,
    shared: &Shared,
    s: &mut Session,
    objects: &[u32],
) -> Result<Vec<Chunk>, OutOfMemory>
    requires caller { IsOf shared.now s.old }
    requires hands { AreIn objects.now (view s.old).hands }
    ensures caller { IsOf shared.now s.new }
    ensures chunks { IfOk result (λ chunks. (length chunks.items ≡ length objects.now) × All (IsChunkOf shared.now) chunks.items) }
{
    let mut chunks = Vec::new(alloc);
    for object in objects {
        let mut list = Vec::new(alloc);
        let Ok(()) = list.push(*object) else {
            return Err(OutOfMemory);
        };
        let Ok(()) = chunks.push(s.cut(shared, list)) else {
            return Err(OutOfMemory);
        };
    }
    Ok(chunks)
}

/// A table in a cycle, and its eight roots in as many chunks.
pub(crate) fn eight_chunks(
    rt: &impl Abort,
    alloc: Global,
) -> Result<(Shared, Session, Vec<Chunk>), OutOfMemory>
    ensures caller { IfOk result (λ t. IsOf t.0 t.1) }
    ensures eight { IfOk result (λ t. length t.2.items ≡ 8) }
    ensures chunks { IfOk result (λ t. All (IsChunkOf t.0) t.2.items) }
{
    let image = image_with_roots(rt, alloc)?;
    let roots = owed_objects(alloc, &image)?;
    assert_eq!(rt; roots.as_slice(), [0, 1, 2, 3, 4, 5, 6, 7].as_slice());
    assert!(rt; roots.len() == 8);
    let area = area_start(&image);
    let (shared, mut session) = Shared::start(alloc, image, roots.as_slice(), area)?;
    let chunks = cut_each(alloc, &shared, &mut session, roots.as_slice())?;
    Ok((shared, session, chunks))
}
