// Tables that are opened on an image.
ghost use Rattle.std.specs.Prelude.{◌≡◌, IfOk};
ghost use Rattle.entry_word.specs.Image.{IsValidShape, image_of, sizes_of};
ghost use Rattle.plain_table.specs.Shows.{IsLawful};
ghost use Rattle.word_laws.specs.Small.{AreSmall};
ghost use Rattle.entry_base.specs.Openings.{opening_of};
ghost use Rattle.entry_base.specs.Sessions.{view, opened_with, IsOf};
ghost use Rattle.entry_base.specs.Views.{first_view};

use entry_base::{Session, Shared, area_start, owed_objects};
use entry_word::{Image, Shape};
use plain_table::OutOfMemory;
use std::alloc::Global;

/// Opens a table before anything happened, by its sizes: outside a cycle, with no area. It refuses only where an allocation fails.
pub fn open_fresh(alloc: Global, shape: Shape) -> Result<(Shared, Session), OutOfMemory>
    requires { IsValidShape shape }
    ensures caller { IfOk result (λ t. IsOf t.0 t.1) }
    ensures first { IfOk result (λ t. view t.1 ≡ first_view (opened_with t.0)) }
    ensures shape { IfOk result (λ t. (opened_with t.0).shape ≡ shape) }
{
    let image = Image::fresh(alloc, shape)?;
    open(alloc, image)
}

/// Opens the table of a lawful image, in or outside a cycle. The session has all numbers, variables, tickets and hands
/// (`first_view` of `specs/Views.antt` of `entry_base`). It refuses only where an allocation fails.
pub fn open(alloc: Global, image: Image) -> Result<(Shared, Session), OutOfMemory>
    requires small { AreSmall (sizes_of image.shape) }
    requires lawful { IsLawful (image_of image) }
    ensures caller { IfOk result (λ t. IsOf t.0 t.1) }
    ensures first { IfOk result (λ t. view t.1 ≡ first_view (opened_with t.0)) }
    ensures opened { IfOk result (λ t. opened_with t.0 ≡ opening_of image) }
{
    let owed = owed_objects(alloc, &image)?;
    let area = area_start(&image);
    Shared::start(alloc, image, owed.as_slice(), area)
}
