// Late marking: what a cycle still owes at its end is scanned, on plain words.
ghost use Rattle.std.specs.Prelude.{◌≡◌, ◌+◌, ◌*◌, ◌≤◌, ◌<◌, ℕ, length, slice_index};
ghost use Rattle.plain_table.specs.Shows.{IsLawful};
ghost use Rattle.sweeper.specs.Begin.{HasRoom};
ghost use Rattle.entry_word.specs.Image.{IsValidShape, image_of};
ghost use Rattle.sweeper.specs.Images.{IsAllScanned};
ghost use Rattle.sweeper.specs.Late.{AreOwed, IsListedFirst, IsLateFrom, LateMarks, LateSome, NothingOwed, OwedObjectsLeaveRoom};
ghost use Rattle.entry_word.specs.Image.{sizes_of};
ghost use Rattle.sweeper.specs.Whole.{IsSmallShape};

use crate::area::Area;
use crate::marking::scan_all;
use crate::shading::{shade_variables, shade_words};
use entry_word::{Image, Shape};

const FIRST_GLOBAL: usize = 16;

const GLOBALS: usize = 16;

/// The list begins with these objects.
fn list_first(list: &mut [u32], objects: &[u32])
    requires { length objects.now ≤ length list.old }
    ensures { IsListedFirst list.new objects.now }
{
    for k in 0..objects.len() {
        list[k] = objects[k];
    }
}

/// The objects of `shaded`, and all that these and the roots reach, are scanned; answers how many.
fn mark_late(
    words: &mut [u64],
    variables: &[u32],
    list: &mut [u32],
    shaded: &[u32],
    shape: Shape,
) -> u32
    requires shape { IsSmallShape shape }
    requires many { length list.old ≡ shape.objects }
    requires some { LateSome words.old variables.now (sizes_of shape) }
    requires owed { AreOwed words.old shaded.now }
    ensures tables { IsLateFrom words.old words.new variables.now shaded.now (sizes_of shape) result }
    ensures nothing { NothingOwed words.new variables.now }
{
    list_first(list, shaded);
    let len = shade_words(words, list, shaded.len(), FIRST_GLOBAL, GLOBALS);
    let end = shade_variables(words, list, len, variables);
    scan_all(words, list, end, shape) as u32
}

/// Late marking at the meet that ends a cycle: each object of `shaded`, which lists once those that are shaded and not
/// scanned, and all that these and the roots reach, is scanned; answers the number of scans (`LateMarks` of
/// `specs/Late.antt`). The scans are the pause of a finish (`IsPause` of the plain table) where the roots of the cycle's start
/// and the objects that were linked in it were shaded, and nothing is owed after them.
pub fn late_mark(image: &mut Image, area: &mut Area, shaded: &[u32]) -> u32
    requires shape { IsValidShape image.old.shape }
    requires lawful { IsLawful (image_of image.old) }
    requires cycle { slice_index image.old.words.items 4 ≡ 1 }
    requires room { HasRoom area.old image.old.shape.objects }
    requires owed { AreOwed image.old.words.items shaded.now }
    ensures tables { LateMarks (image_of image.old) (image_of image.new) shaded.now result }
    ensures scanned { IsAllScanned (image_of image.new) }
    ensures lawful { IsLawful (image_of image.new) }
    ensures cycle { slice_index image.new.words.items 4 ≡ 1 }
    ensures shape { image.new.shape ≡ image.old.shape }
    ensures start { area.new.start ≡ area.old.start }
    ensures roots { area.new.roots ≡ area.old.roots }
    ensures room { HasRoom area.new image.new.shape.objects }
{
    mark_late(
        &mut image.words,
        &image.vars,
        &mut area.work,
        shaded,
        image.shape,
    )
}

/// A list of as many objects as the limit says has room for those that are shaded and not scanned and for all white ones, as
/// `shade` asks.
pub fn owed_objects_leave_room()
    ensures { OwedObjectsLeaveRoom }
{}
