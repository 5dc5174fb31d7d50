// What an opening asks of an image: the objects that are shaded and not scanned, and the start of the area.
ghost use Rattle.std.specs.Prelude.{◌≡◌, ◌<◌, ◌≤◌, ◌*◌, ◌+◌, ℕ, IfOk, length};
ghost use Rattle.entry_base.specs.Hands.{grey};
ghost use Rattle.entry_base.specs.Lists.{count_in};
ghost use Rattle.entry_base.specs.Openings.{greys, opening_of, sizes_in, start_of};

use entry_word::Image;
use plain_table::OutOfMemory;
use std::alloc::Global;

/// The place of the area word, and that of an object's header.
const AREA: usize = 1;

const FIRST_HEADER: usize = 32;

const OBJECT_WORDS: usize = 8;
/// The header of an object that is shaded and not scanned.
const GREY: u64 = 1;

/// The objects of an image that are shaded and not scanned, each once, ascending: what `Shared::start` asks as `owed`. It
/// refuses only where an allocation fails.
pub fn owed_objects(alloc: Global, image: &Image) -> Result<Vec<u32>, OutOfMemory>
    requires objects { 32 + 8 * image.now.shape.objects ≤ length image.now.words.items }
    ensures listed { IfOk result (λ objects. objects.items ≡ greys image.now.words.items (sizes_in (opening_of image.now)).objects) }
    ensures each_once { IfOk result (λ objects. (o : ℕ) → count_in o objects.items ≡ grey (sizes_in (opening_of image.now)) image.now.words.items o) }
{
    let mut objects = Vec::new(alloc);
    for object in 0..image.shape.objects {
        if image.words[FIRST_HEADER + OBJECT_WORDS * object as usize] == GREY {
            let Ok(()) = objects.push(object) else {
                return Err(OutOfMemory);
            };
        }
    }
    Ok(objects)
}

/// The start of the evacuation area of an image, where it has one: what `Shared::start` asks as `area`.
pub fn area_start(image: &Image) -> Option<u32>
    requires words { 2 ≤ length image.now.words.items }
    ensures start { result ≡ start_of (opening_of image.now) }
{
    let start = image.words[AREA] % (1 << 32);
    if start == 0 { None } else { Some(start as u32) }
}
