// Late marking on words: the objects in a list are scanned, and all white objects that their references reach.
ghost use Rattle.std.specs.Prelude.{◌≡◌, ◌+◌, ◌*◌, ◌<◌, ◌≤◌, ℕ, length, slice_index};
ghost use Rattle.plain_table.specs.Words.{words_in_all};
ghost use Rattle.sweeper.specs.Marking.{IsObjectScanned, MarksSome, MarksFrom};
ghost use Rattle.sweeper.specs.Shading.{header_of, white_in};
ghost use Rattle.entry_word.specs.Image.{sizes_of};
ghost use Rattle.sweeper.specs.Whole.{IsSmallShape};

use crate::evacuation::visit_external;
use crate::marks::mark;
use crate::shading::shade_words;
use entry_word::Shape;

/// A shaded object is scanned: the white objects that its references hold are shaded and listed, and its fields are
/// visited. Answers the new length of the list.
fn scan_object(
    words: &mut [u64],
    list: &mut [u32],
    len: usize,
    shape: Shape,
    object: usize,
) -> usize
    requires shape { IsSmallShape shape }
    requires whole { length words.old ≡ words_in_all (sizes_of shape) }
    requires many { length list.old ≡ shape.objects }
    requires object { object < shape.objects }
    requires shaded { header_of words.old object ≡ 1 }
    requires references { (k : ℕ) → k < 4 → slice_index words.old (33 + 8 * object + k) ≤ length list.old }
    requires room { len + white_in words.old (length list.old) ≤ length list.old }
    ensures { IsObjectScanned words.old words.new list.old list.new len result (sizes_of shape) object }
{
    let base = 32 + 8 * shape.objects as usize;
    let limit = (shape.seg * shape.ext) as usize;
    let trusted_limit = (shape.seg * shape.tru) as usize;
    let end = shade_words(words, list, len, 33 + 8 * object, 4);
    visit_external(words, base, limit, 2 * object);
    visit_external(words, base, limit, 2 * object + 1);
    let trusted = (words[39 + 8 * object] / 65536) as usize;
    mark(words, base + limit, trusted_limit, trusted);
    words[32 + 8 * object] = 3;
    end
}

/// The objects of the list are scanned, and those that are listed meanwhile; answers how many.
pub(crate) fn scan_all(words: &mut [u64], list: &mut [u32], len: usize, shape: Shape) -> usize
    requires shape { IsSmallShape shape }
    requires some { MarksSome words.old list.old len (sizes_of shape) }
    requires room { len + white_in words.old (length list.old) ≤ length list.old }
    ensures marked { MarksFrom words.old words.new list.old list.new len result result (sizes_of shape) }
    ensures few { result ≤ length list.old }
{
    let mut end = len;
    let mut next = 0;
    while next < end {
        let object = list[next] as usize;
        end = scan_object(words, list, end, shape, object);
        next += 1;
    }
    next
}
