// What the tests ask: shapes, tags, ranges of one tag, and words of images.
ghost use Rattle.std.specs.Prelude.{◌≡◌, slice_index};

use entry_word::{Image, Shape};
use std::process::Abort;
use tag_set::{Range, Tag};

/// Two external segments of four entries and a trusted one, and two objects: the external entries stand from word 48 on.
pub(crate) const TWO: Shape = Shape {
    seg: 4,
    ext: 2,
    tru: 1,
    objects: 2,
};

/// The same with four objects: the external entries stand from word 64 on, the trusted ones from word 72 on.
pub(crate) const FOUR: Shape = Shape {
    seg: 4,
    ext: 2,
    tru: 1,
    objects: 4,
};

/// The tag of a byte, which is one.
pub(crate) fn tag(rt: &impl Abort, byte: u8) -> Tag {
    let Some(tag) = Tag::of(byte) else {
        panic!(rt; "the byte is no tag");
    };
    tag
}

/// The range of one tag.
pub(crate) fn only(rt: &impl Abort, byte: u8) -> Range {
    Range::one(tag(rt, byte))
}

/// The word at a place of an image, which has it.
pub(crate) fn word_at(rt: &impl Abort, image: &Image, place: usize) -> u64
    ensures { result ≡ slice_index image.now.words.items place }
{
    worked_tables::word_at(image, place).expect(rt, "the image has the place")
}

/// The headers of the four objects of an image of `FOUR`: 0 for white, 1 for shaded, 3 for scanned.
pub(crate) fn headers(rt: &impl Abort, image: &Image) -> [u64; 4] {
    [
        word_at(rt, image, 32),
        word_at(rt, image, 40),
        word_at(rt, image, 48),
        word_at(rt, image, 56),
    ]
}
