// What the tests ask: tags, ranges of one tag, shapes and words of images.
ghost use Rattle.std.specs.Prelude.{◌≡◌, slice_index};

use entry_word::{Image, Shape};
use std::process::Abort;
use tag_set::{Range, Tag};

/// One segment of four entries in each space, and one object, whose words stand from 32 on: the external entries stand from word 40
/// on, the trusted ones from word 44 on.
pub(crate) const ONE: Shape = Shape {
    seg: 4,
    ext: 1,
    tru: 1,
    objects: 1,
};

/// The same with two objects: the external entries stand from word 48 on, the trusted ones from word 52 on.
pub(crate) const TWO: Shape = Shape {
    seg: 4,
    ext: 1,
    tru: 1,
    objects: 2,
};

/// Two external segments of four entries and a trusted one, and four objects: the external entries stand from word 64 on, the
/// trusted ones from word 72 on.
pub(crate) const FOUR: Shape = Shape {
    seg: 4,
    ext: 2,
    tru: 1,
    objects: 4,
};

/// The tag of a byte, which isn't 0.
pub(crate) fn tag(rt: &impl Abort, byte: u8) -> Tag {
    let Some(tag) = Tag::of(byte) else {
        panic!(rt; "the byte is no tag");
    };
    tag
}

/// The range of one tag.
pub(crate) fn only(rt: &impl Abort, byte: u8) -> Range {
    Range::one(tag(rt, byte))
}

/// The word at a place of an image, which has it.
pub(crate) fn word_at(rt: &impl Abort, image: &Image, place: usize) -> u64
    ensures { result ≡ slice_index image.now.words.items place }
{
    assert!(rt; place < image.words.len());
    image.words[place]
}
