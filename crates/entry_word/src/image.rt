// An image: the whole of a table between two phases.
ghost use Rattle.std.specs.Prelude.{◌≡◌, ℕ, ◌+◌, ◌*◌, ◌<◌, ◌≤◌, IfOk, length, slice_index};
ghost use Rattle.plain_table.specs.Words.{words_in_all};
ghost use Rattle.entry_word.specs.Fresh.{AreFreshWords, HasFreshEntries, fresh_entry};
ghost use Rattle.entry_word.specs.Image.{IsValidShape, sizes_of};

use crate::{Entry, encode};
use free_chain::pack;
use plain_table::OutOfMemory;
use std::alloc::Global;

/// The words before those of objects.
const FIRST_WORDS: usize = 32;
/// The words of an object.
const OBJECT_WORDS: usize = 8;
/// The place of the external freelist word.
const EXTERNAL_FREELIST: usize = 0;
/// The place of the trusted freelist word.
const TRUSTED_FREELIST: usize = 2;
/// The mutators that a table can have.
const MUTATORS: usize = 8;
/// The variables of a mutator.
const VARIABLES: usize = 16;

/// The sizes of a table. They are in range by `IsValidShape` of `specs/Image.antt`.
#[derive(Clone, Copy, Debug, PartialEq, Eq)]
pub struct Shape {
    /// The entries of a segment: 4, 16, 64 or 256.
    pub seg: u32,
    /// The segments of the external space, from 1 to 65,536 / `seg`.
    pub ext: u32,
    /// The segments of the trusted space, from 1 to 65,536 / `seg`.
    pub tru: u32,
    /// The most objects that can be made, from 1 to 16,384.
    pub objects: u32,
}

/// A trusted cell that waits to be published: its index, its tag from 1 on, and its value below 2^48.
#[derive(Clone, Copy, Debug, PartialEq, Eq)]
pub struct Pending {
    pub index: u32,
    pub tag: u8,
    pub value: u64,
}

/// A table between two phases. `image_of` of `specs/Image.antt` is the image that contracts speak of.
#[derive(Debug, Drop)]
pub struct Image {
    pub shape: Shape,
    /// The words of the table, in the layout of `specs/Words.antt` of `plain_table`.
    pub words: Vec<u64>,
    /// 128 numbers: number `16 * m + v` is 0 where variable `v` of mutator `m` holds nothing, and else the object's
    /// number plus 1.
    pub vars: Vec<u32>,
    /// 8 places, one a mutator: the cell that it may publish.
    pub pending: Vec<Option<Pending>>,
}

impl Image {
    ghost use Rattle.plain_table.specs.Shows.{IsFreshImage, IsLawful};
    ghost use Rattle.entry_word.specs.Image.{ShowsOpening, image_of};

    /// The image of a table before anything happened: it has no object and no cell, and in each space one committed
    /// segment (`IsFreshImage` of `specs/Shows.antt` of `plain_table`). It refuses only where an allocation fails.
    pub fn fresh(alloc: Global, shape: Shape) -> Result<Image, OutOfMemory>
        requires { IsValidShape shape }
        ensures shape { IfOk result (λ image. image.shape ≡ shape) }
        ensures contents { IfOk result (λ image. IsFreshImage (image_of image)) }

        // So it shows the opening, and is lawful.
        ensures opening { IfOk result (λ image. ShowsOpening (image_of image)) }
        ensures lawful { IfOk result (λ image. IsLawful (image_of image)) }
    {
        let words = fresh_words(alloc, shape)?;
        let Ok(vars) = vec![in alloc; 0; MUTATORS * VARIABLES] else {
            return Err(OutOfMemory);
        };
        let Ok(pending) = Vec::from_array(alloc, [None; MUTATORS]) else {
            return Err(OutOfMemory);
        };
        Ok(Image {
            shape,
            words,
            vars,
            pending,
        })
    }
}

/// The words of a table before anything happened.
fn fresh_words(alloc: Global, shape: Shape) -> Result<Vec<u64>, OutOfMemory>
    requires { IsValidShape shape }
    ensures { IfOk result (λ words. AreFreshWords words.items (sizes_of shape)) }
{
    let Ok(mut words) = vec![in alloc; 0; word_count(shape)] else {
        return Err(OutOfMemory);
    };
    write_fresh(&mut words, shape);
    Ok(words)
}

/// How many words a table has.
fn word_count(shape: Shape) -> usize
    requires { IsValidShape shape }
    ensures { result ≡ words_in_all (sizes_of shape) }
{
    let external = FIRST_WORDS + OBJECT_WORDS * shape.objects as usize;
    external + (shape.seg * shape.ext) as usize + (shape.seg * shape.tru) as usize
}

/// Writes the words of a table before anything happened over zeros.
fn write_fresh(words: &mut [u64], shape: Shape)
    requires shape { IsValidShape shape }
    requires whole { length words.old ≡ words_in_all (sizes_of shape) }
    requires zeros { (i : ℕ) → slice_index words.old i ≡ 0 }
    ensures { AreFreshWords words.new (sizes_of shape) }
{
    let external = FIRST_WORDS + OBJECT_WORDS * shape.objects as usize;
    let external_limit = (shape.seg * shape.ext) as usize;
    let trusted = external + external_limit;
    let trusted_limit = (shape.seg * shape.tru) as usize;
    fill_entries(words, external, external_limit, shape.seg);
    fill_entries(words, trusted, trusted_limit, shape.seg);
    let freelist = pack(1, shape.seg - 1);
    words[EXTERNAL_FREELIST] = freelist;
    words[TRUSTED_FREELIST] = freelist;
}

/// Writes the entries of a space of which no index is taken, and the first segment alone is committed.
fn fill_entries(words: &mut [u64], base: usize, limit: usize, seg: u32)
    requires seg { (1 ≤ seg) × (seg ≤ limit) }
    requires few { limit ≤ 65536 }
    requires room { base + limit ≤ length words.old }
    ensures { HasFreshEntries words.old words.new base limit seg }
{
    for index in 0..limit {
        words[base + index] = encode(&fresh_entry(index as u32, seg));
    }
}

/// The entry at an index of a space of which no index is taken: null at 0, a free entry in the first segment, which
/// links the next index, and else an entry that may not be used.
fn fresh_entry(index: u32, seg: u32) -> Entry
    requires { index < 65536 }
    ensures { result ≡ fresh_entry index seg }
{
    if index == 0 {
        Entry::Null
    } else if index < seg {
        Entry::Free { next: index + 1 }
    } else {
        Entry::NoAccess
    }
}
