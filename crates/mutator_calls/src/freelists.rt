// A take of the least free index from the freelist of a space.
ghost use Rattle.std.specs.Prelude.{◌≡◌, ◌≢◌, ◌+◌, ◌-◌, ◌/◌, ◌%◌, ◌^◌, ◌<◌, ◌≤◌, length, slice_index, slice_set};
ghost use Rattle.plain_table.specs.Table.{limit_in};
ghost use Rattle.plain_table.specs.Words.{entry_place, freelist_place, freelist_word, words_in_all};
ghost use Rattle.free_chain.specs.Chain.{link_of};
ghost use Rattle.word_laws.specs.SegmentLaws.{IsCommitted};
ghost use Rattle.entry_word.specs.Image.{IsValidShape, sizes_of};
ghost use Rattle.mutator_calls.specs.Words.{IsShownBySome, TakesIndex};

use crate::places::{first_entry, freelist_place, limit};
use entry_word::{Entry, Shape, encode};
use free_chain::{head, len, pack};
use plain_table::Space;

/// The index that a free entry links, by its word.
fn link(word: u64) -> u32
    ensures { result ≡ link_of word }
{
    (word % (1 << 32)) as u32
}

/// Commits the segment from an index on: each of its entries links the next index, and the freelist has them all.
fn commit(words: &mut [u64], shape: Shape, space: Space, start: u32)
    requires shape { IsValidShape shape }
    requires whole { length words.old ≡ words_in_all (sizes_of shape) }
    requires room { start + shape.seg ≤ limit_in (sizes_of shape) space }
    ensures { IsCommitted (sizes_of shape) space start words.old words.new }
{
    let first = first_entry(shape, space);
    for index in start..start + shape.seg {
        words[first + index as usize] = encode(&Entry::Free { next: index + 1 });
    }
    words[freelist_place(space)] = pack(start, shape.seg);
}

/// Takes the head of a freelist that is not empty: the list begins at the head's link then.
fn pop(words: &mut [u64], shape: Shape, space: Space) -> u32
    requires shape { IsValidShape shape }
    requires whole { length words.old ≡ words_in_all (sizes_of shape) }
    requires some { slice_index words.old (freelist_place space) / 2 ^ 32 ≢ 0 }
    requires within { slice_index words.old (freelist_place space) % 2 ^ 32 < limit_in (sizes_of shape) space }
    ensures head { result ≡ slice_index words.old (freelist_place space) % 2 ^ 32 }
    ensures words { words.new ≡ slice_set words.old (freelist_place space) (freelist_word (link_of (slice_index words.old (entry_place (sizes_of shape) space result))) (slice_index words.old (freelist_place space) / 2 ^ 32 - 1)) }
{
    let place = freelist_place(space);
    let index = head(words[place]);
    let next = link(words[first_entry(shape, space) + index as usize]);
    words[place] = pack(next, len(words[place]) - 1);
    index
}

/// Takes the least free index of a space, committing its next segment first where the freelist is empty; None where no
/// index is free.
pub(crate) fn take(words: &mut [u64], shape: Shape, space: Space) -> Option<u32>
    requires shape { IsValidShape shape }
    requires shown { IsShownBySome words.old (sizes_of shape) }
    ensures { TakesIndex words.old words.new (sizes_of shape) space result }
{
    let freelist = words[freelist_place(space)];
    if len(freelist) > 0 {
        return Some(pop(words, shape, space));
    }
    let end = head(freelist);
    if end >= limit(shape, space) {
        return None;
    }
    commit(words, shape, space, end);
    Some(pop(words, shape, space))
}
