// Init: an index is taken and filled with a new cell, and an external field is bound to it.
ghost use Rattle.std.specs.Prelude.{◌≡◌, ◌≢◌, ◌+◌, ◌*◌, ◌^◌, ◌<◌, ◌≤◌, if◌then◌else◌, length, slice_index, slice_set};
ghost use Rattle.plain_table.specs.Index.{word_of};
ghost use Rattle.plain_table.specs.Table.{limit_in};
ghost use Rattle.plain_table.specs.Rows.{IsTag};
ghost use Rattle.plain_table.specs.Words.{area_place, words_in_all};
ghost use Rattle.entry_word.specs.Image.{IsValidShape, sizes_of};
ghost use Rattle.mutator_calls.specs.Inits.{Fills, aborted_by, bound_by, bound_said, filled_by, is_above};
ghost use Rattle.mutator_calls.specs.Words.{IsShownBySome};

use crate::freelists::take;
use crate::heap::Mutator;
use crate::places::{AREA, external_place, first_entry};
use entry_word::{Entry, Shape, encode, word_of};
use plain_table::{Reply, Space};
use tag_set::Tag;

/// The area word has the start of the evacuation area below this bit, which is set where the compaction is aborted.
const ABORTED: u64 = 1 << 32;

/// An area word tells that an index lies in the evacuation area.
fn is_above(area: u64, index: u32) -> bool
    ensures { result ≡ is_above area index }
{
    let start = area % ABORTED;
    start != 0 && start <= u64::from(index)
}

/// Aborts the compaction where an index lies in the evacuation area.
fn abort_above(words: &mut [u64], index: u32)
    requires { 1 < length words.old }
    ensures { words.new ≡ aborted_by index words.old }
{
    let area = words[AREA];
    if is_above(area, index) {
        words[AREA] = area % ABORTED + ABORTED;
    }
}

/// Fills an index with the marked word of a new cell, which can be seen in the external space alone.
pub(crate) fn put(words: &mut [u64], shape: Shape, space: Space, index: u32, tag: Tag, value: u64)
    requires shape { IsValidShape shape }
    requires whole { length words.old ≡ words_in_all (sizes_of shape) }
    requires within { index < limit_in (sizes_of shape) space }
    requires small { value < 2 ^ 48 }
    ensures words { words.new ≡ filled_by (sizes_of shape) space index tag value words.old }
    ensures tag { IsTag tag }
{
    let tag = tag.byte();
    let marked = true;
    let entry = match space {
        Space::External => Entry::Regular { tag, value, marked },
        Space::Trusted => Entry::Unshown { tag, value, marked },
    };
    words[first_entry(shape, space) + index as usize] = encode(&entry);
}

/// Binds the field at a place to an index, where it is free.
pub(crate) fn bind(words: &mut [u64], place: usize, index: u32) -> Reply
    requires within { place < length words.old }
    requires few { slice_index words.old place < 2 ^ 32 }
    requires index { index < 65536 }
    ensures words { words.new ≡ bound_by place (word_of index) words.old }
    ensures reply { result ≡ bound_said (slice_index words.old place) }
{
    let found = words[place];
    if found != 0 {
        return Reply::Taken(found as u32);
    }
    words[place] = u64::from(word_of(index));
    Reply::Ok
}

/// Takes an external index, fills it, and binds the field at a place to it; the compaction is aborted before an index of the
/// evacuation area is filled.
fn fill(words: &mut [u64], shape: Shape, place: usize, tag: Tag, value: u64) -> Reply
    requires shape { IsValidShape shape }
    requires shown { IsShownBySome words.old (sizes_of shape) }
    requires within { (37 ≤ place) × (place < 32 + 8 * shape.objects) }
    requires few { slice_index words.old place < 2 ^ 32 }
    requires small { value < 2 ^ 48 }
    ensures { Fills words.old words.new (sizes_of shape) place tag value result }
{
    let Some(index) = take(words, shape, Space::External) else {
        return Reply::Full;
    };
    abort_above(words, index);
    put(words, shape, Space::External, index, tag, value);
    bind(words, place, index)
}

impl Mutator {
    ghost use Rattle.plain_table.specs.declared.scripts.Op.TheVariants as op;
    ghost use Rattle.mutator_calls.specs.Calls.{IsReady, MakesEach};

    /// Puts a new cell of a tag and a value, and binds external field `f` of the variable's object to it. It answers Empty
    /// where the variable holds nothing, Full where no index is free, and Taken where the field has a word already: the
    /// new cell is bound to no field then.
    pub fn init(&mut self, var: u32, f: u32, tag: Tag, value: u64) -> Reply
        requires ready { IsReady self.old }
        requires place { (var < 16) × (f < 2) }
        requires small { value < 2 ^ 48 }
        ensures ready { IsReady self.new }
        ensures makes { MakesEach self.old self.new (op.Init var f tag value) result }
        ensures shape { self.new.image.shape ≡ self.old.image.shape }
    {
        let Some(object) = self.held(var) else {
            return Reply::Empty;
        };
        let place = external_place(object, f);
        fill(&mut self.image.words, self.image.shape, place, tag, value)
    }
}
