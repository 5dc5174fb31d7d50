// What entries hold: a look at one under a range of tags, and an exchange of its value.
ghost use Rattle.std.specs.Prelude.{◌≡◌, ◌≤◌, ◌<◌, ◌^◌};
ghost use Rattle.std.specs.Option.{option_map_or};
ghost use Rattle.plain_table.specs.declared.reports.Reply.TheVariants as reply;
ghost use Rattle.plain_table.specs.declared.events.Space.TheVariants.{External};
ghost use Rattle.plain_table.specs.Index.{index_of};
ghost use Rattle.plain_table.specs.Words.{entry_place};
ghost use Rattle.word_laws.specs.ReadLaws.{tag_bits};
ghost use Rattle.entry_word.specs.Image.{IsValidShape, sizes_of};
ghost use Rattle.mutator_calls.specs.Words.{IsShownBySome, LooksAt};
ghost use Rattle.mutator_calls.specs.Exchanges.{exchanged, stored, valued_word};

use crate::places::{first_entry, limit};
use entry_word::{Entry, Shape, encode, index_of};
use plain_table::{Reply, Space};
use tag_set::{Range, strip};

/// The tag of an entry's word stands in the byte above these bits.
const TAG_SHIFT: u32 = 48;

/// What a look at the entry that a word names answers, under a range of tags.
pub(crate) fn look(words: &[u64], shape: Shape, space: Space, word: u32, range: Range) -> Reply
    requires shape { IsValidShape shape }
    requires shown { IsShownBySome words.now (sizes_of shape) }
    ensures { LooksAt words.now (sizes_of shape) space word range.first range.last result }
{
    let index = index_of(word);
    if index == 0 {
        return Reply::Null;
    }
    if index >= limit(shape, space) {
        return Reply::Fault;
    }
    answer(strip(words[first_entry(shape, space) + index as usize], range))
}

/// What a stripped word answers.
fn answer(stripped: Option<u64>) -> Reply
    ensures { result ≡ option_map_or reply.Value stripped reply.Fault }
{
    match stripped {
        Some(value) => Reply::Value(value),
        None => Reply::Fault,
    }
}

/// Looks at the entry that a word of the external space names, and writes another value where one was found there; answers
/// what was found. The cell keeps its tag, and is marked.
pub(crate) fn exchange(
    words: &mut [u64],
    shape: Shape,
    word: u32,
    range: Range,
    value: u64,
) -> Reply
    requires shape { IsValidShape shape }
    requires shown { IsShownBySome words.old (sizes_of shape) }
    requires small { value < 2 ^ 48 }
    ensures looks { LooksAt words.old (sizes_of shape) External word range.first range.last result }
    ensures words { words.new ≡ exchanged words.old (entry_place (sizes_of shape) External (index_of word)) value result }
{
    let found = look(words, shape, Space::External, word, range);
    if let Reply::Value(_) = found {
        let place = first_entry(shape, Space::External) + index_of(word) as usize;
        words[place] = with_value(words[place], value);
    }
    found
}

/// The word of a marked entry that has the tag of an entry's word, and another value.
fn with_value(word: u64, value: u64) -> u64
    requires { (1 ≤ tag_bits word) × (value < 2 ^ 48) }
    ensures { result ≡ valued_word word value }
{
    let tag = (word >> TAG_SHIFT) % 256;
    encode(&Entry::Regular {
        tag: tag as u8,
        value,
        marked: true,
    })
}

/// What a store answers, by what its look found.
pub(crate) fn stored(found: Reply) -> Reply
    ensures { result ≡ stored found }
{
    match found {
        Reply::Value(_) => Reply::Ok,
        miss => miss,
    }
}
