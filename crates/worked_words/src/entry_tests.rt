// Words that were worked out by hand, with the entries that they stand for, and words that are no
// entry's. The functions before the tests show, by proof, what a caller learns from the contracts.
ghost use Rattle.std.specs.Prelude.{◌≡◌, ◌<◌, ◌↔◌, true, IsTrue, length, map, slice_get, slice_index, All};
ghost use Rattle.entry_word.specs.Entry.{IsValid, IsTagged, IsNoEntry, entry_word};

use crate::asserts::assert_is;
use entry_word::{Entry, Image, Shape, decode, encode, index_of, word_of, words_are_unique};
use plain_table::OutOfMemory;

// `decode` of `encode` gives the entry back.
fn round_trip(e: &Entry) -> Option<Entry>
    requires { IsValid e.now }
    ensures { result ≡ Some e.now }
{
    decode(encode(e))
}

// A word that is no entry's is refused.
fn refusal(word: u64) -> Option<Entry>
    requires { IsNoEntry word }
    ensures { result ≡ None }
{
    decode(word)
}

// Where a list holds a known word, `decode` gives the known entry.
fn known_entry(words: &[u64], i: usize, tag: u8, value: u64) -> Option<Entry>
    requires in_range { i < length words.now }
    requires tagged { IsTagged tag value }
    requires word { slice_index words.now i ≡ entry_word (Entry.Regular tag value true) }
    ensures { result ≡ Some (Entry.Regular tag value true) }
{
    decode(words[i])
}

// The same under a `match`: every other arm is ruled out.
fn known_value(word: u64, tag: u8, value: u64) -> u64
    requires tagged { IsTagged tag value }
    requires word { word ≡ entry_word (Entry.Regular tag value true) }
    ensures { result ≡ value }
{
    match decode(word) {
        Some(Entry::Regular { value, .. }) => value,
        _ => unreachable!(),
    }
}

// Where a list holds the words of a list of entries, each word gives its entry.
fn listed_entry(words: &[u64], i: usize, entries: &[Entry]) -> Option<Entry>
    requires in_range { i < length words.now }
    requires valid { All IsValid entries.now }
    requires words { words.now ≡ map entry_word entries.now }
    ensures { result ≡ slice_get entries.now i }
{
    decode(words[i])
}

// Two entries are one exactly where their words are one.
fn is_same(a: &Entry, b: &Entry) -> bool
    requires a { IsValid a.now }
    requires b { IsValid b.now }
    ensures { IsTrue result ↔ (a.now ≡ b.now) }
{
    words_are_unique();
    encode(a) == encode(b)
}

#[test]
fn each_word_has_its_entry(rt: HostRuntime) {
    let table = [
        (0x0000_0000_0000_0000, Entry::Null),
        (0x0200_0000_0000_0000, Entry::NoAccess),
        (0x0100_0000_0000_0002, Entry::Free { next: 2 }),
        (0x0400_0000_0000_0006, Entry::Evac { field: 6 }),
        (
            0x400f_0000_0000_00c0,
            Entry::Regular {
                tag: 0x0f,
                value: 0xc0,
                marked: true,
            },
        ),
        (
            0x080f_0000_0000_00c0,
            Entry::Unshown {
                tag: 0x0f,
                value: 0xc0,
                marked: false,
            },
        ),
    ];
    for (word, entry) in table {
        let found = (decode(word), encode(&entry), is_same(&entry, &entry));
        assert_is(&rt, found, (Some(entry), word, true));
    }
}

#[test]
fn other_words_are_no_entries(rt: HostRuntime) {
    let table = [
        0x0000_0000_0000_0001,
        0x4000_0000_0000_0000,
        0x8000_0000_0000_0000,
        0x0100_0001_0000_0002,
        0x0300_0000_0000_0000,
        0x1001_0000_0000_00c0,
    ];
    for word in table {
        assert_is(&rt, (word, decode(word)), (word, None));
    }
}

#[test]
fn index_words_hold_the_index_above(rt: HostRuntime) {
    let found = (index_of(0x0001_abcd), word_of(2));
    assert_is(&rt, found, (1, 0x0002_0000));
}

#[test]
fn a_fresh_image_has_one_free_segment_in_each_space(rt: HostRuntime) -> Result<(), OutOfMemory> {
    let shape = Shape {
        seg: 4,
        ext: 2,
        tru: 1,
        objects: 4,
    };
    let image = Image::fresh(rt.alloc(), shape)?;
    let lengths = (image.words.len(), image.vars.len(), image.pending.len());
    assert_is(&rt, lengths, (76, 128, 8));
    for (place, word) in [
        // the freelists, and no object
        (0, 0x0000_0003_0000_0001),
        (2, 0x0000_0003_0000_0001),
        (3, 0),
        // external entry 0, the first free one, the last one of the first segment, and the second segment
        (64, 0),
        (65, 0x0100_0000_0000_0002),
        (67, 0x0100_0000_0000_0004),
        (68, 0x0200_0000_0000_0000),
        // trusted entry 0, and the last one
        (72, 0),
        (75, 0x0100_0000_0000_0004),
    ] {
        assert_is(&rt, (place, image.words.get(place)), (place, Some(&word)));
    }
    let ends = (image.vars.get(127), image.pending.get(7));
    assert_is(&rt, ends, (Some(&0), Some(&None)));
    Ok(())
}
