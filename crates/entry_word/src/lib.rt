//! The machine word of a table entry, the index in an index word, and the image of a table between two phases.
//!
//! Each valid entry has one word, no two share one, and `decode` gives back exactly the entry of a word, or None where the
//! word is no entry's: `specs/Entry.antt` says which entries are valid, and the word of each, and `specs/Layout.antt` that
//! the model's numbers are these words. `index_word.rt` has the 32-bit index words. `image.rt` has the image: a fresh one
//! shows the table before anything happened (`specs/Image.antt`).
#![tactic(auto)]

ghost use Rattle.std.specs.Prelude.{◌≡◌, ◌+◌, ◌*◌, ◌^◌, ◌↔◌, IfNone, IfSome, IsSome};
ghost use Rattle.entry_word.specs.declared.Entry.{Entry};
ghost use Rattle.entry_word.specs.Layout.{IsOneLayout};
ghost use Rattle.entry_word.specs.Entry.{IsValid, IsTagged, entry_word, tagged_word, IsNoEntry, IsEntryWord, WordsAreUnique};

mod image;
mod index_word;

pub use image::{Image, Pending, Shape};
pub use index_word::{index_of, word_of};

/// The tag stands in bits 48 to 55, above the value in bits 0 to 47.
const TAG_SHIFT: u32 = 48;
/// Bits 0 to 47: the value.
const VALUE_MASK: u64 = (1 << TAG_SHIFT) - 1;
/// Bits 56 to 63: the flags, of which 60, 61 and 63 are always zero.
const FLAG_MASK: u64 = !0 << 56;
/// Bit 56: the entry is free.
const FREE_BIT: u64 = 1 << 56;
/// Bit 57: the entry may not be used.
const NO_ACCESS_BIT: u64 = 1 << 57;
/// Bit 58: the entry is an evacuation entry.
const EVACUATION_BIT: u64 = 1 << 58;
/// Bit 59: the entry isn't published yet.
const UNPUBLISHED_BIT: u64 = 1 << 59;
/// Bit 62: the entry is marked.
const MARKING_BIT: u64 = 1 << 62;
/// Bits 59 and 62: the entry isn't published yet, and is marked.
const UNPUBLISHED_MARKED: u64 = UNPUBLISHED_BIT | MARKING_BIT;

/// A table entry. It is valid (`IsValid` of `specs/Entry.antt`) where `tag` is 1 to 255, `value` is
/// below 2^48, and `next` and `field` are below 2^32.
#[derive(Clone, Copy, Debug, PartialEq, Eq)]
pub enum Entry {
    /// Nothing: the entry at index 0 is this one and stays so.
    Null,
    /// An entry of a segment that isn't committed.
    NoAccess,
    /// A free entry, and the index of the next free one.
    Free { next: u32 },
    /// An evacuation entry, and the number of the field that it is for.
    Evac { field: u32 },
    /// A used entry: a value under a tag, and whether it is marked.
    Regular { tag: u8, value: u64, marked: bool },
    /// A used entry that isn't published yet.
    Unshown { tag: u8, value: u64, marked: bool },
}

/// The word of a valid entry, by `entry_word` of `specs/Entry.antt`: a number below 2^63.
pub fn encode(e: &Entry) -> u64
    requires { IsValid e.now }
    ensures { result ≡ entry_word e.now }
{
    match *e {
        Entry::Null => 0,
        Entry::NoAccess => NO_ACCESS_BIT,
        Entry::Free { next } => FREE_BIT + u64::from(next),
        Entry::Evac { field } => EVACUATION_BIT + u64::from(field),
        Entry::Regular { tag, value, marked } => tagged(tag, value, marked),
        Entry::Unshown { tag, value, marked } => UNPUBLISHED_BIT + tagged(tag, value, marked),
    }
}

// The word of a used entry that is published. Its parts share no bit, so their sum is the word.
fn tagged(tag: u8, value: u64, marked: bool) -> u64
    requires { IsTagged tag value }
    ensures { result ≡ tagged_word tag value marked }
{
    let mark = if marked { MARKING_BIT } else { 0 };
    mark + (u64::from(tag) << TAG_SHIFT) + value
}

/// The valid entry whose word this is, by `entry_word` of `specs/Entry.antt`. None exactly where no
/// valid entry has this word, which is where the word is outside the ranges of `IsEntryWord` there.
pub fn decode(word: u64) -> Option<Entry>
    ensures exact { (e : Entry) → (result ≡ Some e) ↔ (IsValid e × (entry_word e ≡ word)) }
    ensures none { IfNone result (IsNoEntry word) }

    // What `exact` comes to where the answer, the word's range or the entry is known.
    ensures valid { IfSome result (λ e. IsValid e × (entry_word e ≡ word)) }
    ensures some { IsSome result ↔ IsEntryWord word }
    ensures gives_back { (e : Entry) → IsValid e → word ≡ entry_word e → result ≡ Some e }
{
    let flags = word & FLAG_MASK;
    let low = word & !FLAG_MASK;
    let value = low & VALUE_MASK;
    let tag = (low >> TAG_SHIFT) as u8;
    let marked = flags & MARKING_BIT != 0;
    match flags {
        0 if low == 0 => Some(Entry::Null),
        NO_ACCESS_BIT if low == 0 => Some(Entry::NoAccess),
        FREE_BIT => u32::try_from(low).ok().map(|next| Entry::Free { next }),
        EVACUATION_BIT => u32::try_from(low).ok().map(|field| Entry::Evac { field }),
        // Each entry below has a tag.
        _ if tag == 0 => None,
        0 | MARKING_BIT => Some(Entry::Regular { tag, value, marked }),
        UNPUBLISHED_BIT | UNPUBLISHED_MARKED => Some(Entry::Unshown { tag, value, marked }),
        _ => None,
    }
}

/// A law with no code: no two valid entries have one word (`WordsAreUnique` of `specs/Entry.antt`).
pub fn words_are_unique()
    ensures { WordsAreUnique }
{}

/// A law with no code: the model's numbers for cells, free and evacuation entries and entries that may not be used, and
/// the regular words of tags, are the words of the entries (`IsOneLayout` of `specs/Layout.antt`).
pub fn layouts_agree()
    ensures { IsOneLayout }
{}
