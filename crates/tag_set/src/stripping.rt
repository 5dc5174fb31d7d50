//! The strip of an entry's word under a range of tags, and the laws of it.
ghost use Rattle.std.specs.Prelude.{◌≡◌, ℕ};
ghost use Rattle.tag_set.specs.Range.{IsRange};
ghost use Rattle.tag_set.specs.Strip.{IsStripped, AnswersTagsWithin, RefusesFlags, RefusesNoTag};

use crate::ranges::Range;

/// The value stands in bits 0 to 47, and the tag above it.
const TAG_SHIFT: u32 = 48;
/// The flags stand in bits 56 to 63, above the tag.
const FLAG_SHIFT: u32 = 56;
/// The mark, among the flags: bit 62 of the word.
const MARK: u64 = 1 << 6;

/// The value of an entry's word under a range of tags: the low 48 bits. None exactly where one of the bits 56 to 61 and 63
/// is set, or the byte in bits 48 to 55 is not in the range (`IsStripped` of `specs/Strip.antt`).
pub fn strip(word: u64, r: Range) -> Option<u64>
    ensures value { IsStripped word r.first r.last result }
    ensures range { IsRange r.first r.last }
{
    let flags = word >> FLAG_SHIFT;
    let tag = (word >> TAG_SHIFT) % 256;
    if (flags == 0 || flags == MARK) && r.contains(tag as u8) {
        Some(word % (1 << TAG_SHIFT))
    } else {
        None
    }
}

/// A law with no code, in three clauses by the names of `specs/Strip.antt`, of whatever a strip answers. A regular
/// entry's word is answered exactly where the entry's tag lies in the range, and then by its value
/// (`AnswersTagsWithin`). A word with one of the bits 56 to 61 or 63 is refused (`RefusesFlags`), and so is a word without
/// a tag, such as the null word (`RefusesNoTag`).
pub fn strip_tests_the_range()
    ensures regular { AnswersTagsWithin }
    ensures flags { RefusesFlags }
    ensures no_tag { RefusesNoTag }
{}
