// The numbers of events: the parts of an index word and of a field, the tags, and the ranges of what an event names.
ghost use Rattle.std.specs.Prelude.{◌≡◌, ◌<◌, ◌↔◌, true, IsTrue};
ghost use Rattle.plain_table.specs.declared.events.Space.TheVariants.{External};
ghost use Rattle.plain_table.specs.Index.{index_of, word_of};
ghost use Rattle.plain_table.specs.Places.{same_space, space_of, object_of};
ghost use Rattle.plain_table.specs.Rows.{IsTag, is_asked};

use crate::{Field, Space};

/// Mutators are numbered below this one.
pub const MUTATORS: u32 = 8;

/// The number that starts and finishes cycles.
pub const MEETING: u32 = 12;

/// The variables of a mutator are numbered below this one.
pub const VARIABLES: u32 = 16;

/// The globals are numbered below this one.
pub const GLOBALS: u32 = 16;

/// The references of an object are numbered below this one.
pub const REFERENCES: u32 = 4;

/// Values stand below this one.
pub const VALUE_END: u64 = 1 << 48;

/// The index that a word names.
pub fn index_of(word: u32) -> u32
    ensures { result ≡ index_of word }
{
    word >> 16
}

/// The word of an index.
pub fn word_of(index: u32) -> u32
    requires { index < 65536 }
    ensures { result ≡ word_of index }
{
    index << 16
}

/// The byte is a tag: it is not 0.
pub fn is_tag(tag: u8) -> bool
    ensures { IsTrue result ↔ IsTag tag }
{
    tag != 0
}

/// The tag lies in the asked range, from its first to its last tag.
pub fn is_asked(first: u8, last: u8, tag: u8) -> bool
    ensures { result ≡ is_asked first last tag }
{
    first <= tag && tag <= last
}

/// The space is the external one.
pub fn is_external(space: Space) -> bool
    ensures { result ≡ same_space space External }
{
    match space {
        Space::External => true,
        Space::Trusted => false,
    }
}

/// The space that the field's word names an entry of.
pub fn space_of(field: Field) -> Space
    ensures { result ≡ space_of field }
{
    match field {
        Field::External { .. } => Space::External,
        Field::Trusted { .. } => Space::Trusted,
    }
}

/// The object that has the field.
pub fn object_of(field: Field) -> u32
    ensures { result ≡ object_of field }
{
    match field {
        Field::External { number } => number / 2,
        Field::Trusted { number } => number,
    }
}
