//! Ranges of type tags: all the tags from a first one to a last one.
ghost use Rattle.std.specs.Prelude.{◌≡◌, ◌≤◌, ◌↔◌, IsSome, IsTrue, IfSome};
ghost use Rattle.tag_set.specs.Tag.{IsTag};
ghost use Rattle.tag_set.specs.Range.{TagRange, IsRange, IsWithin};

use crate::tags::Tag;
use std::marker::Model;

/// A range of tags, from a first one to a last one that is not below it (`IsRange` of `specs/Range.antt`). Contracts see
/// it as its two ends (`TagRange`).
#[derive(Clone, Copy, Debug, PartialEq, Eq)]
pub struct Range {
    first: Tag,
    last: Tag,
}

impl Model for Range {
    ghost Value = { TagRange };

    ghost view = { λ range. record { first = range.first; last = range.last } };

    ghost invariant = { λ range. IsRange range.first range.last };

    ghost inverse = { λ range. record { first = range.first; last = range.last } };
}

impl Range {
    /// The range from the first tag to the last. None exactly where the first is above the last.
    pub fn of(first: Tag, last: Tag) -> Option<Range>
        ensures some { IsSome result ↔ first ≤ last }
        ensures ends { IfSome result (λ range. (range.first ≡ first) × (range.last ≡ last)) }
    {
        if first.byte() <= last.byte() {
            Some(Range { first, last })
        } else {
            None
        }
    }

    /// The range of one tag.
    pub fn one(t: Tag) -> Range
        ensures first { result.first ≡ t }
        ensures last { result.last ≡ t }
    {
        Range { first: t, last: t }
    }

    /// The least tag of this range.
    pub fn first(self) -> Tag
        ensures value { result ≡ self.first }
        ensures range { IsRange self.first self.last }
    {
        self.first
    }

    /// The greatest tag of this range.
    pub fn last(self) -> Tag
        ensures value { result ≡ self.last }
        ensures range { IsRange self.first self.last }
    {
        self.last
    }

    /// Whether a byte lies in this range.
    pub(crate) fn contains(self, byte: u8) -> bool
        ensures { IsTrue result ↔ IsWithin self.first self.last byte }
    {
        self.first.byte() <= byte && byte <= self.last.byte()
    }
}
