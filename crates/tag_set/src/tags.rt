//! The type tags of table entries: the bytes other than 0, of which those with exactly four set bits are the old ones.
ghost use Rattle.std.specs.Prelude.{◌≡◌, ℕ, ◌↔◌, IsSome, IfSome, All, Contains};
ghost use Rattle.std.specs.List.Sorted.{IsStrictlyIncreasing};
ghost use Rattle.tag_set.specs.Tag.{IsTag, IsOldTag};

use std::marker::Model;

/// A type tag: a byte other than 0 (`IsTag` of `specs/Tag.antt`). Contracts see it as that byte.
#[derive(Clone, Copy, Debug, PartialEq, Eq)]
pub struct Tag {
    byte: u8,
}

impl Model for Tag {
    ghost Value = { ℕ };

    ghost view = { λ tag. tag.byte };

    ghost invariant = { λ tag. IsTag tag.byte };

    ghost inverse = { λ byte. record { byte = byte } };
}

impl Tag {
    /// The tag of this byte. None exactly where the byte is 0.
    pub fn of(byte: u8) -> Option<Tag>
        ensures some { IsSome result ↔ IsTag byte }
        ensures byte { IfSome result (λ tag. tag ≡ byte) }
    {
        if byte == 0 { None } else { Some(Tag { byte }) }
    }

    /// The old tag of this byte. None exactly where the byte hasn't four set bits (`IsOldTag` of `specs/Tag.antt`).
    pub fn old(byte: u8) -> Option<Tag>
        ensures some { IsSome result ↔ IsOldTag byte }
        ensures byte { IfSome result (λ tag. tag ≡ byte) }
    {
        if byte.count_ones() == 4 {
            Tag::of(byte)
        } else {
            None
        }
    }

    /// The byte of this tag.
    pub fn byte(self) -> u8
        ensures value { result ≡ self }
        ensures tag { IsTag result }
    {
        self.byte
    }
}

/// The 70 old tags, ascending: each byte that `IsOldTag` of `specs/Tag.antt` holds of, once.
pub fn all() -> [Tag; 70]
    ensures tags { All IsOldTag result }
    ensures ascending { IsStrictlyIncreasing result }
    ensures every { (byte : ℕ) → IsOldTag byte → Contains result byte }
{
    let mut tags = [Tag { byte: 0x0f }; 70];
    let mut count = 0;
    for byte in 0..=u8::MAX {
        if let Some(tag) = Tag::old(byte) {
            tags[count] = tag;
            count += 1;
        }
    }
    tags
}
