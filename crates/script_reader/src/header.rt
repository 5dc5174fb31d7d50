// The header of a script. Each function computes the definition of `specs/Header.antt` that its contract names.
ghost use Rattle.std.specs.Prelude.{◌≡◌, [], ◌∷◌, List, ℕ, None, IfSome, IfNone};
ghost use Rattle.script_reader.specs.Spelling.{words};
ghost use Rattle.script_reader.specs.Header.{are_others, are_segments, header_of, limits_of_numbers, limits_with, limits_within, named, version_of};
ghost use Rattle.script_reader.specs.Reading.{IsValidHeader};
ghost use Rattle.script_reader.specs.Valid.{IsValidLimits, IsVersion};

use crate::words::{small, split_word};
use plain_table::Limits;

/// What a header says.
#[derive(Clone, Copy, Debug, PartialEq, Eq)]
pub struct Header {
    /// 1 or 2.
    pub version: u32,
    pub limits: Limits,
}

/// The version (`version_of`): the small number 1 or 2.
fn read_version(word: &[u8]) -> Option<u32>
    ensures value { result ≡ version_of word.now }
    ensures valid { IfSome result IsVersion }
{
    match small(word)? {
        1 => Some(1),
        2 => Some(2),
        _ => None,
    }
}

/// The small number after a name, with which the word must begin (`named`). The name has its `=` at the end.
fn named_number(name: &[u8], word: &[u8]) -> Option<u64>
    ensures { result ≡ named name.now word.now }
{
    if word.starts_with(name) {
        small(&word[name.len()..])
    } else {
        None
    }
}

/// The six numbers of a header.
#[derive(Clone, Copy, Debug, PartialEq, Eq)]
struct Numbers {
    seg: u64,
    ext: u64,
    tru: u64,
    objects: u64,
    mutators: u64,
    markers: u64,
}

impl Numbers {
    /// Whether the segments of both spaces are in their ranges.
    fn are_segments(&self) -> bool
        ensures { result ≡ are_segments self.now.seg self.now.ext self.now.tru }
    {
        match self.seg {
            4 | 16 | 64 | 256 => {
                let most = 65_536 / self.seg;
                1 <= self.ext && self.ext <= most && 1 <= self.tru && self.tru <= most
            }
            _ => false,
        }
    }

    /// Whether the other numbers are in their ranges.
    fn are_others(&self) -> bool
        ensures { result ≡ are_others self.now.objects self.now.mutators self.now.markers }
    {
        1 <= self.objects
            && self.objects <= 16_384
            && 1 <= self.mutators
            && self.mutators <= 8
            && self.markers <= 4
    }

    /// The limits with these numbers, where they are in their ranges (`limits_within`).
    fn limits(&self) -> Option<Limits>
        ensures value { result ≡ limits_within (limits_with self.now.seg self.now.ext self.now.tru self.now.objects
            self.now.mutators self.now.markers) }
        ensures valid { IfSome result IsValidLimits }
    {
        if self.are_segments() && self.are_others() {
            Some(Limits {
                seg: self.seg as u32,
                ext: self.ext as u32,
                tru: self.tru as u32,
                objects: self.objects as u32,
                mutators: self.mutators as u32,
                markers: self.markers as u32,
            })
        } else {
            None
        }
    }
}

/// The words of a header.
#[derive(Clone, Copy)]
struct HeaderWords<'a> {
    ept: &'a [u8],
    version: &'a [u8],
    seg: &'a [u8],
    ext: &'a [u8],
    tru: &'a [u8],
    objects: &'a [u8],
    mutators: &'a [u8],
    markers: &'a [u8],
}

impl HeaderWords<'_> {
    /// The six numbers, each after its name. `None` where one of them is missing or misspelled.
    fn numbers(&self) -> Option<Numbers>
        ensures value { IfSome result (λ n. limits_of_numbers self.now.seg.now self.now.ext.now self.now.tru.now
            self.now.objects.now self.now.mutators.now self.now.markers.now
            ≡ limits_within (limits_with n.seg n.ext n.tru n.objects n.mutators n.markers)) }
        ensures other { IfNone result (limits_of_numbers self.now.seg.now self.now.ext.now self.now.tru.now
            self.now.objects.now self.now.mutators.now self.now.markers.now ≡ None) }
    {
        let seg = named_number(b"seg=", self.seg)?;
        let ext = named_number(b"ext=", self.ext)?;
        let tru = named_number(b"tru=", self.tru)?;
        let objects = named_number(b"objects=", self.objects)?;
        let mutators = named_number(b"mutators=", self.mutators)?;
        let markers = named_number(b"markers=", self.markers)?;
        Some(Numbers {
            seg,
            ext,
            tru,
            objects,
            mutators,
            markers,
        })
    }
}

/// The line itself, where it is a single word. `None` where it has a space.
fn last_word(line: &[u8]) -> Option<&[u8]>
    ensures single { IfSome result (λ word. words line.now ≡ word.now ∷ []) }
    ensures more { IfNone result ((a b : List ℕ) × (more : List (List ℕ)) × (words line.now ≡ a ∷ b ∷ more)) }
{
    match split_word(line) {
        None => Some(line),
        Some(_) => None,
    }
}

/// Splits a line into the eight words of a header. `None` where it has more or fewer.
fn split_header(line: &[u8]) -> Option<HeaderWords>
    ensures split { IfSome result (λ h. words line.now ≡ h.ept.now ∷ h.version.now ∷ h.seg.now ∷ h.ext.now
        ∷ h.tru.now ∷ h.objects.now ∷ h.mutators.now ∷ h.markers.now ∷ []) }
    ensures other { IfNone result (header_of line.now ≡ None) }
{
    let (ept, rest) = split_word(line)?;
    let (version, rest) = split_word(rest)?;
    let (seg, rest) = split_word(rest)?;
    let (ext, rest) = split_word(rest)?;
    let (tru, rest) = split_word(rest)?;
    let (objects, rest) = split_word(rest)?;
    let (mutators, rest) = split_word(rest)?;
    let markers = last_word(rest)?;
    Some(HeaderWords {
        ept,
        version,
        seg,
        ext,
        tru,
        objects,
        mutators,
        markers,
    })
}

/// Reads the header (`header_of`). `None` where the line is none.
pub fn read_header(line: &[u8]) -> Option<Header>
    ensures value { result ≡ header_of line.now }
    ensures valid { IfSome result IsValidHeader }
{
    let words = split_header(line)?;
    if words.ept != b"ept".as_slice() {
        return None;
    }
    let version = read_version(words.version)?;
    let limits = words.numbers()?.limits()?;
    Some(Header { version, limits })
}
