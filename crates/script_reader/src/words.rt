// The parts of a text, and what a word of a line spells. Each function computes the definition of
// `specs/Spelling.antt` that its contract names.
ghost use Rattle.std.specs.Prelude.{◌≡◌, ◌<◌, ◌≤◌, ◌^◌, ◌==◌, length, false, [], ◌∷◌, Some, IfSome, IfNone};
ghost use Rattle.std.specs.List.{position, slice_split};
ghost use Rattle.std.specs.Option.{option_map_or};
ghost use Rattle.script_reader.specs.Grammar.{is_empty};
ghost use Rattle.script_reader.specs.Spelling.{digit_of, index_word_of, is_tag, number_onto, pieces, range_of, range_of_two, small_of, tag_of, value_of, variable_of, when, words};
ghost use Rattle.script_reader.specs.Valid.{IsRangeOf, IsTagOf};

use tag_set::{Range, Tag};

/// The most digits of a number, in base 16.
const MOST_DIGITS: usize = 12;

/// The index of the first such byte.
fn find_byte(text: &[u8], byte: u8) -> Option<usize>
    ensures { result ≡ position (λ b. b == byte) text.now }
{
    text.iter().position(|b| *b == byte)
}

/// Splits a text at the first such byte: what stands before it, and what follows it. `None` where it has none.
pub fn split_at_byte(text: &[u8], byte: u8) -> Option<(&[u8], &[u8])>
    ensures split { IfSome result (λ s.
        slice_split (λ b. b == byte) text.now ≡ s.0.now ∷ slice_split (λ b. b == byte) s.1.now) }
    ensures full { IfSome result (λ s. is_empty (slice_split (λ b. b == byte) s.1.now) ≡ false) }
    ensures shorter { IfSome result (λ s. length s.1.now < length text.now) }
    ensures whole { IfNone result (slice_split (λ b. b == byte) text.now ≡ text.now ∷ []) }
{
    let at = find_byte(text, byte)?;
    Some((&text[..at], &text[at + 1..]))
}

/// Splits a line at its first space: its first word, and the rest (`words`). `None` where it is a single word.
pub fn split_word(line: &[u8]) -> Option<(&[u8], &[u8])>
    ensures split { IfSome result (λ s. words line.now ≡ s.0.now ∷ words s.1.now) }
    ensures whole { IfNone result (words line.now ≡ line.now ∷ []) }
{
    split_at_byte(line, b' ')
}

/// Splits a text at its first end of line: its first line, and the rest (`pieces`). `None` where no line ends.
pub fn split_line(text: &[u8]) -> Option<(&[u8], &[u8])>
    ensures split { IfSome result (λ s. pieces text.now ≡ s.0.now ∷ pieces s.1.now) }
    ensures full { IfSome result (λ s. is_empty (pieces s.1.now) ≡ false) }
    ensures shorter { IfSome result (λ s. length s.1.now < length text.now) }
    ensures whole { IfNone result (pieces text.now ≡ text.now ∷ []) }
{
    split_at_byte(text, b'\n')
}

/// The first word of a line, and what follows its space: `None` where it is the only word.
pub fn next_word(line: &[u8]) -> (&[u8], Option<&[u8]>)
    ensures { words line.now ≡ result.0.now ∷ option_map_or (λ r. words r.now) result.1 [] }
{
    match split_word(line) {
        None => (line, None),
        Some((word, rest)) => (word, Some(rest)),
    }
}

/// The digit from 0 to 15 that a byte spells (`digit_of`): 0 to 9, or a to f in lower case.
fn digit(byte: u8) -> Option<u64>
    ensures value { result ≡ digit_of byte }
    ensures below { IfSome result (λ digit. digit < 16) }
{
    match byte {
        b'0'..=b'9' => Some(u64::from(byte - b'0')),
        b'a'..=b'f' => Some(u64::from(byte - b'a') + 10),
        _ => None,
    }
}

/// The number that at most twelve digits of a base spell (`number_onto`). `None` at a byte that is no such digit.
fn number(base: u64, word: &[u8]) -> Option<u64>
    requires base { base ≤ 16 }
    requires short { length word.now ≤ MOST_DIGITS }
    ensures value { result ≡ number_onto base 0 word.now }
    ensures below { IfSome result (λ n. n < 16 ^ length word.now) }
{
    let mut number = 0;
    for byte in word {
        let digit = digit(*byte)?;
        if digit >= base {
            return None;
        }
        number = base * number + digit;
    }
    Some(number)
}

/// The number of a variable, from 0 to 15 (`variable_of`): one letter from a to p.
pub fn variable(word: &[u8]) -> Option<u32>
    ensures value { result ≡ variable_of word.now }
    ensures below { IfSome result (λ var. var < 16) }
{
    match word {
        [letter @ b'a'..=b'p'] => Some(u32::from(*letter - b'a')),
        _ => None,
    }
}

/// A number of at most nine decimal digits, with no leading zero (`small_of`).
pub fn small(word: &[u8]) -> Option<u64>
    ensures { result ≡ small_of word.now }
{
    match word {
        [] => None,
        [b'0', more @ ..] => { if more.is_empty() { Some(0) } else { None } }
        _ => {
            if word.len() <= 9 {
                number(10, word)
            } else {
                None
            }
        }
    }
}

/// The tag of a byte, where it is one in this version (`is_tag`).
fn version_tag(version: u32, byte: u8) -> Option<Tag>
    ensures value { result ≡ when (is_tag version byte) (Some byte) }
    ensures tag { IfSome result (IsTagOf version) }
{
    if version == 2 {
        Tag::of(byte)
    } else {
        Tag::old(byte)
    }
}

/// A tag of a script of this version (`tag_of`): two hexadecimal digits.
pub fn tag(version: u32, word: &[u8]) -> Option<Tag>
    ensures value { result ≡ tag_of version word.now }
    ensures tag { IfSome result (IsTagOf version) }
{
    if word.len() == 2 {
        version_tag(version, number(16, word)? as u8)
    } else {
        None
    }
}

/// The range of two tags, of which the first is below the last (`range_of_two`).
fn range_of_two(first: Tag, last: Tag) -> Option<Range>
    ensures { result ≡ range_of_two first last }
{
    if first.byte() < last.byte() {
        Range::of(first, last)
    } else {
        None
    }
}

/// A range of tags of a script of this version (`range_of`): one tag, or in version 2 two with `-` between.
pub fn range(version: u32, word: &[u8]) -> Option<Range>
    ensures value { result ≡ range_of version word.now }
    ensures range { IfSome result (λ range. IsRangeOf version range.first range.last) }
{
    match word {
        [a, b, dash, c, d] => {
            if version == 2 && *dash == b'-' {
                range_of_two(tag(version, &[*a, *b])?, tag(version, &[*c, *d])?)
            } else {
                None
            }
        }
        _ => Some(Range::one(tag(version, word)?)),
    }
}

/// A value below 2^48 (`value_of`): twelve hexadecimal digits.
pub fn value(word: &[u8]) -> Option<u64>
    ensures value { result ≡ value_of word.now }
    ensures below { IfSome result (λ value. value < 2 ^ 48) }
{
    if word.len() == MOST_DIGITS {
        number(16, word)
    } else {
        None
    }
}

/// An index word (`index_word_of`): eight hexadecimal digits.
pub fn index_word(word: &[u8]) -> Option<u32>
    ensures value { result ≡ index_word_of word.now }
    ensures below { IfSome result (λ word. word < 2 ^ 32) }
{
    if word.len() == 8 {
        Some(number(16, word)? as u32)
    } else {
        None
    }
}
