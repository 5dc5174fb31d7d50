// Numbers as hexadecimal digits, for scripts and for reports.
ghost use Rattle.std.specs.Prelude.{◌≡◌, ◌++◌, ◌<◌, ◌≤◌, false, OnOk, string_bytes};
ghost use Rattle.std.specs.Fmt.{digit_glyph};
ghost use Rattle.script_reader.specs.Canonical.{hex};

use std::alloc::AllocError;

/// The digits that any `u64` has at most.
const MOST_DIGITS: usize = 16;

const LOWER_DIGITS: &[u8; 16] = b"0123456789abcdef";

/// Appends the last lower-case hexadecimal digits of a number, so many of them (`hex` in `specs/Canonical.antt`). Up to
/// sixteen are appended at once, unless they are so few that one by one takes less time; those in front of sixteen come
/// one by one. The only error is want of memory.
#[tactic(auto, unfolding(crate::specs::Canonical::hex))]
pub fn push_hex(text: &mut String, digits: u8, number: u64) -> Result<(), AllocError>
    ensures { OnOk result (string_bytes text.new ≡ string_bytes text.old ++ hex digits number) }
{
    match digits {
        0 => Ok(()),
        5..=16 => push_word(text, usize::from(digits), number),
        _ => {
            push_hex(text, digits - 1, number / 16)?;
            text.push(char::from(hex_digit((number % 16) as u8)))
        }
    }
}

// The digits are written from the last one on, and appended at once.
fn push_word(text: &mut String, digits: usize, number: u64) -> Result<(), AllocError>
    requires { digits ≤ MOST_DIGITS }
    ensures { OnOk result (string_bytes text.new ≡ string_bytes text.old ++ hex digits number) }
{
    let mut word = [b'0'; MOST_DIGITS];
    let start = MOST_DIGITS - digits;
    let mut at = MOST_DIGITS;
    let mut rest = number;
    'digits: while start < at {
        at -= 1;
        word[at] = hex_digit((rest % 16) as u8);
        rest /= 16;
    }
    text.push_str(str::from_utf8(&word[start..]).unwrap())
}

fn hex_digit(digit: u8) -> u8
    requires { digit < 16 }
    ensures value { result ≡ digit_glyph false digit }
    ensures ascii { result < 128 }
{
    LOWER_DIGITS[usize::from(digit)]
}
