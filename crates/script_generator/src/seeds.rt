// The number that the word of a seed spells. Each function computes the definition of `specs/Seed.antt` that its
// contract names.
ghost use Rattle.std.specs.Prelude.{◌≡◌};
ghost use Rattle.script_reader.specs.Spelling.{number_onto};
ghost use Rattle.script_generator.specs.Seed.{fitting, seed_of, with_digit};

/// The seed that a word spells (`seed_of` in `specs/Seed.antt`): a number of at most 18446744073709551615 in decimal
/// digits, with no leading zero. `None` exactly where the word is no such number.
pub fn seed_of(word: &str) -> Option<u64>
    ensures { result ≡ seed_of word.now }
{
    match word.as_bytes() {
        [] => None,
        [b'0', more @ ..] => { if more.is_empty() { Some(0) } else { None } }
        digits => number(digits),
    }
}

// The number that decimal digits spell, where it has room in 64 bits.
fn number(digits: &[u8]) -> Option<u64>
    ensures { result ≡ fitting (number_onto 10 0 digits.now) }
{
    let mut number = 0;
    for byte in digits {
        number = with_digit(number, *byte)?;
    }
    Some(number)
}

fn with_digit(number: u64, byte: u8) -> Option<u64>
    ensures { result ≡ fitting (with_digit number byte) }
{
    match byte {
        b'0'..=b'9' => number.checked_mul(10)?.checked_add(u64::from(byte - b'0')),
        _ => None,
    }
}
