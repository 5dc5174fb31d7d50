// Marks at the pause.
ghost use Rattle.std.specs.Prelude.{◌≡◌, ℕ, ◌+◌, ◌≤◌, ◌^◌, ◌<◌, length, slice_index, All};
ghost use Rattle.word_laws.specs.Runs.{marked_after, with_bit};

use crate::pass::{is_cell, is_marked};

const MARKING_BIT: u64 = 1 << 62;

/// The cell at the index, where there is one, is marked.
pub(crate) fn mark(words: &mut [u64], base: usize, limit: usize, index: usize)
    requires { base + limit ≤ length words.old }
    ensures { words.new ≡ marked_after words.old base limit index }
{
    if index < limit && is_cell(words[base + index]) {
        words[base + index] = with_bit(words[base + index]);
    }
}

fn with_bit(word: u64) -> u64
    ensures { result ≡ with_bit word }
{
    if is_marked(word) {
        word
    } else {
        word + MARKING_BIT
    }
}
