// The words of a table at the end of a phase.
ghost use Rattle.std.specs.Prelude.{◌≡◌, ◌<◌, ◌≤◌, ◌^◌, length};
ghost use Rattle.plain_table.specs.Words.{words_in_all};
ghost use Rattle.entry_base.specs.Closing.{walk, IsClosedFrom, IsTableClosed};
ghost use Rattle.word_laws.specs.Small.{AreSmall};
ghost use Rattle.entry_word.specs.Image.{sizes_of};

use entry_word::Shape;

// The entry of a segment that is not committed.
const NO_ACCESS: u64 = 1 << 57;

// The index after a freelist: what `len` links from `at` on lead to.
pub(crate) fn end_of_list(words: &[u64], first: usize, head: u64, len: u64) -> u64
    requires { (first < 2 ^ 32) × (head < 2 ^ 32) }
    ensures { (result ≡ walk words.now first len head) × (result < 2 ^ 32) }
{
    let mut at = head;
    for _link in 0..len {
        let place = first + at as usize;
        at = if place < words.len() {
            words[place] % (1 << 32)
        } else {
            0
        };
    }
    at
}

// Takes away the access to the entries at these places.
pub(crate) fn close_from(words: &mut [u64], from: usize, to: usize)
    requires { to ≤ length words.old }
    ensures { IsClosedFrom words.old from to words.new }
{
    for i in from..to {
        words[i] = NO_ACCESS;
    }
}

// Takes away the access to the entries after both freelists.
pub(crate) fn close_table(shape: &Shape, words: &mut [u64])
    requires few { AreSmall (sizes_of shape.now) }
    requires sized { length words.old ≡ words_in_all (sizes_of shape.now) }
    ensures { IsTableClosed (sizes_of shape.now) words.old words.new }
{
    let external = 32 + 8 * shape.objects as usize;
    let trusted = external + (shape.seg * shape.ext) as usize;
    let end = trusted + (shape.seg * shape.tru) as usize;
    let external_end = end_of_list(words, external, words[0] % (1 << 32), words[0] / (1 << 32));
    let trusted_end = end_of_list(words, trusted, words[2] % (1 << 32), words[2] / (1 << 32));
    close_from(words, external + external_end as usize, trusted);
    close_from(words, trusted + trusted_end as usize, end);
}
