// Shading: white objects that words name become shaded, and are listed to be scanned.
ghost use Rattle.std.specs.Prelude.{◌≡◌, ◌≢◌, ℕ, ◌+◌, ◌*◌, ◌<◌, ◌≤◌, length, slice_index};
ghost use Rattle.sweeper.specs.Shading.{Shades, white_in, names, named_at};

/// The object of a word, which is 0 for nothing and else the object's number plus 1, is shaded where it is white, and then
/// stands at the end of the list, whose first `len` objects count; answers the new length. The list has room for all objects.
pub fn shade(words: &mut [u64], list: &mut [u32], len: usize, word: u64) -> usize
    requires inside { 32 + 8 * length list.old ≤ length words.old }
    requires few { length list.old ≤ 16384 }
    requires object { word ≤ length list.old }
    requires room { len + white_in words.old (length list.old) ≤ length list.old }
    ensures { Shades words.old words.new list.old list.new len result (names word) }
{
    if word == 0 {
        return len;
    }
    let object = (word - 1) as usize;
    if words[32 + 8 * object] != 0 {
        return len;
    }
    words[32 + 8 * object] = 1;
    list[len] = object as u32;
    len + 1
}

/// The objects of the `many` words from a place on are shaded, where these are no headers.
pub(crate) fn shade_words(
    words: &mut [u64],
    list: &mut [u32],
    len: usize,
    first: usize,
    many: usize,
) -> usize
    requires inside { 32 + 8 * length list.old ≤ length words.old }
    requires few { length list.old ≤ 16384 }
    requires places { first + many ≤ length words.old }
    requires apart { (k o : ℕ) → k < many → first + k ≢ 32 + 8 * o }
    requires objects { (k : ℕ) → k < many → slice_index words.old (first + k) ≤ length list.old }
    requires room { len + white_in words.old (length list.old) ≤ length list.old }
    ensures { Shades words.old words.new list.old list.new len result (named_at words.old first many) }
{
    let mut end = len;
    for k in 0..many {
        let word = words[first + k];
        end = shade(words, list, end, word);
    }
    end
}

/// The objects of the variables are shaded.
pub(crate) fn shade_variables(
    words: &mut [u64],
    list: &mut [u32],
    len: usize,
    variables: &[u32],
) -> usize
    requires inside { 32 + 8 * length list.old ≤ length words.old }
    requires few { length list.old ≤ 16384 }
    requires objects { (k : ℕ) → k < length variables.now → slice_index variables.now k ≤ length list.old }
    requires room { len + white_in words.old (length list.old) ≤ length list.old }
    ensures { Shades words.old words.new list.old list.new len result (named_at variables.now 0 (length variables.now)) }
{
    let mut end = len;
    for k in 0..variables.len() {
        end = shade(words, list, end, u64::from(variables[k]));
    }
    end
}
