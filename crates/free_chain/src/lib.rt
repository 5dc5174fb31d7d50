//! The freelist of a space: its word, and the list of free indexes that the word and the links of free entries stand for.
//!
//! `pack`, `head` and `len` are exact between a freelist word and its parts; `next_free` finds the next free index. Three
//! laws are functions with no code: `freelists_are_chains` says that the list is the ascending one of all free indexes of
//! committed segments (`specs/Chain.antt`), `ranks_rise` and `words_come_once` that no freelist word comes twice while
//! mutators run, and `heads_are_taken` that a take is such a move (`specs/Rank.antt`).
#![tactic(auto)]

ghost use Rattle.std.specs.Prelude.{◌≡◌, ◌/◌, ◌%◌, ◌^◌, ◌≤◌, length};
ghost use Rattle.plain_table.specs.Words.{freelist_word, next_free};
ghost use Rattle.free_chain.specs.Chain.{FreelistsAreChains, IsNextFree, is_used};
ghost use Rattle.free_chain.specs.Rank.{HeadsAreTaken, RanksRise, WordsComeOnce};

/// The length stands in bits 32 to 63, above the head.
const LENGTH_SHIFT: u32 = 32;

/// The freelist word of a head and a length (`freelist_word` of `specs/Words.antt` of `plain_table`).
pub fn pack(head: u32, len: u32) -> u64
    ensures { result ≡ freelist_word head len }
{
    (u64::from(len) << LENGTH_SHIFT) + u64::from(head)
}

/// The head of a freelist word: the least free index, or where the list is empty the first index of the next segment.
pub fn head(word: u64) -> u32
    ensures { result ≡ word % 2 ^ 32 }
{
    (word % (1 << LENGTH_SHIFT)) as u32
}

/// The length of a freelist word: how many indexes its list has.
pub fn len(word: u64) -> u32
    ensures { result ≡ word / 2 ^ 32 }
{
    (word >> LENGTH_SHIFT) as u32
}

/// The least index at or above `from` that isn't used, and `used.len()` where there is none. `used` has at most 65,536
/// indexes, and `from` is at most as many.
pub fn next_free(used: &[bool], from: u32) -> u32
    requires start { from ≤ length used.now }
    requires few { length used.now ≤ 65536 }
    ensures least { IsNextFree (is_used used.now) from (length used.now) result }

    // The same by the words of the model.
    ensures model { result ≡ next_free (is_used used.now) from (length used.now) }
{
    let end = used.len() as u32;
    for index in from..end {
        if !used[index as usize] {
            return index;
        }
    }
    end
}

/// A law with no code: where words show a table, a freelist word and its links stand for the ascending list of the free
/// indexes of committed segments, and the last link, or the head of an empty list, is the first index of the next segment.
pub fn freelists_are_chains()
    ensures { FreelistsAreChains }
{}

/// A law with no code: a take raises the rank of a freelist word, and a commit of a segment raises it by 1.
pub fn ranks_rise()
    ensures { RanksRise }
{}

/// A law with no code: of freelist words that follow one another by takes and commits no two are the same.
pub fn words_come_once()
    ensures { WordsComeOnce }
{}

/// A law with no code: where words show a table, the head of its freelist is taken by the word that has the head's link
/// and one index less.
pub fn heads_are_taken()
    ensures { HeadsAreTaken }
{}
