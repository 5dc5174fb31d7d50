// How much of the external space is used, and where the evacuation area begins.
ghost use Rattle.std.specs.Prelude.{◌≡◌, ℕ, ◌+◌, ◌*◌, ◌/◌, ◌%◌, ◌^◌, ◌<◌, ◌≤◌, length, slice_index};
ghost use Rattle.sweeper.specs.Pass.{entries_from};
ghost use Rattle.sweeper.specs.Usage.{counted, usage_of, IsOutsideSome, DecidesArea};
ghost use Rattle.entry_word.specs.Image.{sizes_of};
ghost use Rattle.sweeper.specs.Whole.{IsSmallShape};

use entry_word::Shape;
use evac_area::decide;
use plain_table::Policy;

const NO_ACCESS: u64 = 1 << 57;

const LINK_SIZE: u64 = 1 << 32;

/// The used indexes among those counted so far: how many, and the greatest one. `next` is the next free index.
#[derive(Clone, Copy, Debug, PartialEq, Eq)]
pub(crate) struct Usage {
    pub next: u32,
    pub count: u32,
    pub greatest: u32,
}

/// One index more is counted, with its word: it is used unless it is the next free one or its segment is not committed.
fn counted(usage: Usage, word: u64, index: u32) -> Usage
    requires { usage.count < 65536 }
    ensures { result ≡ counted usage word index }
{
    if word == NO_ACCESS {
        usage
    } else if index == usage.next {
        Usage {
            next: (word % LINK_SIZE) as u32,
            ..usage
        }
    } else {
        Usage {
            count: usage.count + 1,
            greatest: index,
            ..usage
        }
    }
}

/// The used indexes of the space whose entries stand at the `limit` places from `base` on. Which indexes are free is read
/// off the links of its freelist, which begins at `head`: an index that was taken and never filled looks free, and is used.
fn used_indexes(words: &[u64], base: usize, limit: u32, head: u32) -> Usage
    requires inside { base + limit ≤ length words.now }
    requires few { limit ≤ 65536 }
    ensures { result ≡ usage_of (entries_from words.now base) head limit }
{
    let mut usage = Usage {
        next: head,
        count: 0,
        greatest: 0,
    };
    for index in 0..limit {
        usage = counted(usage, words[base + index as usize], index);
    }
    usage
}

/// Where the evacuation area begins that a start with this policy decides on.
pub(crate) fn area_start(words: &[u64], shape: Shape, policy: Policy) -> Option<u32>
    requires shape { IsSmallShape shape }
    requires shown { IsOutsideSome words.now (sizes_of shape) }
    ensures { DecidesArea words.now (sizes_of shape) policy result }
{
    let base = 32 + 8 * shape.objects as usize;
    let head = (words[0] % LINK_SIZE) as u32;
    let usage = used_indexes(words, base, shape.seg * shape.ext, head);
    let segments = 1 + usage.greatest / shape.seg;
    decide(policy, segments, usage.count, shape.seg)
}
