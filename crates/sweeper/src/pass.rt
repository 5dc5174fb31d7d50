// The last pass of a sweep over the entry words of one space.
ghost use Rattle.std.specs.Prelude.{◌≡◌, ℕ, ◌+◌, ◌-◌, ◌*◌, ◌/◌, ◌^◌, ◌<◌, ◌≤◌, Bool, true, false, nat_le, nat_lt, ◌&&◌, not, if◌then◌else◌, length, slice_index};
ghost use Rattle.plain_table.specs.Words.{free_word, freelist_word, no_access_word};
ghost use Rattle.word_laws.specs.Kinds.{is_marked_word, is_evacuation_word, is_cell_word};
ghost use Rattle.sweeper.specs.Pass.{entries_from, greatest_after, IsPassAt, IsTallyAt, IsCountedIn, IsFew, MarksTell, one_if};
ghost use Rattle.sweeper.specs.Ready.{IsSpaceSwept};

use crate::lanes::mark_mask;
use std::marker::Model;

const MARKING_BIT: u64 = 1 << 62;

const UNPUBLISHED_BIT: u64 = 1 << 59;

const EVACUATION_BIT: u64 = 1 << 58;

const NO_ACCESS: u64 = 1 << 57;

const FREE_BIT: u64 = 1 << 56;

const TAG_BIT: u64 = 1 << 48;

/// What a pass tells: the freelist after it, and the cells kept, freed and moved.
#[derive(Drop)]
pub(crate) struct Pass {
    pub head: u32,
    pub len: u32,
    pub kept: u32,
    pub freed: u32,
    pub moved: u32,
}

impl Model for Pass {
    ghost use Rattle.sweeper.specs.Pass.{Tally};

    ghost Value = { Tally };

    ghost view = { λ p. record { head = p.head; len = p.len; kept = p.kept; freed = p.freed; moved = p.moved } };
}

/// The words of one space: its entries stand at the `limit` places from `base` on; those below `from` may stay.
#[derive(Clone, Copy)]
pub(crate) struct Span {
    pub base: usize,
    pub limit: u32,
    pub from: u32,
}

pub(crate) fn is_marked(word: u64) -> bool
    ensures { result ≡ is_marked_word word }
{
    word >= MARKING_BIT
}

pub(crate) fn is_evacuation(word: u64) -> bool
    ensures { result ≡ is_evacuation_word word }
{
    word >= EVACUATION_BIT && word < UNPUBLISHED_BIT
}

pub(crate) fn is_cell(word: u64) -> bool
    ensures { result ≡ is_cell_word word }
{
    (word >= TAG_BIT && word < FREE_BIT) || word >= UNPUBLISHED_BIT
}

/// The greatest index that stays, or 0: by the marks of at most 64 entries at a time, from the top down.
pub(crate) fn greatest(words: &[u64], span: Span) -> u32
    requires inside { span.base + span.limit ≤ length words.now }
    requires marks { MarksTell (entries_from words.now span.base) span.from span.limit }
    ensures { result ≡ greatest_after (entries_from words.now span.base) span.from span.limit }
{
    let mut end = span.from.min(span.limit);
    while end > 0 {
        let first = end.saturating_sub(64);
        let mask = mark_mask(&words[span.base + first as usize..span.base + end as usize]);
        if mask != 0 {
            return first + mask.ilog2();
        }
        end = first;
    }
    0
}

/// The pass, from the top index down to 1.
pub(crate) fn sweep_entries(words: &mut [u64], span: Span, committed: u32) -> Pass
    requires inside { span.base + span.limit ≤ length words.old }
    requires some { 1 ≤ span.limit }
    requires few { span.limit ≤ 65536 }
    requires within { committed ≤ span.limit }
    requires first { 1 ≤ committed }
    ensures words { IsPassAt words.old words.new span.base span.limit span.from committed 1 }
    ensures tally { IsTallyAt (entries_from words.old span.base) span.limit span.from committed 1 result }
{
    let mut tally = close_entries(words, span, committed);
    for index in (1..committed).rev() {
        let place = span.base + index as usize;
        let word = words[place];
        words[place] = word_after(&tally, word, span, index);
        tally = counted(&tally, word, span, index);
    }
    tally
}

/// The pass over the indexes that are not committed, which get no access.
fn close_entries(words: &mut [u64], span: Span, committed: u32) -> Pass
    requires inside { span.base + span.limit ≤ length words.old }
    requires few { span.limit ≤ 65536 }
    requires within { committed ≤ span.limit }
    requires first { 1 ≤ committed }
    ensures words { IsPassAt words.old words.new span.base span.limit span.from committed committed }
    ensures tally { IsTallyAt (entries_from words.old span.base) span.limit span.from committed committed result }
    ensures few { IsFew span.limit committed result }
{
    let mut tally = Pass {
        head: committed,
        len: 0,
        kept: 0,
        freed: 0,
        moved: 0,
    };
    for index in (committed..span.limit).rev() {
        let place = span.base + index as usize;
        let word = words[place];
        words[place] = NO_ACCESS;
        tally = closed(&tally, word, span, index);
    }
    tally
}

/// The word that comes to stand at a committed index, where the list begins with `tally.head` after it.
fn word_after(tally: &Pass, word: u64, span: Span, index: u32) -> u64
    ensures { result ≡ (if nat_lt index span.from && is_marked_word word then word - 2 ^ 62 else free_word tally.now.head) }
{
    if index < span.from && is_marked(word) {
        word - MARKING_BIT
    } else {
        FREE_BIT + u64::from(tally.head)
    }
}

/// One committed index more is counted.
fn counted(tally: &Pass, word: u64, span: Span, index: u32) -> Pass
    requires len { tally.now.len < 65536 }
    requires kept { tally.now.kept < 65536 }
    requires freed { tally.now.freed < 65536 }
    requires moved { tally.now.moved < 65536 }
    ensures { IsCountedIn tally.now result (nat_lt index span.from && is_marked_word word) (is_cell_word word) (nat_le span.from index && is_evacuation_word word) true index }
{
    let stays = stays(word, span, index);
    Pass {
        head: either(stays, tally.head, index),
        len: count_if(tally.len, !stays),
        kept: count_if(tally.kept, stays),
        freed: count_if(tally.freed, is_freed(word, stays)),
        moved: count_if(tally.moved, is_forwarding(word, span, index)),
    }
}

/// One index more that is not committed is counted.
fn closed(tally: &Pass, word: u64, span: Span, index: u32) -> Pass
    requires kept { tally.now.kept < 65536 }
    requires freed { tally.now.freed < 65536 }
    requires moved { tally.now.moved < 65536 }
    ensures { IsCountedIn tally.now result (nat_lt index span.from && is_marked_word word) (is_cell_word word) (nat_le span.from index && is_evacuation_word word) false index }
{
    let stays = stays(word, span, index);
    Pass {
        head: tally.head,
        len: tally.len,
        kept: count_if(tally.kept, stays),
        freed: count_if(tally.freed, is_freed(word, stays)),
        moved: count_if(tally.moved, is_forwarding(word, span, index)),
    }
}

fn stays(word: u64, span: Span, index: u32) -> bool
    ensures { result ≡ (nat_lt index span.from && is_marked_word word) }
{
    index < span.from && is_marked(word)
}

fn is_freed(word: u64, stays: bool) -> bool
    ensures { result ≡ (is_cell_word word && not stays) }
{
    is_cell(word) && !stays
}

fn is_forwarding(word: u64, span: Span, index: u32) -> bool
    ensures { result ≡ (nat_le span.from index && is_evacuation_word word) }
{
    index >= span.from && is_evacuation(word)
}

fn count_if(count: u32, test: bool) -> u32
    requires { count < 65536 }
    ensures { result ≡ count + one_if test }
{
    if test { count + 1 } else { count }
}

fn either(test: bool, one: u32, other: u32) -> u32
    ensures { result ≡ (if test then one else other) }
{
    if test { one } else { other }
}

/// What the sweep of a space tells.
#[derive(Drop)]
pub(crate) struct SpaceReport {
    pub pass: Pass,
    pub segs: u32,
}

/// The sweep of a space: its last pass, and its freelist word.
pub(crate) fn sweep_space(
    words: &mut [u64],
    span: Span,
    seg: u32,
    ext: u32,
    list: usize,
) -> SpaceReport
    requires inside { span.base + span.limit ≤ length words.old }
    requires size { span.limit ≡ seg * ext }
    requires seg { 1 ≤ seg }
    requires ext { 1 ≤ ext }
    requires few { span.limit ≤ 65536 }
    requires list { list < span.base }
    requires null { slice_index words.old span.base ≡ 0 }
    requires marks { MarksTell (entries_from words.old span.base) span.from span.limit }
    ensures { IsSpaceSwept words.old words.new span.base span.limit span.from seg list result.segs result.pass }
{
    let segs = 1 + greatest(words, span) / seg;
    let pass = sweep_entries(words, span, segs * seg);
    words[list] = freelist_word(&pass);
    SpaceReport { pass, segs }
}

/// The word of the freelist after a pass.
fn freelist_word(pass: &Pass) -> u64
    ensures { result ≡ freelist_word pass.now.head pass.now.len }
{
    u64::from(pass.head) + (u64::from(pass.len) << 32)
}
