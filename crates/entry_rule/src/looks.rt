// Steps that look at a cell, store into it, exchange its value, or publish it.
ghost use Rattle.std.specs.Prelude.{◌↔◌, ◌+◌, ◌*◌, ◌^◌, ◌<◌, ◌≤◌, ℕ, None, IsTrue};
ghost use Rattle.plain_table.specs.declared.events.Space.TheVariants.{External, Trusted};
ghost use Rattle.plain_table.specs.Index.{index_of};
ghost use Rattle.plain_table.specs.Rows.{IsTag, is_asked};
ghost use Rattle.plain_table.specs.Table.{limit_in};
ghost use Rattle.entry_base.specs.declared.view.Fact.TheVariants as fact;
ghost use Rattle.entry_base.specs.declared.view.View.{View as Known};
ghost use Rattle.entry_base.specs.Lists.{Has};
ghost use Rattle.entry_base.specs.Openings.{sizes_in};
ghost use Rattle.entry_base.specs.Sessions.{view, IsOf};
ghost use Rattle.entry_rule.specs.Looks.{LookedAt, LookedBeyond, look_reply, Stored, Exchanged, HasTicket, Published};

use entry_base::{Learning, Learns, Session, Shared};
use plain_table::Space;
use std::marker::Brand;

/// The place of the word that says whether a cycle is under way.
const PHASE: usize = 4;
/// The first bit of a tag, and the bit of a mark.
const TAG: u64 = 1 << 48;

const MARK: u64 = 1 << 62;

fn look_step_as<N: Learning>(
    shared: &Shared,
    s: &mut Session,
    space: Space,
    word: u32,
    first: u8,
    last: u8,
) -> u64
    requires caller { IsOf shared.now s.old }
    requires range { 1 ≤ first }
    requires inside { index_of word < limit_in (sizes_in (view s.old).opening) space }
    requires picked { (found : ℕ) (v w : Known) → N.learns found v w ↔ LookedAt v space word first last found w }
    ensures caller { IsOf shared.now s.new }
    ensures learned { LookedAt (view s.old) space word first last result (view s.new) }
{
    shared
        .table
        .shared
        .load::<Learns<N>>(&mut s.seat, shared.entry_place(space, word >> 16))
}

/// Looks at the entry that a word names, below the limit, for a cell whose tag is from `first` to `last`. The answer is the word of
/// the entry; what the look answers is `look_reply` of `specs/Looks.antt`.
pub fn look_step(
    shared: &Shared,
    s: &mut Session,
    space: Space,
    word: u32,
    first: u8,
    last: u8,
) -> u64
    requires caller { IsOf shared.now s.old }
    requires range { 1 ≤ first }
    requires inside { index_of word < limit_in (sizes_in (view s.old).opening) space }
    ensures caller { IsOf shared.now s.new }
    ensures learned { LookedAt (view s.old) space word first last result (view s.new) }
{
    look_step_as::<Brand>(shared, s, space, word, first, last)
}

fn look_beyond_as<N: Learning>(
    shared: &Shared,
    s: &mut Session,
    space: Space,
    word: u32,
    first: u8,
    last: u8,
) -> u64
    requires caller { IsOf shared.now s.old }
    requires beyond { limit_in (sizes_in (view s.old).opening) space ≤ index_of word }
    requires picked { (found : ℕ) (v w : Known) → N.learns found v w ↔ LookedBeyond v space word first last w }
    ensures caller { IsOf shared.now s.new }
    ensures learned { LookedBeyond (view s.old) space word first last (view s.new) }
{
    shared.table.shared.load::<Learns<N>>(&mut s.seat, PHASE)
}

/// Looks at a word whose index is not below the limit: a fault.
pub fn look_beyond(shared: &Shared, s: &mut Session, space: Space, word: u32, first: u8, last: u8)
    requires caller { IsOf shared.now s.old }
    requires beyond { limit_in (sizes_in (view s.old).opening) space ≤ index_of word }
    ensures caller { IsOf shared.now s.new }
    ensures learned { LookedBeyond (view s.old) space word first last (view s.new) }
{
    look_beyond_as::<Brand>(shared, s, space, word, first, last);
}

fn store_step_as<N: Learning>(
    shared: &Shared,
    s: &mut Session,
    word: u32,
    first: u8,
    last: u8,
    tag: u8,
    value: u64,
) -> u64
    requires caller { IsOf shared.now s.old }
    requires cell { Has (view s.old).facts (fact.Cell External (index_of word) tag) }
    requires asked { IsTrue (is_asked first last tag) }
    requires tagged { IsTag tag × (value < 2 ^ 48) }
    requires inside { index_of word < limit_in (sizes_in (view s.old).opening) External }
    requires picked { (found : ℕ) (v w : Known) → N.learns found v w ↔ Stored v word first last value w }
    ensures caller { IsOf shared.now s.new }
    ensures learned { Stored (view s.old) word first last value (view s.new) }
{
    shared.table.shared.swap::<Learns<N>>(
        &mut s.seat,
        shared.entry_place(Space::External, word >> 16),
        MARK + (tag as u64) * TAG + value,
    )
}

/// Stores a value below 2^48 in the cell that an external word names. The caller knows that its tag, which is asked, is `tag`.
pub fn store_step(
    shared: &Shared,
    s: &mut Session,
    word: u32,
    first: u8,
    last: u8,
    tag: u8,
    value: u64,
)
    requires caller { IsOf shared.now s.old }
    requires cell { Has (view s.old).facts (fact.Cell External (index_of word) tag) }
    requires asked { IsTrue (is_asked first last tag) }
    requires tagged { IsTag tag × (value < 2 ^ 48) }
    requires inside { index_of word < limit_in (sizes_in (view s.old).opening) External }
    ensures caller { IsOf shared.now s.new }
    ensures learned { Stored (view s.old) word first last value (view s.new) }
{
    store_step_as::<Brand>(shared, s, word, first, last, tag, value);
}

fn exchange_step_as<N: Learning>(
    shared: &Shared,
    s: &mut Session,
    word: u32,
    first: u8,
    last: u8,
    tag: u8,
    value: u64,
) -> u64
    requires caller { IsOf shared.now s.old }
    requires cell { Has (view s.old).facts (fact.Cell External (index_of word) tag) }
    requires asked { IsTrue (is_asked first last tag) }
    requires tagged { IsTag tag × (value < 2 ^ 48) }
    requires inside { index_of word < limit_in (sizes_in (view s.old).opening) External }
    requires picked { (found : ℕ) (v w : Known) → N.learns found v w ↔ Exchanged v word first last value found w }
    ensures caller { IsOf shared.now s.new }
    ensures learned { Exchanged (view s.old) word first last value result (view s.new) }
{
    shared.table.shared.swap::<Learns<N>>(
        &mut s.seat,
        shared.entry_place(Space::External, word >> 16),
        MARK + (tag as u64) * TAG + value,
    )
}

/// Exchanges the value of the cell that an external word names for another one below 2^48. The caller knows that its tag, which is
/// asked, is `tag`. The answer is the word of the entry as it was.
pub fn exchange_step(
    shared: &Shared,
    s: &mut Session,
    word: u32,
    first: u8,
    last: u8,
    tag: u8,
    value: u64,
) -> u64
    requires caller { IsOf shared.now s.old }
    requires cell { Has (view s.old).facts (fact.Cell External (index_of word) tag) }
    requires asked { IsTrue (is_asked first last tag) }
    requires tagged { IsTag tag × (value < 2 ^ 48) }
    requires inside { index_of word < limit_in (sizes_in (view s.old).opening) External }
    ensures caller { IsOf shared.now s.new }
    ensures learned { Exchanged (view s.old) word first last value result (view s.new) }
{
    exchange_step_as::<Brand>(shared, s, word, first, last, tag, value)
}

fn publish_step_as<N: Learning>(
    shared: &Shared,
    s: &mut Session,
    index: u32,
    tag: u8,
    value: u64,
) -> u64
    requires caller { IsOf shared.now s.old }
    requires mutator { (view s.old).number < 8 }
    requires ticket { HasTicket (view s.old) index tag value }
    requires inside { index < limit_in (sizes_in (view s.old).opening) Trusted }
    requires tagged { IsTag tag × (value < 2 ^ 48) }
    requires picked { (found : ℕ) (v w : Known) → N.learns found v w ↔ Published v index w }
    ensures caller { IsOf shared.now s.new }
    ensures learned { Published (view s.old) index (view s.new) }
{
    let found = shared.table.shared.swap::<Learns<N>>(
        &mut s.seat,
        shared.entry_place(Space::Trusted, index),
        MARK + (tag as u64) * TAG + value,
    );
    s.pending[s.number as usize] = None;
    found
}

/// Publishes the trusted cell of the caller's ticket, with its tag and value, and gives the ticket up.
pub fn publish_step(shared: &Shared, s: &mut Session, index: u32, tag: u8, value: u64)
    requires caller { IsOf shared.now s.old }
    requires mutator { (view s.old).number < 8 }
    requires ticket { HasTicket (view s.old) index tag value }
    requires inside { index < limit_in (sizes_in (view s.old).opening) Trusted }
    requires tagged { IsTag tag × (value < 2 ^ 48) }
    ensures caller { IsOf shared.now s.new }
    ensures learned { Published (view s.old) index (view s.new) }
{
    publish_step_as::<Brand>(shared, s, index, tag, value);
}
