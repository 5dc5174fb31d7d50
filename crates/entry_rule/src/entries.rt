// Steps that fill an entry, the abort of a compaction, and the load of the area word.
ghost use Rattle.std.specs.Prelude.{◌≡◌, ◌↔◌, ◌+◌, ◌*◌, ◌^◌, ◌<◌, ◌≤◌, ℕ, Some};
ghost use Rattle.plain_table.specs.declared.events.Field.TheVariants as field;
ghost use Rattle.plain_table.specs.declared.events.Space.TheVariants.{External, Trusted};
ghost use Rattle.plain_table.specs.Places.{object_of};
ghost use Rattle.plain_table.specs.Rows.{IsTag};
ghost use Rattle.plain_table.specs.Table.{limit_in};
ghost use Rattle.entry_base.specs.declared.view.Fact.TheVariants as fact;
ghost use Rattle.entry_base.specs.declared.view.View.{View as Known};
ghost use Rattle.entry_base.specs.Lists.{Has, count_in};
ghost use Rattle.entry_base.specs.Openings.{sizes_in, start_of};
ghost use Rattle.entry_base.specs.Owns.{claim_of};
ghost use Rattle.entry_base.specs.Sessions.{view, IsOf};
ghost use Rattle.entry_rule.specs.Entries.{MayPut, Put, PutTrusted, Evacuated, Aborts, AreaLoaded};

use entry_base::{Learning, Learns, Session, Shared};
use plain_table::Space;
use std::marker::Brand;

/// The place of the area word, and its bit that says that the compaction is aborted.
const AREA: usize = 1;

const ABORTED: u64 = 1 << 32;
/// The first bit of a tag, and the bits of an evacuation entry, a hidden cell and a mark.
const TAG: u64 = 1 << 48;

const EVACUATION: u64 = 1 << 58;

const HIDDEN: u64 = 1 << 59;

const MARK: u64 = 1 << 62;

fn put_external_as<N: Learning>(
    shared: &Shared,
    s: &mut Session,
    index: u32,
    tag: u8,
    value: u64,
) -> u64
    requires caller { IsOf shared.now s.old }
    requires owed { Has (view s.old).owed (claim_of (view s.old) External index) }
    requires tagged { IsTag tag × (value < 2 ^ 48) }
    requires inside { index < limit_in (sizes_in (view s.old).opening) External }
    requires may { MayPut (view s.old) External index }
    requires picked { (found : ℕ) (v w : Known) → N.learns found v w ↔ Put v External index tag value w }
    ensures caller { IsOf shared.now s.new }
    ensures learned { Put (view s.old) External index tag value (view s.new) }
{
    shared.table.shared.swap::<Learns<N>>(
        &mut s.seat,
        shared.entry_place(Space::External, index),
        MARK + (tag as u64) * TAG + value,
    )
}

/// Fills an external index that the caller took with a marked cell, which may be bound to a field: tag from 1 on, value below
/// 2^48. In a cycle with an area the index is below it, or the compaction is aborted.
pub fn put_external(shared: &Shared, s: &mut Session, index: u32, tag: u8, value: u64)
    requires caller { IsOf shared.now s.old }
    requires owed { Has (view s.old).owed (claim_of (view s.old) External index) }
    requires tagged { IsTag tag × (value < 2 ^ 48) }
    requires inside { index < limit_in (sizes_in (view s.old).opening) External }
    requires may { MayPut (view s.old) External index }
    ensures caller { IsOf shared.now s.new }
    ensures learned { Put (view s.old) External index tag value (view s.new) }
{
    put_external_as::<Brand>(shared, s, index, tag, value);
}

fn put_trusted_as<N: Learning>(
    shared: &Shared,
    s: &mut Session,
    index: u32,
    tag: u8,
    value: u64,
) -> u64
    requires caller { IsOf shared.now s.old }
    requires owed { Has (view s.old).owed (claim_of (view s.old) Trusted index) }
    requires tagged { IsTag tag × (value < 2 ^ 48) }
    requires inside { index < limit_in (sizes_in (view s.old).opening) Trusted }
    requires picked { (found : ℕ) (v w : Known) → N.learns found v w ↔ PutTrusted v index tag value w }
    ensures caller { IsOf shared.now s.new }
    ensures learned { PutTrusted (view s.old) index tag value (view s.new) }
{
    shared.table.shared.swap::<Learns<N>>(
        &mut s.seat,
        shared.entry_place(Space::Trusted, index),
        HIDDEN + MARK + (tag as u64) * TAG + value,
    )
}

/// Fills a trusted index that the caller took with a marked cell that no look can see: tag from 1 on, value below 2^48.
pub fn put_trusted(shared: &Shared, s: &mut Session, index: u32, tag: u8, value: u64)
    requires caller { IsOf shared.now s.old }
    requires owed { Has (view s.old).owed (claim_of (view s.old) Trusted index) }
    requires tagged { IsTag tag × (value < 2 ^ 48) }
    requires inside { index < limit_in (sizes_in (view s.old).opening) Trusted }
    ensures caller { IsOf shared.now s.new }
    ensures learned { PutTrusted (view s.old) index tag value (view s.new) }
{
    put_trusted_as::<Brand>(shared, s, index, tag, value);
}

fn evacuate_step_as<N: Learning>(
    shared: &Shared,
    s: &mut Session,
    index: u32,
    number: u32,
    word: u32,
) -> u64
    requires caller { IsOf shared.now s.old }
    requires owed { Has (view s.old).owed (claim_of (view s.old) External index) }
    requires area { (start : ℕ) × (start_of (view s.old).opening ≡ Some start) × (index < start) }
    requires hands { 1 ≤ count_in (object_of (field.External number)) (view s.old).hands }
    requires inside { index < limit_in (sizes_in (view s.old).opening) External }
    requires picked { (found : ℕ) (v w : Known) → N.learns found v w ↔ Evacuated v index number word w }
    ensures caller { IsOf shared.now s.new }
    ensures learned { Evacuated (view s.old) index number word (view s.new) }
{
    shared.table.shared.swap::<Learns<N>>(
        &mut s.seat,
        shared.entry_place(Space::External, index),
        EVACUATION + number as u64,
    )
}

/// Fills an external index below the area, which the caller took, with the evacuation entry of a field (by its number) of an object
/// of its hands. The field then counts as placed with any word.
pub fn evacuate_step(shared: &Shared, s: &mut Session, index: u32, number: u32, word: u32)
    requires caller { IsOf shared.now s.old }
    requires owed { Has (view s.old).owed (claim_of (view s.old) External index) }
    requires area { (start : ℕ) × (start_of (view s.old).opening ≡ Some start) × (index < start) }
    requires hands { 1 ≤ count_in (object_of (field.External number)) (view s.old).hands }
    requires inside { index < limit_in (sizes_in (view s.old).opening) External }
    ensures caller { IsOf shared.now s.new }
    ensures learned { Evacuated (view s.old) index number word (view s.new) }
{
    evacuate_step_as::<Brand>(shared, s, index, number, word);
}

fn abort_step_as<N: Learning>(shared: &Shared, s: &mut Session, start: u32) -> u64
    requires caller { IsOf shared.now s.old }
    requires area { start_of (view s.old).opening ≡ Some start }
    requires full { (n : ℕ) × Has (view s.old).facts (fact.Used External n) × (start ≤ n) }
    requires picked { (found : ℕ) (v w : Known) → N.learns found v w ↔ Aborts v w }
    ensures caller { IsOf shared.now s.new }
    ensures learned { Aborts (view s.old) (view s.new) }
{
    shared
        .table
        .shared
        .fetch_or::<Learns<N>>(&mut s.seat, AREA, ABORTED)
}

/// Aborts the compaction of the cycle, whose area begins at `start`, where no index below the start is free.
pub fn abort_step(shared: &Shared, s: &mut Session, start: u32)
    requires caller { IsOf shared.now s.old }
    requires area { start_of (view s.old).opening ≡ Some start }
    requires full { (n : ℕ) × Has (view s.old).facts (fact.Used External n) × (start ≤ n) }
    ensures caller { IsOf shared.now s.new }
    ensures learned { Aborts (view s.old) (view s.new) }
{
    abort_step_as::<Brand>(shared, s, start);
}

fn load_area_as<N: Learning>(shared: &Shared, s: &mut Session) -> u64
    requires caller { IsOf shared.now s.old }
    requires picked { (found : ℕ) (v w : Known) → N.learns found v w ↔ AreaLoaded v found w }
    ensures caller { IsOf shared.now s.new }
    ensures learned { AreaLoaded (view s.old) result (view s.new) }
{
    shared.table.shared.load::<Learns<N>>(&mut s.seat, AREA)
}

/// Loads the area word, which says in bit 32 that the compaction is aborted. This is no event.
pub fn load_area(shared: &Shared, s: &mut Session) -> u64
    requires caller { IsOf shared.now s.old }
    ensures caller { IsOf shared.now s.new }
    ensures learned { AreaLoaded (view s.old) result (view s.new) }
{
    load_area_as::<Brand>(shared, s)
}
