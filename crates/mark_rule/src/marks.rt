// Steps of marking: the mark of an entry, shading, and the scan of an object.
ghost use Rattle.std.specs.Prelude.{◌≡◌, ◌↔◌, ◌+◌, ◌*◌, ◌^◌, ◌<◌, ℕ};
ghost use Rattle.plain_table.specs.Index.{index_of};
ghost use Rattle.plain_table.specs.Places.{space_of};
ghost use Rattle.plain_table.specs.Table.{limit_in};
ghost use Rattle.entry_base.specs.declared.view.Fact.TheVariants as fact;
ghost use Rattle.entry_base.specs.declared.view.View.{View as Known};
ghost use Rattle.entry_base.specs.Lists.{Has};
ghost use Rattle.entry_base.specs.Openings.{sizes_in};
ghost use Rattle.entry_base.specs.Passed.{IsPassed, field_of};
ghost use Rattle.entry_base.specs.Sessions.{view, IsOf};
ghost use Rattle.mark_rule.specs.Marking.{MarkExchanged, IsSeen, Shaded, Scanned};

use entry_base::{Learning, Learns, Session, Shared};
use plain_table::Space;
use std::marker::Brand;

/// The bit of a mark in an entry word, and the bits of a header.
const MARK: u64 = 1 << 62;

const SHADED: u64 = 1;

const SCANNED: u64 = 2;

fn mark_step_as<N: Learning>(
    shared: &Shared,
    s: &mut Session,
    space: Space,
    object: u32,
    f: u32,
    word: u32,
    entry: u64,
) -> u64
    requires caller { IsOf shared.now s.old }
    requires spaced { space_of (field_of object f) ≡ space }
    requires inside { index_of word < limit_in (sizes_in (view s.old).opening) space }
    requires touched { Has (view s.old).facts (fact.Touched (field_of object f) word) }
    requires loaded { Has (view s.old).facts (fact.Entry space (index_of word) entry) }
    requires unmarked { entry < 2 ^ 62 }
    requires picked { (found : ℕ) (v w : Known) → N.learns found v w ↔ MarkExchanged v space (index_of word) entry found w }
    ensures caller { IsOf shared.now s.new }
    ensures learned { MarkExchanged (view s.old) space (index_of word) entry result (view s.new) }
{
    shared.table.shared.compare_exchange::<Learns<N>>(
        &mut s.seat,
        shared.entry_place(space, word >> 16),
        entry,
        entry + MARK,
    )
}

/// Marks the entry that a word names which stood in a field: exchanges the unmarked word that was loaded for the marked one, or finds
/// the entry marked.
pub fn mark_step(
    shared: &Shared,
    s: &mut Session,
    space: Space,
    object: u32,
    f: u32,
    word: u32,
    entry: u64,
) -> u64
    requires caller { IsOf shared.now s.old }
    requires spaced { space_of (field_of object f) ≡ space }
    requires inside { index_of word < limit_in (sizes_in (view s.old).opening) space }
    requires touched { Has (view s.old).facts (fact.Touched (field_of object f) word) }
    requires loaded { Has (view s.old).facts (fact.Entry space (index_of word) entry) }
    requires unmarked { entry < 2 ^ 62 }
    ensures caller { IsOf shared.now s.new }
    ensures learned { MarkExchanged (view s.old) space (index_of word) entry result (view s.new) }
{
    mark_step_as::<Brand>(shared, s, space, object, f, word, entry)
}

fn shade_seen_as<N: Learning>(shared: &Shared, s: &mut Session, object: u32) -> u64
    requires caller { IsOf shared.now s.old }
    requires seen { IsSeen (view s.old) object }
    requires picked { (found : ℕ) (v w : Known) → N.learns found v w ↔ Shaded v object found w }
    ensures caller { IsOf shared.now s.new }
    ensures learned { Shaded (view s.old) object result (view s.new) }
{
    shared
        .table
        .shared
        .fetch_or::<Learns<N>>(&mut s.seat, 32 + 8 * object as usize, SHADED)
}

/// Shades an object that the caller saw in a cycle: that a variable of its own holds, or that it knows as old or born in the cycle,
/// as one that a reference showed. The answer is its header as it was: where it was even, the object comes into the hands. This is
/// no event.
pub fn shade_seen(shared: &Shared, s: &mut Session, object: u32) -> u64
    requires caller { IsOf shared.now s.old }
    requires seen { IsSeen (view s.old) object }
    ensures caller { IsOf shared.now s.new }
    ensures learned { Shaded (view s.old) object result (view s.new) }
{
    shade_seen_as::<Brand>(shared, s, object)
}

fn scan_step_as<N: Learning>(shared: &Shared, s: &mut Session, object: u32) -> u64
    requires caller { IsOf shared.now s.old }
    requires passed { IsPassed (view s.old) object }
    requires picked { (found : ℕ) (v w : Known) → N.learns found v w ↔ Scanned v object w }
    ensures caller { IsOf shared.now s.new }
    ensures learned { Scanned (view s.old) object (view s.new) }
{
    shared
        .table
        .shared
        .fetch_or::<Learns<N>>(&mut s.seat, 32 + 8 * object as usize, SCANNED)
}

/// Scans an object of the hands, all of whose fields and references were passed (`IsPassed` of `specs/Passed.antt` of `entry_base`).
/// It leaves the hands.
pub fn scan_step(shared: &Shared, s: &mut Session, object: u32)
    requires caller { IsOf shared.now s.old }
    requires passed { IsPassed (view s.old) object }
    ensures caller { IsOf shared.now s.new }
    ensures learned { Scanned (view s.old) object (view s.new) }
{
    scan_step_as::<Brand>(shared, s, object);
}
