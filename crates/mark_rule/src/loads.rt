// A marker's loads: of fields, references and entries.
ghost use Rattle.std.specs.Prelude.{◌≡◌, ◌↔◌, ◌+◌, ◌*◌, ◌<◌, ℕ};
ghost use Rattle.plain_table.specs.Index.{index_of};
ghost use Rattle.plain_table.specs.Places.{space_of};
ghost use Rattle.plain_table.specs.Table.{limit_in};
ghost use Rattle.entry_base.specs.declared.view.Fact.TheVariants as fact;
ghost use Rattle.entry_base.specs.declared.view.View.{View as Known};
ghost use Rattle.entry_base.specs.Lists.{Has};
ghost use Rattle.entry_base.specs.Openings.{sizes_in};
ghost use Rattle.entry_base.specs.Passed.{field_of};
ghost use Rattle.entry_base.specs.Sessions.{view, IsOf};
ghost use Rattle.mark_rule.specs.Marking.{InHands, WordLoaded, ReferenceLoaded, MayRead, EntryLoaded, MarkLoaded};

use entry_base::{Learning, Learns, Session, Shared};
use plain_table::Space;
use std::marker::Brand;

fn load_word_as<N: Learning>(shared: &Shared, s: &mut Session, object: u32, f: u32) -> u64
    requires caller { IsOf shared.now s.old }
    requires hands { InHands (view s.old) object }
    requires few { f < 3 }
    requires picked { (found : ℕ) (v w : Known) → N.learns found v w ↔ WordLoaded v (limit_in (sizes_in v.opening) (space_of (field_of object f))) (field_of object f) found w }
    ensures caller { IsOf shared.now s.new }
    ensures learned { WordLoaded (view s.old) (limit_in (sizes_in (view s.old).opening) (space_of (field_of object f))) (field_of object f) result (view s.new) }
{
    shared
        .table
        .shared
        .load::<Learns<N>>(&mut s.seat, 37 + 8 * object as usize + f as usize)
}

/// Loads the word of a field of an object of the hands: 0 and 1 are its external fields, 2 its trusted one. This is no event.
pub fn load_word(shared: &Shared, s: &mut Session, object: u32, f: u32) -> u64
    requires caller { IsOf shared.now s.old }
    requires hands { InHands (view s.old) object }
    requires few { f < 3 }
    ensures caller { IsOf shared.now s.new }
    ensures learned { WordLoaded (view s.old) (limit_in (sizes_in (view s.old).opening) (space_of (field_of object f))) (field_of object f) result (view s.new) }
{
    load_word_as::<Brand>(shared, s, object, f)
}

fn load_reference_as<N: Learning>(shared: &Shared, s: &mut Session, object: u32, k: u32) -> u64
    requires caller { IsOf shared.now s.old }
    requires hands { InHands (view s.old) object }
    requires few { k < 4 }
    requires picked { (found : ℕ) (v w : Known) → N.learns found v w ↔ ReferenceLoaded v object k found w }
    ensures caller { IsOf shared.now s.new }
    ensures learned { ReferenceLoaded (view s.old) object k result (view s.new) }
{
    shared
        .table
        .shared
        .load::<Learns<N>>(&mut s.seat, 33 + 8 * object as usize + k as usize)
}

/// Loads reference `k` of an object of the hands: 0 where it holds nothing, and else the number of the object plus 1. This is no
/// event.
pub fn load_reference(shared: &Shared, s: &mut Session, object: u32, k: u32) -> u64
    requires caller { IsOf shared.now s.old }
    requires hands { InHands (view s.old) object }
    requires few { k < 4 }
    ensures caller { IsOf shared.now s.new }
    ensures learned { ReferenceLoaded (view s.old) object k result (view s.new) }
{
    load_reference_as::<Brand>(shared, s, object, k)
}

fn load_entry_as<N: Learning>(
    shared: &Shared,
    s: &mut Session,
    space: Space,
    object: u32,
    f: u32,
    word: u32,
) -> u64
    requires caller { IsOf shared.now s.old }
    requires spaced { space_of (field_of object f) ≡ space }
    requires inside { index_of word < limit_in (sizes_in (view s.old).opening) space }
    requires touched { Has (view s.old).facts (fact.Touched (field_of object f) word) }
    requires may { MayRead (view s.old) (field_of object f) }
    requires picked { (found : ℕ) (v w : Known) → N.learns found v w ↔ EntryLoaded v (field_of object f) word found w }
    ensures caller { IsOf shared.now s.new }
    ensures learned { EntryLoaded (view s.old) (field_of object f) word result (view s.new) }
{
    shared
        .table
        .shared
        .load::<Learns<N>>(&mut s.seat, shared.entry_place(space, word >> 16))
}

/// Loads the entry that a word names which stood in a field, before a mark or an evacuation. This is no event.
pub fn load_entry(
    shared: &Shared,
    s: &mut Session,
    space: Space,
    object: u32,
    f: u32,
    word: u32,
) -> u64
    requires caller { IsOf shared.now s.old }
    requires spaced { space_of (field_of object f) ≡ space }
    requires inside { index_of word < limit_in (sizes_in (view s.old).opening) space }
    requires touched { Has (view s.old).facts (fact.Touched (field_of object f) word) }
    requires may { MayRead (view s.old) (field_of object f) }
    ensures caller { IsOf shared.now s.new }
    ensures learned { EntryLoaded (view s.old) (field_of object f) word result (view s.new) }
{
    load_entry_as::<Brand>(shared, s, space, object, f, word)
}

fn load_mark_as<N: Learning>(
    shared: &Shared,
    s: &mut Session,
    space: Space,
    object: u32,
    f: u32,
    word: u32,
) -> u64
    requires caller { IsOf shared.now s.old }
    requires spaced { space_of (field_of object f) ≡ space }
    requires inside { index_of word < limit_in (sizes_in (view s.old).opening) space }
    requires touched { Has (view s.old).facts (fact.Touched (field_of object f) word) }
    requires may { MayRead (view s.old) (field_of object f) }
    requires picked { (found : ℕ) (v w : Known) → N.learns found v w ↔ MarkLoaded v (field_of object f) word found w }
    ensures caller { IsOf shared.now s.new }
    ensures learned { MarkLoaded (view s.old) (field_of object f) word result (view s.new) }
{
    shared
        .table
        .shared
        .load::<Learns<N>>(&mut s.seat, shared.entry_place(space, word >> 16))
}

/// Loads the entry that a word names which stood in a field, for a mark: where a marked cell stands there, this is the event of the
/// mark.
pub fn load_mark(
    shared: &Shared,
    s: &mut Session,
    space: Space,
    object: u32,
    f: u32,
    word: u32,
) -> u64
    requires caller { IsOf shared.now s.old }
    requires spaced { space_of (field_of object f) ≡ space }
    requires inside { index_of word < limit_in (sizes_in (view s.old).opening) space }
    requires touched { Has (view s.old).facts (fact.Touched (field_of object f) word) }
    requires may { MayRead (view s.old) (field_of object f) }
    ensures caller { IsOf shared.now s.new }
    ensures learned { MarkLoaded (view s.old) (field_of object f) word result (view s.new) }
{
    load_mark_as::<Brand>(shared, s, space, object, f, word)
}
