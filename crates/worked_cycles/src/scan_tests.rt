// Scans in a cycle: a marker marks the cells of an object of its hands, shades what it refers to, and scans it; the phase ends with
// another object in hands, which the next phase of the cycle scans.
ghost use Rattle.std.specs.Prelude.{◌≡◌, ◌<◌, None, [], ◌∷◌};
ghost use Rattle.plain_table.specs.declared.events.Field.TheVariants as field;
ghost use Rattle.entry_base.specs.Callers.{SameCaller};
ghost use Rattle.entry_base.specs.Openings.{start_of};
ghost use Rattle.entry_base.specs.Passed.{field_of, IsPassed, PassedField, PassedReference};
ghost use Rattle.entry_base.specs.Sessions.{view, IsOf};
ghost use Rattle.mark_rule.specs.Marking.{InHands};

use crate::asserts::{assert_is, assert_words};
use crate::cycles::{image_in_a_cycle, image_to_mark, open_with_roots};
use entry_base::{Session, Shared};
use entry_word::Image;
use mark_rule::{load_entry, load_reference, load_word, mark_step, scan_step, shade_seen};
use object_rule::forge_step;
use plain_table::{OutOfMemory, Space};
use std::alloc::Global;
use std::marker::Brand;
use std::process::Abort;
use std::sync::ledger::{Blank, Ledger};
use worked_tables::{SHAPE, close_both, close_three, word_at};

/// The words of the cells at index 1 of both spaces, unmarked.
const EXTERNAL: u64 = 0x000f_0000_0000_00c0;

const TRUSTED: u64 = 0x000f_0000_0000_00d0;

/// Passes external field 0 of object 0, whose cell at index 1 it marks.
fn pass_external(rt: &impl Abort, shared: &Shared, s: &mut Session)
    requires caller { IsOf shared.now s.old }
    requires hands { InHands (view s.old) 0 }
    requires shape { (view s.old).opening.shape ≡ SHAPE }
    requires no_area { start_of (view s.old).opening ≡ None }
    ensures caller { IsOf shared.now s.new }
    ensures same { SameCaller (view s.old) (view s.new) }
    ensures hands { (view s.new).hands ≡ (view s.old).hands }
    ensures passed { PassedField (view s.new) (field.External 0) }
{
    let word = load_word(shared, s, 0, 0);
    assert_is(rt, word, 0x1_0000);
    let entry = load_entry(shared, s, Space::External, 0, 0, 0x1_0000);
    assert_is(rt, entry, EXTERNAL);
    let found = mark_step(shared, s, Space::External, 0, 0, 0x1_0000, EXTERNAL);
    assert_is(rt, found, EXTERNAL);
}

/// Passes the trusted field of object 0, whose cell at index 1 it marks.
fn pass_trusted(rt: &impl Abort, shared: &Shared, s: &mut Session)
    requires caller { IsOf shared.now s.old }
    requires hands { InHands (view s.old) 0 }
    requires shape { (view s.old).opening.shape ≡ SHAPE }
    ensures caller { IsOf shared.now s.new }
    ensures same { SameCaller (view s.old) (view s.new) }
    ensures hands { (view s.new).hands ≡ (view s.old).hands }
    ensures passed { PassedField (view s.new) (field.Trusted 0) }
{
    let word = load_word(shared, s, 0, 2);
    assert_is(rt, word, 0x1_0000);
    let entry = load_entry(shared, s, Space::Trusted, 0, 2, 0x1_0000);
    assert_is(rt, entry, TRUSTED);
    let found = mark_step(shared, s, Space::Trusted, 0, 2, 0x1_0000, TRUSTED);
    assert_is(rt, found, TRUSTED);
}

/// Passes a field of an object, which is empty.
pub(crate) fn pass_field(rt: &impl Abort, shared: &Shared, s: &mut Session, object: u32, f: u32)
    requires caller { IsOf shared.now s.old }
    requires hands { InHands (view s.old) object }
    requires few { f < 3 }
    ensures caller { IsOf shared.now s.new }
    ensures same { SameCaller (view s.old) (view s.new) }
    ensures hands { (view s.new).hands ≡ (view s.old).hands }
    ensures passed { PassedField (view s.new) (field_of object f) }
{
    let word = load_word(shared, s, object, f);
    assert!(rt; word == 0);
}

/// Passes a reference of an object, which holds nothing.
pub(crate) fn pass_reference(rt: &impl Abort, shared: &Shared, s: &mut Session, object: u32, k: u32)
    requires caller { IsOf shared.now s.old }
    requires hands { InHands (view s.old) object }
    requires few { k < 4 }
    ensures caller { IsOf shared.now s.new }
    ensures same { SameCaller (view s.old) (view s.new) }
    ensures hands { (view s.new).hands ≡ (view s.old).hands }
    ensures passed { PassedReference (view s.new) object k }
{
    let word = load_reference(shared, s, object, k);
    assert!(rt; word == 0);
}

/// Passes references 1 to 3 of an object, which hold nothing.
pub(crate) fn pass_three(rt: &impl Abort, shared: &Shared, s: &mut Session, object: u32)
    requires caller { IsOf shared.now s.old }
    requires hands { InHands (view s.old) object }
    ensures caller { IsOf shared.now s.new }
    ensures same { SameCaller (view s.old) (view s.new) }
    ensures hands { (view s.new).hands ≡ (view s.old).hands }
    ensures second { PassedReference (view s.new) object 1 }
    ensures third { PassedReference (view s.new) object 2 }
    ensures fourth { PassedReference (view s.new) object 3 }
{
    pass_reference(rt, shared, s, object, 1);
    pass_reference(rt, shared, s, object, 2);
    pass_reference(rt, shared, s, object, 3);
}

/// Passes reference 0 of object 0, which has object 1: it was white, is shaded, and comes into the hands. A second try finds it
/// shaded.
fn pass_linked(rt: &impl Abort, shared: &Shared, s: &mut Session)
    requires caller { IsOf shared.now s.old }
    requires hands { InHands (view s.old) 0 }
    requires shape { (view s.old).opening.shape ≡ SHAPE }
    ensures caller { IsOf shared.now s.new }
    ensures same { SameCaller (view s.old) (view s.new) }
    ensures hands { (view s.new).hands ≡ 1 ∷ (view s.old).hands }
    ensures passed { PassedReference (view s.new) 0 0 }
{
    let word = load_reference(shared, s, 0, 0);
    assert_is(rt, word, 2);
    let white = shade_seen(shared, s, 1);
    assert_is(rt, white, 0);
    let shaded = shade_seen(shared, s, 1);
    assert_is(rt, shaded, 1);
}

/// Scans object 0 of the hands, and leaves object 1 in them.
fn scan_first(rt: &impl Abort, shared: &Shared, s: &mut Session)
    requires caller { IsOf shared.now s.old }
    requires hands { (view s.old).hands ≡ 0 ∷ [] }
    requires shape { (view s.old).opening.shape ≡ SHAPE }
    requires no_area { start_of (view s.old).opening ≡ None }
    ensures caller { IsOf shared.now s.new }
    ensures same { SameCaller (view s.old) (view s.new) }
    ensures hands { (view s.new).hands ≡ 1 ∷ [] }
{
    pass_external(rt, shared, s);
    pass_field(rt, shared, s, 0, 1);
    pass_trusted(rt, shared, s);
    pass_three(rt, shared, s, 0);
    pass_linked(rt, shared, s);
    scan_step(shared, s, 0);
}

/// Scans object 1 of the hands, which is empty.
fn scan_second(rt: &impl Abort, shared: &Shared, s: &mut Session)
    requires caller { IsOf shared.now s.old }
    requires hands { (view s.old).hands ≡ 1 ∷ [] }
    ensures caller { IsOf shared.now s.new }
    ensures same { SameCaller (view s.old) (view s.new) }
    ensures hands { (view s.new).hands ≡ [] }
{
    pass_field(rt, shared, s, 1, 0);
    pass_field(rt, shared, s, 1, 1);
    pass_field(rt, shared, s, 1, 2);
    pass_reference(rt, shared, s, 1, 0);
    pass_three(rt, shared, s, 1);
    scan_step(shared, s, 1);
}

/// The words of the image that a scan of both objects changes: their headers, and the entries at index 1.
fn words_scanned(image: &Image) -> [Option<u64>; 4] {
    [
        word_at(image, 32),
        word_at(image, 40),
        word_at(image, 65),
        word_at(image, 73),
    ]
}

fn scan_in_two_phases<L: Ledger>(
    rt: &impl Abort,
    alloc: Global,
    blank: Blank,
) -> Result<(), OutOfMemory>
    requires name { blank.name ≡ L.name }
    requires parts { blank.parts ≡ L.parts }
    requires one { blank.parts ≡ 1 }
{
    let image = image_to_mark::<L>(rt, alloc, blank)?;
    assert_is(
        rt,
        words_scanned(&image),
        [Some(1), Some(0), Some(EXTERNAL), Some(TRUSTED)],
    );
    let (shared, mut first, roots) = open_with_roots(alloc, image)?;
    assert!(rt; roots.as_slice() == [0].as_slice());
    assert_is(rt, first.area(), None);
    let mut marker = first.split(&shared, 8, roots.as_slice());
    scan_first(rt, &shared, &mut marker);
    let image = close_both(shared, first, marker);
    assert_is(
        rt,
        words_scanned(&image),
        [
            Some(3),
            Some(1),
            Some(EXTERNAL + MARK),
            Some(TRUSTED + MARK),
        ],
    );
    let (shared, mut first, roots) = open_with_roots(alloc, image)?;
    assert!(rt; roots.as_slice() == [1].as_slice());
    let mut marker = first.split(&shared, 8, roots.as_slice());
    scan_second(rt, &shared, &mut marker);
    let image = close_both(shared, first, marker);
    assert_is(
        rt,
        words_scanned(&image),
        [
            Some(3),
            Some(3),
            Some(EXTERNAL + MARK),
            Some(TRUSTED + MARK),
        ],
    );
    Ok(())
}

/// The bit of a mark.
const MARK: u64 = 1 << 62;

/// A mutator forges the word of index 2, which is free, into external field 1 of object 0, which variable 0 holds.
fn forge_free(rt: &impl Abort, shared: &Shared, s: &mut Session)
    requires caller { IsOf shared.now s.old }
    requires mutator { (view s.old).number < 8 }
    ensures caller { IsOf shared.now s.new }
    ensures same { SameCaller (view s.old) (view s.new) }
{
    assert_is(rt, s.held(0), Some(0));
    forge_step(shared, s, 1, 0x2_0000);
}

/// Passes that field: no cell stands at index 2, so there is none to mark.
fn pass_forged(rt: &impl Abort, shared: &Shared, s: &mut Session)
    requires caller { IsOf shared.now s.old }
    requires hands { InHands (view s.old) 0 }
    requires shape { (view s.old).opening.shape ≡ SHAPE }
    requires no_area { start_of (view s.old).opening ≡ None }
    ensures caller { IsOf shared.now s.new }
    ensures same { SameCaller (view s.old) (view s.new) }
    ensures passed { PassedField (view s.new) (field.External 1) }
{
    let word = load_word(shared, s, 0, 1);
    assert_is(rt, word, 0x2_0000);
    let entry = load_entry(shared, s, Space::External, 0, 1, 0x2_0000);
    assert_is(rt, entry, FREE);
}

/// The word of the entry at index 2, which is free and links index 3.
const FREE: u64 = (1 << 56) + 3;

#[test]
fn a_field_whose_word_names_no_cell_is_passed_without_a_mark(
    rt: HostRuntime,
) -> Result<(), OutOfMemory> {
    let image = image_in_a_cycle(&rt, rt.alloc())?;
    let (shared, mut first, roots) = open_with_roots(rt.alloc(), image)?;
    assert!(rt; roots.as_slice() == [0].as_slice());
    assert_is(&rt, first.area(), None);
    let mut mutator = first.split(&shared, 0, &[]);
    let mut marker = first.split(&shared, 8, roots.as_slice());
    forge_free(&rt, &shared, &mut mutator);
    pass_forged(&rt, &shared, &mut marker);
    let image = close_three(shared, first, mutator, marker);
    assert_words(&rt, &image, &[(38, 0x2_0000), (66, FREE)]);
    Ok(())
}

#[test]
fn a_marker_scans_the_root_and_the_next_phase_what_it_left_in_hands(
    rt: HostRuntime,
) -> Result<(), OutOfMemory> {
    scan_in_two_phases::<Brand>(&rt, rt.alloc(), Blank::new(1))
}
