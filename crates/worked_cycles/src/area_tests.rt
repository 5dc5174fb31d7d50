// The evacuation area of a cycle: indexes below it are taken and filled, one of them gets the evacuation entry of a field, and the
// compaction is aborted where none is left.
ghost use Rattle.std.specs.Prelude.{◌≡◌, ◌+◌, ◌%◌, ◌^◌, ◌<◌, Some};
ghost use Rattle.plain_table.specs.declared.events.Act.TheVariants as act;
ghost use Rattle.plain_table.specs.declared.events.Field.TheVariants as field;
ghost use Rattle.plain_table.specs.declared.events.Space.TheVariants.{External};
ghost use Rattle.plain_table.specs.declared.reports.Reply.TheVariants as reply;
ghost use Rattle.plain_table.specs.Table.{limit_in};
ghost use Rattle.entry_base.specs.declared.view.Fact.TheVariants as fact;
ghost use Rattle.entry_base.specs.Callers.{SameCaller, Extends, event_of};
ghost use Rattle.entry_base.specs.Lists.{Has};
ghost use Rattle.entry_base.specs.Openings.{sizes_in, start_of};
ghost use Rattle.entry_base.specs.Owns.{claim_of};
ghost use Rattle.entry_base.specs.Passed.{PassedField};
ghost use Rattle.entry_base.specs.Sessions.{view, IsOf};
ghost use Rattle.mark_rule.specs.Marking.{InHands};

use crate::asserts::{assert_is, assert_words};
use crate::cycles::{image_to_move, open_with_roots};
use crate::scan_tests::{pass_field, pass_reference, pass_three};
use entry_base::{Session, Shared};
use entry_rule::{abort_step, evacuate_step, load_area, put_external};
use freelist_rule::{Steps, below_step, load_freelist_for_below, load_link};
use mark_rule::{load_entry, load_word, mark_step, scan_step};
use plain_table::{OutOfMemory, Space};
use std::alloc::Global;
use std::marker::Brand;
use std::process::Abort;
use std::sync::ledger::{Blank, Ledger};
use worked_tables::{SHAPE, close_both, close_whole, open, take_head, word_at};

/// The word of the cell at index 4, unmarked.
const CELL: u64 = 0x000f_0000_0000_00c0;

/// Takes the head of the external space, which is below the area, whose freelist word is expected to be `word`, and whose head links
/// `next`.
fn take_below<L: Ledger>(
    rt: &impl Abort,
    shared: &Shared,
    s: &mut Session,
    word: u64,
    next: u32,
    steps: &mut Steps<L>,
) -> u32
    requires caller { IsOf shared.now s.old }
    requires area { start_of (view s.old).opening ≡ Some 4 }
    ensures caller { IsOf shared.now s.new }
    ensures same { SameCaller (view s.old) (view s.new) }
    ensures hands { (view s.new).hands ≡ (view s.old).hands }
    ensures head { result ≡ word % 2 ^ 32 }
    ensures below { result < 4 }
    ensures inside { result < limit_in (sizes_in (view s.new).opening) External }
    ensures owed { Has (view s.new).owed (claim_of (view s.new) External result) }
    ensures ticked { steps.new ≡ steps.old + 1 }
{
    let found = load_freelist_for_below(shared, s, 4);
    assert_is(rt, found, word);
    assert!(rt; found / (1 << 32) != 0);
    assert!(rt; found % (1 << 32) < 4);
    let link = load_link(shared, s, Space::External, found);
    assert_is(rt, link, (1 << 56) + next as u64);
    let Ok(index) = below_step(shared, s, 4, found, next, steps) else {
        panic!(rt; "the freelist word changed");
    };
    index
}

/// Passes external field 0 of object 0, whose cell at index 4 it marks, and gives the field an evacuation entry.
fn pass_moved(rt: &impl Abort, shared: &Shared, s: &mut Session, index: u32)
    requires caller { IsOf shared.now s.old }
    requires hands { InHands (view s.old) 0 }
    requires shape { (view s.old).opening.shape ≡ SHAPE }
    requires area { start_of (view s.old).opening ≡ Some 4 }
    requires below { index < 4 }
    requires owed { Has (view s.old).owed (claim_of (view s.old) External index) }
    ensures caller { IsOf shared.now s.new }
    ensures same { SameCaller (view s.old) (view s.new) }
    ensures hands { (view s.new).hands ≡ (view s.old).hands }
    ensures passed { PassedField (view s.new) (field.External 0) }
{
    let word = load_word(shared, s, 0, 0);
    assert_is(rt, word, 0x4_0000);
    let entry = load_entry(shared, s, Space::External, 0, 0, 0x4_0000);
    assert_is(rt, entry, CELL);
    let found = mark_step(shared, s, Space::External, 0, 0, 0x4_0000, CELL);
    assert_is(rt, found, CELL);
    evacuate_step(shared, s, index, 0, 0x4_0000);
}

/// Scans object 0 of the hands, whose external field 0 gets an evacuation entry below the area.
fn scan_moved<L: Ledger>(rt: &impl Abort, shared: &Shared, s: &mut Session, steps: &mut Steps<L>)
    requires caller { IsOf shared.now s.old }
    requires hands { InHands (view s.old) 0 }
    requires shape { (view s.old).opening.shape ≡ SHAPE }
    requires area { start_of (view s.old).opening ≡ Some 4 }
    ensures caller { IsOf shared.now s.new }
    ensures same { SameCaller (view s.old) (view s.new) }
    ensures ticked { steps.new ≡ steps.old + 1 }
{
    let index = take_below(rt, shared, s, 0x6_0000_0001, 2, steps);
    pass_moved(rt, shared, s, index);
    pass_field(rt, shared, s, 0, 1);
    pass_field(rt, shared, s, 0, 2);
    pass_reference(rt, shared, s, 0, 0);
    pass_three(rt, shared, s, 0);
    scan_step(shared, s, 0);
}

/// Scans object 0 of the hands so, in a cycle whose area begins at 4.
fn scan_in_area<L: Ledger>(rt: &impl Abort, shared: &Shared, s: &mut Session, steps: &mut Steps<L>)
    requires caller { IsOf shared.now s.old }
    requires hands { InHands (view s.old) 0 }
    requires shape { (view s.old).opening.shape ≡ SHAPE }
    ensures caller { IsOf shared.now s.new }
    ensures same { SameCaller (view s.old) (view s.new) }
    ensures ticked { steps.new ≡ steps.old + 1 }
{
    assert_is(rt, s.area(), Some(4));
    scan_moved(rt, shared, s, steps);
}

fn evacuate<L: Ledger, M: Ledger>(
    rt: &impl Abort,
    alloc: Global,
    made: Blank,
    blank: Blank,
) -> Result<(), OutOfMemory>
    requires names { (made.name ≡ M.name) × (blank.name ≡ L.name) }
    requires parts { (made.parts ≡ M.parts) × (blank.parts ≡ L.parts) }
    requires one { (made.parts ≡ 1) × (blank.parts ≡ 1) }
{
    let image = image_to_move::<M>(rt, alloc, made)?;
    assert_words(
        rt,
        &image,
        &[(0, 0x6_0000_0001), (32, 1), (65, (1 << 56) + 2), (68, CELL)],
    );
    let (shared, mut first, roots) = open_with_roots(alloc, image)?;
    assert!(rt; roots.as_slice() == [0].as_slice());
    let mut marker = first.split(&shared, 8, roots.as_slice());
    let mut steps = Steps::<L>::start(blank);
    scan_in_area(rt, &shared, &mut marker, &mut steps);
    let after = close_both(shared, first, marker);
    assert_words(
        rt,
        &after,
        &[
            (0, 0x5_0000_0002),
            (32, 3),
            (65, 1 << 58),
            (68, CELL + (1 << 62)),
        ],
    );
    Ok(())
}

/// Takes below the area with a freelist word that another session's take made stale.
fn take_below_with_stale_word<L: Ledger>(
    rt: &impl Abort,
    shared: &Shared,
    first: &mut Session,
    other: &mut Session,
    steps: &mut Steps<L>,
)
    requires callers { IsOf shared.now first.old × IsOf shared.now other.old }
    requires areas { (start_of (view first.old).opening ≡ Some 4) × (start_of (view other.old).opening ≡ Some 4) }
    ensures callers { IsOf shared.now first.new × IsOf shared.now other.new }
    ensures same { SameCaller (view first.old) (view first.new) × SameCaller (view other.old) (view other.new) }
    ensures ticked { steps.new ≡ steps.old + 2 }
{
    let stale = load_freelist_for_below(shared, other, 4);
    assert_is(rt, stale, 0x6_0000_0001);
    let link = load_link(shared, other, Space::External, stale);
    assert_is(rt, link, (1 << 56) + 2);
    let index = take_below(rt, shared, first, 0x6_0000_0001, 2, steps);
    assert_is(rt, index, 1);
    let missed = below_step(shared, other, 4, stale, 2, steps);
    assert_is(rt, missed, Err(0x5_0000_0002));
}

/// Takes the two last indexes below the area.
fn take_last_below<L: Ledger>(
    rt: &impl Abort,
    shared: &Shared,
    s: &mut Session,
    steps: &mut Steps<L>,
)
    requires caller { IsOf shared.now s.old }
    requires area { start_of (view s.old).opening ≡ Some 4 }
    ensures caller { IsOf shared.now s.new }
    ensures same { SameCaller (view s.old) (view s.new) }
    ensures ticked { steps.new ≡ steps.old + 2 }
{
    let second = take_below(rt, shared, s, 0x5_0000_0002, 3, steps);
    let third = take_below(rt, shared, s, 0x4_0000_0003, 5, steps);
    assert_is(rt, second, 2);
    assert_is(rt, third, 3);
}

/// Finds no room below the area, and aborts the compaction. The area word is loaded before and after.
fn abort_full(rt: &impl Abort, shared: &Shared, s: &mut Session)
    requires caller { IsOf shared.now s.old }
    requires area { start_of (view s.old).opening ≡ Some 4 }
    ensures caller { IsOf shared.now s.new }
    ensures same { SameCaller (view s.old) (view s.new) }
    ensures aborted { Has (view s.new).facts fact.Aborted }
{
    let word = load_freelist_for_below(shared, s, 4);
    assert_is(rt, word, 0x3_0000_0005);
    let before = load_area(shared, s);
    assert_is(rt, before, 4);
    abort_step(shared, s, 4);
    let after = load_area(shared, s);
    assert_is(rt, after, 0x1_0000_0004);
}

/// Takes an index of the area and fills it, after the abort, which the area word says.
fn put_in_area<L: Ledger>(rt: &impl Abort, shared: &Shared, s: &mut Session, steps: &mut Steps<L>)
    requires caller { IsOf shared.now s.old }
    requires area { start_of (view s.old).opening ≡ Some 4 }
    ensures caller { IsOf shared.now s.new }
    ensures same { SameCaller (view s.old) (view s.new) }
    ensures ticked { steps.new ≡ steps.old + 1 }
{
    let aborted = load_area(shared, s);
    assert_is(rt, aborted, 0x1_0000_0004);
    let taken = take_head(shared, s, Space::External, 0x3_0000_0005, 6, steps);
    assert_is(rt, taken, Some(5));
    put_external(shared, s, 5, 0x0f, 0xd0);
}

/// Takes all that is below the area, one index of it with a miss, aborts the compaction, and takes an index of the area, where the
/// area begins at 4.
fn spend_and_abort<L: Ledger>(
    rt: &impl Abort,
    shared: &Shared,
    first: &mut Session,
    marker: &mut Session,
    steps: &mut Steps<L>,
)
    requires callers { IsOf shared.now first.old × IsOf shared.now marker.old }
    ensures callers { IsOf shared.now first.new × IsOf shared.now marker.new }
    ensures same { SameCaller (view first.old) (view first.new) × SameCaller (view marker.old) (view marker.new) }
    ensures ticked { steps.new ≡ steps.old + 5 }
{
    assert_is(rt, first.area(), Some(4));
    assert_is(rt, marker.area(), Some(4));
    take_below_with_stale_word(rt, shared, first, marker, steps);
    take_last_below(rt, shared, first, steps);
    abort_full(rt, shared, marker);
    put_in_area(rt, shared, first, steps);
}

fn miss_and_abort<L: Ledger, M: Ledger>(
    rt: &impl Abort,
    alloc: Global,
    made: Blank,
    blank: Blank,
) -> Result<(), OutOfMemory>
    requires names { (made.name ≡ M.name) × (blank.name ≡ L.name) }
    requires parts { (made.parts ≡ M.parts) × (blank.parts ≡ L.parts) }
    requires one { (made.parts ≡ 1) × (blank.parts ≡ 1) }
{
    let image = image_to_move::<M>(rt, alloc, made)?;
    assert_words(rt, &image, &[(1, 4), (69, (1 << 56) + 6)]);
    let (shared, mut first) = open(alloc, image)?;
    let mut marker = first.split(&shared, 8, &[]);
    let mut steps = Steps::<L>::start(blank);
    spend_and_abort(rt, &shared, &mut first, &mut marker, &mut steps);
    let after = close_both(shared, first, marker);
    assert_words(
        rt,
        &after,
        &[
            (0, 0x2_0000_0006),
            (1, 0x1_0000_0004),
            (69, 0x400f_0000_0000_00d0),
        ],
    );
    Ok(())
}

/// Takes index 1, which is below the area that begins at 4, and fills it before any abort.
fn put_below<L: Ledger>(rt: &impl Abort, shared: &Shared, s: &mut Session, steps: &mut Steps<L>)
    requires caller { IsOf shared.now s.old }
    ensures caller { IsOf shared.now s.new }
    ensures same { SameCaller (view s.old) (view s.new) }
    ensures ticked { steps.new ≡ steps.old + 1 }
{
    assert_is(rt, s.area(), Some(4));
    let taken = take_head(shared, s, Space::External, 0x6_0000_0001, 2, steps);
    assert_is(rt, taken, Some(1));
    put_external(shared, s, 1, 0x0f, 0xd0);
}

fn fill_below<L: Ledger, M: Ledger>(
    rt: &impl Abort,
    alloc: Global,
    made: Blank,
    blank: Blank,
) -> Result<(), OutOfMemory>
    requires names { (made.name ≡ M.name) × (blank.name ≡ L.name) }
    requires parts { (made.parts ≡ M.parts) × (blank.parts ≡ L.parts) }
    requires one { (made.parts ≡ 1) × (blank.parts ≡ 1) }
{
    let image = image_to_move::<M>(rt, alloc, made)?;
    assert_is(rt, word_at(&image, 65), Some((1 << 56) + 2));
    let (shared, mut session) = open(alloc, image)?;
    let mut steps = Steps::<L>::start(blank);
    put_below(rt, &shared, &mut session, &mut steps);
    let after = close_whole(shared, session);
    assert_words(
        rt,
        &after,
        &[(0, 0x5_0000_0002), (1, 4), (65, 0x400f_0000_0000_00d0)],
    );
    Ok(())
}

/// Takes the three free indexes of the area, which are the last ones.
fn take_area<L: Ledger>(rt: &impl Abort, shared: &Shared, s: &mut Session, steps: &mut Steps<L>)
    requires caller { IsOf shared.now s.old }
    ensures caller { IsOf shared.now s.new }
    ensures same { SameCaller (view s.old) (view s.new) }
    ensures ticked { steps.new ≡ steps.old + 3 }
{
    let fifth = take_head(shared, s, Space::External, 0x3_0000_0005, 6, steps);
    assert_is(rt, fifth, Some(5));
    let sixth = take_head(shared, s, Space::External, 0x2_0000_0006, 7, steps);
    assert_is(rt, sixth, Some(6));
    let seventh = take_head(shared, s, Space::External, 0x1_0000_0007, 8, steps);
    assert_is(rt, seventh, Some(7));
}

/// Loads the freelist word for a take below the area, which is the event of one that finds no room: the list is empty.
fn find_empty(rt: &impl Abort, shared: &Shared, s: &mut Session)
    requires caller { IsOf shared.now s.old }
    requires area { start_of (view s.old).opening ≡ Some 4 }
    ensures caller { IsOf shared.now s.new }
    ensures same { SameCaller (view s.old) (view s.new) }
    ensures full { Extends (view s.old) (event_of (view s.old) (act.Below 4) reply.NoRoom) (view s.new) }
{
    let word = load_freelist_for_below(shared, s, 4);
    assert_is(rt, word, 8);
}

/// Takes all that is free, from what is below the area on, which begins at 4, and finds the list empty.
fn spend_all<L: Ledger>(rt: &impl Abort, shared: &Shared, s: &mut Session, steps: &mut Steps<L>)
    requires caller { IsOf shared.now s.old }
    ensures caller { IsOf shared.now s.new }
    ensures same { SameCaller (view s.old) (view s.new) }
    ensures ticked { steps.new ≡ steps.old + 6 }
{
    assert_is(rt, s.area(), Some(4));
    put_below(rt, shared, s, steps);
    take_last_below(rt, shared, s, steps);
    take_area(rt, shared, s, steps);
    find_empty(rt, shared, s);
}

fn spend_external<L: Ledger, M: Ledger>(
    rt: &impl Abort,
    alloc: Global,
    made: Blank,
    blank: Blank,
) -> Result<(), OutOfMemory>
    requires names { (made.name ≡ M.name) × (blank.name ≡ L.name) }
    requires parts { (made.parts ≡ M.parts) × (blank.parts ≡ L.parts) }
    requires one { (made.parts ≡ 1) × (blank.parts ≡ 1) }
{
    let image = image_to_move::<M>(rt, alloc, made)?;
    let (shared, mut session) = open(alloc, image)?;
    let mut steps = Steps::<L>::start(blank);
    spend_all(rt, &shared, &mut session, &mut steps);
    let after = close_whole(shared, session);
    assert_is(rt, word_at(&after, 0), Some(8));
    Ok(())
}

#[test]
fn a_field_gets_an_evacuation_entry_below_the_area(rt: HostRuntime) -> Result<(), OutOfMemory> {
    evacuate::<Brand, Brand>(&rt, rt.alloc(), Blank::new(1), Blank::new(1))
}

#[test]
fn a_take_below_misses_and_at_last_finds_no_room_so_that_the_compaction_is_aborted(
    rt: HostRuntime,
) -> Result<(), OutOfMemory> {
    miss_and_abort::<Brand, Brand>(&rt, rt.alloc(), Blank::new(1), Blank::new(1))
}

#[test]
fn an_index_below_the_area_is_filled_before_any_abort(rt: HostRuntime) -> Result<(), OutOfMemory> {
    fill_below::<Brand, Brand>(&rt, rt.alloc(), Blank::new(1), Blank::new(1))
}

#[test]
fn a_take_below_finds_no_room_where_the_list_is_empty(rt: HostRuntime) -> Result<(), OutOfMemory> {
    spend_external::<Brand, Brand>(&rt, rt.alloc(), Blank::new(1), Blank::new(1))
}
