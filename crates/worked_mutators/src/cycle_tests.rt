// Whole cycles by one mutator: where their areas begin, what their sweeps report, the totals before and after, and fields
// that are forged between the marking and the sweep.
ghost use Rattle.std.specs.Prelude.{◌≡◌, IfOk, slice_index};
ghost use Rattle.mutator_calls.specs.Calls.{IsReady};

use crate::asserts::assert_is;
use entry_word::{Shape, word_of};
use mutator_calls::{Mutator, Totals};
use plain_table::{Compaction, OutOfMemory, Policy, Reply, SweepReport};
use std::alloc::Global;
use std::process::Abort;
use sweeper::late_mark;
use tag_set::{Range, Tag};

const SHAPE: Shape = Shape {
    seg: 4,
    ext: 4,
    tru: 2,
    objects: 3,
};

/// What a sweep reports that found nothing.
const NOTHING: SweepReport = SweepReport {
    kept: 0,
    freed: 0,
    moved: 0,
    segs: 1,
    trusted: 0,
    tfreed: 0,
    compaction: Compaction::NoArea,
};

/// A cycle whose finish follows its start: where its area begins, and its report.
fn cycle<R: AllocGlobal + Abort>(
    rt: &R,
    mutator: &mut Mutator,
    policy: Policy,
) -> Result<(Option<u32>, SweepReport), OutOfMemory>
    requires { IsReady mutator.old }
    ensures { IsReady mutator.new }
{
    assert!(rt; !mutator.in_cycle());
    let area = mutator.start(rt.alloc(), policy)?;
    Ok((area, mutator.finish()))
}

/// The totals of a table without trusted cells.
fn totals(live: u32, objects: u32, sum: u64) -> Totals {
    Totals {
        live,
        trusted: 0,
        objects,
        sum,
    }
}

/// A cycle of a table in which nothing was made: where its area begins, its report, and the totals after it.
fn empty_cycle<R: AllocGlobal + Abort>(
    rt: &R,
    policy: Policy,
) -> Result<(Option<u32>, SweepReport, Totals), OutOfMemory> {
    let mut mutator = Mutator::fresh(rt.alloc(), SHAPE)?;
    let (area, report) = cycle(rt, &mut mutator, policy)?;
    Ok((area, report, mutator.totals()))
}

#[test]
fn an_empty_table_has_no_area_and_keeps_nothing(rt: HostRuntime) -> Result<(), OutOfMemory> {
    for policy in [Policy::Auto, Policy::Always, Policy::Never] {
        assert_is(
            &rt,
            empty_cycle(&rt, policy)?,
            (None, NOTHING, totals(0, 0, 0)),
        );
    }
    Ok(())
}

/// The tag of all cells of these tests.
fn tag() -> Tag {
    Tag::of(0x0f).unwrap()
}

#[test]
fn a_finish_frees_a_cell_that_found_its_field_taken(rt: HostRuntime) -> Result<(), OutOfMemory> {
    let mut mutator = Mutator::fresh(rt.alloc(), SHAPE)?;
    let answers = [
        mutator.new_object(0),
        mutator.init(0, 0, tag(), 2),
        mutator.init(0, 0, tag(), (1 << 48) - 1),
    ];
    assert_is(
        &rt,
        answers,
        [Reply::Obj(0), Reply::Ok, Reply::Taken(word_of(1))],
    );
    assert_is(&rt, mutator.totals(), totals(2, 1, 1));
    let (area, report) = cycle(&rt, &mut mutator, Policy::Never)?;
    let freed = SweepReport {
        kept: 1,
        freed: 1,
        ..NOTHING
    };
    assert_eq!(rt; (area, report), (None, freed));
    assert_is(&rt, mutator.totals(), totals(1, 1, 2));
    Ok(())
}

/// Two objects with three cells, at indexes 1, 3 and 4, and one at index 2 that found its field taken.
fn four_cells(alloc: Global) -> Result<Mutator, OutOfMemory>
    ensures { IfOk result IsReady }
{
    let mut mutator = Mutator::fresh(alloc, SHAPE)?;
    mutator.new_object(0);
    mutator.new_object(1);
    mutator.init(0, 0, tag(), 3);
    mutator.init(0, 0, tag(), 4);
    mutator.init(0, 1, tag(), 5);
    mutator.init(1, 0, tag(), 6);
    Ok(mutator)
}

#[test]
fn the_last_segment_is_compacted_where_there_is_room(rt: HostRuntime) -> Result<(), OutOfMemory> {
    let mut mutator = four_cells(rt.alloc())?;
    assert_is(&rt, mutator.totals(), totals(4, 2, 18));
    let (area, report) = cycle(&rt, &mut mutator, Policy::Never)?;
    let freed = SweepReport {
        kept: 3,
        freed: 1,
        segs: 2,
        ..NOTHING
    };
    assert_eq!(rt; (area, report), (None, freed));
    let (area, report) = cycle(&rt, &mut mutator, Policy::Always)?;
    let moved = SweepReport {
        kept: 3,
        moved: 1,
        compaction: Compaction::Done,
        ..NOTHING
    };
    assert_eq!(rt; (area, report), (Some(4), moved));
    assert_is(&rt, mutator.totals(), totals(3, 2, 14));
    Ok(())
}

#[test]
fn a_compaction_with_no_room_is_aborted(rt: HostRuntime) -> Result<(), OutOfMemory> {
    let mut mutator = four_cells(rt.alloc())?;
    let (area, report) = cycle(&rt, &mut mutator, Policy::Always)?;
    let aborted = SweepReport {
        kept: 3,
        freed: 1,
        segs: 2,
        compaction: Compaction::Aborted,
        ..NOTHING
    };
    assert_eq!(rt; (area, report), (Some(4), aborted));
    assert_is(&rt, mutator.totals(), totals(3, 2, 14));
    Ok(())
}

/// Room for eight external entries and four objects.
const SMALL: Shape = Shape {
    seg: 4,
    ext: 2,
    tru: 1,
    objects: 4,
};

/// What a sweep of these tests reports that kept and freed so many.
fn swept(kept: u32, freed: u32) -> SweepReport {
    SweepReport {
        kept,
        freed,
        ..NOTHING
    }
}

/// Scans all that is owed, as a finish does first, and leaves the cycle under way.
fn mark(mutator: &mut Mutator)
    requires ready { IsReady mutator.old }
    requires cycle { slice_index mutator.old.image.words.items 4 ≡ 1 }
    ensures ready { IsReady mutator.new }
    ensures cycle { slice_index mutator.new.image.words.items 4 ≡ 1 }
{
    let Some(mut area) = mutator.area.take() else {
        unreachable!();
    };
    late_mark(&mut mutator.image, &mut area, &mutator.list[..mutator.owed]);
    mutator.owed = 0;
    mutator.area = Some(area);
}

/// The start of a cycle with an area, in which all is marked then; answers where the area begins.
fn start_marked<R: AllocGlobal + Abort>(
    rt: &R,
    mutator: &mut Mutator,
) -> Result<Option<u32>, OutOfMemory>
    requires { IsReady mutator.old }
    ensures { IsReady mutator.new }
{
    assert!(rt; !mutator.in_cycle());
    let area = mutator.start(rt.alloc(), Policy::Always)?;
    mark(mutator);
    Ok(area)
}

/// Four objects with seven cells, of the values 0xc1 to 0xc7 at the indexes 1 to 7.
fn seven_cells(alloc: Global) -> Result<Mutator, OutOfMemory>
    ensures { IfOk result IsReady }
{
    let mut mutator = Mutator::fresh(alloc, SMALL)?;
    mutator.new_object(0);
    mutator.new_object(1);
    mutator.new_object(2);
    mutator.new_object(3);
    mutator.init(0, 0, tag(), 0xc1);
    mutator.init(0, 1, tag(), 0xc2);
    mutator.init(1, 0, tag(), 0xc3);
    mutator.init(1, 1, tag(), 0xc4);
    mutator.init(2, 0, tag(), 0xc5);
    mutator.init(2, 1, tag(), 0xc6);
    mutator.init(3, 0, tag(), 0xc7);
    Ok(mutator)
}

/// Two objects with cells at the indexes 1 and 7, marked in a cycle whose area has the second cell.
fn two_marked_cells<R: AllocGlobal + Abort>(rt: &R) -> Result<Mutator, OutOfMemory>
    ensures { IfOk result IsReady }
{
    let mut mutator = seven_cells(rt.alloc())?;
    mutator.drop_var(1);
    mutator.drop_var(2);
    mutator.forge(0, 1, 0);
    let freed = SweepReport {
        segs: 2,
        ..swept(2, 5)
    };
    assert_is(rt, cycle(rt, &mut mutator, Policy::Never)?, (None, freed));
    assert_is(rt, start_marked(rt, &mut mutator)?, Some(4));
    Ok(mutator)
}

#[test]
fn a_field_that_is_forged_after_the_marking_is_not_rewritten(
    rt: HostRuntime,
) -> Result<(), OutOfMemory> {
    let mut mutator = two_marked_cells(&rt)?;
    assert_is(&rt, mutator.forge(0, 1, 0x0007_0000), Reply::Ok);
    assert!(rt; mutator.in_cycle());
    let moved = SweepReport {
        moved: 1,
        compaction: Compaction::Done,
        ..swept(2, 0)
    };
    assert_is(&rt, mutator.finish(), moved);
    let answers = [
        mutator.load(3, 0, Range::one(tag())),
        mutator.name(3, 0),
        mutator.name(0, 1),
        mutator.load(0, 1, Range::one(tag())),
    ];
    assert_is(
        &rt,
        answers,
        [
            Reply::Value(0xc7),
            Reply::Word(0x0002_0000),
            Reply::Word(0x0007_0000),
            Reply::Fault,
        ],
    );
    Ok(())
}

#[test]
fn a_cell_whose_field_is_forged_away_after_the_marking_is_freed(
    rt: HostRuntime,
) -> Result<(), OutOfMemory> {
    let mut mutator = two_marked_cells(&rt)?;
    assert_is(&rt, mutator.forge(3, 0, 0), Reply::Ok);
    assert!(rt; mutator.in_cycle());
    let freed = SweepReport {
        compaction: Compaction::Done,
        ..swept(1, 1)
    };
    assert_is(&rt, mutator.finish(), freed);
    assert_is(
        &rt,
        mutator.raw_load(0x0007_0000, Range::one(tag())),
        Reply::Fault,
    );
    Ok(())
}
