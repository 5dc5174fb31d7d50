// Takes until a space is full, the commit of a segment, and in a cycle takes below its area until it is aborted.
ghost use Rattle.std.specs.Prelude.{◌≡◌, ◌<◌, Some, IfOk};
ghost use Rattle.plain_table.specs.Shows.{IsLawful};
ghost use Rattle.entry_word.specs.Image.{image_of, sizes_of};
ghost use Rattle.word_laws.specs.Small.{AreSmall};
ghost use Rattle.entry_base.specs.Callers.{SameCaller};
ghost use Rattle.entry_base.specs.Openings.{start_of};
ghost use Rattle.entry_base.specs.Sessions.{view, IsOf};

use crate::asked::{FOUR, tag, word_at};
use crate::asserts::{assert_is, assert_words};
use crate::cycles::{begin_on, cycle_over};
use crate::entries::{bind, make, put_new};
use access_steps::{init, put};
use entry_base::{Session, Shared};
use entry_word::Image;
use freelist_rule::Steps;
use plain_table::{OutOfMemory, Policy, Reply, Space};
use space_steps::{Taken, abort, below, commit_segment, take};
use std::alloc::Global;
use std::marker::Brand;
use std::process::Abort;
use std::sync::ledger::{Blank, Ledger};
use worked_tables::{close_both, close_whole, open, open_fresh};

/// Takes the trusted index that is expected. The ticket is dropped, and the index stays taken.
fn take_trusted<L: Ledger>(
    rt: &impl Abort,
    shared: &Shared,
    s: &mut Session,
    index: u32,
    steps: &mut Steps<L>,
)
    requires caller { IsOf shared.now s.old }
    ensures caller { IsOf shared.now s.new }
    ensures same { SameCaller (view s.old) (view s.new) }
{
    let Taken::At(ticket) = take(shared, s, Space::Trusted, steps) else {
        panic!(rt; "no trusted index is free");
    };
    assert_is(rt, ticket.index(), index);
}

fn take_all<L: Ledger>(rt: &impl Abort, alloc: Global, blank: Blank) -> Result<(), OutOfMemory>
    requires name { blank.name ≡ L.name }
    requires parts { blank.parts ≡ L.parts }
    requires one { blank.parts ≡ 1 }
{
    let (shared, mut s) = open_fresh(alloc, FOUR)?;
    let mut steps = Steps::<L>::start(blank);
    take_trusted(rt, &shared, &mut s, 1, &mut steps);
    take_trusted(rt, &shared, &mut s, 2, &mut steps);
    take_trusted(rt, &shared, &mut s, 3, &mut steps);
    let full = take(&shared, &mut s, Space::Trusted, &mut steps);
    let Taken::Full = full else {
        panic!(rt; "the trusted space has another index");
    };
    let image = close_whole(shared, s);
    assert_words(rt, &image, &[(2, 4), (0, 0x3_0000_0001)]);
    Ok(())
}

#[test]
fn takes_answer_the_least_index_until_the_space_is_full(
    rt: HostRuntime,
) -> Result<(), OutOfMemory> {
    take_all::<Brand>(&rt, rt.alloc(), Blank::new(1))
}

#[test]
fn a_segment_is_committed_where_the_list_is_empty(rt: HostRuntime) -> Result<(), OutOfMemory> {
    let (shared, mut s) = open_fresh(rt.alloc(), FOUR)?;
    commit_segment(&shared, &mut s, Space::External);
    let first = put_new(&rt, &shared, &mut s, 0x0f, 0xc0);
    let second = put_new(&rt, &shared, &mut s, 0x0f, 0xc1);
    let third = put_new(&rt, &shared, &mut s, 0x0f, 0xc2);
    let image = close_whole(shared, s);
    assert_is(&rt, first, 0x1_0000);
    assert_is(&rt, second, 0x2_0000);
    assert_is(&rt, third, 0x3_0000);
    assert_words(&rt, &image, &[(0, 4), (68, 1 << 57)]);
    let (shared, mut s) = open(rt.alloc(), image)?;
    commit_segment(&shared, &mut s, Space::External);
    let image = close_whole(shared, s);
    assert_words(&rt, &image, &[(0, 0x4_0000_0004), (68, (1 << 56) + 5)]);
    Ok(())
}

/// Puts three cells that no field names, and makes object 0 in variable 0, whose cell is at index 4.
fn spread(rt: &impl Abort, shared: &Shared, s: &mut Session)
    requires caller { IsOf shared.now s.old }
    requires mutator { (view s.old).number < 8 }
    ensures caller { IsOf shared.now s.new }
    ensures same { SameCaller (view s.old) (view s.new) }
{
    put_new(rt, shared, s, 0x0f, 0xc0);
    put_new(rt, shared, s, 0x0f, 0xc1);
    put_new(rt, shared, s, 0x0f, 0xc2);
    make(rt, shared, s, 0, 0);
    bind(rt, shared, s, (0, 0), 0x0f, 0xc3);
}

/// An image in a cycle whose area begins at 4. Object 0 is the root, whose external field 0 names the cell at index 4, and the
/// indexes from 1 to 3 are free.
fn image_with_an_area(rt: &impl Abort, alloc: Global) -> Result<Image, OutOfMemory>
    ensures lawful { IfOk result (λ image. IsLawful (image_of image)) }
    ensures small { IfOk result (λ image. AreSmall (sizes_of image.shape)) }
{
    let (shared, mut first) = open_fresh(alloc, FOUR)?;
    let mut s = first.split(&shared, 0, &[]);
    spread(rt, &shared, &mut s);
    let image = close_both(shared, first, s);
    let (image, report) = cycle_over(rt, alloc, image, FOUR)?;
    assert!(rt; report.kept == 1 && report.freed == 3);
    let (image, area) = begin_on(rt, alloc, image, FOUR, Policy::Always)?;
    assert_is(rt, area.start(), Some(4));
    Ok(image)
}

/// Takes the index below the area that is expected, and fills it.
fn put_below<L: Ledger>(
    rt: &impl Abort,
    shared: &Shared,
    s: &mut Session,
    index: u32,
    steps: &mut Steps<L>,
)
    requires caller { IsOf shared.now s.old }
    requires area { start_of (view s.old).opening ≡ Some 4 }
    ensures caller { IsOf shared.now s.new }
    ensures same { SameCaller (view s.old) (view s.new) }
{
    let Taken::At(ticket) = below(shared, s, 4, steps) else {
        panic!(rt; "no index below the area is free");
    };
    assert_is(rt, ticket.index(), index);
    let word = put(shared, s, ticket, tag(rt, 0x0f), 0xc4);
    assert_is(rt, word / 65536, index);
}

/// Finds no room below the area, and aborts the compaction.
fn abort_where_full<L: Ledger>(
    rt: &impl Abort,
    shared: &Shared,
    s: &mut Session,
    steps: &mut Steps<L>,
)
    requires caller { IsOf shared.now s.old }
    requires area { start_of (view s.old).opening ≡ Some 4 }
    ensures caller { IsOf shared.now s.new }
    ensures same { SameCaller (view s.old) (view s.new) }
{
    match below(shared, s, 4, steps) {
        Taken::NoRoom => abort(shared, s),
        Taken::Full => panic!(rt; "a take below the area says that the space is full"),
        Taken::At(_) => panic!(rt; "an index below the area is free"),
    }
}

fn take_below_and_abort<L: Ledger>(
    rt: &impl Abort,
    alloc: Global,
    blank: Blank,
) -> Result<(), OutOfMemory>
    requires name { blank.name ≡ L.name }
    requires parts { blank.parts ≡ L.parts }
    requires one { blank.parts ≡ 1 }
{
    let image = image_with_an_area(rt, alloc)?;
    let (shared, mut first) = open(alloc, image)?;
    assert_is(rt, first.area(), Some(4));
    let mut steps = Steps::<L>::start(blank);
    put_below(rt, &shared, &mut first, 1, &mut steps);
    put_below(rt, &shared, &mut first, 2, &mut steps);
    put_below(rt, &shared, &mut first, 3, &mut steps);
    abort_where_full(rt, &shared, &mut first, &mut steps);
    let image = close_whole(shared, first);
    assert_words(
        rt,
        &image,
        &[
            (0, 0x3_0000_0005),
            (1, 0x1_0000_0004),
            (67, 0x400f_0000_0000_00c4),
        ],
    );
    Ok(())
}

#[test]
fn takes_below_the_area_find_no_room_at_last_and_the_compaction_is_aborted(
    rt: HostRuntime,
) -> Result<(), OutOfMemory> {
    take_below_and_abort::<Brand>(&rt, rt.alloc(), Blank::new(1))
}

#[test]
fn an_init_in_the_area_aborts_the_compaction(rt: HostRuntime) -> Result<(), OutOfMemory> {
    let image = image_with_an_area(&rt, rt.alloc())?;
    let (shared, mut first) = open(rt.alloc(), image)?;
    let mut s = first.split(&shared, 0, &[]);
    make(&rt, &shared, &mut s, 1, 1);
    bind(&rt, &shared, &mut s, (0, 1), 0x0f, 0xc4);
    bind(&rt, &shared, &mut s, (1, 0), 0x0f, 0xc5);
    let image = close_both(shared, first, s);
    assert_is(&rt, word_at(&rt, &image, 1), 4);
    let (shared, mut first) = open(rt.alloc(), image)?;
    let mut s = first.split(&shared, 0, &[]);
    bind(&rt, &shared, &mut s, (1, 1), 0x0f, 0xc6);
    let said = init(&shared, &mut s, 0, 0, tag(&rt, 0x0f), 0xc7);
    let image = close_both(shared, first, s);
    assert_is(&rt, said, Reply::Taken(0x4_0000));
    assert_words(
        &rt,
        &image,
        &[(1, 0x1_0000_0004), (69, 0x400f_0000_0000_00c7)],
    );
    Ok(())
}
