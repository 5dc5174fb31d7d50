// A segment that inits commit, by one mutator and by two threads.
ghost use Rattle.std.specs.Prelude.{◌^◌, ◌<◌, IfOk};
ghost use Rattle.entry_word.specs.Image.{image_of, sizes_of};
ghost use Rattle.plain_table.specs.Shows.{IsLawful};
ghost use Rattle.word_laws.specs.Small.{AreSmall};
ghost use Rattle.entry_base.specs.Callers.{SameCaller};
ghost use Rattle.entry_base.specs.Sessions.{view, IsOf};

use crate::asked::{FOUR, tag, word_at};
use crate::asserts::{assert_is, assert_words};
use crate::entries::{bind, make};
use access_steps::init;
use entry_base::{Session, Shared};
use entry_word::Image;
use plain_table::{OutOfMemory, Reply};
use std::alloc::Global;
use std::process::Abort;
use std::thread::{Threads, join};
use worked_tables::{close_both, close_three, open, open_fresh};

/// Makes objects 0 and 1 and three cells, which take the first segment.
fn take_first_segment(rt: &impl Abort, shared: &Shared, s: &mut Session)
    requires caller { IsOf shared.now s.old }
    requires mutator { (view s.old).number < 8 }
    ensures caller { IsOf shared.now s.new }
    ensures same { SameCaller (view s.old) (view s.new) }
{
    make(rt, shared, s, 0, 0);
    make(rt, shared, s, 1, 1);
    bind(rt, shared, s, (0, 0), 0x0f, 0xc0);
    bind(rt, shared, s, (0, 1), 0x0f, 0xc1);
    bind(rt, shared, s, (1, 0), 0x0f, 0xc2);
}

/// An image whose first external segment is taken: session 0 holds objects 0 and 1 in variables 0 and 1, and session 1 object 2 in
/// variable 0. External field 1 of object 1 and the fields of object 2 are not bound.
fn image_at_the_end_of_a_segment(rt: &impl Abort, alloc: Global) -> Result<Image, OutOfMemory>
    ensures lawful { IfOk result (λ image. IsLawful (image_of image)) }
    ensures small { IfOk result (λ image. AreSmall (sizes_of image.shape)) }
{
    let (shared, mut first) = open_fresh(alloc, FOUR)?;
    let mut one = first.split(&shared, 0, &[]);
    let mut two = first.split(&shared, 1, &[]);
    take_first_segment(rt, &shared, &mut one);
    make(rt, &shared, &mut two, 0, 2);
    Ok(close_three(shared, first, one, two))
}

#[test]
fn the_fourth_init_commits_the_second_segment(rt: HostRuntime) -> Result<(), OutOfMemory> {
    let before = image_at_the_end_of_a_segment(&rt, rt.alloc())?;
    assert_words(&rt, &before, &[(0, 4), (69, 1 << 57)]);
    let (shared, mut first) = open(rt.alloc(), before)?;
    let mut s = first.split(&shared, 0, &[]);
    bind(&rt, &shared, &mut s, (1, 1), 0x0f, 0xc3);
    let after = close_both(shared, first, s);
    assert_words(
        &rt,
        &after,
        &[
            (0, 0x3_0000_0005),
            (68, 0x400f_0000_0000_00c3),
            (69, 0x0100_0000_0000_0006),
            (71, 0x0100_0000_0000_0008),
        ],
    );
    Ok(())
}

/// Inits external field 1 of the object of a variable.
fn init_on_thread(
    rt: &impl Abort,
    shared: &Shared,
    mut s: Session,
    var: u32,
    value: u64,
) -> (Session, Reply)
    requires caller { IsOf shared.now s }
    requires variable { var < 16 }
    requires small { value < 2 ^ 48 }
    ensures caller { IsOf shared.now result.0 }
    ensures same { SameCaller (view s) (view result.0) }
{
    let said = init(shared, &mut s, var, 1, tag(rt, 0x0f), value);
    (s, said)
}

fn both_init<R: Threads + Sync + Abort>(
    rt: &R,
    shared: &Shared,
    one: Session,
    two: Session,
) -> ((Session, Reply), (Session, Reply))
    requires callers { IsOf shared.now one × IsOf shared.now two }
    ensures callers { IsOf shared.now result.0.0 × IsOf shared.now result.1.0 }
    ensures same { SameCaller (view one) (view result.0.0) × SameCaller (view two) (view result.1.0) }
{
    join(
        rt,
        || init_on_thread(rt, shared, one, 1, 0xc3),
        || init_on_thread(rt, shared, two, 0, 0xc4),
    )
}

#[test]
fn two_threads_need_a_segment_at_once_and_both_find_room(
    rt: HostRuntime,
) -> Result<(), OutOfMemory> {
    let before = image_at_the_end_of_a_segment(&rt, rt.alloc())?;
    assert_is(&rt, word_at(&rt, &before, 0), 4);
    let (shared, mut first) = open(rt.alloc(), before)?;
    let one = first.split(&shared, 0, &[]);
    let two = first.split(&shared, 1, &[]);
    let ((one, here), (two, there)) = both_init(&rt, &shared, one, two);
    assert_is(&rt, here, Reply::Ok);
    assert_is(&rt, there, Reply::Ok);
    let after = close_three(shared, first, one, two);
    assert_is(&rt, word_at(&rt, &after, 0), 0x2_0000_0006);
    let word = word_at(&rt, &after, 46);
    let other = word_at(&rt, &after, 54);
    assert!(rt; word == 0x4_0000 && other == 0x5_0000 || word == 0x5_0000 && other == 0x4_0000);
    Ok(())
}
