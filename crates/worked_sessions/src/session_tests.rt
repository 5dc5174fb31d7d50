// Sessions: a table that is opened and closed, split among threads and joined.
ghost use Rattle.std.specs.Prelude.{◌≡◌};
ghost use Rattle.entry_base.specs.Sessions.{view, IsOf};

use crate::asserts::assert_is;
use entry_base::{Session, Shared};
use entry_word::Image;
use object_rule::load_count;
use plain_table::OutOfMemory;
use std::alloc::Global;
use std::thread::{Threads, join};
use worked_tables::{SHAPE, close_both, close_whole, open_fresh};

#[test]
fn a_phase_without_a_step_leaves_the_image_as_it_was(rt: HostRuntime) -> Result<(), OutOfMemory> {
    let before = Image::fresh(rt.alloc(), SHAPE)?;
    let (shared, session) = open_fresh(rt.alloc(), SHAPE)?;
    let after = close_whole(shared, session);
    assert_is(
        &rt,
        (
            after.words.as_slice(),
            after.vars.as_slice(),
            after.pending.as_slice(),
        ),
        (
            before.words.as_slice(),
            before.vars.as_slice(),
            before.pending.as_slice(),
        ),
    );
    Ok(())
}

#[test]
fn a_session_knows_its_number_and_holds_nothing_at_first(
    rt: HostRuntime,
) -> Result<(), OutOfMemory> {
    let (shared, mut first) = open_fresh(rt.alloc(), SHAPE)?;
    let other = first.split(&shared, 3, &[]);
    assert_is(
        &rt,
        (
            first.number(),
            other.number(),
            other.held(5),
            other.ticket(),
            other.in_cycle(),
            other.area(),
        ),
        (12, 3, None, None, false, None),
    );
    let image = close_both(shared, first, other);
    assert!(rt; image.words.len() > 0);
    assert_is(&rt, image.words[0], 0x3_0000_0001);
    Ok(())
}

// A session counts the objects, by a load that is no event.
fn count_objects(shared: &Shared, mut session: Session) -> (Session, u64)
    requires caller { IsOf shared.now session }
    ensures caller { IsOf shared.now result.0 }
    ensures number { (view result.0).number ≡ (view session).number }
    ensures numbers { (view result.0).numbers ≡ (view session).numbers }
{
    let count = load_count(shared, &mut session);
    (session, count)
}

// Two sessions count the objects, each on a thread of its own.
fn both_count<R: Threads + Sync>(
    rt: &R,
    shared: &Shared,
    first: Session,
    other: Session,
) -> ((Session, u64), (Session, u64))
    requires callers { IsOf shared.now first × IsOf shared.now other }
    ensures callers { IsOf shared.now result.0.0 × IsOf shared.now result.1.0 }
    ensures first { ((view result.0.0).number ≡ (view first).number) × ((view result.0.0).numbers ≡ (view first).numbers) }
    ensures other { ((view result.1.0).number ≡ (view other).number) × ((view result.1.0).numbers ≡ (view other).numbers) }
{
    join(
        rt,
        || count_objects(shared, first),
        || count_objects(shared, other),
    )
}

#[test]
fn two_sessions_count_the_objects_on_two_threads(rt: HostRuntime) -> Result<(), OutOfMemory> {
    let before = Image::fresh(rt.alloc(), SHAPE)?;
    let (shared, mut first) = open_fresh(rt.alloc(), SHAPE)?;
    let other = first.split(&shared, 3, &[]);
    let ((first, here), (other, there)) = both_count(&rt, &shared, first, other);
    assert_is(&rt, (here, there, first.number()), (0, 0, 12));
    let after = close_both(shared, first, other);
    assert_is(
        &rt,
        (after.words.as_slice(), after.vars.as_slice()),
        (before.words.as_slice(), before.vars.as_slice()),
    );
    Ok(())
}
