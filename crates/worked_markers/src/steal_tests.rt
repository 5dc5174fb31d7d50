// Markers that take chunks out of a pool: the first takes all, and both see the end.
ghost use Rattle.std.specs.Prelude.{◌≡◌, ◌≤◌, All, IfOk, true, length};
ghost use Rattle.chunk_pool.specs.Claims.{TookEachOnce};
ghost use Rattle.chunk_pool.specs.Thieves.{claims_of, IsThiefOf};
ghost use Rattle.entry_base.specs.Callers.{SameCaller};
ghost use Rattle.entry_base.specs.Openings.{sizes_in};
ghost use Rattle.entry_base.specs.Sessions.{view, IsChunkOf, IsOf};
ghost use Rattle.worked_markers.specs.Thieves.{IsOneOfTwo};

use crate::asserts::{assert_is, assert_words};
use crate::cycles::open_with_roots;
use crate::many::{eight_chunks, image_of_many};
use chunk_pool::{Pool, Thief};
use entry_base::{Chunk, Session, Shared};
use marker::{Dealt, Marker};
use plain_table::OutOfMemory;
use std::alloc::Global;
use std::process::Abort;
use worked_tables::close_three;

/// Takes the last thief of a list.
fn pop_thief(rt: &impl Abort, shared: &Shared, pool: &Pool, thieves: &mut Vec<Thief>) -> Thief
    requires thieves { All (IsOneOfTwo shared.now pool.now) thieves.old.items }
    ensures thieves { All (IsOneOfTwo shared.now pool.now) thieves.new.items }
    ensures thief { IsOneOfTwo shared.now pool.now result }
{
    // The contract alone speaks of the table and the pool.
    let _table = shared;
    let _pool = pool;
    thieves.pop().expect(rt, "a thief")
}

/// A pool of eight chunks of a table, and its two thieves.
fn pool_of_two(
    rt: &impl Abort,
    alloc: Global,
    shared: &Shared,
    chunks: Vec<Chunk>,
) -> Result<(Pool, Thief, Thief), OutOfMemory>
    requires eight { length chunks.items ≡ 8 }
    requires chunks { All (IsChunkOf shared.now) chunks.items }
    ensures thieves { IfOk result (λ t. IsOneOfTwo shared.now t.0 t.1 × IsOneOfTwo shared.now t.0 t.2) }
{
    let (pool, mut thieves) = Pool::new(alloc, chunks, 2)?;
    let second = pop_thief(rt, shared, &pool, &mut thieves);
    let first = pop_thief(rt, shared, &pool, &mut thieves);
    Ok((pool, first, second))
}

/// Takes chunks and runs them until the end.
fn steal(
    marker: &mut Marker,
    shared: &Shared,
    s: &mut Session,
    pool: &Pool,
    thief: &mut Thief,
) -> Dealt
    requires caller { IsOf shared.now s.old }
    requires thief { IsOneOfTwo shared.now pool.now thief.old }
    requires room { (sizes_in (view s.old).opening).objects ≤ marker.old }
    ensures caller { IsOf shared.now s.new }
    ensures same { SameCaller (view s.old) (view s.new) }
    ensures thief { IsOneOfTwo shared.now pool.now thief.new }
    ensures end { (claims_of thief.new).ended ≡ true }
    ensures room { marker.new ≡ marker.old }
{
    marker.steal_run(shared, s, pool, thief)
}

/// Joins the two thieves of a pool, which have seen the end: together they took each chunk once.
fn join_both(pool: &Pool, mut first: Thief, second: Thief) -> Thief
    requires thieves { IsThiefOf pool.now first × IsThiefOf pool.now second }
    requires first { ((claims_of first).joined ≡ 1) × ((claims_of first).thieves ≡ 2) }
    requires second { (claims_of second).joined ≡ 1 }
    requires end { (claims_of first).ended ≡ true }
    ensures each { TookEachOnce (claims_of result) }
    ensures given { (claims_of result).given ≡ (claims_of first).given }
{
    first.join(pool, second);
    first
}

/// Two markers steal one after the other, and the first once more: joined they took each of the chunks 0 to 7 once,
/// all of which the first took.
fn steal_by_turns(
    rt: &impl Abort,
    marker: &mut Marker,
    shared: &Shared,
    one: &mut Session,
    two: &mut Session,
    pool: &Pool,
    thieves: (Thief, Thief),
) -> Thief
    requires callers { IsOf shared.now one.old × IsOf shared.now two.old }
    requires thieves { IsOneOfTwo shared.now pool.now thieves.0 × IsOneOfTwo shared.now pool.now thieves.1 }
    requires first_room { (sizes_in (view one.old).opening).objects ≤ marker.old }
    requires second_room { (sizes_in (view two.old).opening).objects ≤ marker.old }
    ensures callers { IsOf shared.now one.new × IsOf shared.now two.new }
    ensures same { SameCaller (view one.old) (view one.new) × SameCaller (view two.old) (view two.new) }
    ensures each { TookEachOnce (claims_of result) }
    ensures eight { length (claims_of result).given ≡ 8 }
{
    let (mut first, mut second) = thieves;
    let all = steal(marker, shared, one, pool, &mut first);
    assert!(rt; all.chunks == 8 && all.scans == 250);
    let late = steal(marker, shared, two, pool, &mut second);
    assert!(rt; late.chunks == 0 && late.scans == 0);
    let again = steal(marker, shared, one, pool, &mut first);
    assert!(rt; again.chunks == 0 && again.scans == 0);
    join_both(pool, first, second)
}

#[test]
fn the_first_of_two_markers_steals_all_chunks(rt: HostRuntime) -> Result<(), OutOfMemory> {
    let image = image_of_many(&rt, rt.alloc())?;
    let (shared, mut first, roots) = open_with_roots(rt.alloc(), image)?;
    assert!(rt; roots.as_slice() == [0].as_slice());
    let mut mutator = first.split(&shared, 0, &[]);
    assert_is(&rt, mutator.in_cycle(), true);
    let chunks = eight_chunks(&rt, rt.alloc(), &shared, &mut mutator)?;
    let mut late = first.split(&shared, 8, &[]);
    let (pool, thief, other) = pool_of_two(&rt, rt.alloc(), &shared, chunks)?;
    let mut marker = Marker::new(rt.alloc(), 501)?;
    steal_by_turns(
        &rt,
        &mut marker,
        &shared,
        &mut first,
        &mut late,
        &pool,
        (thief, other),
    );
    let image = close_three(shared, first, mutator, late);
    assert_words(
        &rt,
        &image,
        &[
            (32, 1),
            (40, 3),
            (48, 0),
            (32 + 8 * 499, 3),
            (32 + 8 * 500, 0),
        ],
    );
    Ok(())
}
