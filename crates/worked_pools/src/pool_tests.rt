// Pools that are drained on one thread and on two.
ghost use Rattle.std.specs.Prelude.{◌≡◌, ◌≤◌, All, IfOk, vec_len};
ghost use Rattle.chunk_pool.specs.Thieves.{claims_of, IsThiefOf};
ghost use Rattle.worked_pools.specs.Fresh.{IsFresh};

use crate::chunks::eight_chunks;
use crate::thieves::{drain_by_two, join_both, sent};
use chunk_pool::{Pool, Thief};
use entry_base::Chunk;
use plain_table::OutOfMemory;
use std::alloc::Global;
use std::process::Abort;

/// Takes the last thief of a list.
fn pop_thief(rt: &impl Abort, pool: &Pool, thieves: &mut Vec<Thief>) -> Thief
    requires thieves { All (IsFresh pool.now) thieves.old.items }
    ensures thieves { All (IsFresh pool.now) thieves.new.items }
    ensures thief { IsFresh pool.now result }
{
    // The contract alone speaks of the pool.
    let _pool = pool;
    thieves.pop().expect(rt, "a thief")
}

/// A pool of two thieves, and these.
fn pool_of_two(
    rt: &impl Abort,
    alloc: Global,
    chunks: Vec<Chunk>,
) -> Result<(Pool, Thief, Thief), OutOfMemory>
    requires few { vec_len chunks ≤ 512 }
    ensures thieves { IfOk result (λ t. IsFresh t.0 t.1 × IsFresh t.0 t.2) }
{
    let (pool, mut thieves) = Pool::new(alloc, chunks, 2)?;
    let second = pop_thief(rt, &pool, &mut thieves);
    let first = pop_thief(rt, &pool, &mut thieves);
    Ok((pool, first, second))
}

#[test]
fn an_empty_pool_answers_nothing(rt: HostRuntime) -> Result<(), OutOfMemory> {
    let (pool, first, mut second) = pool_of_two(&rt, rt.alloc(), Vec::new(rt.alloc()))?;
    let (pool, mut first) = sent(pool, first);
    assert!(rt; first.next(&pool).is_none());
    assert!(rt; second.next(&pool).is_none());
    assert!(rt; first.next(&pool).is_none());
    Ok(())
}

/// Takes the next chunk, which has one object.
fn take_next(rt: &impl Abort, pool: &Pool, thief: &mut Thief) -> u32
    requires thief { IsThiefOf pool.now thief.old }
    ensures thief { IsThiefOf pool.now thief.new }
    ensures joined { (claims_of thief.new).joined ≡ (claims_of thief.old).joined }
    ensures thieves { (claims_of thief.new).thieves ≡ (claims_of thief.old).thieves }
{
    let chunk = thief.next(pool).expect(rt, "a chunk");
    assert!(rt; chunk.objects.len() == 1);
    chunk.objects[0]
}

/// Takes the eight chunks, in the order of their numbers.
fn take_eight(rt: &impl Abort, pool: &Pool, thief: &mut Thief)
    requires thief { IsThiefOf pool.now thief.old }
    ensures thief { IsThiefOf pool.now thief.new }
    ensures joined { (claims_of thief.new).joined ≡ (claims_of thief.old).joined }
    ensures thieves { (claims_of thief.new).thieves ≡ (claims_of thief.old).thieves }
{
    for number in 0..8 {
        assert_eq!(rt; take_next(rt, pool, thief), number);
    }
}

#[test]
fn one_thief_takes_all_chunks_and_both_see_the_end(rt: HostRuntime) -> Result<(), OutOfMemory> {
    let (_shared, _session, chunks) = eight_chunks(&rt, rt.alloc())?;
    let (pool, mut first, mut second) = pool_of_two(&rt, rt.alloc(), chunks)?;
    take_eight(&rt, &pool, &mut first);
    assert!(rt; first.next(&pool).is_none());
    assert!(rt; second.next(&pool).is_none());
    assert!(rt; first.next(&pool).is_none());
    let mut whole = join_both(&pool, first, second);
    assert!(rt; whole.next(&pool).is_none());
    Ok(())
}

/// Counts each object of chunks.
fn count_objects(chunks: &[Chunk], counts: &mut [u32; 8]) {
    for chunk in chunks {
        for object in &chunk.objects {
            if *object < 8 {
                counts[*object as usize] = counts[*object as usize].saturating_add(1);
            }
        }
    }
}

#[test]
fn two_threads_take_each_chunk_once(rt: HostRuntime) -> Result<(), OutOfMemory> {
    let (_shared, _session, chunks) = eight_chunks(&rt, rt.alloc())?;
    let (pool, first, second) = pool_of_two(&rt, rt.alloc(), chunks)?;
    let rooms = (Vec::new(rt.alloc()), Vec::new(rt.alloc()));
    let (_whole, here, there) = drain_by_two(&rt, &pool, first, second, rooms);
    assert_eq!(rt; here.len().saturating_add(there.len()), 8);
    let mut counts = [0; 8];
    count_objects(here.as_slice(), &mut counts);
    count_objects(there.as_slice(), &mut counts);
    assert_eq!(rt; counts, [1; 8]);
    Ok(())
}
