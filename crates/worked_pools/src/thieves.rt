// What the thieves of a test do: one drains a pool, and two do so on threads of their own.
ghost use Rattle.std.specs.Prelude.{◌≡◌, ◌+◌, true};
ghost use Rattle.chunk_pool.specs.Claims.{TookEachOnce};
ghost use Rattle.chunk_pool.specs.Thieves.{claims_of, IsThiefOf};

use chunk_pool::{Pool, Thief};
use entry_base::Chunk;
use std::thread::{Threads, join};

/// Takes chunks until the end.
pub(crate) fn drain(pool: &Pool, thief: Thief, room: Vec<Chunk>) -> (Thief, Vec<Chunk>)
    requires thief { IsThiefOf pool.now thief }
    ensures thief { IsThiefOf pool.now result.0 }
    ensures end { (claims_of result.0).ended ≡ true }
    ensures same { ((claims_of result.0).joined ≡ (claims_of thief).joined) × ((claims_of result.0).thieves ≡ (claims_of thief).thieves) }
{
    let mut thief = thief;
    let mut chunks = room;
    while let Some(chunk) = thief.next(pool) {
        let _ = chunks.push(chunk);
    }
    (thief, chunks)
}

/// Joins the two thieves of a pool, one of which has seen the end: it took each chunk once.
pub(crate) fn join_both(pool: &Pool, first: Thief, second: Thief) -> Thief
    requires thieves { IsThiefOf pool.now first × IsThiefOf pool.now second }
    requires all { (claims_of first).joined + (claims_of second).joined ≡ (claims_of first).thieves }
    requires end { (claims_of first).ended ≡ true }
    ensures thief { IsThiefOf pool.now result }
    ensures each { TookEachOnce (claims_of result) }
{
    let mut first = first;
    first.join(pool, second);
    first
}

/// Two threads drain a pool of two thieves: together they took each chunk once.
pub(crate) fn drain_by_two<R: Threads + Sync>(
    rt: &R,
    pool: &Pool,
    first: Thief,
    second: Thief,
    rooms: (Vec<Chunk>, Vec<Chunk>),
) -> (Thief, Vec<Chunk>, Vec<Chunk>)
    requires thieves { IsThiefOf pool.now first × IsThiefOf pool.now second }
    requires all { (claims_of first).joined + (claims_of second).joined ≡ (claims_of first).thieves }
    ensures thief { IsThiefOf pool.now result.0 }
    ensures each { TookEachOnce (claims_of result.0) }
{
    let (here, there) = rooms;
    let ((first, here), (second, there)) = join(
        rt,
        || drain(pool, first, here),
        || drain(pool, second, there),
    );
    (join_both(pool, first, second), here, there)
}

/// A pool that goes to another thread, and one of its thieves: both are `Send`, and the pool is `Sync`.
pub(crate) fn sent<P: Send + Sync, T: Send>(pool: P, thief: T) -> (P, T)
    ensures { result ≡ (pool, thief) }
{
    (pool, thief)
}
