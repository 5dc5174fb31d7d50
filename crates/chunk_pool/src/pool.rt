// The pool and its thieves.
ghost use Rattle.std.specs.Prelude.{◌≡◌, IfOk, Some, map};
ghost use Rattle.chunk_pool.specs.Claims.{IsWhole, TookEachOnce};

use crate::claims::Claims;
use crate::plays::{ClaimsNext, EachOnce, Given, GivesBack, Learns, Parts, TakesIn};
use atomic_table::{Seat, Table};
use entry_base::Chunk;
use plain_table::OutOfMemory;
use std::alloc::{AllocError, Global};
use std::snapshot::Snapshot;

/// Chunks that thieves take, each in a slot of a table whose word is the number of claims. Threads share it through a `&`.
#[derive(Drop)]
pub struct Pool {
    pub(crate) table: Table<Option<Chunk>, Claims, Given, EachOnce, Global>,
    // The number of chunks that it was made with.
    count: u64,
    ghost one_word: { table.shared.table_id.words ≡ 1 },
    ghost counted: { count ≡ table.shared.table_id.slots },
}

/// One thread's right to claim chunks of a pool. What it has claimed is `claims_of` of `specs/Thieves.antt`. It is no copy of
/// another, and a thread may take it.
#[derive(Drop)]
pub struct Thief {
    pub(crate) seat: Seat<Option<Chunk>, Claims>,
    // It has seen the end.
    ended: bool,
    ghost tied: { ended ≡ seat.me.0.ended },
    ghost whole: { IsWhole seat.me.0 → TookEachOnce seat.me.0 },
}

// The chunks, each in a slot.
fn slots_of(alloc: Global, chunks: Vec<Chunk>) -> Result<Vec<Option<Chunk>>, AllocError>
    ensures { IfOk result (λ slots. slots.items ≡ map Some chunks.items) }
{
    let mut slots = Vec::with_capacity(alloc, chunks.len())?;
    for chunk in chunks {
        slots.push(Some(chunk))?;
    }
    Ok(slots)
}

impl Pool {
    ghost use Rattle.std.specs.Prelude.{◌<◌, ◌≤◌, All, length, vec_len};
    ghost use Rattle.chunk_pool.specs.Claims.{first_claims, fresh_claims};
    ghost use Rattle.chunk_pool.specs.Thieves.{claims_of, IsThiefOf};

    /// A pool of at most 512 chunks, which are numbered from 0 as they stand, with its thieves, from 1 to 4. No thief has claimed
    /// anything. It refuses only where an allocation fails; the chunks are then dropped.
    pub fn new(
        alloc: Global,
        chunks: Vec<Chunk>,
        thieves: u32,
    ) -> Result<(Pool, Vec<Thief>), OutOfMemory>
        requires few { vec_len chunks ≤ 512 }
        requires thieves { (1 ≤ thieves) × (thieves ≤ 4) }
        ensures thieves { IfOk result (λ r. length r.1.items ≡ thieves) }
        ensures fresh { IfOk result (λ r. All (λ t. IsThiefOf r.0 t × (claims_of t ≡ fresh_claims chunks.items thieves)) r.1.items) }
    {
        let given = Given {
            chunks: Snapshot::of(&chunks),
            thieves,
        };
        let count = chunks.len() as u64;
        let Ok(slots) = slots_of(alloc, chunks) else {
            return Err(OutOfMemory);
        };
        let Ok((table, seat)) = Table::new(alloc, &[0], slots, &given) else {
            return Err(OutOfMemory);
        };
        let pool = Pool { table, count };
        let first = Thief { seat, ended: false };
        match pool.parts_of(alloc, first, thieves) {
            Ok(parts) => Ok((pool, parts)),
            Err(AllocError) => Err(OutOfMemory),
        }
    }

    // Parts the first thief, which is all of them, into as many.
    fn parts_of(&self, alloc: Global, first: Thief, thieves: u32) -> Result<Vec<Thief>, AllocError>
        requires thief { IsThiefOf self.now first }
        requires thieves { (1 ≤ thieves) × (thieves ≤ 4) }
        requires first { claims_of first ≡ first_claims (claims_of first).given thieves }
        ensures thieves { IfOk result (λ parts. length parts.items ≡ thieves) }
        ensures fresh { IfOk result (λ parts. All (λ t. IsThiefOf self.now t × (claims_of t ≡ fresh_claims (claims_of first).given thieves)) parts.items) }
    {
        let mut parts = Vec::with_capacity(alloc, thieves as usize)?;
        let mut first = first;
        for _ in 1..thieves {
            parts.push(first.part(self))?;
        }
        parts.push(first)?;
        Ok(parts)
    }
}

impl Thief {
    ghost use Rattle.std.specs.Prelude.{◌≤◌, IfNone, IfSome, None, false, true};
    ghost use mathlib.Core.Logic.{◌↔◌};
    ghost use Rattle.chunk_pool.specs.Claims.{both, giver, newcomer, with_end, Took};
    ghost use Rattle.chunk_pool.specs.Thieves.{claims_of, IsThiefOf};

    // Parts with one of the thieves that it is.
    fn part(&mut self, pool: &Pool) -> Thief
        requires thief { IsThiefOf pool.now self.old }
        requires two { 2 ≤ (claims_of self.old).joined }
        requires open { (claims_of self.old).ended ≡ false }
        ensures thieves { IsThiefOf pool.now self.new × IsThiefOf pool.now result }
        ensures left { claims_of self.new ≡ giver (claims_of self.old) }
        ensures right { claims_of result ≡ newcomer (claims_of self.old) }
    {
        let seat = pool.table.shared.split_seat::<Parts>(&mut self.seat);
        Thief { seat, ended: false }
    }

    /// Claims the next number and takes the very chunk that was given with it (`Took` of `specs/Claims.antt`). It answers None
    /// exactly where the thief has then seen the end: the claim gave the number of chunks or more, or it had seen the end before,
    /// and then it makes no claim and nothing changes.
    pub fn next(&mut self, pool: &Pool) -> Option<Chunk>
        requires thief { IsThiefOf pool.now self.old }
        ensures thief { IsThiefOf pool.now self.new }
        ensures took { IfSome result (λ chunk. Took (claims_of self.old) chunk (claims_of self.new)) }
        ensures end { IfNone result (claims_of self.new ≡ with_end (claims_of self.old)) }
        ensures idle { (claims_of self.old).ended ≡ true → (result ≡ None) × (claims_of self.new ≡ claims_of self.old) }
        ensures exact { (result ≡ None) ↔ ((claims_of self.new).ended ≡ true) }

        // A thief that is all of them and has seen the end took each chunk once.
        ensures whole { IsWhole (claims_of self.new) → TookEachOnce (claims_of self.new) }
    {
        if self.ended {
            return None;
        }
        let number = pool
            .table
            .shared
            .fetch_add::<ClaimsNext>(&mut self.seat, 0, 1);
        if number < pool.count {
            pool.table
                .shared
                .exchange(&mut self.seat, number as usize, None)
        } else {
            self.ended = true;
            None
        }
    }

    /// Takes in another thief of the same pool, with the numbers of the chunks that it took. This one has then seen the end
    /// exactly where one of them had (`both` of `specs/Claims.antt`).
    pub fn join(&mut self, pool: &Pool, other: Thief)
        requires thieves { IsThiefOf pool.now self.old × IsThiefOf pool.now other }
        ensures thief { IsThiefOf pool.now self.new }
        ensures joined { claims_of self.new ≡ both (claims_of self.old) (claims_of other) }

        // Where all thieves were joined into one that has seen the end, it took each given chunk once.
        ensures whole { IsWhole (claims_of self.new) → TookEachOnce (claims_of self.new) }
    {
        let Thief { mut seat, ended } = other;
        // The slot of the last chunk that it took is still out with it.
        pool.table.shared.load::<GivesBack>(&mut seat, 0);
        pool.table.shared.join_seat::<TakesIn>(&mut self.seat, seat);
        pool.table.shared.load::<Learns>(&mut self.seat, 0);
        self.ended = self.ended || ended;
    }
}
