// A marker that takes chunks out of a pool, and runs them.
ghost use Rattle.std.specs.Prelude.{◌≡◌, ◌≤◌, All, true};
ghost use Rattle.entry_base.specs.Openings.{sizes_in};
ghost use Rattle.entry_base.specs.Sessions.{view, IsChunkOf, IsOf};
ghost use Rattle.chunk_pool.specs.Claims.{IsWhole, TookEachOnce};
ghost use Rattle.chunk_pool.specs.Thieves.{claims_of, IsThiefOf};
ghost use Rattle.marker.specs.Steals.{RunsChunk, StealsAll};

use crate::marker::Marker;
use chunk_pool::{Pool, Thief};
use entry_base::{Chunk, Session, Shared};

/// How many chunks a marker took, up to 512, and how many objects it scanned.
#[derive(Clone, Copy, Debug, PartialEq, Eq)]
pub struct Dealt {
    pub chunks: u32,
    pub scans: u32,
}

impl Marker {
    /// Takes chunks of the table out of the pool, absorbs each and scans its objects and all that it shades by them, until its thief
    /// has seen the end (`StealsAll` of `specs/Steals.antt`); the marker has room for all objects of the table. The answer counts the
    /// chunks and the scans. A thief that had seen the end makes no claim. It takes no memory.
    pub fn steal_run(
        &mut self,
        shared: &Shared,
        s: &mut Session,
        pool: &Pool,
        thief: &mut Thief,
    ) -> Dealt
        requires caller { IsOf shared.now s.old }
        requires thief { IsThiefOf pool.now thief.old }
        requires chunks { All (IsChunkOf shared.now) (claims_of thief.old).given }
        requires room { (sizes_in (view s.old).opening).objects ≤ self.old }
        ensures caller { IsOf shared.now s.new }
        ensures thief { IsThiefOf pool.now thief.new }
        ensures steals { StealsAll (view s.old) (claims_of thief.old) (view s.new) (claims_of thief.new) result }
        ensures end { (claims_of thief.new).ended ≡ true }
        ensures idle { (claims_of thief.old).ended ≡ true → (claims_of thief.new ≡ claims_of thief.old) × (view s.new ≡ view s.old) }

        // Where its thief is then all thieves of the pool, it took each chunk once.
        ensures whole { IsWhole (claims_of thief.new) → TookEachOnce (claims_of thief.new) }
        ensures room { self.new ≡ self.old }
    {
        let mut dealt = Dealt {
            chunks: 0,
            scans: 0,
        };
        while let Some(chunk) = thief.next(pool) {
            dealt.chunks += 1;
            dealt.scans += self.run_chunk(shared, s, chunk);
        }
        dealt
    }

    /// Absorbs a chunk of the table, and scans its objects and all that it shades by them. The answer is the number of scans.
    fn run_chunk(&mut self, shared: &Shared, s: &mut Session, chunk: Chunk) -> u32
        requires caller { IsOf shared.now s.old }
        requires chunk { IsChunkOf shared.now chunk }
        requires room { (sizes_in (view s.old).opening).objects ≤ self.old }
        ensures caller { IsOf shared.now s.new }
        ensures runs { RunsChunk (view s.old) chunk (view s.new) result }
        ensures room { self.new ≡ self.old }
    {
        let objects = s.absorb(shared, chunk);
        let mut scans = 0;
        for object in &objects {
            scans += self.run(shared, s, &[*object]);
        }
        scans
    }
}
