// The markers of a phase: they are made with the chunks to scan, run on threads, and taken in again.
ghost use Rattle.std.specs.Prelude.{◌≡◌, ◌≤◌, ◌+◌, ◌*◌, ◌<◌, ℕ, All, IfOk, List, length, map, slice_index_or};
ghost use Rattle.entry_base.specs.declared.chunks.Chunk.{Chunk};
ghost use Rattle.entry_base.specs.Lists.{AreIn, total};
ghost use Rattle.entry_base.specs.Numbers.{HasNumber};
ghost use Rattle.entry_base.specs.Sessions.{view, IsOf};
ghost use Rattle.chunk_pool.specs.Thieves.{claims_of, IsThiefOf};
ghost use Rattle.phases.specs.declared.markers.Marking.{Marking};
ghost use Rattle.phases.specs.Markings.{AreReady, DealtOut, EachOnce, HasEnded, HasMarked, HaveEnded, MayMark, all_joined};
ghost use Rattle.phases.specs.Sessions.{GaveOut, IsGiven, TookIn};

use crate::chunks::cut_chunks;
use chunk_pool::{Pool, Thief};
use entry_base::{Session, Shared};
use marker::{Dealt, Marker};
use phase_calls::Gate;
use plain_table::OutOfMemory;
use std::alloc::Global;
use std::thread::{Threads, for_each_mut};

/// The number of the first marker; those of the others follow.
const FIRST: u32 = 8;

/// The most markers of a phase.
const MOST: usize = 4;

/// A marker of a phase: its session, its stack and its thief, and how much it has done.
#[derive(Drop)]
pub(crate) struct Marking {
    pub session: Session,
    pub marker: Marker,
    pub thief: Thief,
    pub dealt: Dealt,
}

impl Marking {
    /// Passes the gate, and then takes chunks out of the pool and scans their objects until the pool is empty.
    fn run<G: Gate>(&mut self, shared: &Shared, pool: &Pool, gate: &G)
        requires may { MayMark shared.now pool.now self.old }
        ensures marked { HasMarked shared.now pool.now self.old self.new }
    {
        gate.pass(self.session.number(), 0);
        self.dealt = self
            .marker
            .steal_run(shared, &mut self.session, pool, &mut self.thief);
    }
}

/// Deals objects of the hands, at most 16384, out to so many markers, from 1 to 4, with the numbers from 8 on: the objects in
/// chunks of a pool, and a session, a stack and a thief to each marker. It refuses only where an allocation fails; what was made
/// is then dropped.
pub(crate) fn make_markings(
    alloc: Global,
    shared: &Shared,
    first: &mut Session,
    owed: &[u32],
    count: u32,
) -> Result<(Pool, Vec<Marking>), OutOfMemory>
    requires caller { IsOf shared.now first.old }
    requires count { (1 ≤ count) × (count ≤ 4) }
    requires numbers { ((n : ℕ) → 8 ≤ n → n < 12 → HasNumber (view first.old) n) × ((view first.old).number ≡ 12) }
    requires owed { AreIn owed.now (view first.old).hands }
    requires few { length owed.now ≤ 16384 }
    ensures caller { IfOk result (λ r. IsOf shared.now first.new) }
    ensures dealt { IfOk result (λ r. DealtOut (view first.old) owed.now count (view first.new)) }
    ensures ready { IfOk result (λ r. AreReady shared.now r.0 owed.now count r.1.items) }
    ensures given { IfOk result (λ r. (i : ℕ) (d : Marking) → i < count → IsGiven (view first.old) (8 + i) (view (slice_index_or r.1.items i d).session)) }
{
    let Ok(chunks) = cut_chunks(alloc, shared, first, owed) else {
        return Err(OutOfMemory);
    };
    let (pool, thieves) = Pool::new(alloc, chunks, count)?;
    let markings = split_markings(alloc, shared, first, thieves)?;
    Ok((pool, markings))
}

/// A marker for each thief, at most 4, with the numbers from 8 on.
fn split_markings(
    alloc: Global,
    shared: &Shared,
    first: &mut Session,
    thieves: Vec<Thief>,
) -> Result<Vec<Marking>, OutOfMemory>
    requires caller { IsOf shared.now first.old }
    requires few { length thieves.items ≤ 4 }
    requires numbers { ((n : ℕ) → 8 ≤ n → n < 12 → HasNumber (view first.old) n) × ((view first.old).number ≡ 12) }
    ensures caller { IfOk result (λ markings. IsOf shared.now first.new) }
    ensures gave { IfOk result (λ markings. GaveOut (view first.old) 8 (length thieves.items) (view first.new)) }
    ensures thieves { IfOk result (λ markings. map (λ (m : Marking). m.thief) markings.items ≡ thieves.items) }
    ensures made { IfOk result (λ markings. All (λ (m : Marking). IsOf shared.now m.session × (m.marker ≡ shared.now.objects)) markings.items) }
    ensures given { IfOk result (λ markings. (i : ℕ) (d : Marking) → i < length thieves.items → IsGiven (view first.old) (8 + i) (view (slice_index_or markings.items i d).session)) }
{
    let Ok(mut markings) = Vec::with_capacity(alloc, thieves.len()) else {
        return Err(OutOfMemory);
    };
    let mut number = FIRST;
    for thief in thieves {
        let marker = Marker::new(alloc, shared.objects)?;
        let session = first.split(shared, number, &[]);
        let dealt = Dealt {
            chunks: 0,
            scans: 0,
        };
        markings.push_reserved(Marking {
            session,
            marker,
            thief,
            dealt,
        });
        number += 1;
    }
    Ok(markings)
}

/// Runs all markers, each on a thread of its own.
pub(crate) fn run_markers<R: Threads + Sync, G: Gate>(
    rt: &R,
    shared: &Shared,
    pool: &Pool,
    gate: &G,
    markings: &mut [Marking],
)
    requires may { All (MayMark shared.now pool.now) markings.old }
    ensures lists { length markings.new ≡ length markings.old }
    ensures marked { (i : ℕ) (d : Marking) → i < length markings.old → HasMarked shared.now pool.now (slice_index_or markings.old i d) (slice_index_or markings.new i d) }
{
    for_each_mut(
        rt,
        markings,
        MOST,
        &|_, marking: &mut Marking|
            requires { MayMark shared.now pool.now marking.old }
            ensures { HasMarked shared.entry.now pool.entry.now marking.old marking.new }
        { marking.run(shared, pool, gate) },
    );
}

/// Takes the sessions of markers in, in order, and their thieves together. The answer is the number of their scans.
pub(crate) fn join_markings(
    shared: &Shared,
    pool: &Pool,
    first: &mut Session,
    mut markings: Vec<Marking>,
) -> u32
    requires caller { IsOf shared.now first.old }
    requires ended { All (HasEnded shared.now pool.now) markings.items }
    requires few { length markings.items ≤ 4 }
    ensures caller { IsOf shared.now first.new }
    ensures took { TookIn (view first.old) (map (λ (m : Marking). view m.session) markings.items) (view first.new) }
    ensures scans { result ≡ total (λ (m : Marking). m.dealt.scans) markings.items }

    // Where they are all thieves of a pool, each of its chunks was taken once.
    ensures once { (chunks : List Chunk) → HaveEnded chunks markings.items → EachOnce chunks markings.items }
{
    let Some(last) = markings.pop() else {
        return 0;
    };
    let Marking {
        session,
        marker: _,
        mut thief,
        dealt,
    } = last;
    let scans = join_before(shared, pool, first, &mut thief, markings);
    first.join(shared, session);
    scans + dealt.scans
}

/// Takes the sessions of markers in, in order, and their thieves into one of the same pool. The answer is the number of their scans.
fn join_before(
    shared: &Shared,
    pool: &Pool,
    first: &mut Session,
    thief: &mut Thief,
    markings: Vec<Marking>,
) -> u32
    requires caller { IsOf shared.now first.old }
    requires thief { IsThiefOf pool.now thief.old }
    requires ended { All (HasEnded shared.now pool.now) markings.items }
    requires few { length markings.items ≤ 3 }
    ensures caller { IsOf shared.now first.new }
    ensures thief { IsThiefOf pool.now thief.new }
    ensures took { TookIn (view first.old) (map (λ (m : Marking). view m.session) markings.items) (view first.new) }
    ensures joined { claims_of thief.new ≡ all_joined (claims_of thief.old) (map (λ (m : Marking). claims_of m.thief) markings.items) }
    ensures scans { result ≡ total (λ (m : Marking). m.dealt.scans) markings.items }
    ensures few { result ≤ 16384 * length markings.items }
{
    let mut scans = 0;
    for marking in markings {
        first.join(shared, marking.session);
        thief.join(pool, marking.thief);
        scans += marking.dealt.scans;
    }
    scans
}
