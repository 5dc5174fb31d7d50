// The work of a phase: the mutators' calls and, in a cycle, the markers' scans, at once.
ghost use Rattle.std.specs.Prelude.{◌≡◌, ◌≤◌, ◌<◌, ℕ, [], IfOk, length, slice_index_or, vec_capacity};
ghost use Rattle.std.specs.List.{All};
ghost use Rattle.std.specs.Thread.{IsSync};
ghost use Rattle.entry_base.specs.Hands.{grey};
ghost use Rattle.entry_base.specs.Lists.{count_in};
ghost use Rattle.entry_base.specs.Openings.{IsOpenable, sizes_in};
ghost use Rattle.entry_base.specs.Sessions.{opened_with, view, IsOf};
ghost use Rattle.entry_base.specs.Views.{first_view};
ghost use Rattle.phases.specs.declared.markers.Marking.{Marking};
ghost use Rattle.phases.specs.declared.mutators.Worker.{Worker};
ghost use Rattle.phases.specs.Markings.{HasMarked, MayMark};
ghost use Rattle.phases.specs.Phases.{CanRun};
ghost use Rattle.phases.specs.Sessions.{GaveOut, IsGiven};
ghost use Rattle.phases.specs.Workers.{HaveAllCalled, MayAllCall, Worked, WorkedAlone, WorkedMarking};

use crate::markers::{Marking, join_markings, make_markings, run_markers};
use crate::mutators::{Worker, join_workers, run_workers};
use chunk_pool::Pool;
use entry_base::{Session, Shared};
use phase_calls::Gate;
use plain_table::{Limits, Op, OutOfMemory, Reply};
use sqlite_items::Items;
use std::alloc::Global;
use std::thread::{Threads, join_mut};

/// Makes the calls of all mutators and, in a cycle, lets the markers of `limits` scan the objects of `owed` and what these shade
/// concurrently with them; then takes all in, in order, and lists the replies. The answer is the number of scans. It refuses only
/// where an allocation fails, and no call was made then.
pub(crate) fn work<R: Threads + Sync, G: Gate>(
    rt: &R,
    alloc: Global,
    shared: &Shared,
    first: &mut Session,
    limits: &Limits,
    calls: &[Items<Op>],
    owed: &[u32],
    workers: Vec<Worker>,
    replies: &mut Vec<Items<Reply>>,
    gate: &G,
) -> Result<u32, OutOfMemory>
    requires caller { IsOf shared.now first.old }
    requires openable { IsOpenable (opened_with shared.now) }
    requires can { CanRun limits.now calls.now }
    requires gave { GaveOut (first_view (opened_with shared.now)) 0 (length calls.now) (view first.old) }
    requires may { MayAllCall shared.now calls.now workers.items }
    requires given { (i : ℕ) (d : Worker) → i < length calls.now →
        IsGiven (first_view (opened_with shared.now)) i (view (slice_index_or workers.items i d).session) }
    requires owed { (o : ℕ) → count_in o owed.now ≡ grey (sizes_in (opened_with shared.now)) (opened_with shared.now).words o }
    requires room { (replies.old.items ≡ []) × (length workers.items ≤ vec_capacity replies.old) }
    ensures caller { IfOk result (λ scans. IsOf shared.now first.new) }
    ensures worked { IfOk result (λ scans. Worked limits.now (opened_with shared.now) calls.now owed.now replies.new.items scans (view first.new)) }
{
    if first.in_cycle() && limits.markers > 0 {
        let (pool, markings) = make_markings(alloc, shared, first, owed, limits.markers)?;
        let scans = work_marking(
            rt, shared, first, calls, workers, &pool, markings, replies, gate,
        );
        Ok(scans)
    } else {
        work_alone(rt, shared, first, calls, workers, replies, gate);
        Ok(0)
    }
}

/// Lets the mutators work alone.
fn work_alone<R: Threads + Sync, G: Gate>(
    rt: &R,
    shared: &Shared,
    first: &mut Session,
    calls: &[Items<Op>],
    mut workers: Vec<Worker>,
    replies: &mut Vec<Items<Reply>>,
    gate: &G,
)
    requires caller { IsOf shared.now first.old }
    requires may { MayAllCall shared.now calls.now workers.items }
    requires room { (replies.old.items ≡ []) × (length workers.items ≤ vec_capacity replies.old) }
    ensures caller { IsOf shared.now first.new }
    ensures worked { WorkedAlone shared.now calls.now workers.items replies.new.items (view first.old) (view first.new) }
{
    run_workers(rt, shared, calls, gate, workers.as_mut_slice());
    join_workers(shared, first, workers, replies);
}

/// Lets mutators and markers work at once. The answer is the number of scans.
fn work_marking<R: Threads + Sync, G: Gate>(
    rt: &R,
    shared: &Shared,
    first: &mut Session,
    calls: &[Items<Op>],
    mut workers: Vec<Worker>,
    pool: &Pool,
    mut markings: Vec<Marking>,
    replies: &mut Vec<Items<Reply>>,
    gate: &G,
) -> u32
    requires caller { IsOf shared.now first.old }
    requires may { MayAllCall shared.now calls.now workers.items }
    requires marking { All (MayMark shared.now pool.now) markings.items }
    requires few { length markings.items ≤ 4 }
    requires room { (replies.old.items ≡ []) × (length workers.items ≤ vec_capacity replies.old) }
    ensures caller { IsOf shared.now first.new }
    ensures worked { WorkedMarking shared.now pool.now calls.now workers.items markings.items replies.new.items result (view first.old) (view first.new) }
{
    run_both(
        rt,
        shared,
        calls,
        workers.as_mut_slice(),
        pool,
        markings.as_mut_slice(),
        gate,
    );
    join_workers(shared, first, workers, replies);
    join_markings(shared, pool, first, markings)
}

/// Runs mutators and markers at once, each on a thread of its own.
fn run_both<R: Threads + Sync, G: Gate>(
    rt: &R,
    shared: &Shared,
    calls: &[Items<Op>],
    workers: &mut [Worker],
    pool: &Pool,
    markings: &mut [Marking],
    gate: &G,
)
    requires may { MayAllCall shared.now calls.now workers.old }
    requires marking { All (MayMark shared.now pool.now) markings.old }
    ensures called { HaveAllCalled shared.now calls.now workers.old workers.new }
    ensures lists { length markings.new ≡ length markings.old }
    ensures marked { (i : ℕ) (d : Marking) → i < length markings.old → HasMarked shared.now pool.now (slice_index_or markings.old i d) (slice_index_or markings.new i d) }
{
    join_mut(
        rt,
        &mut ||
            requires { IsSync R.row × IsSync G.row × MayAllCall shared.now calls.now workers.now }
        { run_workers(rt, shared, calls, gate, workers) },
        &mut ||
            requires { IsSync R.row × IsSync G.row × All (MayMark shared.now pool.now) markings.now }
        { run_markers(rt, shared, pool, gate, markings) },
    );
}
