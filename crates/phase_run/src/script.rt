// The run of a script: its phases in turn, each with its meet, and the totals after them.
ghost use Rattle.std.specs.Prelude.{◌≡◌, ◌≤◌, slice_index, IfOk};
ghost use Rattle.plain_table.specs.Table.{opening};
ghost use Rattle.plain_table.specs.Words.{phase_place};
ghost use Rattle.script_reader.specs.Lines.{most_operations};
ghost use Rattle.script_reader.specs.Valid.{IsValidLimits, IsValidScript, lists_length};
ghost use Rattle.entry_word.specs.Image.{IsValidShape, sizes_of};
ghost use Rattle.mutator_calls.specs.Calls.{IsReady};
ghost use Rattle.phases.specs.Phases.{CanRun};
ghost use Rattle.phase_run.specs.Meets.{IsMeetAt, word_after};
ghost use Rattle.phase_run.specs.Run.{Answers, RunsEach};

use crate::meets::hold_meet;
use crate::puts::count_all_puts;
use crate::work::work;
use entry_word::Shape;
use mutator_calls::Mutator;
use phase_calls::Gate;
use plain_table::{Limits, OutOfMemory, Outcome, Phase, PhaseReport, Script};
use sqlite_items::Items;
use std::alloc::Global;
use std::thread::Threads;

/// What a phase with its meet leaves.
#[derive(Drop)]
struct PhaseRun {
    mutator: Mutator,
    report: PhaseReport,
    /// How many external cells the calls of the phase put.
    puts: u32,
}

/// Runs a valid script on threads, and answers its outcome. Each mutator makes its calls on a thread of its own, and in a cycle
/// each marker scans on one, concurrently with them. The gate is passed as `run_phase` says. It refuses only where an allocation
/// fails.
pub fn run_script<R: Threads + Sync, G: Gate>(
    rt: &R,
    alloc: Global,
    script: &Script,
    gate: &G,
) -> Result<Outcome, OutOfMemory>
    requires valid { IsValidScript script.now }
    ensures answers { IfOk result (Answers script.now) }
{
    let mut mutator = Mutator::fresh(alloc, shape_of(&script.limits))?;
    let phases = script.phases.as_slice();
    let mut reports = Items::new(alloc);
    let mut puts = 0;
    for phase in phases {
        let ran = run_and_meet(rt, alloc, &script.limits, phase, mutator, gate)?;
        mutator = ran.mutator;
        puts += ran.puts;
        let Ok(()) = reports.push(ran.report) else {
            return Err(OutOfMemory);
        };
    }
    let totals = mutator.totals();
    Ok(Outcome {
        phases: reports,
        live: totals.live,
        trusted: totals.trusted,
        objects: totals.objects,
        sum: totals.sum,
        puts,
    })
}

/// The sizes of a table with these limits.
fn shape_of(limits: &Limits) -> Shape
    requires { IsValidLimits limits.now }
    ensures valid { IsValidShape result }
    ensures sizes { sizes_of result ≡ (opening limits.now).sizes }
{
    Shape {
        seg: limits.seg,
        ext: limits.ext,
        tru: limits.tru,
        objects: limits.objects,
    }
}

/// Runs a phase, and then does what its meet asks for.
fn run_and_meet<R: Threads + Sync, G: Gate>(
    rt: &R,
    alloc: Global,
    limits: &Limits,
    phase: &Phase,
    mutator: Mutator,
    gate: &G,
) -> Result<PhaseRun, OutOfMemory>
    requires ready { IsReady mutator }
    requires sizes { sizes_of mutator.image.shape ≡ (opening limits.now).sizes }
    requires calls { CanRun limits.now phase.now.calls }
    requires few { lists_length phase.now.calls ≤ most_operations }
    requires meet { IsMeetAt (slice_index mutator.image.words.items phase_place) phase.now.meet }
    ensures ready { IfOk result (λ ran. IsReady ran.mutator) }
    ensures sizes { IfOk result (λ ran. sizes_of ran.mutator.image.shape ≡ (opening limits.now).sizes) }
    ensures runs { IfOk result (λ ran. RunsEach limits.now mutator ran.mutator phase.now ran.report ran.puts) }
    ensures few { IfOk result (λ ran. ran.puts ≤ lists_length phase.now.calls) }
    ensures word { IfOk result (λ ran. slice_index ran.mutator.image.words.items phase_place
        ≡ word_after (slice_index mutator.image.words.items phase_place) phase.now.meet) }
{
    let worked = work(rt, alloc, limits, phase, mutator, gate)?;
    let puts = count_all_puts(phase.calls.as_slice(), worked.replies.as_slice());
    let mut mutator = worked.mutator;
    let meet = hold_meet(alloc, &mut mutator, phase.meet)?;
    Ok(PhaseRun {
        mutator,
        report: PhaseReport {
            replies: worked.replies,
            meet,
        },
        puts,
    })
}
