// The calls and scans of a phase: an image is taken out of its mutator, the phase runs on it, and it is put in again.
ghost use Rattle.std.specs.Prelude.{◌≡◌, ◌≤◌, length, take, slice_index, IfOk};
ghost use Rattle.plain_table.specs.Table.{opening};
ghost use Rattle.plain_table.specs.Words.{phase_place};
ghost use Rattle.entry_word.specs.Image.{sizes_of};
ghost use Rattle.mutator_calls.specs.Calls.{IsReady};
ghost use Rattle.phases.specs.Phases.{CanRun};
ghost use Rattle.phase_run.specs.Run.{WorksEach};

use entry_base::area_start;
use mutator_calls::Mutator;
use phase_calls::Gate;
use phases::{PhaseOut, run_phase};
use plain_table::{Limits, OutOfMemory, Phase, Reply};
use sqlite_items::Items;
use std::alloc::Global;
use std::thread::Threads;

/// What the calls and scans of a phase leave.
#[derive(Drop)]
pub struct Worked {
    pub mutator: Mutator,
    /// The replies of each mutator to its calls, in order.
    pub replies: Items<Items<Reply>>,
}

/// Makes the calls of a phase, with the scans of a cycle concurrently. It refuses only where an allocation fails.
pub fn work<R: Threads + Sync, G: Gate>(
    rt: &R,
    alloc: Global,
    limits: &Limits,
    phase: &Phase,
    mutator: Mutator,
    gate: &G,
) -> Result<Worked, OutOfMemory>
    requires ready { IsReady mutator }
    requires sizes { sizes_of mutator.image.shape ≡ (opening limits.now).sizes }
    requires calls { CanRun limits.now phase.now.calls }
    ensures ready { IfOk result (λ worked. IsReady worked.mutator) }
    ensures sizes { IfOk result (λ worked. sizes_of worked.mutator.image.shape ≡ (opening limits.now).sizes) }
    ensures works { IfOk result (λ worked. WorksEach limits.now mutator worked.mutator phase.now worked.replies) }
    ensures word { IfOk result (λ worked. slice_index worked.mutator.image.words.items phase_place
        ≡ slice_index mutator.image.words.items phase_place) }
{
    let Mutator {
        image,
        list,
        owed,
        area,
    } = mutator;
    let mut list = list;
    let start = area_start(&image);
    let out = run_phase(rt, alloc, limits, phase, image, &list[..owed], start, gate)?;
    let PhaseOut {
        image,
        replies,
        shaded,
        ..
    } = out;
    list_first(&mut list, &shaded);
    Ok(Worked {
        mutator: Mutator {
            image,
            list,
            owed: shaded.len(),
            area,
        },
        replies,
    })
}

/// The list begins with these objects.
fn list_first(list: &mut [u32], objects: &[u32])
    requires { length objects.now ≤ length list.old }
    ensures long { length list.new ≡ length list.old }
    ensures first { take (length objects.now) list.new ≡ objects.now }
{
    list[..objects.len()].copy_from_slice(objects);
}
