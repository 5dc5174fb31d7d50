// What happens at a meet: nothing, the start of a cycle, or its finish.
ghost use Rattle.std.specs.Prelude.{◌≡◌, slice_index, IfOk};
ghost use Rattle.plain_table.specs.Words.{phase_place};
ghost use Rattle.mutator_calls.specs.Calls.{IsReady};
ghost use Rattle.phase_run.specs.Meets.{IsMeetAt, MeetsEach, word_after};

use mutator_calls::Mutator;
use plain_table::{Meet, MeetReport, OutOfMemory};
use std::alloc::Global;

/// Does what a meet asks for, and reports it. It refuses only where an allocation fails.
pub fn hold_meet(
    alloc: Global,
    mutator: &mut Mutator,
    meet: Meet,
) -> Result<MeetReport, OutOfMemory>
    requires ready { IsReady mutator.old }
    requires fits { IsMeetAt (slice_index mutator.old.image.words.items phase_place) meet }
    ensures ready { IfOk result (λ report. IsReady mutator.new) }
    ensures shape { IfOk result (λ report. mutator.new.image.shape ≡ mutator.old.image.shape) }
    ensures meets { IfOk result (MeetsEach mutator.old mutator.new meet) }
    ensures word { IfOk result (λ report. slice_index mutator.new.image.words.items phase_place
        ≡ word_after (slice_index mutator.old.image.words.items phase_place) meet) }
{
    match meet {
        Meet::Plain => Ok(MeetReport::Plain),
        Meet::Start { policy } => Ok(MeetReport::Started {
            area: mutator.start(alloc, policy)?,
        }),
        Meet::Finish => Ok(MeetReport::Swept {
            report: mutator.finish(),
        }),
        Meet::End => Ok(MeetReport::Ended),
    }
}
