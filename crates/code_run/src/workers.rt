// What one writer and one reader do.
ghost use Rattle.std.specs.Prelude.{◌≡◌, ◌<◌, ◌≤◌, [], length};
ghost use Rattle.code_steps.specs.Seats.{view, IsOf};
ghost use Rattle.code_run.specs.Runs.{IsFresh};
ghost use Rattle.code_run.specs.Calls.{is_good};
ghost use Rattle.code_run.specs.Workers.{WroteCalls, ReadCalls};

use code_steps::{CodeRead, CodeSeat, CodeTable, Wrote, read, write};

/// The table has this many entries.
pub(crate) const ENTRIES: u32 = 4;
/// The entry number of a code is this much more than its code number.
pub(crate) const ENTRY_BASE: u64 = 1 << 32;

// How many writes were answered so. None is spent in a run.
#[derive(Debug, Clone, Copy, PartialEq, Eq)]
pub(crate) struct WriteCounts {
    pub(crate) done: u32,
    pub(crate) busy: u32,
    pub(crate) spent: u32,
}

// How many reads were answered so, and how many of the pairs had another entry number than their
// code's.
#[derive(Debug, Clone, Copy, PartialEq, Eq)]
pub(crate) struct ReadCounts {
    pub(crate) pairs: u32,
    pub(crate) again: u32,
    pub(crate) bad: u32,
}

// The writes of one writer: call `r` stores code 2r + writer at entry r mod 4.
pub(crate) fn write_calls(
    table: &CodeTable,
    mut seat: CodeSeat,
    writer: u32,
    n: u32,
) -> (CodeSeat, WriteCounts)
    requires caller { IsOf table.now seat }
    requires fresh { IsFresh (view seat) }
    requires n { (writer < 2) × (n ≤ 1000) }
    ensures caller { IsOf table.now result.0 }
    ensures wrote { WroteCalls (view seat) writer n (view result.0) result.1 }
{
    let mut counts = WriteCounts {
        done: 0,
        busy: 0,
        spent: 0,
    };
    for r in 0..n {
        let code = u64::from(2 * r + writer);
        match write(table, &mut seat, r % ENTRIES, code, ENTRY_BASE + code) {
            Wrote::Done { .. } => counts.done += 1,
            Wrote::Busy { .. } => counts.busy += 1,
            Wrote::Spent => counts.spent += 1,
        }
    }
    (seat, counts)
}

// The reads of one reader: call `r` reads entry r mod 4.
pub(crate) fn read_calls(table: &CodeTable, mut seat: CodeSeat, n: u32) -> (CodeSeat, ReadCounts)
    requires caller { IsOf table.now seat }
    requires fresh { IsFresh (view seat) }
    requires n { n ≤ 1000 }
    ensures caller { IsOf table.now result.0 }
    ensures read { ReadCalls (view seat) n (view result.0) result.1 }
{
    let mut counts = ReadCounts {
        pairs: 0,
        again: 0,
        bad: 0,
    };
    for r in 0..n {
        match read(table, &mut seat, r % ENTRIES) {
            CodeRead::Pair { code, entry, .. } => {
                counts.pairs += 1;
                if !is_pair_of_run(code, entry) {
                    counts.bad += 1;
                }
            }
            CodeRead::Again { .. } => counts.again += 1,
        }
    }
    (seat, counts)
}

// Whether these are two numbers of one write.
fn is_pair_of_run(code: u64, entry: u64) -> bool
    ensures { result ≡ is_good (code, entry) }
{
    entry >= ENTRY_BASE && entry - ENTRY_BASE == code
}
