// The run of two writers and two readers.
ghost use Rattle.std.specs.Prelude.{◌≡◌, ◌<◌, ◌≤◌, IfOk};
ghost use Rattle.code_steps.specs.Seats.{view, IsOf};
ghost use Rattle.code_run.specs.Runs.{IsFresh, IsOpen, Ran};
ghost use Rattle.std.specs.Thread.{IsSync};
ghost use Rattle.code_run.specs.Workers.{BothWrote, BothRead};

use crate::workers::{ENTRY_BASE, ReadCounts, WriteCounts, read_calls, write_calls};
use code_steps::{CodeSeat, CodeTable, OutOfMemory};
use std::alloc::Global;
use std::thread::{Threads, join};

// The seats and counts of both writers, and of both readers.
type Writers = ((CodeSeat, WriteCounts), (CodeSeat, WriteCounts));

type Readers = ((CodeSeat, ReadCounts), (CodeSeat, ReadCounts));

/// How the calls of a run were answered: writes done and busy, reads that gave a pair and that
/// said again, and the pairs whose entry number isn't 2^32 plus their code number.
#[derive(Debug, Clone, Copy, PartialEq, Eq)]
pub struct CodeReport {
    pub done: u32,
    pub busy: u32,
    pub pairs: u32,
    pub again: u32,
    pub bad: u32,
}

/// Two writers make `n` writes each and two readers `n` reads each, in four threads; `n` is from 1
/// to 1,000. Call `r` of each goes to entry r mod 4, and writer `w` stores code 2r + w with entry
/// number 2^32 + 2r + w. The table has four entries of the pair 0, 2^32 under sequence 0, in which
/// nothing was stored yet, and the seat all parts (`IsOpen`). `Ran` says what holds after it: how the
/// calls were answered, what they showed and stored, and that the report counts the answers.
pub fn run_codes<R: Threads + Sync>(
    rt: &R,
    table: &CodeTable,
    s: &mut CodeSeat,
    n: u32,
) -> CodeReport
    requires caller { IsOf table.now s.old }
    requires open { IsOpen (view s.old) }
    requires n { (1 ≤ n) × (n ≤ 1000) }
    ensures caller { IsOf table.now s.new }
    ensures ran { Ran (view s.old) n result (view s.new) }
{
    let first = s.split(table);
    let second = s.split(table);
    let third = s.split(table);
    let fourth = s.split(table);
    let ((first, second), (third, fourth)) = run_four(rt, table, first, second, third, fourth, n);
    let (first, wrote_first) = first;
    let (second, wrote_second) = second;
    let (third, read_third) = third;
    let (fourth, read_fourth) = fourth;
    s.join(table, first);
    s.join(table, second);
    s.join(table, third);
    s.join(table, fourth);
    CodeReport {
        done: wrote_first.done + wrote_second.done,
        busy: wrote_first.busy + wrote_second.busy,
        pairs: read_third.pairs + read_fourth.pairs,
        again: read_third.again + read_fourth.again,
        bad: read_third.bad + read_fourth.bad,
    }
}

// The writers and the readers, in threads of their own.
fn run_four<R: Threads + Sync>(
    rt: &R,
    table: &CodeTable,
    first: CodeSeat,
    second: CodeSeat,
    third: CodeSeat,
    fourth: CodeSeat,
    n: u32,
) -> (Writers, Readers)
    requires writers { IsOf table.now first × IsOf table.now second }
    requires readers { IsOf table.now third × IsOf table.now fourth }
    requires fresh_writers { IsFresh (view first) × IsFresh (view second) }
    requires fresh_readers { IsFresh (view third) × IsFresh (view fourth) }
    requires n { n ≤ 1000 }
    ensures wrote { BothWrote table.now (view first) (view second) n result.0 }
    ensures read { BothRead table.now (view third) (view fourth) n result.1 }
{
    join(
        rt,
        || -> Writers
            requires { IsSync R.row × IsOf table.now first × IsOf table.now second × IsFresh (view first) × IsFresh (view second) × (n ≤ 1000) }
            ensures { BothWrote table.entry.now (view first) (view second) n result }
        { write_by_two(rt, table, first, second, n) },
        || -> Readers
            requires { IsSync R.row × IsOf table.now third × IsOf table.now fourth × IsFresh (view third) × IsFresh (view fourth) × (n ≤ 1000) }
            ensures { BothRead table.entry.now (view third) (view fourth) n result }
        { read_by_two(rt, table, third, fourth, n) },
    )
}

// Both writers, in threads of their own.
fn write_by_two<R: Threads + Sync>(
    rt: &R,
    table: &CodeTable,
    first: CodeSeat,
    second: CodeSeat,
    n: u32,
) -> Writers
    requires callers { IsOf table.now first × IsOf table.now second }
    requires fresh { IsFresh (view first) × IsFresh (view second) }
    requires n { n ≤ 1000 }
    ensures { BothWrote table.now (view first) (view second) n result }
{
    join(
        rt,
        || write_calls(table, first, 0, n),
        || write_calls(table, second, 1, n),
    )
}

// Both readers, in threads of their own.
fn read_by_two<R: Threads + Sync>(
    rt: &R,
    table: &CodeTable,
    third: CodeSeat,
    fourth: CodeSeat,
    n: u32,
) -> Readers
    requires callers { IsOf table.now third × IsOf table.now fourth }
    requires fresh { IsFresh (view third) × IsFresh (view fourth) }
    requires n { n ≤ 1000 }
    ensures { BothRead table.now (view third) (view fourth) n result }
{
    join(
        rt,
        || read_calls(table, third, n),
        || read_calls(table, fourth, n),
    )
}

/// The table of a run, four entries of the pair 0, 2^32 under sequence 0, and its first seat. It is
/// refused only for want of memory.
pub fn open_table(alloc: Global) -> Result<(CodeTable, CodeSeat), OutOfMemory>
    ensures seat { IfOk result (λ t. IsOf t.0 t.1) }
    ensures open { IfOk result (λ t. IsOpen (view t.1)) }
{
    let pair = (0, ENTRY_BASE);
    CodeTable::start(alloc, &[pair, pair, pair, pair], 0)
}
