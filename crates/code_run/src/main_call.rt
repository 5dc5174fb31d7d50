// The top call: its one argument, the run, and the line that it writes.
ghost use Rattle.std.specs.Prelude.{◌≡◌, ◌≢◌, ℕ, ◌+◌, ◌*◌, ◌^◌, ◌<◌, ◌≤◌, [], length, map, string_bytes, take, vec_capacity, IfSome, IfNone};
ghost use Rattle.code_steps.specs.Seats.{view, IsOf};
ghost use Rattle.ept_io.specs.Bytes.{Took};
ghost use Rattle.ept_io.specs.Faults.{Rose};
ghost use Rattle.code_run.specs.Runs.{IsOpen, Ran};
ghost use Rattle.code_run.specs.Answers.{IsCallsWord, line, line_of, status_code};

use crate::run::{CodeReport, run_codes};
use code_steps::{CodeSeat, CodeTable};
use ept_io::{Failed, Sink, write_all};
use itoa::Buffer;
use std::alloc::Global;
use std::thread::Threads;

/// How a run ended. The cause of each answer is a clause of `code_main`.
#[derive(Debug, Clone, Copy, PartialEq, Eq)]
pub enum CodeStatus {
    /// The line was written.
    Ok,
    /// The words are not one number from 1 to 1,000.
    Usage,
    /// A write failed.
    WriteFault,
    /// There was no memory.
    OutOfMemory,
}

impl CodeStatus {
    /// The exit status: 0, 2, 5 or 6, in the order of the variants.
    pub fn code(&self) -> u8
        ensures { result ≡ status_code self.now }
    {
        match self {
            CodeStatus::Ok => 0,
            CodeStatus::Usage => 2,
            CodeStatus::WriteFault => 5,
            CodeStatus::OutOfMemory => 6,
        }
    }
}

/// Room for the line, whose two numbers have at most ten digits each.
const LINE_ROOM: usize = 64;

/// Makes a run of `n` calls in each of four threads, where the words are the one number `n` from 1
/// to 1,000 without leading zeros, and writes the line of its counts. The table and the seat are as
/// `run_codes` asks. A sink with room for the line gets it whole.
pub fn code_main<R: Threads + Sync, K: Sink>(
    rt: &R,
    alloc: Global,
    args: &[String],
    out: &mut K,
    table: &CodeTable,
    s: &mut CodeSeat,
) -> CodeStatus
    requires caller { IsOf table.now s.old }
    requires open { IsOpen (view s.old) }
    ensures caller { IsOf table.now s.new }
    // The words.
    ensures usage { (result ≡ CodeStatus.Usage → (n : ℕ) → ¬ IsCallsWord (map string_bytes args.now) n)
        × ((¬ (result ≡ CodeStatus.Usage)) → (n : ℕ) × IsCallsWord (map string_bytes args.now) n) }
    // The whole line, or a front part of it, and the run that it tells of.
    ensures ok { result ≡ CodeStatus.Ok → (n : ℕ) × (report : CodeReport) × IsCallsWord (map string_bytes args.now) n
        × Ran (view s.old) n report (view s.new) × Took (K.written out.old) (line_of report) (K.written out.new) }
    ensures write_fault { result ≡ CodeStatus.WriteFault → (n : ℕ) × (report : CodeReport) × IsCallsWord (map string_bytes args.now) n
        × Ran (view s.old) n report (view s.new)
        × ((k : ℕ) × (k < length (line_of report)) × Took (K.written out.old) (take k (line_of report)) (K.written out.new)) }
    ensures fault_cause { result ≡ CodeStatus.WriteFault → Rose (K.faults out.old) (K.faults out.new) }
    // A sink with room for the line of 4n calls, of which none is bad, has no fault.
    ensures room { (n : ℕ) → IsCallsWord (map string_bytes args.now) n → (room : ℕ) → K.has_room out.old room →
        length (line (4 * n) 0) ≤ room → (result ≢ CodeStatus.WriteFault) × (K.faults out.new ≡ K.faults out.old) }
    // Nothing was run or written.
    ensures unused { (result ≡ CodeStatus.Usage → (view s.new ≡ view s.old) × (K.written out.new ≡ K.written out.old))
        × (result ≡ CodeStatus.OutOfMemory → (view s.new ≡ view s.old) × (K.written out.new ≡ K.written out.old)) }
{
    let Some(n) = calls_of(args) else {
        return CodeStatus::Usage;
    };
    let Ok(room) = Vec::with_capacity(alloc, LINE_ROOM) else {
        return CodeStatus::OutOfMemory;
    };
    let report = run_codes(rt, table, s, n);
    let line = print_line(room, report);
    match write_all(out, line.as_slice()) {
        Ok(()) => CodeStatus::Ok,
        Err(Failed) => CodeStatus::WriteFault,
    }
}

// The number that the words are.
fn calls_of(args: &[String]) -> Option<u32>
    ensures some { IfSome result (λ n. IsCallsWord (map string_bytes args.now) n) }
    ensures none { IfNone result ((n : ℕ) → ¬ IsCallsWord (map string_bytes args.now) n) }
{
    if args.len() != 1 {
        return None;
    }
    let word = args[0].as_str();
    let Ok(n) = word.parse::<u32>() else {
        return None;
    };
    if n == 0 || n > 1000 {
        return None;
    }
    let mut digits = Buffer::new();
    if digits.format(n) == word {
        Some(n)
    } else {
        None
    }
}

// The line of the counts.
fn print_line(mut line: Vec<u8>, report: CodeReport) -> Vec<u8>
    requires room { (line.items ≡ []) × (vec_capacity line ≡ 64) }
    requires sum { (report.done + report.busy) + (report.pairs + report.again) < 2 ^ 32 }
    ensures { result.items ≡ line_of report }
{
    let mut digits = Buffer::new();
    let calls = (report.done + report.busy) + (report.pairs + report.again);
    line.extend_from_slice(b"code calls=").unwrap();
    line.extend_from_slice(digits.format(calls).as_bytes())
        .unwrap();
    line.extend_from_slice(b" bad=").unwrap();
    line.extend_from_slice(digits.format(report.bad).as_bytes())
        .unwrap();
    line.extend_from_slice(b"\n").unwrap();
    line
}
