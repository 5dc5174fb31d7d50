// The run of a generated script, and the line that sums it up.
ghost use Rattle.std.specs.Prelude.{◌≡◌, ◌≢◌, ◌⊎◌, ℕ, IfErr, IfOk, string_bytes};
ghost use Rattle.ept_io.specs.Faults.{Rose};
ghost use Rattle.script_reader.specs.Valid.{IsValidScript};
ghost use Rattle.report_text.specs.Report.{soak_line_of};
ghost use Rattle.phase_run.specs.Run.{Answers};
ghost use Rattle.table_run.specs.Top.{EachLineFits, IsLineOf, WroteLine, WrotePartOfLine};

use crate::answers::Status;
use ept_io::{Sink, write_all};
use phase_run::{Open, run_script};
use plain_table::{Outcome, Script};
use report_text::soak_text;
use script_generator::generate;
use script_reader::OutOfMemory;
use std::alloc::Global;
use std::thread::Threads;

/// Runs the generated script of the seed, and writes to `out` the line that sums its outcome up. Takes no memory once it writes.
pub fn soak<R: Threads + Sync, K: Sink>(rt: &R, alloc: Global, seed: u64, out: &mut K) -> Status
    ensures ok { result ≡ Status.Ok → WroteLine seed (K.written out.old) (K.written out.new) }
    ensures answers { (result ≡ Status.Ok) ⊎ (result ≡ Status.WriteFault) ⊎ (result ≡ Status.OutOfMemory) }
    ensures cut_short { result ≡ Status.WriteFault → WrotePartOfLine seed (K.written out.old) (K.written out.new) }
    ensures silent { result ≡ Status.OutOfMemory → K.written out.new ≡ K.written out.old }
    ensures write_fault { result ≡ Status.WriteFault → Rose (K.faults out.old) (K.faults out.new) }
    ensures no_write_fault { result ≢ Status.WriteFault → K.faults out.new ≡ K.faults out.old }
    ensures room { (room : ℕ) → K.has_room out.old room → EachLineFits seed room →
        (result ≢ Status.WriteFault) × (K.faults out.new ≡ K.faults out.old) }
{
    let line = match line_of(rt, alloc, seed) {
        Ok(line) => line,
        Err(OutOfMemory) => return Status::OutOfMemory,
    };
    match write_all(out, line.as_bytes()) {
        Ok(()) => Status::Ok,
        Err(_) => Status::WriteFault,
    }
}

/// The line of an outcome of the generated script of the seed.
fn line_of<R: Threads + Sync>(rt: &R, alloc: Global, seed: u64) -> Result<String, OutOfMemory>
    ensures { IfOk result (λ line. IsLineOf seed (string_bytes line)) }
{
    let script = generate(alloc, seed)?;
    match run_script(rt, alloc, &script, &Open) {
        Ok(outcome) => summary(alloc, &script, &outcome),
        Err(plain_table::OutOfMemory) => Err(OutOfMemory),
    }
}

/// The line that sums up an outcome of the script.
fn summary(alloc: Global, script: &Script, outcome: &Outcome) -> Result<String, OutOfMemory>
    requires valid { IsValidScript script.now }
    requires answers { Answers script.now outcome.now }
    ensures { IfOk result (λ line. string_bytes line ≡ soak_line_of outcome.now) }
{
    soak_text(alloc, outcome)
}
