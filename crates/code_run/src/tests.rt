ghost use Rattle.std.specs.Prelude.{◌<◌, length};
ghost use Rattle.code_steps.specs.Seats.{view, IsOf};

use crate::asserts::assert_is;
use crate::{CodeStatus, code_main, open_table, run_codes};
use code_steps::{CodeRead, CodeSeat, CodeTable, read, write};
use ept_io::MemorySink;
use std::test::Fail;
use std::thread::join;

/// The room of a sink that takes each line of these tests.
const ROOM: usize = 64;

/// So many runs are made, at most, until a call meets a write that is under way.
const MOST_RUNS: u32 = 1_000;

#[test]
fn a_thousand_calls_of_each(rt: HostRuntime) -> Result<(), Fail> {
    let (table, mut seat) = open_table(rt.alloc())?;
    let report = run_codes(&rt, &table, &mut seat, 1000);
    let calls = (report.done + report.busy, report.pairs + report.again);
    // A write is busy only where another has claimed.
    assert_is(
        &rt,
        (report.done >= 1, calls, report.bad),
        (true, (2000, 2000), 0),
    );
    Ok(())
}

#[test]
fn the_workers_of_a_run_meet(rt: HostRuntime) -> Result<(), Fail> {
    let mut met = false;
    for _ in 0..MOST_RUNS {
        let (table, mut seat) = open_table(rt.alloc())?;
        let report = run_codes(&rt, &table, &mut seat, 1000);
        if report.busy + report.again > 0 {
            met = true;
            break;
        }
    }
    // A call of a run met a write that was under way.
    assert_is(&rt, met, true);
    Ok(())
}

// Whether a reader met a writer within so many reads: the answer was to read again, or it saw a pair
// that is not the opening one.
fn watch(table: &CodeTable, mut seat: CodeSeat, reads: u32) -> bool
    requires caller { IsOf table.now seat }
    requires entries { 0 < length (view seat).seen }
{
    for _ in 0..reads {
        match read(table, &mut seat, 0) {
            CodeRead::Pair { seq: 0, .. } => {}
            _ => return true,
        }
    }
    false
}

#[test]
fn readers_see_writers_at_work(rt: HostRuntime) -> Result<(), Fail> {
    let (table, mut seat) = open_table(rt.alloc())?;
    let other = seat.split(&table);
    let shared = &table;
    let (seen, _) = join(
        &rt,
        || watch(shared, other, u32::MAX),
        || write(shared, &mut seat, 0, 1, (1 << 32) + 1),
    );
    // The threads met.
    assert_is(&rt, seen, true);
    Ok(())
}

#[test]
fn words_and_lines(rt: HostRuntime) -> Result<(), Fail> {
    for (words, fail_at, status, line) in [
        (
            ["3"].as_slice(),
            [].as_slice(),
            CodeStatus::Ok,
            "code calls=12 bad=0\n",
        ),
        (
            ["1000"].as_slice(),
            [].as_slice(),
            CodeStatus::Ok,
            "code calls=4000 bad=0\n",
        ),
        (
            ["1"].as_slice(),
            [2].as_slice(),
            CodeStatus::WriteFault,
            "code calls=4 bad",
        ),
        ([].as_slice(), [].as_slice(), CodeStatus::Usage, ""),
        (["0"].as_slice(), [].as_slice(), CodeStatus::Usage, ""),
        (["1001"].as_slice(), [].as_slice(), CodeStatus::Usage, ""),
        (["01"].as_slice(), [].as_slice(), CodeStatus::Usage, ""),
        (["+1"].as_slice(), [].as_slice(), CodeStatus::Usage, ""),
        (["1", "1"].as_slice(), [].as_slice(), CodeStatus::Usage, ""),
    ] {
        let mut args = Vec::new(rt.alloc());
        for word in words {
            args.push(String::from_str(rt.alloc(), word)?)?;
        }
        let fail_at = Vec::from_slice(rt.alloc(), fail_at)?;
        let mut sink = MemorySink::new(rt.alloc(), ROOM, 16, fail_at)?;
        let (table, mut seat) = open_table(rt.alloc())?;
        let answer = code_main(
            &rt,
            rt.alloc(),
            args.as_slice(),
            &mut sink,
            &table,
            &mut seat,
        );
        assert_is(&rt, (answer, sink.bytes()), (status, line.as_bytes()));
    }
    Ok(())
}
