// Runs of scripts from text: the report by the top call, and by the run of a script with a gate.
use crate::gates::Slow;
use ept_io::{MemorySink, MemorySource};
use phase_calls::{Gate, Open};
use phase_run::run_script;
use report_text::text;
use script_reader::parse;
use std::process::Abort;
use std::test::Fail;
use std::thread::Threads;
use table_run::{Status, run_main};

/// The room of a sink that takes every report of these tests, and the most bytes of a piece.
const ROOM: usize = 8192;

/// The script of a header, which ends where the number of markers stands, of this number, and of the lines after it.
pub(crate) fn with_markers<R: AllocGlobal>(
    rt: &R,
    header: &str,
    markers: &str,
    lines: &str,
) -> Result<String, Fail> {
    let mut script = String::from_str(rt.alloc(), header)?;
    script.push_str(markers)?;
    script.push_str("\n")?;
    script.push_str(lines)?;
    Ok(script)
}

/// The report of a script by the top call.
fn printed<R: AllocGlobal + Abort + Threads + Sync>(rt: &R, script: &str) -> Result<String, Fail> {
    let alloc = rt.alloc();
    let words = vec![in alloc; String::from_str(alloc, "run")?]?;
    let bytes = Vec::from_slice(alloc, script.as_bytes())?;
    let mut source = MemorySource::new(bytes, ROOM, Vec::new(alloc));
    let mut sink = MemorySink::new(alloc, ROOM, ROOM, Vec::new(alloc))?;
    let status = run_main(rt, alloc, words.as_slice(), &mut source, &mut sink);
    assert_eq!(rt; status, Status::Ok);
    Ok(String::from_str(alloc, str::from_utf8(sink.bytes())?)?)
}

/// The report of a script by its run with a gate.
pub(crate) fn reported<R: AllocGlobal + Threads + Sync, G: Gate>(
    rt: &R,
    script: &str,
    gate: &G,
) -> Result<String, Fail> {
    let script = parse(rt.alloc(), script.as_bytes())?;
    let outcome = run_script(rt, rt.alloc(), &script, gate)?;
    Ok(text(rt.alloc(), &outcome)?)
}

/// The report begins with `common`, and goes on with one of the endings.
fn assert_one_of(rt: &impl Abort, report: &str, common: &str, endings: &[&str]) {
    let is_one = match report.strip_prefix(common) {
        Some(rest) => endings.contains(&rest),
        None => false,
    };
    assert!(rt; is_one, "another report:\n{report}");
}

/// A script whose report, by both calls, begins with `common`, and goes on with one of the endings, also where the mutators 0 and 1
/// and the marker 8 are slow in turn.
pub(crate) fn gives_one_of<R: AllocGlobal + Abort + Threads + Sync>(
    rt: &R,
    script: &str,
    common: &str,
    endings: &[&str],
) -> Result<(), Fail> {
    let report = reported(rt, script, &Open)?;
    assert_one_of(rt, report.as_str(), common, endings);
    for number in [0, 1, 8] {
        let report = reported(rt, script, &Slow { number })?;
        assert_one_of(rt, report.as_str(), common, endings);
    }
    let report = printed(rt, script)?;
    assert_one_of(rt, report.as_str(), common, endings);
    Ok(())
}

/// A script that has this report by both calls.
pub(crate) fn gives<R: AllocGlobal + Abort + Threads + Sync>(
    rt: &R,
    script: &str,
    report: &str,
) -> Result<(), Fail> {
    gives_one_of(rt, script, report, &[""])
}

/// A script that has this report by both calls with each of four numbers of markers.
pub(crate) fn gives_with_any_markers<R: AllocGlobal + Abort + Threads + Sync>(
    rt: &R,
    header: &str,
    lines: &str,
    report: &str,
) -> Result<(), Fail> {
    for markers in ["0", "1", "2", "4"] {
        let script = with_markers(rt, header, markers, lines)?;
        gives(rt, script.as_str(), report)?;
    }
    Ok(())
}
