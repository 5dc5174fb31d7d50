// Each call of the outside fails once, at each position of one script and of its report: a read, a write, a sink's room that is
// too small, and an input that is cut off.
use crate::tests::{Setting, check_bytes, plain};
use script_reader::ScriptErr;
use std::process::Abort;
use std::test::Fail;
use std::thread::Threads;
use table_run::Status;

/// A resource under its own tag and under a wrong one.
const SCRIPT: &[u8; 138] =
    b"ept 1 seg=4 ext=1 tru=1 objects=1 mutators=1 markers=0\nm0 new a\nm0 init a 0 0f 0000000000c0\nm0 load a 0 0f\nm0 load a 0 17\nm0 name a 0\nend\n";

const REPORT: &[u8; 94] =
    b"m0 obj 0\nm0 ok\nm0 value 0000000000c0\nm0 fault\nm0 word 00010000\nend live=1 trusted=0 objects=1\n";

/// The header has so many bytes, its end of line among them.
const HEADER: usize = 55;

/// Runs the whole script, and compares the status and how much of the report was written.
fn check_whole<R: AllocGlobal + Abort + Threads + Sync>(
    rt: &R,
    setting: Setting,
    status: Status,
    written: usize,
) -> Result<(), Fail> {
    let script = Vec::from_slice(rt.alloc(), SCRIPT)?;
    check_bytes(rt, setting, script, status, front(REPORT, written))
}

/// Runs the first bytes of the script with room enough, and compares the refusal and its text.
fn check_cut<R: AllocGlobal + Abort + Threads + Sync>(
    rt: &R,
    bytes: usize,
    refusal: ScriptErr,
    text: &str,
) -> Result<(), Fail> {
    let script = Vec::from_slice(rt.alloc(), front(SCRIPT, bytes))?;
    let status = Status::Refused(refusal);
    check_bytes(rt, plain(&["run"]), script, status, text.as_bytes())
}

/// So many of the first bytes; none where there are fewer.
fn front(bytes: &[u8], count: usize) -> &[u8] {
    bytes.get(..count).unwrap_or(&[])
}

/// The number of the line that the last of the bytes stand in, counted from 1.
fn last_line(bytes: &[u8]) -> u32 {
    let mut line = 1u32;
    for byte in bytes {
        if *byte == b'\n' {
            line = line.saturating_add(1);
        }
    }
    line
}

#[test]
fn a_read_that_fails_leaves_nothing_written(rt: HostRuntime) -> Result<(), Fail> {
    // nine reads give pieces of 16 bytes, and the tenth finds the end
    for number in 1..=10 {
        let setting = Setting {
            fail_read: &[number],
            ..plain(&["run"])
        };
        check_whole(&rt, setting, Status::ReadFault, 0)?;
    }
    Ok(())
}

#[test]
fn a_read_after_the_end_is_never_made(rt: HostRuntime) -> Result<(), Fail> {
    let setting = Setting {
        fail_read: &[11],
        ..plain(&["run"])
    };
    check_whole(&rt, setting, Status::Ok, REPORT.len())
}

#[test]
fn pieces_of_one_byte_give_the_whole_report(rt: HostRuntime) -> Result<(), Fail> {
    let setting = Setting {
        piece: 1,
        ..plain(&["run"])
    };
    check_whole(&rt, setting, Status::Ok, REPORT.len())
}

#[test]
fn a_room_that_is_too_small_is_filled_with_the_front_of_the_report(
    rt: HostRuntime,
) -> Result<(), Fail> {
    for room in 0..REPORT.len() {
        let setting = Setting {
            room,
            piece: 7,
            ..plain(&["run"])
        };
        check_whole(&rt, setting, Status::WriteFault, room)?;
    }
    Ok(())
}

#[test]
fn a_room_of_the_report_is_enough(rt: HostRuntime) -> Result<(), Fail> {
    let setting = Setting {
        room: REPORT.len(),
        piece: 7,
        ..plain(&["run"])
    };
    check_whole(&rt, setting, Status::Ok, REPORT.len())
}

#[test]
fn a_write_that_fails_ends_the_report_before_it(rt: HostRuntime) -> Result<(), Fail> {
    for (number, written) in [(1, 0), (2, 16), (3, 32), (4, 48), (5, 64), (6, 80)] {
        let setting = Setting {
            fail_write: &[number],
            ..plain(&["run"])
        };
        check_whole(&rt, setting, Status::WriteFault, written)?;
    }
    Ok(())
}

#[test]
fn an_input_cut_in_its_header_is_a_bad_header(rt: HostRuntime) -> Result<(), Fail> {
    for bytes in 0..HEADER {
        check_cut(&rt, bytes, ScriptErr::BadHeader, "refused: bad header\n")?;
    }
    Ok(())
}

#[test]
fn an_input_cut_after_its_header_is_a_bad_line(rt: HostRuntime) -> Result<(), Fail> {
    for bytes in HEADER..SCRIPT.len() {
        let line = last_line(front(SCRIPT, bytes));
        let text = format!(in rt.alloc(); "line {line}: bad line\n")?;
        check_cut(&rt, bytes, ScriptErr::BadLine { line }, text.as_str())?;
    }
    Ok(())
}

#[test]
fn a_refusal_with_no_room_is_a_write_fault(rt: HostRuntime) -> Result<(), Fail> {
    let setting = Setting {
        room: 5,
        ..plain(&["run"])
    };
    let script = Vec::from_slice(rt.alloc(), front(SCRIPT, 60))?;
    check_bytes(&rt, setting, script, Status::WriteFault, b"line ")
}

#[test]
fn a_soak_whose_write_fails_writes_nothing(rt: HostRuntime) -> Result<(), Fail> {
    let setting = Setting {
        fail_write: &[1],
        ..plain(&["soak", "0"])
    };
    check_bytes(&rt, setting, Vec::new(rt.alloc()), Status::WriteFault, b"")
}
