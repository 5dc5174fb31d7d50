// Whole runs over memory: worked scripts and their reports, and each answer of the top call.
use crate::asserts::assert_is;
use ept_io::{MemorySink, MemorySource};
use script_reader::ScriptErr;
use std::process::Abort;
use std::test::Fail;
use std::thread::Threads;
use table_run::{Status, run_main};

const ONE_OBJECT: &str = "ept 1 seg=4 ext=1 tru=1 objects=1 mutators=1 markers=0\n";

const VERSION_TWO: &str = "ept 2 seg=4 ext=1 tru=1 objects=1 mutators=1 markers=0\n";

const TWO_OBJECTS: &str = "ept 1 seg=4 ext=1 tru=1 objects=2 mutators=1 markers=0\n";

const ONE_CELL: &str = "m0 new a\nm0 init a 0 0f 0000000000c0\n";

const FIRST_PATH: &str =
    "m0 new a\nm0 init a 0 0f 0000000000c0\nm0 load a 0 0f\nm0 load a 0 17\nm0 name a 0\n";

/// The room of a sink that takes every report of these tests.
const ROOM: usize = 4096;

/// How many bytes a read gives and a write takes at most, where a test doesn't say.
const PIECE: usize = 16;

/// What a run is made over: the words, the reads and writes that fail, the room of the sink, and how many bytes a read gives and a
/// write takes at most.
#[derive(Clone, Copy, Debug)]
pub(crate) struct Setting<'a> {
    pub(crate) words: &'a [&'a str],
    pub(crate) fail_read: &'a [u32],
    pub(crate) fail_write: &'a [u32],
    pub(crate) room: usize,
    pub(crate) piece: usize,
}

/// Runs over the joined parts of a script, and compares the status and the written text.
pub(crate) fn check<R: AllocGlobal + Abort + Threads + Sync>(
    rt: &R,
    setting: Setting,
    parts: &[&str],
    status: Status,
    text: &str,
) -> Result<(), Fail> {
    let mut script = Vec::new(rt.alloc());
    for part in parts {
        script.extend_from_slice(part.as_bytes())?;
    }
    check_bytes(rt, setting, script, status, text.as_bytes())
}

/// Runs over the bytes of a script, and compares the status and the written bytes.
pub(crate) fn check_bytes<R: AllocGlobal + Abort + Threads + Sync>(
    rt: &R,
    setting: Setting,
    script: Vec<u8>,
    status: Status,
    text: &[u8],
) -> Result<(), Fail> {
    assert!(rt; setting.piece > 0);
    let alloc = rt.alloc();
    let mut words = Vec::new(alloc);
    for word in setting.words {
        words.push(String::from_str(alloc, word)?)?;
    }
    let bytes = script.len();
    let fail_read = Vec::from_slice(alloc, setting.fail_read)?;
    let fail_write = Vec::from_slice(alloc, setting.fail_write)?;
    let mut source = MemorySource::new(script, setting.piece, fail_read);
    let mut sink = MemorySink::new(alloc, setting.room, setting.piece, fail_write)?;
    let answer = run_main(rt, alloc, words.as_slice(), &mut source, &mut sink);
    assert_eq!(rt;
        (answer, sink.bytes()),
        (status, text),
        "{bytes} bytes over {setting:?}"
    );
    Ok(())
}

/// A run of the words with no fault and room enough.
pub(crate) fn plain<'a>(words: &'a [&'a str]) -> Setting<'a> {
    Setting {
        words,
        fail_read: &[],
        fail_write: &[],
        room: ROOM,
        piece: PIECE,
    }
}

#[test]
fn worked_scripts_give_their_reports(rt: HostRuntime) -> Result<(), Fail> {
    for (header, setting, calls, report) in [
        // an empty run
        (ONE_OBJECT, "", "", "end live=0 trusted=0 objects=0\n"),
        // the first path: a resource under its own tag and under a wrong one
        (
            ONE_OBJECT,
            "",
            FIRST_PATH,
            "m0 obj 0\nm0 ok\nm0 value 0000000000c0\nm0 fault\nm0 word 00010000\nend live=1 trusted=0 objects=1\n",
        ),
        // a repeated init finds its field taken
        (
            ONE_OBJECT,
            ONE_CELL,
            "m0 init a 0 0f 0000000000c1\nm0 load a 0 0f\n",
            "m0 obj 0\nm0 ok\nm0 taken 00010000\nm0 value 0000000000c0\nend live=2 trusted=0 objects=1\n",
        ),
        // the heap is full, and a variable is empty
        (
            ONE_OBJECT,
            "",
            "m0 new a\nm0 new b\nm0 load b 0 0f\n",
            "m0 obj 0\nm0 heapfull\nm0 empty\nend live=0 trusted=0 objects=1\n",
        ),
        // the space is full
        (
            TWO_OBJECTS,
            "",
            "m0 new a\nm0 new b\nm0 init a 0 0f 0000000000c0\nm0 init a 1 0f 0000000000c1\nm0 init b 0 0f 0000000000c2\nm0 init b 1 0f 0000000000c3\n",
            "m0 obj 0\nm0 obj 1\nm0 ok\nm0 ok\nm0 ok\nm0 full\nend live=3 trusted=0 objects=2\n",
        ),
        // words of entry 0 are null
        (
            ONE_OBJECT,
            ONE_CELL,
            "m0 raw 00000000 0f\nm0 raw 0000ffff 0f\n",
            "m0 obj 0\nm0 ok\nm0 null\nm0 null\nend live=1 trusted=0 objects=1\n",
        ),
        // past the limit and free
        (
            ONE_OBJECT,
            ONE_CELL,
            "m0 raw ffffffff 0f\nm0 raw 00020000 0f\n",
            "m0 obj 0\nm0 ok\nm0 fault\nm0 fault\nend live=1 trusted=0 objects=1\n",
        ),
        // the low bits of a word are ignored
        (
            ONE_OBJECT,
            ONE_CELL,
            "m0 raw 0001abcd 0f\n",
            "m0 obj 0\nm0 ok\nm0 value 0000000000c0\nend live=1 trusted=0 objects=1\n",
        ),
        // a wrong tag faults, and changes nothing
        (
            ONE_OBJECT,
            ONE_CELL,
            "m0 store a 0 17 000000000001\nm0 load a 0 0f\nm0 store a 0 0f 0000000000c1\nm0 swap a 0 0f 0000000000c2\nm0 load a 0 0f\n",
            "m0 obj 0\nm0 ok\nm0 fault\nm0 value 0000000000c0\nm0 ok\nm0 value 0000000000c1\nm0 value 0000000000c2\nend live=1 trusted=0 objects=1\n",
        ),
        // a forged field, and stores by word
        (
            ONE_OBJECT,
            ONE_CELL,
            "m0 forge a 0 00010000\nm0 load a 0 0f\nm0 rawset 00010001 0f 0000000000c1\nm0 load a 0 0f\nm0 rawset 00010000 17 0000000000c2\nm0 rawset 00000000 0f 0000000000c2\nm0 swap a 0 17 0000000000c3\nm0 load a 0 0f\n",
            "m0 obj 0\nm0 ok\nm0 ok\nm0 value 0000000000c0\nm0 ok\nm0 value 0000000000c1\nm0 fault\nm0 null\nm0 fault\nm0 value 0000000000c1\nend live=1 trusted=0 objects=1\n",
        ),
        // a range of tags finds each tag in it, and a store keeps the cell's tag
        (
            VERSION_TWO,
            "m0 new a\nm0 init a 0 20 0000000000c0\nm0 load a 0 1f-21\nm0 load a 0 20\nm0 load a 0 21-ff\n",
            "m0 store a 0 01-ff 0000000000c1\nm0 raw 00010000 01-1f\nm0 load a 0 20\nm0 swap a 0 20-21 0000000000c2\nm0 rawset 00010000 10-20 0000000000c3\nm0 load a 0 20\n",
            "m0 obj 0\nm0 ok\nm0 value 0000000000c0\nm0 value 0000000000c0\nm0 fault\nm0 ok\nm0 fault\nm0 value 0000000000c1\nm0 value 0000000000c1\nm0 ok\nm0 value 0000000000c3\nend live=1 trusted=0 objects=1\n",
        ),
        // a forged word keeps its low bits in the name, and an init finds it
        (
            ONE_OBJECT,
            "m0 new a\n",
            "m0 forge a 1 0000ffff\nm0 name a 1\nm0 init a 1 0f 0000000000c0\nm0 load a 1 0f\n",
            "m0 obj 0\nm0 ok\nm0 word 0000ffff\nm0 taken 0000ffff\nm0 null\nend live=1 trusted=0 objects=1\n",
        ),
    ] {
        check(
            &rt,
            plain(&["run"]),
            &[header, setting, calls, "end\n"],
            Status::Ok,
            report,
        )?;
    }
    Ok(())
}

#[test]
fn faults_end_a_run_with_their_statuses(rt: HostRuntime) -> Result<(), Fail> {
    for (fail_read, fail_write, room, status, text) in [
        ([2].as_slice(), [].as_slice(), ROOM, Status::ReadFault, ""),
        (&[], &[], 10, Status::WriteFault, "m0 obj 0\nm"),
        (&[], &[2], ROOM, Status::WriteFault, "m0 obj 0\nm0 ok\nm"),
    ] {
        let setting = Setting {
            fail_read,
            fail_write,
            room,
            ..plain(&["run"])
        };
        check(
            &rt,
            setting,
            &[ONE_OBJECT, FIRST_PATH, "end\n"],
            status,
            text,
        )?;
    }
    Ok(())
}

#[test]
fn other_words_are_a_usage(rt: HostRuntime) -> Result<(), Fail> {
    for words in [[].as_slice(), &["run", "x"], &["Run"], &[""]] {
        check(&rt, plain(words), &[ONE_OBJECT, "end\n"], Status::Usage, "")?;
    }
    Ok(())
}

#[test]
fn a_refused_script_writes_its_refusal_alone(rt: HostRuntime) -> Result<(), Fail> {
    for (header, lines, refusal, text) in [
        ("", "", ScriptErr::BadHeader, "refused: bad header\n"),
        (
            "ept 3 seg=4 ext=1 tru=1 objects=1 mutators=1 markers=0\n",
            "end\n",
            ScriptErr::BadHeader,
            "refused: bad header\n",
        ),
        (
            ONE_OBJECT,
            "m0 init a 0 07 0000000000c0\nend\n",
            ScriptErr::BadTag { line: 2 },
            "line 2: bad tag\n",
        ),
        (
            ONE_OBJECT,
            "m0 init a 0 0f c0\nend\n",
            ScriptErr::BadNumber { line: 2 },
            "line 2: bad number\n",
        ),
        (
            ONE_OBJECT,
            "m0 init a 2 0f 0000000000c0\nend\n",
            ScriptErr::OutOfRange { line: 2 },
            "line 2: out of range\n",
        ),
        (
            ONE_OBJECT,
            "m1 new a\nend\n",
            ScriptErr::OutOfRange { line: 2 },
            "line 2: out of range\n",
        ),
        (
            ONE_OBJECT,
            "m0 new q\nend\n",
            ScriptErr::BadLine { line: 2 },
            "line 2: bad line\n",
        ),
        (
            ONE_OBJECT,
            "start sometimes\nend\n",
            ScriptErr::BadLine { line: 2 },
            "line 2: bad line\n",
        ),
        (
            ONE_OBJECT,
            "finish\nend\n",
            ScriptErr::BadMeet { line: 2 },
            "line 2: bad meet\n",
        ),
        (
            ONE_OBJECT,
            "start never\nend\n",
            ScriptErr::BadMeet { line: 3 },
            "line 3: bad meet\n",
        ),
        (
            ONE_OBJECT,
            "m0 new a\n",
            ScriptErr::BadLine { line: 3 },
            "line 3: bad line\n",
        ),
        (
            ONE_OBJECT,
            "m0 ne",
            ScriptErr::BadLine { line: 2 },
            "line 2: bad line\n",
        ),
        (
            ONE_OBJECT,
            "end\nm0 new a\n",
            ScriptErr::BadLine { line: 3 },
            "line 3: bad line\n",
        ),
    ] {
        let status = Status::Refused(refusal);
        check(&rt, plain(&["run"]), &[header, lines], status, text)?;
    }
    Ok(())
}

#[test]
fn a_range_that_is_none_is_a_bad_tag(rt: HostRuntime) -> Result<(), Fail> {
    for (header, line) in [
        (VERSION_TWO, "m0 load a 0 20-20\n"),
        (VERSION_TWO, "m0 load a 0 21-20\n"),
        (VERSION_TWO, "m0 init a 0 00 0000000000c0\n"),
        (VERSION_TWO, "m0 init a 0 20-21 0000000000c0\n"),
        (ONE_OBJECT, "m0 load a 0 0f-17\n"),
    ] {
        let status = Status::Refused(ScriptErr::BadTag { line: 2 });
        for word in ["run", "check", "upgrade"] {
            check(
                &rt,
                plain(&[word]),
                &[header, line, "end\n"],
                status,
                "line 2: bad tag\n",
            )?;
        }
    }
    Ok(())
}

#[test]
fn check_prints_ranges_as_they_are(rt: HostRuntime) -> Result<(), Fail> {
    let script =
        "ept 2 seg=4 ext=1 tru=1 objects=1 mutators=1 markers=0\nm0 new a\nm0 init a 0 20 0000000000c0\nm0 load a 0 1f-21\nm0 load a 0 20\nm0 load a 0 21-ff\nm0 store a 0 01-ff 0000000000c1\nm0 raw 00010000 01-1f\nm0 load a 0 20\nm0 tnew a ff 0000000000d0\nm0 tpub a\nm0 tload a fe-ff\nend\n";
    check(&rt, plain(&["check"]), &[script], Status::Ok, script)
}

#[test]
fn upgrade_prints_the_script_in_version_two(rt: HostRuntime) -> Result<(), Fail> {
    for header in [ONE_OBJECT, VERSION_TWO] {
        check(
            &rt,
            plain(&["upgrade"]),
            &["# first path\n", header, ONE_CELL, "m0 load a 0 0f\nend\n"],
            Status::Ok,
            "ept 2 seg=4 ext=1 tru=1 objects=1 mutators=1 markers=0\nm0 new a\nm0 init a 0 0f 0000000000c0\nm0 load a 0 0f\nend\n",
        )?;
    }
    Ok(())
}

/// So many loads make a script of more than a megabyte.
const LOADS: usize = 70_000;

/// The line before and after so many lines of one kind.
fn lines<A: AllocGlobal>(rt: &A, first: &str, line: &str, last: &str) -> Result<Vec<u8>, Fail> {
    let mut bytes = Vec::from_slice(rt.alloc(), first.as_bytes())?;
    for _ in 0..LOADS {
        bytes.extend_from_slice(line.as_bytes())?;
    }
    bytes.extend_from_slice(last.as_bytes())?;
    Ok(bytes)
}

#[test]
fn a_megabyte_of_operations_is_run_and_checked(rt: HostRuntime) -> Result<(), Fail> {
    let script = "ept 1 seg=4 ext=1 tru=1 objects=1 mutators=1 markers=0\nm0 new a\n";
    let canonical = lines(&rt, script, "m0 load a 0 0f\n", "end\n")?;
    let end = "end live=0 trusted=0 objects=1\n";
    let report = lines(&rt, "m0 obj 0\n", "m0 null\n", end)?;
    for (word, text) in [("run", report.as_slice()), ("check", canonical.as_slice())] {
        let script = lines(&rt, script, "m0 load a 0 0f\n", "end\n")?;
        let mut source = MemorySource::new(script, 65_536, Vec::new(rt.alloc()));
        let mut sink = MemorySink::new(rt.alloc(), 2_097_152, 65_536, Vec::new(rt.alloc()))?;
        let words = vec![in rt.alloc(); String::from_str(rt.alloc(), word)?]?;
        let answer = run_main(&rt, rt.alloc(), words.as_slice(), &mut source, &mut sink);
        assert_is(&rt, (answer, sink.bytes() == text), (Status::Ok, true));
    }
    Ok(())
}

#[test]
fn check_prints_the_canonical_script(rt: HostRuntime) -> Result<(), Fail> {
    let header = "ept 1 seg=4 ext=1 tru=1 objects=2 mutators=2 markers=0\n";
    let canonical =
        "ept 1 seg=4 ext=1 tru=1 objects=2 mutators=2 markers=0\nm0 new a\nm1 new a\nend\n";
    check(
        &rt,
        plain(&["check"]),
        &["# two\n", header, "m1 new a\nm0 new a\nend\n"],
        Status::Ok,
        canonical,
    )
}

#[test]
fn a_script_of_several_mutators_and_of_a_marker_is_checked_and_run(
    rt: HostRuntime,
) -> Result<(), Fail> {
    let script =
        "ept 1 seg=4 ext=1 tru=1 objects=2 mutators=2 markers=1\nm0 new a\nstart never\nm1 load a 0 0f\nfinish\nend\n";
    check(&rt, plain(&["check"]), &[script], Status::Ok, script)?;
    check(
        &rt,
        plain(&["run"]),
        &[script],
        Status::Ok,
        "m0 obj 0\nstart area=none\nm1 empty\nfinish kept=0 freed=0 moved=0 segs=1 trusted=0 tfreed=0 compaction=none\nend live=0 trusted=0 objects=1\n",
    )
}

#[test]
fn one_byte_past_the_limit_is_too_long(rt: HostRuntime) -> Result<(), Fail> {
    let frame = ONE_OBJECT.len() + "#\nend\n".len();
    for (bytes, status, text) in [
        (4_194_304, Status::Ok, "end live=0 trusted=0 objects=0\n"),
        (4_194_305, Status::TooLong, ""),
    ] {
        let comment = vec![in rt.alloc(); b'x'; bytes - frame]?;
        let mut script = Vec::from_slice(rt.alloc(), ONE_OBJECT.as_bytes())?;
        script.push(b'#')?;
        script.extend_from_slice(comment.as_slice())?;
        script.extend_from_slice(b"\nend\n".as_slice())?;
        let mut source = MemorySource::new(script, 65_536, Vec::new(rt.alloc()));
        let mut sink = MemorySink::new(rt.alloc(), ROOM, ROOM, Vec::new(rt.alloc()))?;
        let words = vec![in rt.alloc(); String::from_str(rt.alloc(), "run")?]?;
        let answer = run_main(&rt, rt.alloc(), words.as_slice(), &mut source, &mut sink);
        assert_is(&rt, (answer, sink.bytes()), (status, text.as_bytes()));
    }
    Ok(())
}

#[test]
fn each_status_has_its_code(rt: HostRuntime) {
    for (status, code) in [
        (Status::Ok, 0),
        (Status::Usage, 2),
        (Status::Refused(ScriptErr::BadLine { line: 1 }), 3),
        (Status::ReadFault, 4),
        (Status::WriteFault, 5),
        (Status::OutOfMemory, 6),
        (Status::TooLong, 7),
    ] {
        assert_is(&rt, status.code(), code);
    }
}
