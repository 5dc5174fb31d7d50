use crate::asserts::assert_is;
use plain_table::{Compaction, MeetReport, Outcome, PhaseReport, Reply, SweepReport};
use report_text::{fault_text, soak_text, text};
use script_reader::{OutOfMemory, ScriptErr};
use sqlite_items::Items;
use std::alloc::{AllocError, Global};

const SWEPT: SweepReport = SweepReport {
    kept: 2,
    freed: 5,
    moved: 0,
    segs: 2,
    trusted: 0,
    tfreed: 0,
    compaction: Compaction::NoArea,
};

const DONE: SweepReport = SweepReport {
    kept: 3,
    freed: 4,
    moved: 1,
    segs: 10,
    trusted: 6,
    tfreed: 7,
    compaction: Compaction::Done,
};

const ABORTED: SweepReport = SweepReport {
    kept: 0,
    freed: 0,
    moved: 0,
    segs: 1,
    trusted: 0,
    tfreed: 0,
    compaction: Compaction::Aborted,
};

// The outcome of one phase, with these replies of each mutator.
fn outcome_of(
    alloc: Global,
    mutators: &[&[Reply]],
    meet: MeetReport,
) -> Result<Outcome, AllocError> {
    let mut replies = Vec::new(alloc);
    for said in mutators {
        replies.push(Items::from_slice(alloc, said)?)?;
    }
    let mut phases = Vec::new(alloc);
    phases.push(PhaseReport {
        replies: Items::from_vec(replies),
        meet,
    })?;
    Ok(Outcome {
        phases: Items::from_vec(phases),
        live: 1,
        trusted: 0,
        objects: 1,
        sum: 0,
        puts: 0,
    })
}

#[test]
fn prints_each_line(rt: HostRuntime) -> Result<(), OutOfMemory> {
    let spoken: &[Reply] = &[
        Reply::Obj(0),
        Reply::Ok,
        Reply::Value(0xc0),
        Reply::Fault,
        Reply::Word(0x0001_0000),
    ];
    let others: &[Reply] = &[
        Reply::HeapFull,
        Reply::Nothing,
        Reply::Empty,
        Reply::Null,
        Reply::Taken(0x0001_0000),
        Reply::Full,
        Reply::Pending,
        Reply::NotYours,
        Reply::Value(0xfeed_0123_4567_89ab),
        Reply::Word(u32::MAX),
    ];
    let one: &[&[Reply]] = &[spoken];
    let two: &[&[Reply]] = &[others, &[Reply::Obj(7)]];
    let none: &[&[Reply]] = &[];
    let cases = [
        (
            one,
            MeetReport::Ended,
            "m0 obj 0\nm0 ok\nm0 value 0000000000c0\nm0 fault\nm0 word 00010000\nend live=1 trusted=0 objects=1\n",
        ),
        (
            two,
            MeetReport::Plain,
            "m0 heapfull\nm0 nothing\nm0 empty\nm0 null\nm0 taken 00010000\nm0 full\nm0 pending\nm0 notyours\n\
             m0 value 0123456789ab\nm0 word ffffffff\nm1 obj 7\nmeet\n",
        ),
        (
            none,
            MeetReport::Started { area: None },
            "start area=none\n",
        ),
        (
            none,
            MeetReport::Started { area: Some(4) },
            "start area=4\n",
        ),
        (
            none,
            MeetReport::Swept { report: SWEPT },
            "finish kept=2 freed=5 moved=0 segs=2 trusted=0 tfreed=0 compaction=none\n",
        ),
        (
            none,
            MeetReport::Swept { report: DONE },
            "finish kept=3 freed=4 moved=1 segs=10 trusted=6 tfreed=7 compaction=done\n",
        ),
        (
            none,
            MeetReport::Swept { report: ABORTED },
            "finish kept=0 freed=0 moved=0 segs=1 trusted=0 tfreed=0 compaction=aborted\n",
        ),
    ];
    for (mutators, meet, want) in cases {
        let outcome = outcome_of(rt.alloc(), mutators, meet)?;
        let text = text(rt.alloc(), &outcome)?;
        assert_is(&rt, text.as_str(), want);
    }
    Ok(())
}

#[test]
fn sums_an_outcome_up(rt: HostRuntime) -> Result<(), OutOfMemory> {
    let outcome = Outcome {
        phases: Items::new(rt.alloc()),
        live: 1200,
        trusted: 0,
        objects: 9600,
        sum: 0x57d5f0,
        puts: 9600,
    };
    let line = soak_text(rt.alloc(), &outcome)?;
    let want = "soak live=1200 sum=00000057d5f0 gone=8400\n";
    assert_is(&rt, line.as_str(), want);
    Ok(())
}

#[test]
fn names_each_refusal(rt: HostRuntime) -> Result<(), OutOfMemory> {
    for (refusal, want) in [
        (ScriptErr::BadHeader, "refused: bad header\n"),
        (ScriptErr::BadLine { line: 2 }, "line 2: bad line\n"),
        (ScriptErr::BadTag { line: 3 }, "line 3: bad tag\n"),
        (ScriptErr::BadNumber { line: 10 }, "line 10: bad number\n"),
        (ScriptErr::OutOfRange { line: 4 }, "line 4: out of range\n"),
        (ScriptErr::BadMeet { line: 5 }, "line 5: bad meet\n"),
        (
            ScriptErr::TooMany { line: 200_002 },
            "line 200002: too many\n",
        ),
        (ScriptErr::OutOfMemory, ""),
    ] {
        let text = fault_text(rt.alloc(), &refusal)?;
        assert_is(&rt, text.as_str(), want);
    }
    Ok(())
}
