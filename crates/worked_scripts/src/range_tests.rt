// Version 2 with several mutators: accesses by ranges, and the reports of the other scripts, whose asks become ranges.
use crate::crowd_tests::{EIGHT_MUTATORS, RING, RING_REPORT};
use crate::cycle_tests::{
    COMPACTION, COMPACTION_REPORT, FIRST_MAKES_FIRST, INITS_IN_THE_AREA, INITS_IN_THE_AREA_START,
    ONE_MUTATOR, SECOND_MAKES_FIRST, THREE_PHASES, THREE_PHASES_REPORT, TWO_MUTATORS,
};
use crate::race_tests::{
    EMPTIED, EMPTIED_START, EMPTY_AND_FREED, EMPTY_AND_KEPT, FETCHED, FIRST_AT_ONE, FIRST_AT_TWO,
    IN_ORDER, IN_TURNED_ORDER, SECOND_AT_ONE, SECOND_AT_TWO, TWO_EXCHANGES, TWO_EXCHANGES_START,
    TWO_INITS, TWO_INITS_START,
};
use crate::runs::{gives, gives_one_of, with_markers};
use crate::sharing_tests::{EXCHANGE, EXCHANGE_REPORT, TICKETS, TICKETS_REPORT};
use std::test::Fail;

/// Mutator 1 asks the cells of mutator 0 by ranges, with each kind of access.
const ASKED_BY_RANGES: &str = "ept 2 seg=4 ext=1 tru=1 objects=2 mutators=2 markers=0
m0 new a
m0 init a 0 20 0000000000c0
m0 tnew a ff 0000000000d0
m0 tpub a
m0 setg 0 a
meet
m1 getg a 0
m1 load a 0 1f-21
m1 load a 0 20
m1 load a 0 21-ff
m1 store a 0 01-ff 0000000000c1
m1 store a 0 01-1f 0000000000ee
m1 swap a 0 20-21 0000000000c2
m1 swap a 0 21-22 0000000000ee
m1 raw 00010000 01-20
m1 raw 00010000 01-1f
m1 raw 00000000 01-ff
m1 rawset 00010000 10-20 0000000000c3
m1 rawset 00010000 21-ff 0000000000ee
m1 tload a fe-ff
m1 tload a 01-fe
m1 traw 00010000 01-ff
m1 traw 00010000 20-21
meet
m0 load a 0 1f-20
m1 init a 1 21 0000000000c4
m1 name a 1
meet
m0 load a 1 21-22
m0 load a 1 20
m0 raw 00020000 01-ff
end
";

const ASKED_BY_RANGES_REPORT: &str = "m0 obj 0
m0 ok
m0 ok
m0 ok
m0 ok
meet
m1 obj 0
m1 value 0000000000c0
m1 value 0000000000c0
m1 fault
m1 ok
m1 fault
m1 value 0000000000c1
m1 fault
m1 value 0000000000c2
m1 fault
m1 null
m1 ok
m1 fault
m1 value 0000000000d0
m1 fault
m1 value 0000000000d0
m1 fault
meet
m0 value 0000000000c3
m1 ok
m1 word 00020000
meet
m0 value 0000000000c4
m0 fault
m0 value 0000000000c4
end live=2 trusted=1 objects=1
";

#[test]
fn ranges_find_the_cells_of_another_mutator_by_each_tag_in_them(
    rt: HostRuntime,
) -> Result<(), Fail> {
    gives(&rt, ASKED_BY_RANGES, ASKED_BY_RANGES_REPORT)
}

/// The script in version 2, where ranges with these tags in them are asked in place of the tags `0f` and `17`.
fn with_ranges<R: AllocGlobal>(rt: &R, script: &str) -> Result<String, Fail> {
    let newer = script.replace(rt.alloc(), "ept 1", "ept 2")?;
    let first = newer.as_str().replace(rt.alloc(), " 0f\n", " 0e-10\n")?;
    let second = first.as_str().replace(rt.alloc(), " 17\n", " 11-ff\n")?;
    let exchanged = second
        .as_str()
        .replace(rt.alloc(), "swap a 0 0f", "swap a 0 0e-10")?;
    Ok(
        exchanged
            .as_str()
            .replace(rt.alloc(), "store c 0 0f", "store c 0 01-0f")?,
    )
}

#[test]
fn the_reports_of_two_mutators_are_the_same_by_ranges(rt: HostRuntime) -> Result<(), Fail> {
    for (script, common, endings) in [
        (EXCHANGE, EXCHANGE_REPORT, [""].as_slice()),
        (TICKETS, TICKETS_REPORT, &[""]),
        (
            EMPTIED,
            EMPTIED_START,
            &[FETCHED, EMPTY_AND_KEPT, EMPTY_AND_FREED],
        ),
        (
            TWO_EXCHANGES,
            TWO_EXCHANGES_START,
            &[IN_ORDER, IN_TURNED_ORDER],
        ),
        (
            TWO_INITS,
            TWO_INITS_START,
            &[FIRST_AT_ONE, FIRST_AT_TWO, SECOND_AT_ONE, SECOND_AT_TWO],
        ),
        (
            INITS_IN_THE_AREA,
            INITS_IN_THE_AREA_START,
            &[FIRST_MAKES_FIRST, SECOND_MAKES_FIRST],
        ),
    ] {
        let script = with_ranges(&rt, script)?;
        gives_one_of(&rt, script.as_str(), common, endings)?;
    }
    Ok(())
}

#[test]
fn the_reports_of_cycles_are_the_same_by_ranges(rt: HostRuntime) -> Result<(), Fail> {
    for (header, lines, report) in [
        (ONE_MUTATOR, COMPACTION, COMPACTION_REPORT),
        (TWO_MUTATORS, THREE_PHASES, THREE_PHASES_REPORT),
        (EIGHT_MUTATORS, RING, RING_REPORT),
    ] {
        let old = with_markers(&rt, header, "2", lines)?;
        let script = with_ranges(&rt, old.as_str())?;
        gives(&rt, script.as_str(), report)?;
    }
    Ok(())
}
