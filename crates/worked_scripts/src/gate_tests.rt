// Threads that wait for one another in a phase: a run of one after the other would not end by their flags.
use crate::gates::{Meeting, Place};
use crate::runs::reported;
use std::test::Fail;

const TWO_CALLS_EACH: &str = "ept 1 seg=4 ext=1 tru=1 objects=2 mutators=2 markers=0
m0 new a
m0 name a 0
m1 new a
m1 name a 0
end
";

#[test]
fn two_mutators_make_their_calls_concurrently(rt: HostRuntime) -> Result<(), Fail> {
    let gate = Meeting::at([Place { number: 0, call: 1 }, Place { number: 1, call: 1 }]);
    reported(&rt, TWO_CALLS_EACH, &gate)?;
    gate.assert_held(&rt);
    Ok(())
}

/// Mutator 0 makes a third call in the cycle alone.
const THREE_CALLS_IN_A_CYCLE: &str = "ept 1 seg=4 ext=1 tru=1 objects=2 mutators=1 markers=1
m0 new a
m0 setg 0 a
start never
m0 new b
m0 name b 0
m0 name b 1
finish
end
";

const THREE_CALLS_IN_A_CYCLE_REPORT: &str = "m0 obj 0
m0 ok
start area=none
m0 obj 1
m0 word 00000000
m0 word 00000000
finish kept=0 freed=0 moved=0 segs=1 trusted=0 tfreed=0 compaction=none
end live=0 trusted=0 objects=2
";

#[test]
fn a_marker_begins_while_a_mutator_makes_its_calls(rt: HostRuntime) -> Result<(), Fail> {
    let gate = Meeting::at([Place { number: 0, call: 2 }, Place { number: 8, call: 0 }]);
    let report = reported(&rt, THREE_CALLS_IN_A_CYCLE, &gate)?;
    assert_eq!(rt; report.as_str(), THREE_CALLS_IN_A_CYCLE_REPORT);
    gate.assert_held(&rt);
    Ok(())
}
