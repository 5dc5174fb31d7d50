// Races: calls of several mutators on one object in one phase, whose replies depend on their order.
use crate::gates::{InOrder, Place};
use crate::runs::{gives_one_of, reported};
use std::test::Fail;

/// In a cycle with a marker, mutator 1 empties a reference while mutator 0 fetches the object that it holds.
pub(crate) const EMPTIED: &str = "ept 1 seg=4 ext=1 tru=1 objects=3 mutators=2 markers=1
m0 new a
m0 new b
m0 init b 0 0f 0000000000c0
m0 link a 0 b
m0 setg 0 a
m0 drop b
start never
m0 fetch b a 0
m0 new c
m0 link c 0 b
m1 getg a 0
m1 link a 0 -
finish
m0 load b 0 0f
end
";

pub(crate) const EMPTIED_START: &str = "m0 obj 0
m0 obj 1
m0 ok
m0 ok
m0 ok
m0 ok
start area=none
";

/// The fetch comes first: the object is held, and keeps its cell.
pub(crate) const FETCHED: &str = "m0 obj 1
m0 obj 2
m0 ok
m1 obj 0
m1 ok
finish kept=1 freed=0 moved=0 segs=1 trusted=0 tfreed=0 compaction=none
m0 value 0000000000c0
end live=1 trusted=0 objects=3
";

/// The fetch comes last: the marker found the object before it was let go.
pub(crate) const EMPTY_AND_KEPT: &str = "m0 nothing
m0 obj 2
m0 empty
m1 obj 0
m1 ok
finish kept=1 freed=0 moved=0 segs=1 trusted=0 tfreed=0 compaction=none
m0 empty
end live=1 trusted=0 objects=3
";

/// The fetch comes last, and nobody found the object in the cycle.
pub(crate) const EMPTY_AND_FREED: &str = "m0 nothing
m0 obj 2
m0 empty
m1 obj 0
m1 ok
finish kept=0 freed=1 moved=0 segs=1 trusted=0 tfreed=0 compaction=none
m0 empty
end live=0 trusted=0 objects=3
";

#[test]
fn a_fetch_finds_its_object_or_nothing_while_the_reference_is_emptied(
    rt: HostRuntime,
) -> Result<(), Fail> {
    gives_one_of(
        &rt,
        EMPTIED,
        EMPTIED_START,
        &[FETCHED, EMPTY_AND_KEPT, EMPTY_AND_FREED],
    )
}

/// The same race of the mutators 0 and 1 over objects of mutator 2. The calls that a gate puts in order have numbers that the mutator's
/// other phases don't reach.
const ORDERED: &str = "ept 1 seg=4 ext=1 tru=1 objects=3 mutators=3 markers=1
m2 new a
m2 new b
m2 init b 0 0f 0000000000c0
m2 link a 0 b
m2 setg 0 a
m2 drop b
start never
m0 getg a 0
m0 fetch b a 0
m0 new c
m0 link c 0 b
m1 getg a 0
m1 link a 0 -
m1 name a 0
finish
m0 load b 0 0f
end
";

const FETCHED_FIRST: &str = "m2 obj 0
m2 obj 1
m2 ok
m2 ok
m2 ok
m2 ok
start area=none
m0 obj 0
m0 obj 1
m0 obj 2
m0 ok
m1 obj 0
m1 ok
m1 word 00000000
finish kept=1 freed=0 moved=0 segs=1 trusted=0 tfreed=0 compaction=none
m0 value 0000000000c0
end live=1 trusted=0 objects=3
";

const EMPTIED_FIRST: &str = "m2 obj 0
m2 obj 1
m2 ok
m2 ok
m2 ok
m2 ok
start area=none
m0 obj 0
m0 nothing
m0 obj 2
m0 empty
m1 obj 0
m1 ok
m1 word 00000000
finish kept=0 freed=1 moved=0 segs=1 trusted=0 tfreed=0 compaction=none
m0 empty
end live=0 trusted=0 objects=3
";

/// The first passing of the marker.
const MARKER: Place = Place { number: 8, call: 0 };

#[test]
fn an_object_that_is_fetched_before_its_reference_is_emptied_keeps_its_cell(
    rt: HostRuntime,
) -> Result<(), Fail> {
    let fetched = Place { number: 0, call: 2 };
    let emptying = Place { number: 1, call: 1 };
    let gate = InOrder::of(fetched, [emptying, MARKER]);
    let report = reported(&rt, ORDERED, &gate)?;
    assert_eq!(rt; report.as_str(), FETCHED_FIRST);
    gate.assert_held(&rt);
    Ok(())
}

#[test]
fn an_object_whose_reference_is_emptied_before_it_is_found_loses_its_cell(
    rt: HostRuntime,
) -> Result<(), Fail> {
    let emptied = Place { number: 1, call: 2 };
    let fetching = Place { number: 0, call: 1 };
    let gate = InOrder::of(emptied, [fetching, MARKER]);
    let report = reported(&rt, ORDERED, &gate)?;
    assert_eq!(rt; report.as_str(), EMPTIED_FIRST);
    gate.assert_held(&rt);
    Ok(())
}

pub(crate) const TWO_EXCHANGES: &str = "ept 1 seg=4 ext=1 tru=1 objects=1 mutators=2 markers=0
m0 new a
m0 init a 0 0f 0000000000c0
m0 setg 0 a
meet
m1 getg a 0
meet
m0 swap a 0 0f 0000000000c1
m1 swap a 0 0f 0000000000c2
meet
m1 load a 0 0f
end
";

pub(crate) const TWO_EXCHANGES_START: &str = "m0 obj 0
m0 ok
m0 ok
meet
m1 obj 0
meet
";

pub(crate) const IN_ORDER: &str = "m0 value 0000000000c0
m1 value 0000000000c1
meet
m1 value 0000000000c2
end live=1 trusted=0 objects=1
";

pub(crate) const IN_TURNED_ORDER: &str = "m0 value 0000000000c2
m1 value 0000000000c0
meet
m1 value 0000000000c1
end live=1 trusted=0 objects=1
";

#[test]
fn of_two_exchanges_the_later_one_finds_the_value_of_the_earlier_one(
    rt: HostRuntime,
) -> Result<(), Fail> {
    gives_one_of(
        &rt,
        TWO_EXCHANGES,
        TWO_EXCHANGES_START,
        &[IN_ORDER, IN_TURNED_ORDER],
    )
}

pub(crate) const TWO_INITS: &str = "ept 1 seg=4 ext=1 tru=1 objects=1 mutators=2 markers=0
m0 new a
m0 setg 0 a
meet
m1 getg a 0
meet
m0 init a 0 0f 0000000000c0
m1 init a 0 17 0000000000d0
meet
m0 load a 0 0f
m1 load a 0 17
end
";

pub(crate) const TWO_INITS_START: &str = "m0 obj 0
m0 ok
meet
m1 obj 0
meet
";

pub(crate) const FIRST_AT_ONE: &str = "m0 ok
m1 taken 00010000
meet
m0 value 0000000000c0
m1 fault
end live=2 trusted=0 objects=1
";

pub(crate) const FIRST_AT_TWO: &str = "m0 ok
m1 taken 00020000
meet
m0 value 0000000000c0
m1 fault
end live=2 trusted=0 objects=1
";

pub(crate) const SECOND_AT_ONE: &str = "m0 taken 00010000
m1 ok
meet
m0 fault
m1 value 0000000000d0
end live=2 trusted=0 objects=1
";

pub(crate) const SECOND_AT_TWO: &str = "m0 taken 00020000
m1 ok
meet
m0 fault
m1 value 0000000000d0
end live=2 trusted=0 objects=1
";

#[test]
fn of_two_inits_of_one_field_one_binds_it_and_both_cells_stand(
    rt: HostRuntime,
) -> Result<(), Fail> {
    gives_one_of(
        &rt,
        TWO_INITS,
        TWO_INITS_START,
        &[FIRST_AT_ONE, FIRST_AT_TWO, SECOND_AT_ONE, SECOND_AT_TWO],
    )
}
