// Cycles with markers: what mutators do meanwhile, and what is kept, moved and freed.
use crate::runs::{gives_one_of, gives_with_any_markers};
use std::test::Fail;

/// Both mutators init a new object in a cycle whose area has all free indexes, with two markers.
pub(crate) const INITS_IN_THE_AREA: &str = "ept 1 seg=4 ext=2 tru=1 objects=4 mutators=2 markers=2
m0 new a
m0 new b
m0 init a 0 0f 0000000000c1
m0 init a 1 0f 0000000000c2
m0 init b 0 0f 0000000000c3
m0 init b 1 0f 0000000000c4
start always
m0 new c
m0 init c 0 0f 0000000000c5
m1 new c
m1 init c 0 0f 0000000000c6
finish
m0 load c 0 0f
m1 load c 0 0f
end
";

pub(crate) const INITS_IN_THE_AREA_START: &str = "m0 obj 0
m0 obj 1
m0 ok
m0 ok
m0 ok
m0 ok
start area=4
";

pub(crate) const FIRST_MAKES_FIRST: &str = "m0 obj 2
m0 ok
m1 obj 3
m1 ok
finish kept=6 freed=0 moved=0 segs=2 trusted=0 tfreed=0 compaction=aborted
m0 value 0000000000c5
m1 value 0000000000c6
end live=6 trusted=0 objects=4
";

pub(crate) const SECOND_MAKES_FIRST: &str = "m0 obj 3
m0 ok
m1 obj 2
m1 ok
finish kept=6 freed=0 moved=0 segs=2 trusted=0 tfreed=0 compaction=aborted
m0 value 0000000000c5
m1 value 0000000000c6
end live=6 trusted=0 objects=4
";

#[test]
fn inits_of_two_mutators_in_the_area_abort_the_compaction(rt: HostRuntime) -> Result<(), Fail> {
    gives_one_of(
        &rt,
        INITS_IN_THE_AREA,
        INITS_IN_THE_AREA_START,
        &[FIRST_MAKES_FIRST, SECOND_MAKES_FIRST],
    )
}

pub(crate) const ONE_MUTATOR: &str = "ept 1 seg=4 ext=2 tru=1 objects=4 mutators=1 markers=";

/// Five cells are freed by a first cycle, and one moves in a second one. No mutator makes a call in either.
pub(crate) const COMPACTION: &str = "m0 new a
m0 new b
m0 new c
m0 new d
m0 init a 0 0f 0000000000c1
m0 init a 1 0f 0000000000c2
m0 init b 0 0f 0000000000c3
m0 init b 1 0f 0000000000c4
m0 init c 0 0f 0000000000c5
m0 init c 1 0f 0000000000c6
m0 init d 0 0f 0000000000c7
m0 drop b
m0 drop c
m0 forge a 1 00000000
start never
finish
start always
finish
m0 name d 0
m0 load d 0 0f
end
";

pub(crate) const COMPACTION_REPORT: &str = "m0 obj 0
m0 obj 1
m0 obj 2
m0 obj 3
m0 ok
m0 ok
m0 ok
m0 ok
m0 ok
m0 ok
m0 ok
m0 ok
m0 ok
m0 ok
start area=none
finish kept=2 freed=5 moved=0 segs=2 trusted=0 tfreed=0 compaction=none
start area=4
finish kept=2 freed=0 moved=1 segs=1 trusted=0 tfreed=0 compaction=done
m0 word 00020000
m0 value 0000000000c7
end live=2 trusted=0 objects=4
";

#[test]
fn a_compaction_has_the_same_report_with_any_number_of_markers(
    rt: HostRuntime,
) -> Result<(), Fail> {
    gives_with_any_markers(&rt, ONE_MUTATOR, COMPACTION, COMPACTION_REPORT)
}

pub(crate) const TWO_MUTATORS: &str = "ept 1 seg=4 ext=2 tru=1 objects=6 mutators=2 markers=";

/// A cycle of three phases: objects are linked elsewhere in one phase, and fetched and taken out of the graph in the next. Object 3 is dead
/// before it, and object 2 in a second cycle.
pub(crate) const THREE_PHASES: &str = "m0 new a
m0 new b
m0 new c
m0 new d
m0 init b 0 0f 0000000000c1
m0 init c 0 0f 0000000000c2
m0 init d 0 0f 0000000000c3
m0 link a 0 b
m0 link b 0 c
m0 setg 0 a
m0 drop b
m0 drop c
m0 drop d
start never
m0 fetch b a 0
m0 fetch c b 0
m0 link a 1 c
m0 link b 0 -
m0 drop b
m0 drop c
m1 getg a 0
m1 new b
m1 init b 0 0f 0000000000c4
m1 link a 2 b
m1 drop b
meet
m0 fetch d a 2
m0 fetch e a 0
m0 link d 0 e
m0 link a 0 -
m0 drop e
m1 fetch c a 1
m1 link a 1 -
meet
m1 fetch d a 2
m1 fetch e d 0
finish
m0 load d 0 0f
m1 load c 0 0f
m1 load d 0 0f
m1 load e 0 0f
m1 drop c
start never
finish
m1 load e 0 0f
end
";

pub(crate) const THREE_PHASES_REPORT: &str = "m0 obj 0
m0 obj 1
m0 obj 2
m0 obj 3
m0 ok
m0 ok
m0 ok
m0 ok
m0 ok
m0 ok
m0 ok
m0 ok
m0 ok
start area=none
m0 obj 1
m0 obj 2
m0 ok
m0 ok
m0 ok
m0 ok
m1 obj 0
m1 obj 4
m1 ok
m1 ok
m1 ok
meet
m0 obj 4
m0 obj 1
m0 ok
m0 ok
m0 ok
m1 obj 2
m1 ok
meet
m1 obj 4
m1 obj 1
finish kept=3 freed=1 moved=0 segs=2 trusted=0 tfreed=0 compaction=none
m0 value 0000000000c4
m1 value 0000000000c2
m1 value 0000000000c4
m1 value 0000000000c1
m1 ok
start area=none
finish kept=2 freed=1 moved=0 segs=2 trusted=0 tfreed=0 compaction=none
m1 value 0000000000c1
end live=2 trusted=0 objects=5
";

#[test]
fn what_is_linked_in_one_phase_of_a_cycle_and_fetched_in_the_next_keeps_its_cell(
    rt: HostRuntime,
) -> Result<(), Fail> {
    gives_with_any_markers(&rt, TWO_MUTATORS, THREE_PHASES, THREE_PHASES_REPORT)
}
