// What one mutator leaves before a meet, and another one finds after it.
use crate::runs::gives;
use std::test::Fail;

/// Mutator 1 exchanges the value of a cell that mutator 0 made.
pub(crate) const EXCHANGE: &str = "ept 1 seg=4 ext=1 tru=1 objects=4 mutators=2 markers=0
m0 new a
m0 init a 0 0f 0000000000c0
m0 setg 3 a
meet
m1 getg a 3
m1 swap a 0 0f 0000000000c1
m0 name a 0
meet
m0 load a 0 0f
end
";

pub(crate) const EXCHANGE_REPORT: &str = "m0 obj 0
m0 ok
m0 ok
meet
m0 word 00010000
m1 obj 0
m1 value 0000000000c0
meet
m0 value 0000000000c1
end live=1 trusted=0 objects=1
";

#[test]
fn a_cell_is_seen_by_another_mutator_after_a_meet(rt: HostRuntime) -> Result<(), Fail> {
    gives(&rt, EXCHANGE, EXCHANGE_REPORT)
}

/// Mutator 1 tries to publish the trusted cell of mutator 0, which publishes it after that.
pub(crate) const TICKETS: &str = "ept 1 seg=4 ext=1 tru=1 objects=4 mutators=2 markers=0
m0 new a
m0 tnew a 0f 0000000000c0
m0 tload a 0f
m0 tnew a 0f 0000000000c1
m0 setg 0 a
meet
m1 getg a 0
m1 tpub a
meet
m0 tpub a
m0 tload a 0f
m0 tload a 17
m0 new b
m0 share a b
m0 tload b 0f
m0 tnew a 0f 0000000000c1
m0 traw 00020000 0f
m0 tpub b
m0 new c
m0 tnew c 0f 0000000000c2
m0 tpub c
m0 new d
m0 tnew d 0f 0000000000c3
end
";

pub(crate) const TICKETS_REPORT: &str = "m0 obj 0
m0 ok
m0 fault
m0 pending
m0 ok
meet
m1 obj 0
m1 notyours
meet
m0 ok
m0 value 0000000000c0
m0 fault
m0 obj 1
m0 ok
m0 value 0000000000c0
m0 taken 00010000
m0 fault
m0 notyours
m0 obj 2
m0 ok
m0 ok
m0 obj 3
m0 full
end live=0 trusted=3 objects=4
";

#[test]
fn a_trusted_entry_is_published_by_its_own_mutator_alone(rt: HostRuntime) -> Result<(), Fail> {
    gives(&rt, TICKETS, TICKETS_REPORT)
}
