// The script of `examples/` that has every form of line.
use crate::runs::gives;
use std::test::Fail;

const EVERY_FORM: &str = "ept 1 seg=4 ext=4 tru=1 objects=4 mutators=2 markers=0
m0 new a
m0 new b
m0 link a 0 b
m0 fetch c a 0
m0 setg 0 a
meet
m1 getg a 0
m0 init a 0 0f 0000000000c0
m0 load a 0 0f
m0 store a 0 0f 0000000000c1
m0 swap a 0 0f 0000000000c2
m0 name a 0
m0 forge a 1 00010000
m0 raw 00010000 0f
m0 rawset 00010000 0f 0000000000c3
m0 tnew a 17 0000000000d0
m0 tpub a
m0 tload a 17
m0 traw 00010000 17
m0 share a b
start auto
m0 link a 0 -
m0 drop b
m0 setg 1 -
finish
end
";

const EVERY_FORM_REPORT: &str = "m0 obj 0
m0 obj 1
m0 ok
m0 obj 1
m0 ok
meet
m0 ok
m0 value 0000000000c0
m0 ok
m0 value 0000000000c1
m0 word 00010000
m0 ok
m0 value 0000000000c2
m0 ok
m0 ok
m0 ok
m0 value 0000000000d0
m0 value 0000000000d0
m0 ok
m1 obj 0
start area=none
m0 ok
m0 ok
m0 ok
finish kept=1 freed=0 moved=0 segs=1 trusted=1 tfreed=0 compaction=none
end live=1 trusted=1 objects=2
";

#[test]
fn every_form_of_line_is_run_with_two_mutators(rt: HostRuntime) -> Result<(), Fail> {
    gives(&rt, EVERY_FORM, EVERY_FORM_REPORT)
}
