// Eight mutators on one table, alone and concurrently with markers.
use crate::runs::gives_with_any_markers;
use std::test::Fail;

pub(crate) const EIGHT_MUTATORS: &str = "ept 1 seg=4 ext=3 tru=1 objects=9 mutators=8 markers=";

/// Each mutator holds an object of its own, links the next one's to it in a cycle, and then stores into its cell. Object 7 has a trusted
/// cell alone. One cell moves.
pub(crate) const RING: &str = "m0 new a
m0 new b
m0 new c
m0 new d
m0 new e
m0 new f
m0 new g
m0 new h
m0 new i
m0 init a 0 0f 0000000000c0
m0 init i 0 0f 0000000000ff
m0 init b 0 0f 0000000000c1
m0 init c 0 0f 0000000000c2
m0 init d 0 0f 0000000000c3
m0 init e 0 0f 0000000000c4
m0 init f 0 0f 0000000000c5
m0 init g 0 0f 0000000000c6
m0 tnew h 0f 0000000000d7
m0 tpub h
m0 setg 0 a
m0 setg 1 b
m0 setg 2 c
m0 setg 3 d
m0 setg 4 e
m0 setg 5 f
m0 setg 6 g
m0 setg 7 h
m0 drop i
start never
finish
m0 getg a 0
m1 getg a 1
m2 getg a 2
m3 getg a 3
m4 getg a 4
m5 getg a 5
m6 getg a 6
m7 getg a 7
start always
m0 swap a 0 0f 0000000001c0
m0 load a 0 0f
m0 name a 0
m0 getg b 1
m0 link a 0 b
m1 swap a 0 0f 0000000001c1
m1 load a 0 0f
m1 name a 0
m1 getg b 2
m1 link a 0 b
m2 swap a 0 0f 0000000001c2
m2 load a 0 0f
m2 name a 0
m2 getg b 3
m2 link a 0 b
m3 swap a 0 0f 0000000001c3
m3 load a 0 0f
m3 name a 0
m3 getg b 4
m3 link a 0 b
m4 swap a 0 0f 0000000001c4
m4 load a 0 0f
m4 name a 0
m4 getg b 5
m4 link a 0 b
m5 swap a 0 0f 0000000001c5
m5 load a 0 0f
m5 name a 0
m5 getg b 6
m5 link a 0 b
m6 swap a 0 0f 0000000001c6
m6 load a 0 0f
m6 name a 0
m6 getg b 7
m6 link a 0 b
m7 tload a 0f
m7 new p
m7 getg b 0
m7 link a 0 b
meet
m0 fetch c a 0
m0 store c 0 0f 0000000002c1
m0 link a 0 -
m1 fetch c a 0
m1 store c 0 0f 0000000002c2
m1 link a 0 -
m2 fetch c a 0
m2 store c 0 0f 0000000002c3
m2 link a 0 -
m3 fetch c a 0
m3 store c 0 0f 0000000002c4
m3 link a 0 -
m4 fetch c a 0
m4 store c 0 0f 0000000002c5
m4 link a 0 -
m5 fetch c a 0
m5 store c 0 0f 0000000002c6
m5 link a 0 -
m6 fetch c a 0
m6 store c 0 0f 0000000002c7
m6 link a 0 -
m7 fetch c a 0
m7 store c 0 0f 0000000002c0
m7 link a 0 -
finish
m0 load a 0 0f
m0 name a 0
m1 load a 0 0f
m1 name a 0
m2 load a 0 0f
m2 name a 0
m3 load a 0 0f
m3 name a 0
m4 load a 0 0f
m4 name a 0
m5 load a 0 0f
m5 name a 0
m6 load a 0 0f
m6 name a 0
m7 load a 0 0f
m7 tload a 0f
end
";

pub(crate) const RING_REPORT: &str = "m0 obj 0
m0 obj 1
m0 obj 2
m0 obj 3
m0 obj 4
m0 obj 5
m0 obj 6
m0 obj 7
m0 obj 8
m0 ok
m0 ok
m0 ok
m0 ok
m0 ok
m0 ok
m0 ok
m0 ok
m0 ok
m0 ok
m0 ok
m0 ok
m0 ok
m0 ok
m0 ok
m0 ok
m0 ok
m0 ok
m0 ok
start area=none
finish kept=7 freed=1 moved=0 segs=3 trusted=1 tfreed=0 compaction=none
m0 obj 0
m1 obj 1
m2 obj 2
m3 obj 3
m4 obj 4
m5 obj 5
m6 obj 6
m7 obj 7
start area=8
m0 value 0000000000c0
m0 value 0000000001c0
m0 word 00010000
m0 obj 1
m0 ok
m1 value 0000000000c1
m1 value 0000000001c1
m1 word 00030000
m1 obj 2
m1 ok
m2 value 0000000000c2
m2 value 0000000001c2
m2 word 00040000
m2 obj 3
m2 ok
m3 value 0000000000c3
m3 value 0000000001c3
m3 word 00050000
m3 obj 4
m3 ok
m4 value 0000000000c4
m4 value 0000000001c4
m4 word 00060000
m4 obj 5
m4 ok
m5 value 0000000000c5
m5 value 0000000001c5
m5 word 00070000
m5 obj 6
m5 ok
m6 value 0000000000c6
m6 value 0000000001c6
m6 word 00080000
m6 obj 7
m6 ok
m7 value 0000000000d7
m7 heapfull
m7 obj 0
m7 ok
meet
m0 obj 1
m0 ok
m0 ok
m1 obj 2
m1 ok
m1 ok
m2 obj 3
m2 ok
m2 ok
m3 obj 4
m3 ok
m3 ok
m4 obj 5
m4 ok
m4 ok
m5 obj 6
m5 ok
m5 ok
m6 obj 7
m6 null
m6 ok
m7 obj 0
m7 ok
m7 ok
finish kept=7 freed=0 moved=1 segs=2 trusted=1 tfreed=0 compaction=done
m0 value 0000000002c0
m0 word 00010000
m1 value 0000000002c1
m1 word 00030000
m2 value 0000000002c2
m2 word 00040000
m3 value 0000000002c3
m3 word 00050000
m4 value 0000000002c4
m4 word 00060000
m5 value 0000000002c5
m5 word 00070000
m6 value 0000000002c6
m6 word 00020000
m7 null
m7 value 0000000000d7
end live=7 trusted=1 objects=9
";

#[test]
fn eight_mutators_and_four_markers_share_a_table_in_a_compaction(
    rt: HostRuntime,
) -> Result<(), Fail> {
    gives_with_any_markers(&rt, EIGHT_MUTATORS, RING, RING_REPORT)
}
