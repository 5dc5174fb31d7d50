// Cycles over spaces of each size: a full area, each policy by the segments that are in use, and the greatest space.
use crate::run_tests::runs;
use std::test::Fail;

#[test]
fn a_full_area_moves_whole(rt: HostRuntime) -> Result<(), Fail> {
    runs(
        &rt,
        &[
            "ept 1 seg=4 ext=3 tru=1 objects=6 mutators=1 markers=0\nm0 new a\nm0 new b\nm0 new c\nm0 new d\nm0 new e\nm0 new f\nm0 init a 0 0f 0000000000c1\nm0 init a 1 0f 0000000000c2\nm0 init b 0 0f 0000000000c3\nm0 init b 1 0f 0000000000c4\nm0 init c 0 0f 0000000000c5\nm0 init c 1 0f 0000000000c6\nm0 init d 0 0f 0000000000c7\nm0 init d 1 0f 0000000000c8\nm0 init e 0 0f 0000000000c9\nm0 init e 1 0f 0000000000ca\nm0 init f 0 0f 0000000000cb\nm0 drop a\nm0 drop b\nm0 drop c\nm0 forge d 0 00000000\nstart never\nfinish\nstart always\nfinish\nm0 name d 1\nm0 name e 0\nm0 name e 1\nm0 name f 0\nm0 load d 1 0f\nm0 load f 0 0f\nend\n",
        ],
        &[
            "m0 obj 0\nm0 obj 1\nm0 obj 2\nm0 obj 3\nm0 obj 4\nm0 obj 5\nm0 ok\nm0 ok\nm0 ok\nm0 ok\nm0 ok\nm0 ok\nm0 ok\nm0 ok\nm0 ok\nm0 ok\nm0 ok\nm0 ok\nm0 ok\nm0 ok\nm0 ok\nstart area=none\nfinish kept=4 freed=7 moved=0 segs=3 trusted=0 tfreed=0 compaction=none\nstart area=8\nfinish kept=4 freed=0 moved=4 segs=2 trusted=0 tfreed=0 compaction=done\nm0 word 00010000\nm0 word 00020000\nm0 word 00030000\nm0 word 00040000\nm0 value 0000000000c8\nm0 value 0000000000cb\nend live=4 trusted=0 objects=6\n",
        ],
    )?;
    Ok(())
}

#[test]
fn each_policy_with_one_segment_in_use(rt: HostRuntime) -> Result<(), Fail> {
    runs(
        &rt,
        &[
            "ept 1 seg=4 ext=4 tru=1 objects=8 mutators=1 markers=0\nm0 new a\nm0 init a 0 0f 0000000000c0\nm0 init a 1 0f 0000000000c1\nm0 new b\nm0 init b 0 0f 0000000000c2\nstart never\nfinish\nstart auto\nfinish\nstart always\nfinish\nm0 drop a\nstart never\nfinish\nstart auto\nfinish\nstart always\nfinish\nm0 name b 0\nend\n",
        ],
        &[
            "m0 obj 0\nm0 ok\nm0 ok\nm0 obj 1\nm0 ok\nstart area=none\nfinish kept=3 freed=0 moved=0 segs=1 trusted=0 tfreed=0 compaction=none\nstart area=none\nfinish kept=3 freed=0 moved=0 segs=1 trusted=0 tfreed=0 compaction=none\nstart area=none\nfinish kept=3 freed=0 moved=0 segs=1 trusted=0 tfreed=0 compaction=none\nm0 ok\nstart area=none\nfinish kept=1 freed=2 moved=0 segs=1 trusted=0 tfreed=0 compaction=none\nstart area=none\nfinish kept=1 freed=0 moved=0 segs=1 trusted=0 tfreed=0 compaction=none\nstart area=none\nfinish kept=1 freed=0 moved=0 segs=1 trusted=0 tfreed=0 compaction=none\nm0 word 00030000\nend live=1 trusted=0 objects=2\n",
        ],
    )?;
    Ok(())
}

#[test]
fn each_policy_with_two_segments_in_use(rt: HostRuntime) -> Result<(), Fail> {
    runs(
        &rt,
        &[
            "ept 1 seg=4 ext=4 tru=1 objects=8 mutators=1 markers=0\nm0 new a\nm0 init a 0 0f 0000000000c0\nm0 init a 1 0f 0000000000c1\nm0 new b\nm0 init b 0 0f 0000000000c2\nm0 init b 1 0f 0000000000c3\nm0 new c\nm0 init c 0 0f 0000000000c4\nm0 init c 1 0f 0000000000c5\nm0 new d\nm0 init d 0 0f 0000000000c6\nstart never\nfinish\nstart auto\nfinish\nstart always\nfinish\nm0 drop a\nm0 drop b\nm0 drop c\nstart never\nfinish\nstart auto\nfinish\nstart always\nfinish\nm0 name d 0\nend\n",
        ],
        &[
            "m0 obj 0\nm0 ok\nm0 ok\nm0 obj 1\nm0 ok\nm0 ok\nm0 obj 2\nm0 ok\nm0 ok\nm0 obj 3\nm0 ok\nstart area=none\nfinish kept=7 freed=0 moved=0 segs=2 trusted=0 tfreed=0 compaction=none\nstart area=none\nfinish kept=7 freed=0 moved=0 segs=2 trusted=0 tfreed=0 compaction=none\nstart area=4\nfinish kept=7 freed=0 moved=0 segs=2 trusted=0 tfreed=0 compaction=aborted\nm0 ok\nm0 ok\nm0 ok\nstart area=none\nfinish kept=1 freed=6 moved=0 segs=2 trusted=0 tfreed=0 compaction=none\nstart area=none\nfinish kept=1 freed=0 moved=0 segs=2 trusted=0 tfreed=0 compaction=none\nstart area=4\nfinish kept=1 freed=0 moved=1 segs=1 trusted=0 tfreed=0 compaction=done\nm0 word 00010000\nend live=1 trusted=0 objects=4\n",
        ],
    )?;
    Ok(())
}

#[test]
fn each_policy_with_three_segments_in_use(rt: HostRuntime) -> Result<(), Fail> {
    runs(
        &rt,
        &[
            "ept 1 seg=4 ext=4 tru=1 objects=8 mutators=1 markers=0\nm0 new a\nm0 init a 0 0f 0000000000c0\nm0 init a 1 0f 0000000000c1\nm0 new b\nm0 init b 0 0f 0000000000c2\nm0 init b 1 0f 0000000000c3\nm0 new c\nm0 init c 0 0f 0000000000c4\nm0 init c 1 0f 0000000000c5\nm0 new d\nm0 init d 0 0f 0000000000c6\nm0 init d 1 0f 0000000000c7\nm0 new e\nm0 init e 0 0f 0000000000c8\nm0 init e 1 0f 0000000000c9\nm0 new f\nm0 init f 0 0f 0000000000ca\nstart never\nfinish\nstart auto\nfinish\nstart always\nfinish\nm0 drop a\nm0 drop b\nm0 drop c\nm0 drop d\nm0 drop e\nstart never\nfinish\nstart auto\nfinish\nstart always\nfinish\nm0 name f 0\nend\n",
        ],
        &[
            "m0 obj 0\nm0 ok\nm0 ok\nm0 obj 1\nm0 ok\nm0 ok\nm0 obj 2\nm0 ok\nm0 ok\nm0 obj 3\nm0 ok\nm0 ok\nm0 obj 4\nm0 ok\nm0 ok\nm0 obj 5\nm0 ok\nstart area=none\nfinish kept=11 freed=0 moved=0 segs=3 trusted=0 tfreed=0 compaction=none\nstart area=none\nfinish kept=11 freed=0 moved=0 segs=3 trusted=0 tfreed=0 compaction=none\nstart area=8\nfinish kept=11 freed=0 moved=0 segs=3 trusted=0 tfreed=0 compaction=aborted\nm0 ok\nm0 ok\nm0 ok\nm0 ok\nm0 ok\nstart area=none\nfinish kept=1 freed=10 moved=0 segs=3 trusted=0 tfreed=0 compaction=none\nstart area=none\nfinish kept=1 freed=0 moved=0 segs=3 trusted=0 tfreed=0 compaction=none\nstart area=8\nfinish kept=1 freed=0 moved=1 segs=1 trusted=0 tfreed=0 compaction=done\nm0 word 00010000\nend live=1 trusted=0 objects=6\n",
        ],
    )?;
    Ok(())
}

#[test]
fn each_policy_with_four_segments_in_use(rt: HostRuntime) -> Result<(), Fail> {
    runs(
        &rt,
        &[
            "ept 1 seg=4 ext=4 tru=1 objects=8 mutators=1 markers=0\nm0 new a\nm0 init a 0 0f 0000000000c0\nm0 init a 1 0f 0000000000c1\nm0 new b\nm0 init b 0 0f 0000000000c2\nm0 init b 1 0f 0000000000c3\nm0 new c\nm0 init c 0 0f 0000000000c4\nm0 init c 1 0f 0000000000c5\nm0 new d\nm0 init d 0 0f 0000000000c6\nm0 init d 1 0f 0000000000c7\nm0 new e\nm0 init e 0 0f 0000000000c8\nm0 init e 1 0f 0000000000c9\nm0 new f\nm0 init f 0 0f 0000000000ca\nm0 init f 1 0f 0000000000cb\nm0 new g\nm0 init g 0 0f 0000000000cc\nm0 init g 1 0f 0000000000cd\nm0 new h\nm0 init h 0 0f 0000000000ce\nstart never\nfinish\nstart auto\nfinish\nstart always\nfinish\nm0 drop a\nm0 drop b\nm0 drop c\nm0 drop d\nm0 drop e\nm0 drop f\nm0 drop g\nstart never\nfinish\nstart auto\nfinish\nstart always\nfinish\nm0 name h 0\nend\n",
        ],
        &[
            "m0 obj 0\nm0 ok\nm0 ok\nm0 obj 1\nm0 ok\nm0 ok\nm0 obj 2\nm0 ok\nm0 ok\nm0 obj 3\nm0 ok\nm0 ok\nm0 obj 4\nm0 ok\nm0 ok\nm0 obj 5\nm0 ok\nm0 ok\nm0 obj 6\nm0 ok\nm0 ok\nm0 obj 7\nm0 ok\nstart area=none\nfinish kept=15 freed=0 moved=0 segs=4 trusted=0 tfreed=0 compaction=none\nstart area=none\nfinish kept=15 freed=0 moved=0 segs=4 trusted=0 tfreed=0 compaction=none\nstart area=8\nfinish kept=15 freed=0 moved=0 segs=4 trusted=0 tfreed=0 compaction=aborted\nm0 ok\nm0 ok\nm0 ok\nm0 ok\nm0 ok\nm0 ok\nm0 ok\nstart area=none\nfinish kept=1 freed=14 moved=0 segs=4 trusted=0 tfreed=0 compaction=none\nstart area=12\nfinish kept=1 freed=0 moved=1 segs=1 trusted=0 tfreed=0 compaction=done\nstart area=none\nfinish kept=1 freed=0 moved=0 segs=1 trusted=0 tfreed=0 compaction=none\nm0 word 00010000\nend live=1 trusted=0 objects=8\n",
        ],
    )?;
    Ok(())
}

#[test]
fn the_greatest_space_is_swept(rt: HostRuntime) -> Result<(), Fail> {
    runs(
        &rt,
        &[
            "ept 1 seg=256 ext=256 tru=1 objects=1 mutators=1 markers=0\nm0 new a\nm0 init a 0 0f 0000000000c0\nstart never\nm0 init a 1 0f 0000000000c1\nfinish\nm0 load a 1 0f\nm0 forge a 1 00000000\nstart auto\nm0 init a 1 0f 0000000000c1\nfinish\nm0 load a 1 0f\nm0 forge a 1 00000000\nstart always\nm0 init a 1 0f 0000000000c1\nfinish\nm0 load a 1 0f\nm0 forge a 1 00000000\nend\n",
        ],
        &[
            "m0 obj 0\nm0 ok\nstart area=none\nm0 ok\nfinish kept=2 freed=0 moved=0 segs=1 trusted=0 tfreed=0 compaction=none\nm0 value 0000000000c1\nm0 ok\nstart area=none\nm0 ok\nfinish kept=2 freed=1 moved=0 segs=1 trusted=0 tfreed=0 compaction=none\nm0 value 0000000000c1\nm0 ok\nstart area=none\nm0 ok\nfinish kept=2 freed=1 moved=0 segs=1 trusted=0 tfreed=0 compaction=none\nm0 value 0000000000c1\nm0 ok\nend live=2 trusted=0 objects=1\n",
        ],
    )?;
    Ok(())
}
