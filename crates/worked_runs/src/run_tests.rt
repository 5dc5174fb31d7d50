// Whole runs of one mutator over cycles and trusted entries, from scripts and reports as text.
use crate::tests::{check, plain};
use std::process::Abort;
use std::test::Fail;
use std::thread::Threads;
use table_run::Status;

const ONE_OBJECT: &str = "ept 1 seg=4 ext=1 tru=1 objects=1 mutators=1 markers=0\n";

const TWO_OBJECTS: &str = "ept 1 seg=4 ext=1 tru=1 objects=2 mutators=1 markers=0\n";

const THREE_OBJECTS: &str = "ept 1 seg=4 ext=1 tru=1 objects=3 mutators=1 markers=0\n";

const FOUR_OBJECTS: &str = "ept 1 seg=4 ext=1 tru=1 objects=4 mutators=1 markers=0\n";

const VERSION_TWO: &str = "ept 2 seg=4 ext=1 tru=1 objects=1 mutators=1 markers=0\n";

const TWO_SEGMENTS: &str = "ept 1 seg=4 ext=2 tru=1 objects=4 mutators=1 markers=0\n";

const TWO_SEGMENTS_TWO_OBJECTS: &str = "ept 1 seg=4 ext=2 tru=1 objects=2 mutators=1 markers=0\n";

/// Seven cells of four objects: the external space is full.
const SEVEN_CELLS: &str =
    "m0 new a\nm0 new b\nm0 new c\nm0 new d\nm0 init a 0 0f 0000000000c1\nm0 init a 1 0f 0000000000c2\nm0 init b 0 0f 0000000000c3\nm0 init b 1 0f 0000000000c4\nm0 init c 0 0f 0000000000c5\nm0 init c 1 0f 0000000000c6\nm0 init d 0 0f 0000000000c7\n";

const SEVEN_CELLS_REPLIES: &str =
    "m0 obj 0\nm0 obj 1\nm0 obj 2\nm0 obj 3\nm0 ok\nm0 ok\nm0 ok\nm0 ok\nm0 ok\nm0 ok\nm0 ok\n";

/// Two objects are dropped, the second field of a third is cleared, and a cycle frees their cells.
const FIVE_FREED: &str = "m0 drop b\nm0 drop c\nm0 forge a 1 00000000\nstart never\nfinish\n";

const FIVE_FREED_REPORT: &str =
    "m0 ok\nm0 ok\nm0 ok\nstart area=none\nfinish kept=2 freed=5 moved=0 segs=2 trusted=0 tfreed=0 compaction=none\n";

/// Four cells of two objects, of which the last stands in the second segment.
const FOUR_CELLS: &str =
    "m0 new a\nm0 new b\nm0 init a 0 0f 0000000000c1\nm0 init a 1 0f 0000000000c2\nm0 init b 0 0f 0000000000c3\nm0 init b 1 0f 0000000000c4\n";

const FOUR_CELLS_REPLIES: &str = "m0 obj 0\nm0 obj 1\nm0 ok\nm0 ok\nm0 ok\nm0 ok\n";

/// Runs the joined parts of a script, and compares the report with the joined parts of one.
pub(crate) fn runs<R: AllocGlobal + Abort + Threads + Sync>(
    rt: &R,
    script: &[&str],
    report: &[&str],
) -> Result<(), Fail> {
    let mut text = String::new(rt.alloc());
    for part in report {
        text.push_str(part)?;
    }
    check(rt, plain(&["run"]), script, Status::Ok, text.as_str())
}

#[test]
fn a_cycle_frees_a_cell_that_no_field_names(rt: HostRuntime) -> Result<(), Fail> {
    runs(
        &rt,
        &[
            ONE_OBJECT,
            "m0 new a\nm0 init a 0 0f 0000000000c0\nm0 init a 0 0f 0000000000c1\nstart never\nfinish\nm0 load a 0 0f\nend\n",
        ],
        &[
            "m0 obj 0\nm0 ok\nm0 taken 00010000\nstart area=none\nfinish kept=1 freed=1 moved=0 segs=1 trusted=0 tfreed=0 compaction=none\nm0 value 0000000000c0\nend live=1 trusted=0 objects=1\n",
        ],
    )
}

#[test]
fn an_object_that_was_reachable_at_the_start_keeps_its_cell_for_the_cycle(
    rt: HostRuntime,
) -> Result<(), Fail> {
    runs(
        &rt,
        &[
            THREE_OBJECTS,
            "m0 new a\nm0 new b\nm0 init b 0 0f 0000000000c0\nm0 link a 2 b\nm0 drop b\nstart never\nm0 fetch c a 2\nm0 link a 2 -\nfinish\nm0 load c 0 0f\nm0 drop c\nstart never\nfinish\nm0 getg d 5\nend\n",
        ],
        &[
            "m0 obj 0\nm0 obj 1\nm0 ok\nm0 ok\nm0 ok\nstart area=none\nm0 obj 1\nm0 ok\nfinish kept=1 freed=0 moved=0 segs=1 trusted=0 tfreed=0 compaction=none\nm0 value 0000000000c0\nm0 ok\nstart area=none\nfinish kept=0 freed=1 moved=0 segs=1 trusted=0 tfreed=0 compaction=none\nm0 nothing\nend live=0 trusted=0 objects=2\n",
        ],
    )
}

#[test]
fn a_compaction_moves_a_kept_cell_and_rewrites_its_field(rt: HostRuntime) -> Result<(), Fail> {
    runs(
        &rt,
        &[
            TWO_SEGMENTS,
            SEVEN_CELLS,
            FIVE_FREED,
            "start always\nfinish\nm0 name d 0\nm0 load d 0 0f\nend\n",
        ],
        &[
            SEVEN_CELLS_REPLIES,
            FIVE_FREED_REPORT,
            "start area=4\nfinish kept=2 freed=0 moved=1 segs=1 trusted=0 tfreed=0 compaction=done\nm0 word 00020000\nm0 value 0000000000c7\nend live=2 trusted=0 objects=4\n",
        ],
    )
}

#[test]
fn a_compaction_finds_no_room_where_dead_cells_are_not_freed_yet(
    rt: HostRuntime,
) -> Result<(), Fail> {
    runs(
        &rt,
        &[
            TWO_SEGMENTS,
            SEVEN_CELLS,
            "m0 drop b\nm0 drop c\nm0 forge a 1 00000000\nstart always\nfinish\nm0 name d 0\nend\n",
        ],
        &[
            SEVEN_CELLS_REPLIES,
            "m0 ok\nm0 ok\nm0 ok\nstart area=4\nfinish kept=2 freed=5 moved=0 segs=2 trusted=0 tfreed=0 compaction=aborted\nm0 word 00070000\nend live=2 trusted=0 objects=4\n",
        ],
    )
}

#[test]
fn a_forged_copy_follows_the_cell_that_moves(rt: HostRuntime) -> Result<(), Fail> {
    runs(
        &rt,
        &[
            TWO_SEGMENTS,
            SEVEN_CELLS,
            FIVE_FREED,
            "m0 forge a 1 00070000\nstart always\nfinish\nm0 name a 1\nm0 name d 0\nm0 load a 1 0f\nm0 forge a 1 00000000\nm0 init a 1 0f 0000000000c8\nm0 name a 1\nend\n",
        ],
        &[
            SEVEN_CELLS_REPLIES,
            FIVE_FREED_REPORT,
            "m0 ok\nstart area=4\nfinish kept=2 freed=0 moved=1 segs=1 trusted=0 tfreed=0 compaction=done\nm0 word 00030000\nm0 word 00030000\nm0 value 0000000000c7\nm0 ok\nm0 ok\nm0 word 00020000\nend live=3 trusted=0 objects=4\n",
        ],
    )
}

#[test]
fn a_copy_that_is_forged_in_the_cycle_follows_the_cell_too(rt: HostRuntime) -> Result<(), Fail> {
    runs(
        &rt,
        &[
            TWO_SEGMENTS,
            SEVEN_CELLS,
            FIVE_FREED,
            "start always\nm0 forge a 1 00070000\nfinish\nm0 name a 1\nm0 name d 0\nm0 load a 1 0f\nend\n",
        ],
        &[
            SEVEN_CELLS_REPLIES,
            FIVE_FREED_REPORT,
            "start area=4\nm0 ok\nfinish kept=2 freed=0 moved=1 segs=1 trusted=0 tfreed=0 compaction=done\nm0 word 00030000\nm0 word 00030000\nm0 value 0000000000c7\nend live=2 trusted=0 objects=4\n",
        ],
    )
}

#[test]
fn a_store_into_a_dead_cell_of_the_area_is_lost_with_it(rt: HostRuntime) -> Result<(), Fail> {
    runs(
        &rt,
        &[
            TWO_SEGMENTS,
            SEVEN_CELLS,
            "m0 drop b\nm0 forge a 1 00000000\nm0 forge c 0 00000000\nstart never\nfinish\nm0 drop c\nstart always\nm0 rawset 00060000 0f 0000000000d0\nfinish\nm0 raw 00060000 0f\nm0 name d 0\nend\n",
        ],
        &[
            SEVEN_CELLS_REPLIES,
            "m0 ok\nm0 ok\nm0 ok\nstart area=none\nfinish kept=3 freed=4 moved=0 segs=2 trusted=0 tfreed=0 compaction=none\nm0 ok\nstart area=4\nm0 ok\nfinish kept=2 freed=1 moved=1 segs=1 trusted=0 tfreed=0 compaction=done\nm0 fault\nm0 word 00020000\nend live=2 trusted=0 objects=4\n",
        ],
    )
}

#[test]
fn a_compaction_without_room_is_aborted_and_moves_nothing(rt: HostRuntime) -> Result<(), Fail> {
    runs(
        &rt,
        &[
            TWO_SEGMENTS_TWO_OBJECTS,
            FOUR_CELLS,
            "start always\nfinish\nm0 name b 1\nm0 load b 1 0f\nend\n",
        ],
        &[
            FOUR_CELLS_REPLIES,
            "start area=4\nfinish kept=4 freed=0 moved=0 segs=2 trusted=0 tfreed=0 compaction=aborted\nm0 word 00040000\nm0 value 0000000000c4\nend live=4 trusted=0 objects=2\n",
        ],
    )
}

#[test]
fn an_abort_after_a_placed_entry_changes_no_field(rt: HostRuntime) -> Result<(), Fail> {
    runs(
        &rt,
        &[
            TWO_SEGMENTS,
            SEVEN_CELLS,
            "m0 forge a 1 00000000\nstart never\nfinish\nstart always\nfinish\nm0 name b 1\nm0 name c 0\nm0 name c 1\nm0 name d 0\nend\n",
        ],
        &[
            SEVEN_CELLS_REPLIES,
            "m0 ok\nstart area=none\nfinish kept=6 freed=1 moved=0 segs=2 trusted=0 tfreed=0 compaction=none\nstart area=4\nfinish kept=6 freed=0 moved=0 segs=2 trusted=0 tfreed=0 compaction=aborted\nm0 word 00040000\nm0 word 00050000\nm0 word 00060000\nm0 word 00070000\nend live=6 trusted=0 objects=4\n",
        ],
    )
}

#[test]
fn an_init_in_the_area_aborts_the_compaction(rt: HostRuntime) -> Result<(), Fail> {
    runs(
        &rt,
        &[
            TWO_SEGMENTS_TWO_OBJECTS,
            FOUR_CELLS,
            "m0 forge b 1 00000000\nstart always\nm0 init b 1 0f 0000000000c5\nfinish\nm0 name b 1\nm0 load b 1 0f\nend\n",
        ],
        &[
            FOUR_CELLS_REPLIES,
            "m0 ok\nstart area=4\nm0 ok\nfinish kept=4 freed=1 moved=0 segs=2 trusted=0 tfreed=0 compaction=aborted\nm0 word 00050000\nm0 value 0000000000c5\nend live=4 trusted=0 objects=2\n",
        ],
    )
}

#[test]
fn a_field_that_is_forged_to_its_own_word_is_rewritten(rt: HostRuntime) -> Result<(), Fail> {
    runs(
        &rt,
        &[
            TWO_SEGMENTS,
            SEVEN_CELLS,
            FIVE_FREED,
            "m0 forge d 0 00070000\nstart always\nfinish\nm0 name d 0\nm0 load d 0 0f\nend\n",
        ],
        &[
            SEVEN_CELLS_REPLIES,
            FIVE_FREED_REPORT,
            "m0 ok\nstart area=4\nfinish kept=2 freed=0 moved=1 segs=1 trusted=0 tfreed=0 compaction=done\nm0 word 00020000\nm0 value 0000000000c7\nend live=2 trusted=0 objects=4\n",
        ],
    )
}

#[test]
fn a_forged_word_of_a_free_entry_finds_the_cell_that_moves_there(
    rt: HostRuntime,
) -> Result<(), Fail> {
    runs(
        &rt,
        &[
            TWO_SEGMENTS,
            SEVEN_CELLS,
            FIVE_FREED,
            "m0 forge a 1 00020000\nm0 load a 1 0f\nstart always\nm0 load a 1 0f\nfinish\nm0 load a 1 0f\nend\n",
        ],
        &[
            SEVEN_CELLS_REPLIES,
            FIVE_FREED_REPORT,
            "m0 ok\nm0 fault\nstart area=4\nm0 fault\nfinish kept=2 freed=0 moved=1 segs=1 trusted=0 tfreed=0 compaction=done\nm0 value 0000000000c7\nend live=2 trusted=0 objects=4\n",
        ],
    )
}

#[test]
fn a_compaction_follows_two_exchanged_words(rt: HostRuntime) -> Result<(), Fail> {
    runs(
        &rt,
        &[
            TWO_SEGMENTS,
            SEVEN_CELLS,
            FIVE_FREED,
            "m0 forge a 0 00070000\nm0 forge d 0 00010000\nstart always\nfinish\nm0 load a 0 0f\nm0 load d 0 0f\nm0 name a 0\nend\n",
        ],
        &[
            SEVEN_CELLS_REPLIES,
            FIVE_FREED_REPORT,
            "m0 ok\nm0 ok\nstart area=4\nfinish kept=2 freed=0 moved=1 segs=1 trusted=0 tfreed=0 compaction=done\nm0 value 0000000000c7\nm0 value 0000000000c1\nm0 word 00020000\nend live=2 trusted=0 objects=4\n",
        ],
    )
}

#[test]
fn an_entry_that_a_compaction_released_faults(rt: HostRuntime) -> Result<(), Fail> {
    runs(
        &rt,
        &[
            TWO_SEGMENTS,
            SEVEN_CELLS,
            FIVE_FREED,
            "start always\nfinish\nm0 raw 00070000 0f\nm0 raw 00080000 0f\nm0 rawset 00070000 0f 0000000000d0\nend\n",
        ],
        &[
            SEVEN_CELLS_REPLIES,
            FIVE_FREED_REPORT,
            "start area=4\nfinish kept=2 freed=0 moved=1 segs=1 trusted=0 tfreed=0 compaction=done\nm0 fault\nm0 fault\nm0 fault\nend live=2 trusted=0 objects=4\n",
        ],
    )
}

#[test]
fn a_trusted_entry_is_seen_after_its_publishing_alone(rt: HostRuntime) -> Result<(), Fail> {
    runs(
        &rt,
        &[
            FOUR_OBJECTS,
            "m0 new a\nm0 tnew a 0f 0000000000c0\nm0 tload a 0f\nm0 tnew a 0f 0000000000c1\nm0 setg 0 a\nmeet\nm0 tpub a\nmeet\nm0 tpub a\nm0 tload a 0f\nm0 tload a 17\nm0 new b\nm0 share a b\nm0 tload b 0f\nm0 tnew a 0f 0000000000c1\nm0 traw 00020000 0f\nm0 tpub b\nm0 new c\nm0 tnew c 0f 0000000000c2\nm0 tpub c\nm0 new d\nm0 tnew d 0f 0000000000c3\nend\n",
        ],
        &[
            "m0 obj 0\nm0 ok\nm0 fault\nm0 pending\nm0 ok\nmeet\nm0 ok\nmeet\nm0 notyours\nm0 value 0000000000c0\nm0 fault\nm0 obj 1\nm0 ok\nm0 value 0000000000c0\nm0 taken 00010000\nm0 fault\nm0 notyours\nm0 obj 2\nm0 ok\nm0 ok\nm0 obj 3\nm0 full\nend live=0 trusted=3 objects=4\n",
        ],
    )
}

#[test]
fn a_published_entry_is_kept_and_one_of_a_dropped_object_is_freed(
    rt: HostRuntime,
) -> Result<(), Fail> {
    runs(
        &rt,
        &[
            TWO_OBJECTS,
            "m0 new a\nm0 tnew a 0f 0000000000c0\nstart never\nm0 tpub a\nfinish\nm0 tload a 0f\nm0 drop a\nm0 new b\nstart never\nfinish\nm0 tnew b 17 0000000000c1\nm0 traw 00010000 17\nm0 traw 0000ffff 17\nend\n",
        ],
        &[
            "m0 obj 0\nm0 ok\nstart area=none\nm0 ok\nfinish kept=0 freed=0 moved=0 segs=1 trusted=1 tfreed=0 compaction=none\nm0 value 0000000000c0\nm0 ok\nm0 obj 1\nstart area=none\nfinish kept=0 freed=0 moved=0 segs=1 trusted=0 tfreed=1 compaction=none\nm0 ok\nm0 fault\nm0 null\nend live=0 trusted=1 objects=2\n",
        ],
    )
}

#[test]
fn a_ticket_whose_cell_is_freed_is_gone(rt: HostRuntime) -> Result<(), Fail> {
    runs(
        &rt,
        &[
            TWO_OBJECTS,
            "m0 new a\nm0 tnew a 0f 0000000000c0\nm0 drop a\nstart never\nfinish\nm0 new a\nm0 tnew a 0f 0000000000c1\nm0 tpub a\nm0 tload a 0f\nend\n",
        ],
        &[
            "m0 obj 0\nm0 ok\nm0 ok\nstart area=none\nfinish kept=0 freed=0 moved=0 segs=1 trusted=0 tfreed=1 compaction=none\nm0 obj 1\nm0 ok\nm0 ok\nm0 value 0000000000c1\nend live=0 trusted=1 objects=2\n",
        ],
    )
}

#[test]
fn a_script_of_version_two_asks_ranges_in_both_spaces(rt: HostRuntime) -> Result<(), Fail> {
    runs(
        &rt,
        &[
            VERSION_TWO,
            "m0 new a\nm0 init a 0 20 0000000000c0\nm0 load a 0 1f-21\nm0 load a 0 20\nm0 load a 0 21-ff\nm0 store a 0 01-ff 0000000000c1\nm0 raw 00010000 01-1f\nm0 load a 0 20\nm0 tnew a ff 0000000000d0\nm0 tpub a\nm0 tload a fe-ff\nend\n",
        ],
        &[
            "m0 obj 0\nm0 ok\nm0 value 0000000000c0\nm0 value 0000000000c0\nm0 fault\nm0 ok\nm0 fault\nm0 value 0000000000c1\nm0 ok\nm0 ok\nm0 value 0000000000d0\nend live=1 trusted=1 objects=1\n",
        ],
    )
}
