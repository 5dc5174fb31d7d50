// The start of the evacuation area by each policy.
use crate::asserts::assert_is;
use evac_area::decide;
use plain_table::Policy::{Always, Auto, Never};

#[test]
fn auto_asks_for_four_segments_and_a_tenth_free(rt: HostRuntime) {
    for (segments, used, size, area) in [
        (4, 32, 16, Some(48)),
        (20, 72, 4, Some(76)),
        // three segments
        (3, 1, 16, None),
        // half of what is free has no whole segment
        (4, 33, 16, None),
        // less than a tenth is free
        (21, 76, 4, None),
    ] {
        assert_is(
            &rt,
            (used, decide(Auto, segments, used, size)),
            (used, area),
        );
    }
}

#[test]
fn always_takes_half_of_the_segments(rt: HostRuntime) {
    let areas = (decide(Always, 5, 3, 4), decide(Always, 1, 1, 4));
    assert_is(&rt, areas, (Some(12), None));
}

#[test]
fn never_takes_none(rt: HostRuntime) {
    assert_is(&rt, decide(Never, 8, 1, 16), None);
}
