// Tags, ranges of them, and words stripped of them.
use crate::asserts::assert_is;
use tag_set::{Range, Tag, all, strip};

#[test]
fn a_tag_is_a_byte_other_than_0(rt: HostRuntime) {
    for (byte, is_tag) in [(0x00, false), (0x01, true), (0x0f, true), (0xff, true)] {
        assert_is(&rt, (byte, Tag::of(byte).is_some()), (byte, is_tag));
    }
}

#[test]
fn the_old_tags_have_four_set_bits(rt: HostRuntime) {
    for (byte, is_old) in [(0x0f, true), (0x07, false), (0x00, false), (0xff, false)] {
        assert_is(&rt, (byte, Tag::old(byte).is_some()), (byte, is_old));
    }
    let tags = all();
    let [first, second, .., last] = tags;
    let found = (tags.len(), first.byte(), second.byte(), last.byte());
    assert_is(&rt, found, (70, 0x0f, 0x17, 0xf0));
}

#[test]
fn a_range_does_not_run_backwards(rt: HostRuntime) {
    let [first, .., last] = all();
    for (from, to, is_range) in [
        (last, first, false),
        (first, first, true),
        (first, last, true),
    ] {
        let ends = Range::of(from, to).map(|range| (range.first(), range.last()));
        assert_is(&rt, ends, if is_range { Some((from, to)) } else { None });
    }
}

#[test]
fn a_strip_answers_the_tags_of_its_range(rt: HostRuntime) {
    let [first, second, .., last] = all();
    let one = Range::one(first);
    let most = Range::of(second, last).expect(&rt, "no range");
    for (word, range, want) in [
        (0x400f_0000_0000_00c0, one, Some(0xc0)),
        (0x000f_0000_0000_00c0, one, Some(0xc0)),
        (0x400f_0000_0000_00c0, most, None),
        (0x4017_0000_0000_00c0, most, Some(0xc0)),
        (0x4020_0000_0000_00c0, most, Some(0xc0)),
        (0x40f0_0000_0000_00c0, most, Some(0xc0)),
        (0x40f1_0000_0000_00c0, most, None),
        (0x0100_0000_0000_0002, one, None),
        (0x0200_0000_0000_0000, one, None),
        (0x0400_0000_0000_0006, one, None),
        (0x080f_0000_0000_00c0, one, None),
        (0x800f_0000_0000_0000, one, None),
        (0, one, None),
    ] {
        assert_is(&rt, (word, strip(word, range)), (word, want));
    }
}
