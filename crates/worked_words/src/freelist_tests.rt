// Freelist words and used indexes that were worked out by hand.
use crate::asserts::assert_is;
use free_chain::{head, len, next_free, pack};

#[test]
fn a_word_has_its_head_below_its_length(rt: HostRuntime) {
    let table = [
        (1, 3, 0x0000_0003_0000_0001),
        (4, 0, 0x0000_0000_0000_0004),
        (0xffff_ffff, 0xffff_ffff, 0xffff_ffff_ffff_ffff),
    ];
    for (first, count, word) in table {
        let found = (pack(first, count), head(word), len(word));
        assert_is(&rt, found, (word, first, count));
    }
}

#[test]
fn the_next_free_index_is_the_least(rt: HostRuntime) {
    let used = [true, false, true, true, false, true];
    // the end is no index of the list, and follows the last one and itself
    for (from, next) in [(0, 1), (1, 1), (2, 4), (5, 6), (6, 6)] {
        assert_is(&rt, (from, next_free(&used, from)), (from, next));
    }
}
