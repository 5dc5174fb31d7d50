// Reads and writes of a code table, one by one.
use crate::asserts::assert_is;
use code_steps::{CodeRead, CodeTable, Wrote, read, write};
use std::test::Fail;

#[test]
fn one_entry_up_to_the_last_sequence(rt: HostRuntime) -> Result<(), Fail> {
    let start = u64::MAX - 3;
    let (table, mut seat) = CodeTable::start(rt.alloc(), &[(1, 2)], start)?;
    let opening = read(&table, &mut seat, 0);
    let first = write(&table, &mut seat, 0, 3, 4);
    let stored = read(&table, &mut seat, 0);
    let second = write(&table, &mut seat, 0, 5, 6);
    let still = read(&table, &mut seat, 0);
    let words = table.finish(seat);
    let want = CodeRead::Pair {
        code: 1,
        entry: 2,
        seq: start,
    };
    let last = CodeRead::Pair {
        code: 3,
        entry: 4,
        seq: start + 2,
    };
    let wrote = Wrote::Done { seq: start + 2 };
    assert_is(&rt, (opening, stored, still), (want, last, last));
    assert_is(&rt, (first, second), (wrote, Wrote::Spent));
    assert_is(&rt, words.as_slice(), &[start + 2, 3, 4]);
    Ok(())
}

#[test]
fn two_seats_see_one_table(rt: HostRuntime) -> Result<(), Fail> {
    let (table, mut seat) = CodeTable::start(rt.alloc(), &[(1, 2), (3, 4)], 0)?;
    let mut other = seat.split(&table);
    let wrote = write(&table, &mut other, 1, 5, 6);
    let seen = read(&table, &mut seat, 1);
    seat.join(&table, other);
    let untouched = read(&table, &mut seat, 0);
    let words = table.finish(seat);
    let written = CodeRead::Pair {
        code: 5,
        entry: 6,
        seq: 2,
    };
    let opening = CodeRead::Pair {
        code: 1,
        entry: 2,
        seq: 0,
    };
    assert_is(&rt, (seen, untouched), (written, opening));
    assert_is(&rt, wrote, Wrote::Done { seq: 2 });
    assert_is(&rt, words.as_slice(), &[0, 1, 2, 2, 5, 6]);
    Ok(())
}
