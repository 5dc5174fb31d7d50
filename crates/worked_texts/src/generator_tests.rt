// The generated script as text, single lines of it, and the words of seeds.
use crate::asserts::assert_is;
use plain_table::Op;
use script_generator::{generate, seed_of};
use script_reader::{parse, print};
use std::test::Fail;

#[test]
fn is_read_back(rt: HostRuntime) -> Result<(), Fail> {
    let script = generate(rt.alloc(), u64::MAX)?;
    let text = print(rt.alloc(), &script)?;
    let first = "ept 1 seg=16 ext=4096 tru=1 objects=10000 mutators=8 markers=4\nstart auto\n\
        m0 new a\nm0 init a 0 0f ffffffffffff\nm0 getg b 0\nm0 link a 0 b\nm0 setg 0 a\n\
        m0 new a\nm0 init a 0 17 000000000000\nm0 new a\nm0 init a 0 1b 000000000001\n";
    let last = "m7 drop a\nm7 drop b\nstart auto\nfinish\nstart auto\nfinish\nend\n";
    let is_short = text.len() < 1_000_000;
    let has_ends = (
        text.as_str().starts_with(first),
        text.as_str().ends_with(last),
    );
    let read = parse(rt.alloc(), text.as_bytes())?;
    let again = print(rt.alloc(), &read)?;
    let is_same = again.as_str() == text.as_str();
    assert_is(
        &rt,
        (is_short, has_ends, is_same),
        (true, (true, true), true),
    );
    Ok(())
}

#[test]
fn counts_its_lines(rt: HostRuntime) -> Result<(), Fail> {
    let script = generate(rt.alloc(), 0)?;
    let text = print(rt.alloc(), &script)?;
    // the header, 22,816 operations, 16 meets and the end
    let counts = (script.phases.len(), text.as_str().lines().count());
    assert_is(&rt, counts, (17, 22_834));
    Ok(())
}

#[test]
fn a_mutator_makes_its_objects(rt: HostRuntime) -> Result<(), Fail> {
    let script = generate(rt.alloc(), 5)?;
    // the third round, and mutator 3 in it
    let phase = script.phases.get(5).expect(&rt, "no third round");
    let ops = phase.calls.get(3).expect(&rt, "no mutator 3");
    assert_is(&rt, ops.len(), 475);
    for (place, want) in [
        (0, Op::New { var: 0 }),
        (
            1,
            Op::Init {
                var: 0,
                f: 0,
                tag: 0x35,
                value: 4005,
            },
        ),
        (2, Op::GetG { into: 1, g: 3 }),
        (
            3,
            Op::Link {
                var: 0,
                k: 0,
                target: Some(1),
            },
        ),
        (
            4,
            Op::SetG {
                g: 3,
                target: Some(0),
            },
        ),
        (473, Op::New { var: 0 }),
        (
            474,
            Op::Init {
                var: 0,
                f: 0,
                tag: 0xf0,
                value: 4204,
            },
        ),
    ] {
        assert_is(&rt, ops.get(place).copied(), Some(want));
    }
    Ok(())
}

#[test]
fn a_seed_has_no_leading_zero(rt: HostRuntime) {
    for (word, want) in [
        ("0", Some(0)),
        ("7", Some(7)),
        ("120", Some(120)),
        ("18446744073709551615", Some(u64::MAX)),
        ("18446744073709551616", None),
        ("99999999999999999999", None),
        ("100000000000000000000000", None),
        ("", None),
        ("00", None),
        ("07", None),
        ("+7", None),
        ("-7", None),
        ("7 ", None),
        ("1f", None),
    ] {
        assert_is(&rt, (word, seed_of(word)), (word, want));
    }
}
