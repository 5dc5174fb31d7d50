// Texts, what the grammar makes of them, and their canonical texts.
use crate::asserts::assert_is;
use script_reader::{
    ScriptErr, parse, print, printed_is_read_back, push_hex, upgrade, upgraded_is_valid,
};
use std::alloc::{AllocError, Global};
use std::process::Abort;
use std::test::Fail;

const HEADER: &str = "ept 1 seg=4 ext=1 tru=1 objects=1 mutators=2 markers=0\n";

#[test]
fn refuses_each_fault_at_its_line(rt: HostRuntime) -> Result<(), Fail> {
    // what follows the header, and the refusal
    let cases = [
        ("", ScriptErr::BadLine { line: 2 }),
        ("end", ScriptErr::BadLine { line: 2 }),
        ("m0 new a\n", ScriptErr::BadLine { line: 3 }),
        ("m0 ne", ScriptErr::BadLine { line: 2 }),
        ("# note", ScriptErr::BadLine { line: 2 }),
        ("end\nm0 new a\n", ScriptErr::BadLine { line: 3 }),
        ("end\n\n# note\nend\n", ScriptErr::BadLine { line: 5 }),
        ("end\n# note", ScriptErr::BadLine { line: 3 }),
        ("m0  new a\nend\n", ScriptErr::BadLine { line: 2 }),
        ("m0 new a \nend\n", ScriptErr::BadLine { line: 2 }),
        (" m0 new a\nend\n", ScriptErr::BadLine { line: 2 }),
        ("m0 new a\r\nend\n", ScriptErr::BadLine { line: 2 }),
        ("m0\nend\n", ScriptErr::BadLine { line: 2 }),
        ("m new a\nend\n", ScriptErr::BadLine { line: 2 }),
        ("n0 new a\nend\n", ScriptErr::BadLine { line: 2 }),
        ("meets\nend\n", ScriptErr::BadLine { line: 2 }),
        ("meet new a\nend\n", ScriptErr::BadLine { line: 2 }),
        ("mx foo\nend\n", ScriptErr::BadLine { line: 2 }),
        ("m0 new q\nend\n", ScriptErr::BadLine { line: 2 }),
        ("m0 new a b\nend\n", ScriptErr::BadLine { line: 2 }),
        ("m9 load - 7 07\nend\n", ScriptErr::BadLine { line: 2 }),
        ("start sometimes\nend\n", ScriptErr::BadLine { line: 2 }),
        ("start\nend\n", ScriptErr::BadLine { line: 2 }),
        ("finish now\nend\n", ScriptErr::BadLine { line: 2 }),
        ("m0 load a 0 07\nend\n", ScriptErr::BadTag { line: 2 }),
        ("m0 load a 0 0F\nend\n", ScriptErr::BadTag { line: 2 }),
        ("m0 load a 0 0f-17\nend\n", ScriptErr::BadTag { line: 2 }),
        ("m00 raw 0 07\nend\n", ScriptErr::BadTag { line: 2 }),
        ("mx new a\nend\n", ScriptErr::BadNumber { line: 2 }),
        ("m00 new a\nend\n", ScriptErr::BadNumber { line: 2 }),
        ("m9 name a 00\nend\n", ScriptErr::BadNumber { line: 2 }),
        ("m0 init a 0 0f c0\nend\n", ScriptErr::BadNumber { line: 2 }),
        (
            "m0 init a 9 0f 0000000000C0\nend\n",
            ScriptErr::BadNumber { line: 2 },
        ),
        ("m0 raw 0001000 0f\nend\n", ScriptErr::BadNumber { line: 2 }),
        (
            "m0 getg a 1000000000\nend\n",
            ScriptErr::BadNumber { line: 2 },
        ),
        ("m2 new a\nend\n", ScriptErr::OutOfRange { line: 2 }),
        ("m0 link a 4 -\nend\n", ScriptErr::OutOfRange { line: 2 }),
        ("m0 load a 2 0f\nend\n", ScriptErr::OutOfRange { line: 2 }),
        ("m0 setg 16 a\nend\n", ScriptErr::OutOfRange { line: 2 }),
        ("finish\nend\n", ScriptErr::BadMeet { line: 2 }),
        ("start never\nend\n", ScriptErr::BadMeet { line: 3 }),
        (
            "start never\nmeet\nstart auto\nend\n",
            ScriptErr::BadMeet { line: 4 },
        ),
    ];
    for (body, want) in cases {
        let text = format!(in rt.alloc(); "{HEADER}{body}")?;
        let refusal = parse(rt.alloc(), text.as_bytes()).err();
        assert_is(&rt, (body, refusal), (body, Some(want)));
    }
    Ok(())
}

// Each line, as the only one between the header of version 2 and the end, is refused for its tag.
fn assert_bad_tags(rt: &(impl AllocGlobal + Abort), lines: &[&str]) -> Result<(), Fail> {
    let header = "ept 2 seg=4 ext=1 tru=1 objects=1 mutators=1 markers=0\n";
    for line in lines {
        let text = format!(in rt.alloc(); "{header}{line}\nend\n")?;
        let refusal = parse(rt.alloc(), text.as_bytes()).err();
        assert_is(
            rt,
            (*line, refusal),
            (*line, Some(ScriptErr::BadTag { line: 2 })),
        );
    }
    Ok(())
}

#[test]
fn a_range_of_one_has_no_dash(rt: HostRuntime) -> Result<(), Fail> {
    assert_bad_tags(&rt, &["m0 load a 0 20-20"])
}

#[test]
fn a_range_does_not_run_backwards(rt: HostRuntime) -> Result<(), Fail> {
    assert_bad_tags(&rt, &["m0 load a 0 21-20"])
}

#[test]
fn no_tag_is_00(rt: HostRuntime) -> Result<(), Fail> {
    assert_bad_tags(
        &rt,
        &[
            "m0 init a 0 00 0000000000c0",
            "m0 load a 0 00",
            "m0 load a 0 00-20",
        ],
    )
}

#[test]
fn a_cell_has_one_tag_and_no_range(rt: HostRuntime) -> Result<(), Fail> {
    assert_bad_tags(
        &rt,
        &[
            "m0 init a 0 20-21 0000000000c0",
            "m0 tnew a 20-21 0000000000c0",
        ],
    )
}

#[test]
fn a_misspelled_range_is_no_range(rt: HostRuntime) -> Result<(), Fail> {
    assert_bad_tags(
        &rt,
        &[
            "m0 load a 0 20-",
            "m0 load a 0 20_21",
            "m0 load a 0 2-021",
            "m0 load a 0 20-2F",
            "m0 load a 0 20-21-22",
        ],
    )
}

#[test]
fn refuses_each_bad_header(rt: HostRuntime) -> Result<(), Fail> {
    let cases = [
        "",
        "\n# note\n",
        "# note",
        "ept 1 seg=4 ext=1 tru=1 objects=1 mutators=1 markers=0",
        " ept 1 seg=4 ext=1 tru=1 objects=1 mutators=1 markers=0\nend\n",
        "ept 3 seg=4 ext=1 tru=1 objects=1 mutators=1 markers=0\nend\n",
        "ept 02 seg=4 ext=1 tru=1 objects=1 mutators=1 markers=0\nend\n",
        "ept 1 seg=8 ext=1 tru=1 objects=1 mutators=1 markers=0\nend\n",
        "ept 1 seg=256 ext=257 tru=1 objects=1 mutators=1 markers=0\nend\n",
        "ept 1 seg=4 ext=1 tru=0 objects=1 mutators=1 markers=0\nend\n",
        "ept 1 seg=4 ext=1 tru=1 objects=16385 mutators=1 markers=0\nend\n",
        "ept 1 seg=4 ext=1 tru=1 objects=1 mutators=9 markers=0\nend\n",
        "ept 1 seg=4 ext=1 tru=1 objects=1 mutators=1 markers=5\nend\n",
        "ept 1 seg=4 ext=1 tru=1 objects=1 mutators=01 markers=0\nend\n",
        "ept 1 ext=1 seg=4 tru=1 objects=1 mutators=1 markers=0\nend\n",
        "ept 1 seg=4 ext=1 tru=1 objects=1 mutators=1 markers=0 \nend\n",
    ];
    for text in cases {
        let refusal = parse(rt.alloc(), text.as_bytes()).err();
        assert_is(&rt, (text, refusal), (text, Some(ScriptErr::BadHeader)));
    }
    Ok(())
}

#[test]
fn prints_what_it_read(rt: HostRuntime) -> Result<(), Fail> {
    // a text, and its canonical text
    let every_form = "ept 1 seg=256 ext=256 tru=1 objects=16384 mutators=8 markers=4\n\
        m0 new a\nm0 drop p\nm0 link a 3 b\nm0 link a 0 -\nm0 fetch b a 3\nm0 setg 15 a\nm0 setg 0 -\nm0 getg c 15\n\
        m0 init a 1 f0 ffffffffffff\nm0 load a 0 17\nm0 store a 0 0f 0000000000c1\nm0 swap a 0 0f 0123456789ab\n\
        m0 name a 1\nm0 forge a 1 deadbeef\nm7 raw 00010000 0f\nm7 rawset ffffffff 8d 0000000000c0\n\
        m7 tnew a 0f 0000000000c0\nm7 tpub a\nm7 tload a 0f\nm7 traw 00010000 0f\nm7 share a b\nmeet\n\
        start auto\nm1 new a\nfinish\nstart always\nfinish\nstart never\nfinish\nend\n";
    let ranges = "ept 2 seg=4 ext=1 tru=1 objects=1 mutators=1 markers=0\n\
        m0 init a 0 01 0000000000c0\nm0 tnew a ff 0000000000c0\nm0 load a 0 20\nm0 load a 0 01-ff\n\
        m0 store a 0 20-21 0000000000c1\nm0 swap a 0 0f-17 0000000000c1\nm0 raw 00010000 20-21\n\
        m0 rawset 00010000 20-21 0000000000c1\nm0 tload a 20-21\nm0 traw 00010000 20-21\nend\n";
    let header = "ept 1 seg=4 ext=1 tru=1 objects=2 mutators=2 markers=0\n";
    let sorted = format!(in rt.alloc(); "{header}m0 new a\nm1 new a\nend\n")?;
    let mixed = format!(in rt.alloc(); "# two\n{header}m1 new a\n\nm0 new a\nend\n#\n")?;
    let cases = [
        (every_form, every_form),
        (ranges, ranges),
        (mixed.as_str(), sorted.as_str()),
    ];
    printed_is_read_back();
    for (text, want) in cases {
        let script = parse(rt.alloc(), text.as_bytes())?;
        let printed = print(rt.alloc(), &script)?;
        assert_is(&rt, printed.as_str(), want);
    }
    Ok(())
}

#[test]
fn an_upgraded_script_has_version_2(rt: HostRuntime) -> Result<(), Fail> {
    let body = "seg=4 ext=1 tru=1 objects=1 mutators=1 markers=0\nm0 new a\nm0 load a 0 17\nend\n";
    let text = format!(in rt.alloc(); "ept 1 {body}")?;
    let want = format!(in rt.alloc(); "ept 2 {body}")?;
    upgraded_is_valid();
    let script = upgrade(parse(rt.alloc(), text.as_bytes())?);
    let printed = print(rt.alloc(), &script)?;
    assert_is(&rt, printed.as_str(), want.as_str());
    Ok(())
}

#[test]
fn hexadecimal_digits_are_the_last_ones(rt: HostRuntime) -> Result<(), Fail> {
    for (digits, number, want) in [
        (2, 0xf0, "f0"),
        (8, 0x0001_0000, "00010000"),
        (2, 0x1ab, "ab"),
        (0, 1, ""),
    ] {
        let mut text = String::new(rt.alloc());
        push_hex(&mut text, digits, number)?;
        assert_is(&rt, text.as_str(), want);
    }
    Ok(())
}

// A script of so many operations.
fn drops(alloc: Global, count: u32) -> Result<String, AllocError> {
    let mut text = String::new(alloc);
    text.push_str(HEADER)?;
    for _ in 0..count {
        text.push_str("m0 drop a\n")?;
    }
    text.push_str("end\n")?;
    Ok(text)
}

#[test]
fn refuses_an_operation_too_many(rt: HostRuntime) -> Result<(), Fail> {
    let cases = [
        (200_000, None),
        (200_001, Some(ScriptErr::TooMany { line: 200_002 })),
    ];
    for (count, want) in cases {
        let text = drops(rt.alloc(), count)?;
        let refusal = parse(rt.alloc(), text.as_bytes()).err();
        assert_is(&rt, (count, refusal), (count, want));
    }
    Ok(())
}
