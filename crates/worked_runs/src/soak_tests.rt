// The words `soak N`: runs of generated scripts, with eight mutators and four markers on threads.
use crate::tests::{check, plain};
use std::process::Abort;
use std::test::Fail;
use std::thread::Threads;
use table_run::Status;

// Two runs of one script on threads, whose histories may differ.
fn writes_twice<R: AllocGlobal + Abort + Threads + Sync>(
    rt: &R,
    seed: &str,
    line: &str,
) -> Result<(), Fail> {
    for _ in 0..2 {
        check(
            rt,
            plain(&["soak", seed]),
            &["no script\n"],
            Status::Ok,
            line,
        )?;
    }
    Ok(())
}

#[test]
fn a_soak_writes_the_line_of_its_seed(rt: HostRuntime) -> Result<(), Fail> {
    for (seed, line) in [
        ("0", "soak live=1200 sum=00000057d140 gone=8400\n"),
        ("1", "soak live=1200 sum=00000057d5f0 gone=8400\n"),
        (
            "281474976710655",
            "soak live=1200 sum=00000057cc90 gone=8400\n",
        ),
    ] {
        writes_twice(&rt, seed, line)?;
    }
    Ok(())
}

#[test]
fn words_that_spell_no_seed_are_usage(rt: HostRuntime) -> Result<(), Fail> {
    for words in [
        ["soak", "01"].as_slice(),
        &["soak"],
        &["soak", "x"],
        &["soak", ""],
        &["soak", "-1"],
        &["soak", "18446744073709551616"],
        &["Soak", "1"],
        &["run", "1"],
        &["soak", "1", "2"],
    ] {
        check(&rt, plain(words), &["end\n"], Status::Usage, "")?;
    }
    Ok(())
}
