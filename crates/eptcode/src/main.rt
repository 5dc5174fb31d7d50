//! `eptcode N`: runs two writers and two readers, with N calls each, over four code entries, and
//! writes one line of counts to standard output.
//!
//! `main` makes the table, hands it with the words of the command line and standard output to
//! `code_main` of `code_run`, which carries every promise, and ends with the exit status of its
//! answer. It prints nothing itself.
#![tactic(auto)]

use code_run::{CodeStatus, code_main, open_table};
use ept_io::WriteSink;
use std::alloc::AllocError;
use std::io::ErrorKind;
use std::process::ExitCode;
use std::rt::Env;
use std::thread::Threads;
use std::{env, io};

fn main(rt: HostRuntime) -> ExitCode {
    ExitCode::from(run(&rt).code())
}

/// Runs the program over the words and standard output of the process.
fn run<R: AllocGlobal + Env + Print + Threads + Sync>(rt: &R) -> CodeStatus {
    let words = match words(rt) {
        Ok(words) => words,
        Err(status) => return status,
    };
    match open_table(rt.alloc()) {
        Ok((table, mut seat)) => code_main(
            rt,
            rt.alloc(),
            words.as_slice(),
            &mut WriteSink::new(io::writer(rt)),
            &table,
            &mut seat,
        ),
        Err(_) => CodeStatus::OutOfMemory,
    }
}

/// The words after the program's name. Words that are not text are no number.
fn words<R: AllocGlobal + Env>(rt: &R) -> Result<Vec<String>, CodeStatus> {
    match env::args(rt) {
        Ok(all) => match all.skip(1).collect(rt.alloc()) {
            Ok(words) => Ok(words),
            Err(AllocError) => Err(CodeStatus::OutOfMemory),
        },
        Err(e) if e.kind() == ErrorKind::OutOfMemory => Err(CodeStatus::OutOfMemory),
        Err(_) => Err(CodeStatus::Usage),
    }
}
