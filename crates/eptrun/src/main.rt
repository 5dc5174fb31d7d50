//! `eptrun`: runs a script of table operations from standard input, and writes its report to standard output.
//!
//! `main` hands the words of the command line, standard input and standard output to `run_main` of `table_run`, which
//! carries every promise, and ends with the exit status of its answer. It prints nothing itself.
#![tactic(auto)]

use ept_io::{ReadSource, WriteSink};
use std::alloc::AllocError;
use std::io::ErrorKind;
use std::process::ExitCode;
use std::rt::Env;
use std::thread::Threads;
use std::{env, io};
use table_run::{Status, run_main};

fn main(rt: HostRuntime) -> ExitCode {
    ExitCode::from(run(&rt).code())
}

/// Runs the program over the words, standard input and standard output of the process.
fn run<R: AllocGlobal + Env + Input + Print + Threads + Sync>(rt: &R) -> Status {
    match words(rt) {
        Ok(words) => run_main(
            rt,
            rt.alloc(),
            words.as_slice(),
            &mut ReadSource::new(rt.reader()),
            &mut WriteSink::new(io::writer(rt)),
        ),
        Err(status) => status,
    }
}

/// The words after the program's name. Words that are not text have no known form.
fn words<R: AllocGlobal + Env>(rt: &R) -> Result<Vec<String>, Status> {
    match env::args(rt) {
        Ok(all) => match all.skip(1).collect(rt.alloc()) {
            Ok(words) => Ok(words),
            Err(AllocError) => Err(Status::OutOfMemory),
        },
        Err(e) if e.kind() == ErrorKind::OutOfMemory => Err(Status::OutOfMemory),
        Err(_) => Err(Status::Usage),
    }
}
