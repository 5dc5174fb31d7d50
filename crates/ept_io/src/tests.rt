use crate::asserts::assert_is;
use crate::faults::FaultCount;
use crate::{
    Failed, MemorySink, MemorySource, ReadErr, ReadSource, Sink, Source, WriteSink, read_script,
    write_all,
};
use std::alloc::{AllocError, Global};
use std::io;
use std::io::{ErrorKind, Read, Write};
use std::test::Fail;

const TEXT: &[u8; 7] = b"abcdefg";

// A source of TEXT in pieces of 3 that fails at the given reads.
fn source(alloc: Global, fail_at: &[u32]) -> Result<MemorySource, AllocError> {
    let bytes = Vec::from_slice(alloc, TEXT)?;
    let fail_at = Vec::from_slice(alloc, fail_at)?;
    Ok(MemorySource::new(bytes, 3, fail_at))
}

#[test]
fn a_memory_source_gives_pieces_and_fails_where_planned(rt: HostRuntime) -> Result<(), Fail> {
    let mut source = source(rt.alloc(), &[2, 4])?;
    let mut buf = [b'-'; 4];
    for (want, holds) in [
        (Ok(3), b"abc-"),
        (Err(Failed), b"abc-"),
        (Ok(3), b"def-"),
        (Err(Failed), b"def-"),
        (Ok(1), b"gef-"),
        (Ok(0), b"gef-"),
    ] {
        let found = source.read(&mut buf);
        assert_is(&rt, (found, buf), (want, *holds));
    }
    Ok(())
}

#[test]
fn a_memory_sink_takes_pieces_up_to_its_room(rt: HostRuntime) -> Result<(), Fail> {
    let fail_at = Vec::from_slice(rt.alloc(), &[2])?;
    let mut sink = MemorySink::new(rt.alloc(), 5, 3, fail_at)?;
    for (want, holds) in [
        (Ok(3), b"abc".as_slice()),
        (Err(Failed), b"abc".as_slice()),
        (Ok(2), b"abcab".as_slice()),
        (Err(Failed), b"abcab".as_slice()),
    ] {
        let found = sink.write(TEXT);
        assert_is(&rt, (found, sink.bytes()), (want, holds));
    }
    Ok(())
}

#[test]
fn a_script_is_read_up_to_the_limit(rt: HostRuntime) -> Result<(), Fail> {
    for (limit, fail_at, want) in [
        (7, 9, None),
        (6, 9, Some(ReadErr::TooLong)),
        (7, 4, Some(ReadErr::ReadFault)),
        (2, 2, Some(ReadErr::TooLong)),
        (2, 1, Some(ReadErr::ReadFault)),
    ] {
        let mut source = source(rt.alloc(), &[fail_at])?;
        let read = read_script(rt.alloc(), &mut source, limit);
        let is_text = read
            .as_ref()
            .is_ok_and(|script| script.as_slice() == TEXT.as_slice());
        assert_is(
            &rt,
            (limit, read.err(), is_text),
            (limit, want, want.is_none()),
        );
    }
    Ok(())
}

#[test]
fn a_text_is_written_as_far_as_there_is_room(rt: HostRuntime) -> Result<(), Fail> {
    for (room, fail_at, want, holds) in [
        (7, 9, Ok(()), b"abcdefg".as_slice()),
        (5, 9, Err(Failed), b"abcde".as_slice()),
        (7, 2, Err(Failed), b"abc".as_slice()),
        (0, 9, Err(Failed), b"".as_slice()),
    ] {
        let fail_at = Vec::from_slice(rt.alloc(), &[fail_at])?;
        let mut sink = MemorySink::new(rt.alloc(), room, 3, fail_at)?;
        let answer = write_all(&mut sink, TEXT);
        assert_is(&rt, (room, answer, sink.bytes()), (room, want, holds));
    }
    Ok(())
}

// A reader that fails once, and then gives what `inner` gives.
#[derive(Drop)]
struct FailsOnce<'a> {
    has_failed: bool,
    inner: &'a [u8],
}

impl Read for FailsOnce<'_> {
    fn read(&mut self, buf: &mut [u8]) -> io::Result<usize> {
        if self.has_failed {
            return self.inner.read(buf);
        }
        self.has_failed = true;
        Err(io::Error::from(ErrorKind::TimedOut))
    }
}

// A writer that takes nothing.
#[derive(Drop)]
struct Full;

impl Write for Full {
    fn write(&mut self, _buf: &[u8]) -> io::Result<usize> {
        Ok(0)
    }

    fn flush(&mut self) -> io::Result<()> {
        Ok(())
    }
}

// What no contract says over a reader that tells nothing: that the bytes are its own.
#[test]
fn the_adapters_pass_bytes_on_and_faults_too(rt: HostRuntime) -> Result<(), Fail> {
    let long = [b'x'; 10_000];
    let mut source = ReadSource::new(FailsOnce {
        has_failed: false,
        inner: &long,
    });
    let first = read_script(rt.alloc(), &mut source, 10_000);
    assert_is(&rt, first.err(), Some(ReadErr::ReadFault));
    let script = read_script(rt.alloc(), &mut source, 10_000)?;
    assert_is(&rt, script.as_slice() == long.as_slice(), true);

    let mut out = Vec::new(rt.alloc());
    let answer = write_all(&mut WriteSink::new(&mut out), &long);
    assert_is(
        &rt,
        (answer, out.as_slice() == long.as_slice()),
        (Ok(()), true),
    );
    let answer = write_all(&mut WriteSink::new(Full), TEXT);
    assert_is(&rt, answer, Err(Failed));
    Ok(())
}

// With the test's own standard input, which is empty, and its standard output.
#[test]
fn the_adapters_fit_the_standard_streams(rt: HostRuntime) -> Result<(), Fail> {
    let script = read_script(rt.alloc(), &mut ReadSource::new(rt.reader()), 10)?;
    let answer = write_all(&mut WriteSink::new(io::writer(&rt)), TEXT);
    assert_is(&rt, (script.len(), answer), (0, Ok(())));
    Ok(())
}

// A count at its last value can't rise: that a call failed is then said by its answer alone.
#[test]
fn a_count_of_faults_rises_to_its_last_value_and_stays(rt: HostRuntime) -> Result<(), Fail> {
    for (count, next) in [
        (0, 1),
        (u64::MAX - 2, u64::MAX - 1),
        (u64::MAX - 1, u64::MAX),
        (u64::MAX, u64::MAX),
    ] {
        let mut faults = FaultCount { count };
        let answer = faults.rise();
        assert_is(&rt, (answer, faults.count), (Failed, next));
    }
    Ok(())
}
