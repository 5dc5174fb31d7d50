// The adapters over a reader that gives and a writer that takes a few bytes a call, with an error
// at each call in turn. Both tell their bytes, so the contracts of the calls over them are exact.
ghost use Rattle.std.specs.Prelude.{◌≡◌, ◌≤◌, ◌++◌, Some, IfOk, OnOk};

use crate::asserts::assert_is;
use crate::{Failed, ReadErr, ReadSource, WriteSink, read_script, write_all};
use std::alloc::Global;
use std::io;
use std::io::{ErrorKind, Read, Write};
use std::test::Fail;

const SCRIPT: &[u8; 28] = b"m0 new a\nm0 load a 0 0f\nend\n";

// What the calls so far were, and the one to come that errs, counted from 1, with its error.
#[derive(Clone, Copy)]
struct Calls {
    made: usize,
    err_at: usize,
    kind: ErrorKind,
}

impl Calls {
    fn new(err_at: usize, kind: ErrorKind) -> Calls {
        Calls {
            made: 0,
            err_at,
            kind,
        }
    }

    fn begin(&mut self) -> io::Result<()> {
        self.made = self.made.saturating_add(1);
        if self.made == self.err_at {
            return Err(io::Error::from(self.kind));
        }
        Ok(())
    }
}

// A reader that gives at most `piece` bytes a call.
#[derive(Drop)]
struct PieceReader<'a> {
    left: &'a [u8],
    piece: usize,
    calls: Calls,
    ghost some: { 1 ≤ piece },
}

impl<'a> PieceReader<'a> {
    fn new(left: &'a [u8], piece: usize, calls: Calls) -> PieceReader<'a>
        requires { 1 ≤ piece }
        ensures { result.left.now ≡ left.now }
    {
        PieceReader { left, piece, calls }
    }
}

impl Read for PieceReader<'_> {
    ghost remaining = { λ r. Some r.left.now };

    fn read(&mut self, buf: &mut [u8]) -> io::Result<usize> {
        self.calls.begin()?;
        let n = self.left.len().min(buf.len()).min(self.piece);
        buf[..n].copy_from_slice(&self.left[..n]);
        self.left = &self.left[n..];
        Ok(n)
    }
}

// A writer that takes at most `piece` bytes a call.
#[derive(Drop)]
struct PieceWriter {
    bytes: Vec<u8>,
    piece: usize,
    calls: Calls,
}

impl PieceWriter {
    fn new(alloc: Global, piece: usize, calls: Calls) -> PieceWriter {
        PieceWriter {
            bytes: Vec::new(alloc),
            piece,
            calls,
        }
    }
}

impl Write for PieceWriter {
    ghost contents = { λ w. Some w.bytes.items };

    fn write(&mut self, buf: &[u8]) -> io::Result<usize> {
        self.calls.begin()?;
        let n = buf.len().min(self.piece);
        self.bytes.extend_from_slice(&buf[..n])?;
        Ok(n)
    }

    fn flush(&mut self) -> io::Result<()> {
        Ok(())
    }
}

// What the contracts say over such a reader: its bytes, and no others.
fn read_all(alloc: Global, reader: &mut PieceReader<'_>) -> Result<Vec<u8>, ReadErr>
    ensures { IfOk result (λ script. script.items ≡ reader.old.left.now) }
{
    read_script(alloc, &mut ReadSource::new(reader), usize::MAX)
}

// What the contracts say over such a writer: the bytes are appended, and nothing else.
fn append_all(writer: PieceWriter, bytes: &[u8]) -> (PieceWriter, Result<(), Failed>)
    ensures { OnOk result.1 (result.0.bytes.items ≡ writer.bytes.items ++ bytes.now) }
{
    let mut sink = WriteSink::new(writer);
    let answer = write_all(&mut sink, bytes);
    (sink.into_inner(), answer)
}

#[test]
fn short_reads_and_writes_lose_no_byte(rt: HostRuntime) -> Result<(), Fail> {
    for piece in 1..=SCRIPT.len() {
        let calls = Calls::new(0, ErrorKind::TimedOut);
        let mut reader = PieceReader::new(SCRIPT, piece, calls);
        let script = read_all(rt.alloc(), &mut reader)?;
        let writer = PieceWriter::new(rt.alloc(), piece, calls);
        let (writer, answer) = append_all(writer, SCRIPT);
        assert_is(
            &rt,
            (piece, script.as_slice(), answer, writer.bytes.as_slice()),
            (piece, SCRIPT.as_slice(), Ok(()), SCRIPT.as_slice()),
        );
    }
    Ok(())
}

// The read with number `n` comes after `n - 1` bytes, and the last one finds the end.
#[test]
fn a_fault_at_each_byte_ends_the_reading_there(rt: HostRuntime) -> Result<(), Fail> {
    for n in 1..=SCRIPT.len() + 1 {
        let calls = Calls::new(n, ErrorKind::TimedOut);
        let mut source = ReadSource::new(PieceReader::new(SCRIPT, 1, calls));
        let first = read_script(rt.alloc(), &mut source, SCRIPT.len());
        // No byte was taken by the read that failed, and none after it.
        let rest = read_script(rt.alloc(), &mut source, SCRIPT.len())?;
        assert_is(
            &rt,
            (n, first.err(), Some(rest.as_slice())),
            (n, Some(ReadErr::ReadFault), SCRIPT.get(n - 1..)),
        );
    }
    Ok(())
}

#[test]
fn a_fault_at_each_byte_ends_the_writing_there(rt: HostRuntime) -> Result<(), Fail> {
    for n in 1..=SCRIPT.len() {
        let calls = Calls::new(n, ErrorKind::TimedOut);
        let writer = PieceWriter::new(rt.alloc(), 1, calls);
        let (writer, answer) = append_all(writer, SCRIPT);
        assert_is(
            &rt,
            (writer.calls.made, answer, Some(writer.bytes.as_slice())),
            (n, Err(Failed), SCRIPT.get(..n - 1)),
        );
    }
    Ok(())
}

#[test]
fn an_interrupted_call_is_made_again(rt: HostRuntime) -> Result<(), Fail> {
    for n in 1..=SCRIPT.len() + 1 {
        let calls = Calls::new(n, ErrorKind::Interrupted);
        let mut reader = PieceReader::new(SCRIPT, 1, calls);
        let script = read_all(rt.alloc(), &mut reader)?;
        let writer = PieceWriter::new(rt.alloc(), 1, calls);
        let (writer, answer) = append_all(writer, SCRIPT);
        assert_is(
            &rt,
            (n, script.as_slice(), answer, writer.bytes.as_slice()),
            (n, SCRIPT.as_slice(), Ok(()), SCRIPT.as_slice()),
        );
    }
    Ok(())
}

// One read for each byte, and one that finds the end, passes the limit or fails.
#[test]
fn no_read_follows_the_end_a_fault_or_the_limit(rt: HostRuntime) -> Result<(), Fail> {
    for n in 1..=SCRIPT.len() {
        for (limit, err_at, want) in [
            (SCRIPT.len(), 0, SCRIPT.len() + 1),
            (SCRIPT.len(), n, n),
            (n - 1, 0, n),
        ] {
            let calls = Calls::new(err_at, ErrorKind::TimedOut);
            let mut reader = PieceReader::new(SCRIPT, 1, calls);
            let _ = read_script(rt.alloc(), &mut ReadSource::new(&mut reader), limit);
            assert_is(&rt, (n, reader.calls.made), (n, want));
        }
    }
    Ok(())
}

// A write that takes nothing is a fault, at each byte.
#[test]
fn a_full_writer_is_a_fault(rt: HostRuntime) -> Result<(), Fail> {
    for room in 0..SCRIPT.len() {
        let mut memory = [0u8; 28];
        let mut left = &mut memory[..room];
        let answer = write_all(&mut WriteSink::new(&mut left), SCRIPT);
        assert_is(
            &rt,
            (room, answer, Some(&memory[..room])),
            (room, Err(Failed), SCRIPT.get(..room)),
        );
    }
    Ok(())
}
