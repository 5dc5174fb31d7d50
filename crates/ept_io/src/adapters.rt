// The edge to the outside: a source over any reader of std, and a sink over any writer. They tell
// the bytes that the reader and the writer tell, which the process's own streams don't. By std's
// contracts one that tells nothing may tell its bytes later; of such a one they go on telling
// nothing.
ghost use Rattle.std.specs.Prelude.{◌≡◌, ◌≢◌, ◌<◌, ◌≤◌, Some, length, take, IfErr, IfOk, IfSome, OnErr};
ghost use Rattle.std.specs.IoError.{error_kind};
ghost use Rattle.std.specs.Io.KnownBytes.{IsAtEnd, ReadConsumes, WriteAppends};
ghost use Rattle.std.specs.Io.{ReadsAtMost, WritesAtMost};
ghost use Rattle.ept_io.specs.Streams.{HasFailed, HasGiven, HasTaken};

use crate::faults::{Failed, FaultCount};
use crate::traits::{Sink, Source};
use std::io;
use std::io::{ErrorKind, Read, Write};
use std::marker::Model;
use std::snapshot::Snapshot;

/// A source over a reader. Contracts see it as a `Stream` (specs/Streams.antt): the bytes that the
/// reader has left, where they were known at `new`, and the count of faults, a u64 that rises
/// at each error, up to 2^64 - 1.
#[derive(Drop)]
pub struct ReadSource<R: Read> {
    inner: R,
    // The reader at `new`, for contracts alone.
    first: Snapshot<R>,
    faults: FaultCount,
}

impl<R: Read> Model for ReadSource<R> {
    ghost use Rattle.std.specs.Prelude.{◌≡◌, true};
    ghost use Rattle.ept_io.specs.Streams.{Stream, tells_on, known_since};

    ghost Value = { Stream };

    ghost view = { λ s. record {
      bytes = known_since (R.remaining s.first.value) (R.remaining s.inner);
      faults = s.faults.count;
    } };

    ghost invariant = { λ s. tells_on (R.remaining s.first.value) (R.remaining s.inner) ≡ true };
}

impl<R: Read> ReadSource<R> {
    /// A source over `inner` with no fault so far. Takes no memory.
    pub fn new(inner: R) -> ReadSource<R>
        ensures left { ⟦<ReadSource<R> as Source>⟧.left result ≡ R.remaining inner }
        ensures faults { ⟦<ReadSource<R> as Source>⟧.faults result ≡ 0 }
    {
        let first = Snapshot::of(&inner);
        ReadSource {
            inner,
            first,
            faults: FaultCount::new(),
        }
    }
}

impl<R: Read> Source for ReadSource<R> {
    ghost left = { λ s. s.bytes };

    ghost faults = { λ s. s.faults };

    ghost is_steady = { λ _. ⊥ };

    ghost gives = { HasGiven };

    ghost fails = { HasFailed };

    /// One read of the reader, tried again where a signal interrupted it. Any other error is a
    /// fault.
    fn read(&mut self, buf: &mut [u8]) -> Result<usize, Failed>
        requires { 0 < length buf.old }
        ensures count { IfOk result (λ n. n ≤ length buf.new) }
        ensures gave { IfOk result (λ n. HasGiven self.old (take n buf.new) self.new) }
        ensures end { IfOk result (λ n. n ≡ 0 → IsAtEnd self.new.bytes) }
        ensures failed { OnErr result (HasFailed self.old self.new) }
    {
        match read_again(&mut self.inner, buf) {
            Ok(n) => Ok(n),
            Err(_) => Err(self.faults.rise()),
        }
    }
}

// One read, tried again where a signal interrupted it. It gives up after 2^64 - 1 tries.
fn read_again<R: Read>(reader: &mut R, buf: &mut [u8]) -> io::Result<usize>
    ensures bound { ReadsAtMost result buf.new }
    ensures bytes { ReadConsumes (R.remaining reader.old) (R.remaining reader.new) result buf.new }
    ensures again { IfErr result (λ e. error_kind e ≢ ErrorKind.Interrupted) }
{
    for _ in 0..u64::MAX {
        match reader.read(buf) {
            Err(e) if e.kind() == ErrorKind::Interrupted => {}
            answer => return answer,
        }
    }
    Err(io::Error::from(ErrorKind::TimedOut))
}

/// A sink over a writer. Contracts see it as a `Stream` (specs/Streams.antt): the bytes that the
/// writer holds, where they were known at `new`, and the count of faults, a u64 that rises at
/// each error and at each write that took nothing, up to 2^64 - 1.
#[derive(Drop)]
pub struct WriteSink<W: Write> {
    inner: W,
    // The writer at `new`, for contracts alone.
    first: Snapshot<W>,
    faults: FaultCount,
}

impl<W: Write> Model for WriteSink<W> {
    ghost use Rattle.std.specs.Prelude.{◌≡◌, true};
    ghost use Rattle.ept_io.specs.Streams.{Stream, tells_on, known_since};

    ghost Value = { Stream };

    ghost view = { λ s. record {
      bytes = known_since (W.contents s.first.value) (W.contents s.inner);
      faults = s.faults.count;
    } };

    ghost invariant = { λ s. tells_on (W.contents s.first.value) (W.contents s.inner) ≡ true };
}

impl<W: Write> WriteSink<W> {
    /// A sink over `inner` with no fault so far. Takes no memory.
    pub fn new(inner: W) -> WriteSink<W>
        ensures written { ⟦<WriteSink<W> as Sink>⟧.written result ≡ W.contents inner }
        ensures faults { ⟦<WriteSink<W> as Sink>⟧.faults result ≡ 0 }
    {
        let first = Snapshot::of(&inner);
        WriteSink {
            inner,
            first,
            faults: FaultCount::new(),
        }
    }

    /// The writer, with what was written to it, where that is known.
    pub fn into_inner(self) -> W
        ensures { IfSome (⟦<WriteSink<W> as Sink>⟧.written self) (λ bytes. W.contents result ≡ Some bytes) }
    {
        self.inner
    }
}

impl<W: Write> Sink for WriteSink<W> {
    ghost written = { λ s. s.bytes };

    ghost faults = { λ s. s.faults };

    ghost has_room = { λ _ _. ⊥ };

    ghost takes = { HasTaken };

    ghost fails = { HasFailed };

    /// One write to the writer, tried again where a signal interrupted it. Any other error, and a
    /// write that took nothing, is a fault.
    fn write(&mut self, buf: &[u8]) -> Result<usize, Failed>
        requires { 0 < length buf.now }
        ensures some { IfOk result (λ n. 1 ≤ n) }
        ensures count { IfOk result (λ n. n ≤ length buf.now) }
        ensures took { IfOk result (λ n. HasTaken self.old (take n buf.now) self.new) }
        ensures failed { OnErr result (HasFailed self.old self.new) }
    {
        match write_again(&mut self.inner, buf) {
            Ok(n) if n > 0 => Ok(n),
            _ => Err(self.faults.rise()),
        }
    }
}

// One write, tried again where a signal interrupted it. It gives up after 2^64 - 1 tries.
fn write_again<W: Write>(writer: &mut W, buf: &[u8]) -> io::Result<usize>
    ensures bound { WritesAtMost result buf.now }
    ensures bytes { WriteAppends (W.contents writer.old) (W.contents writer.new) result buf.now }
    ensures again { IfErr result (λ e. error_kind e ≢ ErrorKind.Interrupted) }
{
    for _ in 0..u64::MAX {
        match writer.write(buf) {
            Err(e) if e.kind() == ErrorKind::Interrupted => {}
            answer => return answer,
        }
    }
    Err(io::Error::from(ErrorKind::TimedOut))
}
