// A source and a sink over memory, with short pieces and planned faults.
ghost use Rattle.std.specs.Prelude.{◌≡◌, ℕ, ◌+◌, ◌<◌, ◌≤◌, ◌↔◌, ◌⊎◌, [], ◌++◌, Some, length, take, drop, min, Contains, IfOk, IsOk, IsErr, OnErr};
ghost use Rattle.ept_io.specs.Memory.{after_read, after_failed_read, IsSteady, after_write, after_failed_write, HasRoom};

use crate::faults::{Failed, FaultPlan, OutOfMemory};
use crate::traits::{Sink, Source};
use std::alloc::Global;
use std::marker::Model;

/// Bytes that are given in pieces, with faults at planned reads. Contracts see it as a `Supply`
/// (specs/Memory.antt), and it tells the bytes that it has left.
#[derive(Drop)]
pub struct MemorySource {
    bytes: Vec<u8>,
    at: usize,
    piece: usize,
    plan: FaultPlan,
}

impl Model for MemorySource {
    ghost use Rattle.std.specs.Prelude.{◌≤◌, drop, vec_len};
    ghost use Rattle.ept_io.specs.Memory.{Supply};

    ghost Value = { Supply };

    ghost view = { λ s. record {
      left = drop s.at s.bytes.items;
      piece = s.piece;
      reads = s.plan.calls;
      fail_at = s.plan.fail_at.items;
      faults = s.plan.faults.count;
    } };

    ghost invariant = { λ s. (s.at ≤ vec_len s.bytes) × (1 ≤ s.piece) };
}

impl MemorySource {
    /// A source of `bytes` that gives at most `piece` of them a read, at least 1, and whose read
    /// with number `n`, counted from 1, fails exactly where `n` stands in `fail_at`. Takes no
    /// memory.
    pub fn new(bytes: Vec<u8>, piece: usize, fail_at: Vec<u32>) -> MemorySource
        requires { 1 ≤ piece }
        ensures state { result ≡ record {
          left = bytes.items;
          piece = piece;
          reads = 0;
          fail_at = fail_at.items;
          faults = 0;
        } }
        ensures left { ⟦<MemorySource as Source>⟧.left result ≡ Some bytes.items }
        ensures faults { ⟦<MemorySource as Source>⟧.faults result ≡ 0 }
        ensures steady { fail_at.items ≡ [] → ⟦<MemorySource as Source>⟧.is_steady result }
    {
        MemorySource {
            bytes,
            at: 0,
            piece,
            plan: FaultPlan::new(fail_at),
        }
    }
}

impl Source for MemorySource {
    ghost left = { λ s. Some s.left };

    ghost faults = { λ s. s.faults };

    ghost is_steady = { IsSteady };

    ghost gives = { λ old bytes new. new ≡ after_read old (length bytes) };

    ghost fails = { λ old new. new ≡ after_failed_read old };

    /// Gives as many bytes as are left, as fit and as the piece allows. It fails exactly where the
    /// number of this read stands in `fail_at`, and then `buf` stays as it was.
    fn read(&mut self, buf: &mut [u8]) -> Result<usize, Failed>
        requires { 0 < length buf.old }
        ensures fault { IsErr result ↔ Contains self.old.fail_at (self.old.reads + 1) }
        ensures count { IfOk result (λ n.
            n ≡ min (min (length self.old.left) (length buf.old)) self.old.piece) }
        ensures bytes { IfOk result (λ n. buf.new ≡ take n self.old.left ++ drop n buf.old) }
        ensures after { IfOk result (λ n. self.new ≡ after_read self.old n) }
        ensures after_fault { OnErr result (self.new ≡ after_failed_read self.old) }
        ensures untouched { OnErr result (buf.new ≡ buf.old) }

        // So 0 bytes are given only at the end.
        ensures piece { 1 ≤ self.old.piece }
    {
        self.plan.begin()?;
        let left = self.bytes.len() - self.at;
        let count = left.min(buf.len()).min(self.piece);
        let end = self.at + count;
        buf[..count].copy_from_slice(&self.bytes[self.at..end]);
        self.at = end;
        Ok(count)
    }
}

/// Memory that takes bytes in pieces, up to its room, with faults at planned writes. Contracts see
/// it as a `Store` (specs/Memory.antt), and it tells the bytes that were written.
#[derive(Drop)]
pub struct MemorySink {
    bytes: Vec<u8>,
    room: usize,
    piece: usize,
    plan: FaultPlan,
}

impl Model for MemorySink {
    ghost use Rattle.std.specs.Prelude.{◌+◌, ◌≤◌, vec_len, vec_capacity};
    ghost use Rattle.ept_io.specs.Memory.{Store};

    ghost Value = { Store };

    ghost view = { λ s. record {
      written = s.bytes.items;
      room = s.room;
      piece = s.piece;
      writes = s.plan.calls;
      fail_at = s.plan.fail_at.items;
      faults = s.plan.faults.count;
    } };

    ghost invariant = { λ s. (vec_len s.bytes + s.room ≤ vec_capacity s.bytes) × (1 ≤ s.piece) };
}

impl MemorySink {
    /// An empty sink with room for `room` bytes, which it reserves here, that takes at most
    /// `piece` of them a write, at least 1. Its write with number `n`, counted from 1, fails
    /// exactly where `n` stands in `fail_at` or no room is left. It is refused only for want of
    /// memory, and never where `room` is 0.
    pub fn new(
        alloc: Global,
        room: usize,
        piece: usize,
        fail_at: Vec<u32>,
    ) -> Result<MemorySink, OutOfMemory>
        requires { 1 ≤ piece }
        ensures state { IfOk result (λ sink. sink ≡ record {
          written = [];
          room = room;
          piece = piece;
          writes = 0;
          fail_at = fail_at.items;
          faults = 0;
        }) }
        ensures none_needed { room ≡ 0 → IsOk result }
        ensures written { IfOk result (λ sink. ⟦<MemorySink as Sink>⟧.written sink ≡ Some []) }
        ensures faults { IfOk result (λ sink. ⟦<MemorySink as Sink>⟧.faults sink ≡ 0) }
        ensures room { IfOk result (λ sink.
            fail_at.items ≡ [] → ⟦<MemorySink as Sink>⟧.has_room sink room) }
    {
        let Ok(bytes) = Vec::with_capacity(alloc, room) else {
            return Err(OutOfMemory);
        };
        Ok(MemorySink {
            bytes,
            room,
            piece,
            plan: FaultPlan::new(fail_at),
        })
    }

    /// All bytes that were written. Takes no memory.
    pub fn bytes(&self) -> &[u8]
        ensures { result.now ≡ self.now.written }
    {
        self.bytes.as_slice()
    }
}

impl Sink for MemorySink {
    ghost written = { λ s. Some s.written };

    ghost faults = { λ s. s.faults };

    ghost has_room = { HasRoom };

    ghost takes = { λ old bytes new. new ≡ after_write old bytes };

    ghost fails = { λ old new. new ≡ after_failed_write old };

    /// Takes as many bytes as are given, as the piece allows and as there is room for. It fails
    /// exactly where the number of this write stands in `fail_at` or no room is left.
    fn write(&mut self, buf: &[u8]) -> Result<usize, Failed>
        requires { 0 < length buf.now }
        ensures fault { IsErr result ↔
            (Contains self.old.fail_at (self.old.writes + 1) ⊎ (self.old.room ≡ 0)) }
        ensures count { IfOk result (λ n.
            n ≡ min (min (length buf.now) self.old.piece) self.old.room) }
        ensures after { IfOk result (λ n. self.new ≡ after_write self.old (take n buf.now)) }
        ensures after_fault { OnErr result (self.new ≡ after_failed_write self.old) }

        // So at least 1 byte is taken.
        ensures piece { 1 ≤ self.old.piece }
    {
        self.plan.begin()?;
        if self.room == 0 {
            return Err(self.plan.faults.rise());
        }
        let count = buf.len().min(self.piece).min(self.room);
        self.bytes.extend_from_slice(&buf[..count]).unwrap();
        self.room -= count;
        Ok(count)
    }
}
