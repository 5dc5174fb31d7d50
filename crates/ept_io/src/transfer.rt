// The calls that read a whole script and write a whole text, over any source and sink.
ghost use Rattle.std.specs.Prelude.{◌≡◌, ◌≢◌, ℕ, ◌+◌, ◌-◌, ◌<◌, ◌≤◌, ◌↔◌, List, [], length, take, vec_len, IfOk, IfSome, IsOk, IsErrOf, OnOk, OnErr};
ghost use Rattle.std.specs.Io.KnownBytes.{IsAtEnd};
ghost use Rattle.ept_io.specs.Bytes.{Gave, Took};
ghost use Rattle.ept_io.specs.Calls.{InCalls, InCallsThen};
ghost use Rattle.ept_io.specs.Faults.{Rose};

use crate::faults::Failed;
use crate::traits::{Sink, Source};
use std::alloc::Global;

// How many bytes are asked of a source at once.
const PIECE: usize = 4096;

/// Why a script was not read: the source failed, it gave more bytes than the limit, or there was
/// no memory.
#[derive(Debug, Clone, Copy, PartialEq, Eq)]
pub enum ReadErr {
    ReadFault,
    TooLong,
    OutOfMemory,
}

/// Reads all bytes of `src` up to its end, at most `limit` of them. `ReadFault` comes exactly where
/// a read failed, and never from a steady source; `TooLong` exactly where byte `limit + 1` was
/// given with no fault before. Each read gives at least one byte or ends the call: none follows
/// the end of the source, a fault, or a byte past the limit. After a refusal the source has given
/// a part of its bytes, which is lost.
pub fn read_script<S: Source>(alloc: Global, src: &mut S, limit: usize) -> Result<Vec<u8>, ReadErr>
    // The bytes, where the source tells them.
    ensures bytes { IfOk result (λ script. IfSome (S.left src.old) (λ all. script.items ≡ all)) }
    ensures within { IfOk result (λ script. vec_len script ≤ limit) }
    ensures end { OnOk result (IsAtEnd (S.left src.new)) }
    ensures given { (bytes : List ℕ) × Gave (S.left src.old) bytes (S.left src.new) }
    ensures too_long { IfSome (S.left src.old) (λ all. IfSome (S.left src.new) (λ rest.
        IsErrOf result ReadErr.TooLong ↔ (limit + length rest < length all))) }

    // The reads: each gave some bytes, but for the one that ended the call.
    ensures reads { IfOk result (λ script.
        InCallsThen S.gives src.old script.items (λ last. S.gives last [] src.new)) }
    ensures reads_to_a_fault { IsErrOf result ReadErr.ReadFault → (bytes : List ℕ)
        × (length bytes ≤ limit) × InCallsThen S.gives src.old bytes (λ last. S.fails last src.new) }
    ensures reads_past_the_limit { IsErrOf result ReadErr.TooLong →
        (bytes : List ℕ) × (piece : List ℕ) × (length bytes ≤ limit)
        × (limit < length bytes + length piece)
        × InCallsThen S.gives src.old bytes (λ last. S.gives last piece src.new) }
    ensures reads_to_no_memory { IsErrOf result ReadErr.OutOfMemory → (bytes : List ℕ)
        × (length bytes ≤ limit) × InCalls S.gives src.old bytes src.new }

    // The faults.
    ensures never_falls { S.faults src.old ≤ S.faults src.new }
    ensures read_fault { IsErrOf result ReadErr.ReadFault →
        Rose (S.faults src.old) (S.faults src.new) }
    ensures no_fault { (¬ IsErrOf result ReadErr.ReadFault) →
        S.faults src.new ≡ S.faults src.old }
    ensures steady { S.is_steady src.old → (¬ IsErrOf result ReadErr.ReadFault)
        × S.is_steady src.new × (S.faults src.new ≡ S.faults src.old) }
{
    let mut bytes = Vec::new(alloc);
    let mut piece = [0u8; PIECE];
    loop {
        match src.read(&mut piece) {
            Ok(0) => return Ok(bytes),
            Ok(n) if limit - bytes.len() < n => return Err(ReadErr::TooLong),
            Ok(n) => {
                if bytes.extend_from_slice(&piece[..n]).is_err() {
                    return Err(ReadErr::OutOfMemory);
                }
            }
            Err(Failed) => return Err(ReadErr::ReadFault),
        }
    }
}

/// Writes all of `bytes` to `sink`. It fails exactly where a write failed, after which no write is
/// made, and then a front part of `bytes` was appended that isn't the whole. Where the sink has
/// room for all of `bytes`, it doesn't fail. Takes no memory.
pub fn write_all<K: Sink>(sink: &mut K, bytes: &[u8]) -> Result<(), Failed>
    ensures ok { OnOk result (Took (K.written sink.old) bytes.now (K.written sink.new)) }
    ensures cut_short { OnErr result ((n : ℕ) × (n < length bytes.now)
        × Took (K.written sink.old) (take n bytes.now) (K.written sink.new)) }

    // The writes: each took some bytes, but for the one that failed.
    ensures writes { OnOk result (InCalls K.takes sink.old bytes.now sink.new) }
    ensures writes_to_a_fault { OnErr result ((n : ℕ) × (n < length bytes.now)
        × InCallsThen K.takes sink.old (take n bytes.now) (λ last. K.fails last sink.new)) }

    // The faults.
    ensures never_falls { K.faults sink.old ≤ K.faults sink.new }
    ensures cause { OnErr result (Rose (K.faults sink.old) (K.faults sink.new)) }
    ensures no_fault { OnOk result (K.faults sink.new ≡ K.faults sink.old) }
    ensures room { (room : ℕ) → K.has_room sink.old room → length bytes.now ≤ room →
        IsOk result × K.has_room sink.new (room - length bytes.now)
        × (K.faults sink.new ≡ K.faults sink.old) }
{
    let mut done = 0;
    while done < bytes.len() {
        done += sink.write(&bytes[done..])?;
    }
    Ok(())
}
