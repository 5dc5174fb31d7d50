// The objects to scan, dealt out in chunks for the markers.
ghost use Rattle.std.specs.Prelude.{◌≡◌, ◌≤◌, All, IfOk, length};
ghost use Rattle.entry_base.specs.Lists.{AreIn};
ghost use Rattle.entry_base.specs.Sessions.{view, IsChunkOf, IsOf};
ghost use Rattle.marker.specs.Steals.{objects_of};
ghost use Rattle.phases.specs.Cuts.{CutOff};

use entry_base::{Chunk, Session, Shared};
use std::alloc::{AllocError, Global};

/// How many objects a chunk has, but for the last one, which may have fewer.
const CHUNK: usize = 32;

/// Cuts objects of the hands, at most 16384, off in chunks of 32, the last one shorter, in order. It refuses only where an
/// allocation fails; some chunks may then have been cut off, and are dropped.
pub(crate) fn cut_chunks(
    alloc: Global,
    shared: &Shared,
    first: &mut Session,
    owed: &[u32],
) -> Result<Vec<Chunk>, AllocError>
    requires caller { IsOf shared.now first.old }
    requires owed { AreIn owed.now (view first.old).hands }
    requires few { length owed.now ≤ 16384 }
    ensures caller { IfOk result (λ chunks. IsOf shared.now first.new) }
    ensures cut { IfOk result (λ chunks. CutOff (view first.old) owed.now (view first.new)) }
    ensures chunks { IfOk result (λ chunks. All (IsChunkOf shared.now) chunks.items) }
    ensures objects { IfOk result (λ chunks. objects_of chunks.items ≡ owed.now) }
    ensures few { IfOk result (λ chunks. length chunks.items ≤ 512) }
{
    let mut chunks = Vec::with_capacity(alloc, owed.len().div_ceil(CHUNK))?;
    let mut from = 0;
    while from < owed.len() {
        let to = owed.len().min(from + CHUNK);
        let objects = Vec::from_slice(alloc, &owed[from..to])?;
        chunks.push_reserved(first.cut(shared, objects));
        from = to;
    }
    Ok(chunks)
}
