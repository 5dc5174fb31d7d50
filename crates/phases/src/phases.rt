// A phase: its workers are made, run and taken in again.
ghost use Rattle.std.specs.Prelude.{◌≡◌, ◌≤◌, ◌+◌, ◌*◌, ℕ, [], IfOk, length, vec_capacity};
ghost use Rattle.plain_table.specs.Shows.{IsLawful};
ghost use Rattle.plain_table.specs.Table.{opening};
ghost use Rattle.entry_word.specs.Image.{image_of, sizes_of};
ghost use Rattle.entry_base.specs.Hands.{grey};
ghost use Rattle.entry_base.specs.Lists.{count_in};
ghost use Rattle.entry_base.specs.Openings.{opening_of, sizes_in, start_of};
ghost use Rattle.phases.specs.Phases.{CanRun, Ran};

use crate::mutators::split_workers;
use crate::work::work;
use entry_base::Shared;
use entry_word::Image;
use phase_calls::Gate;
use plain_table::{Limits, OutOfMemory, Phase, Reply};
use sqlite_items::Items;
use std::alloc::Global;
use std::thread::Threads;

/// The place of the first header, and the words of an object.
const FIRST_HEADER: usize = 32;

const OBJECT_WORDS: usize = 8;
/// The header of an object that is shaded and not scanned.
const GREY: u64 = 1;

/// What a phase leaves.
#[derive(Drop)]
pub struct PhaseOut {
    /// The image after the phase.
    pub image: Image,
    /// The replies of each mutator to its calls, in order.
    pub replies: Items<Items<Reply>>,
    /// The objects that are then shaded and not scanned, each once.
    pub shaded: Vec<u32>,
    /// How many objects were scanned in the phase.
    pub scans: u32,
}

/// Runs a phase on an image: each mutator makes its calls on a thread of its own, and in a cycle each marker of `limits` scans on
/// one, concurrently with them. `owed` lists, each once, the objects that are shaded and not scanned, which the markers get, and
/// `area` is the start of the evacuation area. The gate is passed before each call, and by each marker before it begins. It refuses
/// only where an allocation fails: no call was made then, and the image is dropped.
pub fn run_phase<R: Threads + Sync, G: Gate>(
    rt: &R,
    alloc: Global,
    limits: &Limits,
    phase: &Phase,
    image: Image,
    owed: &[u32],
    area: Option<u32>,
    gate: &G,
) -> Result<PhaseOut, OutOfMemory>
    requires lawful { IsLawful (image_of image) }
    requires sizes { sizes_of image.shape ≡ (opening limits.now).sizes }
    requires owed { (o : ℕ) → count_in o owed.now ≡ grey (sizes_in (opening_of image)) image.words.items o }
    requires area { area ≡ start_of (opening_of image) }
    requires can { CanRun limits.now phase.now.calls }
    ensures ran { IfOk result (Ran limits.now (opening_of image) phase.now.calls owed.now) }
{
    let calls = phase.calls.as_slice();
    let Ok(room) = Vec::with_capacity(alloc, image.shape.objects as usize) else {
        return Err(OutOfMemory);
    };
    let Ok(mut replies) = Vec::with_capacity(alloc, calls.len()) else {
        return Err(OutOfMemory);
    };
    let (shared, mut first) = Shared::start(alloc, image, owed, area)?;
    let Ok(workers) = split_workers(alloc, &shared, &mut first, calls) else {
        return Err(OutOfMemory);
    };
    let scans = work(
        rt,
        alloc,
        &shared,
        &mut first,
        limits,
        calls,
        owed,
        workers,
        &mut replies,
        gate,
    )?;
    let image = shared.finish(first);
    let shaded = shaded_objects(&image, room);
    Ok(PhaseOut {
        image,
        replies: Items::from_vec(replies),
        shaded,
        scans,
    })
}

/// Lists the objects of an image that are shaded and not scanned, each once, ascending, in `room`, which is empty and has room for
/// all objects.
fn shaded_objects(image: &Image, mut room: Vec<u32>) -> Vec<u32>
    requires objects { 32 + 8 * image.now.shape.objects ≤ length image.now.words.items }
    requires few { image.now.shape.objects ≤ 16384 }
    requires room { (room.items ≡ []) × (image.now.shape.objects ≤ vec_capacity room) }
    ensures listed { (o : ℕ) → count_in o result.items ≡ grey (sizes_in (opening_of image.now)) image.now.words.items o }
{
    for object in 0..image.shape.objects {
        if image.words[FIRST_HEADER + OBJECT_WORDS * object as usize] == GREY {
            room.push_reserved(object);
        }
    }
    room
}
