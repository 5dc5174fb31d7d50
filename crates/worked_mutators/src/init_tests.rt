// Inits on a small table: fields that are bound and taken, the commit of the next segment, a full space, and an index of the
// evacuation area.
ghost use Rattle.std.specs.Prelude.{◌≡◌, slice_index};

use crate::asserts::assert_is;
use entry_word::Shape;
use mutator_calls::Mutator;
use plain_table::{OutOfMemory, Policy, Reply};
use tag_set::Tag;

const SHAPE: Shape = Shape {
    seg: 4,
    ext: 2,
    tru: 1,
    objects: 4,
};

/// The place of entry 0 of the external space.
const ENTRIES: usize = 64;

/// A word of the table.
fn word(mutator: &Mutator, place: usize) -> u64
    ensures { result ≡ slice_index mutator.now.image.words.items place }
{
    mutator.image.words.get(place).copied().unwrap_or(0)
}

#[test]
fn an_init_fills_an_index_and_binds_a_free_field(rt: HostRuntime) -> Result<(), OutOfMemory> {
    let mut mutator = Mutator::fresh(rt.alloc(), SHAPE)?;
    let tag = Tag::of(15).unwrap();
    assert_is(&rt, mutator.init(0, 0, tag, 7), Reply::Empty);
    assert_is(&rt, word(&mutator, 0), 0x0000_0003_0000_0001);
    mutator.new_object(0);
    assert_is(&rt, mutator.init(0, 1, tag, 7), Reply::Ok);
    assert_is(&rt, word(&mutator, 38), 0x0001_0000);
    assert_is(&rt, word(&mutator, ENTRIES + 1), 0x400f_0000_0000_0007);
    assert_is(&rt, mutator.init(0, 1, tag, 8), Reply::Taken(0x0001_0000));
    assert_is(&rt, word(&mutator, ENTRIES + 2), 0x400f_0000_0000_0008);
    assert_is(&rt, word(&mutator, 0), 0x0000_0001_0000_0003);
    Ok(())
}

#[test]
fn a_take_past_the_committed_segments_commits_the_next_one(
    rt: HostRuntime,
) -> Result<(), OutOfMemory> {
    let mut mutator = Mutator::fresh(rt.alloc(), SHAPE)?;
    let tag = Tag::of(15).unwrap();
    mutator.new_object(0);
    mutator.new_object(1);
    assert_is(&rt, word(&mutator, 0), 0x0000_0003_0000_0001);
    let answers = [
        mutator.init(0, 0, tag, 1),
        mutator.init(0, 1, tag, 1),
        mutator.init(1, 0, tag, 1),
    ];
    assert_is(&rt, answers, [Reply::Ok, Reply::Ok, Reply::Ok]);
    assert_is(&rt, word(&mutator, 0), 0x0000_0000_0000_0004);
    assert_is(&rt, word(&mutator, ENTRIES + 5), 0x0200_0000_0000_0000);
    assert_is(&rt, mutator.init(1, 1, tag, 1), Reply::Ok);
    assert_is(&rt, word(&mutator, 0), 0x0000_0003_0000_0005);
    assert_is(&rt, word(&mutator, ENTRIES + 5), 0x0100_0000_0000_0006);
    assert_is(&rt, word(&mutator, ENTRIES + 7), 0x0100_0000_0000_0008);
    mutator.init(0, 0, tag, 1);
    mutator.init(0, 0, tag, 1);
    mutator.init(0, 0, tag, 1);
    assert_is(&rt, word(&mutator, 0), 0x0000_0000_0000_0008);
    assert_is(&rt, mutator.init(0, 0, tag, 1), Reply::Full);
    assert_is(&rt, word(&mutator, 0), 0x0000_0000_0000_0008);
    Ok(())
}

#[test]
fn an_init_in_the_evacuation_area_aborts_the_compaction(
    rt: HostRuntime,
) -> Result<(), OutOfMemory> {
    let mut mutator = Mutator::fresh(rt.alloc(), SHAPE)?;
    let tag = Tag::of(15).unwrap();
    mutator.new_object(0);
    mutator.init(0, 0, tag, 1);
    mutator.init(0, 0, tag, 1);
    mutator.init(0, 0, tag, 1);
    mutator.init(0, 0, tag, 1);
    assert_is(&rt, word(&mutator, 4), 0);
    assert_is(&rt, mutator.start(rt.alloc(), Policy::Always)?, Some(4));
    assert_is(&rt, word(&mutator, 1), 4);
    assert_is(&rt, mutator.init(0, 1, tag, 1), Reply::Ok);
    assert_is(&rt, word(&mutator, 38), 0x0005_0000);
    assert_is(&rt, word(&mutator, 1), 0x0000_0001_0000_0004);
    Ok(())
}
