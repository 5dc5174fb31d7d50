// Trusted entries on a small table: one that is made, published, shared and looked at, and each answer of these calls.
ghost use Rattle.std.specs.Prelude.{◌≡◌, slice_index};

use crate::asserts::assert_is;
use entry_word::{Pending, Shape};
use mutator_calls::Mutator;
use plain_table::{OutOfMemory, Policy, Reply};
use tag_set::{Range, Tag};

const SHAPE: Shape = Shape {
    seg: 4,
    ext: 1,
    tru: 1,
    objects: 3,
};

/// The place of entry 0 of the trusted space.
const ENTRIES: usize = 60;

/// A word of the table.
fn word(mutator: &Mutator, place: usize) -> u64
    ensures { result ≡ slice_index mutator.now.image.words.items place }
{
    mutator.image.words.get(place).copied().unwrap_or(0)
}

#[test]
fn a_new_entry_cannot_be_seen_until_it_is_published(rt: HostRuntime) -> Result<(), OutOfMemory> {
    let mut mutator = Mutator::fresh(rt.alloc(), SHAPE)?;
    let tag = Tag::of(15).unwrap();
    mutator.new_object(0);
    assert_is(&rt, mutator.tload(0, Range::one(tag)), Reply::Null);
    assert_is(&rt, mutator.tnew(0, tag, 7), Reply::Ok);
    assert_is(&rt, word(&mutator, 39), 0x0001_0000);
    assert_is(&rt, word(&mutator, ENTRIES + 1), 0x480f_0000_0000_0007);
    let pending = Pending {
        index: 1,
        tag: 15,
        value: 7,
    };
    assert_is(
        &rt,
        mutator.image.pending.first().copied(),
        Some(Some(pending)),
    );
    let answers = [
        mutator.tload(0, Range::one(tag)),
        mutator.traw(0x0001_0000, Range::one(tag)),
        mutator.tnew(0, tag, 8),
        mutator.publish(0),
    ];
    assert_is(
        &rt,
        answers,
        [Reply::Fault, Reply::Fault, Reply::Pending, Reply::Ok],
    );
    assert_is(&rt, word(&mutator, ENTRIES + 1), 0x400f_0000_0000_0007);
    assert_is(&rt, mutator.image.pending.first().copied(), Some(None));
    let answers = [
        mutator.tload(0, Range::one(tag)),
        mutator.traw(0x0001_ffff, Range::one(tag)),
        mutator.publish(0),
    ];
    assert_is(
        &rt,
        answers,
        [Reply::Value(7), Reply::Value(7), Reply::NotYours],
    );
    Ok(())
}

#[test]
fn a_field_that_is_taken_leaves_no_entry_to_publish(rt: HostRuntime) -> Result<(), OutOfMemory> {
    let mut mutator = Mutator::fresh(rt.alloc(), SHAPE)?;
    let tag = Tag::of(15).unwrap();
    mutator.new_object(0);
    mutator.new_object(1);
    mutator.new_object(2);
    mutator.tnew(0, tag, 7);
    mutator.publish(0);
    assert_is(&rt, mutator.tnew(0, tag, 8), Reply::Taken(0x0001_0000));
    assert_is(&rt, word(&mutator, ENTRIES + 2), 0x480f_0000_0000_0008);
    assert_is(&rt, mutator.image.pending.first().copied(), Some(None));
    assert_is(&rt, mutator.tnew(1, tag, 9), Reply::Ok);
    assert_is(&rt, word(&mutator, 47), 0x0003_0000);
    let answers = [
        mutator.publish(0),
        mutator.publish(1),
        mutator.tnew(2, tag, 10),
    ];
    assert_is(&rt, answers, [Reply::NotYours, Reply::Ok, Reply::Full]);
    Ok(())
}

#[test]
fn a_share_in_a_cycle_marks_the_entry(rt: HostRuntime) -> Result<(), OutOfMemory> {
    let mut mutator = Mutator::fresh(rt.alloc(), SHAPE)?;
    let tag = Tag::of(15).unwrap();
    mutator.new_object(0);
    mutator.new_object(1);
    assert_is(&rt, mutator.share(0, 1), Reply::Null);
    mutator.tnew(0, tag, 7);
    mutator.publish(0);
    assert_is(&rt, mutator.image.words[4], 0);
    mutator.start(rt.alloc(), Policy::Never)?;
    assert_is(&rt, word(&mutator, ENTRIES + 1), 0x000f_0000_0000_0007);
    assert_is(&rt, mutator.share(0, 1), Reply::Ok);
    assert_is(&rt, word(&mutator, ENTRIES + 1), 0x400f_0000_0000_0007);
    assert_is(&rt, word(&mutator, 47), 0x0001_0000);
    assert_is(&rt, mutator.tload(1, Range::one(tag)), Reply::Value(7));
    assert_is(&rt, mutator.share(0, 1), Reply::Taken(0x0001_0000));
    Ok(())
}

#[test]
fn a_variable_that_holds_nothing_makes_each_call_empty(rt: HostRuntime) -> Result<(), OutOfMemory> {
    let mut mutator = Mutator::fresh(rt.alloc(), SHAPE)?;
    let tag = Tag::of(15).unwrap();
    mutator.new_object(0);
    let answers = [
        mutator.tnew(1, tag, 7),
        mutator.publish(1),
        mutator.tload(1, Range::one(tag)),
        mutator.share(1, 0),
        mutator.share(0, 1),
    ];
    assert_is(
        &rt,
        answers,
        [
            Reply::Empty,
            Reply::Empty,
            Reply::Empty,
            Reply::Empty,
            Reply::Empty,
        ],
    );
    Ok(())
}
