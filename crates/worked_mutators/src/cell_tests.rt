// The calls by external fields and by words, on their way and at what they refuse. A word of an index has it in its upper
// 16 bits.
ghost use Rattle.std.specs.Prelude.{◌≤◌, IfOk};
ghost use Rattle.mutator_calls.specs.Calls.{IsReady};

use crate::asserts::assert_is;
use entry_word::Shape;
use mutator_calls::Mutator;
use plain_table::{OutOfMemory, Reply};
use std::alloc::Global;
use tag_set::{Range, Tag};

/// The range of one tag.
fn only(byte: u8) -> Range
    requires { 1 ≤ byte }
{
    Range::one(Tag::of(byte).unwrap())
}

/// A mutator whose variable 0 holds an object, with a cell of tag 0x0f and value 7 at index 1, bound to field 0.
fn with_cell(alloc: Global) -> Result<Mutator, OutOfMemory>
    ensures { IfOk result IsReady }
{
    let shape = Shape {
        seg: 4,
        ext: 1,
        tru: 1,
        objects: 2,
    };
    let mut mutator = Mutator::fresh(alloc, shape)?;
    mutator.new_object(0);
    mutator.init(0, 0, Tag::of(0x0f).unwrap(), 7);
    Ok(mutator)
}

#[test]
fn a_cell_is_read_and_written_by_its_field(rt: HostRuntime) -> Result<(), OutOfMemory> {
    let mut mutator = with_cell(rt.alloc())?;
    let range = only(0x0f);
    let answers = [
        mutator.name(0, 0),
        mutator.load(0, 0, range),
        mutator.store(0, 0, range, 8),
        mutator.swap(0, 0, range, 9),
        mutator.raw_store(0x0001_0000, range, 10),
        mutator.load(0, 0, range),
    ];
    assert_is(
        &rt,
        answers,
        [
            Reply::Word(0x0001_0000),
            Reply::Value(7),
            Reply::Ok,
            Reply::Value(8),
            Reply::Ok,
            Reply::Value(10),
        ],
    );
    assert_is(
        &rt,
        mutator.image.words.get(49),
        Some(&0x400f_0000_0000_000a),
    );
    Ok(())
}

#[test]
fn any_word_names_an_entry_by_its_upper_bits(rt: HostRuntime) -> Result<(), OutOfMemory> {
    let mutator = with_cell(rt.alloc())?;
    for (word, want) in [
        (0x0001_0000, Reply::Value(7)),
        (0x0001_ffff, Reply::Value(7)),
        (0x0000_0000, Reply::Null),
        (0x0000_ffff, Reply::Null),
        (0x0002_0000, Reply::Fault),
        (0x0004_0000, Reply::Fault),
        (0xffff_0000, Reply::Fault),
    ] {
        assert_eq!(rt; mutator.raw_load(word, only(0x0f)), want, "at {word:x}");
    }
    Ok(())
}

#[test]
fn a_tag_outside_the_range_is_a_fault(rt: HostRuntime) -> Result<(), OutOfMemory> {
    let mut mutator = with_cell(rt.alloc())?;
    let other = only(0x17);
    let answers = [
        mutator.load(0, 0, other),
        mutator.store(0, 0, other, 8),
        mutator.swap(0, 0, other, 8),
        mutator.raw_store(0x0001_0000, other, 8),
        mutator.load(0, 0, only(0x0f)),
    ];
    assert_is(
        &rt,
        answers,
        [
            Reply::Fault,
            Reply::Fault,
            Reply::Fault,
            Reply::Fault,
            Reply::Value(7),
        ],
    );
    Ok(())
}

#[test]
fn a_forged_field_names_what_its_word_names(rt: HostRuntime) -> Result<(), OutOfMemory> {
    let mut mutator = with_cell(rt.alloc())?;
    let range = only(0x0f);
    assert_eq!(rt; mutator.load(0, 1, range), Reply::Null, "a new field");
    let answers = [
        mutator.forge(0, 1, 0x0001_1234),
        mutator.name(0, 1),
        mutator.swap(0, 1, range, 8),
        mutator.load(0, 0, range),
    ];
    assert_is(
        &rt,
        answers,
        [
            Reply::Ok,
            Reply::Word(0x0001_1234),
            Reply::Value(7),
            Reply::Value(8),
        ],
    );
    assert_eq!(rt;
        mutator.forge(0, 1, 0x0004_0000),
        Reply::Ok,
        "past the limit"
    );
    assert_is(&rt, mutator.store(0, 1, range, 9), Reply::Fault);
    Ok(())
}

#[test]
fn a_variable_that_holds_nothing_makes_a_call_empty(rt: HostRuntime) -> Result<(), OutOfMemory> {
    let mut mutator = with_cell(rt.alloc())?;
    let range = only(0x0f);
    let answers = [
        mutator.name(1, 0),
        mutator.load(1, 0, range),
        mutator.store(1, 0, range, 8),
        mutator.swap(1, 0, range, 8),
        mutator.forge(1, 0, 0x0001_0000),
    ];
    assert_is(
        &rt,
        answers,
        [
            Reply::Empty,
            Reply::Empty,
            Reply::Empty,
            Reply::Empty,
            Reply::Empty,
        ],
    );
    Ok(())
}
