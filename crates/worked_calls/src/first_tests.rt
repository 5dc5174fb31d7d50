// Short scripts of one mutator: the first path of a resource, a space that fills up, and a heap that does.
ghost use Rattle.std.specs.Prelude.{◌<◌};
ghost use Rattle.entry_base.specs.Callers.{SameCaller};
ghost use Rattle.entry_base.specs.Sessions.{view, IsOf};

use crate::asked::{ONE, TWO, only, tag, word_at};
use crate::asserts::{assert_is, assert_words};
use crate::entries::{bind, make};
use access_steps::{init, load, name};
use entry_base::{Session, Shared};
use graph_steps::new_object;
use plain_table::{OutOfMemory, Reply};
use std::process::Abort;
use worked_tables::{close_both, close_whole, open, open_fresh};

/// Makes an object and a cell that its field 0 names, loads the cell under its tag and under another one, and names it.
fn call_first_path(rt: &impl Abort, shared: &Shared, s: &mut Session)
    requires caller { IsOf shared.now s.old }
    requires mutator { (view s.old).number < 8 }
    ensures caller { IsOf shared.now s.new }
    ensures same { SameCaller (view s.old) (view s.new) }
{
    make(rt, shared, s, 0, 0);
    bind(rt, shared, s, (0, 0), 0x0f, 0xc0);
    let found = load(shared, s, 0, 0, only(rt, 0x0f));
    assert_is(rt, found, Reply::Value(0xc0));
    let refused = load(shared, s, 0, 0, only(rt, 0x17));
    assert_is(rt, refused, Reply::Fault);
    let named = name(shared, s, 0, 0);
    assert_is(rt, named, Reply::Word(0x0001_0000));
}

#[test]
fn a_resource_is_loaded_under_its_tag_alone(rt: HostRuntime) -> Result<(), OutOfMemory> {
    let (shared, mut first) = open_fresh(rt.alloc(), ONE)?;
    let mut s = first.split(&shared, 0, &[]);
    call_first_path(&rt, &shared, &mut s);
    let image = close_both(shared, first, s);
    assert_words(
        &rt,
        &image,
        &[
            (0, 0x2_0000_0002),
            (37, 0x0001_0000),
            (41, 0x400f_0000_0000_00c0),
        ],
    );
    Ok(())
}

/// Makes two objects, and three cells, which take all indexes of the external space.
fn fill_space(rt: &impl Abort, shared: &Shared, s: &mut Session)
    requires caller { IsOf shared.now s.old }
    requires mutator { (view s.old).number < 8 }
    ensures caller { IsOf shared.now s.new }
    ensures same { SameCaller (view s.old) (view s.new) }
{
    make(rt, shared, s, 0, 0);
    make(rt, shared, s, 1, 1);
    bind(rt, shared, s, (0, 0), 0x0f, 0xc0);
    bind(rt, shared, s, (0, 1), 0x0f, 0xc1);
    bind(rt, shared, s, (1, 0), 0x0f, 0xc2);
}

#[test]
fn an_init_finds_the_space_full(rt: HostRuntime) -> Result<(), OutOfMemory> {
    let (shared, first) = open_fresh(rt.alloc(), TWO)?;
    let before = close_whole(shared, first);
    assert_is(&rt, word_at(&rt, &before, 0), 0x3_0000_0001);
    let (shared, mut first) = open(rt.alloc(), before)?;
    let mut s = first.split(&shared, 0, &[]);
    fill_space(&rt, &shared, &mut s);
    let image = close_both(shared, first, s);
    assert_is(&rt, word_at(&rt, &image, 0), 4);
    let (shared, mut first) = open(rt.alloc(), image)?;
    let mut s = first.split(&shared, 0, &[]);
    let full = init(&shared, &mut s, 1, 1, tag(&rt, 0x0f), 0xc3);
    assert_is(&rt, full, Reply::Full);
    let after = close_both(shared, first, s);
    assert_words(&rt, &after, &[(0, 4), (46, 0)]);
    Ok(())
}

/// Makes the one object that there is room for, finds the heap full, and loads by the variable that still holds nothing.
fn fill_heap(rt: &impl Abort, shared: &Shared, s: &mut Session)
    requires caller { IsOf shared.now s.old }
    requires mutator { (view s.old).number < 8 }
    ensures caller { IsOf shared.now s.new }
    ensures same { SameCaller (view s.old) (view s.new) }
{
    make(rt, shared, s, 0, 0);
    let full = new_object(shared, s, 1);
    assert_is(rt, full, Reply::HeapFull);
    let empty = load(shared, s, 1, 0, only(rt, 0x0f));
    assert_is(rt, empty, Reply::Empty);
}

#[test]
fn a_second_object_finds_the_heap_full(rt: HostRuntime) -> Result<(), OutOfMemory> {
    let (shared, mut first) = open_fresh(rt.alloc(), ONE)?;
    let mut s = first.split(&shared, 0, &[]);
    fill_heap(&rt, &shared, &mut s);
    let image = close_both(shared, first, s);
    assert_is(&rt, word_at(&rt, &image, 3), 1);
    assert_is(&rt, image.vars.as_slice()[0], 1);
    assert_is(&rt, image.vars.as_slice()[1], 0);
    Ok(())
}
