// The calls of objects on a small table, and a link in a cycle, which lists its target once.
use crate::asserts::assert_is;
use entry_word::Shape;
use mutator_calls::Mutator;
use plain_table::{OutOfMemory, Policy, Reply};

const SHAPE: Shape = Shape {
    seg: 4,
    ext: 1,
    tru: 1,
    objects: 2,
};

#[test]
fn objects_are_made_linked_fetched_and_let_go(rt: HostRuntime) -> Result<(), OutOfMemory> {
    let mut mutator = Mutator::fresh(rt.alloc(), SHAPE)?;
    let answers = [
        mutator.new_object(0),
        mutator.new_object(1),
        mutator.new_object(2),
        mutator.link(0, 3, Some(1)),
        mutator.link_global(15, Some(0)),
        mutator.drop_var(0),
        mutator.fetch(5, 0, 3),
        mutator.link(0, 3, None),
        mutator.fetch_global(6, 15),
        mutator.fetch(5, 6, 3),
        mutator.link(6, 3, None),
        mutator.fetch(5, 6, 3),
        mutator.link(6, 3, Some(5)),
        mutator.link_global(15, Some(5)),
        mutator.link_global(15, None),
        mutator.fetch_global(6, 15),
    ];
    assert_is(
        &rt,
        answers,
        [
            Reply::Obj(0),
            Reply::Obj(1),
            Reply::HeapFull,
            Reply::Ok,
            Reply::Ok,
            Reply::Ok,
            Reply::Empty,
            Reply::Empty,
            Reply::Obj(0),
            Reply::Obj(1),
            Reply::Ok,
            Reply::Nothing,
            Reply::Empty,
            Reply::Empty,
            Reply::Ok,
            Reply::Nothing,
        ],
    );
    Ok(())
}

#[test]
fn a_link_in_a_cycle_lists_its_target_once(rt: HostRuntime) -> Result<(), OutOfMemory> {
    let mut mutator = Mutator::fresh(rt.alloc(), SHAPE)?;
    mutator.new_object(0);
    mutator.new_object(1);
    mutator.link(0, 0, Some(1));
    mutator.drop_var(1);
    assert_is(&rt, mutator.image.words[4], 0);
    mutator.start(rt.alloc(), Policy::Never)?;
    assert_is(&rt, mutator.owed, 1);
    assert_is(&rt, mutator.fetch(1, 0, 0), Reply::Obj(1));
    assert_is(&rt, mutator.link_global(0, Some(1)), Reply::Ok);
    assert_is(&rt, mutator.owed, 1);
    assert_is(&rt, mutator.link(0, 1, Some(1)), Reply::Ok);
    assert_is(&rt, mutator.owed, 2);
    assert_is(&rt, mutator.link(0, 2, Some(1)), Reply::Ok);
    assert_is(&rt, mutator.owed, 2);
    assert_is(&rt, mutator.list.get(1).copied(), Some(1));
    Ok(())
}
