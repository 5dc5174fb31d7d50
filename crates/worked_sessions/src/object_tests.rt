// Objects: they are made, held, linked and got on one thread, and two sessions try to make the same one.

use crate::asserts::assert_is;
use entry_word::Shape;
use object_rule::{
    drop_step, get_global, get_reference, link_global, link_reference, load_count_for_new, new_step,
};
use plain_table::OutOfMemory;
use worked_tables::{close_both, close_three, open_fresh};

pub(crate) const SHAPE: Shape = Shape {
    seg: 4,
    ext: 2,
    tru: 1,
    objects: 2,
};

#[test]
fn an_object_is_made_and_got_through_a_global(rt: HostRuntime) -> Result<(), OutOfMemory> {
    let (shared, mut first) = open_fresh(rt.alloc(), SHAPE)?;
    let mut one = first.split(&shared, 0, &[]);
    assert_is(&rt, load_count_for_new(&shared, &mut one, 0), 0);
    assert_is(&rt, new_step(&shared, &mut one, 0, 0), 0);
    assert_is(&rt, one.held(0), Some(0));
    link_global(&shared, &mut one, 3, Some(0), 1);
    assert_is(&rt, get_global(&shared, &mut one, 1, 3), 1);
    assert_is(&rt, one.held(1), Some(0));
    let image = close_both(shared, first, one);
    assert_is(
        &rt,
        (
            image.words[3],
            image.words[19],
            image.vars[0],
            image.vars[1],
        ),
        (1, 1, 1, 1),
    );
    Ok(())
}

#[test]
fn a_reference_is_linked_and_got_and_a_variable_dropped(
    rt: HostRuntime,
) -> Result<(), OutOfMemory> {
    let (shared, mut first) = open_fresh(rt.alloc(), SHAPE)?;
    let mut one = first.split(&shared, 0, &[]);
    assert_is(&rt, one.in_cycle(), false);
    assert_is(&rt, load_count_for_new(&shared, &mut one, 0), 0);
    assert_is(&rt, new_step(&shared, &mut one, 0, 0), 0);
    assert_is(&rt, one.held(0), Some(0));
    link_reference(&shared, &mut one, 0, 0, Some(0), 1);
    assert_is(&rt, get_reference(&shared, &mut one, 1, 0, 0), 1);
    drop_step(&shared, &mut one, 0);
    assert_is(&rt, (one.held(0), one.held(1)), (None, Some(0)));
    let image = close_both(shared, first, one);
    assert_is(
        &rt,
        (image.words[33], image.vars[0], image.vars[1]),
        (1, 0, 1),
    );
    Ok(())
}

#[test]
fn of_two_sessions_one_makes_the_object(rt: HostRuntime) -> Result<(), OutOfMemory> {
    let (shared, mut first) = open_fresh(rt.alloc(), SHAPE)?;
    let mut one = first.split(&shared, 0, &[]);
    let mut two = first.split(&shared, 1, &[]);
    assert_is(&rt, load_count_for_new(&shared, &mut one, 0), 0);
    assert_is(&rt, load_count_for_new(&shared, &mut two, 5), 0);
    assert_is(&rt, new_step(&shared, &mut one, 0, 0), 0);
    assert_is(&rt, new_step(&shared, &mut two, 5, 0), 1);
    assert_is(&rt, two.held(5), None);
    assert_is(&rt, load_count_for_new(&shared, &mut two, 5), 1);
    assert_is(&rt, new_step(&shared, &mut two, 5, 1), 1);
    assert_is(&rt, two.held(5), Some(1));
    assert_is(&rt, load_count_for_new(&shared, &mut one, 0), 2);
    let image = close_three(shared, first, one, two);
    assert_is(
        &rt,
        (image.words[3], image.vars[0], image.vars[16 + 5]),
        (2, 1, 2),
    );
    Ok(())
}
