// A counter that is made and ticked.
ghost use Rattle.std.specs.Prelude.{◌≡◌, ◌+◌};

use crate::asserts::assert_is;
use freelist_rule::Steps;
use std::marker::Brand;
use std::mem::size_of_val;
use std::sync::ledger::{Blank, Ledger};

fn tick_twice<L: Ledger>(steps: &mut Steps<L>)
    ensures { steps.new ≡ steps.old + 2 }
{
    steps.tick();
    steps.tick();
}

fn bytes_of_two_steps<L: Ledger>(blank: Blank) -> usize
    requires name { blank.name ≡ L.name }
    requires parts { blank.parts ≡ L.parts }
    requires one { blank.parts ≡ 1 }
{
    let mut steps = Steps::<L>::start(blank);
    tick_twice(&mut steps);
    size_of_val(&steps)
}

#[test]
fn a_counter_takes_no_bytes(rt: HostRuntime) {
    assert_is(&rt, bytes_of_two_steps::<Brand>(Blank::new(1)), 0);
}
