// The roots: the objects that globals and variables hold.
ghost use Rattle.std.specs.Prelude.{◌≡◌, ℕ, ◌+◌, ◌<◌, ◌≤◌, length, slice_index, IfOk};
ghost use Rattle.sweeper.specs.Roots.{held_with, IsHeldMore, holds_global, holds_variable, AreHeld, is_held, members_below};

use plain_table::OutOfMemory;
use std::alloc::Global;

const GLOBALS: usize = 16;

const FIRST_GLOBAL: usize = 16;

/// The object of a word that is 0 for nothing and else the object's number plus 1 is held.
fn hold(held: &mut [bool], word: u64)
    ensures { held.new ≡ held_with held.old word }
{
    if word > 0 && word <= held.len() as u64 {
        held[(word - 1) as usize] = true;
    }
}

/// The objects of the globals are held.
fn hold_globals(held: &mut [bool], words: &[u64])
    requires { 32 ≤ length words.now }
    ensures { IsHeldMore held.old held.new (holds_global words.now) }
{
    for global in 0..GLOBALS {
        hold(held, words[FIRST_GLOBAL + global]);
    }
}

/// The objects of the variables are held.
fn hold_variables(held: &mut [bool], variables: &[u32])
    ensures { IsHeldMore held.old held.new (holds_variable variables.now) }
{
    for word in variables {
        hold(held, u64::from(*word));
    }
}

/// Which of the objects below `objects` are roots.
pub(crate) fn held_objects(
    alloc: Global,
    words: &[u64],
    variables: &[u32],
    objects: usize,
) -> Result<Vec<bool>, OutOfMemory>
    requires { 32 ≤ length words.now }
    ensures { IfOk result (λ held. AreHeld held.items words.now variables.now objects) }
{
    match vec![in alloc; false; objects] {
        Ok(mut held) => {
            hold_globals(&mut held, words);
            hold_variables(&mut held, variables);
            Ok(held)
        }
        Err(_) => Err(OutOfMemory),
    }
}

/// The numbers of the objects that are held, ascending.
pub(crate) fn listed(alloc: Global, held: &[bool]) -> Result<Vec<u32>, OutOfMemory>
    requires { length held.now ≤ 16384 }
    ensures { IfOk result (λ list. list.items ≡ members_below (is_held held.now) (length held.now)) }
{
    let mut list = Vec::new(alloc);
    for object in 0..held.len() {
        if held[object] && list.push(object as u32).is_err() {
            return Err(OutOfMemory);
        }
    }
    Ok(list)
}
