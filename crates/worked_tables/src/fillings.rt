// Objects that are made, and entries that are taken and filled, each by one session that expects certain words.
ghost use Rattle.std.specs.Prelude.{◌≡◌, ◌+◌, ◌%◌, ◌^◌, ◌<◌, None, IfSome};
ghost use Rattle.plain_table.specs.declared.events.Space.TheVariants.{External, Trusted};
ghost use Rattle.plain_table.specs.Table.{limit_in};
ghost use Rattle.entry_base.specs.declared.view.Fact.TheVariants as fact;
ghost use Rattle.entry_base.specs.Callers.{SameCaller};
ghost use Rattle.entry_base.specs.Lists.{Has};
ghost use Rattle.entry_base.specs.Openings.{sizes_in, start_of};
ghost use Rattle.entry_base.specs.Owns.{claim_of};
ghost use Rattle.entry_base.specs.Sessions.{view, IsOf};

use entry_base::{Session, Shared};
use entry_rule::{put_external, put_trusted};
use freelist_rule::{Steps, load_freelist, load_link, take_step};
use object_rule::{load_count, new_step};
use plain_table::Space;
use std::sync::ledger::Ledger;

/// A mutator makes the next object, whose number is expected to be `count`, in a variable. False where another count was found.
pub fn make_next(shared: &Shared, s: &mut Session, var: u32, count: u32) -> bool
    requires caller { IsOf shared.now s.old }
    requires mutator { (view s.old).number < 8 }
    requires variable { var < 16 }
    requires some { count < (sizes_in (view s.old).opening).objects }
    ensures caller { IsOf shared.now s.new }
    ensures same { SameCaller (view s.old) (view s.new) }
{
    if load_count(shared, s) != count as u64 {
        return false;
    }
    new_step(shared, s, var, count) == count as u64
}

/// A mutator tries once to make an object in variable 0, whose number is the count that is loaded. True where the try won.
pub fn try_new(shared: &Shared, mut s: Session) -> (Session, bool)
    requires caller { IsOf shared.now s }
    requires mutator { (view s).number < 8 }
    ensures caller { IsOf shared.now result.0 }
    ensures same { SameCaller (view s) (view result.0) }
{
    let count = load_count(shared, &mut s) as u32;
    if count >= shared.objects {
        return (s, false);
    }
    let found = new_step(shared, &mut s, 0, count);
    (s, found == count as u64)
}

/// Takes the head of a space, whose freelist word is expected to be `word`, and whose head to link `next`. The answer is the index;
/// `None` where another word or link was found.
pub fn take_head<L: Ledger>(
    shared: &Shared,
    s: &mut Session,
    space: Space,
    word: u64,
    next: u32,
    steps: &mut Steps<L>,
) -> Option<u32>
    requires caller { IsOf shared.now s.old }
    ensures caller { IsOf shared.now s.new }
    ensures same { SameCaller (view s.old) (view s.new) }
    ensures vars { IfSome result (λ index. (view s.new).vars ≡ (view s.old).vars) }
    ensures head { IfSome result (λ index. index ≡ word % 2 ^ 32) }
    ensures inside { IfSome result (λ index. index < limit_in (sizes_in (view s.new).opening) space) }
    ensures owed { IfSome result (λ index. Has (view s.new).owed (claim_of (view s.new) space index)) }
    ensures ticked { IfSome result (λ index. steps.new ≡ steps.old + 1) }
{
    let found = load_freelist(shared, s, space);
    if found != word || found / (1 << 32) == 0 {
        return None;
    }
    let link = load_link(shared, s, space, found);
    if link != (1 << 56) + next as u64 {
        return None;
    }
    match take_step(shared, s, space, found, next, steps) {
        Ok(index) => Some(index),
        Err(_) => None,
    }
}

/// Takes the two last indexes of the first segment of a space, of four entries, where nothing else is free. The answer is the last
/// one; `None` where another word or link was found.
pub fn take_two<L: Ledger>(
    shared: &Shared,
    s: &mut Session,
    space: Space,
    steps: &mut Steps<L>,
) -> Option<u32>
    requires caller { IsOf shared.now s.old }
    ensures caller { IsOf shared.now s.new }
    ensures same { SameCaller (view s.old) (view s.new) }
    ensures ticked { IfSome result (λ index. steps.new ≡ steps.old + 2) }
{
    take_head(shared, s, space, 0x2_0000_0002, 3, steps)?;
    take_head(shared, s, space, 0x1_0000_0003, 4, steps)
}

/// Takes the head of the external space of a table without an area, as `take_head` does, and fills it with a cell of tag 15 and a
/// value below 2^48.
pub fn put_next<L: Ledger>(
    shared: &Shared,
    s: &mut Session,
    word: u64,
    next: u32,
    value: u64,
    steps: &mut Steps<L>,
) -> Option<u32>
    requires caller { IsOf shared.now s.old }
    requires no_area { start_of (view s.old).opening ≡ None }
    requires small { value < 2 ^ 48 }
    ensures caller { IsOf shared.now s.new }
    ensures same { SameCaller (view s.old) (view s.new) }
    ensures vars { IfSome result (λ index. (view s.new).vars ≡ (view s.old).vars) }
    ensures inside { IfSome result (λ index. index < 65536) }
    ensures filled { IfSome result (λ index. Has (view s.new).fresh (claim_of (view s.new) External index)) }
    ensures ticked { IfSome result (λ index. steps.new ≡ steps.old + 1) }
{
    let index = take_head(shared, s, Space::External, word, next, steps)?;
    put_external(shared, s, index, 0x0f, value);
    Some(index)
}

/// Takes the head of the trusted space, as `take_head` does, and fills it with a hidden cell of tag 15 and a value below 2^48.
pub fn put_hidden<L: Ledger>(
    shared: &Shared,
    s: &mut Session,
    word: u64,
    next: u32,
    value: u64,
    steps: &mut Steps<L>,
) -> Option<u32>
    requires caller { IsOf shared.now s.old }
    requires small { value < 2 ^ 48 }
    ensures caller { IsOf shared.now s.new }
    ensures same { SameCaller (view s.old) (view s.new) }
    ensures vars { IfSome result (λ index. (view s.new).vars ≡ (view s.old).vars) }
    ensures inside { IfSome result (λ index. (index < 65536) × (index < limit_in (sizes_in (view s.new).opening) Trusted)) }
    ensures filled { IfSome result (λ index. Has (view s.new).fresh (claim_of (view s.new) Trusted index)) }
    ensures cell { IfSome result (λ index. Has (view s.new).facts (fact.Trusted index 15 value)) }
    ensures ticked { IfSome result (λ index. steps.new ≡ steps.old + 1) }
{
    let index = take_head(shared, s, Space::Trusted, word, next, steps)?;
    put_trusted(shared, s, index, 0x0f, value);
    Some(index)
}
