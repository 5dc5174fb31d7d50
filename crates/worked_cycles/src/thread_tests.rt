// Two threads in a cycle: both try to mark one cell, of which one wins; and one scans what the other does not touch.
ghost use Rattle.std.specs.Prelude.{◌≡◌, ◌<◌, [], ◌∷◌};
ghost use Rattle.plain_table.specs.declared.events.Field.TheVariants as field;
ghost use Rattle.plain_table.specs.declared.events.Space.TheVariants.{Trusted};
ghost use Rattle.entry_base.specs.declared.view.Fact.TheVariants as fact;
ghost use Rattle.entry_base.specs.Callers.{SameCaller};
ghost use Rattle.entry_base.specs.Lists.{Has};
ghost use Rattle.entry_base.specs.Sessions.{view, hands_of, IsOf, IsChunkOf};

use crate::asserts::{assert_is, assert_words};
use crate::cell_mark_tests::{MARKED, UNMARKED, find_held, find_in_hands, mark_found};
use crate::cycles::{image_in_a_cycle, image_to_mark, open_with_roots};
use crate::scan_tests::{pass_field, pass_reference, pass_three};
use entry_base::{Chunk, Session, Shared};
use mark_rule::scan_step;
use plain_table::OutOfMemory;
use std::alloc::Global;
use std::marker::Brand;
use std::process::Abort;
use std::sync::ledger::{Blank, Ledger};
use std::thread::{Threads, join};
use worked_tables::{SHAPE, close_three, try_new, word_at};

/// Marks the cell that was found. The answer is the word that the exchange finds.
fn mark_on_thread(shared: &Shared, mut s: Session) -> (Session, u64)
    requires caller { IsOf shared.now s }
    requires shape { (view s).opening.shape ≡ SHAPE }
    requires touched { Has (view s).facts (fact.Touched (field.Trusted 0) 65536) }
    requires entry { Has (view s).facts (fact.Entry Trusted 1 UNMARKED) }
    ensures caller { IsOf shared.now result.0 }
    ensures same { SameCaller (view s) (view result.0) }
{
    let found = mark_found(shared, &mut s);
    (s, found)
}

fn both_mark<R: Threads + Sync>(
    rt: &R,
    shared: &Shared,
    one: Session,
    two: Session,
) -> ((Session, u64), (Session, u64))
    requires callers { IsOf shared.now one × IsOf shared.now two }
    requires shapes { ((view one).opening.shape ≡ SHAPE) × ((view two).opening.shape ≡ SHAPE) }
    requires touched { Has (view one).facts (fact.Touched (field.Trusted 0) 65536) × Has (view two).facts (fact.Touched (field.Trusted 0) 65536) }
    requires entries { Has (view one).facts (fact.Entry Trusted 1 UNMARKED) × Has (view two).facts (fact.Entry Trusted 1 UNMARKED) }
    ensures callers { IsOf shared.now result.0.0 × IsOf shared.now result.1.0 }
    ensures same { SameCaller (view one) (view result.0.0) × SameCaller (view two) (view result.1.0) }
{
    join(
        rt,
        || mark_on_thread(shared, one),
        || mark_on_thread(shared, two),
    )
}

fn mark_at_once<R: Threads + Sync + Abort, L: Ledger>(
    rt: &R,
    alloc: Global,
    blank: Blank,
) -> Result<(), OutOfMemory>
    requires name { blank.name ≡ L.name }
    requires parts { blank.parts ≡ L.parts }
    requires one { blank.parts ≡ 1 }
{
    let image = image_to_mark::<L>(rt, alloc, blank)?;
    assert_is(rt, word_at(&image, 73), Some(UNMARKED));
    let (shared, mut first, roots) = open_with_roots(alloc, image)?;
    assert!(rt; roots.as_slice() == [0].as_slice());
    let mut mutator = first.split(&shared, 0, &[]);
    let mut marker = first.split(&shared, 8, roots.as_slice());
    assert_is(rt, mutator.in_cycle(), true);
    find_held(rt, &shared, &mut mutator);
    find_in_hands(rt, &shared, &mut marker);
    let ((mutator, here), (marker, there)) = both_mark(rt, &shared, mutator, marker);
    let image = close_three(shared, first, mutator, marker);
    assert!(rt; here == UNMARKED && there == MARKED || here == MARKED && there == UNMARKED);
    assert_is(rt, word_at(&image, 73), Some(MARKED));
    Ok(())
}

#[test]
fn two_threads_mark_a_cell_and_one_exchange_wins(rt: HostRuntime) -> Result<(), OutOfMemory> {
    mark_at_once::<_, Brand>(&rt, rt.alloc(), Blank::new(1))
}

/// Absorbs a chunk of object 0, which is empty, and scans it.
fn absorb_and_scan(rt: &impl Abort, shared: &Shared, mut s: Session, chunk: Chunk) -> Session
    requires caller { IsOf shared.now s }
    requires chunk { IsChunkOf shared.now chunk }
    requires hands { (view s).hands ≡ [] }
    requires one { (hands_of chunk).hands ≡ 0 ∷ [] }
    ensures caller { IsOf shared.now result }
    ensures number { (view result).number ≡ (view s).number }
    ensures numbers { (view result).numbers ≡ (view s).numbers }
{
    s.absorb(shared, chunk);
    pass_field(rt, shared, &mut s, 0, 0);
    pass_field(rt, shared, &mut s, 0, 1);
    pass_field(rt, shared, &mut s, 0, 2);
    pass_reference(rt, shared, &mut s, 0, 0);
    pass_three(rt, shared, &mut s, 0);
    scan_step(shared, &mut s, 0);
    s
}

fn scan_and_new<R: Threads + Sync + Abort>(
    rt: &R,
    shared: &Shared,
    marker: (Session, Chunk),
    mutator: Session,
) -> (Session, (Session, bool))
    requires callers { IsOf shared.now marker.0 × IsOf shared.now mutator }
    requires chunk { IsChunkOf shared.now marker.1 }
    requires hands { (view marker.0).hands ≡ [] }
    requires one { (hands_of marker.1).hands ≡ 0 ∷ [] }
    requires mutator { (view mutator).number < 8 }
    ensures callers { IsOf shared.now result.0 × IsOf shared.now result.1.0 }
    ensures marker { ((view result.0).number ≡ (view marker.0).number) × ((view result.0).numbers ≡ (view marker.0).numbers) }
    ensures mutator { SameCaller (view mutator) (view result.1.0) }
{
    let (marker, chunk) = marker;
    join(
        rt,
        || absorb_and_scan(rt, shared, marker, chunk),
        || try_new(shared, mutator),
    )
}

#[test]
fn a_chunk_is_scanned_on_one_thread_while_another_makes_an_object(
    rt: HostRuntime,
) -> Result<(), OutOfMemory> {
    let image = image_in_a_cycle(&rt, rt.alloc())?;
    assert_words(&rt, &image, &[(32, 1), (3, 1)]);
    let (shared, mut first, roots) = open_with_roots(rt.alloc(), image)?;
    assert!(rt; roots.as_slice() == [0].as_slice());
    let mutator = first.split(&shared, 0, &[]);
    let marker = first.split(&shared, 8, &[]);
    let chunk = first.cut(&shared, roots);
    let (marker, (mutator, made)) = scan_and_new(&rt, &shared, (marker, chunk), mutator);
    let image = close_three(shared, first, mutator, marker);
    assert!(rt; made);
    assert_words(&rt, &image, &[(32, 3), (3, 2), (40, 3)]);
    Ok(())
}
