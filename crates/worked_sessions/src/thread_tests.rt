// Two threads: each makes the same try at once, of which one or both win; the image has the words that follow from the answers.
ghost use Rattle.std.specs.Prelude.{◌≡◌, ◌<◌, ℕ};
ghost use Rattle.plain_table.specs.declared.events.Space.TheVariants.{External};
ghost use Rattle.entry_base.specs.declared.view.Fact.TheVariants as fact;
ghost use Rattle.entry_base.specs.Callers.{SameCaller};
ghost use Rattle.entry_base.specs.Lists.{Has};
ghost use Rattle.entry_base.specs.Sessions.{view, IsOf};

use crate::asserts::{assert_is, assert_words};
use entry_base::{Session, Shared};
use freelist_rule::{Steps, load_freelist, load_link, take_step};
use plain_table::{OutOfMemory, Space};
use std::alloc::Global;
use std::marker::Brand;
use std::process::Abort;
use std::sync::ledger::{Blank, Ledger};
use std::thread::{Threads, join};
use worked_tables::{
    SHAPE, close_both, close_three, commit_linked, link_two, open_fresh, take_three, try_new,
    word_at,
};

fn both_new<R: Threads + Sync>(
    rt: &R,
    shared: &Shared,
    one: Session,
    two: Session,
) -> ((Session, bool), (Session, bool))
    requires callers { IsOf shared.now one × IsOf shared.now two }
    requires mutators { ((view one).number < 8) × ((view two).number < 8) }
    ensures callers { IsOf shared.now result.0.0 × IsOf shared.now result.1.0 }
    ensures same { SameCaller (view one) (view result.0.0) × SameCaller (view two) (view result.1.0) }
{
    join(rt, || try_new(shared, one), || try_new(shared, two))
}

#[test]
fn two_threads_make_one_object_or_two(rt: HostRuntime) -> Result<(), OutOfMemory> {
    let (shared, mut first) = open_fresh(rt.alloc(), SHAPE)?;
    let one = first.split(&shared, 0, &[]);
    let two = first.split(&shared, 1, &[]);
    let ((one, here), (two, there)) = both_new(&rt, &shared, one, two);
    let image = close_three(shared, first, one, two);
    assert!(rt; here || there);
    assert_is(
        &rt,
        (
            word_at(&image, 3),
            image.vars.as_slice()[0] != 0,
            image.vars.as_slice()[16] != 0,
        ),
        (Some(u64::from(here) + u64::from(there)), here, there),
    );
    Ok(())
}

/// Tries once to take the head of the external space. The answer is the index, where the try won.
fn try_take<L: Ledger>(shared: &Shared, mut s: Session, blank: Blank) -> (Session, Option<u32>)
    requires name { blank.name ≡ L.name }
    requires parts { blank.parts ≡ L.parts }
    requires one { blank.parts ≡ 1 }
    requires caller { IsOf shared.now s }
    ensures caller { IsOf shared.now result.0 }
    ensures same { SameCaller (view s) (view result.0) }
{
    let mut steps = Steps::<L>::start(blank);
    let word = load_freelist(shared, &mut s, Space::External);
    if word / (1 << 32) == 0 {
        return (s, None);
    }
    let entry = load_link(shared, &mut s, Space::External, word);
    let next = (entry % (1 << 32)) as u32;
    match take_step(shared, &mut s, Space::External, word, next, &mut steps) {
        Ok(index) => (s, Some(index)),
        Err(_) => (s, None),
    }
}

fn both_take<R: Threads + Sync, L: Ledger + Send + Sync, M: Ledger + Send + Sync>(
    rt: &R,
    shared: &Shared,
    one: (Session, Blank),
    two: (Session, Blank),
) -> ((Session, Option<u32>), (Session, Option<u32>))
    requires names { (one.1.name ≡ L.name) × (two.1.name ≡ M.name) }
    requires parts { (one.1.parts ≡ L.parts) × (two.1.parts ≡ M.parts) }
    requires single { (one.1.parts ≡ 1) × (two.1.parts ≡ 1) }
    requires callers { IsOf shared.now one.0 × IsOf shared.now two.0 }
    ensures callers { IsOf shared.now result.0.0 × IsOf shared.now result.1.0 }
    ensures same { SameCaller (view one.0) (view result.0.0) × SameCaller (view two.0) (view result.1.0) }
{
    let (one, first) = one;
    let (two, second) = two;
    join(
        rt,
        || try_take::<L>(shared, one, first),
        || try_take::<M>(shared, two, second),
    )
}

#[test]
fn two_threads_take_one_index_or_two(rt: HostRuntime) -> Result<(), OutOfMemory> {
    let (shared, mut first) = open_fresh(rt.alloc(), SHAPE)?;
    let one = first.split(&shared, 0, &[]);
    let two = first.split(&shared, 1, &[]);
    let ((one, here), (two, there)) = both_take::<_, Brand, Brand>(
        &rt,
        &shared,
        (one, Blank::new(1)),
        (two, Blank::new(1)),
    );
    let image = close_three(shared, first, one, two);
    let word = match (here, there) {
        (Some(1), Some(2)) | (Some(2), Some(1)) => 0x1_0000_0003,
        (Some(1), None) | (None, Some(1)) => 0x2_0000_0002,
        _ => 0,
    };
    assert_is(&rt, word_at(&image, 0), Some(word));
    Ok(())
}

/// Links the segment from index 4 on, and commits it. The answer is the word that the exchange finds.
fn link_whole(shared: &Shared, mut s: Session) -> (Session, u64)
    requires caller { IsOf shared.now s }
    requires shape { (view s).opening.shape ≡ SHAPE }
    requires loaded { (takes : ℕ) × Has (view s).facts (fact.Freelist External 4 takes) }
    ensures caller { IsOf shared.now result.0 }
    ensures same { SameCaller (view s) (view result.0) }
{
    link_two(shared, &mut s, 4);
    link_two(shared, &mut s, 6);
    let found = commit_linked(shared, &mut s);
    (s, found)
}

fn both_link<R: Threads + Sync + Abort>(
    rt: &R,
    shared: &Shared,
    mut one: Session,
    mut two: Session,
) -> ((Session, u64), (Session, u64))
    requires callers { IsOf shared.now one × IsOf shared.now two }
    requires shapes { ((view one).opening.shape ≡ SHAPE) × ((view two).opening.shape ≡ SHAPE) }
    ensures callers { IsOf shared.now result.0.0 × IsOf shared.now result.1.0 }
    ensures same { SameCaller (view one) (view result.0.0) × SameCaller (view two) (view result.1.0) }
{
    let empty = load_freelist(shared, &mut one, Space::External);
    assert_is(rt, empty, 4);
    let empty = load_freelist(shared, &mut two, Space::External);
    assert_is(rt, empty, 4);
    join(rt, || link_whole(shared, one), || link_whole(shared, two))
}

fn link_at_once<R: Threads + Sync + Abort, L: Ledger>(
    rt: &R,
    alloc: Global,
    blank: Blank,
) -> Result<(), OutOfMemory>
    requires name { blank.name ≡ L.name }
    requires parts { blank.parts ≡ L.parts }
    requires one { blank.parts ≡ 1 }
{
    let (shared, mut first) = open_fresh(alloc, SHAPE)?;
    let mut steps = Steps::<L>::start(blank);
    let last = take_three(&shared, &mut first, &mut steps);
    assert_is(rt, last, Some(3));
    let other = first.split(&shared, 0, &[]);
    let ((first, here), (other, there)) = both_link(rt, &shared, first, other);
    let image = close_both(shared, first, other);
    assert!(rt; here == 4 && there == 0x4_0000_0004 || here == 0x4_0000_0004 && there == 4);
    assert_words(
        rt,
        &image,
        &[(0, 0x4_0000_0004), (68, (1 << 56) + 5), (71, (1 << 56) + 8)],
    );
    Ok(())
}

#[test]
fn two_threads_link_a_whole_segment_and_one_commits_it(rt: HostRuntime) -> Result<(), OutOfMemory> {
    link_at_once::<_, Brand>(&rt, rt.alloc(), Blank::new(1))
}
