// Two threads: each takes and fills an entry, and both try to bind the same field.
ghost use Rattle.std.specs.Prelude.{◌≡◌, ◌≢◌, ◌^◌, ◌<◌, ◌≤◌, [], ◌∷◌, IfOk};
ghost use Rattle.entry_word.specs.Image.{image_of, sizes_of};
ghost use Rattle.plain_table.specs.Shows.{IsLawful};
ghost use Rattle.word_laws.specs.Small.{AreSmall};
ghost use Rattle.entry_base.specs.Callers.{SameCaller};
ghost use Rattle.entry_base.specs.Lists.{without_one};
ghost use Rattle.entry_base.specs.Sessions.{view, IsOf};
ghost use Rattle.entry_base.specs.Views.{numbers_below};

use crate::asked::{ONE, only, tag, word_at};
use crate::asserts::{assert_is, assert_words};
use crate::entries::{make, put_new};
use access_steps::{init, load, raw_load};
use entry_base::{Session, Shared};
use entry_word::Image;
use graph_steps::{fetch_global, link_global};
use plain_table::{OutOfMemory, Reply};
use std::alloc::Global;
use std::process::Abort;
use std::thread::{Threads, join};
use worked_tables::{close_both, close_three, open, open_fresh};

/// Takes an external index and fills it. The answer is its word.
fn put_on_thread(
    rt: &impl Abort,
    shared: &Shared,
    mut s: Session,
    byte: u8,
    value: u64,
) -> (Session, u32)
    requires caller { IsOf shared.now s }
    requires small { value < 2 ^ 48 }
    ensures caller { IsOf shared.now result.0 }
    ensures same { SameCaller (view s) (view result.0) }
{
    let word = put_new(rt, shared, &mut s, byte, value);
    (s, word)
}

fn both_put<R: Threads + Sync + Abort>(
    rt: &R,
    shared: &Shared,
    one: Session,
    two: Session,
) -> ((Session, u32), (Session, u32))
    requires callers { IsOf shared.now one × IsOf shared.now two }
    ensures callers { IsOf shared.now result.0.0 × IsOf shared.now result.1.0 }
    ensures same { SameCaller (view one) (view result.0.0) × SameCaller (view two) (view result.1.0) }
{
    join(
        rt,
        || put_on_thread(rt, shared, one, 0x0f, 0xc0),
        || put_on_thread(rt, shared, two, 0x17, 0xd0),
    )
}

/// Loads by both words under their tags, and by a word past the limit.
fn load_both(rt: &impl Abort, shared: &Shared, s: &mut Session, here: u32, there: u32)
    requires caller { IsOf shared.now s.old }
    ensures caller { IsOf shared.now s.new }
    ensures same { SameCaller (view s.old) (view s.new) }
{
    let first = raw_load(shared, s, here, only(rt, 0x0f));
    assert_is(rt, first, Reply::Value(0xc0));
    let second = raw_load(shared, s, there, only(rt, 0x17));
    assert_is(rt, second, Reply::Value(0xd0));
    let past = raw_load(shared, s, 0xffff_ffff, only(rt, 0x0f));
    assert_is(rt, past, Reply::Fault);
}

/// Asserts that the first two entries are the cells of both threads, in either order.
fn assert_cells(rt: &impl Abort, image: &Image, in_order: bool) {
    let (early, late) = if in_order {
        (0x400f_0000_0000_00c0, 0x4017_0000_0000_00d0)
    } else {
        (0x4017_0000_0000_00d0, 0x400f_0000_0000_00c0)
    };
    assert_words(rt, image, &[(41, early), (42, late)]);
}

/// Joins the sessions of both threads into the first one, which then loads by both words, and closes the table.
fn load_and_close(
    rt: &impl Abort,
    shared: Shared,
    mut first: Session,
    one: (Session, u32),
    two: (Session, u32),
) -> Image
    requires callers { IsOf shared first × IsOf shared one.0 × IsOf shared two.0 }
    requires low { ((view one.0).number ≤ 12) × ((view two.0).number ≤ 12) }
    requires differ { (view one.0).number ≢ (view two.0).number }
    requires given { (view first).numbers ≡ without_one (view two.0).number (without_one (view one.0).number (numbers_below 13)) }
    requires back { ((view one.0).numbers ≡ (view one.0).number ∷ []) × ((view two.0).numbers ≡ (view two.0).number ∷ []) }
{
    let (one, here) = one;
    let (two, there) = two;
    first.join(&shared, one);
    first.join(&shared, two);
    load_both(rt, &shared, &mut first, here, there);
    shared.finish(first)
}

#[test]
fn two_threads_take_and_fill_an_entry_each(rt: HostRuntime) -> Result<(), OutOfMemory> {
    let (shared, mut first) = open_fresh(rt.alloc(), ONE)?;
    let one = first.split(&shared, 0, &[]);
    let two = first.split(&shared, 1, &[]);
    let ((one, here), (two, there)) = both_put(&rt, &shared, one, two);
    let image = load_and_close(&rt, shared, first, (one, here), (two, there));
    assert_is(&rt, word_at(&rt, &image, 0), 0x1_0000_0003);
    assert!(rt; here == 0x1_0000 && there == 0x2_0000 || here == 0x2_0000 && there == 0x1_0000);
    assert_cells(&rt, &image, here == 0x1_0000);
    Ok(())
}

/// Fetches global 0, which holds object 0, into variable 0.
fn fetch_common(rt: &impl Abort, shared: &Shared, s: &mut Session)
    requires caller { IsOf shared.now s.old }
    requires mutator { (view s.old).number < 8 }
    ensures caller { IsOf shared.now s.new }
    ensures same { SameCaller (view s.old) (view s.new) }
{
    let fetched = fetch_global(shared, s, 0, 0);
    assert_is(rt, fetched, Reply::Obj(0));
}

/// An image with one object, which global 0 and the variables 0 of sessions 0 and 1 hold.
pub(crate) fn image_with_a_common_object(
    rt: &impl Abort,
    alloc: Global,
) -> Result<Image, OutOfMemory>
    ensures lawful { IfOk result (λ image. IsLawful (image_of image)) }
    ensures small { IfOk result (λ image. AreSmall (sizes_of image.shape)) }
{
    let (shared, mut first) = open_fresh(alloc, ONE)?;
    let mut one = first.split(&shared, 0, &[]);
    let mut two = first.split(&shared, 1, &[]);
    make(rt, &shared, &mut one, 0, 0);
    let linked = link_global(&shared, &mut one, 0, Some(0));
    assert_is(rt, linked, Reply::Ok);
    fetch_common(rt, &shared, &mut two);
    let image = close_three(shared, first, one, two);
    assert_is(rt, word_at(rt, &image, 3), 1);
    assert!(rt; image.vars.len() == 128);
    assert_is(rt, image.vars[0], 1);
    assert_is(rt, image.vars[16], 1);
    Ok(image)
}

/// Inits external field 0 of the object of variable 0.
fn init_on_thread(
    rt: &impl Abort,
    shared: &Shared,
    mut s: Session,
    byte: u8,
    value: u64,
) -> (Session, Reply)
    requires caller { IsOf shared.now s }
    requires small { value < 2 ^ 48 }
    ensures caller { IsOf shared.now result.0 }
    ensures same { SameCaller (view s) (view result.0) }
{
    let said = init(shared, &mut s, 0, 0, tag(rt, byte), value);
    (s, said)
}

fn both_init<R: Threads + Sync + Abort>(
    rt: &R,
    shared: &Shared,
    one: Session,
    two: Session,
) -> ((Session, Reply), (Session, Reply))
    requires callers { IsOf shared.now one × IsOf shared.now two }
    ensures callers { IsOf shared.now result.0.0 × IsOf shared.now result.1.0 }
    ensures same { SameCaller (view one) (view result.0.0) × SameCaller (view two) (view result.1.0) }
{
    join(
        rt,
        || init_on_thread(rt, shared, one, 0x0f, 0xc0),
        || init_on_thread(rt, shared, two, 0x17, 0xd0),
    )
}

/// Asserts that of two inits of one field one won, whose word the other one found. True where the first did.
fn first_won(rt: &impl Abort, here: Reply, there: Reply, word: u64) -> bool {
    assert!(rt; word == 0x1_0000 || word == 0x2_0000);
    let taken = Reply::Taken((word % (1 << 32)) as u32);
    assert!(rt; here == Reply::Ok && there == taken || here == taken && there == Reply::Ok);
    here == Reply::Ok
}

/// Loads by field 0 under the winner's tag and under the other one.
fn load_winner(rt: &impl Abort, shared: &Shared, s: &mut Session, first: bool)
    requires caller { IsOf shared.now s.old }
    ensures caller { IsOf shared.now s.new }
    ensures same { SameCaller (view s.old) (view s.new) }
{
    let (won, lost, value) = if first {
        (0x0f, 0x17, 0xc0)
    } else {
        (0x17, 0x0f, 0xd0)
    };
    let found = load(shared, s, 0, 0, only(rt, won));
    assert_is(rt, found, Reply::Value(value));
    let refused = load(shared, s, 0, 0, only(rt, lost));
    assert_is(rt, refused, Reply::Fault);
}

#[test]
fn two_threads_init_one_field_and_one_of_them_binds_it(rt: HostRuntime) -> Result<(), OutOfMemory> {
    let image = image_with_a_common_object(&rt, rt.alloc())?;
    let (shared, mut first) = open(rt.alloc(), image)?;
    let one = first.split(&shared, 0, &[]);
    let two = first.split(&shared, 1, &[]);
    let ((one, here), (two, there)) = both_init(&rt, &shared, one, two);
    let image = close_three(shared, first, one, two);
    assert_is(&rt, word_at(&rt, &image, 0), 0x1_0000_0003);
    let word = word_at(&rt, &image, 37);
    let won = first_won(&rt, here, there, word);
    assert_cells(&rt, &image, won == (word == 0x1_0000));
    let (shared, mut first) = open(rt.alloc(), image)?;
    let mut later = first.split(&shared, 1, &[]);
    load_winner(&rt, &shared, &mut later, won);
    let image = close_both(shared, first, later);
    assert_is(&rt, word_at(&rt, &image, 0), 0x1_0000_0003);
    Ok(())
}
