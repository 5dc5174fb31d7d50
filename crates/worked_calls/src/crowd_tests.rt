// Two and four threads that work on one table at once, each in a session of its own.
//
// Object 0 is common to all: variable 1 of each session holds it, and its trusted field names the published cell at trusted index 1.
// Object m + 1 is session m's own, in its variable 0. Each thread inits field 0 of its own object and of the common one, links both
// to each other, shares the common trusted cell with its own object, and puts one cell that no field names. However the threads'
// steps come between one another, after they are joined and the table is closed
// - no index was taken twice: the cells of each thread stand under its tags with its values where it was answered so, and the entries
//   from 1 up to the count of all inits and puts are cells, of which the freelist word has none;
// - one init of the common field answered Ok, and each other one Taken with the word that the field still has, whose cell is the
//   winner's;
// - each own object has its links and the common trusted word, and the common object is linked to an own one.
ghost use Rattle.std.specs.Prelude.{◌≤◌, ◌<◌, IfOk};
ghost use Rattle.entry_word.specs.Image.{image_of, sizes_of};
ghost use Rattle.plain_table.specs.Shows.{IsLawful};
ghost use Rattle.word_laws.specs.Small.{AreSmall};
ghost use Rattle.entry_base.specs.Callers.{SameCaller};
ghost use Rattle.entry_base.specs.Sessions.{view, IsOf};

use crate::asked::{tag, word_at};
use crate::asserts::{assert_is, assert_words};
use crate::cycles::begin_on;
use crate::entries::{bind, make, put_new};
use access_steps::init;
use entry_base::{Session, Shared};
use entry_word::{Image, Shape};
use graph_steps::{fetch_global, link, link_global};
use plain_table::{OutOfMemory, Policy, Reply};
use std::alloc::Global;
use std::process::Abort;
use std::thread::{Threads, join};
use trusted_steps::{publish, share, tnew};
use worked_tables::{close_five, close_three, open, open_fresh};

/// Four external segments of four entries, and eight objects: the external entries stand from word 96 on.
const CROWD: Shape = Shape {
    seg: 4,
    ext: 4,
    tru: 1,
    objects: 8,
};

/// Makes object 0 in variable 1, with a published trusted cell, and links global 0 to it.
fn make_common(rt: &impl Abort, shared: &Shared, s: &mut Session)
    requires caller { IsOf shared.now s.old }
    requires mutator { (view s.old).number < 8 }
    ensures caller { IsOf shared.now s.new }
    ensures same { SameCaller (view s.old) (view s.new) }
{
    make(rt, shared, s, 1, 0);
    let filled = tnew(shared, s, 1, tag(rt, 0x0f), 0xc0);
    assert_is(rt, filled, Reply::Ok);
    let published = publish(shared, s, 1);
    assert_is(rt, published, Reply::Ok);
    let linked = link_global(shared, s, 0, Some(1));
    assert_is(rt, linked, Reply::Ok);
}

/// Fetches the common object into variable 1 and makes an own one, whose number is `own`, in variable 0.
fn make_own(rt: &impl Abort, shared: &Shared, s: &mut Session, own: u32)
    requires caller { IsOf shared.now s.old }
    requires mutator { (view s.old).number < 8 }
    ensures caller { IsOf shared.now s.new }
    ensures same { SameCaller (view s.old) (view s.new) }
{
    let fetched = fetch_global(shared, s, 1, 0);
    assert_is(rt, fetched, Reply::Obj(0));
    make(rt, shared, s, 0, own);
}

/// An image whose sessions 0 to 3 hold the common object and one of their own.
fn image_of_a_crowd(rt: &impl Abort, alloc: Global) -> Result<Image, OutOfMemory>
    ensures lawful { IfOk result (λ image. IsLawful (image_of image)) }
    ensures small { IfOk result (λ image. AreSmall (sizes_of image.shape)) }
{
    let (shared, mut first) = open_fresh(alloc, CROWD)?;
    let mut one = first.split(&shared, 0, &[]);
    let mut two = first.split(&shared, 1, &[]);
    let mut three = first.split(&shared, 2, &[]);
    let mut four = first.split(&shared, 3, &[]);
    make_common(rt, &shared, &mut one);
    make_own(rt, &shared, &mut one, 1);
    make_own(rt, &shared, &mut two, 2);
    make_own(rt, &shared, &mut three, 3);
    make_own(rt, &shared, &mut four, 4);
    Ok(close_five(shared, first, (one, two), (three, four)))
}

/// What a thread was answered: by its init of the common field, and the word of its put.
#[derive(Clone, Copy)]
struct Work {
    common: Reply,
    word: u32,
}

/// Links the own object and the common one to each other, and shares the common trusted cell with the own object.
fn link_and_share(rt: &impl Abort, shared: &Shared, s: &mut Session)
    requires caller { IsOf shared.now s.old }
    ensures caller { IsOf shared.now s.new }
    ensures same { SameCaller (view s.old) (view s.new) }
{
    let to_common = link(shared, s, 0, 0, Some(1));
    assert_is(rt, to_common.reply, Reply::Ok);
    let to_own = link(shared, s, 1, 0, Some(0));
    assert_is(rt, to_own.reply, Reply::Ok);
    let bound = share(shared, s, 1, 0);
    assert_is(rt, bound, Reply::Ok);
}

/// The work of a thread, whose cells have values from its number on.
fn work_at_once(rt: &impl Abort, shared: &Shared, mut s: Session, number: u64) -> (Session, Work)
    requires caller { IsOf shared.now s }
    requires small { number < 8 }
    ensures caller { IsOf shared.now result.0 }
    ensures same { SameCaller (view s) (view result.0) }
{
    bind(rt, shared, &mut s, (0, 0), 0x0f, 0xc0 + number);
    let common = init(shared, &mut s, 1, 0, tag(rt, 0x0f), 0xd0 + number);
    link_and_share(rt, shared, &mut s);
    let word = put_new(rt, shared, &mut s, 0x17, 0xe0 + number);
    (s, Work { common, word })
}

/// The work of two threads, the first of which has a number.
fn both_work<R: Threads + Sync + Abort>(
    rt: &R,
    shared: &Shared,
    pair: (Session, Session),
    number: u64,
) -> ((Session, Work), (Session, Work))
    requires callers { IsOf shared.now pair.0 × IsOf shared.now pair.1 }
    requires small { number < 7 }
    ensures callers { IsOf shared.now result.0.0 × IsOf shared.now result.1.0 }
    ensures same { SameCaller (view pair.0) (view result.0.0) × SameCaller (view pair.1) (view result.1.0) }
{
    let (one, two) = pair;
    join(
        rt,
        || work_at_once(rt, shared, one, number),
        || work_at_once(rt, shared, two, number + 1),
    )
}

/// The entry that a word of the external space names.
fn entry_of(rt: &impl Abort, image: &Image, word: u64) -> u64 {
    word_at(rt, image, 96 + (word / 65536 % 65536) as usize)
}

/// Asserts what the thread of a number left: its cells, its links and the word that it shared.
fn assert_work(rt: &impl Abort, image: &Image, number: usize, work: Work)
    requires small { number < 4 }
{
    let first = 32 + 8 * (number + 1);
    let own = word_at(rt, image, first + 5);
    assert_is(
        rt,
        entry_of(rt, image, own),
        0x400f_0000_0000_00c0 + number as u64,
    );
    assert_is(
        rt,
        entry_of(rt, image, work.word as u64),
        0x4017_0000_0000_00e0 + number as u64,
    );
    assert_words(rt, image, &[(first + 1, 1), (first + 7, 0x1_0000)]);
}

/// Whether the thread of a number won the common field: then the field's cell is its own, and else it was answered the field's word.
fn won(rt: &impl Abort, image: &Image, number: u64, common: Reply) -> u64
    requires small { number < 4 }
    ensures { result ≤ 1 }
{
    let word = word_at(rt, image, 37);
    if common == Reply::Ok {
        assert_is(
            rt,
            entry_of(rt, image, word),
            0x400f_0000_0000_00d0 + number,
        );
        return 1;
    }
    assert_is(rt, common, Reply::Taken((word % (1 << 32)) as u32));
    0
}

/// Asserts what two threads left, the first of which has a number. The answer is how many of them won the common field.
fn assert_both(rt: &impl Abort, image: &Image, number: u64, here: Work, there: Work) -> u64
    requires small { number < 3 }
    ensures { result ≤ 2 }
{
    assert_work(rt, image, number as usize, here);
    assert_work(rt, image, number as usize + 1, there);
    won(rt, image, number, here.common) + won(rt, image, number + 1, there.common)
}

/// Asserts that the entries from 1 to `taken` are cells, after which the list of free indexes begins with a known word, and that
/// the common object is linked to one of the own ones, up to a last one.
fn assert_whole(rt: &impl Abort, image: &Image, taken: usize, free: u64, last: u64)
    requires few { taken < 16 }
{
    assert_is(rt, word_at(rt, image, 0), free);
    for index in 1..=taken {
        let high = word_at(rt, image, 96 + index) / (1 << 48);
        assert!(rt; high == 0x400f || high == 0x4017);
    }
    let linked = word_at(rt, image, 33);
    assert!(rt; 2 <= linked && linked <= last);
}

#[test]
fn two_threads_work_at_once(rt: HostRuntime) -> Result<(), OutOfMemory> {
    let image = image_of_a_crowd(&rt, rt.alloc())?;
    let (shared, mut first) = open(rt.alloc(), image)?;
    let one = first.split(&shared, 0, &[]);
    let two = first.split(&shared, 1, &[]);
    let ((one, here), (two, there)) = both_work(&rt, &shared, (one, two), 0);
    let image = close_three(shared, first, one, two);
    assert_whole(&rt, &image, 6, 0x1_0000_0007, 3);
    assert_is(&rt, assert_both(&rt, &image, 0, here, there), 1);
    Ok(())
}

fn all_work<R: Threads + Sync + Abort>(
    rt: &R,
    shared: &Shared,
    low: (Session, Session),
    high: (Session, Session),
) -> (
    ((Session, Work), (Session, Work)),
    ((Session, Work), (Session, Work)),
)
    requires low { IsOf shared.now low.0 × IsOf shared.now low.1 }
    requires high { IsOf shared.now high.0 × IsOf shared.now high.1 }
    ensures low { IsOf shared.now result.0.0.0 × IsOf shared.now result.0.1.0 }
    ensures high { IsOf shared.now result.1.0.0 × IsOf shared.now result.1.1.0 }
    ensures same_low { SameCaller (view low.0) (view result.0.0.0) × SameCaller (view low.1) (view result.0.1.0) }
    ensures same_high { SameCaller (view high.0) (view result.1.0.0) × SameCaller (view high.1) (view result.1.1.0) }
{
    join(
        rt,
        ||
            requires callers { IsOf shared.now low.0 × IsOf shared.now low.1 }
        { both_work(rt, shared, low, 0) },
        ||
            requires callers { IsOf shared.now high.0 × IsOf shared.now high.1 }
        { both_work(rt, shared, high, 2) },
    )
}

/// Opens an image of the crowd, has four threads work on it at once, and asserts what they left in the image after it.
fn assert_four<R: Threads + Sync + Abort>(
    rt: &R,
    alloc: Global,
    image: Image,
) -> Result<Image, OutOfMemory>
    requires lawful { IsLawful (image_of image) }
    requires small { AreSmall (sizes_of image.shape) }
{
    let (shared, mut first) = open(alloc, image)?;
    let one = first.split(&shared, 0, &[]);
    let two = first.split(&shared, 1, &[]);
    let three = first.split(&shared, 2, &[]);
    let four = first.split(&shared, 3, &[]);
    let (low, high) = all_work(rt, &shared, (one, two), (three, four));
    let ((one, first_work), (two, second_work)) = low;
    let ((three, third_work), (four, fourth_work)) = high;
    let image = close_five(shared, first, (one, two), (three, four));
    assert_whole(rt, &image, 12, 0x3_0000_000d, 5);
    let low = assert_both(rt, &image, 0, first_work, second_work);
    let high = assert_both(rt, &image, 2, third_work, fourth_work);
    assert_is(rt, low + high, 1);
    Ok(image)
}

#[test]
fn four_threads_work_at_once(rt: HostRuntime) -> Result<(), OutOfMemory> {
    let image = image_of_a_crowd(&rt, rt.alloc())?;
    let after = assert_four(&rt, rt.alloc(), image)?;
    assert_is(&rt, word_at(&rt, &after, 4), 0);
    Ok(())
}

/// The image of the crowd in a cycle with no area, whose start has cleared the mark of the common trusted cell.
fn crowd_in_a_cycle(rt: &impl Abort, alloc: Global) -> Result<Image, OutOfMemory>
    ensures lawful { IfOk result (λ image. IsLawful (image_of image)) }
    ensures small { IfOk result (λ image. AreSmall (sizes_of image.shape)) }
{
    let image = image_of_a_crowd(rt, alloc)?;
    let (image, area) = begin_on(rt, alloc, image, CROWD, Policy::Never)?;
    assert!(rt; area.start().is_none());
    assert_is(rt, word_at(rt, &image, 113), 0x000f_0000_0000_00c0);
    Ok(image)
}

// Each thread marks the common trusted cell before it shares it.
#[test]
fn four_threads_work_and_mark_at_once_in_a_cycle(rt: HostRuntime) -> Result<(), OutOfMemory> {
    let image = crowd_in_a_cycle(&rt, rt.alloc())?;
    let after = assert_four(&rt, rt.alloc(), image)?;
    assert_words(&rt, &after, &[(4, 1), (113, 0x400f_0000_0000_00c0)]);
    Ok(())
}
