// A cell that moves: its field has an evacuation entry, and what a mutator forges after the visit.
ghost use Rattle.std.specs.Prelude.{◌≡◌, ◌<◌, [], ◌∷◌, IfOk};
ghost use Rattle.plain_table.specs.Shows.{IsLawful};
ghost use Rattle.entry_word.specs.Image.{image_of};
ghost use Rattle.sweeper.specs.Begin.{HasRoom};
ghost use Rattle.entry_base.specs.Callers.{SameCaller};
ghost use Rattle.entry_base.specs.Sessions.{view, IsOf};

use crate::asked::{FOUR, headers, only, word_at};
use crate::asserts::{assert_is, assert_words};
use crate::cycles::{begin_on, cycle_over, finish_settled, open_with_roots};
use crate::entries::{bind, forge_word, forget, make_four};
use crate::scans::scan_lone;
use access_steps::{load, name, raw_load};
use entry_base::{Session, Shared};
use entry_word::Image;
use mark_steps::Evacuated;
use plain_table::{Compaction, OutOfMemory, Policy, Reply};
use std::alloc::Global;
use std::process::Abort;
use sweeper::Area;
use worked_tables::{close_both, close_three, open, open_fresh};

/// Makes the objects 0 to 3, whose first seven external fields name the cells at 1 to 7. Then only the fields 0 and 6 are left.
fn make_sparse(rt: &impl Abort, shared: &Shared, s: &mut Session)
    requires caller { IsOf shared.now s.old }
    requires mutator { (view s.old).number < 8 }
    ensures caller { IsOf shared.now s.new }
    ensures same { SameCaller (view s.old) (view s.new) }
{
    make_four(rt, shared, s);
    bind(rt, shared, s, 0, 0, 0xc1);
    bind(rt, shared, s, 0, 1, 0xc2);
    bind(rt, shared, s, 1, 0, 0xc3);
    bind(rt, shared, s, 1, 1, 0xc4);
    bind(rt, shared, s, 2, 0, 0xc5);
    bind(rt, shared, s, 2, 1, 0xc6);
    bind(rt, shared, s, 3, 0, 0xc7);
    forget(rt, shared, s, 1);
    forget(rt, shared, s, 2);
    forge_word(rt, shared, s, 0, 1, 0);
}

/// An image in a cycle whose area begins at 4, in which field 0 names the cell at 1, field 6 the one at 7, and 2 is free first.
fn image_to_move(rt: &impl Abort, alloc: Global) -> Result<(Image, Area), OutOfMemory>
    ensures lawful { IfOk result (λ t. IsLawful (image_of t.0)) }
    ensures shape { IfOk result (λ t. t.0.shape ≡ FOUR) }
    ensures room { IfOk result (λ t. HasRoom t.1 FOUR.objects) }
{
    let (shared, mut first) = open_fresh(alloc, FOUR)?;
    let mut s = first.split(&shared, 0, &[]);
    make_sparse(rt, &shared, &mut s);
    let image = close_both(shared, first, s);
    let (image, report) = cycle_over(rt, alloc, image, FOUR)?;
    assert!(rt; report.kept == 2 && report.freed == 5);
    begin_on(rt, alloc, image, FOUR, Policy::Always)
}

/// Scans the objects 0 and 3: the cell of field 6 has to move, and its evacuation entry stands at 2.
fn scan_both(rt: &impl Abort, shared: &Shared, s: &mut Session)
    requires caller { IsOf shared.now s.old }
    requires hands { (view s.old).hands ≡ 0 ∷ 3 ∷ [] }
    ensures caller { IsOf shared.now s.new }
    ensures same { SameCaller (view s.old) (view s.new) }
{
    let low = scan_lone(rt, shared, s, 0);
    assert_is(rt, low, (Evacuated::NotNeeded, Evacuated::NotNeeded));
    let high = scan_lone(rt, shared, s, 3);
    assert_is(
        rt,
        high,
        (Evacuated::Placed { index: 2 }, Evacuated::NotNeeded),
    );
}

/// The image in which objects 0 and 3 are scanned and then a word is forged into an external field of a variable's object.
fn forged_after_visit(
    rt: &impl Abort,
    alloc: Global,
    var: u32,
    f: u32,
    word: u32,
) -> Result<(Image, Area), OutOfMemory>
    requires range { (var < 16) × (f < 2) }
    ensures lawful { IfOk result (λ t. IsLawful (image_of t.0)) }
    ensures room { IfOk result (λ t. HasRoom t.1 FOUR.objects) }
{
    let (image, area) = image_to_move(rt, alloc)?;
    assert_is(rt, area.start(), Some(4));
    let (shared, mut first, roots) = open_with_roots(alloc, image)?;
    assert!(rt; roots.as_slice() == [0, 3].as_slice());
    let mut marker = first.split(&shared, 8, roots.as_slice());
    let mut mutator = first.split(&shared, 0, &[]);
    scan_both(rt, &shared, &mut marker);
    forge_word(rt, &shared, &mut mutator, var, f, word);
    let image = close_three(shared, first, marker, mutator);
    assert_is(rt, headers(rt, &image), [3, 0, 0, 3]);
    Ok((image, area))
}

/// Loads by the moved field and by the forged one.
fn load_moved(rt: &impl Abort, shared: &Shared, s: &mut Session)
    requires caller { IsOf shared.now s.old }
    requires mutator { (view s.old).number < 8 }
    ensures caller { IsOf shared.now s.new }
    ensures same { SameCaller (view s.old) (view s.new) }
{
    let answers = [
        load(shared, s, 3, 0, only(rt, 0x0f)),
        name(shared, s, 3, 0),
        name(shared, s, 0, 1),
        load(shared, s, 0, 1, only(rt, 0x0f)),
        load(shared, s, 0, 0, only(rt, 0x0f)),
    ];
    assert_is(
        rt,
        answers,
        [
            Reply::Value(0xc7),
            Reply::Word(0x0002_0000),
            Reply::Word(0x0007_0000),
            Reply::Fault,
            Reply::Value(0xc1),
        ],
    );
}

#[test]
fn a_word_that_is_forged_after_the_visit_does_not_follow_the_moved_cell(
    rt: HostRuntime,
) -> Result<(), OutOfMemory> {
    let (mut image, area) = forged_after_visit(&rt, rt.alloc(), 0, 1, 0x0007_0000)?;
    let report = finish_settled(&rt, &mut image, area, FOUR);
    assert!(rt; report.kept == 2 && report.freed == 0 && report.moved == 1);
    assert_is(&rt, report.compaction, Compaction::Done);
    let (shared, mut first) = open(rt.alloc(), image)?;
    let mut s = first.split(&shared, 0, &[]);
    load_moved(&rt, &shared, &mut s);
    let image = close_both(shared, first, s);
    assert_words(
        &rt,
        &image,
        &[(61, 0x0002_0000), (66, 0x000f_0000_0000_00c7)],
    );
    Ok(())
}

/// Loads by the word of the cell that was to move.
fn load_freed(rt: &impl Abort, shared: &Shared, s: &mut Session)
    requires caller { IsOf shared.now s.old }
    requires mutator { (view s.old).number < 8 }
    ensures caller { IsOf shared.now s.new }
    ensures same { SameCaller (view s.old) (view s.new) }
{
    let fault = raw_load(shared, s, 0x0007_0000, only(rt, 0x0f));
    assert_is(rt, fault, Reply::Fault);
}

#[test]
fn a_cell_whose_field_is_forged_away_after_the_visit_is_freed(
    rt: HostRuntime,
) -> Result<(), OutOfMemory> {
    let (mut image, area) = forged_after_visit(&rt, rt.alloc(), 3, 0, 0)?;
    let report = finish_settled(&rt, &mut image, area, FOUR);
    assert!(rt; report.kept == 1 && report.freed == 1 && report.moved == 0 && report.segs == 1);
    assert_is(&rt, report.compaction, Compaction::Done);
    let (shared, mut first) = open(rt.alloc(), image)?;
    let mut s = first.split(&shared, 0, &[]);
    load_freed(&rt, &shared, &mut s);
    let image = close_both(shared, first, s);
    assert_is(&rt, word_at(&rt, &image, 61), 0);
    Ok(())
}
