// Whole cycles on images in which nothing was made, and masks of words.
ghost use Rattle.std.specs.Prelude.{◌≡◌};
ghost use Rattle.entry_word.specs.Image.{IsValidShape};

use crate::asserts::assert_is;
use entry_word::{Image, Shape};
use plain_table::{Compaction, OutOfMemory, Policy, SweepReport};
use std::alloc::Global;
use sweeper::{begin, cell_mask, clear_marks, evac_mask, late_mark, mark_mask, sweep};

/// A cycle from its start to its sweep, on the image of a table before anything happened.
fn cycle(
    alloc: Global,
    shape: Shape,
    policy: Policy,
) -> Result<(Option<u32>, u32, SweepReport), OutOfMemory>
    requires { IsValidShape shape }
{
    let mut image = Image::fresh(alloc, shape)?;
    let mut area = begin(alloc, &mut image, policy)?;
    let start = area.start();
    let Ok(roots) = Vec::from_slice(alloc, area.roots()) else {
        return Err(OutOfMemory);
    };
    let scans = late_mark(&mut image, &mut area, &roots);
    let report = sweep(&mut image, area);
    Ok((start, scans, report))
}

/// What a sweep of no cell reports.
const NOTHING: SweepReport = SweepReport {
    kept: 0,
    freed: 0,
    moved: 0,
    segs: 1,
    trusted: 0,
    tfreed: 0,
    compaction: Compaction::NoArea,
};

#[test]
fn an_empty_table_has_no_area_and_keeps_nothing(rt: HostRuntime) -> Result<(), OutOfMemory> {
    let shape = Shape {
        seg: 4,
        ext: 4,
        tru: 2,
        objects: 3,
    };
    for policy in [Policy::Auto, Policy::Always, Policy::Never] {
        let (start, scans, report) = cycle(rt.alloc(), shape, policy)?;
        assert_is(&rt, (start, scans, report), (None, 0, NOTHING));
    }
    Ok(())
}

#[test]
fn the_largest_spaces_are_swept(rt: HostRuntime) -> Result<(), OutOfMemory> {
    let shape = Shape {
        seg: 256,
        ext: 256,
        tru: 256,
        objects: 16384,
    };
    let (start, scans, report) = cycle(rt.alloc(), shape, Policy::Auto)?;
    assert_is(&rt, (start, scans, report), (None, 0, NOTHING));
    Ok(())
}

#[test]
fn the_masks_of_five_words(rt: HostRuntime) {
    let words = [
        0,
        0x400f_0000_0000_00c0,
        0x0100_0000_0000_0002,
        0x080f_0000_0000_00c0,
        0x0400_0000_0000_0006,
    ];
    let masks = (mark_mask(&words), cell_mask(&words), evac_mask(&words));
    assert_is(&rt, (masks, mark_mask(&[])), ((2, 10, 16), 0));
}

#[test]
fn the_marks_of_a_whole_segment(rt: HostRuntime) {
    let mut words = [0x400f_0000_0000_00c0; 64];
    let before = (mark_mask(&words), cell_mask(&words));
    clear_marks(&mut words);
    let after = (mark_mask(&words), words[63]);
    assert_is(
        &rt,
        (before, after),
        ((u64::MAX, u64::MAX), (0, 0x000f_0000_0000_00c0)),
    );
}
