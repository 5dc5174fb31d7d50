// The sweep of all words of a table.
ghost use Rattle.std.specs.Prelude.{◌≡◌, ◌≢◌, ℕ, ◌+◌, ◌*◌, ◌/◌, ◌<◌, ◌≤◌, length, slice_index};
ghost use Rattle.entry_word.specs.Image.{sizes_of};
ghost use Rattle.sweeper.specs.Whole.{moving_of, compaction_of, IsSmallShape, IsShownBySome, AreResolved, IsTidied, SweepsAll};

use crate::moves::{AreaSpan, move_cells};
use crate::pass::{SpaceReport, Span, sweep_space};
use entry_word::Shape;
use plain_table::{Compaction, SweepReport};

/// Sweeps all words of a table in a cycle that may finish, and after it they show the finished table.
pub(crate) fn sweep_words(words: &mut [u64], shape: Shape) -> SweepReport
    requires shape { IsSmallShape shape }
    requires shown { IsShownBySome words.old (sizes_of shape) }
    ensures { SweepsAll words.old words.new (sizes_of shape) result }
{
    let base = 32 + 8 * shape.objects as usize;
    let limit = shape.seg * shape.ext;
    let trusted_limit = shape.seg * shape.tru;
    let compaction = compaction(words[1]);
    let from = resolve(words, shape, base, limit);
    let external = sweep_space(words, Span { base, limit, from }, shape.seg, shape.ext, 0);
    let trusted_span = Span {
        base: base + limit as usize,
        limit: trusted_limit,
        from: trusted_limit,
    };
    let trusted = sweep_space(words, trusted_span, shape.seg, shape.tru, 2);
    tidy(words, shape.objects as usize);
    report(&external, &trusted, compaction)
}

/// The report of a sweep, from those of its spaces.
fn report(external: &SpaceReport, trusted: &SpaceReport, compaction: Compaction) -> SweepReport
    ensures { result ≡ record {
      kept = external.now.pass.kept;
      freed = external.now.pass.freed;
      moved = external.now.pass.moved;
      segs = external.now.segs;
      trusted = trusted.now.pass.kept;
      tfreed = trusted.now.pass.freed;
      compaction = compaction;
    } }
{
    SweepReport {
        kept: external.pass.kept,
        freed: external.pass.freed,
        moved: external.pass.moved,
        segs: external.segs,
        trusted: trusted.pass.kept,
        tfreed: trusted.pass.freed,
        compaction,
    }
}

/// How the compaction ends, by the area word.
fn compaction(area: u64) -> Compaction
    ensures { result ≡ compaction_of area }
{
    if area == 0 {
        Compaction::NoArea
    } else if area >= 1 << 32 {
        Compaction::Aborted
    } else {
        Compaction::Done
    }
}

/// Where the area begins whose cells move, by the area word.
pub(crate) fn moving(area: u64) -> Option<u64>
    ensures { result ≡ moving_of area }
{
    if area == 0 || area >= 1 << 32 {
        None
    } else {
        Some(area)
    }
}

/// The cells move, where they do; answers the index below which marked entries stay.
fn resolve(words: &mut [u64], shape: Shape, base: usize, limit: u32) -> u32
    requires base { base ≡ 32 + 8 * shape.objects }
    requires limit { limit ≡ shape.seg * shape.ext }
    requires shown { IsShownBySome words.old (sizes_of shape) }
    ensures { AreResolved words.old words.new (sizes_of shape) result }
{
    match moving(words[1]) {
        None => limit,
        Some(start) => {
            let span = AreaSpan {
                base,
                limit: limit as usize,
                start: start as usize,
            };
            move_cells(words, span);
            start as u32
        }
    }
}

/// All headers and the words of the cycle become 0.
fn tidy(words: &mut [u64], objects: usize)
    requires { 32 + 8 * objects ≤ length words.old }
    ensures { IsTidied words.old words.new objects }
{
    for object in 0..objects {
        words[32 + 8 * object] = 0;
    }
    words[1] = 0;
    words[4] = 0;
}
