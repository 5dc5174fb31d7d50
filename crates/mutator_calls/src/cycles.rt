// The start and the finish of a cycle, and the totals of a table.
ghost use Rattle.std.specs.Prelude.{◌≡◌, ℕ, ◌+◌, ◌^◌, ◌<◌, ◌≤◌, length, take, slice_index};
ghost use Rattle.plain_table.specs.Table.{limit_in};
ghost use Rattle.plain_table.specs.Words.{entry_place, words_in_all};
ghost use Rattle.entry_word.specs.Image.{IsValidShape, sizes_of};
ghost use Rattle.sweeper.specs.Pass.{entries_from};
ghost use Rattle.mutator_calls.specs.Totals.{tally_of, with_entry};

use crate::heap::Mutator;
use crate::places::{COUNT, first_entry, limit};
use entry_word::Image;
use plain_table::{OutOfMemory, Policy, Space, SweepReport};
use std::alloc::Global;
use sweeper::{begin, late_mark, sweep};

/// An entry word has its value below bit 48.
const VALUES: u64 = 1 << 48;
/// And its tag in the eight bits from there on.
const TAGS: u64 = 256;

/// The totals of a table.
#[derive(Clone, Copy, Debug, PartialEq, Eq)]
pub struct Totals {
    /// The cells of the external space.
    pub live: u32,
    /// The cells of the trusted space.
    pub trusted: u32,
    /// The objects made.
    pub objects: u32,
    /// The sum of the values of the external cells modulo 2^48.
    pub sum: u64,
}

/// How many cells stand among the entries counted so far, and the sum of their values modulo 2^48.
#[derive(Clone, Copy, Debug, PartialEq, Eq)]
struct Tally {
    cells: u32,
    sum: u64,
}

impl Tally {
    /// One entry more is counted, by its word: it is a cell's where it has a tag.
    fn with_entry(self, word: u64) -> Tally
        requires few { self.cells < 65536 }
        requires small { self.sum < 2 ^ 48 }
        ensures counted { result ≡ with_entry self word }
        ensures more { result.cells ≤ self.cells + 1 }
        ensures sum { result.sum < 2 ^ 48 }
    {
        if word / VALUES % TAGS == 0 {
            self
        } else {
            Tally {
                cells: self.cells + 1,
                sum: (self.sum + word % VALUES) % VALUES,
            }
        }
    }
}

/// The cells among the `limit` entries from a place on.
fn tally_entries(words: &[u64], base: usize, limit: u32) -> Tally
    requires inside { base + limit ≤ length words.now }
    requires few { limit ≤ 65536 }
    ensures { result ≡ tally_of (entries_from words.now base) limit }
{
    let mut tally = Tally { cells: 0, sum: 0 };
    for index in 0..limit {
        tally = tally.with_entry(words[base + index as usize]);
    }
    tally
}

/// The cells of a space of an image.
fn tally_space(image: &Image, space: Space) -> Tally
    requires shape { IsValidShape image.now.shape }
    requires whole { length image.now.words.items ≡ words_in_all (sizes_of image.now.shape) }
    ensures { result ≡ tally_of (λ i. slice_index image.now.words.items (entry_place (sizes_of image.now.shape) space i)) (limit_in (sizes_of image.now.shape) space) }
{
    tally_entries(
        &image.words,
        first_entry(image.shape, space),
        limit(image.shape, space),
    )
}

/// The list begins with these objects.
fn list_first(list: &mut [u32], objects: &[u32])
    requires { length objects.now ≤ length list.old }
    ensures long { length list.new ≡ length list.old }
    ensures first { take (length objects.now) list.new ≡ objects.now }
{
    list[..objects.len()].copy_from_slice(objects);
}

impl Mutator {
    ghost use Rattle.std.specs.Prelude.{IfOk, OnErr};
    ghost use Rattle.plain_table.specs.Table.{Table};
    ghost use Rattle.entry_word.specs.Image.{image_of};
    ghost use Rattle.mutator_calls.specs.Calls.{IsReady, Sees};
    ghost use Rattle.mutator_calls.specs.Cycles.{FinishesEach, StartsEach};
    ghost use Rattle.mutator_calls.specs.Totals.{IsTotal};

    /// The start of a cycle; answers where its evacuation area begins. It refuses only where an allocation fails, and then
    /// the image is as it was.
    pub fn start(&mut self, alloc: Global, policy: Policy) -> Result<Option<u32>, OutOfMemory>
        requires ready { IsReady self.old }
        requires outside { slice_index self.old.image.words.items 4 ≡ 0 }
        ensures ready { IsReady self.new }
        ensures starts { IfOk result (λ area. StartsEach self.old self.new policy area) }
        ensures shape { self.new.image.shape ≡ self.old.image.shape }
        ensures cycle { IfOk result (λ area. slice_index self.new.image.words.items 4 ≡ 1) }
        ensures unchanged { OnErr result (self.new.image ≡ self.old.image) }
    {
        let area = begin(alloc, &mut self.image, policy)?;
        let start = area.start();
        self.owed = area.roots().len();
        list_first(&mut self.list, area.roots());
        self.area = Some(area);
        Ok(start)
    }

    /// The finish of a cycle: the listed objects, the roots and all that these reach are scanned, and the table is swept.
    pub fn finish(&mut self) -> SweepReport
        requires ready { IsReady self.old }
        requires cycle { slice_index self.old.image.words.items 4 ≡ 1 }
        ensures ready { IsReady self.new }
        ensures finishes { FinishesEach self.old self.new result }
        ensures shape { self.new.image.shape ≡ self.old.image.shape }
        ensures outside { slice_index self.new.image.words.items 4 ≡ 0 }
    {
        let Some(mut area) = self.area.take() else {
            unreachable!();
        };
        late_mark(&mut self.image, &mut area, &self.list[..self.owed]);
        self.owed = 0;
        sweep(&mut self.image, area)
    }

    /// The cells of both spaces and the sum of the external values modulo 2^48, and the objects made.
    pub fn totals(&self) -> Totals
        requires ready { IsReady self.now }
        ensures { (s : Table) → Sees (image_of self.now.image) s → IsTotal s result }
    {
        let external = tally_space(&self.image, Space::External);
        let trusted = tally_space(&self.image, Space::Trusted);
        Totals {
            live: external.cells,
            trusted: trusted.cells,
            objects: self.image.words[COUNT] as u32,
            sum: external.sum,
        }
    }
}
