// The visits of a scan at a pause: the cell that a field names is marked, and gets an evacuation entry where it has to move.
ghost use Rattle.std.specs.Prelude.{◌≡◌, ℕ, ◌+◌, ◌-◌, ◌*◌, ◌/◌, ◌%◌, ◌^◌, ◌<◌, ◌≤◌, length, slice_index, slice_set};
ghost use Rattle.plain_table.specs.declared.events.Field.TheVariants as field;
ghost use Rattle.plain_table.specs.Words.{field_place};
ghost use Rattle.word_laws.specs.Runs.{marked_after};
ghost use Rattle.sweeper.specs.Visits.{entered, moved_out, visited};

use crate::marks::mark;
use crate::pass::is_cell;
use crate::sweeps::moving;

const EVACUATION_BIT: u64 = 1 << 58;

const LINK_SIZE: u64 = 1 << 32;

const FIRST_EXTERNAL_FIELD: usize = 37;

/// The external field gets an evacuation entry at the head of the freelist, where one below the area's start is free; and
/// else the compaction is aborted.
fn enter(words: &mut [u64], base: usize, start: usize, number: u64)
    requires inside { base + start ≤ length words.old }
    requires some { 2 ≤ length words.old }
    requires small { start < 65536 }
    requires few { number < 65536 }
    ensures { words.new ≡ entered words.old base start number }
{
    let head = (words[0] % LINK_SIZE) as usize;
    let len = words[0] / LINK_SIZE;
    if len > 0 && head < start {
        let link = words[base + head] % LINK_SIZE;
        words[0] = link + LINK_SIZE * (len - 1);
        words[base + head] = EVACUATION_BIT + number;
    } else {
        words[1] = start as u64 + LINK_SIZE;
    }
}

/// A cell of the area at an index that the external field names gets an evacuation entry, unless the compaction is aborted.
fn move_out(words: &mut [u64], base: usize, limit: usize, number: u64, index: usize)
    requires inside { base + limit ≤ length words.old }
    requires some { 2 ≤ length words.old }
    requires small { limit ≤ 65536 }
    requires few { number < 65536 }
    ensures { words.new ≡ moved_out words.old base limit number index }
{
    if let Some(start) = moving(words[1]) {
        let start = start as usize;
        if start <= index && index < limit && is_cell(words[base + index]) {
            enter(words, base, start, number);
        }
    }
}

/// The visit of an external field by its number.
pub(crate) fn visit_external(words: &mut [u64], base: usize, limit: usize, number: usize)
    requires inside { base + limit ≤ length words.old }
    requires heap { field_place (field.External number) < length words.old }
    requires small { limit ≤ 65536 }
    requires few { number < 65536 }
    ensures { words.new ≡ visited words.old base limit number }
{
    let index = (words[FIRST_EXTERNAL_FIELD + 8 * (number / 2) + number % 2] / 65536) as usize;
    mark(words, base, limit, index);
    move_out(words, base, limit, number as u64, index);
}
