// The table, from its opening to its end.
ghost use Rattle.std.specs.Prelude.{◌≡◌, ◌+◌, ◌*◌, ◌%◌, ◌<◌, ◌≤◌, length, vec_len, IfOk};
ghost use Rattle.code_steps.specs.Views.{words_of};

use crate::plays::OneClaimer;
use crate::seat::CodeSeat;
use crate::view::View;
use atomic_table::Table;
use std::alloc::{AllocError, Global};

/// There was no memory.
#[derive(Debug, Clone, Copy, PartialEq, Eq)]
pub struct OutOfMemory;

/// Entries of a sequence, a code number and an entry number, which threads share through a `&`.
#[derive(Drop)]
pub struct CodeTable {
    pub(crate) table: Table<(), View, Vec<u64>, OneClaimer, Global>,
    // The room for the words at the end.
    room: Vec<u64>,
    ghost no_slots: { table.shared.table_id.slots ≡ 0 },
    ghost roomy: { length room.items ≡ table.shared.table_id.words },
}

impl CodeTable {
    ghost use Rattle.code_steps.specs.Views.{opening_view, IsWhole};
    ghost use Rattle.code_steps.specs.Seats.{view, IsOf, ShowLast};

    /// Opens a table of 1 to 16,384 entries, each of which begins with its pair, a code number and
    /// an entry number, under the even sequence `seq`. The seat has all 16 parts. It is refused
    /// only for want of memory.
    pub fn start(
        alloc: Global,
        pairs: &[(u64, u64)],
        seq: u64,
    ) -> Result<(CodeTable, CodeSeat), OutOfMemory>
        requires pairs { (1 ≤ length pairs.now) × (length pairs.now ≤ 16384) }
        requires even { seq % 2 ≡ 0 }
        ensures seat { IfOk result (λ t. IsOf t.0 t.1) }
        ensures opening { IfOk result (λ t. view t.1 ≡ opening_view seq pairs.now) }
    {
        let Ok(words) = opening_words(alloc, pairs, seq) else {
            return Err(OutOfMemory);
        };
        match Table::of_words(alloc, words.as_slice(), &words) {
            Ok((table, seat)) => Ok((CodeTable { table, room: words }, CodeSeat { seat })),
            Err(_) => Err(OutOfMemory),
        }
    }

    /// Closes the table by a seat that has all parts. The words, three for each entry, show the
    /// last pair of each list and its sequence.
    pub fn finish(self, seat: CodeSeat) -> Vec<u64>
        requires caller { IsOf self seat }
        requires parts { (view seat).parts ≡ 16 }
        ensures last { ShowLast result.items (view seat) }
        ensures whole { IsWhole (view seat) }
    {
        let CodeTable { table, mut room } = self;
        let CodeSeat { seat } = seat;
        let closed = table.close_with(seat);
        for i in 0..room.len() {
            room[i] = closed.word(i);
        }
        closed.free();
        room
    }
}

// The words at the opening.
fn opening_words(alloc: Global, pairs: &[(u64, u64)], seq: u64) -> Result<Vec<u64>, AllocError>
    requires { length pairs.now ≤ 16384 }
    ensures { IfOk result (λ words. words.items ≡ words_of seq pairs.now) }
{
    let mut words = Vec::with_capacity(alloc, 3 * pairs.len())?;
    for pair in pairs {
        words.push(seq)?;
        words.push(pair.0)?;
        words.push(pair.1)?;
    }
    Ok(words)
}
