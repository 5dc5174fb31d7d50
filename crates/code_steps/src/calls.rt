// The write and the read of an entry.
ghost use Rattle.std.specs.Prelude.{◌≡◌, ◌<◌, ◌≤◌, length};
ghost use Rattle.code_steps.specs.Seats.{view, IsOf};
ghost use Rattle.code_steps.specs.Lists.{grown_at};
ghost use Rattle.code_steps.specs.Steps.{SameSeat};
ghost use Rattle.code_steps.specs.Views.{known_at};
ghost use Rattle.code_steps.specs.Calls.{RiseFrom, shown_by_write, HasWriteCause, LearnedByWrite, shown_by_read, HasReadCause, LearnedByRead};

use crate::seat::CodeSeat;
use crate::table::CodeTable;

/// What a write did.
#[derive(Debug, Clone, Copy, PartialEq, Eq)]
pub enum Wrote {
    /// The pair was stored, under this sequence.
    Done { seq: u64 },
    /// A write was under way at the load of the sequence, or the exchange found another sequence
    /// than the one that was loaded.
    Busy { expected: u64, found: u64 },
    /// The sequence is the last even one, 2^64 - 2.
    Spent,
}

/// What a read saw.
#[derive(Debug, Clone, Copy, PartialEq, Eq)]
pub enum CodeRead {
    /// A pair that one write stored, or the opening pair, and its sequence.
    Pair { code: u64, entry: u64, seq: u64 },
    /// A write was under way at the first load of the sequence, or one began or ended between the
    /// two loads.
    Again { first: u64, second: u64 },
}

/// The last even sequence.
const LAST_SEQUENCE: u64 = u64::MAX - 1;

/// Stores a pair at an entry of the table, if no other write is under way there.
pub fn write(table: &CodeTable, s: &mut CodeSeat, at: u32, code: u64, entry: u64) -> Wrote
    requires caller { IsOf table.now s.old }
    requires at { at < length (view s.old).seen }
    ensures caller { IsOf table.now s.new }
    ensures same { SameSeat (view s.old) (view s.new) }
    ensures shown { (view s.new).shown ≡ grown_at (view s.old).shown at (shown_by_write result) }
    ensures rises { RiseFrom (known_at (view s.old) at) (shown_by_write result) }
    ensures cause { HasWriteCause result }
    ensures learned { LearnedByWrite (view s.old) at (code, entry) result (view s.new) }
{
    let expected = s.load_sequence(table, at);
    if expected % 2 == 1 {
        return Wrote::Busy {
            expected,
            found: expected,
        };
    }
    if expected == LAST_SEQUENCE {
        return Wrote::Spent;
    }
    let found = s.claim(table, at, expected);
    if found != expected {
        return Wrote::Busy { expected, found };
    }
    let seq = expected + 2;
    s.store_code(table, at, code);
    s.store_entry(table, at, entry);
    s.release(table, at, seq);
    Wrote::Done { seq }
}

/// Reads the pair of an entry of the table, by a load of the sequence, one of each number, and
/// another of the sequence.
pub fn read(table: &CodeTable, s: &mut CodeSeat, at: u32) -> CodeRead
    requires caller { IsOf table.now s.old }
    requires at { at < length (view s.old).seen }
    ensures caller { IsOf table.now s.new }
    ensures same { SameSeat (view s.old) (view s.new) }
    ensures shown { (view s.new).shown ≡ grown_at (view s.old).shown at (shown_by_read result) }
    ensures rises { RiseFrom (known_at (view s.old) at) (shown_by_read result) }
    ensures cause { HasReadCause result }
    ensures learned { LearnedByRead (view s.old) at result (view s.new) }
{
    let first = s.load_sequence(table, at);
    let code = s.load_code(table, at);
    let entry = s.load_entry(table, at);
    let second = s.load_sequence(table, at);
    if first % 2 == 0 && first == second {
        CodeRead::Pair {
            code,
            entry,
            seq: first,
        }
    } else {
        CodeRead::Again { first, second }
    }
}
