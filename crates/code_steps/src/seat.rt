// What a thread steps with.
ghost use Rattle.std.specs.Prelude.{◌≡◌, ◌+◌, ◌%◌, ◌<◌, ◌≤◌, ◌==◌, [], ℕ, true, false, length};

use crate::plays::{
    Claims, GivesPart, Learns, LoadsCode, LoadsEntry, LoadsSequence, Releases, StoresCode,
    StoresEntry, TakesIn,
};
use crate::table::CodeTable;
use crate::view::View;
use atomic_table::Seat;

/// A token of one thread, with no bytes. Its view (`view` of `specs/Seats.antt`) is what it knows:
/// its parts, what it has seen, its own stores and what its steps showed.
#[derive(Drop)]
pub struct CodeSeat {
    pub(crate) seat: Seat<(), View>,
    ghost bare: { seat.me.1 ≡ [] },
}

impl CodeSeat {
    ghost use Rattle.code_steps.specs.Lists.{StartsWith, list_at, total};
    ghost use Rattle.code_steps.specs.Views.{giver, newcomer, both, known_at, OwnsSeen, IsWhole};
    ghost use Rattle.code_steps.specs.Steps.{LoadedSequence, Claimed, Released};
    ghost use Rattle.code_steps.specs.Seats.{view, IsOf, IsAt};

    /// Gives one of at least two parts to a new seat of the same table, which has seen what this
    /// one has: no later call of either shows a sequence below those that were shown to this one.
    pub fn split(&mut self, table: &CodeTable) -> CodeSeat
        requires caller { IsOf table.now self.old }
        requires parts { 2 ≤ (view self.old).parts }
        ensures callers { IsOf table.now self.new × IsOf table.now result }
        ensures left { view self.new ≡ giver (view self.old) }
        ensures right { view result ≡ newcomer (view self.old) }
        ensures known { (i : ℕ) → (known_at (view self.new) i ≡ known_at (view self.old) i)
            × (known_at (view result) i ≡ known_at (view self.old) i) }
    {
        CodeSeat {
            seat: table.table.shared.split_seat::<GivesPart>(&mut self.seat),
        }
    }

    /// Takes in another seat of the same table: the parts and own stores of both, of each entry the
    /// longer of the two lists, which begins with the other, and all that was shown to either. A seat that has all 16 parts then
    /// has seen every list whole.
    pub fn join(&mut self, table: &CodeTable, other: CodeSeat)
        requires { IsOf table.now self.old × IsOf table.now other }
        ensures caller { IsOf table.now self.new }
        ensures joined { view self.new ≡ both (view self.old) (view other) }
        ensures seen { (i : ℕ) → StartsWith (list_at (view self.new).seen i) (list_at (view self.old).seen i)
            × StartsWith (list_at (view self.new).seen i) (list_at (view other).seen i) }
        ensures known { (i : ℕ) (weight : ℕ → ℕ) → total weight (known_at (view self.new) i)
            ≡ total weight (known_at (view self.old) i) + total weight (known_at (view other) i) }
        ensures own { OwnsSeen (view self.new) }
        ensures whole { (view self.new).parts ≡ 16 → IsWhole (view self.new) }
    {
        let CodeSeat { seat } = other;
        table
            .table
            .shared
            .join_seat::<TakesIn>(&mut self.seat, seat);
        table.table.shared.load::<Learns>(&mut self.seat, 1);
    }

    // Loads the sequence of an entry.
    pub(crate) fn load_sequence(&mut self, table: &CodeTable, at: u32) -> u64
        requires caller { IsOf table.now self.old }
        requires at { at < length (view self.old).seen }
        ensures caller { IsOf table.now self.new }
        ensures learned { LoadedSequence (view self.old) at result (view self.new) }
    {
        table
            .table
            .shared
            .load::<LoadsSequence>(&mut self.seat, 3 * at as usize)
    }

    // Loads the code number of the entry whose sequence was loaded last.
    pub(crate) fn load_code(&mut self, table: &CodeTable, at: u32) -> u64
        requires caller { IsOf table.now self.old }
        requires at { (at < length (view self.old).seen) × ((view self.old).at ≡ at) }
        ensures caller { IsOf table.now self.new }
        ensures learned { view self.new ≡ record (view self.old) { code = result } }
    {
        table
            .table
            .shared
            .load::<LoadsCode>(&mut self.seat, 3 * at as usize + 1)
    }

    // Loads the entry number of the entry whose sequence was loaded last.
    pub(crate) fn load_entry(&mut self, table: &CodeTable, at: u32) -> u64
        requires caller { IsOf table.now self.old }
        requires at { (at < length (view self.old).seen) × ((view self.old).at ≡ at) }
        ensures caller { IsOf table.now self.new }
        ensures learned { view self.new ≡ record (view self.old) { entry = result } }
    {
        table
            .table
            .shared
            .load::<LoadsEntry>(&mut self.seat, 3 * at as usize + 2)
    }

    // Exchanges the even sequence that was loaded last for the next odd one. The answer is the
    // sequence that was found.
    pub(crate) fn claim(&mut self, table: &CodeTable, at: u32, expected: u64) -> u64
        requires caller { IsOf table.now self.old }
        requires at { (at < length (view self.old).seen) × ((view self.old).at ≡ at) }
        requires even { (expected % 2 ≡ 0) × ((view self.old).first ≡ expected) }
        ensures seat { IsAt table.now self.new }
        ensures learned { Claimed (view self.old) at expected result (view self.new) }
    {
        table
            .table
            .shared
            .compare_exchange::<Claims>(&mut self.seat, 3 * at as usize, expected, expected + 1)
    }

    // Stores the code number of the entry that this seat holds.
    pub(crate) fn store_code(&mut self, table: &CodeTable, at: u32, code: u64)
        requires seat { IsAt table.now self.old }
        requires holds { ((view self.old).at ≡ at) × ((view self.old).holds ≡ true) }
        ensures seat { IsAt table.now self.new }
        ensures learned { view self.new ≡ record (view self.old) { code = code } }
    {
        table
            .table
            .shared
            .swap::<StoresCode>(&mut self.seat, 3 * at as usize + 1, code);
    }

    // Stores the entry number of the entry that this seat holds.
    pub(crate) fn store_entry(&mut self, table: &CodeTable, at: u32, entry: u64)
        requires seat { IsAt table.now self.old }
        requires holds { ((view self.old).at ≡ at) × ((view self.old).holds ≡ true) }
        ensures seat { IsAt table.now self.new }
        ensures learned { view self.new ≡ record (view self.old) { entry = entry } }
    {
        table
            .table
            .shared
            .swap::<StoresEntry>(&mut self.seat, 3 * at as usize + 2, entry);
    }

    // Stores the two numbers under the next even sequence, and ends the claim.
    pub(crate) fn release(&mut self, table: &CodeTable, at: u32, seq: u64)
        requires seat { IsAt table.now self.old }
        requires holds { ((view self.old).at ≡ at) × ((view self.old).holds ≡ true) }
        requires seq { seq ≡ (view self.old).first + 1 }
        ensures caller { IsOf table.now self.new }
        ensures learned { Released (view self.old) at seq (view self.new) }
    {
        table
            .table
            .shared
            .swap::<Releases>(&mut self.seat, 3 * at as usize, seq);
    }
}
