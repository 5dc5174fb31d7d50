// A session: what one caller steps with.
ghost use Rattle.std.specs.Prelude.{◌≡◌, []};
ghost use Rattle.entry_base.specs.Tied.{Parts, IsTied};

use crate::arrays::{pick_numbers, pick_pending, pick_vars};
use crate::chunks::Chunk;
use crate::plays::{Absorbs, Cuts, Gives, Giving, Meets, TakesIn};
use crate::table::Shared;
use crate::view::View;
use atomic_table::Seat;
use entry_word::Pending;
use std::marker::Brand;

/// How many variables a mutator has.
const VARIABLES: usize = 16;

/// One caller's seat at an open table. Its view (`view` of `specs/Sessions.antt`) is what it knows and holds; it is no copy of
/// another, and a thread may take it. Its public fields are for the crates of steps.
#[derive(Drop)]
pub struct Session {
    pub seat: Seat<(), View>,
    /// The number of its events: a mutator's from 0 to 7, a marker's from 8 to 11, or 12.
    pub number: u32,
    // Its own number, those joined into it, and those that it may still give.
    pub(crate) numbers: [bool; 13],
    /// The variables and tickets as in an image; those of its numbers are right.
    pub vars: [u32; 128],
    pub pending: [Option<Pending>; 8],
    /// Whether the phase is in a cycle, and the start of the cycle's evacuation area.
    pub in_cycle: bool,
    pub area: Option<u32>,
    ghost bare: { seat.me.1 ≡ [] },
    ghost tied: { IsTied (record { number = number; numbers = numbers; vars = vars; pending = pending; in_cycle = in_cycle; area = area }) seat.me.0 },
}

impl Session {
    ghost use Rattle.std.specs.Prelude.{◌≢◌, ◌<◌, ◌≤◌, ◌==◌, ℕ};
    ghost use Rattle.entry_base.specs.Joins.{Absorbed, Joined};
    ghost use Rattle.entry_base.specs.Lists.{AreIn};
    ghost use Rattle.entry_base.specs.Numbers.{HasNumber};
    ghost use Rattle.entry_base.specs.Openings.{phase_of, start_of};
    ghost use Rattle.entry_base.specs.Sessions.{view, hands_of, held_in, pending_in, ticket_in, IsOf, IsChunkOf};
    ghost use Rattle.entry_base.specs.Views.{chunk_view, cutter, giver, newcomer};

    /// The number of its events.
    pub fn number(&self) -> u32
        ensures { result ≡ (view self.now).number }
    {
        self.number
    }

    /// The object that a variable of its number holds, by the variable's number below 16.
    pub fn held(&self, var: u32) -> Option<u32>
        requires { var < 16 }
        ensures { result ≡ held_in (view self.now) var }
    {
        let place = VARIABLES * self.number as usize + var as usize;
        if place < self.vars.len() && self.vars[place] != 0 {
            Some(self.vars[place] - 1)
        } else {
            None
        }
    }

    /// The trusted cell that its number may publish.
    pub fn pending(&self) -> Option<Pending>
        ensures { result ≡ pending_in (view self.now) }
    {
        let place = self.number as usize;
        if place < self.pending.len() {
            self.pending[place]
        } else {
            None
        }
    }

    /// The trusted index that its number may publish.
    pub fn ticket(&self) -> Option<u32>
        ensures { result ≡ ticket_in (view self.now) }
    {
        match self.pending() {
            Some(cell) => Some(cell.index),
            None => None,
        }
    }

    /// The phase is in a cycle.
    pub fn in_cycle(&self) -> bool
        ensures { result ≡ (phase_of (view self.now).opening == 1) }
    {
        self.in_cycle
    }

    /// The start of the cycle's evacuation area, where it has one.
    pub fn area(&self) -> Option<u32>
        ensures { result ≡ start_of (view self.now).opening }
    {
        self.area
    }

    fn split_as<N: Giving>(&mut self, shared: &Shared, number: u32, owed: &[u32]) -> Session
        requires caller { IsOf shared.now self.old }
        requires number { HasNumber (view self.old) number × (number ≢ (view self.old).number) × (number ≤ 12) }
        requires owed { AreIn owed.now (view self.old).hands }
        requires picked { (N.number ≡ number) × (N.owed ≡ owed.now) }
        ensures callers { IsOf shared.now self.new × IsOf shared.now result }
        ensures left { view self.new ≡ giver number owed.now (view self.old) }
        ensures right { view result ≡ newcomer number owed.now (view self.old) }
    {
        let _given = owed.len();
        let seat = shared.table.shared.split_seat::<Gives<N>>(&mut self.seat);
        self.numbers[number as usize] = false;
        let mut numbers = [false; 13];
        numbers[number as usize] = true;
        Session {
            seat,
            number,
            numbers,
            vars: self.vars,
            pending: self.pending,
            in_cycle: self.in_cycle,
            area: self.area,
        }
    }

    /// Gives a number that it may still give, and the objects of `owed`, which stand in its hands, to a new session of the same
    /// table. The new session has seen what this one has, takes the variables and the ticket of the number, and may give no
    /// number (`giver` and `newcomer` of `specs/Views.antt`).
    pub fn split(&mut self, shared: &Shared, number: u32, owed: &[u32]) -> Session
        requires caller { IsOf shared.now self.old }
        requires number { HasNumber (view self.old) number × (number ≢ (view self.old).number) × (number ≤ 12) }
        requires owed { AreIn owed.now (view self.old).hands }
        ensures callers { IsOf shared.now self.new × IsOf shared.now result }
        ensures left { view self.new ≡ giver number owed.now (view self.old) }
        ensures right { view result ≡ newcomer number owed.now (view self.old) }
    {
        self.split_as::<Brand>(shared, number, owed)
    }

    /// Takes in another session of the same table, with all that it holds and may give. The history that it has then seen
    /// begins with both, and the events of each number in it are those that the number's session had seen.
    pub fn join(&mut self, shared: &Shared, other: Session)
        requires callers { IsOf shared.now self.old × IsOf shared.now other }
        ensures caller { IsOf shared.now self.new }
        ensures joined { Joined (view self.old) (view other) (view self.new) }
    {
        let Session {
            seat,
            number: _,
            numbers,
            vars,
            pending,
            in_cycle: _,
            area: _,
        } = other;
        shared
            .table
            .shared
            .join_seat::<TakesIn>(&mut self.seat, seat);
        shared.table.shared.load::<Meets>(&mut self.seat, 0);
        pick_vars(&mut self.vars, &vars, &numbers);
        pick_pending(&mut self.pending, &pending, &numbers);
        pick_numbers(&mut self.numbers, &numbers);
    }

    fn cut_as<N: Giving>(&mut self, shared: &Shared, objects: Vec<u32>) -> Chunk
        requires caller { IsOf shared.now self.old }
        requires objects { AreIn objects.items (view self.old).hands }
        requires picked { N.owed ≡ objects.items }
        ensures caller { IsOf shared.now self.new × IsChunkOf shared.now result }
        ensures left { view self.new ≡ cutter objects.items (view self.old) }
        ensures right { hands_of result ≡ chunk_view objects.items (view self.old) }
        ensures objects { result.objects.items ≡ objects.items }
    {
        let seat = shared.table.shared.split_seat::<Cuts<N>>(&mut self.seat);
        Chunk { seat, objects }
    }

    /// Hands objects of its hands over to a chunk, which another session of the same table can absorb.
    pub fn cut(&mut self, shared: &Shared, objects: Vec<u32>) -> Chunk
        requires caller { IsOf shared.now self.old }
        requires objects { AreIn objects.items (view self.old).hands }
        ensures caller { IsOf shared.now self.new × IsChunkOf shared.now result }
        ensures left { view self.new ≡ cutter objects.items (view self.old) }
        ensures right { hands_of result ≡ chunk_view objects.items (view self.old) }
        ensures objects { result.objects.items ≡ objects.items }
    {
        self.cut_as::<Brand>(shared, objects)
    }

    /// Takes the objects of a chunk of the same table into its hands, and answers their list. The history that it has then
    /// seen begins with its own and with the chunk's.
    pub fn absorb(&mut self, shared: &Shared, chunk: Chunk) -> Vec<u32>
        requires caller { IsOf shared.now self.old }
        requires chunk { IsChunkOf shared.now chunk }
        ensures caller { IsOf shared.now self.new }
        ensures absorbed { Absorbed (view self.old) (hands_of chunk) (view self.new) }
        ensures objects { result.items ≡ chunk.objects.items }
    {
        let Chunk { seat, objects } = chunk;
        shared
            .table
            .shared
            .join_seat::<Absorbs>(&mut self.seat, seat);
        shared.table.shared.load::<Meets>(&mut self.seat, 0);
        objects
    }
}
