// The finish of a cycle: when it may come, where each cell goes, and what it leaves.
ghost use Rattle.std.specs.Prelude.{◌≡◌, ℕ, ◌<◌, ◌==◌, ◌||◌, ◌↔◌, Some, true, is_some, IsTrue, IfOk, OnOk};
ghost use Rattle.plain_table.specs.declared.events.Space.TheVariants.{Trusted};
ghost use Rattle.plain_table.specs.declared.events.Field.{Field};
ghost use Rattle.plain_table.specs.declared.events.Field.TheVariants as field;
ghost use Rattle.plain_program.specs.Entries.{at, has, word_at};
ghost use Rattle.plain_table.specs.Table.{limit_of};
ghost use Rattle.plain_table.specs.Finish.{CanFinish, evacuee, is_entry_for, place, rewritten, source, swept, target, ticket_kept};
ghost use Rattle.plain_program.specs.KeptFields.{IsFieldKept, IsOwnKept};
ghost use Rattle.plain_table.specs.Rows.{InCycle, finished_in};
ghost use Rattle.plain_program.specs.Kept.{shown, shown_cycle};
ghost use Rattle.plain_program.specs.KeptSwept.{IsSwept, swept_kept};

use crate::cycle::CycleState;
use crate::maps::{add, copy, put, set_or_clear};
use crate::numbers::{index_of, object_of, space_of, word_of};
use crate::reaches::reached;
use crate::state::State;
use crate::{Cell, Field, OutOfMemory, Space};
use std::alloc::Global;
use std::collections::{BTreeMap, BTreeSet};
use std::marker::Model;

/// What a sweep makes: the cells and used indexes of both spaces, the external words and the tickets after it.
#[derive(Drop)]
struct Swept {
    external_cells: BTreeMap<u32, Cell>,
    trusted_cells: BTreeMap<u32, Cell>,
    external_used: BTreeSet<u32>,
    trusted_used: BTreeSet<u32>,
    external_words: BTreeMap<u32, u32>,
    tickets: BTreeMap<u32, u32>,
}

impl Model for Swept {
    ghost use Rattle.plain_program.specs.KeptSwept.{KeptSwept};

    ghost Value = { KeptSwept };

    ghost view = { λ s. record {
      external_cells = s.external_cells.entries;
      trusted_cells = s.trusted_cells.entries;
      external_used = s.external_used.keys;
      trusted_used = s.trusted_used.keys;
      external_words = s.external_words.entries;
      tickets = s.tickets.entries;
    } };
}

impl State {
    /// A cycle is under way, and may finish.
    pub(crate) fn may_finish(&self, alloc: Global) -> Result<bool, OutOfMemory>
        ensures { IfOk result (λ done. IsTrue done ↔ InCycle (shown self.now) (CanFinish (shown self.now))) }
    {
        match &self.cycle {
            Some(cycle) => {
                let reached = reached(alloc, &self.references, &self.globals, &self.variables)?;
                Ok(are_scanned(cycle, &reached) && self.are_kept(cycle, &reached))
            }
            None => Ok(false),
        }
    }

    /// Each bound field of a reached object has its own cell at its word's index, and that cell is kept.
    fn are_kept(&self, cycle: &CycleState, reached: &BTreeSet<u32>) -> bool
        ensures { IsTrue result ↔ ((f : Field) → IsFieldKept (shown self.now) (shown_cycle cycle.now) reached.now.keys f) }
    {
        self.are_external_kept(cycle, reached) && self.are_trusted_kept(cycle, reached)
    }

    fn are_external_kept(&self, cycle: &CycleState, reached: &BTreeSet<u32>) -> bool
        ensures { IsTrue result
            ↔ ((n : ℕ) → IsFieldKept (shown self.now) (shown_cycle cycle.now) reached.now.keys (field.External n)) }
    {
        for (number, id) in &self.external_bound {
            let field = Field::External { number: *number };
            if reached.contains(&object_of(field)) && !self.is_own_kept(cycle, field, *id) {
                return false;
            }
        }
        true
    }

    fn are_trusted_kept(&self, cycle: &CycleState, reached: &BTreeSet<u32>) -> bool
        ensures { IsTrue result
            ↔ ((n : ℕ) → IsFieldKept (shown self.now) (shown_cycle cycle.now) reached.now.keys (field.Trusted n)) }
    {
        for (number, id) in &self.trusted_bound {
            let field = Field::Trusted { number: *number };
            if reached.contains(number) && !self.is_own_kept(cycle, field, *id) {
                return false;
            }
        }
        true
    }

    /// The field's own cell stands at its word's index, and is kept.
    fn is_own_kept(&self, cycle: &CycleState, field: Field, id: u64) -> bool
        ensures { IsTrue result ↔ IsOwnKept (shown self.now) (shown_cycle cycle.now) field id }
    {
        let index = index_of(self.word(field));
        let space = space_of(field);
        self.id_at(space, index) == Some(id) && self.place(cycle, space, index).is_some()
    }

    /// Where the cell at the index goes.
    fn place(&self, cycle: &CycleState, space: Space, index: u32) -> Option<u32>
        ensures { result ≡ place (shown_cycle cycle.now) (shown self.now).words space index }
    {
        match space {
            Space::External if cycle.moves(index) => self.target(cycle, index),
            _ if cycle.is_marked(space, index) => Some(index),
            _ => None,
        }
    }

    /// Where the cell at an index of the area moves.
    fn target(&self, cycle: &CycleState, index: u32) -> Option<u32>
        ensures { result ≡ target (shown_cycle cycle.now) (shown self.now).words index }
    {
        if !cycle.moves(index) || !cycle.is_marked(Space::External, index) {
            return None;
        }
        let mut found = None;
        for entry in 0..cycle.start().unwrap_or(0) {
            if self.is_entry_for(cycle, index, entry) {
                found = Some(entry);
            }
        }
        found
    }

    /// The evacuation entry is that of a field whose word names the index.
    fn is_entry_for(&self, cycle: &CycleState, index: u32, entry: u32) -> bool
        ensures { result ≡ is_entry_for (shown_cycle cycle.now).evac (shown self.now).words index entry }
    {
        match cycle.entry(entry) {
            Some(number) => index_of(self.word(Field::External { number })) == index,
            None => false,
        }
    }

    /// The index whose cell comes to stand at this one.
    fn source(&self, cycle: &CycleState, space: Space, index: u32) -> Option<u32>
        ensures { result ≡ source (shown_cycle cycle.now) (shown self.now).words space index }
    {
        if self.place(cycle, space, index) == Some(index) {
            return Some(index);
        }
        match space {
            Space::External => self.evacuee(cycle, index),
            Space::Trusted => None,
        }
    }

    /// The index whose cell moves to the evacuation entry, where it is the target of one.
    fn evacuee(&self, cycle: &CycleState, entry: u32) -> Option<u32>
        ensures { result ≡ evacuee (shown_cycle cycle.now) (shown self.now).words entry }
    {
        let number = cycle.entry(entry)?;
        let index = index_of(self.word(Field::External { number }));
        if self.target(cycle, index) == Some(entry) {
            Some(index)
        } else {
            None
        }
    }

    /// The cell that comes to stand at an index below the limit.
    fn swept_cell(&self, cycle: &CycleState, space: Space, index: u32) -> Option<Cell>
        requires { index < limit_of (shown self.now) space }
        ensures { result ≡ swept (shown self.now) (shown_cycle cycle.now) space index }
    {
        let source = self.source(cycle, space, index)?;
        self.cell(space, source)
    }

    /// The cells of a space after the sweep.
    fn swept_cells(
        &self,
        alloc: Global,
        cycle: &CycleState,
        space: Space,
    ) -> Result<BTreeMap<u32, Cell>, OutOfMemory>
        ensures { IfOk result (λ cells. (i : ℕ) → at cells.entries i ≡ swept (shown self.now) (shown_cycle cycle.now) space i) }
    {
        let mut cells = BTreeMap::new(alloc);
        for index in 0..self.limit(space) {
            set_or_clear(&mut cells, index, self.swept_cell(cycle, space, index))?;
        }
        Ok(cells)
    }

    /// The used indexes of a space after the sweep: 0 and those of the cells.
    fn swept_used(
        &self,
        alloc: Global,
        cycle: &CycleState,
        space: Space,
    ) -> Result<BTreeSet<u32>, OutOfMemory>
        ensures { IfOk result (λ used. (i : ℕ) → has used.keys i
            ≡ (i == 0 || is_some (swept (shown self.now) (shown_cycle cycle.now) space i))) }
    {
        let mut used = BTreeSet::new(alloc);
        add(&mut used, 0)?;
        for index in 0..self.limit(space) {
            if self.swept_cell(cycle, space, index).is_some() {
                add(&mut used, index)?;
            }
        }
        Ok(used)
    }

    /// The words of external fields after the sweep.
    fn swept_words(
        &self,
        alloc: Global,
        cycle: &CycleState,
    ) -> Result<BTreeMap<u32, u32>, OutOfMemory>
        ensures { IfOk result (λ words. (n : ℕ) → word_at words.entries n
            ≡ rewritten (shown_cycle cycle.now) (shown self.now).words (field.External n)) }
    {
        let mut words = copy(alloc, &self.external_words)?;
        for number in &cycle.visited {
            put(&mut words, *number, self.swept_word(cycle, *number))?;
        }
        Ok(words)
    }

    /// The word of an external field after the sweep.
    fn swept_word(&self, cycle: &CycleState, number: u32) -> u32
        ensures { result ≡ rewritten (shown_cycle cycle.now) (shown self.now).words (field.External number) }
    {
        let word = self.word(Field::External { number });
        if !cycle.visited.contains(&number) {
            return word;
        }
        match self.target(cycle, index_of(word)) {
            Some(target) => word_of(target),
            None => word,
        }
    }

    /// The tickets after the sweep.
    fn swept_tickets(
        &self,
        alloc: Global,
        cycle: &CycleState,
    ) -> Result<BTreeMap<u32, u32>, OutOfMemory>
        ensures { IfOk result (λ tickets. (b : ℕ) → at tickets.entries b
            ≡ ticket_kept (shown self.now) (shown_cycle cycle.now) ((shown self.now).ticket b)) }
    {
        let mut tickets = BTreeMap::new(alloc);
        for (by, index) in &self.tickets {
            set_or_clear(&mut tickets, *by, self.swept_ticket(cycle, *index))?;
        }
        Ok(tickets)
    }

    /// The ticket, if its cell is kept.
    fn swept_ticket(&self, cycle: &CycleState, index: u32) -> Option<u32>
        ensures { result ≡ ticket_kept (shown self.now) (shown_cycle cycle.now) (Some index) }
    {
        if self.is_ticket_kept(cycle, index) {
            Some(index)
        } else {
            None
        }
    }

    /// The cell of a ticket is kept.
    fn is_ticket_kept(&self, cycle: &CycleState, index: u32) -> bool
        ensures { result ≡ is_some (swept (shown self.now) (shown_cycle cycle.now) Trusted index) }
    {
        index < self.limit(Space::Trusted)
            && self.swept_cell(cycle, Space::Trusted, index).is_some()
    }

    /// The cycle finishes, where one is under way.
    pub(crate) fn finish(&mut self, alloc: Global) -> Result<(), OutOfMemory>
        ensures table { OnOk result (shown self.new ≡ finished_in (shown self.old) (shown self.old).cycle) }
        ensures spent { OnOk result (self.new.spent ≡ self.old.spent) }
    {
        let Some(cycle) = &self.cycle else {
            return Ok(());
        };
        let swept = self.sweep(alloc, cycle)?;
        self.put_swept(alloc, swept);
        Ok(())
    }

    /// All that the sweep makes.
    fn sweep(&self, alloc: Global, cycle: &CycleState) -> Result<Swept, OutOfMemory>
        ensures { IfOk result (λ made. IsSwept (shown self.now) (shown_cycle cycle.now) made) }
    {
        Ok(Swept {
            external_cells: self.swept_cells(alloc, cycle, Space::External)?,
            trusted_cells: self.swept_cells(alloc, cycle, Space::Trusted)?,
            external_used: self.swept_used(alloc, cycle, Space::External)?,
            trusted_used: self.swept_used(alloc, cycle, Space::Trusted)?,
            external_words: self.swept_words(alloc, cycle)?,
            tickets: self.swept_tickets(alloc, cycle)?,
        })
    }

    /// What the sweep made takes its place, no claim is left, and no cycle is under way.
    fn put_swept(&mut self, alloc: Global, swept: Swept)
        ensures { self.new ≡ swept_kept self.old swept }
    {
        self.external_cells = swept.external_cells;
        self.trusted_cells = swept.trusted_cells;
        self.external_used = swept.external_used;
        self.trusted_used = swept.trusted_used;
        self.external_owed = BTreeSet::new(alloc);
        self.trusted_owed = BTreeSet::new(alloc);
        self.external_fresh = BTreeSet::new(alloc);
        self.trusted_fresh = BTreeSet::new(alloc);
        self.external_words = swept.external_words;
        self.tickets = swept.tickets;
        self.cycle = None;
    }
}

/// Each reached object was scanned in the cycle or is born in it.
fn are_scanned(cycle: &CycleState, reached: &BTreeSet<u32>) -> bool
    ensures { IsTrue result ↔ ((o : ℕ) → IsTrue (has reached.now.keys o)
        → IsTrue ((shown_cycle cycle.now).scans o || (shown_cycle cycle.now).born o)) }
{
    for object in reached {
        if !cycle.is_scanned(*object) && !cycle.is_born(*object) {
            return false;
        }
    }
    true
}
