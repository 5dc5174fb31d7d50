// The plain program's state: the plain table in maps and sets, which `step` alone changes.
ghost use Rattle.std.specs.Prelude.{◌≡◌, ℕ, ◌+◌, ◌^◌, ◌<◌, ◌↔◌, Some, None, true, false, IsTrue, IsFalse, OnOk, IfOk};

use crate::cycle::CycleState;
use crate::maps::{
    Pair, add, add_pair, has_second, put, remove_pair, set_or_clear, set_or_clear_pair, take_out,
    word_at,
};
use crate::{Cell, Field, Limits, OutOfMemory, Space, Spot};
use std::alloc::Global;
use std::collections::{BTreeMap, BTreeSet};
use std::marker::Model;

/// The variables of a mutator.
const VARIABLES: u32 = 16;

/// A plain table, and whether it is spent. `shown` of `specs/Kept.antt` says which table it is. Claims are pairs of a
/// number and an index.
#[derive(Drop)]
pub struct State {
    pub(crate) limits: Limits,
    pub(crate) external_cells: BTreeMap<u32, Cell>,
    pub(crate) trusted_cells: BTreeMap<u32, Cell>,
    pub(crate) external_used: BTreeSet<u32>,
    pub(crate) trusted_used: BTreeSet<u32>,
    pub(crate) external_owed: BTreeSet<Pair>,
    pub(crate) trusted_owed: BTreeSet<Pair>,
    pub(crate) external_fresh: BTreeSet<Pair>,
    pub(crate) trusted_fresh: BTreeSet<Pair>,
    pub(crate) external_words: BTreeMap<u32, u32>,
    pub(crate) trusted_words: BTreeMap<u32, u32>,
    pub(crate) external_bound: BTreeMap<u32, u64>,
    pub(crate) trusted_bound: BTreeMap<u32, u64>,
    pub(crate) tickets: BTreeMap<u32, u32>,
    pub(crate) references: BTreeMap<Pair, u32>,
    pub(crate) globals: BTreeMap<u32, u32>,
    pub(crate) variables: BTreeMap<Pair, u32>,
    pub(crate) cycle: Option<CycleState>,
    count: u32,
    next: u64,
    spent: bool,
}

impl Model for State {
    ghost use Rattle.std.specs.Prelude.{◌≤◌, ◌*◌};
    ghost use Rattle.plain_program.specs.Kept.{Kept};

    ghost Value = { Kept };

    ghost view = { λ s. record {
      limits = s.limits;
      external_cells = s.external_cells.entries;
      trusted_cells = s.trusted_cells.entries;
      external_used = s.external_used.keys;
      trusted_used = s.trusted_used.keys;
      external_owed = s.external_owed.keys;
      trusted_owed = s.trusted_owed.keys;
      external_fresh = s.external_fresh.keys;
      trusted_fresh = s.trusted_fresh.keys;
      external_words = s.external_words.entries;
      trusted_words = s.trusted_words.entries;
      external_bound = s.external_bound.entries;
      trusted_bound = s.trusted_bound.entries;
      tickets = s.tickets.entries;
      references = s.references.entries;
      globals = s.globals.entries;
      variables = s.variables.entries;
      cycle = s.cycle;
      count = s.count;
      next = s.next;
      spent = s.spent;
    } };

    ghost invariant = { λ s. (1 ≤ s.limits.seg) × (s.limits.seg * s.limits.ext ≤ 65536) × (s.limits.seg * s.limits.tru ≤ 65536) };
}

impl State {
    ghost use Rattle.plain_program.specs.Kept.{shown};
    ghost use Rattle.plain_table.specs.Ranges.{IsInRange};
    ghost use Rattle.plain_table.specs.Places.{put_at, put_pair, put_entry, put_field, put_claim};
    ghost use Rattle.plain_table.specs.Rows.{Holds, at_spot, tickets_after, with_linked};
    ghost use Rattle.plain_table.specs.Cycle.{start_in, marked_in, born_in, scanned_in, touched_in, evacuated_in, aborted_in};
    ghost use Rattle.plain_table.specs.Table.{opening, limit_of, least_free};
    ghost use Rattle.plain_table.specs.declared.events.Space.TheVariants.{Trusted};

    /// The state of the table before anything happened (`opening` of `specs/Table.antt`), which is not spent. The
    /// limits stand in their ranges, by `specs/Ranges.antt`. It refuses only where an allocation fails.
    pub fn start(alloc: Global, limits: Limits) -> Result<State, OutOfMemory>
        requires { IsInRange limits }
        ensures opening { IfOk result (λ state. shown state ≡ opening limits) }
        ensures unspent { IfOk result (λ state. state.spent ≡ false) }
    {
        let mut external_used = BTreeSet::new(alloc);
        let mut trusted_used = BTreeSet::new(alloc);
        add(&mut external_used, 0)?;
        add(&mut trusted_used, 0)?;
        Ok(State {
            limits,
            external_cells: BTreeMap::new(alloc),
            trusted_cells: BTreeMap::new(alloc),
            external_used,
            trusted_used,
            external_owed: BTreeSet::new(alloc),
            trusted_owed: BTreeSet::new(alloc),
            external_fresh: BTreeSet::new(alloc),
            trusted_fresh: BTreeSet::new(alloc),
            external_words: BTreeMap::new(alloc),
            trusted_words: BTreeMap::new(alloc),
            external_bound: BTreeMap::new(alloc),
            trusted_bound: BTreeMap::new(alloc),
            tickets: BTreeMap::new(alloc),
            references: BTreeMap::new(alloc),
            globals: BTreeMap::new(alloc),
            variables: BTreeMap::new(alloc),
            cycle: None,
            count: 0,
            next: 0,
            spent: false,
        })
    }

    /// Whether the state is spent: every later step answers false.
    pub fn spent(&self) -> bool
        ensures { result ≡ self.now.spent }
    {
        self.spent
    }

    pub(crate) fn objects(&self) -> u32
        ensures { result ≡ (shown self.now).sizes.objects }
    {
        self.limits.objects
    }

    pub(crate) fn count(&self) -> u32
        ensures { result ≡ self.now.count }
    {
        self.count
    }

    pub(crate) fn next(&self) -> u64
        ensures { result ≡ self.now.next }
    {
        self.next
    }

    /// The indexes of a space are those below its limit.
    pub(crate) fn limit(&self, space: Space) -> u32
        ensures { result ≡ limit_of (shown self.now) space }
    {
        match space {
            Space::External => self.limits.seg * self.limits.ext,
            Space::Trusted => self.limits.seg * self.limits.tru,
        }
    }

    pub(crate) fn cell(&self, space: Space, index: u32) -> Option<Cell>
        ensures { result ≡ (shown self.now).cells space index }
    {
        match space {
            Space::External => self.external_cells.get(&index).copied(),
            Space::Trusted => self.trusted_cells.get(&index).copied(),
        }
    }

    pub(crate) fn is_used(&self, space: Space, index: u32) -> bool
        ensures { result ≡ (shown self.now).used space index }
    {
        match space {
            Space::External => self.external_used.contains(&index),
            Space::Trusted => self.trusted_used.contains(&index),
        }
    }

    /// The least index from 1 on below the limit that is not used.
    pub(crate) fn least_free(&self, space: Space) -> Option<u32>
        ensures { result ≡ least_free (shown self.now) space }
    {
        for index in 1..self.limit(space) {
            if !self.is_used(space, index) {
                return Some(index);
            }
        }
        None
    }

    pub(crate) fn is_owed(&self, by: u32, space: Space, index: u32) -> bool
        ensures { result ≡ (shown self.now).owed by space index }
    {
        match space {
            Space::External => self.external_owed.contains(&(by, index)),
            Space::Trusted => self.trusted_owed.contains(&(by, index)),
        }
    }

    pub(crate) fn is_fresh(&self, by: u32, space: Space, index: u32) -> bool
        ensures { result ≡ (shown self.now).fresh by space index }
    {
        match space {
            Space::External => self.external_fresh.contains(&(by, index)),
            Space::Trusted => self.trusted_fresh.contains(&(by, index)),
        }
    }

    /// No number is about to bind the trusted index.
    pub(crate) fn is_settled(&self, index: u32) -> bool
        ensures { IsTrue result ↔ ((by : ℕ) → (shown self.now).fresh by Trusted index ≡ false) }
    {
        !has_second(&self.trusted_fresh, index)
    }

    pub(crate) fn word(&self, field: Field) -> u32
        ensures { result ≡ (shown self.now).words field }
    {
        match field {
            Field::External { number } => word_at(&self.external_words, number),
            Field::Trusted { number } => word_at(&self.trusted_words, number),
        }
    }

    pub(crate) fn variable(&self, by: u32, var: u32) -> Option<u32>
        ensures { result ≡ (shown self.now).vars by var }
    {
        self.variables.get(&(by, var)).copied()
    }

    /// One of the 16 variables of the number holds the object.
    pub(crate) fn holds(&self, by: u32, object: u32) -> bool
        ensures { IsTrue result ↔ Holds (shown self.now) by object }
    {
        for var in 0..VARIABLES {
            if self.variable(by, var) == Some(object) {
                return true;
            }
        }
        false
    }

    /// The id of the cell that the field names as its own, where it names one.
    pub(crate) fn bound(&self, field: Field) -> Option<u64>
        ensures { result ≡ (shown self.now).bound field }
    {
        match field {
            Field::External { number } => self.external_bound.get(&number).copied(),
            Field::Trusted { number } => self.trusted_bound.get(&number).copied(),
        }
    }

    pub(crate) fn ticket(&self, by: u32) -> Option<u32>
        ensures { result ≡ (shown self.now).ticket by }
    {
        self.tickets.get(&by).copied()
    }

    /// The object at a place, where it holds one.
    pub(crate) fn at_spot(&self, spot: Spot) -> Option<u32>
        ensures { result ≡ at_spot (shown self.now) spot }
    {
        match spot {
            Spot::Global { g } => self.globals.get(&g).copied(),
            Spot::Ref { object, k } => self.references.get(&(object, k)).copied(),
        }
    }

    /// A cycle is under way.
    pub(crate) fn in_cycle(&self) -> bool
        ensures { IsFalse result ↔ ((shown self.now).cycle ≡ None) }
    {
        self.cycle.is_some()
    }

    /// The first index of the evacuation area, where a cycle has one.
    pub(crate) fn area(&self) -> Option<u32>
        ensures { result ≡ start_in (shown self.now).cycle }
    {
        match &self.cycle {
            Some(cycle) => cycle.start(),
            None => None,
        }
    }

    pub(crate) fn set_cell(
        &mut self,
        space: Space,
        index: u32,
        cell: Cell,
    ) -> Result<(), OutOfMemory>
        ensures table { let s = shown self.old in
            OnOk result (shown self.new ≡ record s { cells = put_entry s.cells space index (Some cell) }) }
        ensures spent { OnOk result (self.new.spent ≡ self.old.spent) }
    {
        match space {
            Space::External => put(&mut self.external_cells, index, cell),
            Space::Trusted => put(&mut self.trusted_cells, index, cell),
        }
    }

    pub(crate) fn add_used(&mut self, space: Space, index: u32) -> Result<(), OutOfMemory>
        ensures table { let s = shown self.old in
            OnOk result (shown self.new ≡ record s { used = put_entry s.used space index true }) }
        ensures spent { OnOk result (self.new.spent ≡ self.old.spent) }
    {
        match space {
            Space::External => add(&mut self.external_used, index),
            Space::Trusted => add(&mut self.trusted_used, index),
        }
    }

    pub(crate) fn add_owed(&mut self, by: u32, space: Space, index: u32) -> Result<(), OutOfMemory>
        ensures table { let s = shown self.old in
            OnOk result (shown self.new ≡ record s { owed = put_claim s.owed by space index true }) }
        ensures spent { OnOk result (self.new.spent ≡ self.old.spent) }
    {
        match space {
            Space::External => add_pair(&mut self.external_owed, (by, index)),
            Space::Trusted => add_pair(&mut self.trusted_owed, (by, index)),
        }
    }

    pub(crate) fn remove_owed(&mut self, by: u32, space: Space, index: u32)
        ensures table { let s = shown self.old in
            shown self.new ≡ record s { owed = put_claim s.owed by space index false } }
        ensures spent { self.new.spent ≡ self.old.spent }
    {
        match space {
            Space::External => remove_pair(&mut self.external_owed, (by, index)),
            Space::Trusted => remove_pair(&mut self.trusted_owed, (by, index)),
        }
    }

    pub(crate) fn add_fresh(&mut self, by: u32, space: Space, index: u32) -> Result<(), OutOfMemory>
        ensures table { let s = shown self.old in
            OnOk result (shown self.new ≡ record s { fresh = put_claim s.fresh by space index true }) }
        ensures spent { OnOk result (self.new.spent ≡ self.old.spent) }
    {
        match space {
            Space::External => add_pair(&mut self.external_fresh, (by, index)),
            Space::Trusted => add_pair(&mut self.trusted_fresh, (by, index)),
        }
    }

    pub(crate) fn remove_fresh(&mut self, by: u32, space: Space, index: u32)
        ensures table { let s = shown self.old in
            shown self.new ≡ record s { fresh = put_claim s.fresh by space index false } }
        ensures spent { self.new.spent ≡ self.old.spent }
    {
        match space {
            Space::External => remove_pair(&mut self.external_fresh, (by, index)),
            Space::Trusted => remove_pair(&mut self.trusted_fresh, (by, index)),
        }
    }

    pub(crate) fn set_word(&mut self, field: Field, word: u32) -> Result<(), OutOfMemory>
        ensures table { let s = shown self.old in
            OnOk result (shown self.new ≡ record s { words = put_field s.words field word }) }
        ensures spent { OnOk result (self.new.spent ≡ self.old.spent) }
    {
        match field {
            Field::External { number } => put(&mut self.external_words, number, word),
            Field::Trusted { number } => put(&mut self.trusted_words, number, word),
        }
    }

    /// The id of the cell that the field names as its own, where it names one.
    pub(crate) fn set_bound(&mut self, field: Field, id: Option<u64>) -> Result<(), OutOfMemory>
        ensures table { let s = shown self.old in
            OnOk result (shown self.new ≡ record s { bound = put_field s.bound field id }) }
        ensures spent { OnOk result (self.new.spent ≡ self.old.spent) }
    {
        match field {
            Field::External { number } => set_or_clear(&mut self.external_bound, number, id),
            Field::Trusted { number } => set_or_clear(&mut self.trusted_bound, number, id),
        }
    }

    /// A trusted index that the number filled and is about to bind becomes its ticket.
    pub(crate) fn keep_ticket(
        &mut self,
        by: u32,
        space: Space,
        index: u32,
    ) -> Result<(), OutOfMemory>
        ensures table { let s = shown self.old in
            OnOk result (shown self.new ≡ record s { ticket = tickets_after s by space index }) }
        ensures spent { OnOk result (self.new.spent ≡ self.old.spent) }
    {
        match space {
            Space::External => Ok(()),
            Space::Trusted if self.is_fresh(by, space, index) => put(&mut self.tickets, by, index),
            Space::Trusted => Ok(()),
        }
    }

    /// The mutator has no ticket any more.
    pub(crate) fn drop_ticket(&mut self, by: u32)
        ensures table { let s = shown self.old in
            shown self.new ≡ record s { ticket = put_at s.ticket by None } }
        ensures spent { self.new.spent ≡ self.old.spent }
    {
        take_out(&mut self.tickets, by);
    }

    pub(crate) fn set_variable(
        &mut self,
        by: u32,
        var: u32,
        object: Option<u32>,
    ) -> Result<(), OutOfMemory>
        ensures table { let s = shown self.old in
            OnOk result (shown self.new ≡ record s { vars = put_pair s.vars by var object }) }
        ensures spent { OnOk result (self.new.spent ≡ self.old.spent) }
    {
        set_or_clear_pair(&mut self.variables, (by, var), object)
    }

    /// The place holds the object, or nothing.
    pub(crate) fn set_spot(&mut self, spot: Spot, object: Option<u32>) -> Result<(), OutOfMemory>
        ensures table { OnOk result (shown self.new ≡ with_linked (shown self.old) spot object) }
        ensures spent { OnOk result (self.new.spent ≡ self.old.spent) }
    {
        match spot {
            Spot::Global { g } => set_or_clear(&mut self.globals, g, object),
            Spot::Ref { object: from, k } => {
                set_or_clear_pair(&mut self.references, (from, k), object)
            }
        }
    }

    /// In a cycle the index is marked.
    pub(crate) fn mark(&mut self, space: Space, index: u32) -> Result<(), OutOfMemory>
        ensures table { let s = shown self.old in
            OnOk result (shown self.new ≡ record s { cycle = marked_in s.cycle space index }) }
        ensures spent { OnOk result (self.new.spent ≡ self.old.spent) }
    {
        if let Some(cycle) = &mut self.cycle {
            return cycle.mark(space, index);
        }
        Ok(())
    }

    /// In a cycle the object is born.
    pub(crate) fn add_born(&mut self, object: u32) -> Result<(), OutOfMemory>
        ensures table { let s = shown self.old in
            OnOk result (shown self.new ≡ record s { cycle = born_in s.cycle object }) }
        ensures spent { OnOk result (self.new.spent ≡ self.old.spent) }
    {
        if let Some(cycle) = &mut self.cycle {
            return cycle.add_born(object);
        }
        Ok(())
    }

    /// In a cycle the object is scanned.
    pub(crate) fn add_scan(&mut self, object: u32) -> Result<(), OutOfMemory>
        ensures table { let s = shown self.old in
            OnOk result (shown self.new ≡ record s { cycle = scanned_in s.cycle object }) }
        ensures spent { OnOk result (self.new.spent ≡ self.old.spent) }
    {
        if let Some(cycle) = &mut self.cycle {
            return cycle.add_scan(object);
        }
        Ok(())
    }

    /// In a cycle the word came into the field.
    pub(crate) fn touch(&mut self, field: Field, word: u32) -> Result<(), OutOfMemory>
        ensures table { let s = shown self.old in
            OnOk result (shown self.new ≡ record s { cycle = touched_in s.cycle field word }) }
        ensures spent { OnOk result (self.new.spent ≡ self.old.spent) }
    {
        if let Some(cycle) = &mut self.cycle {
            return cycle.touch(field, word);
        }
        Ok(())
    }

    /// In a cycle an evacuation entry of the external field stands at the index.
    pub(crate) fn add_entry(&mut self, index: u32, number: u32) -> Result<(), OutOfMemory>
        ensures table { let s = shown self.old in
            OnOk result (shown self.new ≡ record s { cycle = evacuated_in s.cycle index number }) }
        ensures spent { OnOk result (self.new.spent ≡ self.old.spent) }
    {
        if let Some(cycle) = &mut self.cycle {
            return cycle.add_entry(index, number);
        }
        Ok(())
    }

    /// In a cycle the compaction is aborted.
    pub(crate) fn abort(&mut self)
        ensures table { let s = shown self.old in
            shown self.new ≡ record s { cycle = aborted_in s.cycle } }
        ensures spent { self.new.spent ≡ self.old.spent }
    {
        if let Some(cycle) = &mut self.cycle {
            cycle.abort();
        }
    }

    pub(crate) fn add_object(&mut self)
        requires { self.old.count + 1 < 2 ^ 32 }
        ensures table { let s = shown self.old in
            shown self.new ≡ record s { count = s.count + 1 } }
        ensures spent { self.new.spent ≡ self.old.spent }
    {
        self.count += 1;
    }

    pub(crate) fn add_put(&mut self)
        requires { self.old.next + 1 < 2 ^ 64 }
        ensures table { let s = shown self.old in
            shown self.new ≡ record s { next = s.next + 1 } }
        ensures spent { self.new.spent ≡ self.old.spent }
    {
        self.next += 1;
    }

    pub(crate) fn spend(&mut self)
        ensures { self.new ≡ record self.old { spent = true } }
    {
        self.spent = true;
    }
}
