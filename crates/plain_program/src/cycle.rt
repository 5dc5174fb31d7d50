// What a state keeps of a collection cycle: `shown_cycle` of `specs/Kept.antt` says which cycle it is.
ghost use Rattle.std.specs.Prelude.{◌≡◌, ℕ, ◌≤◌, ◌↔◌, Some, true, IsTrue, IfSome, OnOk};
ghost use Rattle.plain_program.specs.Kept.{shown_cycle, begun};
ghost use Rattle.plain_table.specs.Cycle.{IsOld};
ghost use Rattle.plain_table.specs.Places.{put_at, put_entry, put_field};

use crate::maps::{Pair, add, add_pair, put, word_at};
use crate::{Field, OutOfMemory, Space};
use std::alloc::Global;
use std::collections::{BTreeMap, BTreeSet};
use std::marker::Model;

/// The references, globals, variables and words at the start of a cycle, with the objects that were reachable then.
#[derive(Drop)]
pub struct Origin {
    pub references: BTreeMap<Pair, u32>,
    pub globals: BTreeMap<u32, u32>,
    pub variables: BTreeMap<Pair, u32>,
    pub external_words: BTreeMap<u32, u32>,
    pub trusted_words: BTreeMap<u32, u32>,
    pub old: BTreeSet<u32>,
}

impl Model for Origin {
    ghost use Rattle.std.specs.Prelude.{ℕ, ◌↔◌, true, IsTrue};
    ghost use Rattle.plain_program.specs.Kept.{KeptOrigin};
    ghost use Rattle.plain_program.specs.Entries.{at, at_pair, has};
    ghost use Rattle.plain_table.specs.Reachable.{Reaches};

    ghost Value = { KeptOrigin };

    ghost view = { λ s. record {
      references = s.references.entries;
      globals = s.globals.entries;
      variables = s.variables.entries;
      external_words = s.external_words.entries;
      trusted_words = s.trusted_words.entries;
    } };

    ghost invariant = { λ s. (o : ℕ) → IsTrue (has s.old.keys o)
        ↔ Reaches (at_pair s.references.entries) (at s.globals.entries) (at_pair s.variables.entries) o };
}

impl Origin {
    ghost use Rattle.plain_table.specs.Reachable.{Reaches};
    ghost use Rattle.plain_program.specs.Entries.{at, at_pair};

    /// The object was reachable at the start.
    pub fn is_old(&self, object: u32) -> bool
        ensures { IsTrue result
            ↔ Reaches (at_pair self.now.references) (at self.now.globals) (at_pair self.now.variables) object }
    {
        self.old.contains(&object)
    }
}

/// A cycle under way.
#[derive(Drop)]
pub struct CycleState {
    pub start: Option<u32>,
    pub aborted: bool,
    pub external_marks: BTreeSet<u32>,
    pub trusted_marks: BTreeSet<u32>,
    pub entries: BTreeMap<u32, u32>,
    pub visited: BTreeSet<u32>,
    pub born: BTreeSet<u32>,
    pub scans: BTreeSet<u32>,
    pub external_came: BTreeSet<Pair>,
    pub trusted_came: BTreeSet<Pair>,
    pub origin: Origin,
}

impl Model for CycleState {
    ghost use Rattle.std.specs.Prelude.{◌≤◌, IfSome};
    ghost use Rattle.plain_program.specs.Kept.{KeptCycle};

    ghost Value = { KeptCycle };

    ghost view = { λ s. record {
      start = s.start;
      aborted = s.aborted;
      external_marks = s.external_marks.keys;
      trusted_marks = s.trusted_marks.keys;
      entries = s.entries.entries;
      visited = s.visited.keys;
      born = s.born.keys;
      scans = s.scans.keys;
      external_came = s.external_came.keys;
      trusted_came = s.trusted_came.keys;
      origin = s.origin;
    } };

    ghost invariant = { λ s. IfSome s.start (λ first. first ≤ 65536) };
}

impl CycleState {
    /// The cycle as it starts.
    pub fn new(alloc: Global, start: Option<u32>, origin: Origin) -> CycleState
        requires { IfSome start (λ first. first ≤ 65536) }
        ensures { shown_cycle result ≡ begun start origin }
    {
        CycleState {
            start,
            aborted: false,
            external_marks: BTreeSet::new(alloc),
            trusted_marks: BTreeSet::new(alloc),
            entries: BTreeMap::new(alloc),
            visited: BTreeSet::new(alloc),
            born: BTreeSet::new(alloc),
            scans: BTreeSet::new(alloc),
            external_came: BTreeSet::new(alloc),
            trusted_came: BTreeSet::new(alloc),
            origin,
        }
    }

    /// The first index of the evacuation area, where there is one.
    pub fn start(&self) -> Option<u32>
        ensures { result ≡ (shown_cycle self.now).start }
    {
        self.start
    }

    /// The compaction is aborted.
    pub fn is_aborted(&self) -> bool
        ensures { result ≡ (shown_cycle self.now).aborted }
    {
        self.aborted
    }

    pub fn is_marked(&self, space: Space, index: u32) -> bool
        ensures { result ≡ (shown_cycle self.now).marks space index }
    {
        match space {
            Space::External => self.external_marks.contains(&index),
            Space::Trusted => self.trusted_marks.contains(&index),
        }
    }

    /// The field of the evacuation entry at an index.
    pub fn entry(&self, index: u32) -> Option<u32>
        ensures { result ≡ (shown_cycle self.now).evac index }
    {
        self.entries.get(&index).copied()
    }

    /// The external field has an evacuation entry.
    pub fn is_visited(&self, number: u32) -> bool
        ensures { result ≡ (shown_cycle self.now).visited number }
    {
        self.visited.contains(&number)
    }

    pub fn is_born(&self, object: u32) -> bool
        ensures { result ≡ (shown_cycle self.now).born object }
    {
        self.born.contains(&object)
    }

    pub fn is_scanned(&self, object: u32) -> bool
        ensures { result ≡ (shown_cycle self.now).scans object }
    {
        self.scans.contains(&object)
    }

    /// The object was reachable at the start.
    pub fn is_old(&self, object: u32) -> bool
        ensures { IsTrue result ↔ IsOld (shown_cycle self.now) object }
    {
        self.origin.is_old(object)
    }

    pub fn mark(&mut self, space: Space, index: u32) -> Result<(), OutOfMemory>
        ensures { let c = shown_cycle self.old in
            OnOk result (shown_cycle self.new ≡ record c { marks = put_entry c.marks space index true }) }
    {
        match space {
            Space::External => add(&mut self.external_marks, index),
            Space::Trusted => add(&mut self.trusted_marks, index),
        }
    }

    pub fn add_born(&mut self, object: u32) -> Result<(), OutOfMemory>
        ensures { let c = shown_cycle self.old in
            OnOk result (shown_cycle self.new ≡ record c { born = put_at c.born object true }) }
    {
        add(&mut self.born, object)
    }

    pub fn add_scan(&mut self, object: u32) -> Result<(), OutOfMemory>
        ensures { let c = shown_cycle self.old in
            OnOk result (shown_cycle self.new ≡ record c { scans = put_at c.scans object true }) }
    {
        add(&mut self.scans, object)
    }

    /// A word came into a field.
    pub fn touch(&mut self, field: Field, word: u32) -> Result<(), OutOfMemory>
        ensures { let c = shown_cycle self.old in
            OnOk result (shown_cycle self.new ≡ record c { came = put_field c.came field (put_at (c.came field) word true) }) }
    {
        match field {
            Field::External { number } => add_pair(&mut self.external_came, (number, word)),
            Field::Trusted { number } => add_pair(&mut self.trusted_came, (number, word)),
        }
    }

    /// An evacuation entry of the external field stands at the index.
    pub fn add_entry(&mut self, index: u32, number: u32) -> Result<(), OutOfMemory>
        ensures { let c = shown_cycle self.old in
            OnOk result (shown_cycle self.new
            ≡ record c { evac = put_at c.evac index (Some number); visited = put_at c.visited number true }) }
    {
        put(&mut self.entries, index, number)?;
        add(&mut self.visited, number)
    }

    pub fn abort(&mut self)
        ensures { let c = shown_cycle self.old in
            shown_cycle self.new ≡ record c { aborted = true } }
    {
        self.aborted = true;
    }
}
