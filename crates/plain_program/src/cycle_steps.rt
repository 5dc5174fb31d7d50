// The steps of a cycle under way: an abort, a mark, an evacuation entry and a scan.
ghost use Rattle.std.specs.Prelude.{◌≡◌, ℕ, ◌/◌, ◌==◌, ◌↔◌, Some, true, IsTrue, IfOk};
ghost use Rattle.std.specs.List.{list_any};
ghost use Rattle.plain_table.specs.declared.events.Space.TheVariants.{External, Trusted};
ghost use Rattle.plain_table.specs.declared.events.Field.TheVariants as field;
ghost use Rattle.plain_table.specs.Index.{index_of};
ghost use Rattle.plain_table.specs.Cycle.{is_from, moves_from};
ghost use Rattle.plain_program.specs.Named.{CameNamed, StoodNamed};
ghost use Rattle.plain_table.specs.Rows.{AreSafe, IsNamed, IsPlaced, IsSafe, row};
ghost use Rattle.plain_table.specs.Shapes.{event};
ghost use Rattle.plain_program.specs.Kept.{shown, shown_cycle};
ghost use Rattle.plain_program.specs.Steps.{Steps};

use crate::cycle::{CycleState, Origin};
use crate::maps::Pair;
use crate::numbers::{index_of, object_of, space_of};
use crate::state::State;
use crate::{Field, OutOfMemory, Reply, Space};
use std::collections::BTreeSet;

impl State {
    ghost use Rattle.plain_table.specs.declared.events.Act.TheVariants as act;

    pub(crate) fn make_abort(&mut self, by: u32, said: Reply) -> bool
        ensures { Steps result self.old self.new (event by act.Abort said) }
    {
        let Some(start) = self.area() else {
            return false;
        };
        if self.free_below(start).is_some() || said != Reply::Ok {
            return false;
        }
        self.abort();
        true
    }

    pub(crate) fn make_mark(
        &mut self,
        by: u32,
        space: Space,
        index: u32,
        said: Reply,
    ) -> Result<bool, OutOfMemory>
        ensures { IfOk result (λ done. Steps done self.old self.new (event by (act.Mark space index) said)) }
    {
        if !self.may_mark(space, index) || said != Reply::Ok {
            return Ok(false);
        }
        self.mark(space, index)?;
        Ok(true)
    }

    pub(crate) fn make_evac(
        &mut self,
        by: u32,
        index: u32,
        number: u32,
        said: Reply,
    ) -> Result<bool, OutOfMemory>
        ensures { IfOk result (λ done. Steps done self.old self.new (event by (act.Evac index number) said)) }
    {
        if !self.may_evacuate(by, index, number) || said != Reply::Ok {
            return Ok(false);
        }
        self.remove_owed(by, Space::External, index);
        self.add_entry(index, number)?;
        Ok(true)
    }

    pub(crate) fn make_scan(
        &mut self,
        by: u32,
        object: u32,
        said: Reply,
    ) -> Result<bool, OutOfMemory>
        ensures { IfOk result (λ done. Steps done self.old self.new (event by (act.Scan object) said)) }
    {
        if !self.may_scan(object) || said != Reply::Ok {
            return Ok(false);
        }
        self.add_scan(object)?;
        Ok(true)
    }

    fn may_mark(&self, space: Space, index: u32) -> bool
        ensures { (b : ℕ) → IsTrue result ↔ (row (shown self.now) b (act.Mark space index)).allowed }
    {
        match &self.cycle {
            Some(cycle) => self.cell(space, index).is_some() && cycle.is_named(space, index),
            None => false,
        }
    }

    fn may_evacuate(&self, by: u32, index: u32, number: u32) -> bool
        ensures { IsTrue result ↔ (row (shown self.now) by (act.Evac index number)).allowed }
    {
        match &self.cycle {
            Some(cycle) => {
                self.is_owed(by, Space::External, index)
                    && cycle.start().is_some_and(|start| index < start)
                    && cycle.is_old(object_of(Field::External { number }))
            }
            None => false,
        }
    }

    fn may_scan(&self, object: u32) -> bool
        ensures { (b : ℕ) → IsTrue result ↔ (row (shown self.now) b (act.Scan object)).allowed }
    {
        match &self.cycle {
            Some(cycle) => {
                cycle.is_old(object) && !cycle.is_scanned(object) && self.are_safe(cycle, object)
            }
            None => false,
        }
    }

    /// Each bound field of the object is safe.
    fn are_safe(&self, cycle: &CycleState, object: u32) -> bool
        ensures { IsTrue result ↔ AreSafe (shown self.now) (shown_cycle cycle.now) object }
    {
        self.are_external_safe(cycle, object)
            && self.is_safe_if_bound(cycle, Field::Trusted { number: object })
    }

    /// Each bound external field of the object is safe.
    fn are_external_safe(&self, cycle: &CycleState, object: u32) -> bool
        ensures { IsTrue result ↔ ((number id : ℕ) → number / 2 ≡ object → (shown self.now).bound (field.External number) ≡ Some id
            → IsSafe (shown self.now) (shown_cycle cycle.now) (field.External number) id) }
    {
        for (number, id) in &self.external_bound {
            let field = Field::External { number: *number };
            if object_of(field) == object && !self.is_safe(cycle, field, *id) {
                return false;
            }
        }
        true
    }

    /// The field is safe, if it is bound.
    fn is_safe_if_bound(&self, cycle: &CycleState, field: Field) -> bool
        ensures { IsTrue result ↔ ((id : ℕ) → (shown self.now).bound field ≡ Some id → IsSafe (shown self.now) (shown_cycle cycle.now) field id) }
    {
        match self.bound(field) {
            Some(id) => self.is_safe(cycle, field, id),
            None => true,
        }
    }

    fn is_safe(&self, cycle: &CycleState, field: Field, id: u64) -> bool
        ensures { IsTrue result ↔ IsSafe (shown self.now) (shown_cycle cycle.now) field id }
    {
        let index = index_of(self.word(field));
        let space = space_of(field);
        self.id_at(space, index) == Some(id)
            && cycle.is_marked(space, index)
            && cycle.is_placed(field, index)
    }
}

impl CycleState {
    /// A word that stood in a field of the space since the start names the index.
    fn is_named(&self, space: Space, index: u32) -> bool
        ensures { IsTrue result ↔ IsNamed (shown_cycle self.now) space index }
    {
        self.origin.names(space, index) || self.came_names(space, index)
    }

    /// A word that came into a field of the space names the index.
    fn came_names(&self, space: Space, index: u32) -> bool
        ensures { IsTrue result ↔ CameNamed (shown_cycle self.now) space index }
    {
        match space {
            Space::External => has_index(&self.external_came, index),
            Space::Trusted => has_index(&self.trusted_came, index),
        }
    }

    /// The cell at the index does not move, or the field that names it has an evacuation entry.
    fn is_placed(&self, field: Field, index: u32) -> bool
        ensures { IsTrue result ↔ IsPlaced (shown_cycle self.now) field index }
    {
        match field {
            Field::External { number } => !self.moves(index) || self.is_visited(number),
            Field::Trusted { .. } => true,
        }
    }

    /// The index lies in the area of a compaction that is not aborted.
    pub fn moves(&self, index: u32) -> bool
        ensures { result ≡ is_from (moves_from (shown_cycle self.now)) index }
    {
        !self.aborted && self.start.is_some_and(|start| start <= index)
    }
}

impl Origin {
    /// A word that stood in a field of the space, of an object that was reachable, names the index.
    fn names(&self, space: Space, index: u32) -> bool
        ensures { IsTrue result ↔ StoodNamed self.now space index }
    {
        match space {
            Space::External => self.external_names(index),
            Space::Trusted => self.trusted_names(index),
        }
    }

    fn external_names(&self, index: u32) -> bool
        ensures { IsTrue result ↔ StoodNamed self.now External index }
    {
        for (number, word) in &self.external_words {
            if *word != 0 && index_of(*word) == index && self.is_old(*number / 2) {
                return true;
            }
        }
        false
    }

    fn trusted_names(&self, index: u32) -> bool
        ensures { IsTrue result ↔ StoodNamed self.now Trusted index }
    {
        for (object, word) in &self.trusted_words {
            if *word != 0 && index_of(*word) == index && self.is_old(*object) {
                return true;
            }
        }
        false
    }
}

/// The word of some pair, which is its second part, names the index.
fn has_index(pairs: &BTreeSet<Pair>, index: u32) -> bool
    ensures { result ≡ list_any (λ pair. index_of pair.1 == index) pairs.now.keys }
{
    pairs.iter().any(|pair| index_of(pair.1) == index)
}
