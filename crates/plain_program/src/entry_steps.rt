// The steps of entries: an index is taken, filled, bound to a field, looked at, stored to, forged and published.
ghost use Rattle.std.specs.Prelude.{◌≡◌, ◌-◌, ◌^◌, ◌↔◌, Some, true, IsTrue, IfSome, IfNone, IfOk, OnOk};
ghost use Rattle.std.specs.Option.{option_map};
ghost use Rattle.plain_table.specs.declared.events.Cell.{Cell};
ghost use Rattle.plain_table.specs.declared.events.Space.TheVariants.{External, Trusted};
ghost use Rattle.plain_table.specs.Index.{index_of};
ghost use Rattle.plain_table.specs.Places.{put_entry};
ghost use Rattle.plain_table.specs.Finish.{id_at};
ghost use Rattle.plain_table.specs.Rows.{IsSharedBind, HasCell, MayFill, free_below, is_asked, look, row, with_taken, with_value};
ghost use Rattle.plain_table.specs.History.{IsLegal};
ghost use Rattle.plain_table.specs.Shapes.{event};
ghost use Rattle.plain_program.specs.Kept.{shown};
ghost use Rattle.plain_program.specs.Steps.{Steps};

use crate::numbers::{VALUE_END, index_of, is_asked, is_external, is_tag, object_of, space_of};
use crate::state::State;
use crate::{Cell, Field, OutOfMemory, Reply, Space};

/// The reply says that a field held this word already.
fn is_taken(said: Reply, found: u32) -> bool
    ensures { IsTrue result ↔ (said ≡ Reply.Taken found) }
{
    match said {
        Reply::Taken(word) => word == found,
        _ => false,
    }
}

impl State {
    ghost use Rattle.plain_table.specs.declared.events.Act.TheVariants as act;

    pub(crate) fn make_take(
        &mut self,
        by: u32,
        space: Space,
        said: Reply,
    ) -> Result<bool, OutOfMemory>
        ensures { IfOk result (λ done. Steps done self.old self.new (event by (act.Take space) said)) }
    {
        match self.least_free(space) {
            None => Ok(said == Reply::Full),
            Some(index) => {
                if said != Reply::Index(index) {
                    return Ok(false);
                }
                self.take_index(by, space, index)?;
                Ok(true)
            }
        }
    }

    pub(crate) fn make_below(
        &mut self,
        by: u32,
        start: u32,
        said: Reply,
    ) -> Result<bool, OutOfMemory>
        ensures { IfOk result (λ done. Steps done self.old self.new (event by (act.Below start) said)) }
    {
        if self.area() != Some(start) {
            return Ok(false);
        }
        match self.free_below(start) {
            None => Ok(said == Reply::NoRoom),
            Some(index) => {
                if said != Reply::Index(index) {
                    return Ok(false);
                }
                self.take_index(by, Space::External, index)?;
                Ok(true)
            }
        }
    }

    /// The number takes the index, and owes it a cell or an evacuation entry.
    fn take_index(&mut self, by: u32, space: Space, index: u32) -> Result<(), OutOfMemory>
        ensures table { OnOk result (shown self.new ≡ with_taken (shown self.old) by space (Some index)) }
        ensures spent { OnOk result (self.new.spent ≡ self.old.spent) }
    {
        self.add_used(space, index)?;
        self.add_owed(by, space, index)
    }

    /// The least free external index, where it is below the start.
    pub(crate) fn free_below(&self, start: u32) -> Option<u32>
        ensures { result ≡ free_below (shown self.now) start }
    {
        match self.least_free(Space::External) {
            Some(index) if index < start => Some(index),
            _ => None,
        }
    }

    pub(crate) fn make_put(
        &mut self,
        by: u32,
        space: Space,
        index: u32,
        tag: u8,
        value: u64,
        said: Reply,
    ) -> Result<bool, OutOfMemory>
        requires { self.old.next ≡ 2 ^ 64 - 1 → ⊥ }
        ensures { IfOk result (λ done. Steps done self.old self.new (event by (act.Put space index tag value) said)) }
    {
        if !self.may_put(by, space, index, tag, value) || said != Reply::Ok {
            return Ok(false);
        }
        let id = self.next();
        let cell = Cell {
            id,
            tag,
            value,
            shown: is_external(space),
        };
        self.set_cell(space, index, cell)?;
        self.add_put();
        self.remove_owed(by, space, index);
        self.add_fresh(by, space, index)?;
        self.mark(space, index)?;
        Ok(true)
    }

    fn may_put(&self, by: u32, space: Space, index: u32, tag: u8, value: u64) -> bool
        ensures { IsTrue result ↔ (row (shown self.now) by (act.Put space index tag value)).allowed }
    {
        self.is_owed(by, space, index)
            && is_tag(tag)
            && value < VALUE_END
            && self.may_fill(space, index)
    }

    /// An index in the evacuation area is filled only after an abort.
    fn may_fill(&self, space: Space, index: u32) -> bool
        ensures { IsTrue result ↔ MayFill (shown self.now) space index }
    {
        match (space, &self.cycle) {
            (Space::External, Some(cycle)) => {
                cycle.is_aborted() || !cycle.start().is_some_and(|start| start <= index)
            }
            _ => true,
        }
    }

    /// A field with a word keeps it, and answers it.
    pub(crate) fn make_bind(
        &mut self,
        by: u32,
        field: Field,
        word: u32,
        said: Reply,
    ) -> Result<bool, OutOfMemory>
        ensures { IfOk result (λ done. Steps done self.old self.new (event by (act.Bind field word) said)) }
    {
        if !self.may_bind(by, field, word) {
            return Ok(false);
        }
        let found = self.word(field);
        if found == 0 {
            return self.make_bound(by, field, word, said);
        }
        if !is_taken(said, found) {
            return Ok(false);
        }
        self.remove_fresh(by, space_of(field), index_of(word));
        Ok(true)
    }

    /// Binds a field that holds 0.
    fn make_bound(
        &mut self,
        by: u32,
        field: Field,
        word: u32,
        said: Reply,
    ) -> Result<bool, OutOfMemory>
        requires allowed { (row (shown self.old) by (act.Bind field word)).allowed }
        requires zero { (shown self.old).words field ≡ 0 }
        ensures { IfOk result (λ done. Steps done self.old self.new (event by (act.Bind field word) said)) }
    {
        if said != Reply::Ok {
            return Ok(false);
        }
        let space = space_of(field);
        let index = index_of(word);
        let id = self.id_at(space, index);
        self.set_word(field, word)?;
        self.set_bound(field, id)?;
        self.keep_ticket(by, space, index)?;
        self.remove_fresh(by, space, index);
        self.touch(field, word)?;
        Ok(true)
    }

    pub(crate) fn make_set(
        &mut self,
        by: u32,
        word: u32,
        first: u8,
        last: u8,
        value: u64,
        said: Reply,
    ) -> Result<bool, OutOfMemory>
        ensures { IfOk result (λ done. Steps done self.old self.new (event by (act.Set word first last value) said)) }
    {
        let Some(cell) = self.cell_under(word, first, last) else {
            return Ok(false);
        };
        if value >= VALUE_END || said != Reply::Ok {
            return Ok(false);
        }
        self.store(index_of(word), cell, value)?;
        Ok(true)
    }

    pub(crate) fn make_swap(
        &mut self,
        by: u32,
        word: u32,
        first: u8,
        last: u8,
        value: u64,
        said: Reply,
    ) -> Result<bool, OutOfMemory>
        ensures { IfOk result (λ done. Steps done self.old self.new (event by (act.Swap word first last value) said)) }
    {
        let Some(cell) = self.cell_under(word, first, last) else {
            return Ok(false);
        };
        if value >= VALUE_END || said != Reply::Value(cell.value) {
            return Ok(false);
        }
        self.store(index_of(word), cell, value)?;
        Ok(true)
    }

    pub(crate) fn make_forge(
        &mut self,
        by: u32,
        number: u32,
        word: u32,
        said: Reply,
    ) -> Result<bool, OutOfMemory>
        ensures { IfOk result (λ done. Steps done self.old self.new (event by (act.Forge number word) said)) }
    {
        let field = Field::External { number };
        if !self.holds(by, object_of(field)) || said != Reply::Ok {
            return Ok(false);
        }
        self.set_word(field, word)?;
        self.set_bound(field, None)?;
        self.touch(field, word)?;
        Ok(true)
    }

    pub(crate) fn make_publish(
        &mut self,
        by: u32,
        index: u32,
        said: Reply,
    ) -> Result<bool, OutOfMemory>
        ensures { IfOk result (λ done. Steps done self.old self.new (event by (act.Publish index) said)) }
    {
        if self.ticket(by) != Some(index) || said != Reply::Ok {
            return Ok(false);
        }
        self.show_cell(index)?;
        self.drop_ticket(by);
        self.mark(Space::Trusted, index)?;
        Ok(true)
    }

    /// The trusted cell at the index can be seen.
    fn show_cell(&mut self, index: u32) -> Result<(), OutOfMemory>
        ensures table { let s = shown self.old in OnOk result (shown self.new ≡ record s {
          cells = put_entry s.cells Trusted index (option_map (λ (c : Cell). record c { shown = true }) (s.cells Trusted index));
        }) }
        ensures spent { OnOk result (self.new.spent ≡ self.old.spent) }
    {
        match self.cell(Space::Trusted, index) {
            Some(cell) => self.set_cell(
                Space::Trusted,
                index,
                Cell {
                    shown: true,
                    ..cell
                },
            ),
            None => Ok(()),
        }
    }

    pub(crate) fn is_name(&self, by: u32, field: Field, said: Reply) -> bool
        ensures { IsTrue result ↔ IsLegal (shown self.now) (event by (act.Name field) said) }
    {
        self.holds(by, object_of(field)) && said == Reply::Word(self.word(field))
    }

    pub(crate) fn look(&self, space: Space, word: u32, first: u8, last: u8) -> Reply
        ensures { result ≡ look (shown self.now) space word first last }
    {
        let index = index_of(word);
        if index == 0 {
            return Reply::Null;
        }
        match self.cell(space, index) {
            Some(cell) if cell.shown && is_asked(first, last, cell.tag) => Reply::Value(cell.value),
            _ => Reply::Fault,
        }
    }

    fn may_bind(&self, by: u32, field: Field, word: u32) -> bool
        ensures { IsTrue result ↔ (row (shown self.now) by (act.Bind field word)).allowed }
    {
        self.holds(by, object_of(field))
            && (self.is_fresh(by, space_of(field), index_of(word)) || self.may_share(field, word))
    }

    fn may_share(&self, field: Field, word: u32) -> bool
        ensures { IsTrue result ↔ IsSharedBind (shown self.now) field word }
    {
        let index = index_of(word);
        match field {
            Field::External { .. } => false,
            Field::Trusted { .. } => {
                self.cell(Space::Trusted, index).is_some()
                    && self.is_settled(index)
                    && self.is_marked(Space::Trusted, index)
            }
        }
    }

    /// In a cycle the index is marked.
    fn is_marked(&self, space: Space, index: u32) -> bool
        ensures { IsTrue result ↔ IfSome (shown self.now).cycle (λ c. IsTrue (c.marks space index)) }
    {
        match &self.cycle {
            Some(cycle) => cycle.is_marked(space, index),
            None => true,
        }
    }

    /// The id of the cell at the index, where one stands there.
    pub(crate) fn id_at(&self, space: Space, index: u32) -> Option<u64>
        ensures { result ≡ id_at (shown self.now) space index }
    {
        match self.cell(space, index) {
            Some(cell) => Some(cell.id),
            None => None,
        }
    }

    /// The cell at the index that a word of the external space names, if its tag is asked.
    fn cell_under(&self, word: u32, first: u8, last: u8) -> Option<Cell>
        ensures some { IfSome result (λ cell. ((shown self.now).cells External (index_of word) ≡ Some cell) × IsTrue (is_asked first last cell.tag)) }
        ensures none { IfNone result (HasCell (shown self.now) word first last → ⊥) }
    {
        match self.cell(Space::External, index_of(word)) {
            Some(cell) if is_asked(first, last, cell.tag) => Some(cell),
            _ => None,
        }
    }

    /// The cell at the index gets the value.
    fn store(&mut self, index: u32, cell: Cell, value: u64) -> Result<(), OutOfMemory>
        requires { (shown self.old).cells External index ≡ Some cell }
        ensures table { OnOk result (shown self.new ≡ with_value (shown self.old) index value) }
        ensures spent { OnOk result (self.new.spent ≡ self.old.spent) }
    {
        self.set_cell(Space::External, index, Cell { value, ..cell })?;
        self.mark(Space::External, index)
    }
}
