// The steps of objects: they are made, held by variables, and linked to globals and references.
ghost use Rattle.std.specs.Prelude.{◌≡◌, ◌↔◌, true, IsTrue, IfOk};
ghost use Rattle.plain_table.specs.Rows.{IsSpotOf, IsFull, object_in};
ghost use Rattle.plain_table.specs.Shapes.{event};
ghost use Rattle.plain_program.specs.Kept.{shown};
ghost use Rattle.plain_program.specs.Steps.{Steps};

use crate::numbers::{GLOBALS, MUTATORS, REFERENCES, VARIABLES};
use crate::state::State;
use crate::{OutOfMemory, Reply, Spot};

impl State {
    ghost use Rattle.plain_table.specs.declared.events.Act.TheVariants as act;

    pub(crate) fn make_new(&mut self, by: u32, var: u32, said: Reply) -> Result<bool, OutOfMemory>
        ensures { IfOk result (λ done. Steps done self.old self.new (event by (act.New var) said)) }
    {
        if by >= MUTATORS || var >= VARIABLES {
            return Ok(false);
        }
        let object = self.count();
        if object >= self.objects() {
            return Ok(said == Reply::HeapFull);
        }
        if said != Reply::Obj(object) {
            return Ok(false);
        }
        self.set_variable(by, var, Some(object))?;
        self.add_object();
        self.add_born(object)?;
        Ok(true)
    }

    pub(crate) fn make_drop(&mut self, by: u32, var: u32, said: Reply) -> Result<bool, OutOfMemory>
        ensures { IfOk result (λ done. Steps done self.old self.new (event by (act.Drop var) said)) }
    {
        if by >= MUTATORS || var >= VARIABLES || said != Reply::Ok {
            return Ok(false);
        }
        self.set_variable(by, var, None)?;
        Ok(true)
    }

    pub(crate) fn make_get(
        &mut self,
        by: u32,
        var: u32,
        spot: Spot,
        said: Reply,
    ) -> Result<bool, OutOfMemory>
        ensures { IfOk result (λ done. Steps done self.old self.new (event by (act.Get var spot) said)) }
    {
        if by >= MUTATORS || var >= VARIABLES || !self.is_spot(by, spot) {
            return Ok(false);
        }
        let object = self.at_spot(spot);
        if said != object.map_or(Reply::Nothing, Reply::Obj) {
            return Ok(false);
        }
        self.set_variable(by, var, object)?;
        Ok(true)
    }

    pub(crate) fn make_link(
        &mut self,
        by: u32,
        spot: Spot,
        var: Option<u32>,
        said: Reply,
    ) -> Result<bool, OutOfMemory>
        ensures { IfOk result (λ done. Steps done self.old self.new (event by (act.Link spot var) said)) }
    {
        if !self.is_spot(by, spot) || !self.is_full(by, var) || said != Reply::Ok {
            return Ok(false);
        }
        let object = self.object_in(by, var);
        self.set_spot(spot, object)?;
        Ok(true)
    }

    /// A place that the number may read or link: a global, or a reference of an object that it holds.
    fn is_spot(&self, by: u32, spot: Spot) -> bool
        ensures { IsTrue result ↔ IsSpotOf (shown self.now) by spot }
    {
        match spot {
            Spot::Global { g } => g < GLOBALS,
            Spot::Ref { object, k } => k < REFERENCES && self.holds(by, object),
        }
    }

    /// The variable holds an object, or none is named.
    fn is_full(&self, by: u32, var: Option<u32>) -> bool
        ensures { IsTrue result ↔ IsFull (shown self.now) by var }
    {
        match var {
            Some(var) => var < VARIABLES && self.variable(by, var).is_some(),
            None => true,
        }
    }

    /// The object of the variable, where one is named.
    fn object_in(&self, by: u32, var: Option<u32>) -> Option<u32>
        ensures { result ≡ object_in (shown self.now) by var }
    {
        match var {
            Some(var) => self.variable(by, var),
            None => None,
        }
    }
}
