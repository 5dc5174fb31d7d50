// The mutator: its image, and what a cycle keeps for its finish.
ghost use Rattle.std.specs.Prelude.{◌≡◌};

use crate::places::PHASE;
use entry_word::{Image, Shape};
use plain_table::OutOfMemory;
use std::alloc::Global;
use sweeper::Area;

/// The one mutator, number 0, with the image that its calls work on; and, without its calls, an image at the meets between phases.
/// Between two calls it is ready (`IsReady` of `specs/Calls.antt`): the image is lawful, and the objects that are shaded and not
/// scanned are listed.
#[derive(Debug, Drop)]
pub struct Mutator {
    pub image: Image,
    /// Room to list all objects; the first `owed` are those that are shaded and not scanned, each once.
    pub list: Vec<u32>,
    /// How many objects are listed.
    pub owed: usize,
    /// What the start of the cycle under way gave.
    pub area: Option<Area>,
}

impl Mutator {
    ghost use Rattle.std.specs.Prelude.{◌<◌, ◌==◌, IfOk, IfSome, is_some, slice_index};
    ghost use Rattle.plain_table.specs.Table.{Table};
    ghost use Rattle.plain_table.specs.Shows.{IsFreshImage};
    ghost use Rattle.entry_word.specs.Image.{IsValidShape, ShowsOpening, image_of};
    ghost use Rattle.mutator_calls.specs.Calls.{IsReady, Sees};

    /// The mutator of a table before anything happened. It refuses only where an allocation fails.
    pub fn fresh(alloc: Global, shape: Shape) -> Result<Mutator, OutOfMemory>
        requires { IsValidShape shape }
        ensures ready { IfOk result IsReady }
        ensures shape { IfOk result (λ m. m.image.shape ≡ shape) }
        ensures opening { IfOk result (λ m. ShowsOpening (image_of m.image)) }
        ensures outside { IfOk result (λ m. slice_index m.image.words.items 4 ≡ 0) }
    {
        let image = Image::fresh(alloc, shape)?;
        let Ok(list) = vec![in alloc; 0; shape.objects as usize] else {
            return Err(OutOfMemory);
        };
        Ok(Mutator {
            image,
            list,
            owed: 0,
            area: None,
        })
    }

    /// A collection cycle is under way: it may be finished, and else one may be started.
    pub fn in_cycle(&self) -> bool
        requires { IsReady self.now }
        ensures phase { result ≡ (slice_index self.now.image.words.items 4 == 1) }
        ensures tables { (s : Table) → Sees (image_of self.now.image) s → result ≡ is_some s.cycle }
    {
        self.image.words[PHASE] == 1
    }

    /// The object that a variable of the mutator holds.
    pub(crate) fn held(&self, var: u32) -> Option<u32>
        requires ready { IsReady self.now }
        requires variable { var < 16 }
        ensures tables { (s : Table) → Sees (image_of self.now.image) s → result ≡ s.vars 0 var }
        ensures few { IfSome result (λ o. (o < self.now.image.shape.objects) × (o < 16384)) }
    {
        let word = self.image.vars[var as usize];
        if word == 0 { None } else { Some(word - 1) }
    }
}
